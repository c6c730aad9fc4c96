//! Stations, made of passes and berths and taken apart again.
ghost use Rattle.std.specs.Prelude.{◌≡◌, ◌+◌, ◌*◌, ◌<◌, ◌≤◌, [], All, IfNone, IfSome, vec_capacity, vec_len};
ghost use Rattle.baton.specs.Passes.{IsFree, new_passes};
ghost use Rattle.frame_pool.specs.Berths.{IsBlank, IsOf};
ghost use Rattle.cscan.specs.Stations.{IsSeated};
ghost use Rattle.trial_scans.specs.Trials.{IsFresh};

use abm_policy::Desk;
use baton::{Baton, Pass};
use coop_outside::Depot;
use cscan::Station;
use frame_pool::{Berth, Content, Pool};
use relevance::Policy;
use scan_story::Origin;
use std::alloc::Global;

/// The station of the last pass and the last berth, whose buffer has room for a frame of so many words. Where there is
/// no memory for the buffer the berth is put back.
pub(crate) fn seated<S: Origin, C: Content, P: Policy, D: Depot>(
    alloc: Global,
    baton: &Baton<Desk<S, P, D>>,
    pool: &Pool<C>,
    words: u32,
    passes: &mut Vec<Pass<Desk<S, P, D>>>,
    berths: &mut Vec<Berth<C>>,
) -> Option<Station<S, C, P, D>>
    requires passes { passes.old.items ≡ new_passes baton.now S.origin [] (vec_len passes.old) }
    requires berths { All (λ b. IsOf pool.now b × IsBlank b) berths.old.items }
    requires some { (0 < vec_len passes.old) × (vec_len passes.old ≤ 32) }
    requires count { vec_len berths.old ≡ vec_len passes.old }
    requires words { (words ≡ pool.now.shape.words) × (8 * words ≤ 4294967295) }
    ensures seated { IfSome result (λ s. IsFresh baton.now pool.now S.origin (vec_len passes.new) s) }
    ensures passes { passes.new.items ≡ new_passes baton.now S.origin [] (vec_len passes.new) }
    ensures berths { All (λ b. IsOf pool.now b × IsBlank b) berths.new.items }
    ensures fewer { vec_len passes.new + 1 ≡ vec_len passes.old }
    ensures some { IfSome result (λ _. vec_len berths.new + 1 ≡ vec_len berths.old) }
    ensures none { IfNone result (vec_len berths.new ≡ vec_len berths.old) }
    ensures most { vec_len berths.new ≤ vec_len berths.old }
    ensures room { (vec_len passes.old ≤ vec_capacity passes.old) × (vec_len berths.old ≤ vec_capacity berths.old) }
    ensures kept { (vec_capacity passes.new ≡ vec_capacity passes.old)
        × (vec_capacity berths.new ≡ vec_capacity berths.old) }
{
    let Some(pass) = passes.pop() else {
        unreachable!()
    };
    let Some(berth) = berths.pop() else {
        unreachable!()
    };
    match Station::new(alloc, passes.len() as u32, berth, pass, 8 * words) {
        Ok(station) => Some(station),
        Err((berth, _pass, _memory)) => {
            berths.push_reserved(berth);
            None
        }
    }
}

/// Takes a station apart, on which no scan is under way.
pub(crate) fn unseated<S: Origin, C: Content, P: Policy, D: Depot>(
    baton: &Baton<Desk<S, P, D>>,
    pool: &Pool<C>,
    station: Station<S, C, P, D>,
    passes: &mut Vec<Pass<Desk<S, P, D>>>,
    berths: &mut Vec<Berth<C>>,
)
    requires seated { IsSeated baton.now pool.now S.origin [] station }
    requires passes { All (IsFree baton.now) passes.old.items }
    requires berths { All (λ b. IsOf pool.now b × IsBlank b) berths.old.items }
    requires room { (vec_len passes.old < vec_capacity passes.old) × (vec_len berths.old < vec_capacity berths.old) }
    ensures passes { All (IsFree baton.now) passes.new.items }
    ensures berths { All (λ b. IsOf pool.now b × IsBlank b) berths.new.items }
    ensures more { (vec_len passes.new ≡ vec_len passes.old + 1) × (vec_len berths.new ≡ vec_len berths.old + 1) }
    ensures room { (vec_capacity passes.new ≡ vec_capacity passes.old)
        × (vec_capacity berths.new ≡ vec_capacity berths.old) }
{
    let (berth, pass) = station.into_parts();
    berths.push_reserved(berth);
    passes.push_reserved(pass);
}
