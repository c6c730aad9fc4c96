ghost use Rattle.std.specs.Prelude.{◌≡◌, ◌==◌, ◌&&◌, ◌||◌, ◌↔◌, ◌≤◌, ℕ, IfOk, IsTrue, is_some, length, not};
ghost use Rattle.std.specs.List.{list_all};
ghost use Rattle.scan_story.specs.Counting.{any_below, count_among};
ghost use Rattle.scan_story.specs.Views.{past, registers, held_by, is_ended, is_stopped};
ghost use Rattle.scan_story.specs.Loads.{underway};
ghost use Rattle.scan_story.specs.Whole.{IsWhole};
ghost use Rattle.help_views.specs.Small.{IsSmall};
ghost use Rattle.help_judge.specs.Tests.{is_finished, is_complete};

use help_views::{held_by, is_ended, is_stopped, registers, underway};
use scan_story::{Entry, Load, Setting};
use std::alloc::{AllocError, Global};

#[tactic(auto, using(help_views::proofs::Below::count_among_cons))]
fn count_registers(entries: &[Entry], q: u32) -> u64
    ensures value { result ≡ count_among (registers q) (past entries.now) }
    ensures bound { result ≤ length entries.now }
{
    match entries {
        [] => 0,
        [rest @ .., last] => {
            let before = count_registers(rest, q);
            if registers(q, last) {
                before + 1
            } else {
                before
            }
        }
    }
}

fn is_over(entries: &[Entry], q: u32) -> bool
    ensures { result ≡ (is_ended (past entries.now) q || is_stopped (past entries.now) q) }
{
    is_ended(entries, q) || is_stopped(entries, q)
}

fn is_finished(entries: &[Entry], q: u32) -> bool
    ensures { result ≡ is_finished (past entries.now) q }
{
    count_registers(entries, q) == 1 && is_over(entries, q)
}

fn all_finished(s: &Setting, entries: &[Entry]) -> bool
    ensures { result ≡ list_all (λ n. is_finished (past entries.now) n.query) s.now.needs }
{
    s.needs.iter().all(|n| is_finished(entries, n.query))
}

fn holds_something(entries: &[Entry], w: u32) -> bool
    ensures { result ≡ is_some (held_by (past entries.now) w) }
{
    held_by(entries, w).is_some()
}

#[tactic(auto, using(help_views::proofs::Below::any_below_more))]
fn someone_holds(s: &Setting, entries: &[Entry]) -> bool
    ensures { result ≡ any_below (λ w. is_some (held_by (past entries.now) w)) s.now.workers }
{
    let mut found = false;
    for w in 0..s.workers {
        found = holds_something(entries, w) || found;
    }
    found
}

fn is_complete(s: &Setting, entries: &[Entry], load: &Option<Load>) -> bool
    requires { load.now ≡ underway s.now (past entries.now) }
    ensures { result ≡ is_complete s.now (past entries.now) }
{
    all_finished(s, entries) && load.is_none() && !someone_holds(s, entries)
}

/// Whether each query has one Register and has ended or stopped, and nothing is left open.
pub fn is_whole(alloc: Global, s: &Setting, entries: &[Entry]) -> Result<bool, AllocError>
    requires { IsSmall s.now }
    ensures { IfOk result (λ b. IsTrue b ↔ IsWhole s.now (past entries.now)) }
{
    let load = underway(alloc, s, entries)?;
    let whole = is_complete(s, entries, &load);
    Ok(whole)
}
