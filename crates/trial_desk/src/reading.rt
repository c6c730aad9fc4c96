//! Pieces read from a depot.
ghost use Rattle.std.specs.Prelude.{◌≡◌, ◌+◌, ◌-◌, ◌^◌, ◌<◌, ◌≤◌, length, IfNone, IfSome};
ghost use Rattle.trial_desk.specs.Rigged.{IsReport};

use abm_policy::{Slots, Why};
use coop_outside::{Depot, SpoiltDepot};

/// Reads the piece of each slot. A piece is one word, its own number. Answers the place of the first slot whose piece
/// could not be read, or is another word, and why; `None` where each was read.
pub fn read_slots(slots: &Slots, depot: &mut SpoiltDepot) -> Option<(u32, Why)>
    requires room { depot.old.inner.gets + length slots.now ≤ 2 ^ 64 - 1 }
    ensures all { IfNone result (depot.new.inner.gets ≡ depot.old.inner.gets + length slots.now) }
    ensures some { IfSome result (λ r. (r.0 < length slots.now)
        × (depot.new.inner.gets ≡ depot.old.inner.gets + r.0 + 1)) }
    ensures why { IfSome result (λ r. IsReport depot.old.inner.faults depot.new.inner.faults r.1) }
    ensures later { depot.old.inner.faults ≤ depot.new.inner.faults }
{
    let mut word = [0u8; 8];
    for i in 0..slots.len() {
        let (_frame, piece) = slots.at(i);
        let before = depot.faults();
        if depot.get(piece, &mut word).is_err() {
            let after = depot.faults();
            return Some((i, Why::Fault { before, after }));
        }
        if u64::from_le_bytes(word) != piece as u64 {
            return Some((i, Why::Damage { word: 0 }));
        }
    }
    None
}
