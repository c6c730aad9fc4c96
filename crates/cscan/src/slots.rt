// The slots of a chunk that is out.
ghost use Rattle.std.specs.Prelude.{◌≡◌, ◌<◌, true, length};
ghost use Rattle.scan_story.specs.Counting.{has as is_among};
ghost use Rattle.abm_policy.specs.Loads.{pieces as pieces_in};
ghost use Rattle.frame_rows.specs.Pins.{slot_at};

use table_sets::Slots;

/// The place of the slot that has a piece.
pub(crate) fn place_of(slots: &Slots, piece: u32) -> u32
    requires { is_among (pieces_in slots.now) piece ≡ true }
    ensures there { result < length slots.now }
    ensures piece { (slot_at slots.now result).1 ≡ piece }
{
    for i in 0..slots.len() {
        let (_, other) = slots.at(i);
        if other == piece {
            return i;
        }
    }
    unreachable!()
}
