// Frames that a berth pins at once.
ghost use Rattle.std.specs.Prelude.{◌≡◌, ◌<◌, []};
ghost use Rattle.frame_pool.specs.Berths.{IsOf};
ghost use Rattle.frame_rows.specs.Pins.{AreFrames, pins_of, with_pins};

use frame_pool::{Berth, Content, Pool};
use std::sync::Wait;
use table_sets::Slots;

/// Pins the frame of each slot with the slot's piece, and waits for each of them.
pub fn pin_all<C: Content, R: Wait>(rt: &R, pool: &Pool<C>, berth: &mut Berth<C>, slots: &Slots)
    requires of { IsOf pool.now berth.old }
    requires none { berth.old.pins ≡ [] }
    requires fill { berth.old.fill ≡ None }
    requires frames { AreFrames pool.now.shape.frames slots.now }
    ensures { berth.new ≡ with_pins berth.old (pins_of slots.now) }
{
    for i in 0..slots.len() {
        let (frame, piece) = slots.at(i);
        pool.pin(rt, berth, frame, piece);
    }
}

/// Unpins the frame of each slot, that of the last slot first.
pub fn unpin_all<C: Content>(pool: &Pool<C>, berth: &mut Berth<C>, slots: &Slots)
    requires of { IsOf pool.now berth.old }
    requires pins { berth.old.pins ≡ pins_of slots.now }
    requires frames { AreFrames pool.now.shape.frames slots.now }
    ensures { berth.new ≡ with_pins berth.old [] }
{
    let mut left = slots.len();
    while left > 0 {
        left -= 1;
        let (frame, _) = slots.at(left);
        pool.unpin(berth, frame);
    }
}
