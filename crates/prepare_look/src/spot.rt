// A walk over the bytes of a text that knows its line.
ghost use Rattle.std.specs.Prelude.{◌≡◌, ◌+◌, ◌≤◌, ◌<◌, ◌^◌, [], ◌∷◌, IfSome, IfNone, length};
ghost use Rattle.prepare_look.specs.Spots.{IsAfter, first_spot, lines_left};

use crate::lines::ended;
use crate::place::{Marks, Place};

/// Where a walk stands: before which byte, in which place, and on which line, counted from 1.
#[derive(Clone, Copy, Debug, PartialEq, Eq)]
pub(crate) struct Spot {
    pub at: usize,
    pub place: Place,
    pub behind_return: bool,
    pub line: usize,
}

impl Spot {
    /// The begin of a text.
    pub(crate) fn first() -> Spot
        ensures { result ≡ first_spot }
    {
        Spot {
            at: 0,
            place: Place::Between,
            behind_return: false,
            line: 1,
        }
    }

    /// Behind the next byte, which is this one.
    pub(crate) fn after(self, marks: Marks, byte: u8) -> Spot
        requires at { self.at < 2 ^ 63 }
        requires line { self.line ≤ self.at + 1 }
        ensures at { result.at ≡ self.at + 1 }
        ensures line { result.line ≤ result.at + 1 }
        ensures left { IsAfter marks self byte result }
    {
        Spot {
            at: self.at + 1,
            place: self.place.after(marks, byte),
            behind_return: byte == b'\r',
            line: self.line + ended(self.behind_return, byte),
        }
    }
}

/// Walks on to the begin of the next record, just behind its first byte, and tells its line.
pub(crate) fn next_begin(marks: Marks, text: &[u8], spot: &mut Spot) -> Option<usize>
    requires at { spot.old.at ≤ length text.now }
    requires line { spot.old.line ≤ spot.old.at + 1 }
    ensures at { spot.new.at ≤ length text.now }
    ensures line { spot.new.line ≤ spot.new.at + 1 }
    ensures found { IfSome result (λ line.
        lines_left marks text.now spot.old ≡ line ∷ lines_left marks text.now spot.new) }
    ensures ended { IfNone result (lines_left marks text.now spot.old ≡ []) }
{
    for i in spot.at..text.len() {
        let before = *spot;
        let next = before.after(marks, text[i]);
        *spot = next;
        if before.place.begins(next.place) {
            return Some(before.line);
        }
    }
    None
}
