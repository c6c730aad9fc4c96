// Where bytes go.
ghost use Rattle.std.specs.Prelude.{◌≤◌, List, ℕ, Option, OnErr};
ghost use Rattle.coop_outside.specs.Causes.{Rose};
ghost use Rattle.coop_outside.specs.Taken.{Takes};

use crate::failed::Failed;

/// Takes bytes, a part of them at a time.
pub trait Sink {
    /// The bytes taken so far, if the sink tells them.
    ghost taken: { Self → Option (List ℕ) };

    /// How many faults there were; the count never falls, and stands still at 2^64 - 1.
    ghost faults: { Self → ℕ };

    /// Takes a prefix of the piece and says how many bytes that was: at least one where the piece has
    /// one. After an `Err` it has taken nothing of it.
    fn write(&mut self, piece: &[u8]) -> Result<usize, Failed>
        ensures takes { Takes (taken self.old) piece.now result (taken self.new) }
        ensures later { faults self.old ≤ faults self.new }
        ensures cause { OnErr result (Rose (faults self.old) (faults self.new)) };
}
