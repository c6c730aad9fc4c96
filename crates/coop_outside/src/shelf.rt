// Where the bytes of a name are read.
ghost use Rattle.std.specs.Prelude.{◌≡◌, ◌≤◌, ◌+◌, ℕ, OnErr};
ghost use Rattle.coop_outside.specs.Held.{Held, ReadFails, ReadsAt, count_of};

use crate::failed::Failed;

/// A store of named bytes, read a part at a time.
pub trait Shelf {
    /// The bytes of each name, if the shelf tells them. No call changes them.
    ghost held: { Self → Held };

    /// How many faults there were; the count never falls, and stands still at 2^64 - 1.
    ghost faults: { Self → ℕ };

    /// How many bytes all reads gave, where the shelf counts them: it counts no more than a read gave.
    ghost given: { Self → ℕ };

    /// Reads bytes of a name from a place on, counted in bytes from 0, into the front of `buf`, and says
    /// how many. `Ok(0)` with room in `buf` means that the name ends at or before the place. After an
    /// `Err` nothing is known of `buf`.
    fn read_at(&mut self, name: &str, place: u64, buf: &mut [u8]) -> Result<usize, Failed>
        ensures reads { ReadsAt (held self.old) name.now place result buf.new }
        ensures held { held self.new ≡ held self.old }
        ensures later { faults self.old ≤ faults self.new }
        ensures given { given self.new ≤ given self.old + count_of result }
        ensures cause { OnErr result (ReadFails (held self.old) name.now (faults self.old) (faults self.new)) };
}
