// Where pieces are stored and read.
ghost use Rattle.std.specs.Prelude.{◌≡◌, ◌≤◌, ◌<◌, ◌+◌, ◌-◌, ◌^◌, ℕ, length, OnOk, OnErr, Err};
ghost use Rattle.coop_outside.specs.Causes.{Rose};
ghost use Rattle.coop_outside.specs.Pieces.{Stored, HoldsPiece, OthersStay, ReadsPiece, with_piece};

use crate::failed::Failed;

/// Why a piece was not stored.
#[derive(Clone, Copy, PartialEq, Eq)]
pub enum DepotFault {
    /// A fault, which is counted. The piece may hold anything; the other pieces are as they were.
    Failed,
    /// Out of memory. All pieces are as they were.
    Memory,
}

/// A store of pieces, each a run of bytes under a number.
pub trait Depot: Drop {
    /// The pieces with their bytes, as a list of pairs by rising piece, if the depot tells them.
    ghost held: { Self → Stored };

    /// How many gets there were.
    ghost gets: { Self → ℕ };

    /// How many faults there were; the count never falls, and stands still at 2^64 - 1.
    ghost faults: { Self → ℕ };

    /// Stores the bytes under the piece, in place of those that were there.
    fn put(&mut self, piece: u32, bytes: &[u8]) -> Result<(), DepotFault>
        ensures stored { OnOk result (held self.new ≡ with_piece (held self.old) piece bytes.now) }
        ensures others { result ≡ Err DepotFault.Failed → OthersStay (held self.old) (held self.new) piece }
        ensures failed { result ≡ Err DepotFault.Failed → Rose (faults self.old) (faults self.new) }
        ensures memory { result ≡ Err DepotFault.Memory → held self.new ≡ held self.old }
        ensures gets { gets self.new ≡ gets self.old }
        ensures later { faults self.old ≤ faults self.new };

    /// Reads a piece, all of whose bytes fill `buf`. A depot that tells nothing of what it holds also fails
    /// where the piece isn't there or has another length. After an `Err` nothing is known of `buf`.
    fn get(&mut self, piece: u32, buf: &mut [u8]) -> Result<(), Failed>
        requires room { gets self.old < 2 ^ 64 - 1 }
        requires there { HoldsPiece (held self.old) piece (length buf.old) }
        ensures bytes { OnOk result (ReadsPiece (held self.old) piece buf.new) }
        ensures held { held self.new ≡ held self.old }
        ensures gets { gets self.new ≡ gets self.old + 1 }
        ensures failed { OnErr result (Rose (faults self.old) (faults self.new)) }
        ensures later { faults self.old ≤ faults self.new };

    /// The count of faults.
    fn faults(&self) -> u64
        ensures count { result ≡ faults self.now };
}
