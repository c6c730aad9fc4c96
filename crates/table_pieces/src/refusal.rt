// Why a table wasn't put.
ghost use Rattle.std.specs.Prelude.{◌≡◌};
ghost use Rattle.table_pieces.specs.declared.refusal.BatchRefusal.TheVariants as refusals;

use table_core::Memory as Want;

/// Why a batch didn't start.
#[derive(Clone, Copy, PartialEq, Eq)]
pub enum BatchRefusal {
    /// The depot didn't take this piece, counted from 0. Its count of faults rose, or stands at its last value 2^64 -
    /// 1.
    /// The pieces below this one are in the depot, this one may be anything, and those above it are as they were.
    Put { piece: u32 },
    /// Out of memory. The pieces below some number, which may be none or all, are in the depot, and all others are as
    /// they were.
    Memory,
}

impl From<Want> for BatchRefusal {
    ghost from_gives = { λ _ r. r ≡ refusals.Memory };

    fn from(_: Want) -> Self {
        BatchRefusal::Memory
    }
}
