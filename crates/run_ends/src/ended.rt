// What a run leaves.
ghost use Rattle.std.specs.Prelude.{◌≡◌};
ghost use Rattle.run_ends.specs.Answering.{story_in, taken_in};

use crate::settled::Settled;
use batch_ends::{Ran, Taken};
use scan_story::Entry;
use std::alloc::Global;

/// What a run leaves.
#[derive(Drop)]
pub struct Ended<D> {
    /// How it ended, from 0 to 9; docs/COMMAND_LINE.md lists them.
    pub status: u8,
    /// What all turns of the workers recorded, the oldest entry first; empty where no worker ran.
    pub story: Vec<Entry>,
    /// The chunks that each scan took: of each query, in their order, each part in part order; empty where no worker
    /// ran.
    pub taken: Vec<Taken>,
    /// The depot, with the table's pieces where they were put.
    pub depot: D,
}

/// What a run leaves, of what it came to.
pub fn leave<D>(alloc: Global, settled: Settled<D>) -> Ended<D>
    ensures status { result.status ≡ settled.status }
    ensures story { result.story.items ≡ story_in settled.ran }
    ensures taken { result.taken.items ≡ taken_in settled.ran }
    ensures depot { result.depot ≡ settled.depot }
{
    let Settled { status, ran, depot } = settled;
    match ran {
        Some(Ran { story, taken }) => Ended {
            status,
            story,
            taken,
            depot,
        },
        None => Ended {
            status,
            story: Vec::new(alloc),
            taken: Vec::new(alloc),
            depot,
        },
    }
}
