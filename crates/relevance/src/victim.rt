//! The fittest victim so far.
ghost use Rattle.std.specs.Prelude.{◌≡◌};
ghost use Rattle.relevance.specs.Victims.{is_fitter, fitter_of, chunk_in};

/// What victims are compared by: how close the chunk is, and then the policy's own key, each the less the fitter.
#[derive(Clone, Copy, PartialEq, Eq)]
pub struct Fitness {
    /// How many queries have the chunk available and at most two available chunks.
    pub close: u32,
    /// What the policy compares by among chunks that are equally close.
    pub key: u32,
}

/// A chunk that may be evicted, with its fitness.
#[derive(Clone, Copy)]
pub struct Victim {
    pub chunk: u32,
    pub fitness: Fitness,
}

fn is_fitter(a: Fitness, b: Fitness) -> bool
    ensures { result ≡ is_fitter a b }
{
    a.close < b.close || (a.close == b.close && a.key < b.key)
}

/// The chunk where it is fitter than the fittest so far, or else the fittest so far.
pub fn fitter_of(best: Option<Victim>, chunk: u32, fitness: Fitness) -> Option<Victim>
    ensures { result ≡ fitter_of best chunk fitness }
{
    match best {
        None => Some(Victim { chunk, fitness }),
        Some(b) => {
            if is_fitter(fitness, b.fitness) {
                Some(Victim { chunk, fitness })
            } else {
                Some(b)
            }
        }
    }
}

/// The chunk alone.
pub fn chunk_in(best: Option<Victim>) -> Option<u32>
    ensures { result ≡ chunk_in best }
{
    match best {
        Some(b) => Some(b.chunk),
        None => None,
    }
}
