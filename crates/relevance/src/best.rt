//! The best candidate so far.
ghost use Rattle.std.specs.Prelude.{◌≡◌};
ghost use Rattle.relevance.specs.Best.{is_greater, greater_of, lesser_of, higher_of, chunk_in, query_in};

use scan_story::Ratio;

/// A chunk with its ratio.
#[derive(Clone, Copy)]
pub struct BestChunk {
    pub chunk: u32,
    pub ratio: Ratio,
}

/// A query with its rank.
#[derive(Clone, Copy)]
pub struct BestQuery {
    pub query: u32,
    pub rank: i64,
}

fn is_greater(a: Ratio, b: Ratio) -> bool
    ensures { result ≡ is_greater a b }
{
    (b.num as u64 * a.den as u64) < a.num as u64 * b.den as u64
}

/// The chunk where its ratio is greater than the best so far, or else the best so far.
pub fn greater_of(best: Option<BestChunk>, chunk: u32, ratio: Ratio) -> Option<BestChunk>
    ensures { result ≡ greater_of best chunk ratio }
{
    match best {
        None => Some(BestChunk { chunk, ratio }),
        Some(b) => {
            if is_greater(ratio, b.ratio) {
                Some(BestChunk { chunk, ratio })
            } else {
                Some(b)
            }
        }
    }
}

/// The chunk where its ratio is less than the best so far, or else the best so far.
pub fn lesser_of(best: Option<BestChunk>, chunk: u32, ratio: Ratio) -> Option<BestChunk>
    ensures { result ≡ lesser_of best chunk ratio }
{
    match best {
        None => Some(BestChunk { chunk, ratio }),
        Some(b) => {
            if is_greater(b.ratio, ratio) {
                Some(BestChunk { chunk, ratio })
            } else {
                Some(b)
            }
        }
    }
}

/// The query where its rank is higher than the best so far, or else the best so far.
pub fn higher_of(best: Option<BestQuery>, query: u32, rank: i64) -> Option<BestQuery>
    ensures { result ≡ higher_of best query rank }
{
    match best {
        None => Some(BestQuery { query, rank }),
        Some(b) => {
            if b.rank < rank {
                Some(BestQuery { query, rank })
            } else {
                Some(b)
            }
        }
    }
}

/// The chunk alone.
pub fn chunk_in(best: Option<BestChunk>) -> Option<u32>
    ensures { result ≡ chunk_in best }
{
    match best {
        Some(b) => Some(b.chunk),
        None => None,
    }
}

/// The query alone.
pub fn query_in(best: Option<BestQuery>) -> Option<u32>
    ensures { result ≡ query_in best }
{
    match best {
        Some(b) => Some(b.query),
        None => None,
    }
}
