//! The best number so far.
ghost use Rattle.std.specs.Prelude.{◌≡◌};
ghost use Rattle.relevance.specs.Rated.{lesser_of, greater_of, number_in};

/// A number with what it is compared by.
#[derive(Clone, Copy)]
pub struct Rated {
    pub number: u32,
    pub by: u64,
}

/// The number where it is compared by less than the best so far, or else the best so far.
pub fn lesser_of(best: Option<Rated>, number: u32, by: u64) -> Option<Rated>
    ensures { result ≡ lesser_of best number by }
{
    match best {
        None => Some(Rated { number, by }),
        Some(b) => {
            if by < b.by {
                Some(Rated { number, by })
            } else {
                Some(b)
            }
        }
    }
}

/// The number where it is compared by more than the best so far, or else the best so far.
pub fn greater_of(best: Option<Rated>, number: u32, by: u64) -> Option<Rated>
    ensures { result ≡ greater_of best number by }
{
    match best {
        None => Some(Rated { number, by }),
        Some(b) => {
            if b.by < by {
                Some(Rated { number, by })
            } else {
                Some(b)
            }
        }
    }
}

/// The number alone.
pub fn number_in(best: Option<Rated>) -> Option<u32>
    ensures { result ≡ number_in best }
{
    match best {
        Some(b) => Some(b.number),
        None => None,
    }
}
