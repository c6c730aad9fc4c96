ghost use Rattle.std.specs.Prelude.{◌≡◌};
ghost use Rattle.interest_book.specs.Loading.{after_fill};

/// The load that is underway: who loads which chunk, and for which query.
#[derive(Clone, Copy, PartialEq, Eq)]
pub struct Underway {
    pub worker: u32,
    pub query: u32,
    pub chunk: u32,
}

/// What the book keeps of the load that is underway.
#[derive(Clone, Copy)]
pub struct Loading {
    pub worker: u32,
    pub query: u32,
    pub chunk: u32,
    /// How many of its missing pieces are not filled yet.
    pub left: u32,
}

/// The load after one of its pieces was filled. It is over with the last one.
pub fn after_fill(loading: Option<Loading>) -> Option<Loading>
    ensures { result ≡ after_fill loading }
{
    match loading {
        Some(l) if l.left > 1 => Some(Loading {
            worker: l.worker,
            query: l.query,
            chunk: l.chunk,
            left: l.left - 1,
        }),
        _ => None,
    }
}
