// What a scan does between two turns that come to nothing.
ghost use Rattle.std.specs.Prelude.{◌≤◌};

use baton::Bell;
use interest_book::Book;
use scan_story::Phase;
use std::sync::Wait;
use std::time::Duration;

// The microseconds of a sleep for others, for each of them that has a chunk to take.
const FOR_EACH: u32 = 300;

// The least of it, since on a busy machine the one that lags may have no processor for a while.
const FOR_OTHERS: u32 = 1_200;

// The microseconds after which a sleep for a load ends, whether or not it was rung for.
const FOR_LOAD: u32 = 10_000;

// More than there are queries.
const EVERYBODY: u32 = 257;

// Of how many active queries one may be a chunk further ahead.
const QUERIES_PER_CHUNK: u32 = 4;

/// What a worker does before it turns again.
#[derive(Clone, Copy)]
pub(crate) enum Pause {
    /// Nothing.
    None,
    /// It sleeps until it is rung for once more than so often, and no longer than so many microseconds.
    Sleep { rings: u64, most: u32 },
}

impl Pause {
    // The worker lies down until the load underway has ended.
    fn for_load(bell: &Bell, worker: u32, query: u32) -> Pause {
        Pause::Sleep {
            rings: bell.lie_down(worker, query),
            most: FOR_LOAD,
        }
    }

    // The worker lies down for so many others.
    fn for_others(bell: &Bell, worker: u32, query: u32, others: u32) -> Pause
        requires { others ≤ 256 }
    {
        Pause::Sleep {
            rings: bell.lie_down(worker, query),
            most: (others * FOR_EACH).max(FOR_OTHERS),
        }
    }
}

/// Whether a scan has let others go first since it loaded, and what it does before it turns again.
#[derive(Clone, Copy)]
pub(crate) struct Patience {
    is_over: bool,
    pub(crate) pause: Pause,
}

impl Patience {
    pub(crate) fn new() -> Patience {
        Patience {
            is_over: false,
            pause: Pause::None,
        }
    }

    /// Lies down where a turn of the query would be NotYet, and where it would load while another one is far behind and
    /// the scan hasn't yet let others go first. Whether it lies.
    pub(crate) fn lies_down(&mut self, bell: &Bell, book: &Book, worker: u32, query: u32) -> bool
        requires query { query ≤ 256 }
    {
        if book.phase(query) != Phase::Active || book.needed(query) == 0 {
            return false;
        }
        if book.available(query) > 0 {
            return false;
        }
        if book.underway().is_some() {
            self.pause = Pause::for_load(bell, worker, query);
            return true;
        }
        if self.is_over || others_with(book, query, far(book), 1) == 0 {
            return false;
        }
        self.is_over = true;
        let others = others_with(book, query, 1, EVERYBODY);
        self.pause = Pause::for_others(bell, worker, query, others);
        true
    }

    /// Sleeps as the pause says.
    pub(crate) fn pause<R: Wait>(&mut self, rt: &R, bell: &Bell, worker: u32, pause: Pause) {
        match pause {
            Pause::None => self.is_over = false,
            Pause::Sleep { rings, most } => {
                bell.sleep(rt, worker, rings, Duration::from_micros(most as u64));
            }
        }
    }
}

// A query with so many chunks to take is far behind.
fn far(book: &Book) -> u32 {
    (book.running() / QUERIES_PER_CHUNK).max(1)
}

/// Whether another query is so far behind that who sleeps had better not load yet.
pub(crate) fn somebody_lags(book: &Book, query: u32) -> bool {
    others_with(book, query, far(book) / 2 + 1, 1) > 0
}

// How many other queries have so many chunks to take, counted up to `enough`.
fn others_with(book: &Book, query: u32, chunks: u32, enough: u32) -> u32
    ensures { result ≤ 256 }
{
    let mut found = 0;
    let mut left = book.running();
    for q in 1..257 {
        if left == 0 || found >= enough {
            break;
        }
        if book.phase(q) == Phase::Active {
            left -= 1;
            if q != query && book.available(q) >= chunks {
                found += 1;
            }
        }
    }
    found
}
