// Whom a worker wakes once it has given the desk back.
ghost use Rattle.std.specs.Prelude.{◌≤◌};

use crate::pausing::somebody_lags;
use baton::Bell;
use interest_book::Book;
use scan_story::Phase;

/// After a turn of the query: where no load is underway and nobody lags, one worker that sleeps, which is to load.
pub(crate) fn next_to_load(bell: &Bell, book: &Book, query: u32) -> Option<u32> {
    if !bell.is_waited_for() || book.underway().is_some() || somebody_lags(book, query) {
        return None;
    }
    (0..32).find(|w| bell.sleeps_for(*w) != 0)
}

/// Rings for the worker, if any.
pub(crate) fn wake(bell: &Bell, worker: Option<u32>) {
    if let Some(worker) = worker {
        bell.ring(worker);
    }
}

/// The workers, by number, that are to be woken.
#[derive(Clone, Copy)]
pub(crate) struct Woken {
    is_woken: [bool; 32],
}

impl Woken {
    /// After the end of a load or a scan: those that sleep and have a chunk to take, or are stopped, and one of the
    /// others, which is to load next.
    pub(crate) fn after_load(bell: &Bell, book: &Book) -> Woken {
        let mut is_woken = [false; 32];
        let mut has_next = false;
        for w in 0..32u32 {
            let query = bell.sleeps_for(w);
            if query == 0 || query > 256 {
                continue;
            }
            let is_hungry = is_hungry(book, query as u32);
            if !is_hungry || !has_next {
                is_woken[w as usize] = true;
                has_next = has_next || is_hungry;
            }
        }
        Woken { is_woken }
    }

    /// Rings for each of them.
    pub(crate) fn ring(&self, bell: &Bell) {
        for w in 0..32u32 {
            if self.is_woken[w as usize] {
                bell.ring(w);
            }
        }
    }
}

// Whether the query is active and has no chunk to take.
fn is_hungry(book: &Book, query: u32) -> bool
    requires { query ≤ 256 }
{
    book.phase(query) == Phase::Active && book.available(query) == 0
}
