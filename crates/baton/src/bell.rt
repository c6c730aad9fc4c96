//! Where workers sleep until others have changed something for them.
ghost use Rattle.std.specs.Prelude.{◌<◌};

use crate::rings::Words;
use scan_story::Memory;
use std::alloc::Global;
use std::marker::Model;
use std::sync::Wait;
use std::sync::atomic::AtomicU64;
use std::sync::atomic::Ordering::SeqCst;
use std::time::Duration;

// A place for each worker that a baton may have.
pub(crate) const PLACES: u32 = 32;

/// A place for each worker, by number, at which it sleeps until it is rung for.
///
/// Who has to wait lies down while it has the state, gives the state back, and sleeps. Who changes the state looks,
/// while it has it, who lies and may go on, gives it back, and rings for these. So no ring is lost, and every sleep has
/// an end of its own besides.
#[derive(Drop)]
pub struct Bell {
    pub(crate) words: Words,
    asleep: AtomicU64,
}

impl Model for Bell {
    ghost use Rattle.std.specs.Prelude.{◌≡◌};
    ghost use Rattle.atomic_table.specs.Seated.{TableId};

    ghost Value = { TableId };

    ghost view = { λ b. b.words.shared.table_id };

    ghost invariant = { λ b. b.words.shared.table_id.words ≡ 64 };
}

impl Bell {
    pub(crate) fn new(alloc: Global) -> Result<Bell, Memory> {
        match Words::of_words(alloc, &[0; 64], &()) {
            Ok((words, _seat)) => Ok(Bell {
                words,
                asleep: AtomicU64::new(0),
            }),
            Err(_) => Err(Memory),
        }
    }

    /// Whether somebody sleeps.
    pub fn is_waited_for(&self) -> bool {
        self.asleep.load(SeqCst) != 0
    }

    /// The query, from 1, that the worker sleeps for; 0 while it is awake.
    pub fn sleeps_for(&self, worker: u32) -> u64 {
        let place = PLACES + worker % PLACES;
        self.words.shared.peek(place as usize)
    }

    /// Notes that the worker, which is awake, sleeps for the query from here on; nothing where the query is 0. It
    /// answers how often the worker was rung for.
    pub fn lie_down(&self, worker: u32, query: u32) -> u64 {
        let worker = worker % PLACES;
        if query == 0 {
            return self.words.shared.peek(worker as usize);
        }
        self.asleep.fetch_add(1, SeqCst);
        let (rings, ringer) = self.note(worker, query);
        ringer.leave();
        rings
    }

    /// Sleeps until the worker is rung for once more than so often, and no longer than `most`. It may return early.
    pub fn sleep<R: Wait>(&self, rt: &R, worker: u32, rings: u64, most: Duration) {
        let worker = worker % PLACES;
        let rings = (rings & 0xffff_ffff) as u32;
        self.words
            .shared
            .park_timeout(rt, worker as usize, rings, most);
        self.get_up(worker);
    }

    /// Rings for the worker, which wakes it.
    pub fn ring(&self, worker: u32) {
        let worker = worker % PLACES;
        let (query, mut ringer) = self.clear(worker);
        if query != 0 {
            self.asleep.fetch_sub(1, SeqCst);
        }
        self.raise(&mut ringer, worker);
        ringer.leave();
        self.words.shared.wake_one(worker as usize);
    }

    // Notes that the worker is awake, and where nobody has rung for it yet, counts that as a ring.
    fn get_up(&self, worker: u32)
        requires { worker < 32 }
    {
        let (query, mut ringer) = self.clear(worker);
        if query != 0 {
            self.asleep.fetch_sub(1, SeqCst);
            self.raise(&mut ringer, worker);
        }
        ringer.leave();
    }
}
