// Plain buffer managers, beside which the engine is measured.
ghost use Rattle.std.specs.Prelude.{◌≡◌, ◌≤◌, ◌<◌, ◌^◌, IfOk, length, vec_len};

use crate::experiment::Experiment;
use crate::lru_pool::{LruPool, Step};
use crate::ordered_scan::OrderedScan;
use crate::played::Played;
use crate::range_query::{RangeQuery, chunks_needed};
use crate::timing_gate::TimingGate;
use crate::watch::Watch;
use anyhow::Result;
use coop_outside::Bytes;
use std::alloc::Global;
use std::rt::Clock;
use std::sync::{Condvar, Mutex, Wait};
use std::thread::Threads;
use std::{array, fmt, thread};

// As many as there are streams at most.
const BELLS: usize = 32;

// Where the streams sleep, each at a place of its own.
#[derive(Drop)]
struct Bells {
    places: [Condvar; 32],
}

impl Bells {
    fn new() -> Bells {
        Bells {
            places: array::from_fn(|_| Condvar::new()),
        }
    }

    // Where a stream sleeps.
    fn at(&self, stream: usize) -> &Condvar {
        &self.places[stream % BELLS]
    }

    // Wakes streams, which have a bit each.
    fn ring(&self, mut streams: u32) {
        for place in &self.places {
            if streams % 2 == 1 {
                place.notify_one();
            }
            streams /= 2;
        }
    }
}

// What the streams share.
#[derive(Drop)]
struct Plain<'a, C> {
    pool: Mutex<LruPool>,
    bells: Bells,
    gate: TimingGate<C>,
    watch: Watch<C>,
    experiment: Experiment,
    queries: &'a [RangeQuery],
    attaches: bool,
}

// A stream of queries.
#[derive(Drop)]
struct Stream {
    number: usize,
    is_stuck: bool,
}

impl<C: Clock + Drop> Plain<'_, C> {
    // Waits until the stream has its chunk, or is to load it.
    fn step<R: Wait>(&self, rt: &R, stream: usize) -> Step {
        let pool = self.pool.lock(rt);
        let mut pool = self
            .bells
            .at(stream)
            .wait_while(rt, pool, |pool| pool.must_wait(stream));
        pool.step(stream)
    }

    // Loads the chunk into the frame at the place, and wakes those that waited for it, and who is to load next.
    fn load<R: Wait>(&self, rt: &R, place: usize, chunk: u32) {
        self.watch.sleep(self.experiment.get_us);
        let mut pool = self.pool.lock(rt);
        let served = pool.loaded(place, chunk);
        drop(pool);
        self.bells.ring(served);
    }

    // Waits for the next chunk of the stream's scan; none where each frame is pinned.
    fn take<R: Wait>(&self, rt: &R, stream: usize) -> Option<u32> {
        let chunk = self.pool.lock(rt).ask(stream)?;
        for _ in rt.forever() {
            match self.step(rt, stream) {
                Step::Work => return Some(chunk),
                Step::Load(place) => self.load(rt, place, chunk),
                Step::Stuck => return None,
            }
        }
        unreachable!()
    }

    // Runs a query of the stream. Whether it had all its chunks.
    fn run_query<R: Wait>(&self, rt: &R, stream: usize, place: usize) -> bool {
        let Some(query) = self.queries.get(place) else {
            return true;
        };
        let number = u32::try_from(place).unwrap_or(u32::MAX).saturating_add(1);
        let scan = OrderedScan::over(query, self.experiment.chunk_rows);
        self.pool.lock(rt).begin(stream, scan, self.attaches);
        for _ in 0..scan.count() {
            let Some(chunk) = self.take(rt, stream) else {
                return false;
            };
            self.gate.work_for(rt, number);
            self.pool.lock(rt).release(chunk);
        }
        self.pool.lock(rt).end(stream);
        true
    }

    // Runs the stream's queries one after another.
    fn run_stream<R: Wait>(&self, rt: &R, stream: &mut Stream) {
        let streams = self.experiment.streams as usize;
        for place in 0..self.queries.len() {
            if place % streams == stream.number && !stream.is_stuck {
                stream.is_stuck = !self.run_query(rt, stream.number, place);
            }
        }
    }
}

/// An experiment with fewer frames than streams, which a plain buffer manager can't play.
#[derive(Clone, Copy, Debug)]
pub(crate) struct TooFew<'a>(pub &'a Experiment);

impl fmt::Display for TooFew<'_> {
    fn fmt<W: fmt::Write>(&self, f: &mut fmt::Formatter<W>) -> fmt::Result {
        let (streams, frames) = (self.0.streams, self.0.frames);
        write!(
            f,
            "{streams} streams need {streams} frames, and there are {frames}"
        )
    }
}

// The streams of an experiment.
fn streams_of(alloc: Global, streams: u32) -> Result<Vec<Stream>> {
    let mut all = Vec::new(alloc);
    for number in 0..streams as usize {
        all.push(Stream {
            number,
            is_stuck: false,
        })?;
    }
    Ok(all)
}

/// Plays the queries over a plain buffer manager with LRU, each scan in table order; where they attach, from the place
/// of another scan on and around. It is for comparison with the engine alone: it reads no rows and gives no answers.
/// The error is out of memory, or one of the system's clock.
pub(crate) fn play_plain<R: Threads + Wait + Sync>(
    handle: &R,
    rt: HostRuntime,
    experiment: &Experiment,
    queries: &[RangeQuery],
    attaches: bool,
) -> Result<Played>
    requires frames { experiment.now.streams ≤ experiment.now.frames }
    requires few { length queries.now < 2 ^ 32 }
    ensures each { IfOk result (λ played. vec_len played.ends ≡ length queries.now) }
{
    let alloc = rt.alloc();
    let watch = Watch::new(rt)?;
    let gate = TimingGate::new(alloc, watch, queries, experiment)?;
    let room = chunks_needed(queries, experiment.chunk_rows) as usize;
    let pool = LruPool::new(alloc, experiment.frames, experiment.streams, room)?;
    let mut streams = streams_of(alloc, experiment.streams)?;
    let plain = Plain {
        pool: Mutex::new(pool),
        bells: Bells::new(),
        gate,
        watch,
        experiment: *experiment,
        queries,
        attaches,
    };
    let began = watch.micros();
    let threads = experiment.streams as usize;
    thread::for_each_mut(
        handle,
        streams.as_mut_slice(),
        threads,
        &|_, stream| { plain.run_stream(handle, stream) },
    );
    let is_stuck = streams.iter().any(|stream| stream.is_stuck);
    let Plain { pool, gate, .. } = plain;
    let pool = pool.into_inner();
    let reads = pool.reads();
    Ok(Played {
        status: u8::from(is_stuck),
        answers: Bytes::new(Vec::new(alloc)),
        gets: reads,
        reads,
        taken: pool.into_handed(),
        work: gate.worked(),
        streams: experiment.streams as usize,
        began,
        ends: gate.ends(alloc)?,
    })
}
