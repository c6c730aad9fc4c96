// A gate with a clock.
ghost use Rattle.std.specs.Prelude.{◌≡◌, IfOk, length, vec_len};

use crate::experiment::Experiment;
use crate::kind::Kind;
use crate::permits::Permits;
use crate::range_query::RangeQuery;
use crate::watch::Watch;
use cscan::{Delivery, Gate};
use std::alloc::{AllocError, Global};
use std::rt::Clock;
use std::sync::Wait;
use std::sync::atomic::{AtomicU64, Ordering};

// What is noted of a query.
#[derive(Drop)]
struct Mark {
    // the microseconds that it is held before its stream begins
    late: u32,
    // the microseconds of its work on a chunk
    work: u32,
    // when it had its last chunk so far, in microseconds
    last: AtomicU64,
}

/// Notes when each query had its last chunk. A query sleeps first, with the chunk pinned, as if it worked on it, while
/// it has one of the processors.
#[derive(Drop)]
pub(crate) struct TimingGate<C> {
    watch: Watch<C>,
    processors: Permits,
    // the microseconds of all work so far
    worked: AtomicU64,
    marks: Vec<Mark>,
}

// What is to be noted of the query at a place.
fn mark_of(experiment: &Experiment, query: &RangeQuery, place: u32) -> Mark {
    let (late, work) = if query.kind == Kind::starter() {
        (place.saturating_mul(experiment.stagger_us), 0)
    } else if query.kind.slow {
        (0, experiment.slow_us)
    } else {
        (0, experiment.fast_us)
    };
    Mark {
        late,
        work,
        last: AtomicU64::new(0),
    }
}

// A mark for each query.
fn marks_of(
    alloc: Global,
    queries: &[RangeQuery],
    experiment: &Experiment,
) -> Result<Vec<Mark>, AllocError>
    ensures each { IfOk result (λ marks. vec_len marks ≡ length queries.now) }
{
    let mut marks = Vec::new(alloc);
    for (place, query) in queries.iter().enumerate() {
        let number = u32::try_from(place).unwrap_or(u32::MAX);
        marks.push(mark_of(experiment, query, number))?;
    }
    Ok(marks)
}

impl<C: Clock + Drop> TimingGate<C> {
    /// A gate for the queries of a run.
    pub(crate) fn new(
        alloc: Global,
        watch: Watch<C>,
        queries: &[RangeQuery],
        experiment: &Experiment,
    ) -> Result<Self, AllocError>
        ensures each { IfOk result (λ gate. vec_len gate.marks ≡ length queries.now) }
    {
        let marks = marks_of(alloc, queries, experiment)?;
        Ok(TimingGate {
            watch,
            processors: Permits::new(experiment.processors),
            worked: AtomicU64::new(0),
            marks,
        })
    }

    /// The microseconds of all work so far.
    pub(crate) fn worked(&self) -> u64 {
        self.worked.load(Ordering::SeqCst)
    }

    // Works for so many microseconds on one of the processors.
    fn work<R: Wait>(&self, rt: &R, micros: u32) {
        if micros > 0 {
            self.processors.take(rt);
            let begun = self.watch.micros();
            self.watch.sleep(micros);
            let took = self.watch.micros().saturating_sub(begun);
            self.worked.fetch_add(took, Ordering::SeqCst);
            self.processors.give(rt);
        }
    }

    /// A query has a chunk: it sleeps and works as it is to, and its time is noted. Queries count from 1.
    pub(crate) fn work_for<R: Wait>(&self, rt: &R, query: u32) {
        let place = (query as usize).wrapping_sub(1);
        if let Some(mark) = self.marks.get(place) {
            self.watch.sleep(mark.late);
            self.work(rt, mark.work);
            mark.last.store(self.watch.micros(), Ordering::SeqCst);
        }
    }

    /// When each query had its last chunk, in microseconds of the watch; 0 for one that had none.
    pub(crate) fn ends(&self, alloc: Global) -> Result<Vec<u64>, AllocError>
        ensures each { IfOk result (λ ends. vec_len ends ≡ vec_len self.now.marks) }
    {
        let mut ends = Vec::new(alloc);
        for mark in &self.marks {
            ends.push(mark.last.load(Ordering::SeqCst))?;
        }
        Ok(ends)
    }
}

impl<C: Clock + Drop> Gate for TimingGate<C> {
    type Called = Delivery;

    ghost delivery_of = { λ delivery. delivery };

    fn holding<R: Wait>(&self, rt: &R, delivery: Delivery) -> Delivery {
        self.work_for(rt, delivery.query());
        delivery
    }
}
