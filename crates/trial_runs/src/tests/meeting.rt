// Workers that meet: two hold chunks at once, and the manager lies free while a piece is read.
ghost use Rattle.std.specs.Prelude.{◌≡◌, ◌≤◌, ◌^◌};

use super::{COUNT_TWICE, run_beside};
use coop_outside::{Depot, DepotFault, Failed, MemDepot};
use cscan::{Delivery, Gate};
use help_stories::tables::TABLE_A;
use std::alloc::Global;
use std::random::RandomSource;
use std::sync::Wait;
use std::sync::atomic::{AtomicU64, Ordering};
use std::test::Fail;
use std::thread;
use std::thread::Threads;

const TWO_WORKERS: &str = "--threads 2 --frames 7 --rows 2 a.csv b.sql";

// How often a wait looks before it gives up.
const TURNS: u32 = 10000000;

// Waits until the flag is set. Whether it was set before the turns ended.
fn await_flag(flag: &AtomicU64) -> bool {
    for _ in 0..TURNS {
        if flag.load(Ordering::SeqCst) > 0 {
            return true;
        }
        thread::yield_now();
    }
    false
}

// Whether a batch over table A on two workers beside a gate is answered so.
fn is_answered<D: Depot + Send, T: Gate + Sync, R: RandomSource + Threads + Wait + Sync>(
    rt: &R,
    alloc: Global,
    batch: &str,
    answers: &str,
    depot: D,
    gate: &T,
) -> Result<bool, Fail>
    requires gets { D.gets depot ≤ 2 ^ 63 }
{
    let (table, batch) = (TABLE_A.as_bytes(), batch.as_bytes());
    let left = run_beside(rt, alloc, TWO_WORKERS, table, batch, depot, gate)?;
    Ok(left.ended.status == 0 && left.output.as_slice() == answers.as_bytes())
}

// Holds the first chunk of worker 0 until worker 1 holds one.
#[derive(Drop)]
struct BothHold {
    // How many chunks worker 0 has held, and worker 1.
    first: AtomicU64,
    second: AtomicU64,
    // Worker 1 came before the wait gave up.
    met: AtomicU64,
}

impl Gate for BothHold {
    type Called = Delivery;

    ghost delivery_of = { λ delivery. delivery };

    fn holding<R: Wait>(&self, _rt: &R, delivery: Delivery) -> Delivery {
        if delivery.worker() > 0 {
            self.second.fetch_add(1, Ordering::SeqCst);
            return delivery;
        }
        if self.first.fetch_add(1, Ordering::SeqCst) == 0 && await_flag(&self.second) {
            self.met.fetch_add(1, Ordering::SeqCst);
        }
        delivery
    }
}

#[test]
fn two_workers_hold_chunks_at_once(rt: HostRuntime) -> Result<(), Fail> {
    let gate = BothHold {
        first: AtomicU64::new(0),
        second: AtomicU64::new(0),
        met: AtomicU64::new(0),
    };
    let depot = MemDepot::new(rt.alloc());
    let answers = "query 1\n5\nquery 2\n5\n";
    let is_answered = is_answered(&rt, rt.alloc(), COUNT_TWICE, answers, depot, &gate)?;
    assert!(rt; is_answered && gate.met.load(Ordering::SeqCst) == 1);
    Ok(())
}

// What the gate and the depot of the next test tell each other.
#[derive(Drop)]
struct Signs {
    // The get of piece 1 has begun.
    begun: AtomicU64,
    // The gate was called for query 4.
    fourth: AtomicU64,
    // How many waits gave up.
    late: AtomicU64,
}

// Holds query 2 until the get of piece 1 has begun.
#[derive(Drop)]
struct HoldsSecond<'a> {
    signs: &'a Signs,
}

impl Gate for HoldsSecond<'_> {
    type Called = Delivery;

    ghost delivery_of = { λ delivery. delivery };

    fn holding<R: Wait>(&self, _rt: &R, delivery: Delivery) -> Delivery {
        if delivery.query() == 4 {
            self.signs.fourth.fetch_add(1, Ordering::SeqCst);
        }
        if delivery.query() == 2 && !await_flag(&self.signs.begun) {
            self.signs.late.fetch_add(1, Ordering::SeqCst);
        }
        delivery
    }
}

// Its get of piece 1 waits until the gate was called for query 4.
#[derive(Drop)]
struct SlowDepot<'a> {
    inner: MemDepot,
    signs: &'a Signs,
}

impl Depot for SlowDepot<'_> {
    ghost use Rattle.std.specs.Prelude.{Some};

    ghost held = { λ s. Some s.inner.pieces.entries };

    ghost gets = { λ s. s.inner.gets };

    ghost faults = { λ s. s.inner.faults };

    fn put(&mut self, piece: u32, bytes: &[u8]) -> Result<(), DepotFault> {
        self.inner.put(piece, bytes)
    }

    fn get(&mut self, piece: u32, buf: &mut [u8]) -> Result<(), Failed> {
        if piece == 1 {
            self.signs.begun.fetch_add(1, Ordering::SeqCst);
            if !await_flag(&self.signs.fourth) {
                self.signs.late.fetch_add(1, Ordering::SeqCst);
            }
        }
        self.inner.get(piece, buf)
    }

    fn faults(&self) -> u64 {
        self.inner.faults()
    }
}

const FOUR_COUNTS: &str = "SELECT COUNT(*) FROM t; SELECT COUNT(*) FROM t WHERE id <= 2;
    SELECT COUNT(*) FROM t WHERE id > 9; SELECT COUNT(*) FROM t WHERE id <= 2;";

#[test]
fn the_baton_lies_free_during_a_get(rt: HostRuntime) -> Result<(), Fail> {
    let signs = Signs {
        begun: AtomicU64::new(0),
        fourth: AtomicU64::new(0),
        late: AtomicU64::new(0),
    };
    let gate = HoldsSecond { signs: &signs };
    let depot = SlowDepot {
        inner: MemDepot::new(rt.alloc()),
        signs: &signs,
    };
    let answers = "query 1\n5\nquery 2\n2\nquery 3\n0\nquery 4\n2\n";
    let is_answered = is_answered(&rt, rt.alloc(), FOUR_COUNTS, answers, depot, &gate)?;
    assert!(rt; is_answered && signs.late.load(Ordering::SeqCst) == 0);
    Ok(())
}
