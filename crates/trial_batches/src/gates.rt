// What the gate is told: each delivery once, while its worker holds the chunk.
use crate::batches::{COUNT, run};
use crate::wanted::{Wanted, are_wanted};
use batch_run::{BatchEnd, Options};
use coop_outside::MemDepot;
use cscan::{Delivery, Gate};
use help_stories::tables::SIX_ROWS;
use piece_format::Layout;
use scan_story::Entry;
use std::alloc::Global;
use std::hash::RandomState;
use std::process::Abort;
use std::random::RandomSource;
use std::sync::atomic::{AtomicU64, Ordering};
use std::sync::{Mutex, Wait};
use std::test::Fail;
use std::thread;
use std::thread::Threads;
use table_core::Cell::Int;

// How many chunks each of the two workers takes.
const CHUNKS: u64 = 6;

// How often a wait looks before it gives up.
const LOOKS: u32 = 10000000;

const OPTIONS: Options = Options {
    workers: 2,
    frames: 7,
    per: 1,
    layout: Layout::Row,
    parts: 1,
};

const BOTH_SIX: &[Wanted] = &[Wanted::Rows(&[&[Int(6)]]), Wanted::Rows(&[&[Int(6)]])];

// A worker, a query and a chunk.
type Call = (u32, u32, u32);

// The calls with the number of a worker.
#[derive(Drop)]
struct Told {
    calls: Mutex<Vec<Call>>,
    count: AtomicU64,
}

impl Told {
    fn new(alloc: Global) -> Told {
        Told {
            calls: Mutex::new(Vec::new(alloc)),
            count: AtomicU64::new(0),
        }
    }

    // Notes a call, and answers how many there are now. A call that isn't noted when out of memory is missed by the
    // test.
    fn note<R: Wait>(&self, rt: &R, call: Call) -> u64 {
        let _ = self.calls.lock(rt).push(call);
        self.count.fetch_add(1, Ordering::SeqCst).saturating_add(1)
    }
}

// Notes its calls, and lets two workers go hand over hand: each holds a chunk until the other holds its next one.
#[derive(Drop)]
struct HandOverHand {
    first: Told,
    second: Told,
    // How many waits gave up. Then none waits any more.
    late: AtomicU64,
}

impl HandOverHand {
    // Waits until there are so many calls.
    fn await_calls(&self, told: &Told, count: u64) {
        for _ in 0..LOOKS {
            if told.count.load(Ordering::SeqCst) >= count || self.late.load(Ordering::SeqCst) > 0 {
                return;
            }
            thread::yield_now();
        }
        self.late.fetch_add(1, Ordering::SeqCst);
    }
}

impl Gate for HandOverHand {
    type Called = Delivery;

    ghost delivery_of = { λ delivery. delivery };

    fn holding<R: Wait>(&self, rt: &R, delivery: Delivery) -> Delivery {
        let call = (delivery.worker(), delivery.query(), delivery.chunk());
        if delivery.worker() == 0 {
            let count = self.first.note(rt, call);
            self.await_calls(&self.second, count.saturating_add(1).min(CHUNKS));
        } else {
            let count = self.second.note(rt, call);
            self.await_calls(&self.first, count.min(CHUNKS));
        }
        delivery
    }
}

// The deliveries to a worker.
fn deliveries_to(alloc: Global, story: &[Entry], to: u32) -> Result<Vec<Call>, Fail> {
    let mut calls = Vec::new(alloc);
    for entry in story {
        if let Entry::Deliver {
            worker,
            query,
            chunk,
        } = *entry
            && worker == to
        {
            calls.push((worker, query, chunk))?;
        }
    }
    Ok(calls)
}

// Whether at each delivery but the first some chunk is held.
fn goes_hand_over_hand(story: &[Entry]) -> bool {
    let mut deliveries: u32 = 0;
    let mut releases: u32 = 0;
    for entry in story {
        match entry {
            Entry::Deliver { .. } => {
                if deliveries > 0 && deliveries == releases {
                    return false;
                }
                deliveries = deliveries.saturating_add(1);
            }
            Entry::Release { .. } => releases = releases.saturating_add(1),
            _ => {}
        }
    }
    true
}

// Two counts over six chunks, on two workers beside the gate.
fn end_beside<R: Abort + RandomSource + Threads + Wait + Sync>(
    rt: &R,
    alloc: Global,
    gate: &HandOverHand,
) -> Result<BatchEnd<MemDepot>, Fail> {
    let keys = RandomState::new(rt)?;
    let (text, depot) = (SIX_ROWS.as_bytes(), MemDepot::new(alloc));
    match run(rt, alloc, keys, text, &[COUNT, COUNT], OPTIONS, depot, gate)? {
        Ok(end) => Ok(end),
        Err(_) => panic!(rt; "refused"),
    }
}

// Whether the calls are the deliveries to a worker.
fn are_deliveries(alloc: Global, told: Told, story: &[Entry], to: u32) -> Result<bool, Fail> {
    Ok(told.calls.into_inner() == deliveries_to(alloc, story, to)?)
}

// Whether the gate was told each delivery, and each worker held its chunk meanwhile.
fn is_told(alloc: Global, gate: HandOverHand, story: &[Entry]) -> Result<bool, Fail> {
    let HandOverHand {
        first,
        second,
        late,
    } = gate;
    let to_first = are_deliveries(alloc, first, story, 0)?;
    let to_second = are_deliveries(alloc, second, story, 1)?;
    let in_time = late.load(Ordering::SeqCst) == 0;
    Ok(to_first && to_second && in_time && goes_hand_over_hand(story))
}

#[test]
fn the_gate_is_called_once_for_each_delivery_before_its_release(
    rt: HostRuntime,
) -> Result<(), Fail> {
    let gate = HandOverHand {
        first: Told::new(rt.alloc()),
        second: Told::new(rt.alloc()),
        late: AtomicU64::new(0),
    };
    let end = end_beside(&rt, rt.alloc(), &gate)?;
    assert!(rt; are_wanted(&end.answers, BOTH_SIX));
    assert!(rt; is_told(rt.alloc(), gate, &end.ran.story)?);
    Ok(())
}
