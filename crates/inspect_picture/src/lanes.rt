// Where things lie in a picture. Lengths are tenths of a pixel.
ghost use Rattle.std.specs.Prelude.{◌≡◌, ◌<◌, ◌≤◌, ◌^◌};
ghost use Rattle.inspect_picture.specs.Extents.{ink_of, is_shown, row_of};
ghost use Rattle.inspect_picture.specs.Scales as spec;

use crate::ink::Ink;
use crate::mark::Mark;
use crate::scale::Scale;

/// So many rows have marks: of workers three in each of 16 lanes, of frames two in each of 32, evictions and faults.
pub(crate) const ROWS: u64 = 114;

/// Where the lanes begin.
pub(crate) const LANES_TOP: u64 = 1700;

// The lane of one of so many that share at most so many lanes.
fn lane(most: u64, count: u64, place: u64) -> u64
    requires most { (1 ≤ most) × (most ≤ 2 ^ 8) }
    requires place { place < 2 ^ 32 }
    ensures lane { result ≡ spec.lane most count place }
    ensures small { result < most }
{
    if count <= most {
        return (most - 1).min(place);
    }
    (most - 1).min(place * most / count.max(1))
}

// The first of so many that lies in a lane.
pub(crate) fn first_in(most: u64, count: u64, lane: u64) -> u64
    requires most { (1 ≤ most) × (most ≤ 2 ^ 8) }
    requires lane { lane ≤ 2 ^ 8 }
    requires count { count ≤ 2 ^ 32 }
    ensures { result ≡ spec.first_in most count lane }
{
    if count <= most {
        return lane;
    }
    (lane * count + (most - 1)) / most.max(1)
}

impl Scale {
    // Where the entry with this number lies.
    pub(crate) fn x_at(&self, number: u32) -> u64
        ensures at { result ≡ spec.x_at self.now number }
        ensures small { result ≤ 8700 }
    {
        let (first, last) = (self.first as u64, self.last as u64);
        let shown = (number as u64).max(first).min(first.max(last));
        1000 + part_of_7700(shown - first, last.saturating_sub(first))
    }

    // How many workers there are.
    pub(crate) fn worker_count(&self) -> u64
        ensures count { result ≡ spec.worker_count self.now }
        ensures small { (1 ≤ result) × (result ≤ 2 ^ 32) }
    {
        self.last_worker as u64 + 1
    }

    // How many frames there are.
    pub(crate) fn frame_count(&self) -> u64
        ensures count { result ≡ spec.frame_count self.now }
        ensures small { (1 ≤ result) × (result ≤ 2 ^ 32) }
    {
        self.last_frame as u64 + 1
    }

    // How many lanes workers have.
    pub(crate) fn worker_lanes(&self) -> u64
        ensures lanes { result ≡ spec.worker_lanes self.now }
        ensures small { result ≤ 16 }
    {
        self.worker_count().min(16)
    }

    // How many lanes frames have.
    pub(crate) fn frame_lanes(&self) -> u64
        ensures lanes { result ≡ spec.frame_lanes self.now }
        ensures small { result ≤ 32 }
    {
        self.frame_count().min(32)
    }

    // The lane of a worker.
    pub(crate) fn worker_lane(&self, worker: u32) -> u64
        ensures lane { result ≡ spec.worker_lane self.now worker }
        ensures small { result < 16 }
    {
        lane(16, self.worker_count(), worker as u64)
    }

    // The lane of a frame.
    pub(crate) fn frame_lane(&self, frame: u32) -> u64
        ensures lane { result ≡ spec.frame_lane self.now frame }
        ensures small { result < 32 }
    {
        lane(32, self.frame_count(), frame as u64)
    }

    // Where the lane of evictions begins.
    pub(crate) fn evictions_top(&self) -> u64
        ensures top { result ≡ spec.evictions_top self.now }
        ensures small { result ≤ 8160 }
    {
        LANES_TOP + self.worker_lanes() * 400 + 60
    }

    // Where the lanes of frames begin.
    pub(crate) fn frames_top(&self) -> u64
        ensures top { result ≡ spec.frames_top self.now }
        ensures small { result ≤ 8420 }
    {
        self.evictions_top() + 260
    }

    // Where the lanes end.
    pub(crate) fn lanes_end(&self) -> u64
        ensures end { result ≡ spec.lanes_end self.now }
        ensures below { 1700 ≤ result }
        ensures small { result ≤ 13540 }
    {
        self.frames_top() + self.frame_lanes() * 160
    }

    // Where a frame's lane begins.
    pub(crate) fn frame_y(&self, lane: u64) -> u64
        requires { lane ≤ 32 }
        ensures { result ≡ spec.frame_y self.now lane }
    {
        self.frames_top() + lane * 160
    }

    // The colour of a chunk, by its place in the table.
    fn hue_of(&self, chunk: u32) -> u64
        ensures { result ≡ spec.hue_of self.now chunk }
    {
        40 + chunk as u64 * 240 / (self.last_chunk as u64).max(1)
    }

    // The colour of a mark.
    pub(crate) fn ink_of(&self, mark: Mark) -> Ink
        requires groups { 1 ≤ self.now.groups }
        ensures { result ≡ ink_of self.now mark }
    {
        match mark {
            Mark::Alive(_) => Ink::Pale,
            Mark::Load { chunk, .. } | Mark::Eviction { chunk, .. } => Ink::Hue(self.hue_of(chunk)),
            Mark::Read(_) => Ink::Thin,
            Mark::Stay(bar) => Ink::Hue(self.hue_of(bar.piece / self.groups)),
            Mark::Given(delivery) => Ink::Hue(self.hue_of(delivery.chunk)),
            Mark::Fault { .. } => Ink::Red,
        }
    }

    // The row of a mark.
    pub(crate) fn row_of(&self, mark: Mark) -> u64
        ensures row { result ≡ row_of self.now mark }
        ensures small { result < ROWS }
    {
        match mark {
            Mark::Alive(life) => self.worker_lane(life.worker),
            Mark::Given(delivery) => 16 + self.worker_lane(delivery.worker),
            Mark::Load { worker, .. } => 32 + self.worker_lane(worker),
            Mark::Stay(bar) => 48 + self.frame_lane(bar.frame),
            Mark::Read(reading) => 80 + self.frame_lane(reading.frame),
            Mark::Eviction { .. } => 112,
            Mark::Fault { .. } => 113,
        }
    }

    // Whether some of its time is shown.
    pub(crate) fn is_shown(&self, mark: Mark) -> bool
        ensures { result ≡ is_shown self.now mark }
    {
        mark.first() < self.last && self.first <= mark.last()
    }
}

// So much of the whole as a part of 7700.
fn part_of_7700(part: u64, whole: u64) -> u64
    requires part { part ≤ whole }
    requires whole { whole < 2 ^ 32 }
    ensures value { result ≡ spec.part_of_7700 part whole }
    ensures small { result ≤ 7700 }
{
    part * 7700 / whole.max(1)
}
