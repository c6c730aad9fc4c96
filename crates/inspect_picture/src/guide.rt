// What tells of which time and which lane something is.
ghost use Rattle.std.specs.Prelude.{◌≡◌, ◌<◌, ◌^◌, Some};
ghost use Rattle.inspect_picture.specs.Svg.{along_text, frame_guide, frame_text, guide_text, guides_at, guides_text};
ghost use Rattle.inspect_picture.specs.Svg.{round_number, shown, step_from, step_of, steps, time_guide, time_text};
ghost use Rattle.inspect_picture.specs.Svg.{upright_text, worker_guide, worker_text};

use crate::lanes::{LANES_TOP, first_in};
use crate::scale::Scale;
use std::fmt;

#[derive(Clone, Copy, Debug, PartialEq, Eq)]
pub(crate) enum Guide {
    // There is none.
    Blank,
    // The number of an entry, and a line up from where the lanes end, so high.
    Time {
        x: u64,
        end: u64,
        high: u64,
        number: u64,
    },
    // The number of a worker, and a line along its lane.
    WorkerLane {
        y: u64,
        number: u64,
    },
    // The number of a frame, and a line along its lane.
    FrameLane {
        y: u64,
        number: u64,
    },
}

// A line along a lane.
#[derive(Clone, Copy)]
struct Along;

impl fmt::Display for Along {
    ghost output = { λ _. Some along_text };

    #[tactic(auto, unfolding(crate::specs::Svg::along_text))]
    fn fmt<W: fmt::Write>(&self, f: &mut fmt::Formatter<W>) -> fmt::Result {
        write!(
            f,
            "<path stroke='#e0e0e0' stroke-width='6' d='M1000 0H8700'/>"
        )
    }
}

// A line up, so high.
#[derive(Clone, Copy)]
struct Upright {
    high: u64,
}

impl fmt::Display for Upright {
    ghost output = { λ u. Some (upright_text u.high) };

    #[tactic(auto, unfolding(crate::specs::Svg::upright_text))]
    fn fmt<W: fmt::Write>(&self, f: &mut fmt::Formatter<W>) -> fmt::Result {
        let high = self.high;
        write!(
            f,
            "<path stroke='#e0e0e0' stroke-width='6' d='M0 0V-{high}'/>"
        )
    }
}

// What stands at a time.
#[derive(Clone, Copy)]
struct TimeLine {
    x: u64,
    end: u64,
    line: Upright,
    number: u64,
}

impl fmt::Display for TimeLine {
    ghost output = { λ t. Some (time_text t.x t.end t.line.high t.number) };

    #[tactic(auto, unfolding(crate::specs::Svg::time_text))]
    fn fmt<W: fmt::Write>(&self, f: &mut fmt::Formatter<W>) -> fmt::Result {
        let (x, end, line, number) = (self.x, self.end, self.line, self.number);
        write!(
            f,
            "<g transform='translate({x} {end})'>{line}<text y='160' text-anchor='middle'>{number}</text></g>\n"
        )
    }
}

// What stands at the lane of a worker.
#[derive(Clone, Copy)]
struct WorkerLine {
    y: u64,
    number: u64,
}

impl fmt::Display for WorkerLine {
    ghost output = { λ q. Some (worker_text q.y q.number) };

    #[tactic(auto, unfolding(crate::specs::Svg::worker_text))]
    fn fmt<W: fmt::Write>(&self, f: &mut fmt::Formatter<W>) -> fmt::Result {
        let (y, number, line) = (self.y, self.number, Along);
        write!(
            f,
            "<g transform='translate(0 {y})'>{line}<text x='960' y='225' text-anchor='end'>worker {number}</text></g>\n"
        )
    }
}

// What stands at the lane of a frame.
#[derive(Clone, Copy)]
struct FrameLine {
    y: u64,
    number: u64,
}

impl fmt::Display for FrameLine {
    ghost output = { λ l. Some (frame_text l.y l.number) };

    #[tactic(auto, unfolding(crate::specs::Svg::frame_text))]
    fn fmt<W: fmt::Write>(&self, f: &mut fmt::Formatter<W>) -> fmt::Result {
        let (y, number, line) = (self.y, self.number, Along);
        write!(
            f,
            "<g transform='translate(0 {y})'>{line}<text x='960' y='115' text-anchor='end'>frame {number}</text></g>\n"
        )
    }
}

impl fmt::Display for Guide {
    ghost output = { λ g. Some (guide_text g) };

    fn fmt<W: fmt::Write>(&self, f: &mut fmt::Formatter<W>) -> fmt::Result {
        match *self {
            Guide::Blank => Ok(()),
            Guide::Time {
                x,
                end,
                high,
                number,
            } => {
                let time = TimeLine {
                    x,
                    end,
                    line: Upright { high },
                    number,
                };
                write!(f, "{time}")
            }
            Guide::WorkerLane { y, number } => {
                let worker = WorkerLine { y, number };
                write!(f, "{worker}")
            }
            Guide::FrameLane { y, number } => {
                let frame = FrameLine { y, number };
                write!(f, "{frame}")
            }
        }
    }
}

// The steps at which numbers are written.
const STEPS: [u32; 18] = [
    1, 2, 5, 10, 20, 50, 100, 200, 500, 1000, 2000, 5000, 10000, 20000, 50000, 100000, 200000,
    500000,
];

// The first of the steps by which the number is reached in fewer than 16.
fn step_in(steps: &[u32], number: u64) -> u64
    ensures step { result ≡ step_from steps.now number }
    ensures small { result < 2 ^ 32 }
{
    for step in steps {
        if number < *step as u64 * 16 {
            return *step as u64;
        }
    }
    1000000000
}

#[tactic(auto, unfolding(crate::specs::Svg::steps))]
fn step_of(number: u64) -> u64
    ensures step { result ≡ step_of number }
    ensures small { result < 2 ^ 32 }
{
    step_in(&STEPS, number)
}

impl Scale {
    // The guide of the time behind this entry.
    fn time_guide(&self, number: u64) -> Guide
        ensures { result ≡ time_guide self.now number }
    {
        if number < self.first as u64 || number >= self.last as u64 {
            return Guide::Blank;
        }
        Guide::Time {
            x: self.x_at(number as u32),
            end: self.lanes_end(),
            high: self.lanes_end() - LANES_TOP,
            number,
        }
    }

    // The guide of the lane of workers.
    fn worker_guide(&self, lane: u64) -> Guide
        requires { lane < 32 }
        ensures { result ≡ worker_guide self.now lane }
    {
        if lane >= self.worker_lanes() {
            return Guide::Blank;
        }
        Guide::WorkerLane {
            y: LANES_TOP + lane * 400,
            number: first_in(16, self.worker_count(), lane),
        }
    }

    // The guide of the lane of frames.
    fn frame_guide(&self, lane: u64) -> Guide
        requires { lane < 32 }
        ensures { result ≡ frame_guide self.now lane }
    {
        if lane >= self.frame_lanes() {
            return Guide::Blank;
        }
        Guide::FrameLane {
            y: self.frame_y(lane),
            number: first_in(32, self.frame_count(), lane),
        }
    }

    // How many entries are shown.
    pub(crate) fn shown(&self) -> u32
        ensures { result ≡ shown self.now }
    {
        self.last.saturating_sub(self.first)
    }
}

// The guides that stand at one place of the picture: of a time, of a worker and of a frame.
#[derive(Clone, Copy)]
pub(crate) struct Guides {
    time: Guide,
    worker: Guide,
    frame: Guide,
}

impl fmt::Display for Guides {
    ghost output = { λ g. Some (guides_text g.time g.worker g.frame) };

    fn fmt<W: fmt::Write>(&self, f: &mut fmt::Formatter<W>) -> fmt::Result {
        let (time, worker, frame) = (self.time, self.worker, self.frame);
        write!(f, "{time}{worker}{frame}")
    }
}

// The number of the time that is told so many steps behind the first round one.
fn round_number(first: u32, step: u64, place: u64) -> u64
    requires step { step < 2 ^ 32 }
    requires place { place < 32 }
    ensures value { result ≡ round_number first step place }
{
    (first as u64 / step.max(1) + place) * step
}

// The guides with this number, from 0.
pub(crate) fn guides_at(scale: &Scale, number: u32) -> Guides
    requires number { number < 32 }
    ensures { guides_text result.time result.worker result.frame ≡ guides_at scale.now number }
{
    let place = number as u64;
    let step = step_of(scale.shown() as u64);
    Guides {
        time: scale.time_guide(round_number(scale.first, step, place)),
        worker: scale.worker_guide(place),
        frame: scale.frame_guide(place),
    }
}
