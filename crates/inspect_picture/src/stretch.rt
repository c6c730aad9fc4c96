// Marks that are drawn as one.
ghost use Rattle.std.specs.Prelude.{◌≡◌, ◌≤◌};
ghost use Rattle.inspect_picture.specs.Stretches as spec;
ghost use Rattle.inspect_picture.specs.Extents.{first_of, ink_of, is_failed, last_of, x_from, x_to};

use crate::ink::Ink;
use crate::mark::Mark;
use crate::scale::Scale;

/// What is narrower than this, 5 pixels, is drawn as one with what it touches.
pub(crate) const NARROW: u64 = 50;

/// So wide, 4 pixels, is a mark drawn at least.
pub(crate) const LEAST_WIDTH: u64 = 40;

/// Marks that lie so near to each other, a pixel, may be drawn as one.
pub(crate) const NEAR: u64 = 10;

// Marks of one row that are drawn as one.
#[derive(Clone, Copy, Debug, PartialEq, Eq)]
pub(crate) struct Stretch {
    // The first of them.
    pub(crate) mark: Mark,
    // How many they are.
    pub(crate) count: u64,
    // The number of the last entry of which one of them tells.
    pub(crate) last: u32,
    // From where to where they lie, in tenths of a pixel.
    pub(crate) from: u64,
    pub(crate) to: u64,
    // Each of them is narrow.
    pub(crate) narrow: bool,
    // Their colour, where it is one.
    pub(crate) ink: Ink,
    // One of them is a failure.
    pub(crate) failed: bool,
}

impl Mark {
    // The number of the entry by which it begins.
    pub(crate) fn first(self) -> u32
        ensures { result ≡ first_of self }
    {
        match self {
            Mark::Alive(life) => life.first,
            Mark::Read(reading) => reading.first,
            Mark::Stay(bar) => bar.first,
            Mark::Given(delivery) => delivery.first,
            Mark::Load { entry, .. } | Mark::Eviction { entry, .. } | Mark::Fault { entry, .. } =>
                entry,
        }
    }

    // The number of the entry by which it ends.
    pub(crate) fn last(self) -> u32
        ensures { result ≡ last_of self }
    {
        match self {
            Mark::Alive(life) => life.last,
            Mark::Read(reading) => reading.last,
            Mark::Stay(bar) => bar.last,
            Mark::Given(delivery) => delivery.last,
            Mark::Load { entry, .. } | Mark::Eviction { entry, .. } | Mark::Fault { entry, .. } =>
                entry,
        }
    }

    // Whether it tells of a failure.
    pub(crate) fn is_failed(self) -> bool
        ensures { result ≡ is_failed self }
    {
        match self {
            Mark::Read(reading) => reading.failed,
            Mark::Fault { .. } => true,
            _ => false,
        }
    }
}

impl Scale {
    // Where a mark begins.
    pub(crate) fn x_from(&self, mark: Mark) -> u64
        ensures at { result ≡ x_from self.now mark }
        ensures small { result ≤ 8700 }
    {
        self.x_at(mark.first())
    }

    // Where it ends, as it is drawn.
    pub(crate) fn x_to(&self, mark: Mark) -> u64
        ensures at { result ≡ x_to self.now mark }
        ensures small { result ≤ 8740 }
    {
        self.x_at(mark.last()).max(self.x_from(mark) + LEAST_WIDTH)
    }
}

// Whether a mark by itself is narrow.
fn is_narrow(scale: &Scale, mark: Mark) -> bool
    ensures { result ≡ spec.is_narrow scale.now mark }
{
    scale.x_to(mark) < scale.x_from(mark) + NARROW
}

// One mark by itself.
#[tactic(auto, unfolding(crate::specs::Stretches::stretch_of))]
pub(crate) fn stretch_of(scale: &Scale, mark: Mark) -> Stretch
    requires groups { 1 ≤ scale.now.groups }
    ensures { result ≡ spec.stretch_of scale.now mark }
{
    Stretch {
        mark,
        count: 1,
        last: mark.last(),
        from: scale.x_from(mark),
        to: scale.x_to(mark),
        narrow: is_narrow(scale, mark),
        ink: scale.ink_of(mark),
        failed: mark.is_failed(),
    }
}

// Whether a mark is drawn as one with the marks before it in its row: it lies over them, or all are narrow and it
// lies within
// a pixel of them.
pub(crate) fn meets(scale: &Scale, stretch: Stretch, mark: Mark) -> bool
    ensures { result ≡ spec.meets scale.now stretch mark }
{
    let from = scale.x_from(mark);
    if from < stretch.to {
        return true;
    }
    stretch.narrow && is_narrow(scale, mark) && from - stretch.to <= NEAR
}

fn both_ink(first: Ink, second: Ink) -> Ink
    ensures { result ≡ spec.both_ink first second }
{
    match (first, second) {
        (Ink::Hue(a), Ink::Hue(b)) => { if a == b { Ink::Hue(a) } else { Ink::Many } }
        (Ink::Pale, Ink::Pale) => Ink::Pale,
        (Ink::Thin, Ink::Thin) => Ink::Thin,
        (Ink::Red, Ink::Red) => Ink::Red,
        _ => Ink::Many,
    }
}

// These marks and one more.
#[tactic(auto, unfolding(crate::specs::Stretches::joined))]
pub(crate) fn joined(scale: &Scale, stretch: Stretch, mark: Mark) -> Stretch
    requires groups { 1 ≤ scale.now.groups }
    ensures { result ≡ spec.joined scale.now stretch mark }
{
    Stretch {
        mark: stretch.mark,
        count: stretch.count.saturating_add(1),
        last: stretch.last.max(mark.last()),
        from: stretch.from.min(scale.x_from(mark)),
        to: stretch.to.max(scale.x_to(mark)),
        narrow: stretch.narrow && is_narrow(scale, mark),
        ink: both_ink(stretch.ink, scale.ink_of(mark)),
        failed: stretch.failed || mark.is_failed(),
    }
}
