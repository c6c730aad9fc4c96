// The element of marks that are drawn as one, and the number that stands on it.
ghost use Rattle.std.specs.Prelude.{◌≡◌, ◌≤◌, Some};
ghost use Rattle.inspect_picture.specs.Svg.{drawn_ink, element_text, inside, label_in, label_of, label_text};
ghost use Rattle.inspect_picture.specs.Svg.{number_text, query_text, rect_of, shape_text, strip_of, told_text};

use crate::ink::Ink;
use crate::lanes::LANES_TOP;
use crate::mark::Mark;
use crate::rect::Rect;
use crate::scale::Scale;
use crate::stretch::Stretch;
use std::fmt;

// The height at which something lies, and how high it is.
#[derive(Clone, Copy, Debug, PartialEq, Eq)]
pub(crate) struct Strip {
    pub(crate) y: u64,
    pub(crate) height: u64,
}

// The strip of a mark in its lane.
fn strip_of(scale: &Scale, mark: Mark) -> Strip
    ensures { result ≡ strip_of scale.now mark }
{
    match mark {
        Mark::Alive(life) => Strip {
            y: LANES_TOP + scale.worker_lane(life.worker) * 400,
            height: 370,
        },
        Mark::Load { worker, .. } => Strip {
            y: LANES_TOP + scale.worker_lane(worker) * 400 + 125,
            height: 90,
        },
        Mark::Given(delivery) => Strip {
            y: LANES_TOP + scale.worker_lane(delivery.worker) * 400 + 230,
            height: 140,
        },
        Mark::Stay(bar) => Strip {
            y: scale.frame_y(scale.frame_lane(bar.frame)),
            height: 140,
        },
        Mark::Read(reading) => Strip {
            y: scale.frame_y(scale.frame_lane(reading.frame)) + 50,
            height: 40,
        },
        Mark::Eviction { .. } => Strip {
            y: scale.evictions_top(),
            height: 140,
        },
        Mark::Fault { .. } => Strip {
            y: LANES_TOP,
            height: scale.lanes_end() - LANES_TOP,
        },
    }
}

// Where marks that are drawn as one lie.
fn rect_of(scale: &Scale, stretch: Stretch) -> Rect
    ensures { result ≡ rect_of scale.now stretch }
{
    let strip = strip_of(scale, stretch.mark);
    Rect {
        x: stretch.from,
        y: strip.y,
        width: stretch.to.saturating_sub(stretch.from),
        height: strip.height,
    }
}

// The colour in which they are drawn: red where one of them is a failure.
fn drawn_ink(stretch: Stretch) -> Ink
    ensures { result ≡ drawn_ink stretch }
{
    if stretch.failed {
        Ink::Red
    } else {
        stretch.ink
    }
}

// What tells of marks that are drawn as one.
#[derive(Clone, Copy)]
struct Told {
    stretch: Stretch,
}

impl fmt::Display for Told {
    ghost output = { λ t. Some (told_text t.stretch) };

    fn fmt<W: fmt::Write>(&self, f: &mut fmt::Formatter<W>) -> fmt::Result {
        let (mark, count, last) = (self.stretch.mark, self.stretch.count, self.stretch.last);
        match count == 1 {
            true => write!(f, "{mark}"),
            false => write!(f, "{count} marks up to entry {last}, first: {mark}"),
        }
    }
}

// How their element ends: with a title, where there is to be one.
#[derive(Clone, Copy)]
struct Inside {
    titled: bool,
    told: Told,
}

impl fmt::Display for Inside {
    ghost output = { λ i. Some (inside i.titled i.told.stretch) };

    fn fmt<W: fmt::Write>(&self, f: &mut fmt::Formatter<W>) -> fmt::Result {
        let told = self.told;
        match self.titled {
            true => write!(f, "><title>{told}</title></rect>\n"),
            false => write!(f, "/>\n"),
        }
    }
}

// The element.
#[derive(Clone, Copy)]
pub(crate) struct Shape {
    rect: Rect,
    ink: Ink,
    titled: bool,
    stretch: Stretch,
}

impl fmt::Display for Shape {
    ghost output = { λ s. Some (element_text s.rect s.ink s.titled s.stretch) };

    fn fmt<W: fmt::Write>(&self, f: &mut fmt::Formatter<W>) -> fmt::Result {
        let (rect, ink) = (self.rect, self.ink);
        let inside = Inside {
            titled: self.titled,
            told: Told {
                stretch: self.stretch,
            },
        };
        write!(f, "<rect {rect} fill='{ink}'{inside}")
    }
}

// What is to stand on a mark.
#[derive(Clone, Copy, Debug, PartialEq, Eq)]
pub(crate) enum Label {
    Blank,
    // The number of a piece or a chunk.
    Number { x: u64, y: u64, number: u32 },
    // The number of a query.
    Query { x: u64, y: u64, number: u32 },
}

#[derive(Clone, Copy)]
struct NumberText {
    x: u64,
    y: u64,
    number: u32,
}

impl fmt::Display for NumberText {
    ghost output = { λ t. Some (number_text t.x t.y t.number) };

    #[tactic(auto, unfolding(crate::specs::Svg::number_text))]
    fn fmt<W: fmt::Write>(&self, f: &mut fmt::Formatter<W>) -> fmt::Result {
        let (x, y, number) = (self.x, self.y, self.number);
        write!(
            f,
            "<text x='{x}' y='{y}' dx='30' dy='115' fill='#fff'>{number}</text>\n"
        )
    }
}

#[derive(Clone, Copy)]
struct QueryText {
    x: u64,
    y: u64,
    number: u32,
}

impl fmt::Display for QueryText {
    ghost output = { λ t. Some (query_text t.x t.y t.number) };

    #[tactic(auto, unfolding(crate::specs::Svg::query_text))]
    fn fmt<W: fmt::Write>(&self, f: &mut fmt::Formatter<W>) -> fmt::Result {
        let (x, y, number) = (self.x, self.y, self.number);
        write!(
            f,
            "<text x='{x}' y='{y}' dx='30' dy='100' fill='#303030'>query {number}</text>\n"
        )
    }
}

impl fmt::Display for Label {
    ghost output = { λ l. Some (label_in l) };

    fn fmt<W: fmt::Write>(&self, f: &mut fmt::Formatter<W>) -> fmt::Result {
        match *self {
            Label::Blank => Ok(()),
            Label::Number { x, y, number } => {
                let text = NumberText { x, y, number };
                write!(f, "{text}")
            }
            Label::Query { x, y, number } => {
                let text = QueryText { x, y, number };
                write!(f, "{text}")
            }
        }
    }
}

// What is to stand on one mark that has room for it.
fn label_on(mark: Mark, rect: Rect) -> Label
    ensures { result ≡ label_of mark rect }
{
    let (x, y) = (rect.x, rect.y);
    match mark {
        Mark::Stay(bar) => Label::Number {
            x,
            y,
            number: bar.piece,
        },
        Mark::Given(delivery) => Label::Number {
            x,
            y,
            number: delivery.chunk,
        },
        Mark::Alive(life) => Label::Query {
            x,
            y,
            number: life.query,
        },
        _ => Label::Blank,
    }
}

// What marks that are drawn as one are drawn as.
pub(crate) fn shape_of(scale: &Scale, titled: bool, stretch: Stretch) -> Shape
    ensures { element_text result.rect result.ink result.titled result.stretch ≡ shape_text scale.now titled stretch }
{
    Shape {
        rect: rect_of(scale, stretch),
        ink: drawn_ink(stretch),
        titled,
        stretch,
    }
}

// What stands on it, where it is one mark and there is room.
pub(crate) fn label_of(scale: &Scale, stretch: Stretch) -> Label
    ensures { label_in result ≡ label_text scale.now stretch }
{
    let rect = rect_of(scale, stretch);
    if stretch.count == 1 && rect.width >= 500 {
        label_on(stretch.mark, rect)
    } else {
        Label::Blank
    }
}
