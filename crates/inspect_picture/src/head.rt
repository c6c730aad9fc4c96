// What stands above the lanes, and below them.
ghost use Rattle.std.specs.Prelude.{◌≡◌, ◌<◌, ◌≤◌, ◌^◌, Some};
ghost use Rattle.inspect_picture.specs.Svg.{axis_text, colours_text, counts_text, evictions_name, foot_in, foot_text};
ghost use Rattle.inspect_picture.specs.Svg.{frames_legend};
ghost use Rattle.inspect_picture.specs.Svg.{head_text, hues_text, lanes_text, merged_text, notes_in, notes_text};
ghost use Rattle.inspect_picture.specs.Svg.{opening_text, phrase, range_text, sharing_text, workers_legend};

use crate::scale::Scale;
use std::fmt;

// The scale of a story, how many reads and deliveries it has, and whether what is drawn has titles.
#[derive(Clone, Copy, Debug, PartialEq, Eq)]
pub(crate) struct Head {
    pub(crate) scale: Scale,
    pub(crate) reads: u32,
    pub(crate) deliveries: u32,
    pub(crate) titled: bool,
}

#[derive(Clone, Copy)]
struct Opening {
    height: u64,
}

impl fmt::Display for Opening {
    ghost output = { λ o. Some (opening_text o.height) };

    #[tactic(auto, unfolding(crate::specs::Svg::opening_text))]
    fn fmt<W: fmt::Write>(&self, f: &mut fmt::Formatter<W>) -> fmt::Result {
        let height = self.height;
        write!(
            f,
            "<svg xmlns='http://www.w3.org/2000/svg' viewBox='0 0 9000 {height}' width='900' font-family='sans-serif' font-size='120'>\n<rect width='100%' height='100%' fill='#fff'/>\n"
        )
    }
}

#[derive(Clone, Copy)]
struct Counts {
    entries: u32,
    reads: u32,
    deliveries: u32,
}

impl fmt::Display for Counts {
    ghost output = { λ c. Some (counts_text c.entries c.reads c.deliveries) };

    #[tactic(auto, unfolding(crate::specs::Svg::counts_text))]
    fn fmt<W: fmt::Write>(&self, f: &mut fmt::Formatter<W>) -> fmt::Result {
        let (entries, reads, deliveries) = (self.entries, self.reads, self.deliveries);
        write!(
            f,
            "<text x='1000' y='280' font-size='180'>{entries} entries, "
        )?;
        write!(f, "{reads} reads, {deliveries} deliveries</text>\n")
    }
}

#[derive(Clone, Copy)]
struct Hues;

impl fmt::Display for Hues {
    ghost output = { λ _. Some hues_text };

    #[tactic(auto, unfolding(crate::specs::Svg::hues_text))]
    fn fmt<W: fmt::Write>(&self, f: &mut fmt::Formatter<W>) -> fmt::Result {
        write!(
            f,
            "<linearGradient id='hues'><stop stop-color='hsl(40,60%,50%)'/><stop offset='.25' stop-color='hsl(100,60%,50%)'/>"
        )?;
        write!(
            f,
            "<stop offset='.5' stop-color='hsl(160,60%,50%)'/><stop offset='.75' stop-color='hsl(220,60%,50%)'/>"
        )?;
        write!(
            f,
            "<stop offset='1' stop-color='hsl(280,60%,50%)'/></linearGradient>\n"
        )
    }
}

#[derive(Clone, Copy)]
struct Colours {
    last: u32,
}

impl fmt::Display for Colours {
    ghost output = { λ c. Some (colours_text c.last) };

    #[tactic(auto, unfolding(crate::specs::Svg::colours_text))]
    fn fmt<W: fmt::Write>(&self, f: &mut fmt::Formatter<W>) -> fmt::Result {
        let last = self.last;
        write!(
            f,
            "<text x='1000' y='520'>Colour: from chunk 0</text><rect x='2420' y='410' width='1000' height='130' fill='url(#hues)'/>"
        )?;
        write!(
            f,
            "<text x='3480' y='520'>to chunk {last}. A query is given"
        )?;
        write!(
            f,
            " a chunk of rows; a frame holds a piece of one.</text>\n"
        )
    }
}

#[derive(Clone, Copy)]
struct WorkerLegend;

impl fmt::Display for WorkerLegend {
    ghost output = { λ _. Some workers_legend };

    #[tactic(auto, unfolding(crate::specs::Svg::workers_legend))]
    fn fmt<W: fmt::Write>(&self, f: &mut fmt::Formatter<W>) -> fmt::Result {
        write!(
            f,
            "<text x='1000' y='710'>Lane of a worker: its queries, pale where they wait; above, loads that are planned; "
        )?;
        write!(f, "below, the chunks in its hands.</text>\n")
    }
}

#[derive(Clone, Copy)]
struct FrameLegend;

impl fmt::Display for FrameLegend {
    ghost output = { λ _. Some frames_legend };

    #[tactic(auto, unfolding(crate::specs::Svg::frames_legend))]
    fn fmt<W: fmt::Write>(&self, f: &mut fmt::Formatter<W>) -> fmt::Result {
        write!(
            f,
            "<text x='1000' y='900'>Lane of a frame: a dark line while a piece is read"
        )?;
        write!(
            f,
            " (Fill to Filled), a bar while it stays. Red, and nothing else is: a load failed.</text>\n"
        )
    }
}

#[derive(Clone, Copy)]
struct EvictionsName {
    y: u64,
}

impl fmt::Display for EvictionsName {
    ghost output = { λ e. Some (evictions_name e.y) };

    #[tactic(auto, unfolding(crate::specs::Svg::evictions_name))]
    fn fmt<W: fmt::Write>(&self, f: &mut fmt::Formatter<W>) -> fmt::Result {
        let y = self.y;
        write!(
            f,
            "<text x='960' y='{y}' dy='115' text-anchor='end'>evictions</text>\n"
        )
    }
}

#[derive(Clone, Copy)]
struct Lanes {
    evictions: u64,
}

impl fmt::Display for Lanes {
    ghost output = { λ l. Some (lanes_text l.evictions) };

    #[tactic(auto, unfolding(crate::specs::Svg::lanes_text))]
    fn fmt<W: fmt::Write>(&self, f: &mut fmt::Formatter<W>) -> fmt::Result {
        let (workers, frames) = (WorkerLegend, FrameLegend);
        let evictions = EvictionsName { y: self.evictions };
        write!(f, "{workers}{frames}{evictions}")
    }
}

// The text where it is to be shown.
fn phrase(shown: bool, text: &'static str) -> &'static str
    ensures { result.now ≡ phrase shown text.now }
{
    if shown { text } else { "" }
}

// Which entries are shown, where they aren't all.
#[derive(Clone, Copy)]
struct Range {
    shown: bool,
    first: u32,
    last: u32,
}

impl fmt::Display for Range {
    ghost output = { λ r. Some (range_text r.shown r.first r.last) };

    #[tactic(auto, unfolding(crate::specs::Svg::range_text))]
    fn fmt<W: fmt::Write>(&self, f: &mut fmt::Formatter<W>) -> fmt::Result {
        let (first, last) = (self.first, self.last);
        match self.shown {
            true => write!(f, "Entries {first} to {last} are shown. "),
            false => Ok(()),
        }
    }
}

// How lanes are shared, and whether titles are left out.
#[derive(Clone, Copy)]
struct Sharing {
    scale: Scale,
    titled: bool,
}

impl fmt::Display for Sharing {
    ghost output = { λ s. Some (sharing_text s.scale s.titled) };

    #[tactic(auto, unfolding(crate::specs::Svg::sharing_text))]
    fn fmt<W: fmt::Write>(&self, f: &mut fmt::Formatter<W>) -> fmt::Result {
        let workers = phrase(
            self.scale.worker_count() > 16,
            "The workers share 16 lanes. ",
        );
        let frames = phrase(self.scale.frame_count() > 32, "The frames share 32 lanes. ");
        let titles = phrase(
            !self.titled,
            "Too much is drawn to be told under the pointer: show fewer entries.",
        );
        write!(f, "{workers}{frames}{titles}")
    }
}

#[derive(Clone, Copy)]
struct Notes {
    range: Range,
    sharing: Sharing,
}

impl fmt::Display for Notes {
    ghost output = { λ n. Some (notes_in n.range.shown n.range.first n.range.last n.sharing.scale n.sharing.titled) };

    #[tactic(auto, unfolding(crate::specs::Svg::notes_in))]
    fn fmt<W: fmt::Write>(&self, f: &mut fmt::Formatter<W>) -> fmt::Result {
        let (range, sharing) = (self.range, self.sharing);
        write!(
            f,
            "<text x='1000' y='1090' fill='#5a6478'>{range}{sharing}</text>\n"
        )
    }
}

impl Scale {
    // What of it is shown, and how.
    fn notes(&self, titled: bool) -> Notes
        ensures { notes_in result.range.shown result.range.first result.range.last result.sharing.scale
            result.sharing.titled ≡ notes_text self.now titled }
    {
        Notes {
            range: Range {
                shown: self.shown() <= self.entries,
                first: self.first,
                last: self.last.saturating_sub(1),
            },
            sharing: Sharing {
                scale: *self,
                titled,
            },
        }
    }
}

#[derive(Clone, Copy)]
struct Axis {
    y: u64,
}

impl fmt::Display for Axis {
    ghost output = { λ a. Some (axis_text a.y) };

    #[tactic(auto, unfolding(crate::specs::Svg::axis_text))]
    fn fmt<W: fmt::Write>(&self, f: &mut fmt::Formatter<W>) -> fmt::Result {
        let y = self.y;
        write!(
            f,
            "<text x='4850' y='{y}' dy='340' text-anchor='middle'>number of the entry in the story</text>\n"
        )
    }
}

// How many marks there are, and as how many they are drawn.
#[derive(Clone, Copy)]
struct Merged {
    marks: u64,
    drawn: u64,
}

impl fmt::Display for Merged {
    ghost output = { λ m. Some (merged_text m.marks m.drawn) };

    #[tactic(auto, unfolding(crate::specs::Svg::merged_text))]
    fn fmt<W: fmt::Write>(&self, f: &mut fmt::Formatter<W>) -> fmt::Result {
        let (marks, drawn) = (self.marks, self.drawn);
        write!(
            f,
            "<text x='1000' y='1280' fill='#5a6478'>{marks} marks are drawn as {drawn}: below 5 pixels, those that touch are one, grey where chunks differ.</text>\n"
        )
    }
}

// What stands below the lanes, and what was merged.
#[derive(Clone, Copy)]
pub(crate) struct Foot {
    axis: Axis,
    merged: Merged,
}

// The foot of a picture with so many marks.
pub(crate) fn foot_of(scale: &Scale, marks: u64, drawn: u64) -> Foot
    ensures { foot_in result.axis.y result.merged.marks result.merged.drawn ≡ foot_text scale.now marks drawn }
{
    Foot {
        axis: Axis {
            y: scale.lanes_end(),
        },
        merged: Merged { marks, drawn },
    }
}

impl fmt::Display for Foot {
    ghost output = { λ t. Some (foot_in t.axis.y t.merged.marks t.merged.drawn) };

    #[tactic(auto, unfolding(crate::specs::Svg::foot_in))]
    fn fmt<W: fmt::Write>(&self, f: &mut fmt::Formatter<W>) -> fmt::Result {
        let (axis, merged) = (self.axis, self.merged);
        write!(f, "{axis}{merged}</svg>\n")
    }
}

impl fmt::Display for Head {
    ghost output = { λ h. Some (head_text h) };

    #[tactic(auto, unfolding(crate::specs::Svg::head_text))]
    fn fmt<W: fmt::Write>(&self, f: &mut fmt::Formatter<W>) -> fmt::Result {
        let scale = self.scale;
        let opening = Opening {
            height: scale.lanes_end() + 460,
        };
        let counts = Counts {
            entries: scale.entries,
            reads: self.reads,
            deliveries: self.deliveries,
        };
        let colours = Colours {
            last: scale.last_chunk,
        };
        let lanes = Lanes {
            evictions: scale.evictions_top(),
        };
        let notes = scale.notes(self.titled);
        let hues = Hues;
        write!(f, "{opening}{counts}{hues}")?;
        write!(f, "{colours}{lanes}{notes}")
    }
}
