ghost use Rattle.std.specs.Prelude.{Some};
ghost use Rattle.story_text.specs.Text.{why_text, entry_text};

use scan_story::{Entry, Why};
use std::fmt;

/// The text of an entry, without the end of its line.
#[derive(Clone, Copy)]
pub struct Line(pub Entry);

// The text of why a load failed.
#[derive(Clone, Copy)]
struct Reason(Why);

impl fmt::Display for Reason {
    ghost output = { λ r. Some (why_text (r.0)) };

    fn fmt<W: fmt::Write>(&self, f: &mut fmt::Formatter<W>) -> fmt::Result {
        match self.0 {
            Why::Fault { before, after } => write!(f, "fault {before} {after}"),
            Why::Damage { word } => write!(f, "damage {word}"),
        }
    }
}

impl fmt::Display for Line {
    ghost output = { λ l. Some (entry_text (l.0)) };

    fn fmt<W: fmt::Write>(&self, f: &mut fmt::Formatter<W>) -> fmt::Result {
        match self.0 {
            Entry::Register { worker, query } => write!(f, "register {worker} {query}"),
            Entry::Plan {
                worker,
                query,
                chunk,
            } => write!(f, "plan {worker} {query} {chunk}"),
            Entry::Evict { worker, chunk } => write!(f, "evict {worker} {chunk}"),
            Entry::Fill {
                worker,
                frame,
                piece,
            } => write!(f, "fill {worker} {frame} {piece}"),
            Entry::Filled {
                worker,
                frame,
                piece,
            } => write!(f, "filled {worker} {frame} {piece}"),
            Entry::Failed {
                worker,
                query,
                piece,
                why,
            } => {
                let reason = Reason(why);
                write!(f, "failed {worker} {query}")?;
                write!(f, " {piece} {reason}")
            }
            Entry::Deliver {
                worker,
                query,
                chunk,
            } => write!(f, "deliver {worker} {query} {chunk}"),
            Entry::Release {
                worker,
                query,
                chunk,
            } => write!(f, "release {worker} {query} {chunk}"),
            Entry::Stop { worker, query } => write!(f, "stop {worker} {query}"),
            Entry::End { worker, query } => write!(f, "end {worker} {query}"),
        }
    }
}
