// The story that stands at the end of what a run prints.
ghost use Rattle.std.specs.Prelude.{◌≡◌, ◌≢◌, ◌≤◌, ◌^◌, [], ℕ, List, true, drop, length, IfOk, IfErr, Err};
ghost use Rattle.std.specs.List.{AllByRecursion};
ghost use Rattle.scan_story.specs.declared.entry.Entry.{Entry};
ghost use Rattle.story_text.specs.Reading.{Fits};
ghost use Rattle.story_text.specs.Text.{story_text};
ghost use Rattle.inspect_picture.specs.Trace.{IsTraceRefusal, ended, lines_above, lines_before, quoted_len};
ghost use Rattle.inspect_picture.specs.Trace.{starts_story, trace, trace_from};
ghost use Rattle.inspect_picture.specs.declared.trace.TraceRefusal.TheVariants as TraceRefusal;

use scan_story::Entry;
use std::alloc::Global;
use story_text::{StoryRefusal, read_story};

/// Why a text has no story.
#[derive(Clone, Copy, Debug, PartialEq, Eq)]
pub enum TraceRefusal {
    /// No line behind the last quote begins with `register `, as each story does.
    NoTrace,
    /// This line, counted from 1 in the whole text, is the first behind the begin of the story that is no entry's.
    BadLine { line: u64 },
    /// Out of memory.
    Memory,
}

// Where a trace begins, and how many lines end before it.
#[derive(Clone, Copy)]
struct Start {
    place: usize,
    lines: u32,
}

fn starts_story(text: &[u8]) -> bool
    ensures { result ≡ starts_story text.now }
{
    text.starts_with(b"register ")
}

// How many bytes there are up to the last quote and with it; 0 where there is none.
fn quoted_len(printed: &[u8]) -> usize
    ensures value { result ≡ quoted_len printed.now }
    ensures within { result ≤ length printed.now }
{
    let mut found = 0;
    for place in 0..printed.len() {
        if printed[place] == b'\'' {
            found = place + 1;
        }
    }
    found
}

// How many lines end.
fn ended(bytes: &[u8]) -> u32
    requires size { length bytes.now ≤ 2 ^ 30 }
    ensures value { result ≡ ended bytes.now }
    ensures within { result ≤ length bytes.now }
{
    let mut lines = 0;
    for byte in bytes {
        if *byte == b'\n' {
            lines += 1;
        }
    }
    lines
}

// Where the first line begins that starts a story, and how many lines end before it. The flag says that a line begins
// with the bytes.
fn first_start(at_begin: bool, bytes: &[u8]) -> Start
    requires size { length bytes.now ≤ 2 ^ 30 }
    ensures inside { result.place ≤ length bytes.now }
    ensures trace { drop result.place bytes.now ≡ trace_from at_begin bytes.now }
    ensures lines { result.lines ≡ lines_before at_begin bytes.now }
    ensures few { result.lines ≤ length bytes.now }
{
    let mut at_line = at_begin;
    let mut lines = 0;
    for place in 0..bytes.len() {
        if at_line && starts_story(&bytes[place..]) {
            return Start { place, lines };
        }
        at_line = bytes[place] == b'\n';
        if at_line {
            lines += 1;
        }
    }
    Start {
        place: bytes.len(),
        lines,
    }
}

#[tactic(auto, unfolding(crate::specs::Trace::trace, crate::specs::Trace::lines_above))]
fn start_of(printed: &[u8]) -> Start
    requires size { length printed.now ≤ 2 ^ 30 }
    ensures inside { result.place ≤ length printed.now }
    ensures trace { drop result.place printed.now ≡ trace printed.now }
    ensures lines { result.lines ≡ lines_above printed.now }
{
    let quoted = quoted_len(printed);
    let above = ended(&printed[..quoted]);
    let start = first_start(quoted == 0, &printed[quoted..]);
    Start {
        place: quoted + start.place,
        lines: above + start.lines,
    }
}

/// The story at the end of what `coop_cli --trace` printed, or of a text that is the story alone. The text has at most
/// 2^30 bytes.
///
/// The story begins behind the last quote, since no entry has one and each text of an answer ends with one, at the
/// first
/// line that begins with `register `, and goes on to the end. `BadLine` comes exactly where what stands there is no
/// story's
/// text.
pub fn story_of_output(alloc: Global, printed: &[u8]) -> Result<Vec<Entry>, TraceRefusal>
    requires size { length printed.now ≤ 2 ^ 30 }
    ensures story { IfOk result (λ es. trace printed.now ≡ story_text es.items) }
    ensures size { IfOk result (λ es. length es.items ≤ 2 ^ 30) }
    ensures refused { IfErr result (IsTraceRefusal printed.now) }
    ensures no_story { (es : List Entry) → AllByRecursion Fits es → trace printed.now ≡ story_text es → (line : ℕ)
        → result ≢ Err (TraceRefusal.BadLine line) }
{
    let start = start_of(printed);
    let trace = &printed[start.place..];
    if trace.is_empty() {
        return Err(TraceRefusal::NoTrace);
    }
    match read_story(alloc, trace) {
        Ok(entries) => Ok(entries),
        Err(StoryRefusal::BadLine { line }) => Err(TraceRefusal::BadLine {
            line: start.lines as u64 + line as u64,
        }),
        Err(StoryRefusal::Memory) => Err(TraceRefusal::Memory),
    }
}
