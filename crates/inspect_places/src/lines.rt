// Lines and columns.

ghost use Rattle.std.specs.Prelude.{◌≡◌, ◌<◌, ◌≤◌, ◌+◌, ◌^◌, ◌==◌, if◌then◌else◌, length, take};
ghost use Rattle.inspect_places.specs.Lines as spec;

use std::fmt;

/// A place of a text as a person counts it: displayed as `LINE:COLUMN`.
#[derive(Clone, Copy, Debug, PartialEq, Eq)]
pub struct LineColumn {
    /// The line, from 1. A line ends with its LF.
    pub line: usize,
    /// The byte in its line, from 1.
    pub column: usize,
}

impl fmt::Display for LineColumn {
    fn fmt<W: fmt::Write>(&self, f: &mut fmt::Formatter<W>) -> fmt::Result {
        let (line, column) = (self.line, self.column);
        write!(f, "{line}:{column}")
    }
}

/// The place behind one byte more.
fn behind(place: LineColumn, byte: u8) -> LineColumn
    requires { (place.line < 2 ^ 63) × (place.column < 2 ^ 63) }
    ensures line { result.line ≡ place.line + (if byte == 10 then 1 else 0) }
    ensures column { result.column ≡ (if byte == 10 then 1 else 1 + place.column) }
{
    if byte == b'\n' {
        LineColumn {
            line: place.line + 1,
            column: 1,
        }
    } else {
        LineColumn {
            line: place.line,
            column: place.column + 1,
        }
    }
}

/// Line and column of the byte with this number, counted from 0; the end of the text is a place too.
pub fn line_and_column(bytes: &[u8], at: usize) -> LineColumn
    requires { at ≤ length bytes.now }
    ensures line { result.line ≡ spec.line_of (take at bytes.now) }
    ensures column { result.column ≡ spec.column_of (take at bytes.now) }
{
    let mut place = LineColumn { line: 1, column: 1 };
    for i in 0..at {
        place = behind(place, bytes[i]);
    }
    place
}
