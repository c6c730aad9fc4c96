// The lines of a text.
ghost use Rattle.std.specs.Prelude.{◌≡◌, IfOk};
ghost use Rattle.prepare_text.specs.Walk.{ends_line, lines_after};

use crate::fault::Fault;

/// Where a walk stands among the lines.
#[derive(Clone, Copy)]
pub(crate) struct Lines {
    /// The line of the next byte, from 1.
    pub line: u64,
    /// The line on which the record at hand begins.
    pub begun: u64,
    /// The byte before was a carriage return.
    pub after_cr: bool,
}

impl Lines {
    /// The same behind a byte, which stands in a record or between two.
    pub(crate) fn after(self, is_inside: bool, byte: u8) -> Result<Lines, Fault>
        ensures { IfOk result (λ lines. lines ≡ lines_after self is_inside byte) }
    {
        let begun = if is_inside { self.begun } else { self.line };
        let after_cr = byte == b'\r';
        if !ends_line(self.after_cr, byte) {
            return Ok(Lines {
                line: self.line,
                begun,
                after_cr,
            });
        }
        if self.line == u64::MAX {
            return Err(Fault::TooLong);
        }
        Ok(Lines {
            line: self.line + 1,
            begun,
            after_cr,
        })
    }
}

// Whether the byte ends a line.
fn ends_line(after_cr: bool, byte: u8) -> bool
    ensures { result ≡ ends_line after_cr byte }
{
    if byte == b'\r' {
        return true;
    }
    byte == b'\n' && !after_cr
}
