ghost use Rattle.std.specs.Prelude.{Some};
ghost use Rattle.inspect_page.specs.Page.{end_text};

use std::fmt;

/// How the scan of a query ends in a story.
#[derive(Clone, Copy, Debug, PartialEq, Eq)]
pub enum ScanEnd {
    /// It doesn't.
    Open,
    /// Its query is over, by this entry.
    Over { entry: u32 },
    /// Its query is given up, by this entry.
    Stopped { entry: u32 },
}

impl fmt::Display for ScanEnd {
    ghost output = { λ e. Some (end_text e) };

    fn fmt<W: fmt::Write>(&self, f: &mut fmt::Formatter<W>) -> fmt::Result {
        match *self {
            ScanEnd::Open => write!(f, "<td>open"),
            ScanEnd::Over { entry } => write!(f, "{entry}<td>over"),
            ScanEnd::Stopped { entry } => write!(f, "{entry}<td>stopped"),
        }
    }
}
