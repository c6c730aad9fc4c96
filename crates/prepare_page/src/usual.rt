// The number of fields that most records have.
ghost use Rattle.std.specs.Prelude.{◌≡◌, ◌+◌, ◌*◌, ◌&&◌, IfOk, length, nat_le, nat_lt, if◌then◌else◌};
ghost use Rattle.prepare_look.specs.Rows.{rows_of};
ghost use Rattle.prepare_page.specs.Widths.{IsMost, IsUsual, is_better};

use crate::counts::WIDEST;
use crate::widths::widths_of;
use prepare_look::{Failure, Marks};
use std::alloc::Global;

/// The number of fields, two or more, that most records have.
#[derive(Clone, Copy, Debug)]
pub struct Usual {
    /// The number of fields; 1, where no record has two or more.
    pub width: usize,
    /// How many records have it.
    pub count: u64,
    /// How many records there are.
    pub records: u64,
}

fn times(a: u64, b: u64) -> u128
    ensures { result ≡ a * b }
{
    a as u128 * b as u128
}

impl Usual {
    // This width, where at least as many records have it.
    fn or(self, width: usize, count: u64) -> Usual
        ensures { result ≡ (if nat_lt 0 count && nat_le self.count count
            then record { width = width; count = count; records = self.records } else self) }
    {
        if 0 < count && self.count <= count {
            return Usual {
                width,
                count,
                records: self.records,
            };
        }
        self
    }

    /// Whether a greater share of the records has this width than that of the other.
    pub(crate) fn is_better(self, other: Usual) -> bool
        ensures { result ≡ is_better self other }
    {
        times(other.count, self.records) < times(self.count, other.records)
    }
}

// The width that the most records have.
fn most(counts: &[u64], records: u64) -> Usual
    requires { length counts.now ≡ WIDEST + 1 }
    ensures most { IsMost counts.now (WIDEST + 1) result }
    ensures records { result.records ≡ records }
{
    let mut usual = Usual {
        width: 1,
        count: 0,
        records,
    };
    for width in 2..counts.len() {
        usual = usual.or(width, counts[width]);
    }
    usual
}

/// The number of fields that most records of a text have. More than 2^62 records are a failure, `TooLong`.
pub fn usual_of(alloc: Global, marks: Marks, text: &[u8]) -> Result<Usual, Failure>
    ensures { IfOk result (IsUsual (rows_of marks text.now)) }
{
    let widths = widths_of(alloc, marks, text)?;
    Ok(most(widths.counts.as_slice(), widths.records))
}
