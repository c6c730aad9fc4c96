// The rules as values.
ghost use Rattle.std.specs.Prelude.{◌≡◌};
ghost use Rattle.prepare_rules.specs.Numbers.{form_of, mark_byte};

use prepare_dates::Order;
use prepare_numbers::{Form, Limit};

/// A column of the export.
#[derive(Clone, Copy, Debug, PartialEq, Eq)]
pub enum Column<'a> {
    /// The first column of this name.
    Named(&'a str),
    /// By its place, counted from 1.
    Placed(u32),
}

/// What stands before the digits behind a number's whole part.
#[derive(Clone, Copy, Debug, PartialEq, Eq)]
pub enum Mark {
    Point,
    Comma,
}

impl Mark {
    pub(crate) fn byte(self) -> u8
        ensures { result ≡ mark_byte self }
    {
        match self {
            Mark::Point => b'.',
            Mark::Comma => b',',
        }
    }
}

/// A column that is written under another name.
#[derive(Clone, Copy, Debug, PartialEq, Eq)]
pub struct Rename<'a> {
    /// Its name in the export.
    pub from: &'a str,
    /// Its name as it is written.
    pub to: &'a str,
}

/// What is made of an export.
#[derive(Clone, Copy, Debug)]
pub struct Rules<'a> {
    /// The byte between two fields.
    pub delimiter: u8,
    /// The byte around a field that holds delimiters or line ends; two of them in such a field stand for one.
    pub quote: u8,
    /// So many records at the begin are left out, as titles are. An empty line is no record.
    pub skip: u32,
    /// The next record holds the names. Else the columns are called c1, c2, .. by the number of its fields.
    pub has_names: bool,
    /// The columns that are written, in their order; none stands for all of them.
    pub columns: &'a [Column<'a>],
    /// Columns that are written under another name.
    pub renames: &'a [Rename<'a>],
    /// The columns of numbers, in which marks for missing values and the rules on numbers act.
    pub numbers: &'a [Column<'a>],
    /// The columns of dates, none of which is one of numbers. A date is written as YYYY-MM-DD; a field that is none,
    /// and isn't empty, refuses its record.
    pub dates: &'a [Column<'a>],
    /// Which of two numbers before the year of a date is the day.
    pub order: Order,
    /// Marks for missing values: a field of a column of numbers or of dates that is one of them becomes empty.
    pub missing: &'a [&'a str],
    /// The decimal mark of the numbers; a comma is written as a point.
    pub mark: Mark,
    /// The byte that parts the whole digits of the numbers in groups of three, if there is one; it is left out.
    pub parts: Option<u8>,
    /// A power of ten may stand behind the numbers, as in `1.5e3`; they are written out.
    pub exponents: bool,
    /// The most digits behind the point of the numbers, and whether one that has more is rounded, half to even, or
    /// refuses its record; none lets digits stay as they are. Zeros past the limit are dropped.
    pub limit: Option<Limit>,
    /// ASCII white space around each field is left out.
    pub trims: bool,
    /// A record with fewer fields than there are names gets empty ones at its end, and isn't refused.
    pub pads: bool,
}

impl Rules<'_> {
    // How the numbers are spelled.
    pub(crate) fn form(&self) -> Form
        ensures { result ≡ form_of self.now }
    {
        Form {
            mark: self.mark.byte(),
            parts: self.parts,
            exponents: self.exponents,
        }
    }
}
