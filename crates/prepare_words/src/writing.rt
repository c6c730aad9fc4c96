// What is made of an export.
ghost use Rattle.prepare_words.specs.Views.{HasRules};

use crate::delimiter::Delimiter;
use prepare_decode::Encoding;
use prepare_rules::{Column, Limit, Mark, Order, Rename, Rules};

/// What is made of an export.
#[derive(Drop)]
pub struct Writing<'a> {
    /// The export's file.
    pub file: &'a str,
    /// What isn't asked for is done as a look at the export says.
    pub is_auto: bool,
    /// It isn't told which rules were taken and what they changed.
    pub is_quiet: bool,
    /// The encoding is asked for.
    pub has_encoding: bool,
    /// What stands between two fields is asked for.
    pub has_delimiter: bool,
    /// How many records are left out is asked for.
    pub has_skip: bool,
    /// What stands between two fields.
    pub delimiter: Delimiter,
    /// The byte around a field, another one than the delimiter's.
    pub quote: u8,
    /// How the characters of the export are written.
    pub encoding: Encoding,
    /// So many records at the begin are left out.
    pub skip: u32,
    /// The next record holds the names.
    pub has_names: bool,
    /// The columns that are written; none stands for all of them.
    pub columns: Vec<Column<'a>>,
    /// Columns that are written under another name.
    pub renames: Vec<Rename<'a>>,
    /// The columns of numbers.
    pub numbers: Vec<Column<'a>>,
    /// The columns of dates.
    pub dates: Vec<Column<'a>>,
    /// Which of two numbers before the year of a date is the day.
    pub order: Order,
    /// Marks for missing values in columns of numbers and of dates.
    pub missing: Vec<&'a str>,
    /// The decimal mark of the numbers.
    pub mark: Mark,
    /// The byte that parts the thousands of the numbers.
    pub parts: Option<u8>,
    /// A power of ten may stand behind the numbers.
    pub exponents: bool,
    /// The most digits behind the point of the numbers, and whether one that has more is rounded.
    pub limit: Option<Limit>,
    /// White space around fields is left out.
    pub trims: bool,
    /// Short records get empty fields.
    pub pads: bool,
}

impl Writing<'_> {
    /// The rules as `prepare` takes them; where blanks stand between fields, of a text with tabs in their place.
    pub fn rules(&self) -> Rules<'_>
        ensures { HasRules self.now result }
    {
        Rules {
            delimiter: self.delimiter.byte(),
            quote: self.quote,
            skip: self.skip,
            has_names: self.has_names,
            columns: self.columns.as_slice(),
            renames: self.renames.as_slice(),
            numbers: self.numbers.as_slice(),
            dates: self.dates.as_slice(),
            order: self.order,
            missing: self.missing.as_slice(),
            mark: self.mark,
            parts: self.parts,
            exponents: self.exponents,
            limit: self.limit,
            trims: self.trims,
            pads: self.pads,
        }
    }
}
