// What is wrong with the value of an option.
ghost use Rattle.std.specs.Prelude.{◌≡◌};
ghost use Rattle.prepare_words.specs.declared.fault.Fault.TheVariants as fault;

use std::alloc::{AllocError, AllocFailed};
use std::fmt;

/// An option whose value is judged here.
#[derive(Clone, Copy, Debug, PartialEq, Eq)]
pub enum Word {
    Delimiter,
    Quote,
    Encoding,
    Skip,
    Columns,
    Rename,
    Numbers,
    DateColumns,
    Dates,
    Missing,
    DecimalComma,
    Thousands,
    Exponents,
    Places,
    Round,
    Ragged,
    File,
}

impl Word {
    // The option as it stands in the manual.
    fn name(self) -> &'static str {
        match self {
            Word::Delimiter => "--delimiter",
            Word::Quote => "--quote",
            Word::Encoding => "--encoding",
            Word::Skip => "--skip",
            Word::Columns => "--columns",
            Word::Rename => "--rename",
            Word::Numbers => "--numbers",
            Word::DateColumns => "--date-columns",
            Word::Dates => "--dates",
            Word::Missing => "--missing",
            Word::DecimalComma => "--decimal-comma",
            Word::Thousands => "--thousands",
            Word::Exponents => "--exponents",
            Word::Places => "--places",
            Word::Round => "--round",
            Word::Ragged => "--ragged",
            Word::File => "FILE",
        }
    }

    // What its values are.
    fn values(self) -> &'static str {
        match self {
            Word::Delimiter => "a byte, tab or blanks",
            Word::Quote => "a byte that isn't the delimiter",
            Word::Encoding => "utf-8, latin-1, windows-1252 or utf-16",
            Word::Skip => "a number of records",
            Word::Columns | Word::Numbers | Word::DateColumns => {
                "names, places from 1 and ranges such as 4-9, parted by commas, 16 columns at most"
            }
            Word::Rename => "OLD=NEW, where NEW isn't empty",
            Word::Thousands => "a byte that isn't a digit, the decimal mark or a minus",
            Word::Ragged => "refuse or pad",
            Word::Dates => "dmy or mdy",
            Word::Places => "a number of digits, 0 to 9",
            Word::File => "the name of a file",
            Word::Missing | Word::DecimalComma | Word::Exponents | Word::Round => "any",
        }
    }

    // By what it acts.
    fn ground(self) -> &'static str {
        match self {
            Word::Round => "by '--places'",
            Word::DateColumns => "by '--dates'",
            Word::Dates => "in the columns of '--date-columns'",
            Word::Missing => "in the columns of '--numbers' or '--date-columns'",
            _ => "in the columns of '--numbers'",
        }
    }
}

/// Why the words of a subcommand give nothing.
#[derive(Clone, Copy, Debug, PartialEq, Eq)]
pub enum Fault<'a> {
    /// No such value can stand behind the option.
    Value { word: Word, value: &'a str },
    /// What the option acts by isn't there: columns of numbers or of dates, places, or an order of dates.
    Alone { word: Word },
    /// Out of memory.
    Memory,
}

impl From<AllocError> for Fault<'_> {
    ghost from_gives = { λ _ e. e ≡ fault.Memory };

    fn from(_: AllocError) -> Self {
        Fault::Memory
    }
}

impl<T: Drop> From<AllocFailed<T>> for Fault<'_> {
    ghost from_gives = { λ _ e. e ≡ fault.Memory };

    fn from(_: AllocFailed<T>) -> Self {
        Fault::Memory
    }
}

impl fmt::Display for Fault<'_> {
    fn fmt<W: fmt::Write>(&self, f: &mut fmt::Formatter<W>) -> fmt::Result {
        match self {
            Fault::Value { word, value } => {
                let (name, values) = (word.name(), word.values());
                writeln!(
                    f,
                    "error: invalid value '{value}' for '{name}': it takes {values}"
                )
            }
            Fault::Alone { word } => {
                let (name, ground) = (word.name(), word.ground());
                writeln!(f, "error: '{name}' acts {ground}, which isn't there")
            }
            Fault::Memory => Ok(()),
        }
    }
}
