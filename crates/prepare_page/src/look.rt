// All that is seen of an export.
ghost use Rattle.std.specs.Prelude.{◌≡◌, ◌&&◌, not, ◌+◌, [], ◌∷◌, ◌<◌, ◌^◌, false, IfOk, drop, if◌then◌else◌};
ghost use Rattle.csv.specs.Records.{fields_of};
ghost use Rattle.prepare_look.specs.Rows.{Row, rows_of};
ghost use Rattle.prepare_page.specs.Looks.{AreLines, AreNames, IsFirst, IsLook, IsLookBy, below, looked_at, marks_of};

use crate::counts::WIDEST;
use crate::delimiter::{Guess, guess_by};
use crate::header::has_names;
use crate::hint::Hint;
use crate::titles::titles_by;
use csv::ByteRecord;
use prepare_look::{
    Failure, Lines, Marks, Rows, Survey, count_lines, open_quote, skip_rows, survey_of,
    without_mark,
};
use std::alloc::Global;

/// The record behind the titles: its line, counted from 1, and its fields. Where there is none the line is 0, and there
/// is no field.
#[derive(Drop)]
pub struct First {
    pub line: usize,
    pub fields: ByteRecord,
}

/// All that is seen of an export.
#[derive(Drop)]
pub struct Look {
    pub lines: Lines,
    /// The line of the quotes that are open at the end.
    pub open: Option<usize>,
    pub guess: Guess,
    /// The byte around a field.
    pub quote: u8,
    /// How many records stand above the names, or above the first record where there are no names.
    pub titles: usize,
    pub first: First,
    /// The first record holds names.
    pub has_names: bool,
    /// So many records stand above those that are surveyed: the titles and the names.
    pub below: usize,
    /// What is seen in the records behind these.
    pub survey: Survey,
}

impl Look {
    /// The marks of the export.
    pub fn marks(&self) -> Marks
        ensures { result ≡ marks_of self.now }
    {
        Marks {
            delimiter: self.guess.delimiter,
            quote: self.quote,
        }
    }
}

// The record behind the titles.
fn first_of(alloc: Global, marks: Marks, text: &[u8], titles: usize) -> Result<First, Failure>
    ensures { IfOk result (λ first. IsFirst (drop titles (rows_of marks text.now))
        first.line (fields_of first.fields)) }
{
    let mut rows = Rows::new(alloc, marks, text);
    let mut fields = ByteRecord::new(alloc);
    skip_rows(&mut rows, &mut fields, titles)?;
    match rows.next(&mut fields)? {
        Some(line) => Ok(First { line, fields }),
        None => Ok(First {
            line: 0,
            fields: ByteRecord::new(alloc),
        }),
    }
}

// So many records stand above those that are surveyed.
fn below(titles: usize, has_names: bool) -> usize
    requires { titles < 2 ^ 63 }
    ensures { result ≡ below titles has_names }
{
    if has_names {
        return titles + 1;
    }
    titles
}

// So many columns are looked at: all, or none where there are too many.
fn looked_at(columns: usize) -> usize
    ensures { result ≡ looked_at columns }
{
    if columns <= WIDEST {
        return columns;
    }
    0
}

// Whether the first record behind the titles holds names.
fn is_named(
    alloc: Global,
    marks: Marks,
    text: &[u8],
    titles: usize,
    first: &ByteRecord,
) -> Result<bool, Failure>
    requires { titles < 2 ^ 63 }
    ensures { IfOk result (AreNames marks text.now titles (fields_of first.now)) }
{
    let under = survey_of(alloc, marks, text, titles + 1, looked_at(first.len()))?;
    Ok(has_names(first, &under))
}

// There are no names where that is known.
fn are_named(is_nameless: bool, told: bool) -> bool
    ensures { result ≡ (not is_nameless && told) }
{
    !is_nameless && told
}

// The line ends of a text.
fn lines_of(text: &[u8]) -> Lines
    ensures { AreLines text.now result }
{
    count_lines(text)
}

/// All that is seen of a text in UTF-8 or the like. More than 2^62 records are a failure, `TooLong`.
pub fn look_at(alloc: Global, text: &[u8]) -> Result<Look, Failure>
    ensures { IfOk result (IsLook text.now) }
{
    look_by(alloc, Hint::nothing(), text)
}

/// The same of a text of which something is known, which isn't guessed then.
pub fn look_by(alloc: Global, hint: Hint, text: &[u8]) -> Result<Look, Failure>
    ensures { IfOk result (IsLookBy hint text.now) }
{
    let guess = guess_by(alloc, hint, text)?;
    let marks = Marks {
        delimiter: guess.delimiter,
        quote: hint.quote,
    };
    let titles = titles_by(alloc, hint.titles, marks, text, guess.usual.width)?;
    let first = first_of(alloc, marks, text, titles)?;
    let told = is_named(alloc, marks, text, titles, &first.fields)?;
    let has_names = are_named(hint.is_nameless, told);
    let below = below(titles, has_names);
    let survey = survey_of(alloc, marks, text, below, looked_at(first.fields.len()))?;
    Ok(Look {
        lines: lines_of(text),
        open: open_quote(marks, without_mark(text)),
        guess,
        quote: hint.quote,
        titles,
        first,
        has_names,
        below,
        survey,
    })
}
