// Whether runs of blanks part the columns.
ghost use Rattle.std.specs.Prelude.{◌≡◌, ◌&&◌, IfOk, option_map};
ghost use Rattle.prepare_page.specs.Blanks.{AreTable, IsByBlanks, is_even, is_half, rows_by_tabs};

use crate::column::{Sort, count_columns};
use crate::delimiter::{Guess, usual_under};
use crate::header::{VALUES, WORDS};
use crate::usual::Usual;
use prepare_blanks::with_tabs;
use prepare_look::{Failure, Marks, Survey, survey_of};
use std::alloc::Global;

// Whether each record has as many fields, two or more, and there are two records.
fn is_even(usual: Usual) -> bool
    ensures { result ≡ is_even usual }
{
    usual.count == usual.records && usual.records >= 2
}

// Whether half of the columns are numbers or dates.
fn is_half(survey: &Survey) -> bool
    ensures { result ≡ is_half survey.now }
{
    let sort = Sort {
        some: &VALUES,
        none: &WORDS,
    };
    survey.width as u128 <= 2 * (count_columns(survey, &sort) as u128)
}

// Whether records are a table, by the fields that most of them have and what is seen below the first one.
fn is_table(usual: Usual, under: &Survey) -> bool
    ensures { result ≡ (is_even usual && is_half under.now) }
{
    if !is_even(usual) {
        return false;
    }
    is_half(under)
}

// Whether the records of a text that is parted by tabs are a table.
fn are_table(alloc: Global, made: &[u8]) -> Result<bool, Failure>
    ensures { IfOk result (AreTable (rows_by_tabs made.now)) }
{
    let marks = Marks {
        delimiter: b'\t',
        quote: b'"',
    };
    let usual = usual_under(alloc, b'\t', b'"', made)?;
    let under = survey_of(alloc, marks, made, 1, usual.width)?;
    Ok(is_table(usual, &under))
}

/// The text with a tab between two words, where runs of blanks part its columns: where under none of the delimiters
/// that were tried a record has two fields, and each line but empty ones has as many words, two or more, there are two
/// such lines, and half of the columns below the first one are numbers or dates. More than 2^62 records are a failure,
/// `TooLong`.
pub fn tabs_in(alloc: Global, text: &[u8], guess: Guess) -> Result<Option<Vec<u8>>, Failure>
    ensures { IfOk result (λ made. IsByBlanks text.now guess (option_map (λ m. m.items) made)) }
{
    if guess.usual.count > 0 {
        return Ok(None);
    }
    let made = with_tabs(alloc, b'"', text)?;
    if are_table(alloc, made.as_slice())? {
        return Ok(Some(made));
    }
    Ok(None)
}
