// The rules that a look at an export gives.
ghost use Rattle.std.specs.Prelude.{◌≡◌, ◌<◌, ◌≤◌, ◌++◌, IfOk, OnOk};
ghost use Rattle.prepare_page.specs.Advice.{needs_rules};
ghost use Rattle.prepare_page.specs.declared.counts.TheConstants.{WIDEST};
ghost use Rattle.prepare_auto.specs.Advised.{IsAdvice, look_marks, mark_of, places_below, shaped, taken_at, texts};

use crate::spelling::{Spelling, limit_by};
use prepare_look::Survey;
use prepare_page::{Look, MARKS, Reading, needs_rules};
use prepare_rules::{Column, Mark, Rules};
use std::alloc::{AllocError, Global};

// Puts a column behind those that are there, where the rules on numbers have to act in it.
fn push_at(
    survey: &Survey,
    reading: Reading,
    column: usize,
    numbers: &mut Vec<Column<'_>>,
) -> Result<(), AllocError>
    requires { column < WIDEST }
    ensures { OnOk result (numbers.new.items ≡ taken_at (needs_rules survey.now reading) column numbers.old.items) }
{
    if needs_rules(survey, reading, column) {
        numbers.push(Column::Placed(column as u32 + 1))?;
    }
    Ok(())
}

/// The columns in which the rules on numbers have to act.
pub(crate) fn numbers_of<'a>(
    alloc: Global,
    survey: &Survey,
    reading: Reading,
) -> Result<Vec<Column<'a>>, AllocError>
    requires { survey.now.width ≤ WIDEST }
    ensures { IfOk result (λ v. v.items ≡ places_below (needs_rules survey.now reading) survey.now.width) }
{
    let mut numbers = Vec::new(alloc);
    for column in 0..survey.width {
        push_at(survey, reading, column, &mut numbers)?;
    }
    Ok(numbers)
}

fn mark_of(reading: Reading) -> Mark
    ensures { result ≡ mark_of reading }
{
    if reading.has_comma() {
        return Mark::Comma;
    }
    Mark::Point
}

// The rules that are asked for, with the delimiter of a look, and names or none as it says.
fn shaped<'a>(asked: &'a Rules<'_>, look: &Look) -> Rules<'a>
    ensures { result ≡ shaped asked.now look.now }
{
    Rules {
        delimiter: look.guess.delimiter,
        has_names: look.has_names,
        ..*asked
    }
}

/// The marks for missing values that are asked for, and behind them a look's.
pub(crate) fn marks_with<'a>(alloc: Global, asked: &[&'a str]) -> Result<Vec<&'a str>, AllocError>
    ensures { IfOk result (λ v. texts v.items ≡ texts asked.now ++ look_marks) }
{
    let mut marks = Vec::from_slice(alloc, asked)?;
    marks.extend_from_slice(&MARKS)?;
    Ok(marks)
}

/// The rules that are asked for, and with them what a look gives: the delimiter, whether there are names, and in which
/// columns numbers are read how, unless columns of numbers are asked for; with these marks for missing values.
pub(crate) fn advised<'a>(
    asked: &'a Rules<'_>,
    look: &Look,
    spelling: Spelling,
    numbers: &'a [Column<'_>],
    missing: &'a [&'a str],
) -> Rules<'a>
    requires { texts missing.now ≡ texts asked.now.missing.now ++ look_marks }
    ensures { IsAdvice asked.now look.now spelling numbers.now result }
{
    let shaped = shaped(asked, look);
    if !asked.numbers.is_empty() {
        return shaped;
    }
    Rules {
        numbers,
        missing,
        mark: mark_of(spelling.reading),
        parts: spelling.reading.parts(),
        exponents: spelling.has_powers,
        limit: limit_by(asked.limit, spelling.has_zeros),
        ..shaped
    }
}
