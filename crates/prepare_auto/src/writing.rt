// An export as a look at it says.
ghost use Rattle.std.specs.Prelude.{◌≡◌, ◌≤◌, IfOk};
ghost use Rattle.prepare_page.specs.Looks.{IsLookBy};
ghost use Rattle.prepare_page.specs.declared.counts.TheConstants.{WIDEST};
ghost use Rattle.prepare_auto.specs.Advised.{IsDone, IsWritten, failure_of, has_titles, hint_of};

use crate::advice::{advised, marks_with, numbers_of};
use crate::ending::Ending;
use crate::given::Given;
use crate::spelling::Spelling;
use crate::stop::Stop;
use prepare_look::Failure as Broken;
use prepare_page::{Look, look_by};
use prepare_rules::{Failure, Report, Rules, Tally, prepare};
use std::alloc::Global;
use std::io::Write;

fn failure_of(failure: Broken) -> Failure
    ensures { result ≡ failure_of failure }
{
    match failure {
        Broken::TooLong => Failure::TooLong,
        Broken::Memory => Failure::Memory,
    }
}

// Whether records that aren't left out seem to be titles.
fn has_titles(given: Given, look: &Look) -> bool
    ensures { result ≡ has_titles given look.now }
{
    !given.skip && look.titles > 0
}

// Writes what the rules make of a text that a look gives.
fn write_by<W: Write + Drop>(
    alloc: Global,
    asked: &Rules<'_>,
    look: &Look,
    text: &[u8],
    output: W,
) -> Result<(W, Report), Failure>
    requires { look.now.survey.width ≤ WIDEST }
    ensures { IfOk result (λ p. IsDone asked.now look.now text.now p.1 (W.contents output) (W.contents p.0)) }
{
    let spelling = Spelling::of(look);
    let numbers = numbers_of(alloc, &look.survey, spelling.reading)?;
    let missing = marks_with(alloc, asked.missing)?;
    let rules = advised(
        asked,
        look,
        spelling,
        numbers.as_slice(),
        missing.as_slice(),
    );
    prepare(alloc, &rules, text, output)
}

/// Writes to the output what `coop_cli` takes of a text in UTF-8 or the like: what the rules that are asked for make of
/// it, and with them those that a look at it gives, where none are asked for. These change no value and leave out no
/// record. Gives the output back with what was done and why it isn't written to its end, if it isn't, and with the
/// look.
///
/// # Errors
///
/// What breaks it off whatever the rules say; the output is dropped then, and how much of it was written is not known.
pub fn write_auto<W: Write + Drop>(
    alloc: Global,
    asked: &Rules<'_>,
    given: Given,
    text: &[u8],
    output: W,
) -> Result<(W, Ending, Look), Failure>
    ensures { IfOk result (λ p. IsWritten asked.now given text.now p.2 p.1 (W.contents output) (W.contents p.0)) }
{
    let look = match look_by(alloc, given.hint(asked), text) {
        Ok(look) => look,
        Err(failure) => return Err(failure_of(failure)),
    };
    if has_titles(given, &look) {
        let (records, line) = (look.titles, look.first.line);
        let ending = Ending {
            tally: Tally::none(),
            stop: Some(Stop::Titles { records, line }),
        };
        return Ok((output, ending, look));
    }
    let done = write_by(alloc, asked, &look, text, output)?;
    Ok((done.0, Ending::of(done.1), look))
}
