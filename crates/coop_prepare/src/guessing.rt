// The CSV that a look at the export gives, on standard output.
ghost use Rattle.std.specs.Prelude.{◌≡◌, true, false};
ghost use Rattle.prepare_decode.specs.Encodings.{IsEncoded};
ghost use Rattle.coop_prepare.specs.Endings.{IsGuessed};

use crate::ending::{behind, broken, refused};
use crate::reply::Reply;
use crate::telling::told;
use prepare_auto::{Ending, Given, Stop, write_auto};
use prepare_blanks::with_tabs;
use prepare_decode::{Encoding, encoding_of};
use prepare_look::Failure as Broken;
use prepare_page::{Look, Page, delimiter_of, page_of, tabs_in};
use prepare_rules::{Failure, Rules};
use prepare_words::{Delimiter, Writing};
use std::alloc::{AllocError, Global};
use std::io::Write;

/// The encoding that is asked for, or, where what isn't asked for is guessed, the guess.
pub(crate) fn encoding_by(writing: &Writing<'_>, bytes: &[u8]) -> Encoding
    ensures asked { writing.now.is_auto ≡ false → result ≡ writing.now.encoding }
    ensures known { writing.now.has_encoding ≡ true → result ≡ writing.now.encoding }
    ensures guessed { writing.now.is_auto ≡ true → writing.now.has_encoding ≡ false → IsEncoded bytes.now result }
{
    if writing.is_auto && !writing.has_encoding {
        return encoding_of(bytes);
    }
    writing.encoding
}

// What breaks off a look.
fn failure_of(failure: Broken) -> Failure {
    match failure {
        Broken::TooLong => Failure::TooLong,
        Broken::Memory => Failure::Memory,
    }
}

// The text with tabs in place of blanks, where blanks part its columns, as is asked for or, where nothing is, as a look
// says.
fn by_blanks(
    alloc: Global,
    writing: &Writing<'_>,
    text: &[u8],
) -> Result<Option<Vec<u8>>, Failure> {
    if writing.delimiter == Delimiter::Blanks {
        return Ok(Some(with_tabs(alloc, writing.quote, text)?));
    }
    if writing.has_delimiter || writing.quote != b'"' {
        return Ok(None);
    }
    let guess = match delimiter_of(alloc, writing.quote, text) {
        Ok(guess) => guess,
        Err(failure) => return Err(failure_of(failure)),
    };
    match tabs_in(alloc, text, guess) {
        Ok(made) => Ok(made),
        Err(failure) => Err(failure_of(failure)),
    }
}

/// Writes what the rules make of a text, and with them those that a look at it gives, and gives what is to be said of
/// it.
pub(crate) fn guessed<W: Write + Drop>(
    alloc: Global,
    writing: &Writing<'_>,
    encoding: Encoding,
    text: Vec<u8>,
    output: W,
) -> Reply {
    let tabbed = match by_blanks(alloc, writing, text.as_slice()) {
        Ok(tabbed) => tabbed,
        Err(failure) => return broken(alloc, writing.file, failure),
    };
    let has_blanks = tabbed.is_some();
    let text = tabbed.unwrap_or(text);
    let (ending, look) = match written_by(alloc, writing, has_blanks, text.as_slice(), output) {
        Ok(done) => done,
        Err(failure) => return broken(alloc, writing.file, failure),
    };
    let file = writing.file;
    let page = match page_by(alloc, file, encoding, has_blanks, text.as_slice(), &look) {
        Ok(page) => page,
        Err(failure) => return broken(alloc, file, failure),
    };
    came(alloc, writing, rules_told(alloc, writing, &page), ending)
}

// Writes what the rules make of a text, and with them those that a look at it gives.
fn written_by<W: Write + Drop>(
    alloc: Global,
    writing: &Writing<'_>,
    has_blanks: bool,
    text: &[u8],
    output: W,
) -> Result<(Ending, Look), Failure> {
    let given = Given {
        delimiter: writing.has_delimiter || has_blanks,
        skip: writing.has_skip,
    };
    let asked = writing.rules();
    let delimiter = if has_blanks { b'\t' } else { asked.delimiter };
    let (_, ending, look) = write_auto(alloc, &Rules { delimiter, ..asked }, given, text, output)?;
    Ok((ending, look))
}

// The page of what a look at the text gave.
fn page_by<'a>(
    alloc: Global,
    file: &'a str,
    encoding: Encoding,
    has_blanks: bool,
    text: &[u8],
    look: &'a Look,
) -> Result<Page<'a>, Failure> {
    match page_of(alloc, file, encoding, has_blanks, text, look) {
        Ok(page) => Ok(page),
        Err(failure) => Err(failure_of(failure)),
    }
}

// The line that tells the rules of a look, with those on numbers where none are asked for; none where it isn't to be
// told.
fn rules_told(alloc: Global, writing: &Writing<'_>, page: &Page<'_>) -> Result<String, AllocError> {
    if writing.is_quiet {
        return Ok(String::new(alloc));
    }
    let rules = format!(in alloc; "{}", page.advice(writing.numbers.is_empty()))?;
    if rules.is_empty() {
        return format!(in alloc; "auto: no rule\n");
    }
    format!(in alloc; "auto:{rules}\n")
}

// What is said where all records were read, or why not: the rules, what they did, and the refusal.
fn came(
    alloc: Global,
    writing: &Writing<'_>,
    rules: Result<String, AllocError>,
    ending: Ending,
) -> Reply
    ensures { IsGuessed ending.stop result }
{
    let done = told(alloc, writing, &ending.tally);
    match ending.stop {
        Some(Stop::Titles { records, line }) => {
            Reply::told(alloc, 3, titles_told(alloc, records, line))
        }
        Some(Stop::Record(refusal)) => {
            let line = refused(alloc, writing, &refusal);
            Reply::told(alloc, 3, behind(alloc, behind(alloc, rules, done), line))
        }
        None => Reply::told(alloc, 0, behind(alloc, rules, done)),
    }
}

// The line of records above the table.
fn titles_told(alloc: Global, records: usize, line: usize) -> Result<String, AllocError> {
    format!(in alloc;
        "stopped 3: the table seems to begin in line {line}: ask for --skip {records}, or for --skip 0\n"
    )
}
