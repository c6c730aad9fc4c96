// The byte between two fields, guessed.
ghost use Rattle.std.specs.Prelude.{◌≡◌, IfOk};
ghost use Rattle.prepare_look.specs.Rows.{rows_of};
ghost use Rattle.prepare_page.specs.Delimiters.{IsGuess, IsGuessBy, best, better, marked, or_comma};
ghost use Rattle.prepare_page.specs.Widths.{IsUsual};

use crate::hint::Hint;
use crate::usual::{Usual, usual_of};
use prepare_look::{Failure, Marks};
use std::alloc::Global;

/// A delimiter, and what speaks for it.
#[derive(Clone, Copy, Debug)]
pub struct Guess {
    pub delimiter: u8,
    /// The number of fields that most records have under it.
    pub usual: Usual,
}

impl Guess {
    // The other one where it is better.
    fn better(self, other: Guess) -> Guess
        ensures { result ≡ better self other }
    {
        if other.usual.is_better(self.usual) {
            return other;
        }
        self
    }

    // A comma where no records have two fields or more.
    fn or_comma(self, comma: Usual) -> Guess
        ensures { result ≡ or_comma comma self }
    {
        if self.usual.count == 0 {
            return Guess {
                delimiter: b',',
                usual: comma,
            };
        }
        self
    }
}

// The best of the four.
fn best(semicolon: Usual, tab: Usual, bar: Usual, comma: Usual) -> Guess
    ensures { result ≡ best semicolon tab bar comma }
{
    let first = Guess {
        delimiter: b';',
        usual: semicolon,
    };
    first
        .better(Guess {
            delimiter: b'\t',
            usual: tab,
        })
        .better(Guess {
            delimiter: b'|',
            usual: bar,
        })
        .better(Guess {
            delimiter: b',',
            usual: comma,
        })
        .or_comma(comma)
}

/// The usual width under a delimiter.
pub(crate) fn usual_under(
    alloc: Global,
    delimiter: u8,
    quote: u8,
    text: &[u8],
) -> Result<Usual, Failure>
    ensures { IfOk result (IsUsual (rows_of (marked delimiter quote) text.now)) }
{
    usual_of(alloc, Marks { delimiter, quote }, text)
}

/// The delimiter of a text: of a semicolon, a tab, a bar and a comma the one under which the greatest share of records
/// has one and the same number of fields, two or more; the first of them where several have it.
pub fn delimiter_of(alloc: Global, quote: u8, text: &[u8]) -> Result<Guess, Failure>
    ensures { IfOk result (IsGuess quote text.now) }
{
    let semicolon = usual_under(alloc, b';', quote, text)?;
    let tab = usual_under(alloc, b'\t', quote, text)?;
    let bar = usual_under(alloc, b'|', quote, text)?;
    let comma = usual_under(alloc, b',', quote, text)?;
    Ok(best(semicolon, tab, bar, comma))
}

/// The delimiter that is known, or the guess.
pub(crate) fn guess_by(alloc: Global, hint: Hint, text: &[u8]) -> Result<Guess, Failure>
    ensures { IfOk result (IsGuessBy hint.delimiter hint.quote text.now) }
{
    match hint.delimiter {
        Some(delimiter) => {
            let usual = usual_under(alloc, delimiter, hint.quote, text)?;
            Ok(Guess { delimiter, usual })
        }
        None => delimiter_of(alloc, hint.quote, text),
    }
}
