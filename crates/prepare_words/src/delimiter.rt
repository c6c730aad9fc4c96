// What stands between two fields.
ghost use Rattle.std.specs.Prelude.{◌≡◌, option_map};
ghost use Rattle.prepare_words.specs.Reading.{Gives, delimiter_named, delimiter_of};
ghost use Rattle.prepare_words.specs.Views.{byte_of};

use crate::bytes::byte_named;
use crate::fault::{Fault, Word};

/// What stands between two fields.
#[derive(Clone, Copy, Debug, PartialEq, Eq)]
pub enum Delimiter {
    /// This byte.
    Byte(u8),
    /// A run of blanks, for which `with_tabs` of `prepare_blanks` puts a tab.
    Blanks,
}

impl Delimiter {
    /// The byte between two fields; for blanks the tab that is put there.
    pub(crate) fn byte(self) -> u8
        ensures { result ≡ byte_of self }
    {
        match self {
            Delimiter::Byte(byte) => byte,
            Delimiter::Blanks => b'\t',
        }
    }
}

// What a word names.
fn delimiter_named(text: &str) -> Option<Delimiter>
    ensures { result ≡ delimiter_named text.now }
{
    if text == "blanks" {
        return Some(Delimiter::Blanks);
    }
    match byte_named(text) {
        Some(byte) => Some(Delimiter::Byte(byte)),
        None => None,
    }
}

/// What stands between two fields: what the word names, or a comma.
pub(crate) fn delimiter_of<'a>(text: Option<&'a str>) -> Result<Delimiter, Fault<'a>>
    ensures { Gives (λ d. d) result (delimiter_of (option_map (λ s. s.now) text.entry)) }
{
    let Some(value) = text else {
        return Ok(Delimiter::Byte(b','));
    };
    match delimiter_named(value) {
        Some(delimiter) => Ok(delimiter),
        None => Err(Fault::Value {
            word: Word::Delimiter,
            value,
        }),
    }
}
