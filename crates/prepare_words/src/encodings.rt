// Encodings as words.
ghost use Rattle.std.specs.Prelude.{◌≡◌, option_map};
ghost use Rattle.prepare_words.specs.Reading.{Gives, encoding_named, encoding_of};

use crate::fault::{Fault, Word};
use prepare_decode::Encoding;

// The encoding that a word names.
fn encoding_named(text: &str) -> Option<Encoding>
    ensures { result ≡ encoding_named text.now }
{
    match text {
        "utf-8" => Some(Encoding::Utf8),
        "latin-1" => Some(Encoding::Latin1),
        "windows-1252" => Some(Encoding::Windows1252),
        "utf-16" => Some(Encoding::Utf16),
        _ => None,
    }
}

/// How the characters of the export are written.
pub(crate) fn encoding_of<'a>(text: Option<&'a str>) -> Result<Encoding, Fault<'a>>
    ensures { Gives (λ e. e) result (encoding_of (option_map (λ s. s.now) text.entry)) }
{
    let Some(value) = text else {
        return Ok(Encoding::Utf8);
    };
    match encoding_named(value) {
        Some(encoding) => Ok(encoding),
        None => Err(Fault::Value {
            word: Word::Encoding,
            value,
        }),
    }
}
