// Bytes as words.
ghost use Rattle.std.specs.Prelude.{◌≡◌, option_map};
ghost use Rattle.prepare_words.specs.Reading.{Gives, but, byte_named, is_free, is_line_end, parts_of};
ghost use Rattle.prepare_words.specs.Reading.{quote_of};
ghost use Rattle.prepare_rules.specs.Numbers.{mark_byte};

use crate::fault::{Fault, Word};
use prepare_rules::Mark;

fn is_line_end(byte: u8) -> bool
    ensures { result ≡ is_line_end byte }
{
    byte == b'\n' || byte == b'\r'
}

/// The byte that a word names: itself, or a tab. No line end can be named.
pub(crate) fn byte_named(text: &str) -> Option<u8>
    ensures { result ≡ byte_named text.now }
{
    if text == "tab" {
        return Some(b'\t');
    }
    match text.as_bytes() {
        [byte] => {
            if is_line_end(*byte) {
                return None;
            }
            Some(*byte)
        }
        _ => None,
    }
}

/// The byte around a field, which isn't the delimiter.
pub(crate) fn quote_of<'a>(delimiter: u8, text: Option<&'a str>) -> Result<u8, Fault<'a>>
    ensures { Gives (λ b. b) result (quote_of delimiter (option_map (λ s. s.now) text.entry)) }
{
    match text {
        Some(value) => quote_named(delimiter, value),
        None => quote_named(delimiter, "\""),
    }
}

fn quote_named<'a>(delimiter: u8, value: &'a str) -> Result<u8, Fault<'a>>
    ensures { Gives (λ b. b) result (but value.now delimiter (byte_named value.now)) }
{
    let word = Word::Quote;
    match byte_named(value) {
        Some(byte) => {
            if byte == delimiter {
                return Err(Fault::Value { word, value });
            }
            Ok(byte)
        }
        None => Err(Fault::Value { word, value }),
    }
}

// The byte of a decimal mark.
fn mark_byte(mark: Mark) -> u8
    ensures { result ≡ mark_byte mark }
{
    match mark {
        Mark::Point => b'.',
        Mark::Comma => b',',
    }
}

// Whether the byte stands in no number with this decimal mark.
fn is_free(mark: Mark, byte: u8) -> bool
    ensures { result ≡ is_free mark byte }
{
    if byte.is_ascii_digit() || byte == b'-' {
        return false;
    }
    byte != mark_byte(mark)
}

/// The byte that parts thousands, if one is named.
pub(crate) fn parts_of<'a>(mark: Mark, text: Option<&'a str>) -> Result<Option<u8>, Fault<'a>>
    ensures { Gives (λ b. b) result (parts_of mark (option_map (λ s. s.now) text.entry)) }
{
    let Some(value) = text else {
        return Ok(None);
    };
    let word = Word::Thousands;
    match byte_named(value) {
        Some(byte) => {
            if is_free(mark, byte) {
                return Ok(Some(byte));
            }
            Err(Fault::Value { word, value })
        }
        None => Err(Fault::Value { word, value }),
    }
}
