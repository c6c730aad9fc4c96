// A text in UTF-8.
ghost use Rattle.std.specs.Prelude.{◌≡◌, IfOk, IfSome, None, string_bytes};
ghost use Rattle.std.specs.Str.{IsUtf8, IsValidUpTo};
ghost use Rattle.prepare_decode.specs.Decoding.{Gives, IsText, decoded, listed, utf16};
ghost use Rattle.prepare_decode.specs.declared.encoding.Encoding.TheVariants as e;

use crate::encoding::Encoding;
use crate::single::{Characters, single_text};
use crate::wide::{is_marked, units_of, wide_text};
use std::alloc::{AllocError, Global};
use std::fmt;

/// Bytes that aren't of the encoding.
#[derive(Debug, Drop)]
pub struct BadBytes {
    /// How many bytes stand before the first of them.
    pub at: usize,
    /// The text of these, in UTF-8.
    pub before: Vec<u8>,
}

impl fmt::Display for BadBytes {
    fn fmt<W: fmt::Write>(&self, f: &mut fmt::Formatter<W>) -> fmt::Result {
        let place = self.at as u128 + 1;
        write!(f, "byte {place} isn't of the encoding")
    }
}

// The text, or the place of the first byte that isn't of it.
fn given(made: (String, Option<usize>)) -> Result<Vec<u8>, BadBytes>
    ensures { Gives (decoded (string_bytes made.0) made.1) (listed result) }
{
    let text = made.0.into_bytes();
    match made.1 {
        Some(at) => Err(BadBytes { at, before: text }),
        None => Ok(text),
    }
}

// The place of the first byte that isn't of UTF-8, if there is one.
fn bad_in(bytes: &[u8]) -> Option<usize>
    ensures none { result ≡ None → IsUtf8 bytes.now }
    ensures some { IfSome result (IsValidUpTo bytes.now) }
{
    match std::str::from_utf8(bytes) {
        Ok(_) => None,
        Err(error) => Some(error.valid_up_to()),
    }
}

// A text that should be in UTF-8 already.
fn checked(mut bytes: Vec<u8>) -> Result<Vec<u8>, BadBytes>
    ensures { IsText e.Utf8 bytes.items (listed result) }
{
    match bad_in(bytes.as_slice()) {
        Some(at) => {
            bytes.truncate(at);
            Err(BadBytes { at, before: bytes })
        }
        None => Ok(bytes),
    }
}

// A text in UTF-16.
fn narrowed(alloc: Global, bytes: &[u8]) -> Result<Result<Vec<u8>, BadBytes>, AllocError>
    ensures { IfOk result (λ found. Gives (utf16 bytes.now) (listed found)) }
{
    if !is_marked(bytes) {
        return Ok(Err(BadBytes {
            at: 0,
            before: Vec::new(alloc),
        }));
    }
    let units = units_of(alloc, bytes)?;
    let made = wide_text(alloc, bytes.len() % 2 == 1, units.as_slice())?;
    Ok(given(made))
}

/// The text of bytes in UTF-8, or the first of them that isn't of the encoding. Text that is in UTF-8 is given back as
/// it is; a byte order mark is a character of the text.
pub fn decode(
    alloc: Global,
    encoding: Encoding,
    bytes: Vec<u8>,
) -> Result<Result<Vec<u8>, BadBytes>, AllocError>
    ensures { IfOk result (λ found. IsText encoding bytes.items (listed found)) }
{
    match encoding {
        Encoding::Utf8 => return Ok(checked(bytes)),
        Encoding::Latin1 => {
            let made = single_text(alloc, Characters::Latin, bytes.as_slice())?;
            return Ok(given(made));
        }
        Encoding::Windows1252 => {
            let made = single_text(alloc, Characters::Windows, bytes.as_slice())?;
            return Ok(given(made));
        }
        Encoding::Utf16 => return narrowed(alloc, bytes.as_slice()),
    }
}
