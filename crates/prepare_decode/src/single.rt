// Texts of which each byte is a character.
ghost use Rattle.std.specs.Prelude.{◌≡◌, IfOk, string_bytes};
ghost use Rattle.prepare_decode.specs.Decoding.{characters, decoded, single, windows};

use crate::encoding::is_high;
use std::alloc::{AllocError, Global};

/// The characters of Windows-1252 from 0x80 to 0x9F, with 0 for the five that are none.
pub const HIGH: [char; 32] = [
    '\u{20AC}', '\0', '\u{201A}', '\u{0192}', '\u{201E}', '\u{2026}', '\u{2020}', '\u{2021}',
    '\u{02C6}', '\u{2030}', '\u{0160}', '\u{2039}', '\u{0152}', '\0', '\u{017D}', '\0', '\0',
    '\u{2018}', '\u{2019}', '\u{201C}', '\u{201D}', '\u{2022}', '\u{2013}', '\u{2014}', '\u{02DC}',
    '\u{2122}', '\u{0161}', '\u{203A}', '\u{0153}', '\0', '\u{017E}', '\u{0178}',
];

/// Which characters bytes are.
#[derive(Clone, Copy)]
pub(crate) enum Characters {
    Latin,
    Windows,
}

// The character of a byte of Windows-1252.
fn windows(byte: u8) -> Option<char>
    ensures { result ≡ windows byte }
{
    if !is_high(byte) {
        return Some(byte as char);
    }
    let character = HIGH[(byte - 0x80) as usize];
    if character == '\0' {
        return None;
    }
    Some(character)
}

impl Characters {
    fn of(self, byte: u8) -> Option<char>
        ensures { result ≡ characters self byte }
    {
        match self {
            Characters::Latin => return Some(byte as char),
            Characters::Windows => return windows(byte),
        }
    }
}

/// The text up to the first byte that is no character, and the place of that byte, if there is one.
pub(crate) fn single_text(
    alloc: Global,
    page: Characters,
    bytes: &[u8],
) -> Result<(String, Option<usize>), AllocError>
    ensures { IfOk result (λ p. decoded (string_bytes p.0) p.1 ≡ single (characters page) 0 bytes.now) }
{
    let mut text = String::new(alloc);
    for i in 0..bytes.len() {
        match page.of(bytes[i]) {
            Some(character) => text.push(character)?,
            None => return Ok((text, Some(i))),
        }
    }
    Ok((text, None))
}
