// How the characters of a text are written.
ghost use Rattle.std.specs.Prelude.{◌≡◌, true, false};
ghost use Rattle.std.specs.List.{list_any};
ghost use Rattle.std.specs.Str.{IsUtf8};
ghost use Rattle.prepare_decode.specs.Encodings.{IsEncoded, has_wide_mark, is_high, is_unset, is_windows};

use std::fmt;

/// How the characters of a text are written, by its bytes.
#[derive(Clone, Copy, Debug, PartialEq, Eq)]
pub enum Encoding {
    /// By a byte order mark of two bytes.
    Utf16,
    Utf8,
    /// No UTF-8, with a byte from 0x80 to 0x9F, and none of the five that Windows-1252 leaves unset.
    Windows1252,
    /// Anything else.
    Latin1,
}

impl fmt::Display for Encoding {
    fn fmt<W: fmt::Write>(&self, f: &mut fmt::Formatter<W>) -> fmt::Result {
        f.write_str(match self {
            Encoding::Utf16 => "UTF-16",
            Encoding::Utf8 => "UTF-8",
            Encoding::Windows1252 => "Windows-1252",
            Encoding::Latin1 => "Latin-1",
        })
    }
}

fn has_wide_mark(text: &[u8]) -> bool
    ensures { result ≡ has_wide_mark text.now }
{
    match text {
        [a, b, ..] => (*a == 0xFF && *b == 0xFE) || (*a == 0xFE && *b == 0xFF),
        _ => false,
    }
}

pub(crate) fn is_high(byte: u8) -> bool
    ensures { result ≡ is_high byte }
{
    0x80 <= byte && byte <= 0x9F
}

fn is_unset(byte: u8) -> bool
    ensures { result ≡ is_unset byte }
{
    byte == 0x81 || byte == 0x8D || byte == 0x8F || byte == 0x90 || byte == 0x9D
}

fn has_high(text: &[u8]) -> bool
    ensures { result ≡ list_any is_high text.now }
{
    for i in 0..text.len() {
        if is_high(text[i]) {
            return true;
        }
    }
    false
}

fn has_unset(text: &[u8]) -> bool
    ensures { result ≡ list_any is_unset text.now }
{
    for i in 0..text.len() {
        if is_unset(text[i]) {
            return true;
        }
    }
    false
}

fn is_windows(text: &[u8]) -> bool
    ensures { result ≡ is_windows text.now }
{
    if has_unset(text) {
        return false;
    }
    has_high(text)
}

fn is_utf8(text: &[u8]) -> bool
    ensures yes { result ≡ true → IsUtf8 text.now }
    ensures no { result ≡ false → ¬ (IsUtf8 text.now) }
{
    match std::str::from_utf8(text) {
        Ok(_) => true,
        Err(_) => false,
    }
}

/// How the characters of a text are written.
pub fn encoding_of(text: &[u8]) -> Encoding
    ensures { IsEncoded text.now result }
{
    if has_wide_mark(text) {
        return Encoding::Utf16;
    }
    if is_utf8(text) {
        return Encoding::Utf8;
    }
    if is_windows(text) {
        return Encoding::Windows1252;
    }
    Encoding::Latin1
}
