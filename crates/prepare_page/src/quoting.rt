// Words as a shell takes them, and names as a page shows them.
use std::fmt;

fn is_plain(byte: u8) -> bool {
    byte.is_ascii_alphanumeric()
        || matches!(byte, b'_' | b'.' | b'/' | b'-' | b',' | b'+' | b'@' | b'%')
}

fn is_plain_word(word: &[u8]) -> bool {
    for i in 0..word.len() {
        if !is_plain(word[i]) {
            return false;
        }
    }
    !word.is_empty()
}

/// A word of a command: as it is where no byte of it means something to a shell, else in single quotes, where one of
/// its own is written by `'\\''`.
#[derive(Clone, Copy)]
pub(crate) struct Quoted<'a>(pub &'a str);

impl fmt::Display for Quoted<'_> {
    fn fmt<W: fmt::Write>(&self, f: &mut fmt::Formatter<W>) -> fmt::Result {
        let word = self.0;
        if is_plain_word(word.as_bytes()) {
            return f.write_str(word);
        }
        f.write_str("'")?;
        for sign in word.chars() {
            if sign == '\'' {
                f.write_str("'\\''")?;
            } else {
                f.write_char(sign)?;
            }
        }
        f.write_str("'")
    }
}

fn ascii_or_mark(byte: u8) -> char {
    if b' ' <= byte && byte <= b'~' {
        return byte as char;
    }
    '?'
}

fn blank_or(sign: char) -> char {
    if sign.is_control() {
        return ' ';
    }
    sign
}

/// A name in double quotes, without its controls; one that isn't UTF-8 with `?` for each byte that isn't ASCII.
#[derive(Clone, Copy)]
pub(crate) struct Shown<'a>(pub &'a [u8]);

impl fmt::Display for Shown<'_> {
    fn fmt<W: fmt::Write>(&self, f: &mut fmt::Formatter<W>) -> fmt::Result {
        f.write_str("\"")?;
        match std::str::from_utf8(self.0) {
            Ok(name) => {
                for sign in name.chars() {
                    f.write_char(blank_or(sign))?;
                }
            }
            Err(_) => {
                for i in 0..self.0.len() {
                    f.write_char(ascii_or_mark(self.0[i]))?;
                }
            }
        }
        f.write_str("\"")
    }
}
