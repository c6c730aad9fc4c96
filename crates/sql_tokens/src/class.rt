// Classes of bytes, and runs of a class.

ghost use Rattle.std.specs.Prelude.{◌≡◌, ◌≤◌, length};
ghost use Rattle.std.specs.List.{prefix_len};
ghost use Rattle.sql_tokens.specs.Classes as spec;

/// A class of bytes.
#[derive(Clone, Copy)]
pub enum Class {
    /// Space, tab, LF and CR.
    White,
    /// A letter or `_`: what a word begins with.
    Letter,
    /// A letter, a digit or `_`: what a word goes on with.
    Word,
    /// A digit.
    Digit,
    /// Any byte but LF: what a comment goes on with.
    Line,
}

/// Whether the byte is of the class.
pub fn is_in(class: Class, b: u8) -> bool
    ensures { result ≡ spec.is_in class b }
{
    match class {
        Class::White => b == b' ' || b == b'\t' || b == b'\n' || b == b'\r',
        Class::Letter => b.is_ascii_alphabetic() || b == b'_',
        Class::Word => b.is_ascii_alphanumeric() || b == b'_',
        Class::Digit => b.is_ascii_digit(),
        Class::Line => b != b'\n',
    }
}

/// How many bytes of the class the text begins with.
pub fn run_len(class: Class, bytes: &[u8]) -> usize
    ensures value { result ≡ prefix_len (spec.is_in class) bytes.now }
    ensures within { result ≤ length bytes.now }
{
    let mut end = 0;
    while end < bytes.len() && is_in(class, bytes[end]) {
        end += 1;
    }
    end
}
