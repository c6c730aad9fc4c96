// Runs of bytes of a class.

ghost use Rattle.std.specs.Prelude.{◌≡◌, ◌≤◌, length};
ghost use Rattle.std.specs.List.{prefix_len};
ghost use Rattle.sql_tokens.specs.Classes.{is_in};
ghost use Rattle.sql_tokens.specs.declared.class.Class.TheVariants as class;

/// Space, tab, LF or CR.
pub fn is_white(b: u8) -> bool
    ensures { result ≡ is_in class.White b }
{
    b == b' ' || b == b'\t' || b == b'\n' || b == b'\r'
}

/// What a word begins with.
pub fn is_letter(b: u8) -> bool
    ensures { result ≡ is_in class.Letter b }
{
    b.is_ascii_alphabetic() || b == b'_'
}

/// What a word goes on with.
fn is_of_word(b: u8) -> bool
    ensures { result ≡ is_in class.Word b }
{
    b.is_ascii_alphanumeric() || b == b'_'
}

/// A digit, 0 to 9.
pub fn is_digit(b: u8) -> bool
    ensures { result ≡ is_in class.Digit b }
{
    b.is_ascii_digit()
}

/// How many bytes of white space the text begins with.
pub fn white_len(bytes: &[u8]) -> usize
    ensures value { result ≡ prefix_len (is_in class.White) bytes.now }
    ensures within { result ≤ length bytes.now }
{
    let mut end = 0;
    while end < bytes.len() && is_white(bytes[end]) {
        end += 1;
    }
    end
}

/// How many bytes of a word the text begins with.
pub fn word_len(bytes: &[u8]) -> usize
    ensures value { result ≡ prefix_len (is_in class.Word) bytes.now }
    ensures within { result ≤ length bytes.now }
{
    let mut end = 0;
    while end < bytes.len() && is_of_word(bytes[end]) {
        end += 1;
    }
    end
}

/// How many digits the text begins with.
pub fn digits_len(bytes: &[u8]) -> usize
    ensures value { result ≡ prefix_len (is_in class.Digit) bytes.now }
    ensures within { result ≤ length bytes.now }
{
    let mut end = 0;
    while end < bytes.len() && is_digit(bytes[end]) {
        end += 1;
    }
    end
}

/// How many bytes the text has before its first LF.
pub fn line_len(bytes: &[u8]) -> usize
    ensures value { result ≡ prefix_len (is_in class.Line) bytes.now }
    ensures within { result ≤ length bytes.now }
{
    let mut end = 0;
    while end < bytes.len() && bytes[end] != b'\n' {
        end += 1;
    }
    end
}
