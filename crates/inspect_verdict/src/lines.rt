// Lines of a text.
ghost use Rattle.std.specs.Prelude.{◌≡◌, ◌≤◌, ◌-◌, length};
ghost use Rattle.inspect_verdict.specs.Lines as spec;

use crate::part::end_of_line;

/// The first line of a text, with its line end, where it has one.
pub(crate) fn first_line(text: &[u8]) -> &[u8]
    ensures { result.now ≡ spec.first_line text.now }
{
    match end_of_line(text) {
        Some(end) => &text[..end + 1],
        None => text,
    }
}

// What stands behind the first line of a text.
fn behind_first(text: &[u8]) -> &[u8]
    ensures { result.now ≡ spec.behind_first text.now }
{
    match end_of_line(text) {
        Some(end) => &text[end + 1..],
        None => b"".as_slice(),
    }
}

/// What begins at the line of this number, from 1; nothing where a text has fewer.
pub(crate) fn from_line(text: &[u8], line: u64) -> &[u8]
    ensures { result.now ≡ spec.behind_lines (line - 1) text.now }
{
    let mut left = text;
    let mut number = 1;
    while number < line {
        left = behind_first(left);
        number += 1;
    }
    left
}

/// The line of this number, from 1, with its line end, where it has one; nothing where a text has fewer. It takes no
/// memory.
pub fn line_in(text: &[u8], line: u64) -> &[u8]
    ensures { result.now ≡ spec.line_in line text.now }
{
    first_line(from_line(text, line))
}

/// How long the longest beginning is that two texts have in common.
pub(crate) fn common_len(one: &[u8], other: &[u8]) -> usize
    ensures value { result ≡ spec.common one.now other.now }
    ensures within { result ≤ length one.now }
{
    let both = one.len().min(other.len());
    let mut end = 0;
    while end < both && one[end] == other[end] {
        end += 1;
    }
    end
}
