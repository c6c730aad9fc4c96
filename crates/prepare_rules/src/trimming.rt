// White space around a field.
ghost use Rattle.std.specs.Prelude.{◌≡◌, ◌≤◌, drop, length};
ghost use Rattle.csv.specs.Records.{trim_end, trim_start, trimmed};

/// The field without ASCII white space at its ends.
pub(crate) fn trimmed(field: &[u8]) -> &[u8]
    ensures { result.now ≡ trimmed field.now }
{
    let rest = &field[front_len(field)..];
    &rest[..filled_len(rest)]
}

// How much white space stands at the front.
fn front_len(field: &[u8]) -> usize
    ensures value { drop result field.now ≡ trim_start field.now }
    ensures bound { result ≤ length field.now }
{
    'bytes: for i in 0..field.len() {
        if !field[i].is_ascii_whitespace() {
            return i;
        }
    }
    field.len()
}

// How many bytes come before the white space at the end.
fn filled_len(field: &[u8]) -> usize
    ensures value { result ≡ trim_end field.now }
    ensures bound { result ≤ length field.now }
{
    let len = field.len();
    'bytes: for k in 0..len {
        if !field[len - k - 1].is_ascii_whitespace() {
            return len - k;
        }
    }
    0
}
