// The bytes of a token, and where a character ends.

ghost use Rattle.std.specs.Prelude.{◌≡◌, ◌<◌, ◌≤◌, ◌^◌, length};
ghost use Rattle.std.specs.List.{prefix_len};
ghost use Rattle.inspect_places.specs.Spelled as spec;

use sql_tokens::Span;

/// The bytes of the span; none where the text ends before.
pub fn bytes_at(text: &[u8], span: Span) -> &[u8]
    ensures { result.now ≡ spec.bytes_at text.now span }
{
    match text.get(span.from as usize..span.to as usize) {
        Some(bytes) => bytes,
        None => b"".as_slice(),
    }
}

fn continues(b: u8) -> bool
    ensures { result ≡ spec.continues b }
{
    b >= 128 && b < 192
}

/// How many bytes that go on with a character the text begins with.
fn continuation_len(bytes: &[u8]) -> usize
    ensures value { result ≡ prefix_len spec.continues bytes.now }
    ensures within { result ≤ length bytes.now }
{
    let mut end = 0;
    while end < bytes.len() && continues(bytes[end]) {
        end += 1;
    }
    end
}

/// The end of the character that begins at a byte of the text.
pub fn char_end(bytes: &[u8], at: usize) -> usize
    requires { at < 2 ^ 32 }
    ensures value { result ≡ spec.char_end bytes.now at }
    ensures within { result ≤ length bytes.now }
{
    let behind = (at + 1).min(bytes.len());
    let more = continuation_len(&bytes[behind..]).min(3);
    (at + 1 + more).min(bytes.len())
}
