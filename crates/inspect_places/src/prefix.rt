// Where the tokens of a text stop.

ghost use Rattle.std.specs.Prelude.{◌≡◌, ◌<◌, ◌≤◌, length};
ghost use Rattle.inspect_places.specs.Prefixes.{IsLongestPrefix};

use crate::pieces::piece_len;

/// How many bytes the longest prefix of the text has that has tokens.
///
/// All of them where the text has tokens. Else there stands what begins no token: an open quote, `""`, or a byte such
/// as a lone `!`. It takes no memory, and the time grows with the length of the text.
pub fn longest_prefix(bytes: &[u8]) -> usize
    ensures prefix { IsLongestPrefix bytes.now result }
{
    let mut at = 0;
    while at < bytes.len() {
        let Some(n) = piece_len(&bytes[at..]) else {
            return at;
        };
        at += n;
    }
    at
}
