// The lines of a text.
ghost use Rattle.std.specs.Prelude.{◌≡◌, ◌≤◌, ◌&&◌, false};
ghost use Rattle.prepare_look.specs.Lines.{count, ended, is_feed, is_return, line_ends, one_if, pairs};

/// How the lines of a text end.
#[derive(Clone, Copy, Debug, PartialEq, Eq)]
pub struct Lines {
    /// How many line feeds there are.
    pub feeds: usize,
    /// How many carriage returns.
    pub returns: usize,
    /// How many line feeds stand right behind a carriage return. Both together end one line.
    pub pairs: usize,
    /// How many lines end.
    pub ends: usize,
}

/// Whether this byte ends a line, where a carriage return may stand right before it.
pub(crate) fn ended(behind_return: bool, byte: u8) -> usize
    ensures count { result ≡ ended behind_return byte }
    ensures one { result ≤ 1 }
{
    if byte == b'\r' {
        return 1;
    }
    if byte == b'\n' && !behind_return {
        return 1;
    }
    0
}

fn one_if(is: bool) -> usize
    ensures count { result ≡ one_if is }
    ensures one { result ≤ 1 }
{
    if is {
        return 1;
    }
    0
}

// Whether this byte is a line feed behind a carriage return.
fn pair(behind_return: bool, byte: u8) -> usize
    ensures count { result ≡ one_if (behind_return && is_feed byte) }
    ensures one { result ≤ 1 }
{
    if behind_return && byte == b'\n' {
        return 1;
    }
    0
}

/// Counts the line ends of a text.
pub fn count_lines(text: &[u8]) -> Lines
    ensures feeds { result.feeds ≡ count is_feed text.now }
    ensures returns { result.returns ≡ count is_return text.now }
    ensures pairs { result.pairs ≡ pairs false text.now }
    ensures ends { result.ends ≡ line_ends false text.now }
{
    let mut feeds: usize = 0;
    let mut returns: usize = 0;
    let mut pairs: usize = 0;
    let mut ends: usize = 0;
    let mut behind_return = false;
    for i in 0..text.len() {
        let byte = text[i];
        feeds += one_if(byte == b'\n');
        returns += one_if(byte == b'\r');
        pairs += pair(behind_return, byte);
        ends += ended(behind_return, byte);
        behind_return = byte == b'\r';
    }
    Lines {
        feeds,
        returns,
        pairs,
        ends,
    }
}
