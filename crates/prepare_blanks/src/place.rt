// Where a pass over a text stands, among its words.
ghost use Rattle.std.specs.Prelude.{◌≡◌, ◌++◌, OnOk};
ghost use Rattle.prepare_blanks.specs.Blanks.{is_blank, is_line_end};
ghost use Rattle.prepare_blanks.specs.Tabs.{inside, kept, line_end, next, shown, started, tab};

use std::alloc::AllocError;

/// Where a pass over a text stands between two bytes.
#[derive(Clone, Copy)]
pub(crate) enum Place {
    /// Before the first word of a line.
    Before,
    /// The same, behind a carriage return.
    AfterCr,
    /// In a word.
    Inside,
    /// In a word in quotes.
    Quoted,
    /// Behind a quote in such a word.
    AfterQuote,
    /// Behind a word and a blank.
    Gap,
}

fn is_blank(byte: u8) -> bool
    ensures { result ≡ is_blank byte }
{
    byte == b' ' || byte == b'\t'
}

fn is_line_end(byte: u8) -> bool
    ensures { result ≡ is_line_end byte }
{
    byte == b'\n' || byte == b'\r'
}

// The place behind a line end.
fn line_end(byte: u8) -> Place
    ensures { result ≡ line_end byte }
{
    if byte == b'\r' {
        return Place::AfterCr;
    }
    Place::Before
}

// The place behind a byte of a word outside of quotes.
fn inside(byte: u8) -> Place
    ensures { result ≡ inside byte }
{
    if is_blank(byte) {
        return Place::Gap;
    }
    if is_line_end(byte) {
        return line_end(byte);
    }
    Place::Inside
}

// The place behind a byte between two words that is no blank.
fn started(quote: u8, byte: u8) -> Place
    ensures { result ≡ started quote byte }
{
    if is_line_end(byte) {
        return line_end(byte);
    }
    if byte == quote {
        return Place::Quoted;
    }
    Place::Inside
}

// Puts a byte behind what is there: no blank, and a line feed for each line end.
fn push_kept(byte: u8, made: &mut Vec<u8>) -> Result<(), AllocError>
    ensures { OnOk result (made.new.items ≡ made.old.items ++ kept byte) }
{
    if is_blank(byte) {
        return Ok(());
    }
    if is_line_end(byte) {
        made.push(b'\n')?;
        return Ok(());
    }
    made.push(byte)?;
    Ok(())
}

// Puts a tab behind what is there, before the first byte of a word.
fn push_tab(byte: u8, made: &mut Vec<u8>) -> Result<(), AllocError>
    ensures { OnOk result (made.new.items ≡ made.old.items ++ tab byte) }
{
    if is_blank(byte) || is_line_end(byte) {
        return Ok(());
    }
    made.push(b'\t')?;
    Ok(())
}

impl Place {
    /// The place behind a byte.
    pub(crate) fn next(self, quote: u8, byte: u8) -> Place
        ensures { result ≡ next quote self byte }
    {
        match self {
            Place::Quoted => {
                if byte == quote {
                    return Place::AfterQuote;
                }
                Place::Quoted
            }
            Place::AfterQuote => {
                if byte == quote {
                    return Place::Quoted;
                }
                inside(byte)
            }
            Place::Inside => inside(byte),
            Place::Gap => {
                if is_blank(byte) {
                    return Place::Gap;
                }
                started(quote, byte)
            }
            Place::Before | Place::AfterCr => {
                if is_blank(byte) {
                    return Place::Before;
                }
                started(quote, byte)
            }
        }
    }

    /// Puts what becomes of a byte here behind what is there.
    pub(crate) fn push(self, byte: u8, made: &mut Vec<u8>) -> Result<(), AllocError>
        ensures { OnOk result (made.new.items ≡ made.old.items ++ shown self byte) }
    {
        match self {
            Place::Quoted => {
                made.push(byte)?;
                return Ok(());
            }
            Place::AfterCr => {
                if byte == b'\n' {
                    return Ok(());
                }
                return push_kept(byte, made);
            }
            Place::Gap => {
                push_tab(byte, made)?;
                return push_kept(byte, made);
            }
            Place::Before | Place::Inside | Place::AfterQuote => return push_kept(byte, made),
        }
    }
}
