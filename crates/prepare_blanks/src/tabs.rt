// A text with its words parted by tabs.
ghost use Rattle.std.specs.Prelude.{◌≡◌, ◌++◌, IfOk, OnOk, drop};
ghost use Rattle.prepare_blanks.specs.Tabs.{tabbed, tabbed_from};
ghost use Rattle.prepare_blanks.specs.declared.place.Place.TheVariants as place;

use crate::place::Place;
use prepare_look::without_mark;
use std::alloc::{AllocError, Global};

/// A byte order mark.
pub const MARK: [u8; 3] = [0xEF, 0xBB, 0xBF];

// Puts the text behind what is there, with its words parted by tabs.
fn push_tabbed(quote: u8, text: &[u8], made: &mut Vec<u8>) -> Result<(), AllocError>
    ensures { OnOk result (made.new.items ≡ made.old.items ++ tabbed_from quote place.Before text.now) }
{
    let mut place = Place::Before;
    for i in 0..text.len() {
        place.push(text[i], made)?;
        place = place.next(quote, text[i]);
    }
    Ok(())
}

/// The text with one tab between two words of a line, and no blank before the first or behind the last. A word ends
/// before a blank, which is a space or a tab, or before the end of its line; one that begins with the quote holds
/// blanks and line ends up to the closing quote, and keeps its quotes. A line feed stands for each line end, so that
/// each line keeps its number. The text that is made begins with a byte order mark, whether or not this one does.
pub fn with_tabs(alloc: Global, quote: u8, text: &[u8]) -> Result<Vec<u8>, AllocError>
    ensures { IfOk result (λ made. made.items ≡ tabbed quote text.now) }
{
    let mut made = Vec::with_capacity(alloc, text.len().saturating_add(MARK.len()))?;
    made.extend_from_slice(&MARK)?;
    push_tabbed(quote, without_mark(text), &mut made)?;
    Ok(made)
}
