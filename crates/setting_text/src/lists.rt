// Lists of numbers as words.
ghost use Rattle.std.specs.Prelude.{◌≡◌, ◌↔◌, ℕ, IfOk, IfSome, IsTrue, List, Some, codes, decimal, map};
ghost use Rattle.std.specs.String.{string_bytes};
ghost use Rattle.setting_text.specs.Text.{list_text};
ghost use Rattle.setting_text.specs.Reading.{AreShort};

use crate::words::{number, parts_of};
use std::alloc::{AllocError, Global};
use std::collections::LinkedList;

// The numbers that words tell.
fn numbers_of(alloc: Global, words: &[&[u8]]) -> Result<Option<LinkedList<u32>>, AllocError>
    ensures short { IfOk result (λ o. IfSome o AreShort) }
    ensures reads { IfOk result (λ o. (ns : List ℕ) → AreShort ns → map (λ w. w.now) words.now ≡ map decimal ns
        → o ≡ Some ns) }
{
    let mut list = LinkedList::new(alloc);
    let mut rest = words;
    while let [word, after @ ..] = rest {
        let Some(n) = number(*word) else {
            return Ok(None);
        };
        list.push_back(n)?;
        rest = after;
    }
    Ok(Some(list))
}

fn is_dash(word: &[u8]) -> bool
    ensures { IsTrue result ↔ word.now ≡ codes "-" }
{
    word == b"-".as_slice()
}

/// The numbers of a list.
pub(crate) fn numbers_in(alloc: Global, word: &[u8]) -> Result<Option<LinkedList<u32>>, AllocError>
    ensures short { IfOk result (λ o. IfSome o AreShort) }
    ensures reads { IfOk result (λ o. (ns : List ℕ) → AreShort ns → word.now ≡ list_text ns → o ≡ Some ns) }
{
    if is_dash(word) {
        return Ok(Some(LinkedList::new(alloc)));
    }
    let parts = parts_of(alloc, word, b',')?;
    let list = numbers_of(alloc, &parts)?;
    Ok(list)
}

/// The word of a list.
pub(crate) fn list_text(alloc: Global, list: &LinkedList<u32>) -> Result<String, AllocError>
    ensures { IfOk result (λ s. string_bytes s ≡ list_text list.now) }
{
    let mut numbers = list.iter();
    let Some(first) = numbers.next() else {
        return format!(in alloc; "-");
    };
    let mut text = format!(in alloc; "{first}")?;
    for n in numbers {
        let part = format!(in alloc; ",{n}")?;
        text.push_str(part.as_str())?;
    }
    Ok(text)
}
