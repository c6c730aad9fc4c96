// Lines with numbers.
ghost use Rattle.std.specs.Prelude.{◌≡◌, ◌++◌, IfOk, OnOk, decimal};

use itoa::Buffer;
use std::alloc::{AllocError, Global};

/// A text with a number in it.
pub(crate) fn numbered(
    alloc: Global,
    before: &[u8],
    number: u64,
    after: &[u8],
) -> Result<Vec<u8>, AllocError>
    ensures { IfOk result (λ text. text.items ≡ before.now ++ (decimal number ++ after.now)) }
{
    let mut buffer = Buffer::new();
    let mut text = Vec::from_slice(alloc, before)?;
    text.extend_from_slice(buffer.format(number).as_bytes())?;
    text.extend_from_slice(after)?;
    Ok(text)
}

/// Puts some words and a number at the end.
pub(crate) fn push_number(text: &mut Vec<u8>, words: &[u8], number: u64) -> Result<(), AllocError>
    ensures { OnOk result (text.new.items ≡ text.old.items ++ (words.now ++ decimal number)) }
{
    text.extend_from_slice(words)?;
    let mut buffer = Buffer::new();
    text.extend_from_slice(buffer.format(number).as_bytes())
}
