// Texts cut at marks, and the numbers that words tell.
ghost use Rattle.std.specs.Prelude.{◌≡◌, ◌↔◌, ◌==◌, ◌^◌, ◌<◌, ℕ, IfOk, IfSome, IsTrue, Some, decimal, length, map};
ghost use Rattle.std.specs.List.{slice_split, position};

use std::alloc::{AllocError, Global};

// Where the first of these marks stands.
fn place_of(bytes: &[u8], mark: u8) -> Option<usize>
    ensures value { result ≡ position (λ b. b == mark) bytes.now }
    ensures bound { IfSome result (λ i. i < length bytes.now) }
{
    bytes.iter().position(|b| *b == mark)
}

/// The parts of a text that stand between marks.
pub(crate) fn parts_of(alloc: Global, bytes: &[u8], mark: u8) -> Result<Vec<&[u8]>, AllocError>
    ensures { IfOk result (λ v. map (λ p. p.now) v.items ≡ slice_split (λ b. b == mark) bytes.now) }
{
    let mut parts = Vec::new(alloc);
    let mut rest = bytes;
    while let Some(place) = place_of(rest, mark) {
        parts.push(&rest[..place])?;
        rest = &rest[place + 1..];
    }
    parts.push(rest)?;
    Ok(parts)
}

fn number_in(text: &str) -> Option<u32>
    ensures { (n : ℕ) → n < 2 ^ 32 → text.now ≡ decimal n → result ≡ Some n }
{
    match text.parse::<u32>() {
        Ok(number) => Some(number),
        Err(_) => None,
    }
}

/// The number that a word tells.
pub(crate) fn number(word: &[u8]) -> Option<u32>
    ensures { (n : ℕ) → n < 2 ^ 32 → word.now ≡ decimal n → result ≡ Some n }
{
    match str::from_utf8(word) {
        Ok(text) => number_in(text),
        Err(_) => None,
    }
}

/// The numbers that two words tell.
pub(crate) fn two(first: &[u8], second: &[u8]) -> Option<(u32, u32)>
    ensures { (m n : ℕ) → m < 2 ^ 32 → n < 2 ^ 32 → first.now ≡ decimal m → second.now ≡ decimal n
        → result ≡ Some (m, n) }
{
    number(first).zip(number(second))
}

/// Whether two texts are the same.
pub(crate) fn is_same(one: &[u8], other: &[u8]) -> bool
    ensures { IsTrue result ↔ one.now ≡ other.now }
{
    one == other
}
