// Value words judged four at a time, with no branch on what they are.
ghost use Rattle.std.specs.Prelude.{◌≡◌, ◌<◌, ◌≤◌, ◌+◌, ◌*◌, ◌^◌, ℕ, length, slice_index, true};
ghost use Rattle.std.specs.Int.{bit_at};
ghost use Rattle.std.specs.Int.RustNames.{bit_or};
ghost use Rattle.piece_format.specs.Bytes.{word_of};
ghost use Rattle.piece_format.specs.Checking.{AreBits, IsClear, limit_of};

use crate::word_bytes::word_at;
use std::simd::prelude::*;

// For each place of a word the word with this bit alone.
pub(crate) fn single_bits() -> [u64; 64]
    ensures { AreBits result }
{
    let mut bits = [0; 64];
    for b in 0..64u32 {
        bits[b as usize] = 1 << b;
    }
    bits
}

// The bytes from a word on.
pub(crate) fn from_word(bytes: &[u8], from: usize) -> &[u8]
    requires { 8 * from ≤ length bytes.now }
    ensures len { length result.now + 8 * from ≡ length bytes.now }
    ensures words { (i : ℕ) → word_of result.now i ≡ word_of bytes.now (from + i) }
{
    &bytes[8 * from..]
}

// Two lanes, of which the first has the bits of one more word.
pub(crate) fn with_bits_of(lanes: u64x2, word: u64) -> u64x2
    ensures { slice_index result 0 ≡ bit_or (slice_index lanes 0) word }
{
    lanes | u64x2::splat(word)
}

// Four words that stand one after another.
fn four_words(bytes: &[u8], from: u32) -> u64x4
    requires { 8 * (from + 4) ≤ length bytes.now }
    ensures lanes { length result ≡ 4 }
    ensures words { (l : ℕ) → l < 4 → slice_index result l ≡ word_of bytes.now (from + l) }
{
    let words = from_word(bytes, from as usize);
    u64x4::from_array([
        word_at(words, 0),
        word_at(words, 1),
        word_at(words, 2),
        word_at(words, 3),
    ])
}

// Eight words that stand one after another.
pub(crate) fn eight_words(bytes: &[u8], from: u32) -> u64x8
    requires { 8 * (from + 8) ≤ length bytes.now }
    ensures lanes { length result ≡ 8 }
    ensures words { (l : ℕ) → l < 8 → slice_index result l ≡ word_of bytes.now (from + l) }
{
    let words = from_word(bytes, from as usize);
    u64x8::from_array([
        word_at(words, 0),
        word_at(words, 1),
        word_at(words, 2),
        word_at(words, 3),
        word_at(words, 4),
        word_at(words, 5),
        word_at(words, 6),
        word_at(words, 7),
    ])
}

// The bits of those of eight words that aren't 0.
pub(crate) fn value_bits(words: u64x8) -> u64
    ensures { (l : ℕ) → l < 8 → bit_at result l ≡ 0 → slice_index words l ≡ 0 }
{
    words.simd_ne(u64x8::splat(0)).to_bitmask()
}

// Marks each of eight lanes whose word goes further than all may: it stays 0 where none does.
pub(crate) fn judge_eight(found: u64x8, words: u64x8, top: u64) -> u64x8
    ensures before { (l : ℕ) → l < 8 → IsClear result l → IsClear found l }
    ensures within { (l : ℕ) → l < 8 → IsClear result l → slice_index words l ≤ top }
{
    let is_above = words.simd_gt(u64x8::splat(top));
    found | is_above.select(u64x8::splat(u64::MAX), u64x8::splat(0))
}

// Four numbers of a list, from a place on.
pub(crate) fn four_of(numbers: &[u64], from: u32) -> u64x4
    requires { from + 4 ≤ length numbers.now }
    ensures lanes { length result ≡ 4 }
    ensures numbers { (l : ℕ) → l < 4 → slice_index result l ≡ slice_index numbers.now (from + l) }
{
    u64x4::from_slice(&numbers[from as usize..])
}

// How far four value words may go: to 0 where the null bit is set. Their null bits stand from one place on.
pub(crate) fn limits(nulls: u64, from: u32, bits: &[u64; 64], tops: u64x4) -> u64x4
    requires bits { AreBits bits.now }
    requires from { from + 4 ≤ 64 }
    ensures { (l : ℕ) → l < 4 → slice_index result l ≡ limit_of nulls (from + l) (slice_index tops l) }
{
    let bits = four_of(bits, from);
    let has_value = (u64x4::splat(nulls) & bits).simd_eq(u64x4::splat(0));
    has_value.select(tops, u64x4::splat(0))
}

// Marks each of four lanes whose word goes further than it may: it stays 0 where none does.
pub(crate) fn judge(found: u64x4, bytes: &[u8], from: u32, limits: u64x4) -> u64x4
    requires { 8 * (from + 4) ≤ length bytes.now }
    ensures before { (l : ℕ) → l < 4 → IsClear result l → IsClear found l }
    ensures within { (l : ℕ) → l < 4 → IsClear result l → word_of bytes.now (from + l) ≤ slice_index limits l }
{
    let is_above = four_words(bytes, from).simd_gt(limits);
    found | is_above.select(u64x4::splat(u64::MAX), u64x4::splat(0))
}

// Whether nothing was found in any lane.
pub(crate) fn is_clear(found: u64x4) -> bool
    ensures { result ≡ true → (l : ℕ) → l < 4 → IsClear found l }
{
    found.reduce_or() == 0
}

// The same for eight lanes.
pub(crate) fn are_clear(found: u64x8) -> bool
    ensures { result ≡ true → (l : ℕ) → l < 8 → IsClear found l }
{
    found.reduce_or() == 0
}
