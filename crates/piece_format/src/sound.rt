// How much of a piece is surely sound: a look with no branch on what its words are.
ghost use Rattle.std.specs.Prelude.{◌≡◌, ◌<◌, ◌≤◌, ◌+◌, ◌*◌, ◌/◌, ◌%◌, ◌^◌, ℕ, true, length, slice_index};
ghost use Rattle.std.specs.Int.{bit_at};
ghost use Rattle.piece_format.specs.Bytes.{word_of};
ghost use Rattle.piece_format.specs.Checking.{AreBits, limit_of};

use crate::cells::has_bit_from;
use crate::fours::{
    are_clear, eight_words, four_of, from_word, is_clear, judge, judge_eight, limits, single_bits,
    value_bits, with_bits_of,
};
use crate::word_bytes::word_at;
use std::simd::prelude::*;
use table_core::{MOST_CHUNK_ROWS, MOST_COLUMNS};

// Whether in so many rows no mask word has a bit that names no column, and the value words of four columns go no
// further than they may. Where the table has fewer columns, the words behind them are those of the next row.
fn group_is_sound(
    columns: u32,
    bytes: &[u8],
    tops: &[u64; 16],
    bits: &[u64; 64],
    group: u32,
    rows: u32,
) -> bool
    requires columns { columns ≤ MOST_COLUMNS }
    requires rows { rows ≤ MOST_CHUNK_ROWS }
    requires group { 4 * group < columns }
    requires bytes { 8 * (rows * (columns + 1) + 3) ≤ length bytes.now }
    requires bits { AreBits bits.now }
    ensures masks { result ≡ true → (row : ℕ) → row < rows → word_of bytes.now (row * (columns + 1)) < 2 ^ columns }
    ensures values { result ≡ true → (row l : ℕ) → row < rows → l < 4
        → let start = row * (columns + 1) in let x = 4 * group + l in
        word_of bytes.now (start + 1 + x) ≤ limit_of (word_of bytes.now start) x (slice_index tops.now x) }
{
    let first = 4 * group;
    let tops = four_of(tops, first);
    let mut found = u64x4::splat(0);
    let mut masks = u64x2::splat(0);
    let width = columns as usize + 1;
    for row in 0..rows as usize {
        let words = from_word(bytes, row * width);
        let mask = word_at(words, 0);
        masks = with_bits_of(masks, mask);
        found = judge(found, words, 1 + first, limits(mask, first, bits, tops));
    }
    is_clear(found) && !has_bit_from(masks.to_array()[0], columns)
}

// Whether in so many rows no mask word has a bit that names no column, and no value word goes further than it may.
pub(crate) fn rows_are_sound(columns: u32, bytes: &[u8], tops: &[u64; 16], rows: u32) -> bool
    requires some { 0 < columns }
    requires columns { columns ≤ MOST_COLUMNS }
    requires rows { rows ≤ MOST_CHUNK_ROWS }
    requires bytes { 8 * (rows * (columns + 1) + 3) ≤ length bytes.now }
    ensures masks { result ≡ true → (row : ℕ) → row < rows → word_of bytes.now (row * (columns + 1)) < 2 ^ columns }
    ensures values { result ≡ true → (row x : ℕ) → row < rows → x < columns → let start = row * (columns + 1) in
        word_of bytes.now (start + 1 + x) ≤ limit_of (word_of bytes.now start) x (slice_index tops.now x) }
{
    let bits = single_bits();
    for group in 0..(columns + 3) / 4 {
        if !group_is_sound(columns, bytes, tops, &bits, group, rows) {
            return false;
        }
    }
    true
}

// Whether of the words that stand one after another, eight times so many, none has a value under a set null bit.
fn none_hidden(bytes: &[u8], from: u32, nulls: u64, eights: u32) -> bool
    requires eights { eights ≤ 8 }
    requires from { from ≤ MOST_CHUNK_ROWS }
    requires bytes { 8 * (from + 8 * eights) ≤ length bytes.now }
    ensures { result ≡ true → (b : ℕ) → b < 8 * eights → bit_at nulls b ≡ 1 → word_of bytes.now (from + b) ≡ 0 }
{
    if nulls == 0 {
        return true;
    }
    let mut hidden = 0;
    for eight in 0..eights {
        let values = value_bits(eight_words(bytes, from + 8 * eight));
        hidden |= values & nulls >> 8 * eight;
    }
    hidden == 0
}

// Whether of the words that stand one after another, eight times so many, none goes further than the top.
fn none_above(bytes: &[u8], from: u32, top: u64, eights: u32) -> bool
    requires eights { eights ≤ 8 }
    requires from { from ≤ MOST_CHUNK_ROWS }
    requires bytes { 8 * (from + 8 * eights) ≤ length bytes.now }
    ensures { result ≡ true → (b : ℕ) → b < 8 * eights → word_of bytes.now (from + b) ≤ top }
{
    if top == u64::MAX {
        return true;
    }
    let mut found = u64x8::splat(0);
    for eight in 0..eights {
        found = judge_eight(found, eight_words(bytes, from + 8 * eight), top);
    }
    are_clear(found)
}

// Whether value words that stand one after another, eight times so many, go no further than they may.
fn run_is_sound(bytes: &[u8], from: u32, nulls: u64, top: u64, eights: u32) -> bool
    requires eights { eights ≤ 8 }
    requires from { from ≤ MOST_CHUNK_ROWS }
    requires bytes { 8 * (from + 8 * eights) ≤ length bytes.now }
    ensures { result ≡ true → (b : ℕ) → b < 8 * eights → word_of bytes.now (from + b) ≤ limit_of nulls b top }
{
    none_above(bytes, from, top, eights) && none_hidden(bytes, from, nulls, eights)
}

// Whether the value words of a column's rows, but for up to seven last ones, go no further than they may.
pub(crate) fn runs_are_sound(rows: u32, bytes: &[u8], top: u64) -> bool
    requires rows { rows ≤ MOST_CHUNK_ROWS }
    requires bytes { length bytes.now ≡ 8 * (rows + (rows + 63) / 64) }
    ensures { result ≡ true → (row : ℕ) → row < rows / 8 * 8
        → word_of bytes.now row ≤ limit_of (word_of bytes.now (rows + row / 64)) (row % 64) top }
{
    for k in 0..(rows + 63) / 64 {
        let from = 64 * k;
        let eights = (rows - from).min(64) / 8;
        if !run_is_sound(bytes, from, word_at(bytes, rows + k), top, eights) {
            return false;
        }
    }
    true
}
