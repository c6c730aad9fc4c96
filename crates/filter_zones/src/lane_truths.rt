// How the cells of a lane stand to a value, and what comparisons say of them: a bit for each of its 64 rows.
ghost use Rattle.std.specs.Prelude.{◌≡◌, ◌<◌, ◌%◌, ◌^◌, ◌+ℤ◌, ◌≤ℤ◌, ◌<ℤ◌, ℕ, int_lt, nat_lt, pos, slice_index_or};
ghost use Rattle.std.specs.Int.{cast_signed, w64};
ghost use Rattle.std.specs.Ordering.{is_le, is_lt};
ghost use Rattle.row_blocks.specs.Lanes.{held, lane_cell, word_at};
ghost use Rattle.filter_zones.specs.Masks.{is_set};
ghost use Rattle.filter_zones.specs.Truth.{comparison as truth_of_comparison, is_met, null_test, order_of};
ghost use Rattle.filter_zones.specs.Truths.{HasTruth};

use crate::cond::Bound;
use crate::truths::Truths;
use crate::words::{complement, every_bit, pushed, without};
use row_blocks::{Holds, Lane};
use table_core::Op;

// The least number whose double is at least this one.
fn least_from(number: i128) -> i128
    ensures from { number ≤ℤ (result +ℤ result) }
    ensures to { (result +ℤ result) <ℤ (number +ℤ pos 2) }
{
    number - number.div_euclid(2)
}

// The least number whose double is above this one.
fn least_past(number: i128) -> i128
    ensures from { number <ℤ (result +ℤ result) }
    ensures to { (result +ℤ result) ≤ℤ (number +ℤ pos 2) }
{
    number.div_euclid(2) + 1
}

// The numbers below a limit.
fn numbers_below(words: &[u64; 64], limit: i64) -> u64
    ensures { (i : ℕ) → i < 64 → is_set result i ≡ int_lt (cast_signed w64 (slice_index_or words.now i 0)) limit }
{
    let mut bits = 0;
    let mut i = 64;
    while i > 0 {
        i -= 1;
        bits = pushed(bits, words[i].cast_signed() < limit);
    }
    bits
}

// The numbers below a limit that may be past each of them.
fn numbers_below_any(words: &[u64; 64], limit: i128) -> u64
    ensures { (i : ℕ) → i < 64 → is_set result i ≡ int_lt (cast_signed w64 (slice_index_or words.now i 0)) limit }
{
    if (i64::MAX as i128) < limit {
        return every_bit();
    }
    if limit < (i64::MIN as i128) {
        return 0;
    }
    numbers_below(words, limit as i64)
}

// The codes below a limit.
fn codes_below(words: &[u64; 64], limit: u64) -> u64
    ensures { (i : ℕ) → i < 64 → is_set result i ≡ nat_lt (slice_index_or words.now i 0 % 2 ^ 32) limit }
{
    let mut bits = 0;
    let mut i = 64;
    while i > 0 {
        i -= 1;
        bits = pushed(bits, words[i] % 4294967296 < limit);
    }
    bits
}

// The cells below a value.
fn below(lane: &Lane, value: Bound) -> u64
    ensures { (i : ℕ) → i < 64 → is_set result i ≡ is_lt (order_of (held lane.now.holds (word_at lane.now i)) value) }
{
    match (lane.holds, value) {
        (Holds::Numbers, Bound::Number(h)) => numbers_below_any(&lane.words, least_from(h)),
        (Holds::Codes, Bound::Code(j)) => codes_below(&lane.words, u64::from(j)),
        (Holds::Codes, Bound::Gap(p)) => codes_below(&lane.words, u64::from(p)),
        _ => 0,
    }
}

// The cells that aren't above a value.
fn up_to(lane: &Lane, value: Bound) -> u64
    ensures { (i : ℕ) → i < 64 → is_set result i ≡ is_le (order_of (held lane.now.holds (word_at lane.now i)) value) }
{
    match (lane.holds, value) {
        (Holds::Numbers, Bound::Number(h)) => numbers_below_any(&lane.words, least_past(h)),
        (Holds::Codes, Bound::Code(j)) => codes_below(&lane.words, u64::from(j) + 1),
        (Holds::Codes, Bound::Gap(_)) => below(lane, value),
        _ => every_bit(),
    }
}

// The cells that meet a comparison, were none of them NULL.
fn met(lane: &Lane, op: Op, value: Bound) -> u64
    ensures { (i : ℕ) → i < 64 → is_set result i
        ≡ is_met op (order_of (held lane.now.holds (word_at lane.now i)) value) }
{
    match op {
        Op::Eq => without(up_to(lane, value), below(lane, value)),
        Op::Ne => complement(without(up_to(lane, value), below(lane, value))),
        Op::Lt => below(lane, value),
        Op::Le => up_to(lane, value),
        Op::Gt => complement(up_to(lane, value)),
        Op::Ge => complement(below(lane, value)),
    }
}

// The truths of a comparison on each cell.
pub(crate) fn comparison(lane: &Lane, op: Op, value: Bound) -> Truths
    ensures { (i : ℕ) → i < 64 → HasTruth result i (truth_of_comparison op value (lane_cell lane.now i)) }
{
    Truths {
        yes: without(met(lane, op, value), lane.nulls),
        unknown: lane.nulls,
    }
}

// The truths of IS NULL, or of IS NOT NULL, on each cell.
pub(crate) fn null_tests(lane: &Lane, negated: bool) -> Truths
    ensures { (i : ℕ) → i < 64 → HasTruth result i (null_test negated (lane_cell lane.now i)) }
{
    if negated {
        return Truths {
            yes: complement(lane.nulls),
            unknown: 0,
        };
    }
    Truths {
        yes: lane.nulls,
        unknown: 0,
    }
}
