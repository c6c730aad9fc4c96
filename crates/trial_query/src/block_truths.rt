// The truths of a condition over a block are those on each of its rows.
use crate::drawn::{drawn_block, next};
use crate::fitting::{fits_block, fits_row};
use filter_zones::{Bound, Cond, Truth, truth_of, truths_of};
use row_blocks::Block;
use std::alloc::{AllocError, Global};
use std::process::Abort;
use std::test::Fail;
use table_core::{Cell, Op};

const OPS: [Op; 6] = [Op::Eq, Op::Ne, Op::Lt, Op::Le, Op::Gt, Op::Ge];

// Columns and values with which their cells are compared: at a number and between two, at the ends of 64 bits and
// past them, at a code and between two.
const VALUES: [(u32, Bound); 16] = [
    (0, Bound::Number(20)),
    (0, Bound::Number(21)),
    (0, Bound::Number(-1)),
    (0, Bound::Number(-18446744073709551617)),
    (0, Bound::Number(-18446744073709551616)),
    (0, Bound::Number(18446744073709551614)),
    (0, Bound::Number(18446744073709551615)),
    (0, Bound::Number(i128::MIN)),
    (0, Bound::Number(i128::MAX)),
    (1, Bound::Code(2)),
    (1, Bound::Code(4294967295)),
    (1, Bound::Gap(0)),
    (1, Bound::Gap(2)),
    (1, Bound::Gap(4294967295)),
    (2, Bound::Number(20)),
    (2, Bound::Gap(1)),
];

// Seeds, and how many rows and leaves are drawn: 100 leaves make a condition of some 250 nodes.
const DRAWN: [(u64, u32, u32); 12] = [
    (11, 64, 2),
    (12, 64, 3),
    (13, 63, 3),
    (14, 1, 4),
    (15, 0, 4),
    (16, 64, 5),
    (17, 64, 8),
    (18, 63, 8),
    (19, 64, 20),
    (20, 64, 100),
    (21, 63, 100),
    (22, 64, 100),
];

// Whether the condition is true, or unknown, of the row as is said.
fn agrees(cond: &Cond, row: &[Cell; 3], is_true: bool, is_unknown: bool) -> bool {
    if !fits_row(cond, row) {
        return false;
    }
    let truth = truth_of(cond, row);
    is_true == (truth == Truth::True) && is_unknown == (truth == Truth::Unknown)
}

// The bits of the rows of which the condition is true, and of those of which it is unknown.
fn bits(rt: &impl Abort, cond: &Cond, block: &Block) -> (u64, u64) {
    assert!(rt; fits_block(cond, block));
    let truths = truths_of(cond, block);
    (truths.yes, truths.unknown)
}

// The truths of the condition over the block are those that a visit of each row gives, and no other bit is set.
fn check(rt: &impl Abort, cond: &Cond, block: &Block) {
    let (yes, unknown) = bits(rt, cond, block);
    assert!(rt;
        block.width() == 3 && (yes | unknown) & !block.every() == 0,
        "{cond:?}"
    );
    let mut row = [Cell::Null; 3];
    for i in 0..block.len() {
        block.row(i, &mut row);
        assert!(rt;
            agrees(cond, &row, yes >> i & 1 == 1, unknown >> i & 1 == 1),
            "{cond:?} {row:?}"
        );
    }
}

fn both(alloc: Global, a: Cond, b: Cond) -> Result<Cond, AllocError> {
    Ok(Cond::And(Box::new(alloc, a)?, Box::new(alloc, b)?))
}

fn either(alloc: Global, a: Cond, b: Cond) -> Result<Cond, AllocError> {
    Ok(Cond::Or(Box::new(alloc, a)?, Box::new(alloc, b)?))
}

fn not(alloc: Global, a: Cond) -> Result<Cond, AllocError> {
    Ok(Cond::Not(Box::new(alloc, a)?))
}

// The comparison with one of the values.
fn compare(op: Op, place: usize) -> Cond {
    let (column, value) = VALUES[place % 16];
    Cond::Compare { column, op, value }
}

// The comparison with a value, and three conditions that it is a part of.
fn cond_with(alloc: Global, op: Op, place: usize, which: usize) -> Result<Cond, AllocError> {
    let value = compare(op, place);
    let is_null = Cond::IsNull {
        column: 0,
        negated: place % 2 == 1,
    };
    match which {
        0 => Ok(value),
        1 => both(alloc, value, compare(Op::Ge, place % 16 * 5 + 3)),
        2 => either(
            alloc,
            not(alloc, value)?,
            compare(Op::Lt, place % 16 * 3 + 9),
        ),
        _ => not(alloc, either(alloc, is_null, value)?),
    }
}

// Each comparison with each value, and what it is a part of.
fn check_block(rt: &impl Abort, alloc: Global, block: &Block) -> Result<(), Fail> {
    for n in 0..384_usize {
        let cond = cond_with(alloc, OPS[n / 64], n / 4 % 16, n % 4)?;
        check(rt, &cond, block);
    }
    Ok(())
}

#[test]
fn a_condition_has_the_truths_of_each_row_over_a_block(rt: HostRuntime) -> Result<(), Fail> {
    for (seed, count) in [(1, 64), (2, 63), (3, 1), (4, 0), (5, 40)] {
        check_block(&rt, rt.alloc(), &drawn_block(&rt, seed, count))?;
    }
    Ok(())
}

#[test]
fn a_condition_has_the_truths_of_each_row_over_a_block_of_nulls(
    rt: HostRuntime,
) -> Result<(), Fail> {
    let mut block = Block::new();
    block.begin(3, 64);
    check_block(&rt, rt.alloc(), &block)
}

// A comparison, or now and then IS NULL.
fn drawn_leaf(state: u64) -> Cond {
    if state >> 61 == 0 {
        return Cond::IsNull {
            column: (state >> 33) as u32 % 3,
            negated: state >> 36 & 1 == 1,
        };
    }
    compare(OPS[(state >> 36) as usize % 6], (state >> 42) as usize)
}

// A condition with a leaf more.
fn joined(alloc: Global, draw: u64, cond: Cond, leaf: Cond) -> Result<Cond, AllocError> {
    match draw % 4 {
        0 => both(alloc, cond, leaf),
        1 => either(alloc, cond, leaf),
        2 => both(alloc, leaf, not(alloc, cond)?),
        _ => either(alloc, not(alloc, leaf)?, cond),
    }
}

// So many leaves, joined by AND, OR and NOT.
fn drawn_cond(alloc: Global, seed: u64, leaves: u32) -> Result<Cond, AllocError> {
    let mut state = next(seed);
    let mut cond = drawn_leaf(state);
    for _ in 1..leaves {
        state = next(state);
        cond = joined(alloc, state >> 48, cond, drawn_leaf(state))?;
    }
    Ok(cond)
}

#[test]
fn a_drawn_condition_has_the_truths_of_each_row(rt: HostRuntime) -> Result<(), Fail> {
    for (seed, count, leaves) in DRAWN {
        let block = drawn_block(&rt, seed, count);
        check(&rt, &drawn_cond(rt.alloc(), next(seed), leaves)?, &block);
    }
    Ok(())
}

#[test]
fn the_truths_of_drawn_tables_and_conditions_agree(rt: HostRuntime) -> Result<(), Fail> {
    for draw in 0..10_000_u64 {
        let state = next(draw);
        let block = drawn_block(&rt, state, (state >> 33) as u32 % 65);
        let cond = drawn_cond(rt.alloc(), state, 1 + (state >> 50) as u32 % 6)?;
        check(&rt, &cond, &block);
    }
    Ok(())
}
