// Groups with the chosen rows of blocks are those with each chosen row in turn.
ghost use Rattle.std.specs.Prelude.{◌≡◌, ◌≤◌, ◌+◌, OnOk};
ghost use Rattle.query_meaning.specs.Places.{NamesPlaces};

use crate::drawn::next;
use crate::fitting::{are_rows, items_in, keys_in};
use crate::groups::empty;
use agg_groups::{FinishFault, Groups, Item, Rows};
use row_blocks::{Block, Holds, Lane, MOST_BLOCK_ROWS, is_chosen};
use std::alloc::Global;
use std::process::Abort;
use std::test::Fail;
use table_core::Cell::{self, Code, Int, Null};
use table_core::{MOST_ROWS, Memory};

// Words of codes, of which one has more bits than a code.
const CODES: [u64; 8] = [0, 3, 1, 3, 2, (5 << 32) + 1, 0, 4294967295];

const SMALL: [u64; 8] = [0, 255, u64::MAX, 31, 1, 256, 0, 8];

// Numbers at both ends of 64 bits and about 0, so that sums leave 64 bits and come back.
const ENDS: [u64; 8] = [
    0,
    1,
    u64::MAX,
    1 << 63,
    (1 << 63) - 1,
    (1 << 63) - 1,
    1 << 63,
    7,
];

// A number that looks drawn.
fn drawn(seed: u64) -> u64 {
    let mixed = seed.wrapping_mul(11400714819323198485);
    mixed ^ mixed >> 29
}

// A lane of drawn words, of which about one in four is NULL.
fn lane_of(holds: Holds, words: &[u64; 8], seed: u64) -> Lane {
    let mut lane = Lane::empty(holds);
    lane.nulls = drawn(seed) & drawn(seed ^ 77);
    for i in 0..64_usize {
        let place = drawn(seed.wrapping_add(i as u64)) >> 40;
        lane.words[i] = words[place as usize % 8];
    }
    lane
}

// So many rows of codes, small numbers, numbers at the ends of 64 bits, and a column that is all NULL.
fn block_of(rt: &impl Abort, seed: u64, count: u32) -> Block {
    assert!(rt; count <= MOST_BLOCK_ROWS);
    let mut block = Block::new();
    block.begin(4, count);
    block.put(0, &lane_of(Holds::Codes, &CODES, seed));
    block.put(1, &lane_of(Holds::Numbers, &SMALL, seed ^ 1));
    block.put(2, &lane_of(Holds::Numbers, &ENDS, seed ^ 2));
    block
}

// Adds the chosen rows one after another.
fn add_each(groups: &mut Groups, block: &Block, chosen: u64) -> Result<(), Memory>
    requires width { block.now.width ≡ 4 }
    requires few { groups.old.rows + block.now.count ≤ MOST_ROWS }
    requires places { NamesPlaces groups.old.items groups.old.keys 4 }
    ensures rows { OnOk result (groups.new.rows ≤ groups.old.rows + block.now.count) }
    ensures items { groups.new.items ≡ groups.old.items }
    ensures keys { groups.new.keys ≡ groups.old.keys }
{
    let mut cells = [Null; 4];
    for i in 0..block.len() {
        block.row(i, &mut cells);
        if !is_chosen(chosen, i) {
            continue;
        }
        groups.add_row(&cells)?;
    }
    Ok(())
}

// Adds the chosen rows at once.
fn add_block(groups: &mut Groups, block: &Block, chosen: u64) -> Result<(), Memory>
    requires few { groups.old.rows + block.now.count ≤ MOST_ROWS }
    requires places { NamesPlaces groups.old.items groups.old.keys block.now.width }
    ensures rows { OnOk result (groups.new.rows ≤ groups.old.rows + block.now.count) }
    ensures items { groups.new.items ≡ groups.old.items }
    ensures keys { groups.new.keys ≡ groups.old.keys }
{
    groups.add_block(block, chosen)
}

// Adds the chosen rows of a drawn block at once to the one, and one after another to the other.
fn add_both(
    rt: &impl Abort,
    at_once: &mut Groups,
    in_turn: &mut Groups,
    block: &Block,
    chosen: u64,
) -> Result<(), Memory>
    requires few { at_once.old.rows + 64 ≤ MOST_ROWS }
    requires few_rows { in_turn.old.rows + 64 ≤ MOST_ROWS }
    requires places { NamesPlaces at_once.old.items at_once.old.keys 4 }
    requires row_places { NamesPlaces in_turn.old.items in_turn.old.keys 4 }
    ensures rows { OnOk result (at_once.new.rows ≤ at_once.old.rows + 64) }
    ensures items { at_once.new.items ≡ at_once.old.items }
    ensures keys { at_once.new.keys ≡ at_once.old.keys }
    ensures row_rows { OnOk result (in_turn.new.rows ≤ in_turn.old.rows + 64) }
    ensures row_items { in_turn.new.items ≡ in_turn.old.items }
    ensures row_keys { in_turn.new.keys ≡ in_turn.old.keys }
{
    assert!(rt; block.width() == 4 && block.len() <= 64);
    add_block(at_once, block, chosen)?;
    add_each(in_turn, block, chosen)
}

fn is_same(a: &Result<Rows, FinishFault>, b: &Result<Rows, FinishFault>) -> bool {
    match (a, b) {
        (Ok(a), Ok(b)) => a.as_slice() == b.as_slice(),
        (Err(a), Err(b)) => a == b,
        _ => false,
    }
}

// Adds chosen rows of blocks of so many rows and then of the first again, so that its keys are known.
fn add_three(
    rt: &impl Abort,
    at_once: &mut Groups,
    in_turn: &mut Groups,
    seed: u64,
    counts: (u32, u32),
) -> Result<(), Memory>
    requires few { at_once.old.rows ≡ 0 }
    requires few_rows { in_turn.old.rows ≡ 0 }
    requires places { NamesPlaces at_once.old.items at_once.old.keys 4 }
    requires row_places { NamesPlaces in_turn.old.items in_turn.old.keys 4 }
{
    let (first_count, second_count) = counts;
    let first = block_of(rt, seed, first_count);
    let second = block_of(rt, drawn(seed), second_count);
    let chosen = drawn(seed ^ 5) | drawn(seed ^ 6);
    add_both(rt, at_once, in_turn, &first, chosen)?;
    add_both(rt, at_once, in_turn, &second, drawn(seed ^ 7))?;
    add_both(rt, at_once, in_turn, &first, u64::MAX)
}

// Whether the groups with three blocks are those with their rows.
fn agrees(
    rt: &impl Abort,
    alloc: Global,
    items: &[Item],
    keys: &[u32],
    seed: u64,
    counts: (u32, u32),
) -> Result<bool, Memory>
    requires { NamesPlaces items.now keys.now 4 }
{
    let mut at_once = empty(alloc, items, keys)?;
    let mut in_turn = empty(alloc, items, keys)?;
    add_three(rt, &mut at_once, &mut in_turn, seed, counts)?;
    Ok(is_same(&at_once.finish(), &in_turn.finish()))
}

fn check(
    rt: &impl Abort,
    alloc: Global,
    items: &[Item],
    keys: &[u32],
    seed: u64,
    counts: (u32, u32),
) -> Result<(), Fail> {
    assert!(rt; items_in(items, 4) && keys_in(keys, 4));
    let agrees = agrees(rt, alloc, items, keys, seed, counts)?;
    assert!(rt; agrees, "{keys:?} {seed} {counts:?}");
    Ok(())
}

const OF_NUMBERS: [Item; 6] = [
    Item::Key(0),
    Item::CountAll,
    Item::Sum(1),
    Item::Min(2),
    Item::Max(2),
    Item::Count(3),
];

const OF_ENDS: [Item; 4] = [Item::Key(1), Item::Count(2), Item::Sum(2), Item::Max(0)];

const KEYS: [&[u32]; 7] = [&[], &[0], &[1], &[3], &[0, 1], &[1, 3], &[1, 0, 2]];

#[test]
fn groups_with_a_block_are_those_with_its_rows(rt: HostRuntime) -> Result<(), Fail> {
    for keys in KEYS {
        for (seed, count) in [(1, 64), (2, 63), (3, 1), (4, 0), (5, 40)] {
            check(&rt, rt.alloc(), &OF_NUMBERS, keys, seed, (count, 64))?;
            check(&rt, rt.alloc(), &OF_ENDS, keys, seed, (count, 64))?;
        }
    }
    Ok(())
}

// An item over a column of block_of.
fn drawn_item(state: u64) -> Item {
    let column = (state >> 33) as u32 % 4;
    match (state >> 40) % 6 {
        0 => Item::CountAll,
        1 => Item::Key(column),
        2 => Item::Count(column),
        3 => Item::Sum(column),
        4 => Item::Min(column),
        _ => Item::Max(column),
    }
}

fn drawn_items(seed: u64) -> [Item; 6] {
    let mut items = [Item::CountAll; 6];
    let mut state = seed;
    for item in &mut items {
        state = next(state);
        *item = drawn_item(state);
    }
    items
}

// Up to 64 rows, most of them few.
fn drawn_count(state: u64) -> u32 {
    (state >> 56) as u32 % 65 >> (state >> 30 & 3)
}

#[test]
fn groups_of_drawn_tables_and_queries_agree(rt: HostRuntime) -> Result<(), Fail> {
    for draw in 0..10_000_u64 {
        let state = next(draw);
        let (items, keys) = (drawn_items(state), KEYS[(state >> 40) as usize % 7]);
        let many = 1 + (state >> 50) as usize % 6;
        let counts = (drawn_count(state), drawn_count(next(state)));
        check(&rt, rt.alloc(), &items[..many], keys, state, counts)?;
    }
    Ok(())
}

// A lane of five words.
fn lane_with(holds: Holds, words: &[u64; 5], nulls: u64) -> Lane {
    let mut lane = Lane::empty(holds);
    lane.nulls = nulls;
    for i in 0..5_usize {
        lane.words[i] = words[i];
    }
    lane
}

// Five rows of a code, once NULL, and of a number.
fn pay() -> Block {
    let codes = [1, 0, 1, 0, 1];
    let numbers = [(1 << 63) - 1, 5, 1, 9, u64::MAX];
    let mut block = Block::new();
    block.begin(2, 5);
    block.put(0, &lane_with(Holds::Codes, &codes, 1 << 3));
    block.put(1, &lane_with(Holds::Numbers, &numbers, 0));
    block
}

// The answer over the chosen rows.
fn paid(rt: &impl Abort, alloc: Global, chosen: u64) -> Result<Result<Rows, FinishFault>, Memory> {
    let items = [Item::Key(0), Item::CountAll, Item::Sum(1)];
    let mut groups = empty(alloc, &items, &[0])?;
    let block = pay();
    assert!(rt; items_in(&items, 2) && keys_in(&[0], 2));
    assert!(rt; block.width() == 2 && block.len() <= 64);
    add_block(&mut groups, &block, chosen)?;
    Ok(groups.finish())
}

#[test]
fn sums_leave_64_bits_within_a_block_and_come_back(rt: HostRuntime) -> Result<(), Fail> {
    let Ok(rows) = paid(&rt, rt.alloc(), u64::MAX)? else {
        panic!(rt; "no rows");
    };
    assert!(rt;
        are_rows(
            rows.as_slice(),
            &[
                &[Null, Int(1), Int(9)],
                &[Code(0), Int(1), Int(5)],
                &[Code(1), Int(3), Int(9223372036854775807)],
            ]
        )
    );
    let fault = paid(&rt, rt.alloc(), 0b101)?;
    assert!(rt;
        matches!(
            fault,
            Err(FinishFault::SumOverflow {
                item: 3,
                total: 9223372036854775808,
            })
        )
    );
    Ok(())
}
