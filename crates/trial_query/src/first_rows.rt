// The first rows of blocks are those of their chosen rows, added one by one.
ghost use Rattle.std.specs.Prelude.{◌<◌};

use crate::drawn::{drawn_block, next};
use row_blocks::{Block, is_chosen};
use std::alloc::Global;
use std::process::Abort;
use std::test::Fail;
use table_core::{Cell, Memory};
use top_rows::{Order, Picked, RowPlan, TopRows};

const NUMBER_UP: Order = Order {
    column: 0,
    descending: false,
};

const NUMBER_DOWN: Order = Order {
    column: 0,
    descending: true,
};

const CODE_UP: Order = Order {
    column: 1,
    descending: false,
};

const CODE_DOWN: Order = Order {
    column: 1,
    descending: true,
};

// A column that is all NULL.
const NULL_UP: Order = Order {
    column: 2,
    descending: false,
};

// A column that no row has.
const PAST_DOWN: Order = Order {
    column: 7,
    descending: true,
};

const ORDERS: [&[Order]; 5] = [
    &[],
    &[NUMBER_DOWN],
    &[CODE_UP, NUMBER_DOWN],
    &[CODE_DOWN, NUMBER_UP],
    &[NULL_UP, PAST_DOWN, NUMBER_DOWN],
];

// A block that looks drawn: its seed, the number of its first row, how many rows it has, and which of them are chosen.
#[derive(Drop)]
struct Drawn {
    seed: u64,
    first: u32,
    count: u32,
    chosen: u64,
}

fn drawn_as(seed: u64, first: u32, count: u32, chosen: u64) -> Drawn {
    Drawn {
        seed,
        first,
        count,
        chosen,
    }
}

// Of their rows 98 are chosen.
fn six_blocks() -> [Drawn; 6] {
    [
        drawn_as(1, 128, 64, u64::MAX),
        drawn_as(2, 64, 63, 0xf0f0_f0f0_f0f0_f0f0),
        drawn_as(3, 0, 0, u64::MAX),
        drawn_as(4, 0, 64, 0),
        drawn_as(5, 900, 1, 1),
        drawn_as(6, 0, 64, 0x8000_0000_0000_0001),
    ]
}

fn none_of(alloc: Global, order: &[Order], limit: u32) -> Result<TopRows, Memory> {
    let plan = RowPlan {
        columns: Vec::from_slice(alloc, &[0, 1, 2])?,
        order: Vec::from_slice(alloc, order)?,
        limit,
    };
    TopRows::new(alloc, plan)
}

// Adds the chosen rows of a block one by one.
fn add_each(
    rt: &impl Abort,
    top: &mut TopRows,
    first: u32,
    block: &Block,
    chosen: u64,
) -> Result<(), Memory>
    requires { first < 1000 }
{
    let mut row = [Cell::Null; 3];
    assert!(rt; block.width() == 3);
    for i in 0..block.len() {
        if is_chosen(chosen, i) {
            block.row(i, &mut row);
            top.add(first + i, &row)?;
        }
    }
    Ok(())
}

fn add_blocks(rt: &impl Abort, top: &mut TopRows, blocks: &[Drawn]) -> Result<(), Memory> {
    for it in blocks {
        assert!(rt; it.first < 1000);
        let block = drawn_block(rt, it.seed, it.count);
        top.add_block(it.first, &block, it.chosen)?;
    }
    Ok(())
}

fn add_rows(rt: &impl Abort, top: &mut TopRows, blocks: &[Drawn]) -> Result<(), Memory> {
    for it in blocks {
        assert!(rt; it.first < 1000);
        let block = drawn_block(rt, it.seed, it.count);
        add_each(rt, top, it.first, &block, it.chosen)?;
    }
    Ok(())
}

// The first rows of the blocks, each block added at once.
fn by_blocks(
    rt: &impl Abort,
    alloc: Global,
    order: &[Order],
    limit: u32,
    blocks: &[Drawn],
) -> Result<Picked, Memory> {
    let mut top = none_of(alloc, order, limit)?;
    add_blocks(rt, &mut top, blocks)?;
    top.finish()
}

// The first rows of the blocks, added one row after another.
fn by_rows(
    rt: &impl Abort,
    alloc: Global,
    order: &[Order],
    limit: u32,
    blocks: &[Drawn],
) -> Result<Picked, Memory> {
    let mut top = none_of(alloc, order, limit)?;
    add_rows(rt, &mut top, blocks)?;
    top.finish()
}

// How many rows both ways pick, which are the same rows.
fn check(
    rt: &impl Abort,
    alloc: Global,
    order: &[Order],
    limit: u32,
    blocks: &[Drawn],
) -> Result<usize, Fail> {
    let found = by_blocks(rt, alloc, order, limit, blocks)?;
    let wanted = by_rows(rt, alloc, order, limit, blocks)?;
    assert!(rt;
        found.as_slice() == wanted.as_slice(),
        "{order:?} limit {limit}"
    );
    Ok(found.as_slice().len())
}

#[test]
fn the_first_rows_of_blocks_are_those_of_their_chosen_rows(rt: HostRuntime) -> Result<(), Fail> {
    for order in ORDERS {
        for limit in [0, 1, 3, 40, 200] {
            let picked = check(&rt, rt.alloc(), order, limit, &six_blocks())?;
            assert!(rt; picked == limit.min(98) as usize, "{order:?} limit {limit}");
        }
    }
    Ok(())
}

// Two blocks of up to 64 rows, most of them short, of which about half are chosen; the greater numbers come first.
fn two_drawn(state: u64) -> [Drawn; 2] {
    let (later, sooner) = (next(state), next(state ^ 1));
    let (few, many) = ((later >> 33) as u32 % 65, (sooner >> 33) as u32 % 65);
    [
        drawn_as(later, 500, few >> (later & 3), later ^ sooner >> 7),
        drawn_as(sooner, 0, many >> (sooner & 3), sooner ^ later >> 9),
    ]
}

#[test]
fn the_first_rows_of_drawn_tables_and_queries_agree(rt: HostRuntime) -> Result<(), Fail> {
    for draw in 0..10_000_u64 {
        let state = next(draw);
        let (order, limit) = (
            ORDERS[(state >> 40) as usize % 5],
            (state >> 50) as u32 % 80,
        );
        check(&rt, rt.alloc(), order, limit, &two_drawn(state))?;
    }
    Ok(())
}
