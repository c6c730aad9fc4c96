// Blocks give their rows back, and their word has a bit for each row.
use row_blocks::{Block, Holds, Lane, MOST_BLOCK_ROWS};
use std::process::Abort;
use table_core::Cell;

// The words of three rows: the least number, the greatest, and one that a null bit hides.
const NUMBERS: [u64; 3] = [1 << 63, (1 << 63) - 1, 5];

// Each row of the block: a number, a code, and a column that got no lane.
const ROWS: [[Cell; 3]; 3] = [
    [Cell::Int(i64::MIN), Cell::Code(7), Cell::Null],
    [Cell::Int(i64::MAX), Cell::Null, Cell::Null],
    [Cell::Null, Cell::Code(4294967295), Cell::Null],
];

// A lane of these first words, of which some are NULL.
fn lane(holds: Holds, words: [u64; 3], nulls: u64) -> Lane {
    let mut lane = Lane::empty(holds);
    lane.words[0] = words[0];
    lane.words[1] = words[1];
    lane.words[2] = words[2];
    lane.nulls = nulls;
    lane
}

// The block of those rows.
fn block_of_three() -> Block {
    let mut block = Block::new();
    block.begin(3, 3);
    block.put(0, &lane(Holds::Numbers, NUMBERS, 4));
    block.put(1, &lane(Holds::Codes, [7, 8, 4294967295], 2));
    block
}

// Whether the block gives just those rows.
fn has_rows(block: &Block) -> bool {
    if (block.len(), block.width()) != (3, 3) {
        return false;
    }
    let mut row = [Cell::Int(9); 3];
    for i in 0..3_u32 {
        block.row(i, &mut row);
        if row != ROWS[i as usize] {
            return false;
        }
    }
    true
}

#[test]
fn a_block_gives_its_rows_back(rt: HostRuntime) {
    let block = block_of_three();
    assert!(rt; (block.len(), block.width(), block.every()) == (3, 3, 7));
    assert!(rt; has_rows(&block) && block.lane(0).cell(2) == Cell::Null);
}

// The word of so many rows.
fn every(rt: &impl Abort, count: u32) -> u64 {
    assert!(rt; count <= MOST_BLOCK_ROWS);
    let mut block = Block::new();
    block.begin(1, count);
    block.every()
}

#[test]
fn a_word_has_a_bit_for_each_row(rt: HostRuntime) {
    assert!(rt; every(&rt, 0) == 0);
    assert!(rt; every(&rt, 1) == 1);
    assert!(rt; every(&rt, 63) == u64::MAX / 2);
    assert!(rt; every(&rt, 64) == u64::MAX);
}
