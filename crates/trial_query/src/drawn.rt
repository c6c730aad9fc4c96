// Blocks of words that look drawn.
use row_blocks::{Block, Holds, Lane, MOST_BLOCK_ROWS};
use std::process::Abort;

// Words of numbers: small ones, and those at the ends of 64 bits.
const NUMBERS: [u64; 8] = [0, 1, 9, 10, 11, u64::MAX, 1 << 63, (1 << 63) - 1];

/// The next number of a sequence that looks drawn.
pub(crate) fn next(state: u64) -> u64 {
    state
        .wrapping_mul(6364136223846793005)
        .wrapping_add(1442695040888963407)
}

// A word of the table above, or one whose low half is a small code.
fn drawn_word(holds: Holds, state: u64) -> u64 {
    match holds {
        Holds::Numbers => NUMBERS[(state >> 33) as usize % 8],
        Holds::Codes => state >> 40 << 32 | (state >> 33) % 5,
    }
}

// A lane of drawn words, of which about one in four is NULL.
fn drawn_lane(holds: Holds, seed: u64) -> Lane {
    let mut lane = Lane::empty(holds);
    let mut state = next(seed);
    lane.nulls = state & next(state);
    for i in 0..64_usize {
        state = next(state);
        lane.words[i] = drawn_word(holds, state);
    }
    lane
}

/// So many rows of numbers, codes, and a column that got no lane.
pub(crate) fn drawn_block(rt: &impl Abort, seed: u64, count: u32) -> Block {
    assert!(rt; count <= MOST_BLOCK_ROWS);
    let mut block = Block::new();
    block.begin(3, count);
    block.put(0, &drawn_lane(Holds::Numbers, seed));
    block.put(1, &drawn_lane(Holds::Codes, next(seed)));
    block
}
