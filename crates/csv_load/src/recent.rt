// Where a column's texts were put, by a cheap mark of each. A mark proves nothing, since texts may share one: what it
// gives is compared, and texts chosen to share marks cost two comparisons each.
use std::alloc::{AllocError, Global};

// How many marks there are, each with two places: with one, 2,500 different dates often take it from each other.
const MARKS: usize = 8192;

// The low bits of a mixed word, which its mark leaves out.
const UNMARKED_BITS: u32 = 51;

// An odd number whose bits look drawn, so that a product with it moves each bit to the top ones.
const MIXER: u64 = 0x9e37_79b9_7f4a_7c15;

// The mark of a text: a few bits of its length, its first byte and its last 8 bytes.
pub(crate) fn mark_of(text: &[u8]) -> usize {
    let first = match text.first() {
        Some(byte) => *byte as u64,
        None => 0,
    };
    let back = match text.last_chunk::<8>() {
        Some(bytes) => u64::from_le_bytes(*bytes),
        None => short_number(text),
    };
    let mixed = (back ^ (first << 32) ^ text.len() as u64).wrapping_mul(MIXER);
    (mixed >> UNMARKED_BITS) as usize
}

// The bytes of a short text as a number.
fn short_number(text: &[u8]) -> u64 {
    let mut number: u64 = 0;
    for byte in text {
        number = (number << 8) ^ *byte as u64;
    }
    number
}

fn no_places(alloc: Global, count: usize) -> Result<Vec<(u32, u32)>, AllocError> {
    vec![in alloc; (0, 0); count]
}

// For each mark the places of the two texts that had it last, the later one first.
#[derive(Drop)]
pub(crate) struct Recent {
    places: Vec<(u32, u32)>,
}

impl Recent {
    pub(crate) fn new(alloc: Global) -> Result<Self, AllocError> {
        Ok(Recent {
            places: no_places(alloc, MARKS)?,
        })
    }

    // Without marks: nothing is noted.
    pub(crate) fn none(alloc: Global) -> Self {
        Recent {
            places: Vec::new(alloc),
        }
    }

    // The two places where a text of this mark may stand.
    pub(crate) fn guesses(&self, mark: usize) -> (u32, u32) {
        match self.places.get(mark) {
            Some(pair) => *pair,
            None => (0, 0),
        }
    }

    // A text of this mark stands here.
    pub(crate) fn note(&mut self, mark: usize, place: u32) {
        if mark < self.places.len() {
            let (last, _) = self.places[mark];
            self.places[mark] = (place, last);
        }
    }
}
