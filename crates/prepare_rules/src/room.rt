// Memory that is used again.
use csv::ByteRecord;
use std::alloc::Global;

/// Memory in which numbers and records are made, used again for each.
#[derive(Drop)]
pub(crate) struct Room {
    pub digits: Vec<u8>,
    pub text: Vec<u8>,
    /// The record that is made.
    pub made: ByteRecord,
}

impl Room {
    pub fn new(alloc: Global) -> Self {
        Room {
            digits: Vec::new(alloc),
            text: Vec::new(alloc),
            made: ByteRecord::new(alloc),
        }
    }
}
