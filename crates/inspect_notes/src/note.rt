// The note of a statement.

use crate::obstacle::Obstacle;
use table_core::Bytes;

/// What is told of a statement that has a plan.
#[derive(Debug, Drop)]
pub struct Note {
    /// The query in its one form. It reads as the same query.
    pub text: Bytes,
    /// The columns that the query names, counted from 0 and rising; column 0 alone where it names none.
    pub columns: Vec<u32>,
    /// How many chunks the query needs.
    pub needed: u32,
    /// How many chunks there are.
    pub chunks: u32,
    /// What stands in the way where all chunks are needed, in the order of the query; empty where one is left out, or
    /// where there is none.
    pub obstacles: Vec<Obstacle>,
}
