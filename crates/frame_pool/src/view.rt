//! What a berth's seat knows. Contracts alone see it: no value of these types is made.
use crate::geometry::Geometry;
use std::collections::LinkedList;

/// A frame that a berth pins, and the piece that it holds.
pub struct Pin {
    pub frame: u32,
    pub piece: u32,
}

/// A frame that a berth fills, and the words that it has put.
pub struct Fill {
    pub frame: u32,
    pub words: LinkedList<u64>,
}

/// All that a berth has to give back: its pins and its fill.
pub struct Duty {
    pub shape: Geometry,
    pub pins: LinkedList<Pin>,
    pub fill: Option<Fill>,
}
