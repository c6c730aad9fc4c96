//! The shape of a pool.

/// How many frames a pool has, and how many words each frame.
#[derive(Clone, Copy, PartialEq, Eq)]
pub struct Geometry {
    pub frames: u32,
    pub words: u32,
}
