//! The state of one frame.
use crate::phase::FramePhase;

/// What all parties share of a frame: its phase, its piece and the number of parties that pin it.
///
/// In `Free` and `Filling` the piece and the pins are 0. There are at most 65535 pins.
#[derive(Clone, Copy, PartialEq, Eq)]
pub struct State {
    pub phase: FramePhase,
    pub piece: u32,
    pub pins: u32,
}
