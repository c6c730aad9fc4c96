//! The control word of a frame: its state as one number.
//!
//! The pins are in bits 0 to 15, the phase in bits 16 and 17, the piece in bits 18 to 49.
ghost use Rattle.std.specs.Prelude.{◌≡◌, ◌^◌, ◌<◌, ◌≤◌};
ghost use Rattle.frame_core.specs.Words.{phase_number, phase_at, state_at, IsWord};

use crate::phase::FramePhase;
use crate::state::State;

/// The state's control word, `piece * 262144 + phase * 65536 + pins`, below 2^50.
///
/// The phases are 0 `Free`, 1 `Filling`, 2 `Ready`, 3 `Marked`. The state has at most 65535 pins. `state_of` gives
/// the state back.
#[tactic(auto, using(crate::proofs::Words::state_at_word))]
pub fn word_of(state: State) -> u64
    requires { state.pins ≤ 65535 }
    ensures word { IsWord result state }
    ensures small { result < 2 ^ 50 }
    ensures back { state_at result ≡ state }
{
    u64::from(state.piece) * 262144 + number_of(state.phase) * 65536 + u64::from(state.pins)
}

/// The state of a control word. Any word below 2^50 has one, and `word_of` gives the word back.
pub fn state_of(word: u64) -> State
    requires { word < 2 ^ 50 }
    ensures state { result ≡ state_at word }
    ensures back { IsWord word result }
{
    State {
        phase: phase_of(word / 65536 % 4),
        piece: (word / 262144) as u32,
        pins: (word % 65536) as u32,
    }
}

fn number_of(phase: FramePhase) -> u64
    ensures { result ≡ phase_number phase }
{
    match phase {
        FramePhase::Free => 0,
        FramePhase::Filling => 1,
        FramePhase::Ready => 2,
        FramePhase::Marked => 3,
    }
}

fn phase_of(bits: u64) -> FramePhase
    ensures { result ≡ phase_at bits }
{
    match bits {
        0 => FramePhase::Free,
        1 => FramePhase::Filling,
        2 => FramePhase::Ready,
        _ => FramePhase::Marked,
    }
}
