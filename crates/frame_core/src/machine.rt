//! The steps as a machine on states.
ghost use Rattle.std.specs.Prelude.{◌≡◌, ◌≤◌, IfOk, IfErr, MatchBool};
ghost use Rattle.frame_core.specs.Machine.{Guard, after};
ghost use Rattle.frame_core.specs.Words.{control_word};

use crate::phase::FramePhase;
use crate::state::State;
use crate::step::Step;
use crate::word::word_of;

/// The step isn't allowed in this state: the control word of the state.
#[derive(Clone, Copy, PartialEq, Eq)]
pub struct NotAllowed {
    pub word: u64,
}

/// The state after the step, or `NotAllowed` exactly where the step's guard fails.
///
/// The state has at most 65535 pins, and so has the state after the step.
pub fn apply(state: State, step: Step) -> Result<State, NotAllowed>
    requires { state.pins ≤ 65535 }
    ensures allowed { IfOk result (λ next. Guard state step × (next ≡ after state step)) }
    ensures pins { IfOk result (λ next. next.pins ≤ 65535) }
    ensures refused { IfErr result (λ e. (¬ Guard state step) × (e.word ≡ control_word state)) }
{
    if is_allowed(state, step) {
        return Ok(moved(state, step));
    }
    Err(NotAllowed {
        word: word_of(state),
    })
}

// Whether the step's guard holds.
fn is_allowed(state: State, step: Step) -> bool
    ensures { MatchBool result (Guard state step) (¬ Guard state step) }
{
    match step {
        Step::Take { piece } => {
            state.phase == FramePhase::Ready && state.piece == piece && state.pins < 65535
        }
        Step::Release | Step::Read => match state.phase {
            FramePhase::Ready | FramePhase::Marked => state.pins > 0,
            FramePhase::Free | FramePhase::Filling => false,
        },
        Step::Mark => state.phase == FramePhase::Ready,
        Step::Claim => match state.phase {
            FramePhase::Free => true,
            FramePhase::Marked => state.pins == 0,
            FramePhase::Filling | FramePhase::Ready => false,
        },
        Step::Put | Step::Publish { piece: _ } | Step::Abandon => {
            state.phase == FramePhase::Filling
        }
    }
}

// The state after an allowed step.
fn moved(state: State, step: Step) -> State
    requires allowed { Guard state step }
    requires pins { state.pins ≤ 65535 }
    ensures after { result ≡ after state step }
    ensures pins { result.pins ≤ 65535 }
{
    match step {
        Step::Take { piece: _ } => State {
            pins: state.pins + 1,
            ..state
        },
        Step::Release => State {
            pins: state.pins - 1,
            ..state
        },
        Step::Mark => State {
            phase: FramePhase::Marked,
            ..state
        },
        Step::Claim => unheld(FramePhase::Filling),
        Step::Publish { piece } => State {
            phase: FramePhase::Ready,
            piece,
            pins: 0,
        },
        Step::Abandon => unheld(FramePhase::Free),
        Step::Put | Step::Read => state,
    }
}

// No piece and no pin.
fn unheld(phase: FramePhase) -> State
    ensures { result ≡ record { phase = phase; piece = 0; pins = 0 } }
{
    State {
        phase,
        piece: 0,
        pins: 0,
    }
}
