//! What the phase of a query says.
ghost use Rattle.std.specs.Prelude.{◌≡◌};
ghost use Rattle.inspect_referee.specs.Phases as spec;

use scan_story::Phase;

/// Whether the query is active.
pub fn runs(phase: Phase) -> bool
    ensures { result ≡ spec.runs phase }
{
    match phase {
        Phase::Active => true,
        Phase::Waiting | Phase::Ended | Phase::Stopped => false,
    }
}

/// Whether the query has ended or stopped.
pub fn is_over(phase: Phase) -> bool
    ensures { result ≡ spec.is_over phase }
{
    match phase {
        Phase::Waiting | Phase::Active => false,
        Phase::Ended | Phase::Stopped => true,
    }
}

/// Whether the query was registered.
pub fn has_begun(phase: Phase) -> bool
    ensures { result ≡ spec.has_begun phase }
{
    match phase {
        Phase::Waiting => false,
        Phase::Active | Phase::Ended | Phase::Stopped => true,
    }
}
