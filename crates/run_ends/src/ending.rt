// How the run with one policy ends.

use crate::policy_run::PolicyRun;
use run_stops::Stop;

/// How the run with one policy ends.
#[derive(Drop)]
pub enum Ending {
    /// It is made: what its workers left, and the status that a run with this policy alone ends with.
    Made(PolicyRun, u8),
    /// No worker ran, for this stop.
    Hindered(Stop),
}
