// The runs that were made so far.

use crate::policy_run::PolicyRun;
use table_core::Bytes;

/// The runs that were made so far.
#[derive(Drop)]
pub struct Made<D> {
    /// The greatest status of a run: 1 where a query was refused in some run, else 0.
    pub status: u8,
    /// The line of each run.
    pub text: Bytes,
    /// What the workers of each run left.
    pub runs: Vec<PolicyRun>,
    /// The depot, as the last run left it.
    pub depot: D,
}
