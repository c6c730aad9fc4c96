// What a run decides before it writes a byte.

use crate::output::Output;
use batch_ends::Ran;
use run_stops::Stop;

/// What a run decides before it writes a byte.
#[derive(Drop)]
pub struct Decision<D> {
    /// What is to be written, or why the run stops.
    pub ending: Result<Output, Stop>,
    /// What the workers left; none where no worker ran.
    pub ran: Option<Ran>,
    /// The depot.
    pub depot: D,
}
