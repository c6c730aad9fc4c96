use abm_policy::Slots;
use coop_outside::SpoiltDepot;

/// A load that is underway, with the depot to read from. It is the desk's ticket, but may be let go.
#[derive(Drop)]
pub struct Out {
    /// Who loads.
    pub worker: u32,
    /// The query that triggered the load.
    pub query: u32,
    /// The chunk that is loaded.
    pub chunk: u32,
    /// The frames and pieces of the load.
    pub slots: Slots,
    /// The depot, as it was handed out.
    pub depot: SpoiltDepot,
}
