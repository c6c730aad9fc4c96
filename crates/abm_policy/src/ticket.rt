use table_sets::Slots;

/// A load that is underway: the worker may read each slot's piece into its frame. It must be spent, by `Desk::filled`
/// or `Desk::failed`.
pub struct Ticket {
    /// Who loads.
    pub worker: u32,
    /// The query that triggered the load.
    pub query: u32,
    /// The chunk that is loaded.
    pub chunk: u32,
    /// The frames and pieces of the load, in the order of its Fills.
    pub slots: Slots,
}
