use crate::ticket::Ticket;
use scan_story::Cause;
use table_sets::Slots;

/// What a turn answers.
pub enum Turn<D> {
    /// The worker now holds the chunk. Each piece of it that the query reads, by rising piece, stands in its slot's
    /// frame until the worker releases.
    Take { chunk: u32, slots: Slots },
    /// The worker now loads, and has the depot to read from.
    Load(Ticket, D),
    /// Another worker's load is underway, and nothing is available to the query. It is another's, since a worker that
    /// loads asks for no turn.
    NotYet,
    /// The query needs nothing more, and has ended.
    Finished,
    /// The story stopped the query, for this cause.
    Stopped(Cause),
}
