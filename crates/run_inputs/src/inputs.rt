// What a run is given.
use batch_plan::Options;
use coop_outside::Bytes;
use csv_load::Loaded;
use run_stops::Outcome;

/// What a run is given: how it is to work, a table, and a batch.
#[derive(Drop)]
pub struct Inputs {
    /// How the table is cut, and who works on it: into at most `MOST_CHUNKS` chunks, with frames that are enough for
    /// the workers and have at most `MOST_POOL_WORDS` words together; each number lies within its limits.
    pub options: Options,
    /// Asks for the summary behind the answers.
    pub summary: bool,
    /// Asks for the trace behind them.
    pub trace: bool,
    pub loaded: Loaded,
    /// What each statement of the batch comes to, in their order. There are at most `MOST_STATEMENTS` of them,
    /// and at most `MOST_SCANS` scans, which are as many for each statement as there are parts.
    pub outcomes: Vec<Outcome>,
}

/// The texts that a run has read.
#[derive(Drop)]
pub struct ReadTexts {
    /// The table's, of at most `MOST_TEXT_BYTES`.
    pub table: Bytes,
    /// The batch's, of at most `MOST_BATCH_BYTES`.
    pub batch: Bytes,
}
