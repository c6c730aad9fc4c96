// What a run counts beside its statements.

/// What the summary of a run counts beside its statements and answers.
#[derive(Clone, Copy, PartialEq, Eq)]
pub struct Totals {
    /// How many chunks were delivered to the queries, all together.
    pub deliveries: u64,
    /// How many rows the table has.
    pub rows: u32,
}
