use scan_story::Hold;

/// What is remembered of a worker.
#[derive(Clone, Copy)]
pub struct Seat {
    /// The query that runs on it.
    pub on: Option<u32>,
    /// What it holds.
    pub holds: Option<Hold>,
}

/// Of a worker that has done nothing.
pub const EMPTY: Seat = Seat {
    on: None,
    holds: None,
};
