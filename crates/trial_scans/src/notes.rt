//! What scans are seen to do.
use scan_story::Cause;
use std::alloc::Global;
use table_core::Cell;

/// What a scan answered at a step. Workers and chunks count from 0.
#[derive(Clone, Copy, Debug, PartialEq, Eq)]
pub enum Saw {
    /// It took a chunk of so many rows.
    Took { worker: u32, chunk: u32, rows: u32 },
    /// It read the rows of its chunk and released it.
    Released { worker: u32 },
    /// It came to its end.
    Done { worker: u32 },
    /// It found its query stopped.
    Stopped { worker: u32, cause: Cause },
    /// It was stopped before its end.
    GaveUp { worker: u32, cause: Cause },
}

/// What was seen, the oldest first.
#[derive(Debug, Drop)]
pub struct Notes {
    pub saw: Vec<Saw>,
    /// The rows that were read, one behind another, with a place for each column of the table.
    pub cells: Vec<Cell>,
    /// Whether a cell was another one when it was read alone.
    pub differs: bool,
    /// Whether something was seen for which there was no memory.
    pub lost: bool,
}

impl Notes {
    /// Nothing was seen.
    pub(crate) fn new(alloc: Global) -> Notes {
        Notes {
            saw: Vec::new(alloc),
            cells: Vec::new(alloc),
            differs: false,
            lost: false,
        }
    }

    pub(crate) fn note(&mut self, saw: Saw) {
        if self.saw.push(saw).is_err() {
            self.lost = true;
        }
    }

    pub(crate) fn cell(&mut self, cell: Cell) {
        if self.cells.push(cell).is_err() {
            self.lost = true;
        }
    }
}
