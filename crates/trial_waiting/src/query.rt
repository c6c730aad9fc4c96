use crate::chunks::Chunks;
use scan_story::Phase;

// A query: who runs it, how far it is, and what it needs still.
#[derive(Clone, Copy)]
pub(crate) struct Query {
    pub(crate) worker: u32,
    pub(crate) phase: Phase,
    pub(crate) needs: Chunks,
}

impl Query {
    pub(crate) fn is_active(&self) -> bool {
        self.phase == Phase::Active
    }

    // Whether it came to its end: it was stopped, or has taken all that it needed.
    pub(crate) fn is_over(&self) -> bool {
        match self.phase {
            Phase::Ended => self.needs.is_empty(),
            Phase::Stopped => true,
            Phase::Waiting | Phase::Active => false,
        }
    }
}
