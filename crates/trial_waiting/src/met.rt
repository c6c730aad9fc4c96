// How often a machine met what is rare.
#[derive(Clone, Copy, Debug)]
pub(crate) struct Met {
    pub(crate) fails: u64,
    pub(crate) evictions: u64,
    pub(crate) stops: u64,
    // Waits for others that were more than one chunk behind.
    pub(crate) far: u64,
    pub(crate) calls: u64,
    pub(crate) rings: u64,
}

impl Met {
    pub(crate) fn new() -> Met {
        Met {
            fails: 0,
            evictions: 0,
            stops: 0,
            far: 0,
            calls: 0,
            rings: 0,
        }
    }

    pub(crate) fn and(self, other: Met) -> Met {
        Met {
            fails: self.fails.saturating_add(other.fails),
            evictions: self.evictions.saturating_add(other.evictions),
            stops: self.stops.saturating_add(other.stops),
            far: self.far.saturating_add(other.far),
            calls: self.calls.saturating_add(other.calls),
            rings: self.rings.saturating_add(other.rings),
        }
    }

    // Whether each was met so often at least.
    pub(crate) fn has(self, least: u64) -> bool {
        [
            self.fails,
            self.evictions,
            self.stops,
            self.far,
            self.calls,
            self.rings,
        ]
        .iter()
        .all(|times| *times >= least)
    }
}

// One more.
pub(crate) fn count(times: &mut u64) {
    *times = times.saturating_add(1);
}
