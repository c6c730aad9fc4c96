// Processors, as permits.

use std::sync::{Condvar, Mutex, Wait};

/// So many processors, of which whoever works has one.
#[derive(Drop)]
pub(crate) struct Permits {
    left: Mutex<u32>,
    freed: Condvar,
}

impl Permits {
    /// So many, all of them free.
    pub(crate) fn new(processors: u32) -> Self {
        Permits {
            left: Mutex::new(processors),
            freed: Condvar::new(),
        }
    }

    /// Takes one, and waits until there is one.
    pub(crate) fn take<R: Wait>(&self, rt: &R) {
        let mut left = self
            .freed
            .wait_while(rt, self.left.lock(rt), |left| *left == 0);
        *left -= 1;
    }

    /// Gives one back.
    pub(crate) fn give<R: Wait>(&self, rt: &R) {
        let mut left = self.left.lock(rt);
        *left = left.saturating_add(1);
        drop(left);
        self.freed.notify_one();
    }
}
