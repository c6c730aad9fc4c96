// The desk, and those that wait for it.
#[derive(Clone, Copy)]
pub(crate) struct Lobby {
    // Whether the desk lies there.
    pub(crate) is_free: bool,
    pub(crate) waiting: u32,
    pub(crate) calls: u32,
}

impl Lobby {
    pub(crate) fn new() -> Lobby {
        Lobby {
            is_free: true,
            waiting: 0,
            calls: 0,
        }
    }

    // Takes the desk where it lies there. Whether it did.
    pub(crate) fn take(&mut self) -> bool {
        let is_free = self.is_free;
        self.is_free = false;
        is_free
    }
}
