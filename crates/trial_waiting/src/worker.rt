use crate::bell::WORKERS;

// Where a worker is: each stands before one atomic step, or sleeps, or is over.
#[derive(Clone, Copy, PartialEq, Eq)]
pub(crate) enum At {
    // Between two queries.
    Begins,
    // It asks for the desk.
    Looks,
    ReadsCalls,
    Enters,
    LooksAgain,
    Parks,
    SleepsInLobby,
    // It has the desk.
    Turns,
    CountsItself,
    ReadsRings,
    NotesQuery,
    ReadsAsleep,
    SeeksNext(u32),
    SeeksFed(u32),
    // It gives the desk back, and calls.
    Gives,
    ReadsWaiting,
    TakesOne,
    RaisesCalls,
    WakesOne,
    // It sleeps at the bell.
    Rests,
    SleepsAtBell,
    GetsUp,
    CountsOff,
    CountsOwnRings,
    RaisesOwnRings,
    // It rings for another.
    Clears(u32),
    CountsOther(u32),
    CountsRings(u32),
    RaisesRings(u32),
    Wakes(u32),
    // Its queries are over.
    Over,
}

// What a worker wants the desk for.
#[derive(Clone, Copy)]
pub(crate) enum Errand {
    Register,
    Turn,
    Release,
    Settle,
    Stop,
}

// What a worker does once it has given the desk back and rung.
#[derive(Clone, Copy)]
pub(crate) enum After {
    // Goes to its next query.
    Begins,
    // Asks for the next chunk.
    Scans,
    // Works on its chunk, and releases it.
    Works,
    // Loads, and settles.
    Loads,
    // Turns again.
    Turns,
    // Sleeps at the bell, and turns again.
    Sleeps,
}

#[derive(Clone, Copy)]
pub(crate) struct Worker {
    pub(crate) number: u32,
    pub(crate) at: At,
    pub(crate) errand: Errand,
    pub(crate) after: After,
    pub(crate) query: u32,
    // What it read of `calls`, of its own `rings`, and of the rings that it is to raise.
    pub(crate) calls: u32,
    pub(crate) rings: u32,
    pub(crate) counted: u32,
    // Whether it has let others go first since it loaded.
    pub(crate) is_over: bool,
    // Whom it is to ring for, and whether one of these is to load next.
    pub(crate) woken: [bool; 5],
    pub(crate) has_next: bool,
}

impl Worker {
    pub(crate) fn new(number: u32) -> Worker {
        Worker {
            number,
            at: At::Begins,
            errand: Errand::Register,
            after: After::Begins,
            query: 0,
            calls: 0,
            rings: 0,
            counted: 0,
            is_over: false,
            woken: [false; 5],
            has_next: false,
        }
    }

    pub(crate) fn to(self, at: At) -> Worker {
        Worker { at, ..self }
    }

    // Asks for the desk.
    pub(crate) fn for_errand(self, errand: Errand) -> Worker {
        Worker {
            errand,
            at: At::Looks,
            ..self
        }
    }

    // Whether it sleeps.
    pub(crate) fn sleeps(&self) -> bool {
        self.at == At::SleepsInLobby || self.at == At::SleepsAtBell
    }

    // Whether it has a step to make.
    pub(crate) fn goes_on(&self) -> bool {
        self.at != At::Over && !self.sleeps()
    }

    // The same, and it is to ring for the other.
    pub(crate) fn with(self, other: u32) -> Worker {
        let mut woken = self.woken;
        woken[(other % WORKERS) as usize] = true;
        Worker { woken, ..self }
    }

    // The same, and it has rung for the other.
    pub(crate) fn without(self, other: u32) -> Worker {
        let mut woken = self.woken;
        woken[(other % WORKERS) as usize] = false;
        Worker { woken, ..self }
    }

    // Whom it is to ring for next.
    pub(crate) fn next_to_wake(&self) -> Option<u32> {
        (0..WORKERS).find(|w| self.woken[(*w % WORKERS) as usize])
    }
}
