//! That a worker's steps come in the order of `waiting_ends/specs/Order.antt`.
use crate::bell::WORKERS;
use crate::machine::Machine;
use crate::worker::{After, At, Errand, Worker};

impl Machine {
    // Whether the step that the worker makes now, after which it is so, is in order.
    pub(crate) fn is_in_order(&self, before: Worker, after: Worker) -> bool {
        match before.at {
            At::Begins => matches!(after.at, At::Looks | At::Over),
            At::Looks | At::ReadsCalls | At::Enters | At::LooksAgain | At::Parks =>
                self.asks_in_order(before, after.at),
            At::Turns => serves_in_order(before.errand, after),
            At::CountsItself => after.at == At::ReadsRings,
            At::ReadsRings => after.at == At::NotesQuery,
            At::NotesQuery => after.at == At::Gives,
            At::ReadsAsleep => matches!(after.at, At::SeeksNext(0) | At::Gives),
            At::SeeksNext(other) => after.at == At::Gives || after.at == sought_after(other),
            At::SeeksFed(other) => after.at == fed_after(other),
            At::Gives | At::ReadsWaiting | At::TakesOne | At::RaisesCalls | At::WakesOne =>
                self.calls_in_order(before, after),
            At::Rests if self.bell.rings(before.number) == before.rings => after.at
                == At::SleepsAtBell,
            At::Rests => after.at == At::GetsUp,
            At::GetsUp => matches!(after.at, At::CountsOff | At::Looks),
            At::CountsOff => after.at == At::CountsOwnRings,
            At::CountsOwnRings => after.at == At::RaisesOwnRings,
            At::RaisesOwnRings => after.at == At::Looks,
            At::Clears(v) => after.at == At::CountsOther(v) || after.at == At::CountsRings(v),
            At::CountsOther(v) => after.at == At::CountsRings(v),
            At::CountsRings(v) => after.at == At::RaisesRings(v),
            At::RaisesRings(v) => after.at == At::Wakes(v),
            At::Wakes(_) => is_outside(before, after),
            At::SleepsInLobby | At::SleepsAtBell | At::Over => after.at == before.at,
        }
    }

    fn asks_in_order(&self, before: Worker, after: At) -> bool {
        match before.at {
            At::Looks => matches!(after, At::Turns | At::ReadsCalls),
            At::ReadsCalls => after == At::Enters,
            At::Enters => after == At::LooksAgain,
            At::LooksAgain => matches!(after, At::Turns | At::Parks),
            _ if self.lobby.calls == before.calls => after == At::SleepsInLobby,
            _ => after == At::Looks,
        }
    }

    // Who finds somebody that waits takes one away, raises the calls and wakes one.
    fn calls_in_order(&self, before: Worker, after: Worker) -> bool {
        match before.at {
            At::Gives => after.at == At::ReadsWaiting,
            At::ReadsWaiting if self.lobby.waiting > 0 => after.at == At::TakesOne,
            At::TakesOne if self.lobby.waiting > 0 => after.at == At::RaisesCalls,
            At::RaisesCalls => after.at == At::WakesOne,
            _ => is_outside(before, after),
        }
    }
}

// What a worker has the desk for is done once, and a turn comes to something or its worker lies down.
fn serves_in_order(errand: Errand, after: Worker) -> bool {
    let is_for_nothing = matches!(after.after, After::Turns);
    match errand {
        Errand::Register | Errand::Release => after.at == At::Gives,
        Errand::Turn => after.at == At::CountsItself
            || (after.at == At::ReadsAsleep && !is_for_nothing),
        Errand::Settle => after.at == At::SeeksFed(0),
        Errand::Stop => matches!(after.at, At::SeeksFed(0) | At::Gives),
    }
}

// Each place is looked at once, until one is found.
fn sought_after(other: u32) -> At {
    if other < WORKERS - 1 {
        return At::SeeksNext(other + 1);
    }
    At::Gives
}

// Each place is looked at once.
fn fed_after(other: u32) -> At {
    if other < WORKERS - 1 {
        return At::SeeksFed(other + 1);
    }
    At::Gives
}

// Who has called, or rung, rings for the next one, or goes on as its time at the desk came to; never for nothing.
fn is_outside(before: Worker, after: Worker) -> bool {
    match after.at {
        At::Clears(other) => after.next_to_wake() == Some(other),
        _ if after.next_to_wake().is_some() => false,
        At::Rests => matches!(before.after, After::Sleeps),
        At::Begins => matches!(before.after, After::Begins),
        At::Looks => !matches!(before.after, After::Begins | After::Sleeps),
        _ => false,
    }
}
