/// What a guest of the lobby has done. Contracts alone see it: no value of it is made.
pub enum Standing {
    /// It waits for nothing and owes no call.
    Out,
    /// It has read how often somebody was called.
    Read { calls: u64 },
    /// It has added itself to those that wait since, and may sleep.
    Entered { calls: u64 },
    /// It has taken one away from those that wait, and is to call it.
    Taken,
}
