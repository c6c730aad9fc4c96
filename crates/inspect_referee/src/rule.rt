/// A rule of which entry may follow. Each kind of entry has its own rules.
#[derive(Clone, Copy, Debug, PartialEq, Eq)]
pub enum Rule {
    /// Register: the query has no Register yet.
    First,
    /// Register, Deliver, Stop, End: the query's need names the worker.
    OnWorker,
    /// Register: no query of the worker is active.
    Alone,
    /// Register, Plan, Deliver, Stop, End: the worker holds no chunk.
    HoldsNothing,
    /// Register, Deliver, Stop, End: the worker has no load underway.
    LoadsNothing,
    /// Plan: there is such a worker.
    IsWorker,
    /// Plan: no load is underway.
    NoneUnderway,
    /// Plan: the query is active, with fewer than two chunks available.
    Starved,
    /// Plan: the query needs the chunk, and not each piece of it that the query reads is in a frame.
    Target,
    /// Evict, Fill, Filled, Failed: a load is underway, and it is the worker's.
    OwnLoad,
    /// Evict: the load has begun no fill.
    NoneBegun,
    /// Evict: fewer frames are free than the load misses pieces.
    TooFew,
    /// Evict: the chunk has a piece in a frame, is neither loaded nor held, and available to no starved query.
    Victim,
    /// Fill: so many frames are free as the load misses pieces that it hasn't begun.
    Enough,
    /// Fill: there is such a frame.
    IsFrame,
    /// Fill: the frame is free.
    Free,
    /// Fill: the load misses the piece.
    Missing,
    /// Fill: the load has not begun the piece.
    NotBegun,
    /// Filled: the load began the piece in this frame. Failed: it began the piece.
    Begun,
    /// Filled, Failed: the load has not filled the piece.
    NotFilled,
    /// Filled, Failed: the load has begun each piece that it misses.
    AllBegun,
    /// Failed: the load was planned for the query.
    ForQuery,
    /// Failed: the count of faults rose, or stands at its last value.
    Reason,
    /// Deliver, Stop, End: the query is active.
    Active,
    /// Deliver: the query needs the chunk, and each piece of it that the query reads is in a frame.
    Ready,
    /// Release: the worker holds the chunk for the query.
    Holds,
    /// End: the query needs no chunk any more.
    NeedsNothing,
}
