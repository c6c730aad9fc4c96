use scan_story::{Entry, Start};
use std::collections::LinkedList;

/// What a pass is for.
pub enum Role {
    /// It lays the first state down, and deals a pass to each worker.
    Dealer,
    /// It is a worker's.
    Worker,
    /// It is spent.
    Gone,
}

/// What a worker knows of the story.
pub struct Share {
    /// The worker's number, from 0. Of the dealer, the number of the worker that gets a pass next.
    pub number: u32,
    /// The origin of the state.
    pub origin: Start,
    /// The story as the worker saw it last.
    pub seen: LinkedList<Entry>,
    /// The entries that the worker made, in their order.
    pub mine: LinkedList<Entry>,
}

/// What a pass of the queue stands for. Contracts alone see it; no value of it is made.
pub struct View {
    pub role: Role,
    pub share: Share,
    /// Its owner has the state.
    pub holding: bool,
    /// The share of the spent pass that this pass took over last.
    pub told: Option<Share>,
}
