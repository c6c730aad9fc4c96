//! Where a scan stands between two steps.
use cscan::{Delivery, Held};

/// Where a scan stands between two steps.
pub enum At {
    /// Nothing is out.
    Ready,
    /// This chunk is out, and the gate is to be called for its delivery.
    Holds(Held, Delivery),
    /// It is over.
    Over,
}
