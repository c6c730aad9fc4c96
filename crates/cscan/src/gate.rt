// What is called for each delivery.
ghost use Rattle.std.specs.Prelude.{◌≡◌};

use crate::delivery::Delivery;
use std::sync::Wait;

/// Watches a run: it is called once for each delivery, while the chunk is pinned and the desk lies free.
///
/// Whoever drives a scan calls it between `CScan::next`, which gives the delivery, and `Held::release`, which takes
/// what the call left.
pub trait Gate {
    ghost use Rattle.cscan.specs.declared.delivery.Delivery.{Delivery};

    /// What a call leaves. Where the gate's type is a parameter, nothing but a call makes one. A gate with nothing to
    /// hand on leaves the delivery itself.
    type Called: Send + Drop;

    /// The delivery that a call was for.
    ghost delivery_of: { Self.Called → Delivery };

    /// The worker holds the chunk for the query.
    fn holding<R: Wait>(&self, rt: &R, delivery: Delivery) -> Self::Called
        ensures called { delivery_of result ≡ delivery };
}

/// A gate that does nothing.
#[derive(Clone, Copy, Drop)]
pub struct NoGate;

impl Gate for NoGate {
    type Called = Delivery;

    ghost delivery_of = { λ delivery. delivery };

    fn holding<R: Wait>(&self, _rt: &R, delivery: Delivery) -> Delivery {
        delivery
    }
}
