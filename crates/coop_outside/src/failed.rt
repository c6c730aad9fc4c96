// The one thing that a device says when it can't do what it was asked.

/// A device's fault. Its count of faults has then risen, or stands at its last value 2^64 - 1; a shelf
/// that tells what it holds also fails on a name that it lacks.
#[derive(Clone, Copy, PartialEq, Eq)]
pub struct Failed;
