// How many digits stand behind the point at most.

/// The most digits behind the point, and what becomes of a number that has more of them.
#[derive(Clone, Copy, Debug, PartialEq, Eq)]
pub struct Limit {
    pub places: u8,
    /// Such a number is rounded, half to even; else it is told to be too long.
    pub rounds: bool,
}

/// How a number fits a limit.
#[derive(Clone, Copy, Debug, PartialEq, Eq)]
pub enum Fit {
    /// It is written with its value: no digit but zeros stands past the limit.
    Whole,
    /// It is written as the nearest number within the limit, of two the even one.
    Rounded,
    /// It has more digits than may be, and isn't written.
    TooLong,
}
