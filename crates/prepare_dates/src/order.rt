// Which of two numbers is the day.

/// Which of the two numbers before the year is the day.
#[derive(Clone, Copy, Debug, PartialEq, Eq)]
pub enum Order {
    /// The first, as in `31.12.2026`.
    DayFirst,
    /// The second, as in `12/31/2026`.
    MonthFirst,
}
