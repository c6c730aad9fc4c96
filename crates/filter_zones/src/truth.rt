// The three truths.
ghost use Rattle.std.specs.Prelude.{◌≡◌};
ghost use Rattle.filter_zones.specs.Truth as spec;

/// What a condition is on a row: one of three truths, in this order.
#[derive(Clone, Copy, PartialEq, Eq, PartialOrd, Ord)]
pub enum Truth {
    /// The condition doesn't hold.
    False,
    /// A NULL leaves it open whether the condition holds.
    Unknown,
    /// The condition holds.
    True,
}

impl Truth {
    // The truth of a test that is never unknown.
    pub(crate) fn of(test: bool) -> Truth
        ensures { result ≡ spec.two_valued test }
    {
        if test { Truth::True } else { Truth::False }
    }

    // The least of both: AND.
    pub(crate) fn and(self, other: Truth) -> Truth
        ensures { result ≡ spec.least self other }
    {
        match (self, other) {
            (Truth::False, _) | (_, Truth::False) => Truth::False,
            (Truth::Unknown, _) | (_, Truth::Unknown) => Truth::Unknown,
            (Truth::True, Truth::True) => Truth::True,
        }
    }

    // The greatest of both: OR.
    pub(crate) fn or(self, other: Truth) -> Truth
        ensures { result ≡ spec.greatest self other }
    {
        match (self, other) {
            (Truth::True, _) | (_, Truth::True) => Truth::True,
            (Truth::Unknown, _) | (_, Truth::Unknown) => Truth::Unknown,
            (Truth::False, Truth::False) => Truth::False,
        }
    }

    // False and True exchanged: NOT.
    pub(crate) fn opposite(self) -> Truth
        ensures { result ≡ spec.opposite self }
    {
        match self {
            Truth::True => Truth::False,
            Truth::Unknown => Truth::Unknown,
            Truth::False => Truth::True,
        }
    }
}
