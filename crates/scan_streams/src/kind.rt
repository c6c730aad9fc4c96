// The kinds of queries.
ghost use Rattle.std.specs.Prelude.{◌≡◌, ◌≤◌, ◌↔◌, ◌%◌, ◌∷◌, [], Contains, IsFalse, IsTrue};

use std::fmt;

/// What a query reads, and how fast it works on that.
#[derive(Clone, Copy, Debug, PartialEq, Eq)]
pub(crate) struct Kind {
    /// The part of the table's rows that its range has, in 100.
    pub percent: u32,
    /// It takes longer for each chunk.
    pub slow: bool,
    ghost part: { percent ≤ 100 },
}

/// How many kinds there are.
pub(crate) const KINDS: u32 = 8;

impl Kind {
    /// Fast, and over the whole table.
    pub(crate) fn whole() -> Kind
        ensures part { result.percent ≡ 100 }
        ensures fast { IsFalse result.slow }
    {
        Kind {
            percent: 100,
            slow: false,
        }
    }

    /// Fast, and over one row: with such a query a stream begins that waits first.
    pub(crate) fn starter() -> Kind
        ensures part { result.percent ≡ 0 }
    {
        Kind {
            percent: 0,
            slow: false,
        }
    }

    /// The kind of a number, which counts around: ranges of 1, 10, 50 and 100 in 100, the fast ones first.
    pub(crate) fn numbered(number: u32) -> Kind
        ensures part { Contains (1 ∷ 10 ∷ 50 ∷ 100 ∷ []) result.percent }
        ensures slow { IsTrue result.slow ↔ (4 ≤ number % KINDS) }
    {
        let percent = match number % 4 {
            0 => 1,
            1 => 10,
            2 => 50,
            _ => 100,
        };
        let slow = number % KINDS >= 4;
        Kind { percent, slow }
    }
}

impl fmt::Display for Kind {
    fn fmt<W: fmt::Write>(&self, f: &mut fmt::Formatter<W>) -> fmt::Result {
        let pace = if self.slow { "slow" } else { "fast" };
        let percent = self.percent;
        write!(f, "{pace} {percent:>3}")
    }
}
