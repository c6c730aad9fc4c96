// Sets of truths.
ghost use Rattle.std.specs.Prelude.{◌≡◌};
ghost use Rattle.filter_zones.specs.Possible as spec;

/// The truths that a condition may have in a chunk. It is empty over a chunk without rows.
#[derive(Clone, Copy, PartialEq, Eq)]
pub struct TruthSet {
    /// Whether False is in it.
    pub can_false: bool,
    /// Whether Unknown is in it.
    pub can_unknown: bool,
    /// Whether True is in it.
    pub can_true: bool,
}

impl TruthSet {
    // The opposite of each truth: NOT.
    pub(crate) fn opposites(self) -> TruthSet
        ensures { result ≡ spec.opposites self }
    {
        TruthSet {
            can_false: self.can_true,
            can_unknown: self.can_unknown,
            can_true: self.can_false,
        }
    }
}
