// What choices are compared by, in words.
ghost use Rattle.std.specs.Prelude.{Some};
ghost use Rattle.inspect_calls.specs.Reasons as spec;

use inspect_referee::Rank;
use std::fmt;

/// A rank of a choice, with the word of what it counts.
#[derive(Clone, Copy)]
pub(crate) struct ShownRank {
    pub(crate) rank: Rank,
}

impl fmt::Display for ShownRank {
    ghost output = { λ s. Some (spec.rank_text s.rank) };

    fn fmt<W: fmt::Write>(&self, f: &mut fmt::Formatter<W>) -> fmt::Result {
        match self.rank {
            Rank::Urgency(urgency) => write!(f, "urgency {urgency}"),
            Rank::Waited(entries) => write!(f, "{entries} entries waited"),
            Rank::Gain(ratio) => {
                let (num, den) = (ratio.num, ratio.den);
                write!(f, "gain {num}/{den}")
            }
            Rank::Loss(ratio) => {
                let (num, den) = (ratio.num, ratio.den);
                write!(f, "loss {num}/{den}")
            }
            Rank::Steps(steps) => write!(f, "{steps} steps"),
            Rank::Fitness { close, key } => write!(f, "close to {close}, key {key}"),
        }
    }
}
