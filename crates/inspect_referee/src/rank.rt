//! What choices are compared by.
ghost use Rattle.std.specs.Prelude.{◌≡◌};
ghost use Rattle.inspect_referee.specs.Ranks.{beats};

use scan_story::Ratio;

/// What an entry chooses.
#[derive(Clone, Copy, Debug, PartialEq, Eq)]
pub enum Choice {
    /// The query for which a Plan loads.
    Trigger,
    /// The chunk that a Plan loads.
    Load,
    /// The chunk of a Deliver.
    Delivery,
    /// The chunk of an Evict.
    Victim,
}

/// What a policy compares candidates by. Ranks of one choice are all of one kind.
#[derive(Clone, Copy, Debug, PartialEq, Eq)]
pub enum Rank {
    /// Of a trigger: what it waited, less the active queries times the chunks that it needs. The greater is better.
    Urgency(i64),
    /// Of a trigger: how many entries it waited. The greater is better.
    Waited(u64),
    /// Of a chunk to load or to deliver: what is gained by it. The greater is better.
    Gain(Ratio),
    /// Of a victim: what is lost by it. The less is better.
    Loss(Ratio),
    /// Of a chunk to load or to deliver, and of a trigger: how far it is, going up the chunks and around. The less is
    /// better.
    Steps(u64),
    /// Of a victim: how many queries it is close to, and what the policy compares by where these are equal. The less
    /// is better.
    Fitness { close: u32, key: u64 },
}

fn is_greater(a: Ratio, b: Ratio) -> bool
    ensures { result ≡ beats (Rank.Gain a) (Rank.Gain b) }
{
    (b.num as u64 * a.den as u64) < a.num as u64 * b.den as u64
}

/// Whether the first rank is better than the second. Of equal ranks neither is, nor of two kinds.
pub fn beats(a: Rank, b: Rank) -> bool
    ensures { result ≡ beats a b }
{
    match (a, b) {
        (Rank::Urgency(a), Rank::Urgency(b)) => b < a,
        (Rank::Waited(a), Rank::Waited(b)) => b < a,
        (Rank::Gain(a), Rank::Gain(b)) => is_greater(a, b),
        (Rank::Loss(a), Rank::Loss(b)) => is_greater(b, a),
        (Rank::Steps(a), Rank::Steps(b)) => a < b,
        (
            Rank::Fitness { close, key },
            Rank::Fitness {
                close: other,
                key: limit,
            },
        ) => close < other || (close == other && key < limit),
        _ => false,
    }
}
