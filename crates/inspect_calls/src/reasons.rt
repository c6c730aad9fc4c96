// Why an entry may not come, in words.
ghost use Rattle.std.specs.Prelude.{◌≡◌, Some};
ghost use Rattle.inspect_calls.specs.Reasons as spec;

use crate::ranks::ShownRank;
use inspect_referee::{Choice, Reason, Rule};
use std::fmt;

// The rule that is broken.
fn rule_words(rule: Rule) -> &'static str
    ensures { result.now ≡ spec.rule_words rule }
{
    match rule {
        Rule::First => "the query has registered before",
        Rule::OnWorker => "the query is another worker's",
        Rule::Alone => "another query of the worker is active",
        Rule::HoldsNothing => "the worker holds a chunk",
        Rule::LoadsNothing => "the worker has a load underway",
        Rule::IsWorker => "there is no such worker",
        Rule::NoneUnderway => "a load is underway",
        Rule::Starved => "the query isn't active, or has two chunks available",
        Rule::Target => "the query doesn't need the chunk, or its pieces are all in frames",
        Rule::OwnLoad => "no load of the worker is underway",
        Rule::NoneBegun => "the load has begun a fill",
        Rule::TooFew => "enough frames are free",
        Rule::Victim => "the chunk may not be evicted",
        Rule::Enough => "too few frames are free",
        Rule::IsFrame => "there is no such frame",
        Rule::Free => "the frame isn't free",
        Rule::Missing => "the load doesn't miss the piece",
        Rule::NotBegun => "the load has begun the piece before",
        Rule::Begun => "the load hasn't begun the piece there",
        Rule::NotFilled => "the piece is filled already",
        Rule::AllBegun => "the load hasn't begun each of its pieces",
        Rule::ForQuery => "the load was planned for another query",
        Rule::Reason => "the count of faults didn't rise",
        Rule::Active => "the query isn't active",
        Rule::Ready => "the chunk isn't available to the query",
        Rule::Holds => "the worker doesn't hold the chunk for the query",
        Rule::NeedsNothing => "the query still needs a chunk",
    }
}

// What the entry chooses.
fn choice_words(choice: Choice) -> &'static str
    ensures { result.now ≡ spec.choice_words choice }
{
    match choice {
        Choice::Trigger => "loads for another query than",
        Choice::Load => "loads another chunk than",
        Choice::Delivery => "delivers another chunk than",
        Choice::Victim => "evicts another chunk than",
    }
}

/// Why an entry may not come, as a line tells it behind the number of the entry's line.
#[derive(Clone, Copy)]
pub(crate) struct ShownReason {
    pub(crate) reason: Reason,
}

impl fmt::Display for ShownReason {
    ghost output = { λ s. Some (spec.reason_text s.reason) };

    fn fmt<W: fmt::Write>(&self, f: &mut fmt::Formatter<W>) -> fmt::Result {
        match self.reason {
            Reason::Broken(rule) => {
                let words = rule_words(rule);
                write!(f, "may not come: {words}")
            }
            Reason::Outdone(better) => {
                let (choice, number) = (choice_words(better.choice), better.number);
                let rank = ShownRank { rank: better.rank };
                let taken = ShownRank { rank: better.taken };
                write!(
                    f,
                    "{choice} {number}, which was better: {rank} before {taken}"
                )
            }
        }
    }
}
