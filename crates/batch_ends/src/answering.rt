// The answers of a batch, by what came of its scans.
ghost use Rattle.std.specs.Prelude.{◌≡◌, ◌≤◌, ◌++◌, ◌∷◌, [], ℕ, List, drop, length, map, take, vec_capacity};
ghost use Rattle.scan_story.specs.declared.cause.Cause.TheVariants as cause;
ghost use Rattle.query_gather.specs.Answer.{StopsFor};
ghost use Rattle.batch_ends.specs.Answering.{AnswersParts, AnswersSome, AreAllJoinable};
ghost use Rattle.batch_ends.specs.Answering.{AreJoinable, AreParts, Came, IsAnswerOf, MayAllJoin};

use query_gather::{Answer, Cause, Partial, join_parts};
use std::alloc::Global;

/// What is kept of the results of a query's parts.
#[derive(Drop)]
pub(crate) enum Parts {
    /// What they gathered, in part order.
    All(Vec<Partial>),
    /// Why the first part in part order that was stopped was stopped.
    Stopped(Cause),
    /// No part was stopped, but memory ran out to keep what they gathered.
    Short,
}

// With what the next part gathered, behind what those before it did.
fn push_partial(all: Vec<Partial>, partial: Partial) -> Parts
    ensures { (rs : List Came) → rs ≡ map Ok all.items → AreParts (rs ++ Ok partial ∷ []) result }
{
    let mut all = all;
    match all.push(partial) {
        Ok(()) => Parts::All(all),
        Err(_) => Parts::Short,
    }
}

impl Parts {
    // With what the next part gathered.
    fn with_partial(self, partial: Partial) -> Parts
        ensures { (rs : List Came) → AreParts rs self → AreParts (rs ++ Ok partial ∷ []) result }
    {
        match self {
            Parts::All(all) => push_partial(all, partial),
            Parts::Stopped(why) => Parts::Stopped(why),
            Parts::Short => Parts::Short,
        }
    }

    // With the next part, which was stopped.
    fn with_stop(self, why: Cause) -> Parts
        ensures { (rs : List Came) → AreParts rs self → AreParts (rs ++ Err why ∷ []) result }
    {
        match self {
            Parts::All(_) => return Parts::Stopped(why),
            Parts::Stopped(first) => return Parts::Stopped(first),
            Parts::Short => return Parts::Stopped(why),
        }
    }

    // With the result of the next part.
    fn with_next(self, next: Result<Partial, Cause>) -> Parts
        ensures { (rs : List Came) → AreParts rs self → AreParts (rs ++ next ∷ []) result }
    {
        match next {
            Ok(partial) => self.with_partial(partial),
            Err(why) => self.with_stop(why),
        }
    }
}

// Takes the results of a query's parts, which are the first ones.
fn take_parts(alloc: Global, results: &mut Vec<Result<Partial, Cause>>, parts: u32) -> Parts
    requires { parts ≤ length results.old.items }
    ensures parts { AreParts (take parts results.old.items) result }
    ensures left { results.new.items ≡ drop parts results.old.items }
{
    let mut kept = Parts::All(Vec::new(alloc));
    for _part in 0..parts {
        kept = kept.with_next(results.remove(0));
    }
    kept
}

// Answers a query by what its parts gathered, joined.
fn join(all: Vec<Partial>) -> Answer
    requires { AreJoinable all.items }
    ensures over { AnswersParts all.items result }
    ensures stops { StopsFor cause.Memory result }
{
    let mut rest = all;
    let first = rest.remove(0);
    match join_parts(first, rest) {
        Ok(whole) => whole.finish(),
        Err(_) => Answer::Stopped(Cause::Memory),
    }
}

// Answers a query.
fn answer_of(parts: Parts) -> Answer
    requires { MayAllJoin parts }
    ensures { (rs : List Came) → AreParts rs parts → IsAnswerOf rs result }
{
    match parts {
        Parts::All(all) => join(all),
        Parts::Stopped(why) => Answer::Stopped(why),
        Parts::Short => Answer::Stopped(Cause::Memory),
    }
}

/// Answers so many queries, each of which has as many results, in their order, in the room that is kept for the
/// answers.
pub fn answer_all(
    alloc: Global,
    queries: usize,
    parts: u32,
    results: Vec<Result<Partial, Cause>>,
    answers: &mut Vec<Answer>,
)
    requires joinable { AreAllJoinable parts queries results.items }
    requires none { answers.old.items ≡ [] }
    requires room { queries ≤ vec_capacity answers.old }
    ensures count { length answers.new.items ≡ queries }
    ensures answers { (left : List Came) × AnswersSome parts results.items answers.new.items left }
{
    let mut results = results;
    for _query in 0..queries {
        let kept = take_parts(alloc, &mut results, parts);
        answers.push_reserved(answer_of(kept));
    }
}
