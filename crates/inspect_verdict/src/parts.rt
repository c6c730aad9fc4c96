// What a batch prints, in parts.
ghost use Rattle.std.specs.Prelude.{◌≡◌, ◌≤◌, ◌<◌, ◌+◌, ◌^◌, ◌∷◌, [], All, IfOk, List, length};
ghost use Rattle.std.specs.List.{AllByRecursion, AllZip};
ghost use Rattle.table_core.specs.Value.{places_of};
ghost use Rattle.query_gather.specs.Answer.{CanBeWritten};
ghost use Rattle.run_output.specs.Answers.{NamesColumns};
ghost use Rattle.run_stops.specs.Outcomes.{plans_of};
ghost use Rattle.run_stops.specs.declared.outcome.Outcome.{Outcome as OutcomeOf};
ghost use Rattle.inspect_verdict.specs.StatementParts as spec;

use crate::part::Part;
use crate::texts::{answer_text, head_text, refusal_text};
use query_gather::Answer;
use run_stops::Outcome;
use sql_bind::{Plan, StatementRefusal};
use std::alloc::Global;
use table_core::{Dict, Memory, Schema};

// The part of a statement that is refused for its text: its line, and no other.
fn refused_part(alloc: Global, query: u32, why: &StatementRefusal) -> Result<Part, Memory>
    ensures { IfOk result (λ part. part ≡ spec.refused_part query why.now) }
{
    let text = refusal_text(alloc, query, why)?;
    Ok(Part { text, head: None })
}

// The part of a query: what it is answered, or the line of a query that was stopped.
fn planned_part(
    alloc: Global,
    query: u32,
    schema: &Schema,
    dicts: &[Dict],
    plan: &Plan,
    answer: &Answer,
) -> Result<Part, Memory>
    requires columns { NamesColumns (length schema.now) plan.now }
    requires dicts { length dicts.now ≡ length schema.now }
    requires places { All (λ c. places_of c.kind ≤ 9) schema.now }
    requires cells { CanBeWritten dicts.now plan.now answer.now }
    ensures { IfOk result (λ part. part ≡ spec.planned_part schema.now dicts.now query plan.now answer.now) }
{
    let text = answer_text(alloc, query, schema, dicts, plan, answer)?;
    let head = head_text(alloc, query)?;
    Ok(Part {
        text,
        head: Some(head),
    })
}

// The part of a statement, and the answers to the statements behind it.
fn statement_part<'a>(
    alloc: Global,
    query: u32,
    schema: &Schema,
    dicts: &[Dict],
    outcome: &Outcome,
    answers: &'a [Answer],
) -> Result<(Part, &'a [Answer]), Memory>
    requires dicts { length dicts.now ≡ length schema.now }
    requires places { All (λ c. places_of c.kind ≤ 9) schema.now }
    requires columns { AllByRecursion (NamesColumns (length schema.now)) (plans_of (outcome.now ∷ [])) }
    requires cells { (rest : List OutcomeOf) × AllZip (CanBeWritten dicts.now) (plans_of (outcome.now ∷ rest))
        answers.now }
    ensures part { IfOk result (λ r. (more : List OutcomeOf)
        → spec.parts_in schema.now dicts.now query (outcome.now ∷ more) answers.now
        ≡ r.0 ∷ spec.parts_in schema.now dicts.now (query + 1) more r.1.now) }
    ensures left { IfOk result (λ r. (rest : List OutcomeOf) → AllZip (CanBeWritten dicts.now)
        (plans_of (outcome.now ∷ rest)) answers.now → AllZip (CanBeWritten dicts.now) (plans_of rest) r.1.now) }
{
    match outcome {
        Outcome::Refused(why) => {
            let part = refused_part(alloc, query, why)?;
            Ok((part, answers))
        }
        Outcome::Planned(plan) => match answers {
            [answer, left @ ..] => {
                let part = planned_part(alloc, query, schema, dicts, plan, answer)?;
                Ok((part, left))
            }
            [] => unreachable!(),
        },
    }
}

/// A part for each statement, numbered from 1: what its answer prints, or the line of its refusal; a query's may be
/// stopped, so such a line may stand for its part.
///
/// There is an answer for each statement that has a plan, none of a query that was stopped. There is a dictionary for
/// each column, and numbers have at most 9 places.
pub fn parts_of(
    alloc: Global,
    schema: &Schema,
    dicts: &[Dict],
    outcomes: &[Outcome],
    answers: &[Answer],
) -> Result<Vec<Part>, Memory>
    requires few { length outcomes.now < 2 ^ 32 }
    requires dicts { length dicts.now ≡ length schema.now }
    requires places { All (λ c. places_of c.kind ≤ 9) schema.now }
    requires columns { AllByRecursion (NamesColumns (length schema.now)) (plans_of outcomes.now) }
    requires answers { AllZip (CanBeWritten dicts.now) (plans_of outcomes.now) answers.now }
    ensures parts { IfOk result (λ parts. parts.items ≡ spec.parts_in schema.now dicts.now 1 outcomes.now answers.now) }
    ensures print { IfOk result
        (λ parts. spec.ArePartsFrom schema.now dicts.now 1 outcomes.now answers.now parts.items) }
{
    let mut parts = Vec::new(alloc);
    let mut query = 0;
    let mut statements = outcomes;
    let mut left = answers;
    while let [outcome, rest @ ..] = statements {
        query += 1;
        let (part, behind) = statement_part(alloc, query, schema, dicts, outcome, left)?;
        parts.push(part)?;
        left = behind;
        statements = rest;
    }
    Ok(parts)
}
