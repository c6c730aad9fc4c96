// Which queries were stopped, and why.
ghost use Rattle.std.specs.Prelude.{◌≡◌, ◌≤◌, ◌<◌, ◌-◌, ◌*◌, All, IfOk, length, map};
ghost use Rattle.scan_story.specs.Views.{past};
ghost use Rattle.inspect_verdict.specs.Stops as spec;

use crate::query_causes::cause_of_query;
use batch_plan::Task;
use query_gather::Answer;
use scan_story::{Cause, Entry};
use std::alloc::{AllocError, Global};

// Why a query was stopped, by its cause in the story and whether a line stands for its answer.
fn stop_for(cause: Option<Cause>, line: bool) -> Option<Cause>
    ensures { result ≡ spec.stop_for cause line }
{
    if cause.is_some() {
        return cause;
    }
    if line {
        return Some(Cause::Memory);
    }
    None
}

// Whether a line stands for the answer to a query.
fn has_line(lines: &[bool], query: u32) -> bool
    requires { 1 ≤ query }
    ensures { result ≡ spec.has_line lines.now query }
{
    let place = (query - 1) as usize;
    if place < lines.len() {
        lines[place]
    } else {
        false
    }
}

// Why the query of a task was stopped.
fn stop_of_task(story: &[Entry], parts: u32, task: &Task<'_>, lines: &[bool]) -> Option<Cause>
    requires query { 1 ≤ task.now.query }
    requires few { task.now.query * parts ≤ 256 }
    ensures { result ≡ spec.stop_of_task (past story.now) parts lines.now task.now }
{
    stop_for(
        cause_of_query(story, parts, task.query),
        has_line(lines, task.query),
    )
}

/// Why the query of each task was stopped: as the story says, or when out of memory, where a line stands for its
/// answer.
pub(crate) fn stops_of(
    alloc: Global,
    story: &[Entry],
    parts: u32,
    tasks: &[Task<'_>],
    lines: &[bool],
) -> Result<Vec<Option<Cause>>, AllocError>
    requires queries { All (λ t. 1 ≤ t.query) tasks.now }
    requires few { All (λ t. t.query * parts ≤ 256) tasks.now }
    ensures stops { IfOk result (λ stops. stops.items ≡ map (spec.stop_of_task (past story.now) parts lines.now)
        tasks.now) }
{
    let mut stops = Vec::new(alloc);
    for task in tasks {
        stops.push(stop_of_task(story, parts, task, lines))?;
    }
    Ok(stops)
}

// What a query is answered that was stopped, or wasn't.
fn answer_with(stop: Option<Cause>, answer: Answer) -> Answer
    ensures { result ≡ spec.answer_with stop answer }
{
    match stop {
        Some(why) => Answer::Stopped(why),
        None => answer,
    }
}

/// The answers where the queries were stopped for these causes. There is a cause or none for each answer.
pub(crate) fn answers_with(
    alloc: Global,
    stops: &[Option<Cause>],
    answers: Vec<Answer>,
) -> Result<Vec<Answer>, AllocError>
    requires { length stops.now ≡ length answers.items }
    ensures answers { IfOk result (λ given. given.items ≡ spec.answers_with stops.now answers.items) }
{
    let mut given = Vec::new(alloc);
    let mut place = 0;
    for answer in answers {
        given.push(answer_with(stops[place], answer))?;
        place += 1;
    }
    Ok(given)
}
