// The text of a verdict.
ghost use Rattle.std.specs.Prelude.{◌≡◌, ◌++◌, IfOk, OnOk, decimal};
ghost use Rattle.std.specs.Option.{option_map};
ghost use Rattle.inspect_calls.specs.Verdicts as spec;
ghost use Rattle.inspect_calls.specs.Verdicts.{IsVerdictText, counts_text, legal_text, verdict_status};

use crate::excerpts::{found_text, parting_text};
use crate::lines::{numbered, push_number};
use crate::reasons::ShownReason;
use crate::unfits::ShownUnfit;
use inspect_referee::{Counts, Reason};
use inspect_verdict::{Parting, Unfit, Verdict, line_in};
use std::alloc::{AllocError, Global};

/// 0 where the output is that of a legal run, else 1.
pub(crate) fn status_of(verdict: &Verdict) -> u8
    ensures { result ≡ verdict_status verdict.now }
{
    match verdict {
        Verdict::Legal { .. } => 0,
        _ => 1,
    }
}

// The line that a verdict tells.
fn line_of(verdict: &Verdict) -> u64
    ensures { result ≡ spec.verdict_line verdict.now }
{
    match verdict {
        Verdict::Legal { .. } => 0,
        Verdict::NotAnswered { parting, .. } | Verdict::Differs { parting } => parting.line,
        Verdict::NoSummary { line }
        | Verdict::NoTrace { line }
        | Verdict::NotStory { line }
        | Verdict::NotWhole { line } => *line,
        Verdict::Illegal { line, .. } | Verdict::Unfit { line, .. } => *line,
    }
}

// Where OUTPUT parts from what should stand there, if that is known byte by byte.
fn parting_of(verdict: &Verdict) -> Option<&Parting>
    ensures { option_map (λ p. p.now) result ≡ spec.verdict_parting verdict.now }
{
    match verdict {
        Verdict::NotAnswered { parting, .. } | Verdict::Differs { parting } => Some(parting),
        _ => None,
    }
}

/// The lines that tell a verdict on OUTPUT.
pub(crate) fn text_of(
    alloc: Global,
    verdict: &Verdict,
    output: &[u8],
) -> Result<Vec<u8>, AllocError>
    ensures { IfOk result (λ text. IsVerdictText output.now verdict.now text.items) }
{
    match verdict {
        Verdict::Legal {
            entries,
            reads,
            apart,
            counts,
        } => legal_text(alloc, *entries as u64, *reads, *apart, counts),
        other => no_text(alloc, other, output),
    }
}

// The line that tells a verdict that is a no.
fn no_text(alloc: Global, verdict: &Verdict, output: &[u8]) -> Result<Vec<u8>, AllocError>
    ensures { IfOk result (λ text. spec.IsNoText output.now (spec.verdict_words verdict.now)
        (spec.verdict_line verdict.now) (spec.verdict_parting verdict.now) text.items) }
{
    let words = words_of(alloc, verdict)?;
    match parting_of(verdict) {
        Some(parting) => parting_text(words, parting),
        None => found_text(words, line_in(output, line_of(verdict))),
    }
}

// The words of a verdict that is a no.
fn words_of(alloc: Global, verdict: &Verdict) -> Result<Vec<u8>, AllocError>
    ensures { IfOk result (λ text. text.items ≡ spec.verdict_words verdict.now) }
{
    match verdict {
        Verdict::Legal { .. } => Ok(Vec::new(alloc)),
        Verdict::NotAnswered { query, parting } => {
            unanswered_words(alloc, *query as u64, parting.line)
        }
        Verdict::NoSummary { line } => numbered(
            alloc,
            b"not legal: no summary stands behind the answers, at line ",
            *line,
            b"",
        ),
        Verdict::NoTrace { line } => numbered(
            alloc,
            b"not legal: no trace stands behind the answers, at line ",
            *line,
            b"",
        ),
        Verdict::NotStory { line } => numbered(alloc, b"not legal: line ", *line, b" is no entry"),
        Verdict::Illegal { line, reason, .. } => illegal_words(alloc, *line, *reason),
        Verdict::Unfit { line, why, .. } => unfit_words(alloc, *line, *why),
        Verdict::NotWhole { line } => numbered(
            alloc,
            b"not legal: a query isn't over, or something is left open, at the end before line ",
            *line,
            b"",
        ),
        Verdict::Differs { parting } => numbered(
            alloc,
            b"not legal: line ",
            parting.line,
            b" isn't what a run with this story prints",
        ),
    }
}

// The words of a statement for which nothing stands.
fn unanswered_words(alloc: Global, query: u64, line: u64) -> Result<Vec<u8>, AllocError>
    ensures { IfOk result (λ text. text.items ≡ spec.unanswered_words query line) }
{
    match format!(in alloc; "not legal: line {line} isn't what query {query} prints") {
        Ok(text) => Ok(text.into_bytes()),
        Err(_) => Err(AllocError),
    }
}

/// The words of an entry that may not come.
pub(crate) fn illegal_words(alloc: Global, line: u64, reason: Reason) -> Result<Vec<u8>, AllocError>
    ensures { IfOk result (λ text. text.items ≡ spec.illegal_words line reason) }
{
    let why = ShownReason { reason };
    match format!(in alloc; "not legal: line {line} {why}") {
        Ok(text) => Ok(text.into_bytes()),
        Err(_) => Err(AllocError),
    }
}

// The words of an entry that doesn't fit the words of the run.
fn unfit_words(alloc: Global, line: u64, why: Unfit) -> Result<Vec<u8>, AllocError>
    ensures { IfOk result (λ text. text.items ≡ spec.unfit_line_words line why) }
{
    let why = ShownUnfit { why };
    match format!(in alloc; "not legal: line {line} may not come: {why}") {
        Ok(text) => Ok(text.into_bytes()),
        Err(_) => Err(AllocError),
    }
}

// The lines of a legal run.
fn legal_text(
    alloc: Global,
    entries: u64,
    reads: u64,
    apart: u64,
    counts: &Counts,
) -> Result<Vec<u8>, AllocError>
    ensures { IfOk result (λ text. text.items ≡ legal_text entries reads apart counts.now) }
{
    let mut text = numbered(alloc, b"legal: ", entries, b" entries")?;
    push_number(&mut text, b", ", reads)?;
    push_number(&mut text, b" reads, at most ", apart)?;
    push_counts(&mut text, counts)?;
    text.extend_from_slice(b"\n")?;
    Ok(text)
}

/// Puts how many entries of each kind there are at the end.
pub(crate) fn push_counts(text: &mut Vec<u8>, counts: &Counts) -> Result<(), AllocError>
    ensures { OnOk result (text.new.items ≡ counts_text counts.now text.old.items) }
{
    push_number(text, b"\nregister ", counts.registers as u64)?;
    push_number(text, b", plan ", counts.plans as u64)?;
    push_number(text, b", evict ", counts.evicts as u64)?;
    push_number(text, b", fill ", counts.fills as u64)?;
    push_number(text, b", filled ", counts.filled as u64)?;
    push_number(text, b", failed ", counts.failed as u64)?;
    push_number(text, b", deliver ", counts.delivers as u64)?;
    push_number(text, b", release ", counts.releases as u64)?;
    push_number(text, b", stop ", counts.stops as u64)?;
    push_number(text, b", end ", counts.ends as u64)?;
    Ok(())
}
