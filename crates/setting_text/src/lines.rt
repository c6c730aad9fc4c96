// The lines of a setting: what their words tell, and their texts.
ghost use Rattle.std.specs.Prelude.{◌≡◌, IfNone, IfOk, IfSome, None, Some, decimal, map};
ghost use Rattle.std.specs.String.{string_bytes};
ghost use Rattle.scan_story.specs.declared.setting.Need.{Need};
ghost use Rattle.scan_story.specs.declared.setting.PolicyName.{PolicyName};
ghost use Rattle.setting_text.specs.declared.head.Head.{Head};
ghost use Rattle.std.specs.Prelude.{Option, ℕ, ◌≢◌};
ghost use Rattle.setting_text.specs.Text as spec;
ghost use Rattle.setting_text.specs.Reading.{FitsHead, FitsNeed};

use crate::head::Head;
use crate::lists::{list_text, numbers_in};
use crate::words::{is_same, parts_of, two};
use scan_story::{Need, PolicyName};
use std::alloc::{AllocError, Global};

// The policy that a word names, and `None` for choices that are free.
fn policy_in(word: &[u8]) -> Option<Option<PolicyName>>
    ensures { (p : Option PolicyName) → word.now ≡ spec.policy_text p → result ≡ Some p }
{
    match word {
        b"relevance" => Some(Some(PolicyName::Relevance)),
        b"elevator" => Some(Some(PolicyName::Elevator)),
        b"normal" => Some(Some(PolicyName::Normal)),
        b"attach" => Some(Some(PolicyName::Attach)),
        b"any" => Some(None),
        _ => None,
    }
}

fn policy_word(policy: Option<PolicyName>) -> &'static str
    ensures { result.now ≡ spec.policy_text policy }
{
    match policy {
        None => "any",
        Some(PolicyName::Relevance) => "relevance",
        Some(PolicyName::Elevator) => "elevator",
        Some(PolicyName::Normal) => "normal",
        Some(PolicyName::Attach) => "attach",
    }
}

type Numbers = ((u32, u32), (u32, u32));

fn numbers_told(workers: &[u8], frames: &[u8], chunks: &[u8], groups: &[u8]) -> Option<Numbers>
    ensures { (h : Head) → FitsHead h → workers.now ≡ decimal h.workers → frames.now ≡ decimal h.frames
        → chunks.now ≡ decimal h.chunks → groups.now ≡ decimal h.groups
        → result ≡ Some ((h.workers, h.frames), (h.chunks, h.groups)) }
{
    two(workers, frames).zip(two(chunks, groups))
}

// What the words of a first line tell, whatever stands where its names should.
fn head_told(words: &[&[u8]]) -> Option<Head>
    ensures { (h : Head) → FitsHead h → map (λ w. w.now) words.now ≡ spec.head_words h → result ≡ Some h }
{
    let [_, workers, _, frames, _, chunks, _, groups, _, policy] = words else {
        return None;
    };
    let Some(((workers, frames), (chunks, groups))) = numbers_told(
        *workers, *frames, *chunks, *groups,
    ) else {
        return None;
    };
    let Some(policy) = policy_in(*policy) else {
        return None;
    };
    Some(Head {
        workers,
        frames,
        chunks,
        groups,
        policy,
    })
}

// What the words of a query's line tell, whatever stands where its names should.
fn need_told(alloc: Global, words: &[&[u8]]) -> Result<Option<Need>, AllocError>
    ensures fits { IfOk result (λ o. IfSome o FitsNeed) }
    ensures reads { IfOk result (λ o. (n : Need) → FitsNeed n → map (λ w. w.now) words.now ≡ spec.need_words n
        → o ≡ Some n) }
{
    let [_, query, _, worker, _, chunks, _, columns] = words else {
        return Ok(None);
    };
    let Some((query, worker)) = two(*query, *worker) else {
        return Ok(None);
    };
    let Some(chunks) = numbers_in(alloc, *chunks)? else {
        return Ok(None);
    };
    let Some(columns) = numbers_in(alloc, *columns)? else {
        return Ok(None);
    };
    Ok(Some(Need {
        query,
        worker,
        chunks,
        columns,
    }))
}

/// The text of a first line.
pub(crate) fn head_line(alloc: Global, h: Head) -> Result<String, AllocError>
    ensures { IfOk result (λ s. string_bytes s ≡ spec.head_line h) }
{
    let Head {
        workers,
        frames,
        chunks,
        groups,
        policy,
    } = h;
    let policy = policy_word(policy);
    format!(in alloc;
        "workers {workers} frames {frames} chunks {chunks} groups {groups} policy {policy}"
    )
}

/// The text of a query's line.
pub(crate) fn need_line(alloc: Global, n: &Need) -> Result<String, AllocError>
    ensures { IfOk result (λ s. string_bytes s ≡ spec.need_line n.now) }
{
    let (query, worker) = (n.query, n.worker);
    let chunks = list_text(alloc, &n.chunks)?;
    let columns = list_text(alloc, &n.columns)?;
    format!(in alloc; "query {query} worker {worker} chunks {chunks} columns {columns}")
}

/// The first line whose text this is.
pub(crate) fn head_in(alloc: Global, line: &[u8]) -> Result<Option<Head>, AllocError>
    ensures some { IfOk result (λ o. IfSome o (λ h. FitsHead h × (line.now ≡ spec.head_line h))) }
    ensures none { IfOk result (λ o. IfNone o ((h : Head) → FitsHead h → line.now ≢ spec.head_line h)) }
{
    let words = parts_of(alloc, line, b' ')?;
    let Some(h) = head_told(&words) else {
        return Ok(None);
    };
    let text = head_line(alloc, h)?;
    if is_same(text.as_bytes(), line) {
        return Ok(Some(h));
    }
    Ok(None)
}

/// The query whose line's text this is.
pub(crate) fn need_in(alloc: Global, line: &[u8]) -> Result<Option<Need>, AllocError>
    ensures some { IfOk result (λ o. IfSome o (λ n. FitsNeed n × (line.now ≡ spec.need_line n))) }
    ensures none { IfOk result (λ o. IfNone o ((n : Need) → FitsNeed n → line.now ≢ spec.need_line n)) }
{
    let words = parts_of(alloc, line, b' ')?;
    let Some(n) = need_told(alloc, &words)? else {
        return Ok(None);
    };
    let text = need_line(alloc, &n)?;
    if is_same(text.as_bytes(), line) {
        return Ok(Some(n));
    }
    Ok(None)
}
