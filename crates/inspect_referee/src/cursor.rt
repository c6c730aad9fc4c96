//! The policy's cursor, as a list of numbers.
ghost use Rattle.std.specs.Prelude.{◌≡◌, ◌==◌, ◌++◌, ◌∷◌, ◌+◌, ◌-◌, ◌%◌, ◌<◌, ◌≤◌};
ghost use Rattle.std.specs.Prelude.{[], ℕ, IfOk, get_or, length, not, replicate, set};
ghost use Rattle.std.specs.List.{filter};
ghost use Rattle.scan_story.specs.declared.setting.Setting.{Setting};
ghost use Rattle.scan_story.specs.Setting.{first_cursor};
ghost use Rattle.scan_story.specs.Views.{History};
ghost use Rattle.scan_story.specs.Policies.{moved_last, served, after_load, after_delivery, place_in, start_of};
ghost use Rattle.scan_story.specs.Legal.{cursor_at};
ghost use Rattle.inspect_referee.specs.declared.terms.Terms.{Terms};
ghost use Rattle.inspect_referee.specs.Terms.{setting_of};

use crate::terms::Terms;
use scan_story::{Entry, PolicyName};
use std::alloc::{AllocError, Global};

/// The number at the place of the cursor, or 0 past its end.
pub fn at(cursor: &[u64], i: u32) -> u64
    ensures { result ≡ get_or cursor.now i 0 }
{
    if (i as usize) < cursor.len() {
        cursor[i as usize]
    } else {
        0
    }
}

fn zeros(alloc: Global, n: usize) -> Result<Vec<u64>, AllocError>
    ensures { IfOk result (λ v. v.items ≡ replicate n 0) }
{
    vec![in alloc; 0; n]
}

/// The cursor with which the policy begins.
pub fn first_cursor(alloc: Global, policy: PolicyName) -> Result<Vec<u64>, AllocError>
    ensures { IfOk result (λ v. v.items ≡ first_cursor policy) }
{
    match policy {
        PolicyName::Relevance | PolicyName::Normal => zeros(alloc, 0),
        PolicyName::Elevator => zeros(alloc, 1),
        PolicyName::Attach => zeros(alloc, 257),
    }
}

#[tactic(auto, using(crate::proofs::Steps::set_outside))]
fn set_at(cursor: &mut [u64], i: u32, x: u64)
    ensures { cursor.new ≡ set cursor.old i x }
{
    if (i as usize) < cursor.len() {
        cursor[i as usize] = x;
    }
}

fn moved_last(alloc: Global, cursor: &[u64], c: u32) -> Result<Vec<u64>, AllocError>
    ensures { IfOk result (λ v. v.items ≡ moved_last cursor.now c) }
{
    let mut moved: Vec<u64> = cursor
        .iter()
        .copied()
        .filter(|x| !(*x == c as u64))
        .collect(alloc)?;
    moved.push(c as u64)?;
    Ok(moved)
}

/// A start that doesn't fit is refused; no start that was a chunk's number is.
fn served(mut cursor: Vec<u64>, q: u32) -> Result<Vec<u64>, AllocError>
    ensures { IfOk result (λ v. v.items ≡ served cursor.items q) }
{
    if at(cursor.as_slice(), q) != 0 {
        return Ok(cursor);
    }
    let Some(start) = at(cursor.as_slice(), 0).checked_add(1) else {
        return Err(AllocError);
    };
    set_at(cursor.as_mut_slice(), q, start);
    Ok(cursor)
}

fn next_chunk(chunks: u32, c: u32) -> u64
    ensures { result ≡ (c + 1) % chunks }
{
    let next = c as u64 + 1;
    if chunks == 0 {
        next
    } else {
        next % chunks as u64
    }
}

fn after_load(
    alloc: Global,
    terms: &Terms,
    cursor: Vec<u64>,
    q: u32,
    c: u32,
) -> Result<Vec<u64>, AllocError>
    ensures { IfOk result (λ v. v.items ≡ after_load terms.now.policy (setting_of terms.now) cursor.items q c) }
{
    match terms.policy {
        PolicyName::Relevance => Ok(cursor),
        PolicyName::Elevator => {
            let mut one = Vec::new(alloc);
            one.push(next_chunk(terms.chunks, c))?;
            Ok(one)
        }
        PolicyName::Normal => moved_last(alloc, cursor.as_slice(), c),
        PolicyName::Attach => served(cursor, q),
    }
}

fn served_and_told(cursor: Vec<u64>, q: u32, c: u32) -> Result<Vec<u64>, AllocError>
    ensures { IfOk result (λ v. v.items ≡ set (served cursor.items q) 0 c) }
{
    let mut cursor = served(cursor, q)?;
    set_at(cursor.as_mut_slice(), 0, c as u64);
    Ok(cursor)
}

fn after_delivery(
    alloc: Global,
    policy: PolicyName,
    cursor: Vec<u64>,
    q: u32,
    c: u32,
) -> Result<Vec<u64>, AllocError>
    ensures { IfOk result (λ v. v.items ≡ after_delivery policy cursor.items q c) }
{
    match policy {
        PolicyName::Relevance => Ok(cursor),
        PolicyName::Elevator => Ok(cursor),
        PolicyName::Normal => moved_last(alloc, cursor.as_slice(), c),
        PolicyName::Attach => served_and_told(cursor, q, c),
    }
}

/// The cursor after one entry more.
pub fn cursor_after(
    alloc: Global,
    terms: &Terms,
    cursor: Vec<u64>,
    entry: &Entry,
) -> Result<Vec<u64>, AllocError>
    ensures { (h : History) → cursor.items ≡ cursor_at (setting_of terms.now) h
        → IfOk result (λ v. v.items ≡ cursor_at (setting_of terms.now) (entry.now ∷ h)) }
{
    match *entry {
        Entry::Plan { query, chunk, .. } => after_load(alloc, terms, cursor, query, chunk),
        Entry::Deliver { query, chunk, .. } => {
            after_delivery(alloc, terms.policy, cursor, query, chunk)
        }
        _ => Ok(cursor),
    }
}

/// Where the query's scan starts, under attach.
pub fn start_of(cursor: &[u64], q: u32) -> u64
    ensures { result ≡ start_of cursor.now q }
{
    let place = at(cursor, q);
    if place == 0 { at(cursor, 0) } else { place - 1 }
}

/// The chunk at which a way around so many chunks starts.
pub fn first_chunk(chunks: u32, start: u64) -> u32
    requires { 0 < chunks }
    ensures value { result ≡ start % chunks }
    ensures inside { result < chunks }
{
    let chunks = chunks as u64;
    // Starts are mostly chunks, and to divide takes long.
    if start < chunks {
        return start as u32;
    }
    (start % chunks) as u32
}

/// How far the chunk is from the start, going up so many chunks and around.
pub fn dist_from(chunks: u32, start: u64, c: u32) -> u64
    requires { c < chunks }
    ensures { result ≡ (c + chunks - start % chunks) % chunks }
{
    let start = first_chunk(chunks, start);
    if c < start {
        return c as u64 + chunks as u64 - start as u64;
    }
    (c - start) as u64
}
