ghost use Rattle.std.specs.Prelude.{◌≡◌, ◌==◌, ◌++◌, ◌∷◌, ◌+◌, ◌%◌, [], ℕ, IfOk, get_or, not, set};
ghost use Rattle.std.specs.List.{filter};
ghost use Rattle.scan_story.specs.Views.{past};
ghost use Rattle.scan_story.specs.Policies.{moved_last, served, after_load, after_delivery};
ghost use Rattle.scan_story.specs.Legal.{cursor_at};

use scan_story::{Entry, PolicyName, Setting};
use std::alloc::{AllocError, Global};

/// The number at the place of the cursor, or 0 past its end.
pub fn at(cursor: &[u64], i: u32) -> u64
    ensures { result ≡ get_or cursor.now i 0 }
{
    if (i as usize) < cursor.len() {
        cursor[i as usize]
    } else {
        0
    }
}

#[tactic(auto, using(crate::proofs::Below::map_same))]
fn first_cursor(alloc: Global, s: &Setting) -> Result<Vec<u64>, AllocError>
    ensures { IfOk result (λ v. v.items ≡ s.now.cursor) }
{
    s.cursor.iter().map(|x| *x as u64).collect(alloc)
}

#[tactic(auto, using(crate::proofs::Below::set_outside))]
fn set_at(cursor: &mut [u64], i: u32, x: u64)
    ensures { cursor.new ≡ set cursor.old i x }
{
    if (i as usize) < cursor.len() {
        cursor[i as usize] = x;
    }
}

fn moved_last(alloc: Global, cursor: &[u64], c: u32) -> Result<Vec<u64>, AllocError>
    ensures { IfOk result (λ v. v.items ≡ moved_last cursor.now c) }
{
    let mut moved: Vec<u64> = cursor
        .iter()
        .copied()
        .filter(|x| !(*x == c as u64))
        .collect(alloc)?;
    moved.push(c as u64)?;
    Ok(moved)
}

/// A start that doesn't fit is refused; no start that was a chunk's number is.
fn served(mut cursor: Vec<u64>, q: u32) -> Result<Vec<u64>, AllocError>
    ensures { IfOk result (λ v. v.items ≡ served cursor.items q) }
{
    if at(cursor.as_slice(), q) != 0 {
        return Ok(cursor);
    }
    let Some(start) = at(cursor.as_slice(), 0).checked_add(1) else {
        return Err(AllocError);
    };
    set_at(cursor.as_mut_slice(), q, start);
    Ok(cursor)
}

fn next_chunk(s: &Setting, c: u32) -> u64
    ensures { result ≡ (c + 1) % s.now.chunks }
{
    let next = c as u64 + 1;
    if s.chunks == 0 {
        next
    } else {
        next % s.chunks as u64
    }
}

fn after_load(
    alloc: Global,
    s: &Setting,
    cursor: Vec<u64>,
    q: u32,
    c: u32,
) -> Result<Vec<u64>, AllocError>
    ensures { IfOk result (λ v. v.items ≡ after_load s.now.policy s.now cursor.items q c) }
{
    match s.policy {
        PolicyName::Relevance => Ok(cursor),
        PolicyName::Elevator => {
            let mut one = Vec::new(alloc);
            one.push(next_chunk(s, c))?;
            Ok(one)
        }
        PolicyName::Normal => moved_last(alloc, cursor.as_slice(), c),
        PolicyName::Attach => served(cursor, q),
    }
}

fn served_and_told(cursor: Vec<u64>, q: u32, c: u32) -> Result<Vec<u64>, AllocError>
    ensures { IfOk result (λ v. v.items ≡ set (served cursor.items q) 0 c) }
{
    let mut cursor = served(cursor, q)?;
    set_at(cursor.as_mut_slice(), 0, c as u64);
    Ok(cursor)
}

fn after_delivery(
    alloc: Global,
    s: &Setting,
    cursor: Vec<u64>,
    q: u32,
    c: u32,
) -> Result<Vec<u64>, AllocError>
    ensures { IfOk result (λ v. v.items ≡ after_delivery s.now.policy cursor.items q c) }
{
    match s.policy {
        PolicyName::Relevance => Ok(cursor),
        PolicyName::Elevator => Ok(cursor),
        PolicyName::Normal => moved_last(alloc, cursor.as_slice(), c),
        PolicyName::Attach => served_and_told(cursor, q, c),
    }
}

/// The policy's cursor after the entries.
pub fn cursor_at(alloc: Global, s: &Setting, entries: &[Entry]) -> Result<Vec<u64>, AllocError>
    ensures { IfOk result (λ v. v.items ≡ cursor_at s.now (past entries.now)) }
{
    match entries {
        [] => first_cursor(alloc, s),
        [rest @ .., last] => {
            match *last {
                Entry::Plan { query, chunk, .. } => {
                    let cursor = cursor_at(alloc, s, rest)?;
                    after_load(alloc, s, cursor, query, chunk)
                }
                Entry::Deliver { query, chunk, .. } => {
                    let cursor = cursor_at(alloc, s, rest)?;
                    after_delivery(alloc, s, cursor, query, chunk)
                }
                _ => cursor_at(alloc, s, rest),
            }
        }
    }
}
