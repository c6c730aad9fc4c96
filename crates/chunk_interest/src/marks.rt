//! Which queries need each chunk and have it available, kept by chunk.
ghost use Rattle.std.specs.Prelude.{◌≡◌, ◌<◌, ◌≤◌, ◌&&◌, ◌==◌, ℕ, [], IfOk, length, if◌then◌else◌};
ghost use Rattle.scan_story.specs.Counting.{has};
ghost use Rattle.chunk_interest.specs.Clients.{client_at};
ghost use Rattle.chunk_interest.specs.Marked.{row_at, Follows};

use crate::client::Client;
use crate::query_set::QuerySet;
use std::alloc::Global;
use table_sets::Memory;

/// Sets of queries: for each chunk below 1024 who needs it and to whom it is available, and who counts for what.
#[derive(Drop)]
pub struct Marks {
    /// Queries that need the chunk. What stands here of a query that is over counts for nothing.
    pub needing: Vec<QuerySet>,
    /// Queries to which the chunk is available. What stands here of a query that is over counts for nothing.
    pub having: Vec<QuerySet>,
    /// Active queries.
    pub active: QuerySet,
    /// Starved queries.
    pub starved: QuerySet,
    /// Active queries with at most two available chunks.
    pub near: QuerySet,
    /// Queries that ended or were stopped.
    pub over: QuerySet,
}

// The queries that need the chunk.
fn needing(clients: &[Client], c: u32) -> QuerySet
    requires { length clients.now ≡ 257 }
    ensures { (q : ℕ) → has result q ≡ has (client_at clients.now q).remaining c }
{
    let mut set = QuerySet::empty();
    for q in 0..257 {
        set.put(q, clients[q as usize].remaining.has(c));
    }
    set
}

// For each chunk the queries that need it.
fn needing_each(alloc: Global, clients: &[Client]) -> Result<Vec<QuerySet>, Memory>
    requires { length clients.now ≡ 257 }
    ensures size { IfOk result (λ v. length v.items ≡ 1024) }
    ensures each { IfOk result (λ v. (c q : ℕ) → c < 1024 → has (row_at v.items c) q
        ≡ has (client_at clients.now q).remaining c) }
{
    let mut rows = Vec::new(alloc);
    for c in 0..1024 {
        rows.push(needing(clients, c))?;
    }
    Ok(rows)
}

// A set without members for each chunk.
fn none_each(alloc: Global, n: usize) -> Result<Vec<QuerySet>, Memory>
    ensures size { IfOk result (λ v. length v.items ≡ n) }
    ensures each { IfOk result (λ v. (c : ℕ) → c < n → row_at v.items c ≡ []) }
{
    let mut rows = Vec::new(alloc);
    for _c in 0..n {
        rows.push(QuerySet::empty())?;
    }
    Ok(rows)
}

impl Marks {
    ghost use Rattle.chunk_interest.specs.Marked.{BeginsMarks};

    /// The marks of clients of which none is active and to none of which a chunk is available.
    pub fn new(alloc: Global, clients: &[Client]) -> Result<Marks, Memory>
        requires { length clients.now ≡ 257 }
        ensures { IfOk result (BeginsMarks clients.now) }
    {
        Ok(Marks {
            needing: needing_each(alloc, clients)?,
            having: none_each(alloc, 1024)?,
            active: QuerySet::empty(),
            starved: QuerySet::empty(),
            near: QuerySet::empty(),
            over: QuerySet::empty(),
        })
    }
}

// Puts the query into the set of the chunk, or takes it out.
fn mark(rows: &mut [QuerySet], c: u32, q: u32, is: bool)
    requires chunk { c < length rows.old }
    requires query { q < 320 }
    ensures size { length rows.new ≡ length rows.old }
    ensures each { (x r : ℕ) → has (row_at rows.new x) r
        ≡ (if x == c && r == q then is else has (row_at rows.old x) r) }
{
    let row = &mut rows[c as usize];
    row.put(q, is);
}

/// Marks the query anew, at the chunk and among those that count.
pub fn follow(marks: &mut Marks, q: u32, client: &Client, c: u32)
    requires needing { length marks.old.needing.items ≡ 1024 }
    requires having { length marks.old.having.items ≡ 1024 }
    requires chunk { c < 1024 }
    requires query { q < 320 }
    ensures { Follows q c client.now marks.old marks.new }
{
    marks.active.put(q, client.is_active());
    marks.starved.put(q, client.is_starved());
    marks.near.put(q, client.is_near());
    marks.over.put(q, client.is_over());
    mark(&mut marks.needing, c, q, client.remaining.has(c));
    mark(&mut marks.having, c, q, client.available.has(c));
}
