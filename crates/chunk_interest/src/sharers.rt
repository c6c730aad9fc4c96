//! Which queries read a group that a query reads.
ghost use Rattle.std.specs.Prelude.{◌≡◌, ◌&&◌, ◌<◌, ◌≤◌, ℕ, IfOk, length};
ghost use Rattle.scan_story.specs.Counting.{any_below, has};
ghost use Rattle.chunk_interest.specs.Counts.{shares_in};
ghost use Rattle.chunk_interest.specs.Marked.{row_at};

use crate::clients::Clients;
use crate::query_set::QuerySet;
use std::alloc::Global;
use table_sets::{ColumnSet, Memory};

// Whether some group below n is in both sets.
#[tactic(auto, using(crate::proofs::Below::any_below_more))]
fn meet(a: &ColumnSet, b: &ColumnSet, n: u32) -> bool
    ensures { result ≡ any_below (λ g. has a.now g && has b.now g) n }
{
    let mut found = false;
    for g in 0..n {
        found = a.has(g) && b.has(g) || found;
    }
    found
}

// Whether r reads a group that q reads.
fn shares(clients: &Clients, n: u32, q: u32, r: u32) -> bool
    requires q { q < length clients.now }
    requires r { r < length clients.now }
    ensures { result ≡ shares_in clients.now n q r }
{
    meet(&clients.of(q).reads, &clients.of(r).reads, n)
}

// The queries that read one of n groups that q reads.
fn sharers(clients: &Clients, n: u32, q: u32) -> QuerySet
    requires size { length clients.now ≡ 257 }
    requires q { q < 257 }
    ensures { (r : ℕ) → r < 257 → has result r ≡ shares_in clients.now n q r }
{
    let mut set = QuerySet::empty();
    for r in 0..257 {
        set.put(r, shares(clients, n, q, r));
    }
    set
}

/// For each query the queries that read one of n groups that it reads.
pub fn sharers_each(alloc: Global, clients: &Clients, n: u32) -> Result<Vec<QuerySet>, Memory>
    requires { length clients.now ≡ 257 }
    ensures size { IfOk result (λ v. length v.items ≡ 257) }
    ensures each { IfOk result (λ v. (q r : ℕ) → q < 257 → r < 257 → has (row_at v.items q) r
        ≡ shares_in clients.now n q r) }
{
    let mut rows = Vec::new(alloc);
    for q in 0..257 {
        rows.push(sharers(clients, n, q))?;
    }
    Ok(rows)
}
