//! The clients of all queries, each at the place of its query's number.
ghost use Rattle.std.specs.Prelude.{◌≡◌, ◌≢◌, ◌+◌, ◌<◌, ◌≤◌, ◌^◌, ◌∷◌, ◌⊎◌, ◌&&◌};
ghost use Rattle.std.specs.Prelude.{[], ℕ, All, IfOk, length, set, true, false};
ghost use Rattle.scan_story.specs.declared.entry.Why.{Why};
ghost use Rattle.scan_story.specs.declared.entry.Entry.TheVariants.{Register, Failed, Deliver, Release, Stop, End};
ghost use Rattle.scan_story.specs.declared.setting.Setting.{Setting};
ghost use Rattle.scan_story.specs.Counting.{has, count_below};
ghost use Rattle.scan_story.specs.Views.{History, is_stopped};
ghost use Rattle.chunk_interest.specs.Clients.{AreClients, AreReady, client_at};
ghost use Rattle.chunk_interest.specs.Counts.{is_active_in, is_starved_in, needs_in, is_interested_in, is_starved_for};
ghost use Rattle.chunk_interest.specs.Counts.{is_close_in, overlaps_by, starved_overlaps_by, feeds_in};
ghost use Rattle.chunk_interest.specs.Fresh.{AreFresh};
ghost use Rattle.chunk_interest.specs.Renewed.{IsRenewed};
ghost use Rattle.chunk_interest.specs.Marked.{AreConcerned, IsNear, is_active, is_over};

use crate::buffer::Buffer;
use crate::client::Client;
use crate::marks::{Marks, follow};
use crate::need::Need;
use crate::query_set::QuerySet;
use std::alloc::Global;
use std::marker::Model;
use table_sets::Memory;

/// The clients of the queries 0 to 256, of which 0 is none, with the marks that their numbers are counted by.
///
/// Each stands at the place of its query's number, so a look-up is one step, and no clause here asks that the needs
/// have distinct queries.
#[derive(Drop)]
pub struct Clients {
    list: Vec<Client>,
    marks: Marks,
}

impl Model for Clients {
    ghost use Rattle.std.specs.Prelude.{List};
    ghost use Rattle.chunk_interest.specs.declared.client.Client.{Client};
    ghost use Rattle.chunk_interest.specs.Marked.{AreMarks};

    ghost Value = { List Client };

    ghost view = { λ k. k.list.items };

    ghost invariant = { λ k. AreMarks k.list.items k.marks };
}

// Clients of queries without needs.
fn vacant(alloc: Global, n: usize, groups: u32) -> Result<Vec<Client>, Memory>
    ensures length { IfOk result (λ v. length v.items ≡ n) }
    ensures each { IfOk result (λ v. AreFresh groups [] v.items n) }
{
    let mut clients = Vec::new(alloc);
    for _i in 0..n {
        clients.push(Client::vacant(groups))?;
    }
    Ok(clients)
}

// Each client becomes that of its need.
fn take_needs(clients: &mut [Client], needs: &[Need], groups: u32)
    requires queries { All (λ n. n.query < length clients.old) needs.now }
    requires vacant { AreFresh groups [] clients.old (length clients.old) }
    ensures length { length clients.new ≡ length clients.old }
    ensures each { AreFresh groups needs.now clients.new (length clients.old) }
{
    let mut i = needs.len();
    while i > 0 {
        i -= 1;
        let need = &needs[i];
        let client = &mut clients[need.query as usize];
        client.take(need, groups);
    }
}

impl Clients {
    /// The clients of all queries before the first entry.
    pub fn new(alloc: Global, needs: &[Need], groups: u32) -> Result<Clients, Memory>
        requires queries { All (λ n. n.query < 257) needs.now }
        ensures length { IfOk result (λ v. length v ≡ 257) }
        ensures each { IfOk result (λ v. AreFresh groups needs.now v 257) }
    {
        let mut list = vacant(alloc, 257, groups)?;
        take_needs(&mut list, needs, groups);
        let marks = Marks::new(alloc, &list)?;
        Ok(Clients { list, marks })
    }

    /// The client of a query.
    pub fn of(&self, q: u32) -> &Client
        requires { q < length self.now }
        ensures { result.now ≡ client_at self.now q }
    {
        &self.list[q as usize]
    }

    // Puts the client at the query's place. The marks follow.
    fn put(&mut self, q: u32, new: Client, c: u32)
        requires there { q < length self.old }
        requires chunk { c < 1024 }
        requires somebody { (0 < q) ⊎ (is_active new ≡ true → is_active (client_at self.old q) ≡ true) }
        requires near { IsNear c (client_at self.old q) new }
        ensures { self.new ≡ set self.old q new }
    {
        follow(&mut self.marks, q, &new, c);
        self.list[q as usize] = new;
    }

    /// Follows a Register of the query.
    pub fn register(&mut self, q: u32, noted: u64)
        requires there { q < length self.old }
        requires some { 0 < q }
        requires few { noted < 2 ^ 63 }
        ensures length { length self.new ≡ length self.old }
        ensures follows { (s : Setting) (h : History) (w : ℕ) → length h ≡ noted → AreClients s h self.old
            → AreClients s (Register w q ∷ h) self.new }
        ensures ready { (s : Setting) (h : History) (w : ℕ) → AreReady s h self.old
            → AreReady s (Register w q ∷ h) self.new }
    {
        let mut client = self.of(q).copy();
        client.register(noted);
        self.put(q, client, 0);
    }

    /// Follows a Release of a chunk that was held for the query.
    pub fn release(&mut self, q: u32, noted: u64)
        requires there { q < length self.old }
        requires few { noted < 2 ^ 63 }
        ensures length { length self.new ≡ length self.old }
        ensures follows { (s : Setting) (h : History) (w c : ℕ) → length h ≡ noted → AreClients s h self.old
            → AreClients s (Release w q c ∷ h) self.new }
        ensures ready { (s : Setting) (h : History) (w c : ℕ) → AreReady s h self.old
            → AreReady s (Release w q c ∷ h) self.new }
    {
        let mut client = self.of(q).copy();
        client.release(noted);
        self.put(q, client, 0);
    }

    /// Follows a Deliver of the chunk to the query.
    pub fn deliver(&mut self, q: u32, c: u32)
        requires there { q < length self.old }
        requires chunk { c < 1024 }
        ensures length { length self.new ≡ length self.old }
        ensures follows { (s : Setting) (h : History) (w : ℕ) → AreClients s h self.old
            → AreClients s (Deliver w q c ∷ h) self.new }
        ensures ready { (s : Setting) (h : History) (w : ℕ) → AreReady s h self.old
            → AreReady s (Deliver w q c ∷ h) self.new }
    {
        let mut client = self.of(q).copy();
        client.deliver(c);
        self.put(q, client, c);
    }

    /// Follows a Stop of the query, or the Failed of a load that it triggered.
    pub fn stop(&mut self, q: u32)
        requires there { q < length self.old }
        ensures length { length self.new ≡ length self.old }
        ensures stop { (s : Setting) (h : History) (w : ℕ) → AreClients s h self.old
            → AreClients s (Stop w q ∷ h) self.new }
        ensures failed { (s : Setting) (h : History) (w p : ℕ) (why : Why) → AreClients s h self.old
            → AreClients s (Failed w q p why ∷ h) self.new }
        ensures stop_ready { (s : Setting) (h : History) (w : ℕ) → AreReady s h self.old
            → AreReady s (Stop w q ∷ h) self.new }
        ensures failed_ready { (s : Setting) (h : History) (w p : ℕ) (why : Why) → AreReady s h self.old
            → AreReady s (Failed w q p why ∷ h) self.new }
    {
        let mut client = self.of(q).copy();
        client.stop();
        self.put(q, client, 0);
    }

    /// Follows an End of the query.
    pub fn end(&mut self, q: u32)
        requires there { q < length self.old }
        ensures length { length self.new ≡ length self.old }
        ensures follows { (s : Setting) (h : History) (w : ℕ) → is_stopped h q ≡ false → AreClients s h self.old
            → AreClients s (End w q ∷ h) self.new }
        ensures ready { (s : Setting) (h : History) (w : ℕ) → AreReady s h self.old
            → AreReady s (End w q ∷ h) self.new }
    {
        let mut client = self.of(q).copy();
        client.end();
        self.put(q, client, 0);
    }

    // The queries that need the chunk or have it available, and those that are over.
    fn concerned(&self, c: u32) -> QuerySet
        requires chunk { c < 1024 }
        ensures { AreConcerned self.now c result }
    {
        self.marks.needing[c as usize]
            .either(&self.marks.having[c as usize])
            .either(&self.marks.over)
    }

    // Looks up anew for one query whether the chunk is available.
    fn renew_at(&mut self, q: u32, buffer: &Buffer, c: u32)
        requires there { q < length self.old }
        requires chunk { c < 1024 }
        ensures length { length self.new ≡ length self.old }
        ensures here { IsRenewed buffer.now.places.items buffer.now.groups c (client_at self.old q)
            (client_at self.new q) }
        ensures others { (r : ℕ) → r ≢ q → client_at self.new r ≡ client_at self.old r }
    {
        let client = &mut self.list[q as usize];
        if client.renew(buffer, c) {
            follow(&mut self.marks, q, client, c);
        }
    }

    /// Looks up anew for each query whether the chunk is available.
    pub fn renew(&mut self, buffer: &Buffer, c: u32)
        requires size { length self.old ≡ 257 }
        requires chunk { c < 1024 }
        ensures length { length self.new ≡ length self.old }
        ensures each { (q : ℕ) → q < length self.old
            → IsRenewed buffer.now.places.items buffer.now.groups c (client_at self.old q) (client_at self.new q) }
    {
        let concerned = self.concerned(c);
        for q in 0..257 {
            if concerned.has(q) {
                self.renew_at(q, buffer, c);
            }
        }
    }

    /// How many queries are active, at most 256.
    pub fn running(&self) -> u32
        ensures number { result ≡ count_below (is_active_in self.now) (length self.now) }
        ensures few { result ≤ 256 }
    {
        self.marks.active.size()
    }

    /// How many active queries need the chunk, at most 256.
    pub fn interested(&self, c: u32) -> u32
        requires { c < 1024 }
        ensures number { result ≡ count_below (is_interested_in self.now c) (length self.now) }
        ensures few { result ≤ 256 }
    {
        self.marks.active.common(&self.marks.needing[c as usize])
    }

    /// How many starved queries need the chunk, at most 256.
    pub fn starved_interested(&self, c: u32) -> u32
        requires { c < 1024 }
        ensures number { result ≡ count_below (is_starved_for self.now c) (length self.now) }
        ensures few { result ≤ 256 }
    {
        self.marks.starved.common(&self.marks.needing[c as usize])
    }

    /// How many active queries have the chunk available, and at most two available chunks; at most 256.
    pub fn close(&self, c: u32) -> u32
        requires { c < 1024 }
        ensures number { result ≡ count_below (is_close_in self.now c) (length self.now) }
        ensures few { result ≤ 256 }
    {
        self.marks.near.common(&self.marks.having[c as usize])
    }

    /// How many active queries among these need the chunk, at most 256.
    pub fn overlap(&self, among: &QuerySet, c: u32) -> u32
        requires { c < 1024 }
        ensures number { result ≡ count_below (overlaps_by self.now among.now c) (length self.now) }
        ensures few { result ≤ 256 }
    {
        self.marks
            .active
            .both(&self.marks.needing[c as usize])
            .common(among)
    }

    /// How many starved queries among these need the chunk, at most 256.
    pub fn starved_overlap(&self, among: &QuerySet, c: u32) -> u32
        requires { c < 1024 }
        ensures number { result ≡ count_below (starved_overlaps_by self.now among.now c) (length self.now) }
        ensures few { result ≤ 256 }
    {
        self.marks
            .starved
            .both(&self.marks.needing[c as usize])
            .common(among)
    }

    /// The active ones of these queries.
    pub fn active_among(&self, these: &QuerySet) -> QuerySet
        ensures { (r : ℕ) → has result r ≡ (is_active_in self.now r && has these.now r) }
    {
        self.marks.active.both(these)
    }

    /// The starved ones of these queries.
    pub fn starved_among(&self, these: &QuerySet) -> QuerySet
        ensures { (r : ℕ) → has result r ≡ (is_starved_in self.now r && has these.now r) }
    {
        self.marks.starved.both(these)
    }

    /// How many of these queries, which are all active, need the chunk; at most 320.
    pub fn needing(&self, these: &QuerySet, c: u32) -> u32
        requires { c < 1024 }
        ensures number { ((r : ℕ) → has these.now r ≡ true → is_active_in self.now r ≡ true) → result
            ≡ count_below (λ r. has these.now r && needs_in self.now r c) (length self.now) }
        ensures few { result ≤ 320 }
    {
        these.common(&self.marks.needing[c as usize])
    }

    /// To how many starved queries the chunk is available.
    pub fn fed(&self, c: u32) -> u32
        requires { c < 1024 }
        ensures { result ≡ count_below (feeds_in self.now c) (length self.now) }
    {
        self.marks.starved.common(&self.marks.having[c as usize])
    }
}
