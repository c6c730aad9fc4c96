//! What is kept of the entries that were read.
ghost use Rattle.std.specs.Prelude.{◌≡◌, ◌==◌, ◌&&◌, ◌<◌, ◌≤◌, ◌+◌, ◌-◌, ◌^◌, ℕ, IfOk, IsTrue, get_or, is_none, length};
ghost use Rattle.std.specs.List.{list_any};
ghost use Rattle.scan_story.specs.Counting.{is_number};
ghost use Rattle.scan_story.specs.Setting.{IsSetting, worker_of};
ghost use Rattle.scan_story.specs.Views.{is_active, is_registered, held_by};
ghost use Rattle.scan_story.specs.Loads.{is_free, is_load_by, underway};
ghost use Rattle.scan_story.specs.Numbers.{is_starved, needed};
ghost use Rattle.scan_story.specs.MayFollow.{Allowed, is_ready, is_target, is_trigger};
ghost use Rattle.scan_story.specs.declared.entry.Entry.TheVariants.{Register};
ghost use Rattle.inspect_referee.specs.Choices.{IsTaken};
ghost use Rattle.inspect_referee.specs.Rules.{has_active, is_hold};
ghost use Rattle.inspect_referee.specs.Terms.{setting_of};
ghost use Rattle.inspect_referee.specs.Seen.{setting, seen, IsReading};

use crate::choices::Choices;
use crate::cursor::{cursor_after, first_cursor};
use crate::holds::{held_in, no_holds, note_hold};
use crate::load::{fills_frame, is_load_by, load_after};
use crate::needs::{copied, worker_of};
use crate::phase::{has_begun, runs};
use crate::terms::Terms;
use chunk_interest::Need;
use interest_book::Book;
use scan_story::{Entry, Hold, Load};
use std::alloc::Global;
use table_sets::Memory;

/// Reads a story entry by entry. The manager's book has the numbers; beside it stands what a book doesn't tell: the
/// load underway piece by piece, for which query a chunk is held, and the policy's cursor.
#[derive(Drop)]
pub struct Referee<'a> {
    pub terms: &'a Terms,
    pub choices: Choices,
    pub entries: &'a [Entry],
    /// How many entries were read.
    pub place: usize,
    pub book: Book,
    pub load: Option<Load>,
    pub holds: Vec<Option<Hold>>,
    pub cursor: Vec<u64>,
}

impl<'a> Referee<'a> {
    /// Before the first entry.
    pub fn new(
        alloc: Global,
        terms: &'a Terms,
        choices: Choices,
        entries: &'a [Entry],
    ) -> Result<Referee<'a>, Memory>
        requires { IsSetting (setting_of terms.now) }
        ensures reading { IfOk result IsReading }
        ensures terms { IfOk result (λ r. r.terms.now ≡ terms.now) }
        ensures choices { IfOk result (λ r. r.choices ≡ choices) }
        ensures entries { IfOk result (λ r. r.entries.now ≡ entries.now) }
        ensures place { IfOk result (λ r. r.place ≡ 0) }
    {
        let needs = copied(alloc, &terms.needs)?;
        let book = Book::new(
            alloc,
            needs,
            terms.chunks,
            terms.workers,
            terms.frames,
            terms.groups,
        )?;
        let holds = no_holds(alloc)?;
        let cursor = first_cursor(alloc, terms.policy)?;
        Ok(Referee {
            terms,
            choices,
            entries,
            place: 0,
            book,
            load: None,
            holds,
            cursor,
        })
    }

    /// Reads one entry more, which may come.
    pub fn follow(self, alloc: Global) -> Result<Referee<'a>, Memory>
        requires reading { IsReading self }
        requires there { self.place < length self.entries.now }
        requires allowed { Allowed (setting self) (seen self) (get_or self.entries.now self.place (Register 0 0)) }
        requires taken { IsTaken self.choices (setting self) (seen self)
            (get_or self.entries.now self.place (Register 0 0)) }
        ensures reading { IfOk result IsReading }
        ensures terms { IfOk result (λ r. r.terms.now ≡ self.entry.terms.now) }
        ensures choices { IfOk result (λ r. r.choices ≡ self.entry.choices) }
        ensures entries { IfOk result (λ r. r.entries.now ≡ self.entry.entries.now) }
        ensures place { IfOk result (λ r. r.place ≡ self.entry.place + 1) }
    {
        let Referee {
            terms,
            choices,
            entries,
            place,
            mut book,
            load,
            mut holds,
            cursor,
        } = self;
        let entry = entries[place];
        let load = load_after(alloc, &book, load, &entry)?;
        let cursor = cursor_after(alloc, terms, cursor, &entry)?;
        note_hold(&mut holds, &entry);
        book.note(&entry);
        Ok(Referee {
            terms,
            choices,
            entries,
            place: place + 1,
            book,
            load,
            holds,
            cursor,
        })
    }

    /// Whether the query has a Register.
    pub fn is_registered(&self, q: u32) -> bool
        requires { IsReading self.now }
        ensures { result ≡ is_registered (seen self.now) q }
    {
        if q > 256 {
            return false;
        }
        has_begun(self.book.phase(q))
    }

    /// Whether the query's need names the worker.
    pub fn is_on(&self, q: u32, w: u32) -> bool
        ensures { result ≡ is_number w (worker_of (setting self.now) q) }
    {
        match worker_of(&self.terms.needs, q) {
            Some(v) => v == w,
            None => false,
        }
    }

    /// Whether the query is active.
    pub fn is_active(&self, q: u32) -> bool
        requires { IsReading self.now }
        ensures is { result ≡ is_active (seen self.now) q }
        ensures small { IsTrue result → q ≤ 256 }
    {
        if q > 256 {
            return false;
        }
        runs(self.book.phase(q))
    }

    // Whether the need is that of an active query of the worker.
    fn runs_on(&self, n: &Need, w: u32) -> bool
        requires { IsReading self.now }
        ensures { result ≡ (n.now.worker == w && is_active (seen self.now) n.now.query) }
    {
        n.worker == w && self.is_active(n.query)
    }

    // Whether some of the needs is that of an active query of the worker.
    fn some_runs_on(&self, needs: &[Need], w: u32) -> bool
        requires { IsReading self.now }
        ensures { result ≡ list_any (λ n. n.worker == w && is_active (seen self.now) n.query) needs.now }
    {
        needs.iter().any(|n| self.runs_on(n, w))
    }

    /// Whether some query of the worker is active.
    pub fn has_active(&self, w: u32) -> bool
        requires { IsReading self.now }
        ensures { result ≡ has_active (setting self.now) (seen self.now) w }
    {
        self.some_runs_on(&self.terms.needs, w)
    }

    /// The chunk that the worker holds, and for which query.
    pub fn held(&self, w: u32) -> Option<Hold>
        requires { IsReading self.now }
        ensures { result ≡ held_by (seen self.now) w }
    {
        held_in(&self.holds, w)
    }

    /// Whether the worker holds no chunk.
    pub fn holds_nothing(&self, w: u32) -> bool
        requires { IsReading self.now }
        ensures { result ≡ is_none (held_by (seen self.now) w) }
    {
        self.held(w).is_none()
    }

    /// Whether the worker holds the chunk for the query.
    pub fn holds(&self, w: u32, q: u32, c: u32) -> bool
        requires { IsReading self.now }
        ensures { result ≡ is_hold q c (held_by (seen self.now) w) }
    {
        match self.held(w) {
            Some(hold) => hold.query == q && hold.chunk == c,
            None => false,
        }
    }

    /// Whether the load underway, if any, is the worker's.
    pub fn loads(&self, w: u32) -> bool
        requires { IsReading self.now }
        ensures { result ≡ is_load_by w (underway (setting self.now) (seen self.now)) }
    {
        is_load_by(w, &self.load)
    }

    /// Whether no load is underway.
    pub fn is_quiet(&self) -> bool
        requires { IsReading self.now }
        ensures { result ≡ is_none (underway (setting self.now) (seen self.now)) }
    {
        self.load.is_none()
    }

    /// Whether the query is active, with fewer than two chunks available.
    pub fn is_starved(&self, q: u32) -> bool
        requires { IsReading self.now }
        ensures is { result ≡ is_starved (setting self.now) (seen self.now) q }
        ensures small { IsTrue result → q ≤ 256 }
    {
        if q > 256 {
            return false;
        }
        self.book.starved(q)
    }

    /// Whether the query is starved and needs a chunk that isn't wholly in frames for it, while no load is underway.
    pub fn is_trigger(&self, q: u32) -> bool
        requires { IsReading self.now }
        ensures { result ≡ is_trigger (setting self.now) (seen self.now) q }
    {
        if q > 256 {
            return false;
        }
        self.book.is_trigger(q)
    }

    /// Whether the query needs the chunk, and it isn't wholly in frames for the query.
    pub fn is_target(&self, q: u32, c: u32) -> bool
        requires reading { IsReading self.now }
        requires query { q ≤ 256 }
        ensures { result ≡ is_target (setting self.now) (seen self.now) q c }
    {
        self.book.is_target(q, c)
    }

    /// Whether the chunk is available to the query.
    pub fn is_ready(&self, q: u32, c: u32) -> bool
        requires reading { IsReading self.now }
        requires query { q ≤ 256 }
        ensures { result ≡ is_ready (setting self.now) (seen self.now) q c }
    {
        self.book.is_ready(q, c)
    }

    /// Whether the query needs no chunk.
    pub fn needs_nothing(&self, q: u32) -> bool
        requires reading { IsReading self.now }
        requires query { q ≤ 256 }
        ensures { result ≡ (needed (setting self.now) (seen self.now) q == 0) }
    {
        self.book.needed(q) == 0
    }

    /// Whether the frame is free.
    pub fn is_free(&self, f: u32) -> bool
        requires { IsReading self.now }
        ensures { result ≡ is_free (setting self.now) (seen self.now) f }
    {
        self.book.piece_in(f).is_none() && !fills_frame(f, &self.load)
    }
}
