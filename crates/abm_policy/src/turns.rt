//! A turn: what a worker's query is answered.
ghost use Rattle.std.specs.Prelude.{◌≡◌, ◌==◌, ◌<◌, ◌≤◌, ◌++◌, ◌∷◌, [], ℕ, true, false, is_some, IfSome, IfNone};
ghost use Rattle.scan_story.specs.declared.entry.Entry.TheVariants.{Deliver, End};
ghost use Rattle.scan_story.specs.Setting.{pieces_read};
ghost use Rattle.scan_story.specs.Views.{past, is_stopped, is_wholly_framed};
ghost use Rattle.scan_story.specs.Loads.{underway};
ghost use Rattle.scan_story.specs.Numbers.{needed};
ghost use Rattle.scan_story.specs.MayFollow.{IsActiveOn, IsIdle, MayEnd, is_ready};
ghost use Rattle.scan_story.specs.Legal.{Legal};
ghost use Rattle.abm_policy.specs.Loads.{pieces};
ghost use Rattle.abm_policy.specs.Depots.{depot_view};
ghost use Rattle.abm_policy.specs.Turns.{MayTurn, StandIn, row, row_of, Answers};

use crate::desk::{Desk, write};
use crate::turn::Turn;
use coop_outside::Depot;
use interest_book::Policy;
use scan_story::{Entry, Origin, Phase};
use table_sets::Slots;

impl<S: Origin, P: Policy, D: Depot> Desk<S, P, D> {
    fn is_stopped(&self, q: u32) -> bool
        requires query { q ≤ 256 }
        ensures { result ≡ is_stopped (past self.now) q }
    {
        self.book.phase(q) == Phase::Stopped
    }

    fn needs_nothing(&self, q: u32) -> bool
        requires query { q ≤ 256 }
        ensures { result ≡ (needed S.origin.setting (past self.now) q == 0) }
    {
        self.book.needed(q) == 0
    }

    fn is_loading(&self) -> bool
        ensures { result ≡ is_some (underway S.origin.setting (past self.now)) }
    {
        self.book.underway().is_some()
    }

    // Appends an End.
    fn end(&mut self, w: u32, q: u32)
        requires may { MayEnd S.origin.setting (past self.old) w q }
        ensures entries { self.new ≡ self.old ++ End w q ∷ [] }
        ensures legal { Legal S.origin.setting (past self.new) }
    {
        self.append(Entry::End {
            worker: w,
            query: q,
        });
    }

    // Appends a Deliver of the policy's choice, where a chunk is available to the query.
    fn deliver(&mut self, w: u32, q: u32) -> Option<u32>
        requires on { IsActiveOn S.origin.setting (past self.old) q w }
        requires idle { IsIdle S.origin.setting (past self.old) w }
        ensures none { IfNone result ((self.new ≡ self.old)
            × ((c : ℕ) → is_ready S.origin.setting (past self.old) q c ≡ false)) }
        ensures legal { Legal S.origin.setting (past self.new) }
        ensures some { IfSome result (λ c. (self.new ≡ self.old ++ Deliver w q c ∷ [])
            × (is_ready S.origin.setting (past self.old) q c ≡ true)) }
    {
        match self.policy.pick_delivery(&*self.book, q) {
            None => None,
            Some(chunk) => {
                let entry = Entry::Deliver {
                    worker: w,
                    query: q,
                    chunk,
                };
                write::<S>(&mut self.book, &mut self.story, entry);
                Some(chunk)
            }
        }
    }

    // The frames in which the pieces of the chunk stand that the query reads.
    fn slots_of(&self, q: u32, c: u32) -> Slots
        requires query { q ≤ 256 }
        requires chunk { c < 1024 }
        requires framed { is_wholly_framed S.origin.setting (past self.now) q c ≡ true }
        ensures read { pieces result ≡ pieces_read S.origin.setting q c }
        ensures frames { StandIn S.origin.setting (past self.now) result }
    {
        let read = self.book.pieces_read(q, c);
        let mut slots = Slots::new();
        for i in 0..read.len() {
            let piece = read.at(i);
            let Some(frame) = self.book.frame_of(piece) else {
                unreachable!()
            };
            slots.push(frame, piece);
        }
        slots
    }

    /// Answers the worker's query by the first row of the table of turns that fits, and appends what the row says.
    ///
    /// | Answer | Where | Appended |
    /// |---|---|---|
    /// | `Stopped` | the story stopped the query; the cause is its first | nothing |
    /// | `Finished` | the query needs nothing | End |
    /// | `Take` | a chunk that it needs is available | Deliver of the policy's choice |
    /// | `NotYet` | another worker's load is underway | nothing |
    /// | `Load` | otherwise | Plan, Evicts until the frames suffice, a Fill for each missing piece |
    ///
    /// The query is registered on the worker and has not ended, and the worker holds nothing and loads nothing.
    pub fn turn(&mut self, w: u32, q: u32) -> Turn<D>
        requires may { MayTurn S.origin.setting (past self.old) w q }
        ensures row { row_of result ≡ row S.origin.setting (past self.old) q }
        ensures answer { Answers (λ d. depot_view (D.held d) (D.gets d) (D.faults d)) S.origin w q self.old self.new
            result }
        ensures legal { Legal S.origin.setting (past self.new) }
    {
        self.kept();
        if self.is_stopped(q) {
            let Some(cause) = self.cause(q) else {
                unreachable!()
            };
            return Turn::Stopped(cause);
        }
        if self.needs_nothing(q) {
            self.end(w, q);
            return Turn::Finished;
        }
        if let Some(chunk) = self.deliver(w, q) {
            let slots = self.slots_of(q, chunk);
            return Turn::Take { chunk, slots };
        }
        if self.is_loading() {
            return Turn::NotYet;
        }
        let (ticket, depot) = self.load(w, q);
        Turn::Load(ticket, depot)
    }
}
