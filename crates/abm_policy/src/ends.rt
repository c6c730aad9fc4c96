//! A load ends: each of its pieces was filled, or one of them failed.
ghost use Rattle.std.specs.Prelude.{◌≡◌, ◌+◌, ◌<◌, ◌≤◌, ◌++◌, ◌∷◌, [], ℕ, Bool, true};
ghost use Rattle.std.specs.Prelude.{false, None, Some, length, take, slice_index};
ghost use Rattle.std.specs.Option.{option_map};
ghost use Rattle.scan_story.specs.declared.entry.Entry.TheVariants.{Filled, Failed};
ghost use Rattle.scan_story.specs.declared.view.Load.{Load};
ghost use Rattle.scan_story.specs.Views.{past};
ghost use Rattle.scan_story.specs.Loads.{underway, end_fill};
ghost use Rattle.scan_story.specs.Legal.{Legal};
ghost use Rattle.scan_story.specs.Spent.{reads};
ghost use Rattle.scan_story.specs.Causes.{last_fault};
ghost use Rattle.story_laws.specs.Lists.{NoneTwice};
ghost use Rattle.abm_policy.specs.Loads.{load_at, load_of, pieces, all_filled, MayFinish};
ghost use Rattle.abm_policy.specs.Depots.{depot_view, ComesBack, MayReport};
ghost use Rattle.abm_policy.specs.Turns.{RunsOn, MayTurn};

use crate::desk::{Desk, write};
use crate::ticket::Ticket;
use coop_outside::Depot;
use interest_book::Policy;
use scan_story::{Entry, Origin, Why};
use table_sets::Slots;

impl<S: Origin, P: Policy, D: Depot> Desk<S, P, D> {
    // Appends a Filled that isn't the last of the load.
    fn finish_one(&mut self, w: u32, frame: u32, piece: u32)
        requires may { MayFinish (underway S.origin.setting (past self.old)) w frame piece true }
        ensures entries { self.new ≡ self.old ++ Filled w frame piece ∷ [] }
        ensures load { underway S.origin.setting (past self.new)
            ≡ option_map (end_fill piece) (underway S.origin.setting (past self.old)) }
        ensures reads { reads (past self.new) ≡ reads (past self.old) + 1 }
        ensures last_fault { last_fault S.origin.faults (past self.new) ≡ last_fault S.origin.faults (past self.old) }
    {
        let entry = Entry::Filled {
            worker: w,
            frame,
            piece,
        };
        write::<S>(&mut self.book, &mut self.story, entry);
    }

    // Appends the load's last Filled, and takes the depot back.
    fn finish_last(&mut self, w: u32, frame: u32, piece: u32, depot: D)
        requires load { MayFinish (underway S.origin.setting (past self.old)) w frame piece false }
        requires depot { ComesBack S.origin (past self.old) 1
            (depot_view (D.held depot) (D.gets depot) (D.faults depot)) }
        ensures entries { self.new ≡ self.old ++ Filled w frame piece ∷ [] }
        ensures closed { underway S.origin.setting (past self.new) ≡ None }
        ensures legal { Legal S.origin.setting (past self.new) }
    {
        let entry = Entry::Filled {
            worker: w,
            frame,
            piece,
        };
        write::<S>(&mut self.book, &mut self.story, entry);
        self.depot = Some(depot);
    }

    // Appends the load's Failed, and takes the depot back.
    fn fail_one(&mut self, w: u32, frame: u32, query: u32, piece: u32, why: Why, depot: D)
        requires load { (open_after : Bool) × MayFinish (underway S.origin.setting (past self.old)) w frame piece
            open_after }
        requires query { (l : Load) → underway S.origin.setting (past self.old) ≡ Some l → l.query ≡ query }
        requires depot { ComesBack S.origin (past self.old) 1
            (depot_view (D.held depot) (D.gets depot) (D.faults depot)) }
        requires why { MayReport S.origin (past self.old) (D.faults depot) why }
        ensures entries { self.new ≡ self.old ++ Failed w query piece why ∷ [] }
        ensures closed { underway S.origin.setting (past self.new) ≡ None }
        ensures legal { Legal S.origin.setting (past self.new) }
    {
        let _frame = frame;
        let entry = Entry::Failed {
            worker: w,
            query,
            piece,
            why,
        };
        write::<S>(&mut self.book, &mut self.story, entry);
        self.depot = Some(depot);
    }

    // Appends a Filled for each of the first slots, which aren't all.
    fn finish_first(&mut self, w: u32, query: u32, chunk: u32, slots: &Slots, n: u32)
        requires load { underway S.origin.setting (past self.old)
            ≡ Some (load_at w query chunk (pieces slots.now) slots.now []) }
        requires none_twice { NoneTwice (pieces slots.now) }
        requires some_left { n < length slots.now }
        ensures entries { self.new ≡ self.old ++ all_filled w (take n slots.now) }
        ensures load { underway S.origin.setting (past self.new)
            ≡ Some (load_at w query chunk (pieces slots.now) slots.now (take n (pieces slots.now))) }
        ensures reads { reads (past self.new) ≡ reads (past self.old) + n }
        ensures last_fault { last_fault S.origin.faults (past self.new) ≡ last_fault S.origin.faults (past self.old) }
    {
        let _query = query;
        let _chunk = chunk;
        for i in 0..n {
            let (frame, piece) = slots.at(i);
            self.finish_one(w, frame, piece);
        }
    }

    /// Ends the ticket's load: each of its slots' pieces was read and now stands in the slot's frame. It appends a
    /// Filled for each slot, in their order, and takes the depot back.
    ///
    /// The load underway is the ticket's. The depot holds what the origin says, had one get for each read in the story
    /// and for each slot besides, and its count of faults is at least the last one in the story.
    pub fn filled(&mut self, ticket: Ticket, depot: D)
        requires load { underway S.origin.setting (past self.old) ≡ Some (load_of ticket []) }
        requires depot { ComesBack S.origin (past self.old) (length ticket.slots)
            (depot_view (D.held depot) (D.gets depot) (D.faults depot)) }
        ensures entries { self.new ≡ self.old ++ all_filled ticket.worker ticket.slots }
        ensures closed { underway S.origin.setting (past self.new) ≡ None }
        ensures legal { Legal S.origin.setting (past self.new) }
        ensures may { (q : ℕ) → RunsOn S.origin.setting (past self.old) q ticket.worker
            → MayTurn S.origin.setting (past self.new) ticket.worker q }
    {
        self.kept();
        let Ticket {
            worker,
            query,
            chunk,
            slots,
        } = ticket;
        let last = slots.len() - 1;
        self.finish_first(worker, query, chunk, &slots, last);
        let (frame, piece) = slots.at(last);
        self.finish_last(worker, frame, piece, depot);
    }

    /// Ends the ticket's load: the pieces of its first `done` slots were read, and that of the next one wasn't, or is
    /// damaged. It appends a Filled for each of the first and a Failed for the next, which stops the load's query where
    /// it is active, and takes the depot back.
    ///
    /// The load underway is the ticket's. The depot holds what the origin says, had one get for each read in the story
    /// and `done + 1` besides, and its count of faults is at least the last one in the story. A fault's counts lie
    /// between that one and the depot's, the first below the second, or both at 2^64 - 1. Damage is reported only of a
    /// depot that doesn't tell what it holds.
    pub fn failed(&mut self, ticket: Ticket, depot: D, done: u32, why: Why)
        requires load { underway S.origin.setting (past self.old) ≡ Some (load_of ticket []) }
        requires done { done < length ticket.slots }
        requires depot { ComesBack S.origin (past self.old) (done + 1)
            (depot_view (D.held depot) (D.gets depot) (D.faults depot)) }
        requires why { MayReport S.origin (past self.old) (D.faults depot) why }
        ensures entries { self.new ≡ self.old ++ (all_filled ticket.worker (take done ticket.slots)
            ++ Failed ticket.worker ticket.query (slice_index (pieces ticket.slots) done) why ∷ []) }
        ensures closed { underway S.origin.setting (past self.new) ≡ None }
        ensures legal { Legal S.origin.setting (past self.new) }
        ensures may { (q : ℕ) → RunsOn S.origin.setting (past self.old) q ticket.worker
            → MayTurn S.origin.setting (past self.new) ticket.worker q }
    {
        self.kept();
        let Ticket {
            worker,
            query,
            chunk,
            slots,
        } = ticket;
        self.finish_first(worker, query, chunk, &slots, done);
        let (frame, piece) = slots.at(done);
        self.fail_one(worker, frame, query, piece, why, depot);
    }
}
