//! A load begins: a Plan, room for it, and a Fill for each missing piece.
ghost use Rattle.std.specs.Prelude.{◌≡◌, ◌+◌, ◌-◌, ◌^◌, ◌<◌, ◌≤◌, ◌++◌, ◌∷◌, [], true, Some, length};
ghost use Rattle.std.specs.Option.{option_map};
ghost use Rattle.scan_story.specs.declared.entry.Entry.TheVariants.{Plan, Fill};
ghost use Rattle.scan_story.specs.Views.{past};
ghost use Rattle.scan_story.specs.Loads.{underway, missing_pieces, begin_fill, is_free, free_frames};
ghost use Rattle.scan_story.specs.MayFollow.{is_trigger};
ghost use Rattle.scan_story.specs.Legal.{Legal};
ghost use Rattle.story_laws.specs.Lists.{NoneTwice};
ghost use Rattle.interest_book.specs.Firsts.{IsFirst};
ghost use Rattle.abm_policy.specs.Loads.{load_at, pieces, fills, AddsEvicts, AddsLoad};
ghost use Rattle.abm_policy.specs.Loads.{AreLeastFills, IsUnbegun, MayBegin};
ghost use Rattle.abm_policy.specs.Depots.{depot_view, Agrees, IsHandedOut};
ghost use Rattle.abm_policy.specs.Turns.{MayTurn};

use crate::desk::{Desk, write};
use crate::ticket::Ticket;
use coop_outside::Depot;
use interest_book::{Pieces, Policy};
use scan_story::{Entry, Origin};
use table_sets::Slots;

// A load that was planned: for which query, which chunk, its missing pieces, and the depot to read them from.
struct Planned<D> {
    query: u32,
    chunk: u32,
    missing: Pieces,
    depot: D,
}

impl<S: Origin, P: Policy, D: Depot> Desk<S, P, D> {
    // Appends a Plan of the policy's choice, and takes the depot.
    fn plan(&mut self, w: u32, q: u32) -> Planned<D>
        requires may { MayTurn S.origin.setting (past self.old) w q }
        requires trigger { is_trigger S.origin.setting (past self.old) q ≡ true }
        ensures entries { self.new ≡ self.old ++ Plan w result.query result.chunk ∷ [] }
        ensures load { underway S.origin.setting (past self.new)
            ≡ Some (load_at w result.query result.chunk result.missing [] []) }
        ensures missing { result.missing ≡ missing_pieces S.origin.setting (past self.old) result.query result.chunk }
        ensures none_twice { NoneTwice result.missing }
        ensures depot { Agrees S.origin (past self.new)
            (depot_view (D.held result.depot) (D.gets result.depot) (D.faults result.depot)) }
        ensures room { D.gets result.depot + 16 ≤ 2 ^ 64 - 1 }
    {
        let Some(query) = self.policy.pick_query(&*self.book) else {
            unreachable!()
        };
        let Some(chunk) = self.policy.pick_load(&*self.book, query) else {
            unreachable!()
        };
        let missing = self.book.missing_pieces(query, chunk);
        let Some(depot) = self.depot.take() else {
            unreachable!()
        };
        let entry = Entry::Plan {
            worker: w,
            query,
            chunk,
        };
        write::<S>(&mut self.book, &mut self.story, entry);
        Planned {
            query,
            chunk,
            missing,
            depot,
        }
    }

    fn free_frames(&self) -> u32
        ensures { result ≡ free_frames S.origin.setting (past self.now) }
    {
        self.book.free_frames()
    }

    // Appends an Evict of the policy's choice, where fewer frames are free than the load needs.
    fn evict(&mut self, w: u32, need: u32)
        requires load { IsUnbegun (underway S.origin.setting (past self.old)) w need }
        requires few { free_frames S.origin.setting (past self.old) < need }
        ensures entries { AddsEvicts w self.old self.new }
        ensures load { underway S.origin.setting (past self.new) ≡ underway S.origin.setting (past self.old) }
        ensures frees { free_frames S.origin.setting (past self.old) < free_frames S.origin.setting (past self.new) }
    {
        let _need = need;
        let Some(chunk) = self.policy.pick_victim(&*self.book) else {
            unreachable!()
        };
        write::<S>(
            &mut self.book,
            &mut self.story,
            Entry::Evict { worker: w, chunk },
        );
    }

    // Evicts until as many frames are free as the load needs.
    fn make_room(&mut self, w: u32, need: u32)
        requires load { IsUnbegun (underway S.origin.setting (past self.old)) w need }
        ensures entries { AddsEvicts w self.old self.new }
        ensures load { underway S.origin.setting (past self.new) ≡ underway S.origin.setting (past self.old) }
        ensures room { need ≤ free_frames S.origin.setting (past self.new) }
    {
        while self.free_frames() < need {
            self.evict(w, need);
        }
    }

    // Appends a Fill of the piece into the free frame of least number, and answers that frame.
    fn begin_fill(&mut self, w: u32, piece: u32) -> u32
        requires may { MayBegin (underway S.origin.setting (past self.old))
            (free_frames S.origin.setting (past self.old)) w piece }
        ensures entries { self.new ≡ self.old ++ Fill w result piece ∷ [] }
        ensures load { underway S.origin.setting (past self.new)
            ≡ option_map (begin_fill result piece) (underway S.origin.setting (past self.old)) }
        ensures frame { IsFirst (is_free S.origin.setting (past self.old)) S.origin.setting.frames result }
        ensures free { free_frames S.origin.setting (past self.old) ≤ free_frames S.origin.setting (past self.new) + 1 }
    {
        let Some(frame) = self.book.least_free() else {
            unreachable!()
        };
        let entry = Entry::Fill {
            worker: w,
            frame,
            piece,
        };
        write::<S>(&mut self.book, &mut self.story, entry);
        frame
    }

    // Appends a Fill for each missing piece.
    fn begin_fills(&mut self, w: u32, query: u32, chunk: u32, missing: &Pieces) -> Slots
        requires load { underway S.origin.setting (past self.old) ≡ Some (load_at w query chunk missing.now [] []) }
        requires none_twice { NoneTwice missing.now }
        requires enough { length missing.now ≤ free_frames S.origin.setting (past self.old) }
        ensures entries { self.new ≡ self.old ++ fills w result }
        ensures pieces { pieces result ≡ missing.now }
        ensures load { underway S.origin.setting (past self.new) ≡ Some (load_at w query chunk missing.now result []) }
        ensures least { AreLeastFills S.origin.setting (past self.old) w result }
    {
        let _query = query;
        let _chunk = chunk;
        let mut slots = Slots::new();
        for i in 0..missing.len() {
            let piece = missing.at(i);
            let frame = self.begin_fill(w, piece);
            slots.push(frame, piece);
        }
        slots
    }

    // Begins a load of the policy's choice, and hands the depot out with its ticket.
    pub(crate) fn load(&mut self, w: u32, q: u32) -> (Ticket, D)
        requires may { MayTurn S.origin.setting (past self.old) w q }
        requires trigger { is_trigger S.origin.setting (past self.old) q ≡ true }
        ensures load { AddsLoad S.origin.setting w result.0 self.old self.new }
        ensures depot { IsHandedOut S.origin (past self.new) (length result.0.slots)
            (depot_view (D.held result.1) (D.gets result.1) (D.faults result.1)) }
        ensures legal { Legal S.origin.setting (past self.new) }
    {
        let Planned {
            query,
            chunk,
            missing,
            depot,
        } = self.plan(w, q);
        self.make_room(w, missing.len());
        let slots = self.begin_fills(w, query, chunk, &missing);
        self.kept();
        let ticket = Ticket {
            worker: w,
            query,
            chunk,
            slots,
        };
        (ticket, depot)
    }
}
