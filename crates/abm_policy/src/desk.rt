//! The desk: a story that is kept legal, with the book that stands for it.
ghost use Rattle.std.specs.Prelude.{◌≡◌, ◌<◌, ◌++◌, ◌∷◌, [], is_some, None, Some, IfOk, IfErr, length};
ghost use Rattle.scan_story.specs.declared.entry.Entry.TheVariants.{Register, Release, Stop};
ghost use Rattle.scan_story.specs.declared.view.Load.{Load};
ghost use Rattle.scan_story.specs.Setting.{IsStart};
ghost use Rattle.scan_story.specs.Views.{past, is_stopped, held_by};
ghost use Rattle.scan_story.specs.Loads.{underway};
ghost use Rattle.scan_story.specs.MayFollow.{Allowed, MayRegister, MayStop};
ghost use Rattle.scan_story.specs.Legal.{Legal, cursor_at};
ghost use Rattle.scan_story.specs.Whole.{Undisturbed};
ghost use Rattle.scan_story.specs.Causes.{cause_of};
ghost use Rattle.story_laws.specs.Lists.{NoneTwice};
ghost use Rattle.story_laws.specs.Every.{MayCome};
ghost use Rattle.story_laws.specs.Bounds.{LoadsArePaid, WholeLoadLittle, IsShort};
ghost use Rattle.story_laws.specs.Victims.{VictimsWereFar};
ghost use Rattle.interest_book.specs.Stands.{Stands};
ghost use Rattle.abm_policy.specs.Depots.{depot_view, Agrees};
ghost use Rattle.abm_policy.specs.Sound.{setting_of, start_of, IsWritten};
ghost use Rattle.abm_policy.specs.Turns.{RunsOn, MayTurn};
ghost use Rattle.abm_policy.specs.Plain.{IsPlain};

use crate::cause::first_cause;
use crate::room::room_for;
use coop_outside::Depot;
use interest_book::{Book, Need, Policy};
use scan_story::{Cause, Entry, Memory, Origin, Storied, Story};
use std::alloc::Global;
use std::marker::{Model, PhantomData};

/// A story of scans, the book that stands for it, the policy that chooses, and the depot unless a ticket is out.
///
/// Contracts see the story, the oldest entry first. The type keeps that the story is legal in the setting of the origin
/// `S`, that the policy has the setting's name and the cursor that the story gives it, and that no call but `new` takes
/// memory. While no load is underway the depot is here: it holds what the origin says, its gets rose by one for each
/// Filled and Failed of the story, and the story is licensed between the origin's count of faults and the depot's.
#[derive(Drop)]
pub struct Desk<S: Origin, P: Policy, D: Depot> {
    // On the heap, so that a desk is small where it is handed on.
    pub(crate) book: Box<Book>,
    pub(crate) story: Story,
    pub(crate) policy: P,
    pub(crate) depot: Option<D>,
    origin: PhantomData<S>,
}

impl<S: Origin, P: Policy, D: Depot> Model for Desk<S, P, D> {
    ghost use Rattle.std.specs.Prelude.{List};
    ghost use Rattle.std.specs.Option.{option_map};
    ghost use Rattle.scan_story.specs.declared.entry.Entry.{Entry};
    ghost use Rattle.abm_policy.specs.Depots.{depot_view};
    ghost use Rattle.abm_policy.specs.Sound.{IsSound};

    ghost Value = { List Entry };

    ghost view = { λ d. d.story.entries };

    ghost invariant = { λ d. IsSound S.origin (P.name d.policy) (P.cursor d.policy) d.book.value d.story
        (option_map (λ x. depot_view (D.held x) (D.gets x) (D.faults x)) d.depot) };
}

impl<S: Origin, P: Policy, D: Depot> Storied for Desk<S, P, D> {
    ghost origin = { λ _. S.origin };

    ghost story = { λ d. d };
}

// Notes the entry in the book and appends it to the story, which has room for each entry that may come.
pub(crate) fn write<S: Origin>(book: &mut Box<Book>, story: &mut Story, entry: Entry)
    requires start { IsStart S.origin }
    requires written { IsWritten S.origin.setting book.old.value story.old }
    requires may { MayCome S.origin.setting (past story.old.entries) entry }
    ensures written { IsWritten S.origin.setting book.new.value story.new }
    ensures entries { story.new.entries ≡ story.old.entries ++ entry ∷ [] }
{
    book.note(&entry);
    story.push(entry);
}

impl<S: Origin, P: Policy, D: Depot> Desk<S, P, D> {
    /// A desk for these needs, with no entry yet. It takes all memory that the desk ever needs.
    ///
    /// The needs, chunks, workers, frames and groups are those that a book may be made for; there are at least
    /// `frames_needed` frames, and the depot had at most 2^63 gets. They, the policy and the depot as they are now make
    /// the origin. `Memory` hands the policy and the depot back.
    pub fn new(
        alloc: Global,
        needs: Vec<Need>,
        chunks: u32,
        workers: u32,
        frames: u32,
        groups: u32,
        policy: P,
        depot: D,
    ) -> Result<Desk<S, P, D>, (P, D, Memory)>
        requires start { IsStart S.origin }
        requires setting { S.origin.setting ≡ setting_of needs.items chunks workers frames groups (P.name policy)
            (P.cursor policy) }
        requires depot { S.origin ≡ start_of S.origin.setting
            (depot_view (D.held depot) (D.gets depot) (D.faults depot)) }
        ensures empty { IfOk result (λ d. d ≡ []) }
        ensures back { IfErr result (λ r. (r.0 ≡ policy) × (r.1 ≡ depot)) }
    {
        let Ok(story) = Story::with_room(alloc, room_for(&needs, groups)) else {
            return Err((policy, depot, Memory));
        };
        let Ok(book) = Book::new(alloc, needs, chunks, workers, frames, groups) else {
            return Err((policy, depot, Memory));
        };
        let Ok(book) = Box::new(alloc, book) else {
            return Err((policy, depot, Memory));
        };
        Ok(Desk {
            book,
            story,
            policy,
            depot: Some(depot),
            origin: PhantomData,
        })
    }

    /// The book of the story so far.
    pub fn book(&self) -> &Book
        ensures stands { Stands result.now S.origin.setting (past self.now) }
        ensures legal { Legal S.origin.setting (past self.now) }
        ensures start { IsStart S.origin }
    {
        &*self.book
    }

    /// The story is legal, and the origin is one for a desk: a law. It does nothing.
    pub fn is_legal(&self)
        ensures start { IsStart S.origin }
        ensures legal { Legal S.origin.setting (past self.now) }
    {
        self.kept();
    }

    // Tells what the type keeps: the story is legal, and a load that is underway misses some piece, and none twice.
    pub(crate) fn kept(&self)
        ensures start { IsStart S.origin }
        ensures legal { Legal S.origin.setting (past self.now) }
        ensures missing { (l : Load) → underway S.origin.setting (past self.now) ≡ Some l → (0 < length l.missing)
            × NoneTwice l.missing }
    {
        let _book = &*self.book;
    }

    // Appends an entry that is no pick and touches neither a load nor the depot.
    pub(crate) fn append(&mut self, entry: Entry)
        requires may { Allowed S.origin.setting (past self.old) entry }
        requires plain { IsPlain entry }
        ensures entries { self.new ≡ self.old ++ entry ∷ [] }
        ensures legal { Legal S.origin.setting (past self.new) }
    {
        write::<S>(&mut self.book, &mut self.story, entry);
    }

    /// Appends a Register: from here on the query is active on the worker. It was never registered, its need names the
    /// worker, and the worker has no active query, holds nothing and loads nothing.
    pub fn register(&mut self, w: u32, q: u32)
        requires may { MayRegister S.origin.setting (past self.old) w q }
        ensures entries { self.new ≡ self.old ++ Register w q ∷ [] }
        ensures legal { Legal S.origin.setting (past self.new) }
        ensures may { MayTurn S.origin.setting (past self.new) w q }
    {
        self.append(Entry::Register {
            worker: w,
            query: q,
        });
    }

    /// Appends a Release of the chunk that the worker holds for the query.
    pub fn release(&mut self, w: u32, q: u32, c: u32)
        requires holds { held_by (past self.old) w ≡ Some (record { query = q; chunk = c }) }
        ensures entries { self.new ≡ self.old ++ Release w q c ∷ [] }
        ensures legal { Legal S.origin.setting (past self.new) }
        ensures may { RunsOn S.origin.setting (past self.old) q w → MayTurn S.origin.setting (past self.new) w q }
    {
        self.append(Entry::Release {
            worker: w,
            query: q,
            chunk: c,
        });
    }

    /// Appends a Stop: the query, which is active on the worker, is given up when out of memory. The worker holds
    /// nothing and loads nothing.
    pub fn stop(&mut self, w: u32, q: u32)
        requires may { MayStop S.origin.setting (past self.old) w q }
        ensures entries { self.new ≡ self.old ++ Stop w q ∷ [] }
        ensures legal { Legal S.origin.setting (past self.new) }
    {
        self.append(Entry::Stop {
            worker: w,
            query: q,
        });
    }

    /// Why the query was stopped, as the first entry that stops it says; `None` exactly where it isn't stopped.
    ///
    /// `q` may be any number, also one that is no query's. The story is read from its beginning.
    pub fn cause(&self, q: u32) -> Option<Cause>
        ensures cause { result ≡ cause_of (past self.now) q }
        ensures exactly { is_some result ≡ is_stopped (past self.now) q }
    {
        first_cause(self.story.entries(), q)
    }

    /// Takes the desk apart, while no load is underway: its story, the policy at the story's cursor, and the depot.
    ///
    /// The story loaded no more than is paid for by its deliveries, its stopped queries and what is still available,
    /// and a whole one without stopped queries no more than separate scans would. Each victim was close to no query,
    /// and no chunk was evicted or filled over while a worker held it.
    pub fn into_parts(self) -> (Vec<Entry>, P, D)
        requires idle { underway S.origin.setting (past self) ≡ None }
        ensures entries { result.0.items ≡ self }
        ensures legal { Legal S.origin.setting (past self) }
        ensures paid { LoadsArePaid S.origin.setting (past self) }
        ensures little { WholeLoadLittle S.origin.setting (past self) }
        ensures short { IsShort S.origin.setting (past self) }
        ensures far { VictimsWereFar S.origin.setting (past self) }
        ensures undisturbed { Undisturbed S.origin.setting (past self) }
        ensures name { P.name result.1 ≡ S.origin.setting.policy }
        ensures cursor { P.cursor result.1 ≡ cursor_at S.origin.setting (past self) }
        ensures depot { Agrees S.origin (past self)
            (depot_view (D.held result.2) (D.gets result.2) (D.faults result.2)) }
    {
        let Desk {
            book: _,
            story,
            policy,
            depot,
            origin: _,
        } = self;
        let Some(depot) = depot else { unreachable!() };
        (story.into_entries(), policy, depot)
    }
}
