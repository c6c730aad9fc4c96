//! A desk on trial.
ghost use Rattle.std.specs.Prelude.{◌≡◌, ◌<◌, ◌≤◌, None, IfSome, IsTrue};
ghost use Rattle.scan_story.specs.Setting.{HasRoom};
ghost use Rattle.scan_story.specs.Views.{past, held_by};
ghost use Rattle.scan_story.specs.Loads.{is_load_by, underway};
ghost use Rattle.abm_policy.specs.Turns.{RunsOn, MayTurn};
ghost use Rattle.abm_policy.specs.Depots.{depot_view};
ghost use Rattle.abm_policy.specs.Sound.{start_of};
ghost use Rattle.trial_desk.specs.Rigged.{under};

use crate::next::{is_active, may_register, next_on};
use crate::out::Out;
use crate::reading::read_slots;
use crate::said::Said;
use crate::seat::{EMPTY, Seat};
use abm_policy::{Desk, Ticket, Turn, frames_needed};
use coop_outside::SpoiltDepot;
use help_book::{book_needs, has_numbers};
use interest_book::Memory;
use relevance::Policy;
use scan_story::{Entry, Hold, Origin, Setting};
use std::alloc::Global;
use std::marker::Model;

/// A desk, what is remembered of each worker, and the load that is out. Each call asks the desk only for what may come,
/// and answers `None` where it may not.
#[derive(Drop)]
pub struct Rig<S: Origin, P: Policy> {
    desk: Desk<S, P, SpoiltDepot>,
    seats: [Seat; 32],
    out: Option<Out>,
}

impl<S: Origin, P: Policy> Model for Rig<S, P> {
    ghost use Rattle.std.specs.Prelude.{List};
    ghost use Rattle.scan_story.specs.declared.entry.Entry.{Entry};
    ghost use Rattle.trial_desk.specs.Rigged.{IsRigged};

    ghost Value = { List Entry };

    ghost view = { λ r. r.desk };

    ghost invariant = { λ r. IsRigged S.origin r.desk r.seats r.out };
}

// Whether the frames are enough.
fn has_room(s: &Setting) -> bool
    requires workers { s.now.workers ≤ 32 }
    requires groups { s.now.groups ≤ 16 }
    ensures { IsTrue result → HasRoom s.now }
{
    frames_needed(s.workers, s.groups) <= s.frames as u64
}

impl<S: Origin, P: Policy> Rig<S, P> {
    /// A desk before its first entry; `None` where there can be none for the setting.
    pub fn new(
        alloc: Global,
        s: &Setting,
        policy: P,
        depot: SpoiltDepot,
    ) -> Result<Option<Rig<S, P>>, Memory>
        requires { S.origin ≡ start_of (under s.now (P.name policy) (P.cursor policy))
            (depot_view None depot.inner.gets depot.inner.faults) }
    {
        if !has_numbers(s) {
            return Ok(None);
        }
        if !has_room(s) {
            return Ok(None);
        }
        if depot.inner.gets > 1 << 63 {
            return Ok(None);
        }
        let Some(needs) = book_needs(alloc, s)? else {
            return Ok(None);
        };
        match Desk::<S, P, SpoiltDepot>::new(
            alloc, needs, s.chunks, s.workers, s.frames, s.groups, policy, depot,
        ) {
            Ok(desk) => {
                return Ok(Some(Rig {
                    desk,
                    seats: [EMPTY; 32],
                    out: None,
                }));
            }
            Err(_parts) => return Err(Memory),
        }
    }

    /// The query that runs on the worker.
    pub fn on(&self, w: u32) -> Option<u32>
        ensures { IfSome result (λ q. RunsOn S.origin.setting (past self.now) q w) }
    {
        if w < 32 {
            self.seats[w as usize].on
        } else {
            None
        }
    }

    /// What the worker holds.
    pub fn holds(&self, w: u32) -> Option<Hold>
        ensures { w < 32 → result ≡ held_by (past self.now) w }
    {
        if w < 32 {
            self.seats[w as usize].holds
        } else {
            None
        }
    }

    /// Whether the worker's load is underway.
    pub fn loads(&self, w: u32) -> bool
        ensures { result ≡ is_load_by w (underway S.origin.setting (past self.now)) }
    {
        match &self.out {
            Some(out) => out.worker == w,
            None => false,
        }
    }

    /// The first query of the worker that was never registered.
    pub fn next_on(&self, s: &Setting, w: u32) -> Option<u32> {
        next_on(s, self.desk.book(), w)
    }

    /// Registers the query on the worker.
    pub fn register(&mut self, s: &Setting, w: u32, q: u32) -> Option<Said>
        requires { s.now.needs ≡ S.origin.setting.needs }
    {
        if w >= 32 {
            return None;
        }
        if q > 256 {
            return None;
        }
        if self.holds(w).is_some() {
            return None;
        }
        if self.loads(w) {
            return None;
        }
        if !may_register(s, self.desk.book(), w, q) {
            return None;
        }
        self.desk.register(w, q);
        self.seats[w as usize] = Seat {
            on: Some(q),
            holds: None,
        };
        Some(Said::Registered {
            worker: w,
            query: q,
        })
    }

    /// Releases what the worker holds.
    pub fn release(&mut self, w: u32) -> Option<Said> {
        if w >= 32 {
            return None;
        }
        let seat = self.seats[w as usize];
        let Some(hold) = seat.holds else { return None };
        self.desk.release(w, hold.query, hold.chunk);
        self.seats[w as usize] = Seat {
            on: seat.on,
            holds: None,
        };
        Some(Said::Released {
            worker: w,
            query: hold.query,
            chunk: hold.chunk,
        })
    }

    /// Gives up the query that runs on the worker, where it is active.
    pub fn stop(&mut self, w: u32) -> Option<Said> {
        let Some(q) = self.ready(w) else { return None };
        if q > 256 {
            return None;
        }
        if !is_active(self.desk.book(), q) {
            return None;
        }
        self.desk.stop(w, q);
        Some(Said::GaveUp {
            worker: w,
            query: q,
        })
    }

    // The query that runs on the worker, where that holds and loads nothing.
    fn ready(&self, w: u32) -> Option<u32>
        ensures worker { IfSome result (λ q. w < 32) }
        ensures turn { IfSome result (λ q. MayTurn S.origin.setting (past self.now) w q) }
    {
        if w >= 32 {
            return None;
        }
        if self.holds(w).is_some() {
            return None;
        }
        if self.loads(w) {
            return None;
        }
        self.on(w)
    }

    /// Takes a turn for the query that runs on the worker.
    pub fn turn(&mut self, w: u32) -> Option<Said> {
        let Some(q) = self.ready(w) else { return None };
        match self.desk.turn(w, q) {
            Turn::Take { chunk, slots } => {
                self.seats[w as usize] = Seat {
                    on: Some(q),
                    holds: Some(Hold { query: q, chunk }),
                };
                return Some(Said::Took {
                    worker: w,
                    query: q,
                    chunk,
                    slots,
                });
            }
            Turn::Load(ticket, depot) => {
                let Ticket {
                    worker,
                    query,
                    chunk,
                    slots,
                } = ticket;
                let said = Said::Loads {
                    worker: w,
                    query: q,
                    trigger: query,
                    chunk,
                    slots: slots.copy(),
                };
                self.out = Some(Out {
                    worker,
                    query,
                    chunk,
                    slots,
                    depot,
                });
                return Some(said);
            }
            Turn::NotYet => {
                return Some(Said::NotYet {
                    worker: w,
                    query: q,
                });
            }
            Turn::Finished => {
                self.seats[w as usize] = EMPTY;
                return Some(Said::Finished {
                    worker: w,
                    query: q,
                });
            }
            Turn::Stopped(cause) => {
                self.seats[w as usize] = EMPTY;
                return Some(Said::Stopped {
                    worker: w,
                    query: q,
                    cause,
                });
            }
        }
    }

    /// Reads the pieces of the load that is out, and ends it.
    pub fn close(&mut self) -> Option<Said> {
        let Some(out) = self.out.take() else {
            return None;
        };
        let Out {
            worker,
            query,
            chunk,
            slots,
            mut depot,
        } = out;
        let read = read_slots(&slots, &mut depot);
        let copy = slots.copy();
        let ticket = Ticket {
            worker,
            query,
            chunk,
            slots,
        };
        match read {
            None => {
                self.desk.filled(ticket, depot);
                return Some(Said::Filled {
                    worker,
                    slots: copy,
                });
            }
            Some((done, why)) => {
                self.desk.failed(ticket, depot, done, why);
                return Some(Said::Failed {
                    worker,
                    trigger: query,
                    slots: copy,
                    done,
                    why,
                });
            }
        }
    }

    /// Takes the desk apart: its story, the policy and the depot. `None` while a load is out.
    pub fn finish(self) -> Option<(Vec<Entry>, P, SpoiltDepot)> {
        let Rig {
            desk,
            seats: _,
            out,
        } = self;
        if out.is_some() {
            return None;
        }
        Some(desk.into_parts())
    }
}
