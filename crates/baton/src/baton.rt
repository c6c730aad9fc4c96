ghost use Rattle.std.specs.Prelude.{◌≡◌, ◌<◌, ◌≤◌, ◌++◌, true, false, List, []};
ghost use Rattle.std.specs.Prelude.{vec_len, vec_capacity, IfOk, IfErr, All};
ghost use Rattle.crossbeam_queue.specs.Passes.{view, IsPassOf, ruled_capacity};
ghost use Rattle.scan_story.specs.declared.entry.Entry.{Entry};
ghost use Rattle.scan_story.specs.Makers.{entries_by, StartsWith, Adds};
ghost use Rattle.baton.specs.Rule.{dealer};
ghost use Rattle.baton.specs.Passes.{AgreesWith, IsFree, line_id, new_passes};

use crate::bell::Bell;
use crate::line::{Line, absorb, pop, push};
use crate::lobby::Lobby;
use crate::pass::Pass;
use crate::rule::{Deals, Lays};
use crate::view::View;
use crossbeam_queue::Pass as Seat;
use scan_story::{Memory, Storied};
use std::alloc::Global;
use std::marker::Model;
use std::sync::Wait;

/// A state that workers hand on: it lies here, or one worker has it.
///
/// Contracts see only which baton it is.
#[derive(Drop)]
pub struct Baton<T: Storied + Drop> {
    line: Line<T>,
    lobby: Lobby,
    bell: Bell,
}

impl<T: Storied + Drop> Model for Baton<T> {
    ghost use Rattle.std.specs.Prelude.{◌≡◌};
    ghost use Rattle.atomic_table.specs.Seated.{TableId};
    ghost use Rattle.crossbeam_queue.specs.Passes.{ruled_capacity};
    ghost use Rattle.baton.specs.Passes.{line_id};

    ghost Value = { TableId };

    ghost view = { λ b. line_id b.line };

    ghost invariant = { λ b. ruled_capacity b.line ≡ 1 };
}

impl<T: Storied + Drop> Baton<T> {
    /// A baton with this state, and a pass for each of 1 to 32 workers, by number.
    ///
    /// All memory of the baton is taken here. `Memory` gives the state back and leaves nothing behind.
    pub fn new(
        alloc: Global,
        state: T,
        workers: u32,
    ) -> Result<(Baton<T>, Vec<Pass<T>>), (T, Memory)>
        requires { (1 ≤ workers) × (workers ≤ 32) }
        ensures passes { IfOk result (λ r. r.1.items ≡ new_passes r.0 (T.origin state) (T.story state) workers) }
        ensures count { IfOk result (λ r. vec_len r.1 ≡ workers) }
        ensures state { IfErr result (λ r. r.0 ≡ state) }
    {
        let Ok(passes) = Vec::with_capacity(alloc, workers as usize) else {
            return Err((state, Memory));
        };
        let Ok((line, mut seat)) = Line::<T>::ruled(alloc, 1) else {
            return Err((state, Memory));
        };
        let Ok(lobby) = Lobby::new(alloc) else {
            return Err((state, Memory));
        };
        let Ok(bell) = Bell::new(alloc) else {
            return Err((state, Memory));
        };
        match line.try_push_as::<Lays>(&mut seat, state) {
            Ok(()) => {
                let passes = deal(&line, seat, passes, workers);
                Ok((Baton { line, lobby, bell }, passes))
            }
            Err(state) => Err((state, Memory)),
        }
    }

    /// Takes the state, and waits until it lies there. The pass isn't holding.
    ///
    /// The state has the pass's origin, its story begins with what the pass had seen, and the entries of the pass's
    /// worker in it are exactly the pass's own.
    pub fn take<R: Wait>(&self, rt: &R, pass: &mut Pass<T>) -> T
        requires { IsFree self.now pass.old }
        ensures origin { T.origin result ≡ pass.old.origin }
        ensures seen { StartsWith (T.story result) pass.old.seen }
        ensures mine { entries_by pass.old.number (T.story result) ≡ pass.old.mine }
        ensures pass { pass.new ≡ record pass.old { seen = T.story result; holding = true } }
    {
        pop(rt, &self.line, &self.lobby, &mut pass.seat)
    }

    /// Gives the state back, for which there is always room. The pass is holding.
    ///
    /// The state still has the pass's origin, and its story is what the pass has seen, followed by entries of the
    /// pass's worker. These are now the pass's own, behind those that it had.
    pub fn give<R: Wait>(&self, rt: &R, pass: &mut Pass<T>, state: T)
        requires pass { (pass.old.baton ≡ self.now) × (pass.old.holding ≡ true) }
        requires origin { T.origin state ≡ pass.old.origin }
        requires story { Adds pass.old.number pass.old.seen (T.story state) }
        ensures pass { pass.new ≡ record pass.old {
          seen = T.story state;
          mine = entries_by pass.old.number (T.story state);
          holding = false;
        } }
        ensures mine { (added : List Entry) → T.story state ≡ pass.old.seen ++ added
            → pass.new.mine ≡ pass.old.mine ++ added }
    {
        push(rt, &self.line, &mut pass.seat, state);
        self.lobby.call(rt);
    }

    /// The bell at which the workers of this baton wait for each other.
    pub fn bell(&self) -> &Bell {
        &self.bell
    }

    /// Ends the baton: takes the state for good, and waits until it lies there.
    ///
    /// The passes are of this baton, at least one of them, and none is holding. The state agrees with each of them.
    pub fn finish<R: Wait>(self, rt: &R, mut passes: Vec<Pass<T>>) -> T
        requires some { 0 < vec_len passes }
        requires free { All (IsFree self) passes.items }
        ensures { All (AgreesWith (T.origin result) (T.story result)) passes.items }
    {
        let Baton {
            line,
            lobby,
            bell: _,
        } = self;
        let Some(last) = passes.pop() else {
            unreachable!()
        };
        let Pass { mut seat } = last;
        let state = pop(rt, &line, &lobby, &mut seat);
        while let Some(pass) = passes.pop() {
            let Pass { seat: other } = pass;
            absorb(&line, &mut seat, other);
        }
        state
    }
}

// Deals a pass to each worker.
fn deal<T: Storied + Drop>(
    line: &Line<T>,
    mut seat: Seat<T, View>,
    mut passes: Vec<Pass<T>>,
    workers: u32,
) -> Vec<Pass<T>>
    requires queue { IsPassOf line.now seat }
    requires dealer { view seat ≡ dealer 0 (view seat).share.origin (view seat).share.seen false }
    requires room { (passes.items ≡ []) × (workers ≤ vec_capacity passes) }
    ensures passes { result.items
        ≡ new_passes (line_id line.now) (view seat).share.origin (view seat).share.seen workers }
    ensures count { vec_len result ≡ workers }
{
    for _number in 0..workers {
        let seat = line.another::<Deals>(&mut seat);
        passes.push_reserved(Pass { seat });
    }
    passes
}
