//! Refilling: a berth marks a frame, claims it, puts words and publishes a piece.
ghost use Rattle.std.specs.Prelude.{◌≡◌, MatchBool, IsSome};
ghost use Rattle.frame_pool.specs.Berths.{IsOf, IsAt, IsIdleAt, HasRoom, IsWhole, fills, fills_none, grows};

use crate::berth::{Berth, Progress};
use crate::content::Content;
use crate::plays::{Abandons, Claims, Marks, Publishes, Puts};
use crate::pool::Pool;
use crossbeam_utils::Backoff;
use frame_core::{FramePhase, State, Step, apply, state_of, word_of};
use std::sync::Wait;

impl<C: Content> Pool<C> {
    /// Marks a ready frame, so that nobody pins it any more, and does nothing where the frame is free.
    ///
    /// It doesn't tell which. It waits while the frame is being filled or is marked already. The berth has no pin on
    /// the frame and no fill.
    pub fn mark<R: Wait>(&self, rt: &R, berth: &mut Berth<C>, frame: u32)
        requires at { IsAt self.now berth.old frame }
        requires idle { IsIdleAt berth.old frame }
        ensures { berth.new ≡ berth.old }
    {
        let backoff = Backoff::new();
        for _ in rt.forever() {
            if self.try_mark(berth, frame) {
                return;
            }
            backoff.snooze();
        }
        unreachable!()
    }

    /// Begins to fill a frame: waits until it is free, or marked and pinned by nobody.
    ///
    /// The berth has no pin on the frame and no fill.
    pub fn claim<R: Wait>(&self, rt: &R, berth: &mut Berth<C>, frame: u32)
        requires at { IsAt self.now berth.old frame }
        requires idle { IsIdleAt berth.old frame }
        ensures { berth.new ≡ fills berth.old frame }
    {
        let backoff = Backoff::new();
        for _ in rt.forever() {
            if self.try_claim(berth, frame) {
                return;
            }
            backoff.snooze();
        }
        unreachable!()
    }

    /// Puts the next word of the fill: one store. Fewer words than a frame has were put.
    pub fn put(&self, berth: &mut Berth<C>, word: u64)
        requires at { IsOf self.now berth.old }
        requires room { HasRoom berth.old }
        ensures { berth.new ≡ grows berth.old word }
    {
        let Some(progress) = berth.filling else {
            unreachable!()
        };
        let Progress { frame, count } = progress;
        let at = self.place(frame, count);
        self.board.shared.store::<Puts>(&mut berth.seat, at, word);
        berth.filling = Some(Progress {
            frame,
            count: count + 1,
        });
    }

    /// Ends the fill, and the frame is ready with the piece: one store.
    ///
    /// Where the content is told, the words put are the piece's.
    pub fn publish(&self, berth: &mut Berth<C>, piece: u32)
        requires at { IsOf self.now berth.old }
        requires fill { IsSome berth.old.fill }
        requires whole { IsWhole C.pieces piece berth.old.fill }
        ensures { berth.new ≡ fills_none berth.old }
    {
        let Some(progress) = berth.filling else {
            unreachable!()
        };
        let ready = State {
            phase: FramePhase::Ready,
            piece,
            pins: 0,
        };
        let frame = progress.frame as usize;
        self.board
            .shared
            .store::<Publishes>(&mut berth.seat, frame, word_of(ready));
        berth.filling = None;
    }

    /// Gives the fill up, and the frame is free: one store.
    pub fn abandon(&self, berth: &mut Berth<C>)
        requires at { IsOf self.now berth.old }
        requires fill { IsSome berth.old.fill }
        ensures { berth.new ≡ fills_none berth.old }
    {
        let Some(progress) = berth.filling else {
            unreachable!()
        };
        let free = State {
            phase: FramePhase::Free,
            piece: 0,
            pins: 0,
        };
        let frame = progress.frame as usize;
        self.board
            .shared
            .store::<Abandons>(&mut berth.seat, frame, word_of(free));
        berth.filling = None;
    }

    // Whether the frame was free, or was ready and is now marked.
    fn try_mark(&self, berth: &mut Berth<C>, frame: u32) -> bool
        requires at { IsAt self.now berth.old frame }
        ensures { berth.new ≡ berth.old }
    {
        let found = self.look(berth, frame);
        let state = state_of(found);
        if state.phase == FramePhase::Free {
            return true;
        }
        let Ok(next) = apply(state, Step::Mark) else {
            return false;
        };
        let new = word_of(next);
        let seen = self
            .board
            .shared
            .compare_exchange::<Marks>(&mut berth.seat, frame as usize, found, new);
        seen == found
    }

    // Whether the frame was free, or marked without pins, and is now the berth's to fill.
    fn try_claim(&self, berth: &mut Berth<C>, frame: u32) -> bool
        requires at { IsAt self.now berth.old frame }
        requires idle { IsIdleAt berth.old frame }
        ensures { MatchBool result (berth.new ≡ fills berth.old frame) (berth.new ≡ berth.old) }
    {
        let found = self.look(berth, frame);
        let Ok(next) = apply(state_of(found), Step::Claim) else {
            return false;
        };
        let new = word_of(next);
        let seen = self
            .board
            .shared
            .compare_exchange::<Claims>(&mut berth.seat, frame as usize, found, new);
        if seen != found {
            return false;
        }
        berth.filling = Some(Progress { frame, count: 0 });
        true
    }
}
