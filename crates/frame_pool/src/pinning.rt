//! Reading: a berth pins a frame, reads its words and unpins it.
ghost use Rattle.std.specs.Prelude.{◌≡◌, ◌<◌, ◌+◌, ◌-◌, ◌*◌, MatchBool, IsSome, length};
ghost use Rattle.frame_pool.specs.Views.{pinned};
ghost use Rattle.frame_pool.specs.Steps.{AreWordsOf, IsWordOf};
ghost use Rattle.frame_pool.specs.Berths.{IsAt, IsApart, takes_pin, unpins};

use crate::berth::Berth;
use crate::content::Content;
use crate::plays::{Reads, Releases, Takes};
use crate::pool::Pool;
use crossbeam_utils::Backoff;
use frame_core::{Step, apply, state_of, word_of};
use std::sync::Wait;

impl<C: Content> Pool<C> {
    /// Pins a frame with a piece: waits until the frame is ready with that piece.
    ///
    /// The berth has no pin and no fill on the frame. Until `unpin` no other piece gets into the frame.
    pub fn pin<R: Wait>(&self, rt: &R, berth: &mut Berth<C>, frame: u32, piece: u32)
        requires at { IsAt self.now berth.old frame }
        requires apart { IsApart berth.old frame }
        ensures { berth.new ≡ takes_pin berth.old frame piece }
    {
        let backoff = Backoff::new();
        for _ in rt.forever() {
            if self.try_pin(berth, frame, piece) {
                return;
            }
            backoff.snooze();
        }
        unreachable!()
    }

    /// The word i of a frame that the berth pins, counted from 0: one load.
    ///
    /// `i` is below the words of a frame; the piece may have fewer. Where the content is told it is the word i of the
    /// pinned piece, if the piece has so many.
    pub fn word(&self, berth: &mut Berth<C>, frame: u32, i: u32) -> u64
        requires at { IsAt self.now berth.old frame }
        requires pinned { IsSome (pinned frame berth.old.pins) }
        requires inside { i < self.now.shape.words }
        ensures same { berth.new ≡ berth.old }
        ensures word { IsWordOf C.pieces berth.old.pins frame i result }
    {
        let at = self.place(frame, i);
        self.board.shared.load::<Reads<C>>(&mut berth.seat, at)
    }

    /// Many words of a frame that the berth pins, one into each place of the slice: one load each.
    ///
    /// They are the word `first` and each word `step` further on. All of them are below the words of a frame; the piece
    /// may have fewer. Where the content is told they are these words of the pinned piece, as far as it has so many.
    pub fn words(&self, berth: &mut Berth<C>, frame: u32, first: u32, step: u32, words: &mut [u64])
        requires at { IsAt self.now berth.old frame }
        requires pinned { IsSome (pinned frame berth.old.pins) }
        requires inside { 0 < length words.old → first + (length words.old - 1) * step < self.now.shape.words }
        ensures same { berth.new ≡ berth.old }
        ensures count { length words.new ≡ length words.old }
        ensures words { AreWordsOf C.pieces berth.old.pins frame first step words.new }
    {
        if words.is_empty() {
            return;
        }
        let begin = self.place(frame, first);
        for (k, word) in words.iter_mut().enumerate() {
            let place = begin + k * step as usize;
            *word = self.board.shared.load::<Reads<C>>(&mut berth.seat, place);
        }
    }

    /// Gives the berth's pin on the frame back: one fetch and subtract.
    pub fn unpin(&self, berth: &mut Berth<C>, frame: u32)
        requires at { IsAt self.now berth.old frame }
        requires pinned { IsSome (pinned frame berth.old.pins) }
        ensures { berth.new ≡ unpins berth.old frame }
    {
        self.board
            .shared
            .fetch_sub::<Releases>(&mut berth.seat, frame as usize, 1);
    }

    // Whether the frame was ready with the piece, and is now pinned.
    fn try_pin(&self, berth: &mut Berth<C>, frame: u32, piece: u32) -> bool
        requires at { IsAt self.now berth.old frame }
        requires apart { IsApart berth.old frame }
        ensures { MatchBool result (berth.new ≡ takes_pin berth.old frame piece) (berth.new ≡ berth.old) }
    {
        let found = self.look(berth, frame);
        let Ok(next) = apply(state_of(found), Step::Take { piece }) else {
            return false;
        };
        let new = word_of(next);
        let seen = self
            .board
            .shared
            .compare_exchange::<Takes>(&mut berth.seat, frame as usize, found, new);
        seen == found
    }
}
