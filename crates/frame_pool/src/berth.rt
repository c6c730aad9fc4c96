//! One party's place at a pool.
ghost use Rattle.std.specs.Prelude.{◌≡◌, []};
ghost use Rattle.frame_pool.specs.Berths.{BerthView, berth_view, IsOpen};

use crate::content::Content;
use crate::rule::Place;
use std::marker::{Model, PhantomData};

/// The frame that a berth fills, and how many words it has put.
#[derive(Clone, Copy)]
pub(crate) struct Progress {
    pub(crate) frame: u32,
    pub(crate) count: u32,
}

/// The right of one thread to use a pool: its steps go through its berth.
///
/// Contracts see it as the frames that it pins, each with its piece, and the frame that it fills with the words put so
/// far. A berth must be given back by `Pool::close`.
pub struct Berth<C: Content> {
    pub(crate) seat: Place,
    pub(crate) filling: Option<Progress>,
    pub(crate) content: PhantomData<C>,
}

impl<C: Content> Model for Berth<C> {
    ghost Value = { BerthView };

    ghost view = { λ b. berth_view b.seat.table_id b.seat.me.0 };

    ghost invariant = { λ b. IsOpen b.seat.me b.filling };
}

impl<C: Content> Berth<C> {
    /// Ends a berth that nobody was given.
    pub(crate) fn leave(self) {
        let Berth {
            seat,
            filling: _,
            content: _,
        } = self;
        drop(seat);
    }
}
