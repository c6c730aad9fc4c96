use crate::view::View;
use crossbeam_queue::Pass as Seat;
use scan_story::Storied;
use std::marker::Model;

/// One worker's right to take the state of a baton, and what the worker knows of its story.
///
/// Contracts see its baton, its number from 0, the origin of the state, `seen`, the story as the worker saw it last,
/// `mine`, the entries that the worker made, and whether the worker has the state. `mine` is at all times exactly the
/// entries of its number in `seen`.
#[derive(Drop)]
pub struct Pass<T: Storied> {
    pub(crate) seat: Seat<T, View>,
}

impl<T: Storied> Model for Pass<T> {
    ghost use Rattle.baton.specs.Passes.{PassView, pass_view, IsPass};

    ghost Value = { PassView };

    ghost view = { λ p. pass_view p.seat };

    ghost invariant = { λ p. IsPass p.seat };
}
