//! The rule of the queue that holds the state, and the steps that keep it.
use crate::view::View;
use crossbeam_queue::protocol::{Join, Lesson, Outcome, Protocol, Split};
use scan_story::Storied;

/// What holds at every moment: `OneStory` of the crate's specs.
pub struct Rule;

impl<T: Storied> Protocol<T, View> for Rule {
    ghost use Rattle.baton.specs.Rule.{OneStory, unmade};

    ghost holds = { OneStory T.origin T.story };

    ghost first = { unmade };
}

/// The dealer lays the first state down.
pub struct Lays;

impl<T: Storied> Outcome<T, View> for Lays {
    ghost use Rattle.baton.specs.Steps.{Laid};

    ghost then = { Laid T.origin T.story };
}

impl<T> Lesson<T, View> for Lays {
    ghost use Rattle.std.specs.Prelude.{◌≡◌, []};

    ghost fact = { λ v items. items ≡ [] };
}

/// A worker takes the state.
pub struct Takes;

impl<T: Storied> Outcome<T, View> for Takes {
    ghost use Rattle.baton.specs.Steps.{Took};

    ghost then = { Took T.origin T.story };
}

impl<T> Lesson<T, View> for Takes {
    ghost fact = { λ v items. Unit {0} };
}

/// A worker gives the state back.
pub struct Gives;

impl<T: Storied> Outcome<T, View> for Gives {
    ghost use Rattle.baton.specs.Steps.{Gave};

    ghost then = { Gave T.story };
}

impl<T> Lesson<T, View> for Gives {
    ghost use Rattle.std.specs.Prelude.{◌≡◌, []};

    ghost fact = { λ v items. items ≡ [] };
}

/// The dealer deals a pass to the next worker.
pub struct Deals;

impl Split<View> for Deals {
    ghost use Rattle.baton.specs.Steps.{dealer_after, dealt_by};

    ghost left = { dealer_after };

    ghost right = { dealt_by };
}

/// A worker that has the state takes another's pass over.
pub struct Absorbs;

impl Join<View> for Absorbs {
    ghost use Rattle.baton.specs.Steps.{told_of, gone};

    ghost both = { told_of };

    ghost spent = { gone };
}

impl<T> Lesson<T, View> for Absorbs {
    ghost use Rattle.baton.specs.Rule.{AgreesWithTold};

    ghost fact = { λ v items. AgreesWithTold v };
}
