//! The rule of the lobby's two words, and the steps that keep it.
use crate::standing::Standing;
use atomic_table::{Play, Seat, Table, TableRule};
use std::alloc::Global;

/// What holds of the lobby at every moment: `Counted` of the crate's specs.
pub(crate) struct Waits;

impl TableRule<(), Standing, ()> for Waits {
    ghost use Rattle.baton.specs.Waiting.{Counted};
    ghost use Rattle.baton.specs.declared.standing.Standing.TheVariants.{Out};

    ghost holds = { λ key. Counted };

    ghost first = { λ key. Out };
}

/// The lobby's words.
pub(crate) type Words = Table<(), Standing, (), Waits, Global>;

/// What a guest steps with.
pub(crate) type GuestSeat = Seat<(), Standing>;

/// A guest comes: a load of the count of calls.
pub(crate) struct Comes;

impl Play<(), Standing> for Comes {
    ghost use Rattle.baton.specs.Visits.{came};

    ghost then = { came };
}

/// A guest enters: a compare and exchange of the count of those that wait.
pub(crate) struct Enters;

impl Play<(), Standing> for Enters {
    ghost use Rattle.baton.specs.Visits.{entered};

    ghost then = { entered };
}

/// A guest takes away one of those that wait: a compare and exchange of their count.
pub(crate) struct TakesOne;

impl Play<(), Standing> for TakesOne {
    ghost use Rattle.baton.specs.Visits.{took_one};

    ghost then = { took_one };
}

/// A guest calls the one that it took away: a compare and exchange of the count of calls.
pub(crate) struct Raises;

impl Play<(), Standing> for Raises {
    ghost use Rattle.baton.specs.Visits.{raised};

    ghost then = { raised };
}
