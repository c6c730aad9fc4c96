//! The rule of the bell's words, two for each worker, and the steps that keep it.
use crate::rest::Rest;
use atomic_table::{Play, Seat, Table, TableRule};
use std::alloc::Global;

/// What holds of the bell at every moment: `EachIsSeen` of the crate's specs.
pub(crate) struct Rings;

impl TableRule<(), Rest, ()> for Rings {
    ghost use Rattle.baton.specs.Resting.{EachIsSeen};
    ghost use Rattle.baton.specs.declared.rest.Rest.TheVariants.{Idle};

    ghost holds = { λ key. EachIsSeen };

    ghost first = { λ key. Idle };
}

/// The bell's words: how often each worker was rung for, by number, and then the query that each sleeps for, or 0.
pub(crate) type Words = Table<(), Rest, (), Rings, Global>;

/// What a ringer steps with.
pub(crate) type RingerSeat = Seat<(), Rest>;

/// A load of the worker's rings, by which a ringer comes.
pub(crate) struct Hears;

impl Play<(), Rest> for Hears {
    ghost use Rattle.baton.specs.Ringing.{heard};

    ghost then = { heard };
}

/// A store of the worker's query.
pub(crate) struct LiesDown;

impl Play<(), Rest> for LiesDown {
    ghost use Rattle.baton.specs.Ringing.{lain};

    ghost then = { lain };
}

/// A swap of the worker's query with 0, by which a ringer comes.
pub(crate) struct Clears;

impl Play<(), Rest> for Clears {
    ghost use Rattle.baton.specs.Ringing.{cleared};

    ghost then = { cleared };
}

/// A load of the worker's rings, before a raise.
pub(crate) struct Counts;

impl Play<(), Rest> for Counts {
    ghost use Rattle.baton.specs.Ringing.{counted};

    ghost then = { counted };
}

/// A fetch and max of the worker's rings.
pub(crate) struct RaisesRings;

impl Play<(), Rest> for RaisesRings {
    ghost use Rattle.baton.specs.Ringing.{rang};

    ghost then = { rang };
}
