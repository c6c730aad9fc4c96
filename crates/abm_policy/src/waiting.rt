//! What stays true for a worker while others add to the story.
ghost use Rattle.abm_policy.specs.Waiting.{RegistersStay, RunsStay, TurnsStay, HoldsStay};
ghost use Rattle.abm_policy.specs.Waiting.{LoadsStay, ActiveIsLast, RestsAlone};

/// While a worker adds nothing, it may register each query that it might have registered.
pub fn registers_stay()
    ensures { RegistersStay }
{}

/// While a worker adds nothing, its query runs on.
pub fn queries_run_on()
    ensures { RunsStay }
{}

/// While a worker adds nothing, it may take the turn that it might have taken.
pub fn turns_stay()
    ensures { TurnsStay }
{}

/// While a worker adds nothing, it holds what it held.
pub fn holds_stay()
    ensures { HoldsStay }
{}

/// While a worker adds nothing, its load is underway as it was, and no read or fault is recorded.
pub fn loads_stay()
    ensures { LoadsStay }
{}

/// A query that is active is the one that its worker registered last.
pub fn active_queries_are_last()
    ensures { ActiveIsLast }
{}

/// Where the query that a worker registered last is active no more, no query of the worker is.
pub fn workers_rest_alone()
    ensures { RestsAlone }
{}
