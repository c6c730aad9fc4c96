ghost use Rattle.waiting_core.specs.Whole.{NeverDoAllSleep, NeverStandsStill};

/// At no time of a run do all sleep that have a query: where each worker sleeps or has none, each has none.
pub fn never_do_all_sleep()
    ensures { NeverDoAllSleep }
{}

/// At each time of a run no worker has a query, or some worker may take a step, and not only out of its sleep by
/// itself.
pub fn never_stands_still()
    ensures { NeverStandsStill }
{}
