ghost use Rattle.waiting_ends.specs.Runs.{RunsAreFair, RunsEnd};

/// Where each worker is run again and again, and from some time on no sleep ends by itself, something is written at
/// some later time wherever somebody may go on.
pub fn runs_are_fair()
    ensures { RunsAreFair }
{}

/// So such a run comes to a whole story and stays there.
pub fn runs_end()
    ensures { RunsEnd }
{}
