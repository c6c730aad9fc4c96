ghost use Rattle.story_laws.specs.Every.{OfEveryLegal};
ghost use Rattle.story_ends.specs.Ending.{FairRunsEnd, SchedulesEnd, WholeIsOver};

/// No entry may come after a whole story.
pub fn whole_stories_are_over()
    ensures { OfEveryLegal WholeIsOver }
{}

/// A run in which something is written at some later time, wherever somebody may go on, comes to a whole story and
/// stays there. Stops and faults may come at any time of it.
pub fn fair_runs_end()
    ensures { FairRunsEnd }
{}

/// So does a run in which one worker is run at a time, each again and again, and writes nothing only where it may not
/// go on.
pub fn schedules_end()
    ensures { SchedulesEnd }
{}
