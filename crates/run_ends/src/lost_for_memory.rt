// What follows of the losses of a run.
ghost use Rattle.std.specs.Prelude.{ℕ, List, Option};
ghost use Rattle.scan_story.specs.Views.{History};
ghost use Rattle.scan_story.specs.declared.cause.Cause.{Cause};
ghost use Rattle.run_stops.specs.declared.outcome.Outcome.{Outcome};
ghost use Rattle.run_ends.specs.Losses.{AreLostBy, SomeForMemory, SomeQueryForMemory};

/// What is lost when out of memory is a query, and no statement that is refused for its text: a law. It does nothing.
pub fn lost_for_memory_are_queries()
    ensures { (h : History) (parts n : ℕ) (outcomes : List Outcome) (losses : List (Option Cause))
        → AreLostBy h parts n outcomes losses → SomeForMemory losses → SomeQueryForMemory outcomes losses }
{}
