//! What a turn's answer tells of the entries that may come.
ghost use Rattle.story_laws.specs.Every.{OfEveryLegal};
ghost use Rattle.story_ends.specs.Telling.{TurnsTell};

/// Wherever a worker may take a turn, the turn's row tells its next step, in every legal story: its query is over; or
/// the End of its query, a Deliver to it, or a Plan by it may come; or a load of another worker is underway, which may
/// go on.
pub fn turns_tell()
    ensures { OfEveryLegal TurnsTell }
{}
