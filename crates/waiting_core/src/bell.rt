ghost use Rattle.waiting_core.specs.Bell.{StepsKeep, SleepersAreSeen};
ghost use Rattle.waiting_core.specs.Count as count;

/// Each atomic step keeps what the bell keeps.
pub fn bell_steps_keep()
    ensures { StepsKeep }
{}

/// Whoever sleeps at the bell is seen to lie, or its ring is on its way.
pub fn sleepers_are_seen()
    ensures { SleepersAreSeen }
{}

/// Each atomic step keeps the bell's count at least as great as the places that are taken.
pub fn count_steps_keep()
    ensures { count.StepsKeep }
{}

/// Where the bell's count is 0, no place is taken.
pub fn nobody_is_hidden()
    ensures { count.NobodyIsHidden }
{}
