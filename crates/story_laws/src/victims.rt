ghost use Rattle.story_laws.specs.Every.{OfEveryLegal};
ghost use Rattle.story_laws.specs.Victims.{AlwaysAFarVictim, ChosenIsFar, VictimsWereFar, EvictionStarvesNobody};

/// Where fewer frames are free than pieces are missing and no fill has begun, some chunk may be evicted that is close
/// to no query: `close` of it is 0.
pub fn always_a_far_victim()
    ensures { OfEveryLegal AlwaysAFarVictim }
{}

/// Wherever some candidate for a victim has `close` 0, the victim that the policy chooses has it, at any cursor.
pub fn chosen_victims_are_far()
    ensures { OfEveryLegal ChosenIsFar }
{}

/// Each chunk that was evicted had `close` 0.
pub fn victims_were_far()
    ensures { OfEveryLegal VictimsWereFar }
{}

/// An eviction makes no query starved that was not.
pub fn evictions_starve_nobody()
    ensures { OfEveryLegal EvictionStarvesNobody }
{}
