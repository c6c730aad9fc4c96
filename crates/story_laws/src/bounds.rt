ghost use Rattle.scan_story.specs.declared.setting.Setting.{Setting};
ghost use Rattle.scan_story.specs.Setting.{IsSetting};
ghost use Rattle.story_laws.specs.Every.{OfEveryLegal};
ghost use Rattle.story_laws.specs.Bounds.{LoadsArePaid, LostTriggersPayAhead, TriggersStayStarved};
ghost use Rattle.story_laws.specs.Bounds.{WholeLoadLittle, IsShort, NextHasRoom, FitsCapacity};

/// Loads are at most the deliveries, and twice the stopped queries, and for each active query the chunks that are
/// available to it, two at most.
pub fn loads_are_paid()
    ensures { OfEveryLegal LoadsArePaid }
{}

/// While a load is underway whose trigger isn't active any more, loads are one less than that at most.
pub fn lost_triggers_pay_ahead()
    ensures { OfEveryLegal LostTriggersPayAhead }
{}

/// As long as a load is underway, its trigger is starved where it is active.
pub fn triggers_stay_starved()
    ensures { OfEveryLegal TriggersStayStarved }
{}

/// A whole story without stopped queries has at most as many loads as the needs have chunks together, which is what
/// separate scans would load.
pub fn whole_stories_load_little()
    ensures { OfEveryLegal WholeLoadLittle }
{}

/// A legal story has no more entries than the capacity for its setting.
pub fn legal_stories_are_short()
    ensures { OfEveryLegal IsShort }
{}

/// A story that was made with room for the whole capacity has room for each entry that may come.
pub fn next_entry_has_room()
    ensures { NextHasRoom }
{}

/// The numbers of a setting are within what `capacity` takes: at most 262144 chunks in all needs, 256 needs, 16 groups.
pub fn settings_fit_capacity()
    ensures { (s : Setting) → IsSetting s → FitsCapacity s }
{}
