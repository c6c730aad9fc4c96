// What the counts of a line stand for.
ghost use Rattle.std.specs.Prelude.{◌≡◌};
ghost use Rattle.scan_story.specs.declared.setting.Setting.{Setting};
ghost use Rattle.scan_story.specs.Legal.{Legal};
ghost use Rattle.scan_story.specs.Setting.{AreDistinct};
ghost use Rattle.scan_story.specs.Spent.{stopped_queries};
ghost use Rattle.scan_story.specs.Views.{History};
ghost use Rattle.run_ends.specs.Lines.{stops};

/// The stops that a line tells are the stopped queries of each setting, with a need for each query, in which the story
/// is legal: a law. It does nothing.
pub fn stops_are_stopped_queries()
    ensures { (s : Setting) (h : History) → AreDistinct s.needs → Legal s h → stops h ≡ stopped_queries s h }
{}
