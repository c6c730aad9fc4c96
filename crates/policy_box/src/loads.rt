ghost use Rattle.std.specs.Prelude.{◌≡◌};
ghost use Rattle.scan_story.specs.declared.setting.PolicyName.TheVariants as names;
ghost use Rattle.scan_story.specs.declared.setting.Setting.{Setting};
ghost use Rattle.scan_story.specs.Views.{History};
ghost use Rattle.scan_story.specs.Legal.{Legal};
ghost use Rattle.policy_box.specs.Loads.{LoadsWentAround};

/// In a story that is legal under elevator each load is of the first chunk, from the cursor on and around, that some
/// starved query needs and misses.
pub fn elevator_loads_go_around()
    ensures { (s : Setting) (h : History) → s.policy ≡ names.Elevator → Legal s h → LoadsWentAround s h }
{}
