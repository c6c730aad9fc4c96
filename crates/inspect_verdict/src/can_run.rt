// What a run is given can be judged.
ghost use Rattle.std.specs.Prelude.{◌≡◌, List, None, Option, ℕ};
ghost use Rattle.command_words.specs.Limits.{IsWithinLimits};
ghost use Rattle.command_words.specs.Options.{Request as RequestOf};
ghost use Rattle.run_inputs.specs.Ending.{AreInputs};
ghost use Rattle.run_inputs.specs.Order.{first_stop};
ghost use Rattle.run_inputs.specs.declared.inputs.Inputs.{Inputs as InputsOf};
ghost use Rattle.run_ends.specs.Running.{CanRun};

/// What a request within the limits gives with texts that don't stop the run can be judged: a law, for the callers of
/// `verdict_of`. It does nothing.
pub fn inputs_can_run()
    ensures { (r : RequestOf) (table batch : Option (List ℕ)) (i : InputsOf) → IsWithinLimits r
        → first_stop r table batch ≡ None → AreInputs r table batch i → CanRun i }
{}
