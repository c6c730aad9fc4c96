ghost use Rattle.waiting_ends.specs.Order.{NobodyIsStuck};

/// Whoever doesn't sleep may take a step in the order of the program, at each time of a run in this order.
pub fn nobody_is_stuck()
    ensures { NobodyIsStuck }
{}
