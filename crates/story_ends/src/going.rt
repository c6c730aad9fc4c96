ghost use Rattle.story_laws.specs.Every.{OfEveryLegal};
ghost use Rattle.story_ends.specs.Going.{EachGoesOn, SomebodyGoesOn};

/// Each worker is done, or an entry of its own may come that serves a query, or it awaits the load of another worker,
/// which may go on with an entry of its own. An entry serves a query where it is neither a Stop nor a Failed.
pub fn each_worker_goes_on()
    ensures { OfEveryLegal EachGoesOn }
{}

/// A legal story is whole, or an entry may come that serves a query.
pub fn somebody_goes_on()
    ensures { OfEveryLegal SomebodyGoesOn }
{}
