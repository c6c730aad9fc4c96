ghost use Rattle.story_laws.specs.Every.{OfEveryLegal};
ghost use Rattle.story_laws.specs.Queries.{OneActiveAWorker, FewAreActive, DeliveredOnceEach};
ghost use Rattle.story_laws.specs.Queries.{EndedTookAll, EndedAreNotStopped};

/// No two queries of one worker are active at the same time.
pub fn one_active_a_worker()
    ensures { OfEveryLegal OneActiveAWorker }
{}

/// At most as many queries are active as there are workers.
pub fn few_are_active()
    ensures { OfEveryLegal FewAreActive }
{}

/// The chunks that were delivered to a query are of its need, and no chunk was delivered to it twice.
pub fn chunks_are_delivered_once()
    ensures { OfEveryLegal DeliveredOnceEach }
{}

/// To a query that has ended each chunk of its need was delivered.
pub fn ended_took_all()
    ensures { OfEveryLegal EndedTookAll }
{}

/// A query that has ended isn't stopped, and no later entry stops it.
pub fn ended_are_not_stopped()
    ensures { OfEveryLegal EndedAreNotStopped }
{}
