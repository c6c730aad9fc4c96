// One query of a batch.

use sql_bind::Plan;
use std::marker::Model;

/// A query of a batch. Contracts see its number and the plan itself.
#[derive(Drop)]
pub struct Task<'a> {
    /// The number of its statement, 1 to 256; the numbers of a batch rise.
    pub query: u32,
    /// What it asks for.
    pub plan: &'a Plan,
}

impl<'a> Model for Task<'a> {
    ghost use Rattle.std.specs.Coded.{codes};
    ghost use Rattle.sql_bind.specs.contracts.plan.Plan as plans;
    ghost use Rattle.batch_plan.specs.Asked.{Asked};

    ghost Value = { Asked };

    ghost coded = { Prim.hlevel (codes, plans.the_row.coded) };

    ghost view = { λ t. record { query = t.query; plan = t.plan.now } };
}
