//! Laws of the definitions: functions that do nothing, and whose contracts are the laws.
ghost use Rattle.sr_agg.specs.Laws.{OrderIsNothing, PlansTell};

/// What is told of rows does not hang on their order.
pub fn order_is_nothing()
    ensures { OrderIsNothing }
{}

/// What is told of the rows of an aggregate's query is what the aggregate tells of the tables.
pub fn plans_tell()
    ensures { PlansTell }
{}
