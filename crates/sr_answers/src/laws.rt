//! Laws of answers: functions that do nothing, and whose contracts are the laws.
ghost use Rattle.sr_answers.specs.Answers.{TrueStepsAnswer};

/// Over true steps, as over an honest link, each answer that a plan is lent is that of the task that was begun last: it has the rows of its
/// query on the server's tables at the version that it names.
pub fn true_steps_answer<C>()
    ensures { TrueStepsAnswer C }
{}
