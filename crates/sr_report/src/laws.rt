//! Laws of reports: functions that do nothing, and whose contracts are the laws.
ghost use Rattle.sr_report.specs.Laws.{ReportsAsk, ReportsAskFew, ReportsAreRight};

/// No line of a report asks its client to take a message.
pub fn reports_ask()
    ensures { ReportsAsk }
{}

/// No query that a report asks has more than four parts.
pub fn reports_ask_few()
    ensures { ReportsAskFew }
{}

/// Over an honest link, where each step is true, each text that a report writes for an aggregate is right: it says why its text is refused, or
/// what it tells of the server's tables at the version that it names.
pub fn reports_are_right<C>()
    ensures { ReportsAreRight C }
{}
