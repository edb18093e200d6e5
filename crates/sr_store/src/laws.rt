//! Laws of the definitions: functions that do nothing, and whose contracts are the laws.
ghost use Rattle.sr_store.specs.Brought.{FittedMeetsToldBudgets, NoticesAreTold, ArrivalsAreTold};
ghost use Rattle.sr_store.specs.Starting.{StartsAreClasses, StartsAreTrue, PartsTell};
ghost use Rattle.sr_store.specs.Laws.{FittedMeetsBudgets, FittedFitStill, LastsAreLast, NoticesKeepTrue, ChangesAreTells, NoticesKeepClasses, SomeTellingFits, NothingGivesWay};

/// What is dropped from regions so that they fit is just what the budgets demand of the marks behind them.
pub fn fitted_meets_budgets()
    ensures { FittedMeetsBudgets }
{}

/// Regions that are made to fit are some of those before, and within the limits.
pub fn fitted_fit_still()
    ensures { FittedFitStill }
{}

/// The centres of a query's rects are those of what its parts mean.
pub fn lasts_are_last()
    ensures { LastsAreLast }
{}

/// Regions that are true of some tables are true of the next ones once all is told that concerns them.
pub fn notices_keep_true()
    ensures { NoticesKeepTrue }
{}

/// What is told of the changes of a version are rows of its tables.
pub fn changes_are_tells()
    ensures { ChangesAreTells }
{}

/// What is told changes no points and no stamps.
pub fn notices_keep_classes()
    ensures { NoticesKeepClasses }
{}

/// What arrives, and the regions that have given way to it, are true of some telling.
pub fn some_telling_fits()
    ensures { SomeTellingFits }
{}

/// Where all tell truly, nothing gives way.
pub fn nothing_gives_way()
    ensures { NothingGivesWay }
{}

/// What is dropped from regions so that they fit is what the budgets demand, by the rows of any telling that is true of the regions.
pub fn fitted_meets_told_budgets()
    ensures { FittedMeetsToldBudgets }
{}

/// Regions that are true of a telling are true of what notices make of it, once they are told the same.
pub fn notices_are_told()
    ensures { NoticesAreTold }
{}

/// And of what arrivals make of it, once they give way to them; and so are the arrivals.
pub fn arrivals_are_told()
    ensures { ArrivalsAreTold }
{}

/// The regions of a start are the classes of its marks.
pub fn starts_are_classes()
    ensures { StartsAreClasses }
{}

/// Where the parts have the rows of a telling, the regions of a start from them do.
pub fn starts_are_true()
    ensures { StartsAreTrue }
{}

/// Lawful parts have the rows of a telling.
pub fn parts_tell()
    ensures { PartsTell }
{}
