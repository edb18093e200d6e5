//! Laws of the plan: functions that do nothing, and whose contracts are the laws.
ghost use Rattle.sr_keyset.specs.Laws.{FewQueries, FilesAskFew, FilesAskForNone, KeySetsAreRight, TasksAreAskedFor, WhatIsWrittenIsRight};

/// No task of the plan is to take a message.
pub fn tasks_are_asked_for()
    ensures { TasksAreAskedFor }
{}

/// No task that the files of a client ask for is to take a message.
pub fn files_ask_for_none()
    ensures { FilesAskForNone }
{}

/// No query that the files of a client ask has more than four parts.
pub fn files_ask_few()
    ensures { FilesAskFew }
{}

/// For no line of a script more than four queries are run, in any run of its files.
pub fn few_queries()
    ensures { FewQueries }
{}

/// As long as each answer has the rows of its query, what is written for a join are its rows, on the tables of the version that is named.
pub fn what_is_written_is_right()
    ensures { WhatIsWrittenIsRight }
{}

/// Over an honest link, where each step is true, each text that is written for a join is right: it tells the rows of the query that one of the
/// script's lines asks, on the server's tables at the version that it names.
pub fn key_sets_are_right<C>()
    ensures { KeySetsAreRight C }
{}
