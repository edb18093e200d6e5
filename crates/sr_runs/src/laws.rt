//! Laws of the definitions: functions that do nothing, and whose contracts are the laws.
ghost use Rattle.std.specs.Prelude.{◌≡◌, true, false};
ghost use Rattle.sr_script.specs.TraceText.{trace_text};
ghost use Rattle.sr_session.specs.Scenes.{Scene};
ghost use Rattle.sr_runs.specs.Example.{events, lines, schema, start, trace};
ghost use Rattle.sr_runs.specs.EvictedClass.{evicting_events, evicting_lines, evicting_start, evicting_trace};
ghost use Rattle.sr_runs.specs.Runs.{Runs};
ghost use Rattle.sr_runs.specs.Outcomes.{EventsEndWithTheirOutcome};
ghost use Rattle.sr_runs.specs.Versions.{NamedVersionsNeverFall};
ghost use Rattle.sr_runs.specs.Headline.{ACoveredQueryAsksNothing, AnswerLinesAreRight, AnswerVersionsNeverFall, AskLinesAreRight, LinesAreTold, ScriptsReach, ScriptsStand, StepsAreEvents};

/// Each step of a script is events of the scene, one after another: deliveries too, of a settle or where delivery is eager.
pub fn steps_are_events()
    ensures { StepsAreEvents }
{}

/// So each scene of a script is one of a run of events, and all that holds of those holds of it: each client stands, answers are right,
/// asks ask the uncovered, a covered query sends nothing, versions never fall, and caches keep to their budgets.
pub fn scripts_reach()
    ensures reach { ScriptsReach }
    ensures stand { ScriptsStand }
{}

/// Each line of a trace is one of the lines of an event or of an explanation, which stand together, at its moment in the step of the
/// script's event that has its number; but for the line that ends a settle, and that of a write whose text is too long.
pub fn lines_are_told()
    ensures told { LinesAreTold }
{}

/// Wherever the trace of a script has the line of an answer, just the rows of the client's query of that number stand behind it, on the
/// tables of the version that it names; and a line of the script asks that query of the client.
pub fn answer_lines_are_right()
    ensures rows { AnswerLinesAreRight }
{}

/// Of two answers to one client, the later one in the trace of a script names no lower version; and so it is with all lines of a client
/// that name a version: of notices and Lapses that were applied, of writes, and of new sessions.
pub fn answer_versions_never_fall()
    ensures versions { AnswerVersionsNeverFall }
    ensures named { NamedVersionsNeverFall }
{}

/// Wherever the trace of a script has the line of an ask, its parts stand behind it, and they ask just what was uncovered, at that moment
/// in the step that has the line's number, of the query that it is for, which a line of the script asks of the client.
pub fn ask_lines_are_right()
    ensures parts { AskLinesAreRight }
{}

/// A query of which each point is covered, of a client with no request out, is answered in its own step, and no line of the step,
/// deliveries included, is that of an ask of the client.
pub fn a_covered_query_asks_nothing()
    ensures answered { ACoveredQueryAsksNothing }
{}

/// Each event has its outcome line: the last of its lines, of the event's kind and client.
pub fn events_end_with_their_outcome()
    ensures lines { EventsEndWithTheirOutcome }
{}

/// The worked example without eager delivery: its events may give its lines, and the lines' text is the trace, byte for byte.
pub fn worked_example()
    ensures lawful { (last : Scene) × Runs false start events lines last }
    ensures text { trace_text schema lines ≡ trace }
{}

/// And one with eager delivery, in which a class is dropped by the user, and then asked again.
pub fn evicted_class_is_asked_again()
    ensures lawful { (last : Scene) × Runs true evicting_start evicting_events evicting_lines last }
    ensures text { trace_text schema evicting_lines ≡ evicting_trace }
{}
