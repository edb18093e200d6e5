//! Laws of runs of a client: functions that do nothing, and whose contracts are the laws.
ghost use Rattle.sr_calls.specs.Honest.{BrokenRunsGoByTold, HonestRunsAreShort, HonestRunsAreTrue, NewHonestRunsAreShort, NewHonestRunsAreTrue, RunsFromAnyClientGoByTold, RunsGoByTold, ScriptsAreAskedFor, ScriptsAskFew, ServedRunsAreTrue};
ghost use Rattle.sr_calls.specs.Started.{StartedRunsAreTrue};

/// Over an honest link, whatever the plan is, each answer that a run of a client writes has the rows of its query on the server's tables
/// at the version that it names, each ask asks just what is not covered, a covered query sends nothing, the client keeps to its budgets,
/// versions never fall, and no message is refused, so that status 8 never comes. It is so from any client whose link is cut, and that has
/// the rows of its version on the server, within its budgets.
pub fn runs_from_any_client_are_true()
    ensures { HonestRunsAreTrue }
{}

/// So it is of a new client.
pub fn honest_runs_are_true()
    ensures { NewHonestRunsAreTrue }
{}

/// So it is of a client that starts from an image, where this is true of the server's tables at one of their versions.
pub fn started_runs_are_true()
    ensures { StartedRunsAreTrue }
{}

/// So it is where each connection goes to a server that serves: at the versions that it has in the end.
pub fn served_runs_are_true()
    ensures { ServedRunsAreTrue }
{}

/// Over an honest link no run ends with 11, since so many frames never come for one request, where the server's log keeps at most 500,000
/// changes, its tables have at most 65,536 rows, and the plan's queries at most four parts.
pub fn runs_from_any_client_are_short()
    ensures { HonestRunsAreShort }
{}

/// So it is of a new client.
pub fn honest_runs_are_short()
    ensures { NewHonestRunsAreShort }
{}

/// The queries of a script have at most four parts.
pub fn scripts_ask_few()
    ensures { ScriptsAskFew }
{}

/// Over any link, whatever the peer is, each step of a run goes by the client's rules, on what the frames brought to the rows that the
/// client had, and the client keeps to its budgets by them.
pub fn runs_from_any_client_go_by_told()
    ensures { RunsFromAnyClientGoByTold }
{}

/// So does each step of a run of a new client, on the rows that the frames brought.
pub fn runs_go_by_told()
    ensures { RunsGoByTold }
{}

/// So does each step of a run that is broken off for want of memory.
pub fn broken_runs_go_by_told()
    ensures { BrokenRunsGoByTold }
{}

/// The lines of a script are such a plan: none asks to take a message.
pub fn scripts_are_asked_for()
    ensures { ScriptsAreAskedFor }
{}
