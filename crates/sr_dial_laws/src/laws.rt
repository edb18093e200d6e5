//! Laws of runs of `client`: functions that do nothing, and whose contracts are the laws.
ghost use Rattle.sr_dial_laws.specs.Honest.{BrokenRunsGoByTold, HonestRunsAreShort, HonestRunsAreTrue, RunsGoByTold};
ghost use Rattle.sr_dial_laws.specs.Listed.{ListsAreDoneInOrder};
ghost use Rattle.sr_dial_laws.specs.Served.{ServedCallsAreExplained};

use sr_links::laws::{Hearer, Peer};
use sr_talk::parts::Serves;

/// Over an honest link, whatever the plan is, each answer that a run of a client writes has the rows of its query on the server's tables
/// at the version that it names, each ask asks just what is not covered, a covered query sends nothing, the client keeps to its budgets,
/// versions never fall, and nothing that comes is refused: over any number of connections in turn, and whatever versions the server makes
/// meanwhile.
pub fn honest_runs_are_true<C: Peer + Hearer>()
    ensures { HonestRunsAreTrue C.is_of C.has_told }
{}

/// No run ends with 11 over an honest link, where the server's log keeps at most 500,000 changes and its tables have at most 65,536 rows.
pub fn honest_runs_are_short<C: Peer + Hearer>()
    ensures { HonestRunsAreShort C.is_of C.has_told }
{}

/// Over any link, whatever the peer is, each step of a run goes by the client's rules, on the rows that the frames brought, and the client
/// keeps to its budgets by them.
pub fn runs_go_by_told<C: Peer + Hearer>()
    ensures { RunsGoByTold C.is_of C.has_told }
{}

/// So does each step of a run that is broken off for want of memory.
pub fn broken_runs_go_by_told<C: Peer + Hearer>()
    ensures { BrokenRunsGoByTold C.is_of C.has_told }
{}

/// A run over the plan of a list does the list's tasks in order, up to one of them; where nothing is left, all of them.
pub fn lists_are_done_in_order<C>()
    ensures { ListsAreDoneInOrder C }
{}

/// The link of calls to a server that serves is honest: what was said over each connection is what the rules give, and the session is
/// closed behind it.
pub fn served_calls_are_explained<C, S: Serves>()
    ensures { ServedCallsAreExplained C S.gives }
{}
