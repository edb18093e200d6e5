//! Laws of runs of a client over an honest link: functions that do nothing, and whose contracts are the laws.
ghost use Rattle.sr_cli.specs.Laws.{GroupsAreRight, JoinsAreRight, RunsAreTrue, WarmRunsAreTrue};

use sr_io::outside::Host;

/// Each step of a run of `client`, `report` and `semi` is true: each answer has the rows of its query on the server's tables at the version
/// that it names, each ask asks just what is not covered, and no message is refused.
pub fn runs_are_true<H: Host>()
    ensures { RunsAreTrue H.IsSteady }
{}

/// Each text that `semi` writes for a join tells the join's rows on the server's tables at the version that it names.
pub fn joins_are_right<H: Host>()
    ensures { JoinsAreRight H.IsSteady }
{}

/// Each text that `report` writes for an aggregate says what it tells of the server's tables at the version that it names, or why it is
/// refused.
pub fn groups_are_right<H: Host>()
    ensures { GroupsAreRight H.IsSteady }
{}

/// Each step of a run of `warm` is true, where its image is true of the server's tables at one of their versions.
pub fn warm_runs_are_true<H: Host>()
    ensures { WarmRunsAreTrue H.IsSteady }
{}
