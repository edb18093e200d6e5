//! Laws of replays: functions that do nothing, and whose contracts are the laws.
ghost use Rattle.sr_world.specs.Budgets.{ReplaysKeepToBudgets};
ghost use Rattle.sr_world.specs.Named.{ReplayLinesCanBePrinted, ReplaysNameTables, TracesTellLines};

/// In each scene of a replay, after each event and delivery, no client has more rows or regions than it may keep.
pub fn replays_keep_to_their_budgets()
    ensures budgets { ReplaysKeepToBudgets }
{}

/// The tables of a replay are named as the law of printed lines asks (`texts_tell_lines` of sr_script).
pub fn replays_name_their_tables()
    ensures { ReplaysNameTables }
{}

/// The lines of a replay are such as the law of printed lines asks: each number is one that a u64 holds, tables and columns are there,
/// rects fit, and rows have numbers such as an i64 holds.
pub fn replay_lines_can_be_printed()
    ensures { ReplayLinesCanBePrinted }
{}

/// So the trace of a replay is the text of one list of such lines alone: its own.
pub fn traces_tell_lines()
    ensures { TracesTellLines }
{}
