//! Laws of the definitions: functions that do nothing, and whose contracts are the laws.
ghost use Rattle.sr_region.specs.Applied.{ApplyKeepsRows};
ghost use Rattle.sr_region.specs.Laws.{CellsStand};

/// The cell of a column that is held stands at its rank.
pub fn cells_stand()
    ensures { CellsStand }
{}

/// A region that had its rows before some changes has them afterwards.
pub fn apply_keeps_rows()
    ensures { ApplyKeepsRows }
{}
