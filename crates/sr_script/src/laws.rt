//! Laws of the text of a trace: functions that do nothing, and whose contracts are the laws.
ghost use Rattle.sr_script.specs.Printable.{TextsTellLines};

/// The text of a trace tells its lines, over one schema whose names tell its tables and columns.
pub fn texts_tell_lines()
    ensures { TextsTellLines }
{}
