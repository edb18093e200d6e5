//! Laws of the script that is made: functions that do nothing, and whose contracts are the laws.
ghost use Rattle.sr_generate.specs.Taken.{ScriptsAreAccepted, ScriptsAreInside};

/// Each line of the script that is made is one that a script may have there.
pub fn scripts_are_inside()
    ensures { ScriptsAreInside }
{}

/// The CREATE line of the script that is made is accepted.
pub fn scripts_are_accepted()
    ensures { ScriptsAreAccepted }
{}
