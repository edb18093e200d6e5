//! Laws of the definitions: functions that do nothing, and whose contracts are the laws.
ghost use Rattle.sr_log.specs.Held.{PushKeepsNewest, PushesKeepNewest};
ghost use Rattle.sr_log.specs.Kept.{FloorIsLeast};

/// No version is dropped without need.
pub fn floor_is_least()
    ensures { FloorIsLeast }
{}

/// A log that drops as it grows keeps just what is to be kept of all versions so far.
pub fn pushes_keep_the_newest()
    ensures one { PushKeepsNewest }
    ensures all { PushesKeepNewest }
{}
