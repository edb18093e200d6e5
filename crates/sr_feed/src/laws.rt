//! What is true of streams, however they are cut.
ghost use Rattle.sr_feed.specs.Laws.{SplitsOnce, FaultsStay, FramesInOrder, NoneInFront};

/// A stream is one list of frames and one rest.
pub fn splits_once()
    ensures { SplitsOnce }
{}

/// Behind a fault no frame comes any more.
pub fn faults_stay()
    ensures { FaultsStay }
{}

/// The frame in front of a stream is the first of its list, and behind it stand the others.
pub fn frames_in_order()
    ensures { FramesInOrder }
{}

/// No frame stands in front where the list is empty.
pub fn none_in_front()
    ensures { NoneInFront }
{}
