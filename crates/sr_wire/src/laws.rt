//! What is true of frames.
ghost use Rattle.sr_wire.specs.Examples.{AreWorkedFrames};
ghost use Rattle.sr_wire.specs.Limits.{FewAreSendable};
ghost use Rattle.sr_wire.specs.Laws.{OneMessage, OneSpelling, IsDecodedAgain, NoneBegins, AnswersStay};

/// The three worked frames are spelled and read as they stand, and a byte too many is at fault.
pub fn worked_frames()
    ensures { AreWorkedFrames }
{}

/// No bytes spell two messages.
pub fn one_message()
    ensures { OneMessage }
{}

/// No message has two spellings.
pub fn one_spelling()
    ensures { OneSpelling }
{}

/// What is spelled is decoded, whatever stands behind it.
pub fn decoded_again()
    ensures { IsDecodedAgain }
{}

/// No spelling is the beginning of another.
pub fn none_begins()
    ensures { NoneBegins }
{}

/// A frame or a fault at the front of bytes stays there, whatever comes behind them.
pub fn answers_stay()
    ensures { AnswersStay }
{}

/// A message inside the limits, of no more rects than a client may hold or ask, is short enough to be sent.
pub fn few_are_sendable()
    ensures { FewAreSendable }
{}
