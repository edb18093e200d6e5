//! Laws of the printed form: functions that do nothing, and whose contracts are the laws.
ghost use Rattle.sr_print.specs.Again.{PrintedAgain};
ghost use Rattle.sr_print.specs.LexedAgain.{WrittenAgain, LexedAreWritable};
ghost use Rattle.sr_print.specs.ReadAgain.{ReadAgain};

/// Tokens are written out so that they are read again; what is read can be written out.
pub fn tokens_are_read_again()
    ensures written { WrittenAgain }
    ensures lexed { LexedAreWritable }
{}

/// A statement that writable tokens spell is spelled by its printed tokens too, which are writable.
pub fn what_is_spelled_is_printed_again()
    ensures printed { PrintedAgain }
{}

/// What a text says is said again by its printed form, where that is not too long.
pub fn what_is_printed_is_read_again()
    ensures again { ReadAgain }
{}
