//! Laws of reading: functions that do nothing, and whose contracts are the laws.
ghost use Rattle.sr_grammar_laws.specs.Blind.{IsBlind};
ghost use Rattle.sr_grammar_laws.specs.Exact.{EachIsExact};
ghost use Rattle.sr_grammar_laws.specs.OneSaying.{EachSaysOne, EachSaysSomething};

/// What is read is spelled so, what is spelled so is read, and reading stops at the first token with which no statement goes on.
pub fn reading_is_exact()
    ensures exact { EachIsExact }
{}

/// No text says two things.
pub fn a_text_says_one_thing()
    ensures one { EachSaysOne }
{}

/// Each text says something: a statement, or its first fault.
pub fn a_text_says_something()
    ensures something { EachSaysSomething }
{}

/// Tokens without places are read as the others are, but for places.
pub fn reading_is_blind()
    ensures blind { IsBlind }
{}
