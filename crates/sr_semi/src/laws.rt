//! Laws of the definitions: functions that do nothing, and whose contracts are the laws.
ghost use Rattle.sr_semi.specs.Laws.{FewTexts, JoinedIsAnswer, PartsJoin, TextsAsk, TextsGoDown, ValuesAreAmong};
ghost use Rattle.sr_semi.specs.Worked.{Worked};

/// Each row has one of the values that are found in the rows.
pub fn values_are_among()
    ensures { ValuesAreAmong }
{}

/// The left part's rows, and of the right part those with one of their keys, make the answer.
pub fn parts_join()
    ensures { PartsJoin }
{}

/// Each named text asks just the rows of its part; the right text those with one of the keys.
pub fn texts_ask_their_parts()
    ensures { TextsAsk }
{}

/// Where each list of rows is that of the text named last, what is joined is the query's answer at the version that is named.
pub fn what_is_joined_is_the_answer()
    ensures { JoinedIsAnswer }
{}

/// Where a text comes of an answer, one fewer is left.
pub fn texts_go_down()
    ensures { TextsGoDown }
{}

/// Behind the first text no more than two are named.
pub fn few_texts()
    ensures { FewTexts }
{}

/// The texts of a worked join, and what comes of each answer.
pub fn worked_join()
    ensures { Worked }
{}
