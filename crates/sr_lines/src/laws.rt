//! Laws of the definitions: functions that do nothing, and whose contracts are worked values.
ghost use Rattle.std.specs.Prelude.{◌≡◌, [], ◌∷◌, pos, negsuc, codes, decimal, ◌++◌, Ok, Err};
ghost use Rattle.sr_cell.specs.declared.cell.Cell.TheVariants.{Num, Str, Null};
ghost use Rattle.sr_lines.specs.Script.{EventLine, Evict, PushTo, QuerySql, Silent, event_line, line_of};
ghost use Rattle.sr_lines.specs.Parts.{EventsNameClients, FaultsLeaveEnds};
ghost use Rattle.sr_lines.specs.Texts.{cell_text};
ghost use Rattle.sr_lines.specs.Joined.{BoundAreJoined, BoundHaveFewParts};
ghost use Rattle.sr_lines.specs.Own.{BoundNeedOwn};
ghost use Rattle.sr_lines.specs.Short.{EndsAreShort};
ghost use Rattle.sr_lines.specs.Sound.{BoundAreSound, RectsConstrainNeeded};

/// Numbers are decimal; texts stand in quotes, which are doubled inside, or in hexadecimal where a byte is not printable. Null has no quotes.
pub fn cells_are_printed()
    ensures number { cell_text (Num (pos 120)) ≡ decimal 120 }
    ensures below_zero { cell_text (Num (negsuc 4)) ≡ codes "-" ++ decimal 5 }
    ensures quote { cell_text (Str (97 ∷ 39 ∷ [])) ≡ codes "'a'''" }
    ensures empty { cell_text (Str []) ≡ codes "''" }
    ensures bytes { cell_text (Str (97 ∷ 10 ∷ 127 ∷ [])) ≡ codes "x'610a7f'" }
    ensures last_printable { cell_text (Str (126 ∷ [])) ≡ codes "'~'" }
    ensures first_not_printable { cell_text (Str (127 ∷ [])) ≡ codes "x'7f'" }
    ensures null { cell_text Null ≡ codes "null" }
    ensures not_null { cell_text (Str (110 ∷ 117 ∷ 108 ∷ 108 ∷ [])) ≡ codes "'null'" }
{}

/// An event that is outside the grammar has its fault where the first part begins that does not fit.
pub fn faults_of_events_have_places()
    ensures unknown_word { event_line 1 (codes "querry 1 x") ≡ Err 0 }
    ensures no_place { event_line 1 (codes "evict 1 x") ≡ Err 8 }
    ensures part_missing { event_line 1 (codes "push") ≡ Err 4 }
    ensures text_missing { event_line 8 (codes "query 8 ") ≡ Err 8 }
    ensures clients_begin_at_1 { event_line 8 (codes "push 0") ≡ Err 5 }
    ensures no_such_client { event_line 1 (codes "push 2") ≡ Err 5 }
    ensures two_spaces { event_line 1 (codes "push  1") ≡ Err 5 }
    ensures part_too_many { event_line 1 (codes "push 1 2") ≡ Err 7 }
{}

/// Events that are inside the grammar.
pub fn events_are_read()
    ensures digits { event_line 8 (codes "push 008") ≡ Ok (EventLine (PushTo 8)) }
    ensures place { event_line 1 (codes "evict 1 10") ≡ Ok (EventLine (Evict 1 10)) }
    ensures text_is_the_rest { event_line 1 (codes "query 1  x 'y z'") ≡ Ok (EventLine (QuerySql 1 (codes " x 'y z'"))) }
{}

/// Lines that say nothing.
pub fn lines_are_silent()
    ensures comment { line_of 1 (codes "# push") ≡ Ok Silent }
    ensures blank { line_of 1 (codes "  ") ≡ Ok Silent }
    ensures empty { line_of 1 [] ≡ Ok Silent }
{}

/// The event of a line names a client that there is.
pub fn events_name_clients()
    ensures { EventsNameClients }
{}

/// What a fault leaves of a line is an end of it, so that the place of the fault is in the line or at its end.
pub fn faults_leave_ends()
    ensures { FaultsLeaveEnds }
{}

/// The tables of each query that a statement asks are joined by their keys.
pub fn bound_queries_are_joined()
    ensures { BoundAreJoined }
{}

/// Each query that a statement asks is of four tables at most.
pub fn bound_queries_have_few_parts()
    ensures { BoundHaveFewParts }
{}

/// Each query that a statement asks is sound.
pub fn bound_queries_are_sound()
    ensures { BoundAreSound }
{}

/// The tests of a condition of short texts begin and end at short texts.
pub fn ends_are_short()
    ensures { EndsAreShort }
{}

/// The rects of a sound part constrain no columns but those that it needs.
pub fn rects_constrain_needed_columns()
    ensures { RectsConstrainNeeded }
{}

/// Each query that a statement asks needs no columns but those of its tables.
pub fn bound_queries_need_their_own()
    ensures { BoundNeedOwn }
{}
