//! Laws of the definitions: functions that do nothing, and whose contracts are worked values, or laws.
ghost use Rattle.std.specs.Prelude.{◌≡◌, true, false, [], ◌∷◌, pos};
ghost use Rattle.sr_box.specs.declared.span.Span.TheVariants.{Full, Nums};
ghost use Rattle.sr_cell.specs.declared.cause.Cause.TheVariants.{Asked};
ghost use Rattle.sr_cell.specs.declared.cell.Cell.TheVariants.{Num};
ghost use Rattle.sr_cell.specs.declared.table.Kind.TheVariants.{Num as Numbers};
ghost use Rattle.sr_history.specs.declared.mark.Mark.TheVariants.{Held, Dropped};
ghost use Rattle.sr_history.specs.Ends.{GridsAreFew, CutsKeepEnds, MorePartsKeepEnds, PartsHaveTheirEnds};
ghost use Rattle.sr_history.specs.Load.{ends_grid};
ghost use Rattle.sr_history.specs.Marks.{is_held, is_covered};
ghost use Rattle.sr_model.specs.Conditions.{Tests, Between, OneOf, Ge, Lt};

/// The newest mark that has the point decides, and it is of just those columns.
pub fn the_newest_mark_decides()
    ensures dropped { is_held (Dropped Asked 0 3 1 ((Full ∷ []) ∷ []) ∷ Held 0 3 ((Full ∷ []) ∷ []) ∷ []) 0 3 (Num (pos 7) ∷ []) ≡ false }
    ensures held_again { is_held (Held 0 3 ((Full ∷ []) ∷ []) ∷ Dropped Asked 0 3 1 ((Full ∷ []) ∷ []) ∷ []) 0 3 (Num (pos 7) ∷ []) ≡ true }
    ensures elsewhere { is_held (Dropped Asked 0 3 1 ((Nums (pos 0) (pos 5) ∷ []) ∷ []) ∷ Held 0 3 ((Full ∷ []) ∷ []) ∷ []) 0 3 (Num (pos 7) ∷ []) ≡ true }
    ensures columns { is_held (Held 0 3 ((Full ∷ []) ∷ []) ∷ []) 0 1 (Num (pos 7) ∷ []) ≡ false }
{}

/// A point is covered where more columns than the needed ones are held, and not where one is missing.
pub fn more_columns_cover()
    ensures more { is_covered (Held 0 3 ((Full ∷ []) ∷ []) ∷ []) 0 1 (Num (pos 7) ∷ []) ≡ true }
    ensures fewer { is_covered (Held 0 1 ((Full ∷ []) ∷ []) ∷ []) 0 3 (Num (pos 7) ∷ []) ≡ false }
{}

/// An end counts where it lies inside of its column and above its first value, and once; a list of neighbours has two, and
/// what is between a value and a lesser one has none.
pub fn ends_inside_count()
    ensures two_ends { ends_grid 0 (record { name = []; kind = Numbers; lo = pos 0; hi = pos 150; nullable = false } ∷ [])
        (record { table = 0; need = 1; condition = Tests 0 (Between (Num (pos 30)) (Num (pos 40))) } ∷ []) ≡ 3 }
    ensures first_and_last { ends_grid 0 (record { name = []; kind = Numbers; lo = pos 0; hi = pos 150; nullable = false } ∷ [])
        (record { table = 0; need = 1; condition = Tests 0 (Between (Num (pos 0)) (Num (pos 150))) } ∷ []) ≡ 1 }
    ensures once { ends_grid 0 (record { name = []; kind = Numbers; lo = pos 0; hi = pos 150; nullable = false } ∷ [])
        (record { table = 0; need = 1; condition = Tests 0 (Ge (Num (pos 30))) } ∷ record {
          table = 0;
          need = 1;
          condition = Tests 0 (Lt (Num (pos 30)));
        } ∷ []) ≡ 2 }
    ensures other_column { ends_grid 0 (record { name = []; kind = Numbers; lo = pos 0; hi = pos 150; nullable = false } ∷ [])
        (record { table = 0; need = 3; condition = Tests 1 (Ge (Num (pos 30))) } ∷ []) ≡ 1 }
    ensures neighbours { ends_grid 0 (record { name = []; kind = Numbers; lo = pos 0; hi = pos 150; nullable = false } ∷ [])
        (record { table = 0; need = 1; condition = Tests 0 (OneOf (Num (pos 3) ∷ Num (pos 4) ∷ Num (pos 5) ∷ [])) } ∷ []) ≡ 3 }
    ensures crossed { ends_grid 0 (record { name = []; kind = Numbers; lo = pos 0; hi = pos 150; nullable = false } ∷ [])
        (record { table = 0; need = 1; condition = Tests 0 (Between (Num (pos 5)) (Num (pos 3))) } ∷ []) ≡ 1 }
{}

/// Rects that begin and end only where tests do make no greater a grid than the ends of the tests.
pub fn grids_of_ends_are_few()
    ensures { GridsAreFew }
{}

/// What is cut from such rects begins and ends there too.
pub fn what_is_cut_keeps_its_ends()
    ensures { CutsKeepEnds }
{}

/// Rects that end where the tests of some parts do end where those of more parts do.
pub fn more_parts_keep_the_ends()
    ensures { MorePartsKeepEnds }
{}

/// Rects of the condition of one of the parts end where the tests of the parts do.
pub fn a_part_has_its_ends()
    ensures { PartsHaveTheirEnds }
{}
