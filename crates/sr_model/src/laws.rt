//! Laws of the definitions: functions that do nothing, and whose contracts are worked values.
ghost use Rattle.std.specs.Prelude.{◌≡◌, true, false, [], ◌∷◌, pos, Some, None};
ghost use Rattle.sr_cell.specs.declared.cell.Cell.TheVariants.{Num, Str, Null};
ghost use Rattle.sr_cell.specs.declared.table.Kind.TheVariants.{Num as Numbers};
ghost use Rattle.sr_cell.specs.declared.fault.Why.TheVariants.{NullCell};
ghost use Rattle.sr_cell.specs.Cells.{cell_at};
ghost use Rattle.sr_model.specs.Conditions.{is_true, passes, tested, truth, Known, Unknown, Tests, And, Or, Not, none, more, Ne, Lt, Le, Between, OneOf, IsNull};
ghost use Rattle.sr_model.specs.Ends.{test_ends, places_of};
ghost use Rattle.sr_model.specs.Queries.{joins_hold};
ghost use Rattle.sr_model.specs.Sides.{SidesByMembers, NotsPushInward};
ghost use Rattle.sr_model.specs.SortedRows.{ascend, with_row};
ghost use Rattle.sr_model.specs.Statements.{cell_fault};
ghost use Rattle.sr_model.specs.Width.{width};

/// OR adds widths and AND multiplies them; what is not between two values lies on two sides.
pub fn widths_are_counted()
    ensures between { width true (Tests 0 (Between (Num (pos 1)) (Num (pos 3)))) ≡ 1 }
    ensures not_between { width true (Not (Tests 0 (Between (Num (pos 1)) (Num (pos 3))))) ≡ 2 }
    ensures null { width true (Tests 0 IsNull) ≡ 1 }
    ensures not_null { width true (Not (Tests 0 IsNull)) ≡ 1 }
    ensures or_adds { width true (Or (more (Tests 0 (Ne (Num (pos 1)))) (more (Tests 1 (Le (Num (pos 1)))) none))) ≡ 3 }
    ensures and_multiplies { width true (And (more (Tests 0 (Ne (Num (pos 1)))) (more (Tests 1 (Le (Num (pos 1)))) none))) ≡ 2 }
{}

/// BETWEEN has both its ends; an AND of no members is true, and an OR of none is false.
pub fn conditions_are_meant()
    ensures low { passes (Between (Num (pos 1)) (Num (pos 3))) (Num (pos 1)) ≡ true }
    ensures high { passes (Between (Num (pos 1)) (Num (pos 3))) (Num (pos 3)) ≡ true }
    ensures over { passes (Between (Num (pos 1)) (Num (pos 3))) (Num (pos 4)) ≡ false }
    ensures and_of_none { is_true (cell_at []) (And none) ≡ true }
    ensures or_of_none { is_true (cell_at []) (Or none) ≡ false }
{}

/// When a condition is true, and when it is false, goes by its members.
pub fn sides_by_members()
    ensures { SidesByMembers }
{}

/// NOT pushed inward says what it said, in each of three values.
pub fn nots_push_inward()
    ensures { NotsPushInward }
{}

/// A comparison of Null is unknown, and so is its contrary; whether it is Null is known. AND with what is false is false, OR with what
/// is true is true, and no join is of Null.
pub fn null_is_unknown()
    ensures less { tested (Lt (Num (pos 6))) Null ≡ Unknown }
    ensures contrary { truth (cell_at (Null ∷ [])) (Not (Tests 0 (Lt (Num (pos 6))))) ≡ Unknown }
    ensures is_null { tested IsNull Null ≡ Known true }
    ensures no_number { tested IsNull (Num (pos 6)) ≡ Known false }
    ensures and { truth (cell_at (Null ∷ [])) (And (more (Tests 0 (Lt (Num (pos 6)))) (more (Or none) none))) ≡ Known false }
    ensures or { truth (cell_at (Null ∷ [])) (Or (more (Tests 0 (Lt (Num (pos 6)))) (more (Tests 0 IsNull) none))) ≡ Known true }
    ensures refused { cell_fault Numbers (pos 0) (pos 9) false 2 Null ≡ Some (record { why = NullCell; at = 2 }) }
    ensures taken { cell_fault Numbers (pos 0) (pos 9) true 2 Null ≡ None }
    ensures joins { joins_hold (record { left = 0; column = 0; right = 1; key = 0 } ∷ []) ((Null ∷ []) ∷ (Null ∷ []) ∷ []) ≡ false }
    ensures ends { places_of IsNull ≡ Null ∷ [] }
{}

/// A list of neighbours has two ends, in whatever order they stand; what is between a value and a lesser one has none.
pub fn ends_are_of_the_whole_test()
    ensures neighbours { test_ends (OneOf (Num (pos 3) ∷ Num (pos 4) ∷ Num (pos 5) ∷ [])) ≡ Num (pos 3) ∷ Num (pos 6) ∷ [] }
    ensures any_order { test_ends (OneOf (Num (pos 4) ∷ Num (pos 3) ∷ Num (pos 5) ∷ [])) ≡ Num (pos 3) ∷ Num (pos 6) ∷ [] }
    ensures apart { test_ends (OneOf (Num (pos 3) ∷ Num (pos 5) ∷ [])) ≡ Num (pos 3) ∷ Num (pos 5) ∷ Num (pos 4) ∷ Num (pos 6) ∷ [] }
    ensures texts { test_ends (OneOf (Str (97 ∷ []) ∷ Str (97 ∷ 0 ∷ []) ∷ [])) ≡ Str (97 ∷ []) ∷ Str (97 ∷ 0 ∷ 0 ∷ []) ∷ [] }
    ensures between { test_ends (Between (Num (pos 3)) (Num (pos 5))) ≡ Num (pos 3) ∷ Num (pos 6) ∷ [] }
    ensures crossed { test_ends (Between (Num (pos 5)) (Num (pos 3))) ≡ [] }
{}

/// A row goes to its place by key.
pub fn rows_stand_by_key()
    ensures placed { with_row 0 ((Num (pos 1) ∷ []) ∷ (Num (pos 5) ∷ []) ∷ []) (Num (pos 3) ∷ [])
        ≡ (Num (pos 1) ∷ []) ∷ (Num (pos 3) ∷ []) ∷ (Num (pos 5) ∷ []) ∷ [] }
    ensures once { ascend 0 ((Num (pos 1) ∷ []) ∷ (Num (pos 1) ∷ []) ∷ []) ≡ false }
{}
