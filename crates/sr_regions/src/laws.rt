//! Laws of the definitions: functions that do nothing, and whose contracts are worked values.
ghost use Rattle.std.specs.Prelude.{◌≡◌, pos, [], ◌∷◌};
ghost use Rattle.sr_cell.specs.declared.cell.Cell.TheVariants.{Num};
ghost use Rattle.sr_regions.specs.Holders.{holders_of};
ghost use Rattle.sr_regions.specs.Touched.{count_all, told_all};
ghost use Rattle.sr_regions.specs.Worked.{three, younger, second};

/// A change touches the region that its new row enters and no other, and then that region's class holds the key.
pub fn a_new_row_touches_one_region()
    ensures one_step { count_all (younger ∷ []) three ≡ 1 }
    ensures nobody_held { holders_of three 0 (Num (pos 2)) ≡ [] }
    ensures holds { holders_of (told_all (younger ∷ []) three) 0 (Num (pos 2)) ≡ second ∷ [] }
    ensures again { count_all (younger ∷ younger ∷ []) three ≡ 2 }
{}
