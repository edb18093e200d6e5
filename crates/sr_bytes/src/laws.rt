//! Reading and spelling belong together: what is spelled is read again, and what is read was spelled.
ghost use Rattle.std.specs.Prelude.{◌≡◌, [], ◌∷◌, pos};
ghost use Rattle.sr_cell.specs.declared.cell.Cell.TheVariants.{Num, Null};
ghost use Rattle.sr_bytes.specs.Laws.{IsExact};
ghost use Rattle.sr_bytes.specs.Reading.{a_cell, a_key, items, some_rows, some_rects};
ghost use Rattle.sr_bytes.specs.Spelling.{cell_bytes, has_cell_bytes, has_key_bytes, rows_bytes, have_rows_bytes, rects_bytes, have_rects_bytes};

/// Each cell of a table has one spelling, and what is read as a cell is just that.
pub fn cells_are_exact()
    ensures { IsExact a_cell cell_bytes has_cell_bytes }
{}

/// So is a key, which is never Null.
pub fn keys_are_exact()
    ensures { IsExact a_key cell_bytes has_key_bytes }
{}

/// So is a list of rows.
pub fn rows_are_exact()
    ensures { IsExact some_rows rows_bytes have_rows_bytes }
{}

/// So is a list of rects.
pub fn rects_are_exact()
    ensures { IsExact some_rects rects_bytes have_rects_bytes }
{}

/// A view lends its items from the first one on, and stops before one that is at fault.
pub fn views_lend_in_order()
    ensures both { items a_cell 2 (0 ∷ 0 ∷ 0 ∷ 0 ∷ 0 ∷ 0 ∷ 0 ∷ 0 ∷ 7 ∷ 0 ∷ 0 ∷ 0 ∷ 0 ∷ 0 ∷ 0 ∷ 0 ∷ 0 ∷ 8 ∷ []) ≡ Num (pos 7) ∷ Num (pos 8) ∷ [] }
    ensures second { items a_cell 1 (0 ∷ 0 ∷ 0 ∷ 0 ∷ 0 ∷ 0 ∷ 0 ∷ 0 ∷ 8 ∷ []) ≡ Num (pos 8) ∷ [] }
    ensures before_a_fault { items a_cell 2 (0 ∷ 0 ∷ 0 ∷ 0 ∷ 0 ∷ 0 ∷ 0 ∷ 0 ∷ 7 ∷ 3 ∷ []) ≡ Num (pos 7) ∷ [] }
    ensures null { items a_cell 2 (2 ∷ 0 ∷ 0 ∷ 0 ∷ 0 ∷ 0 ∷ 0 ∷ 0 ∷ 0 ∷ 8 ∷ []) ≡ Null ∷ Num (pos 8) ∷ [] }
{}
