//! Parts of queries without the points that a client holds.
ghost use Rattle.std.specs.Prelude.{◌≡◌, ℕ, ◌<◌, ◌≤◌, ◌||◌, nat_le, true, List, [], ◌++◌, ◌⊎◌, ◌↔◌, length, IfOk, IsErrOf, IsTrue};
ghost use Rattle.std.specs.List.{list_all};
ghost use Rattle.sr_cell.specs.declared.list.No.TheVariants.{Refused};
ghost use Rattle.sr_cell.specs.Attrs.{has_column};
ghost use Rattle.sr_cell.specs.Cells.{Row};
ghost use Rattle.sr_cell.specs.Columns.{is_point};
ghost use Rattle.sr_box.specs.Points.{times, in_any, rect_fits, constrains_only, AreSame, HasPoint, HasNoPoint, IsEssential};
ghost use Rattle.sr_union.specs.Grid.{AreCutFrom, grid};
ghost use Rattle.sr_query.specs.Bound.{is_table};
ghost use Rattle.sr_trim.specs.Left.{left_over, is_constrained, AreLeft};

use sr_cell::attrs::Attrs;
use sr_cell::list::No;
use sr_cell::table::Table;
use sr_query::query::Part;
use sr_union::minus::Over;
use sr_union::rects::Rects;
use std::alloc::Global;

/// What is left of a part, and the columns that are shipped for it.
#[derive(Drop)]
pub struct Trimmed {
    pub rest: Rects,
    pub attrs: Attrs,
}

/// The points of the rects that the cover does not have. Each point is made to lie in one rect first: the limit is then
/// below the grid wherever it is passed.
fn left_of(
    alloc: Global,
    rects: &Rects,
    table: &Table,
    cover: &Rects,
    limit: u32,
) -> Result<Rects, No<Over>>
    requires table { IsTrue (is_table table.now) }
    requires rects_fit { list_all (rect_fits table.now.columns) rects.now ≡ true }
    requires cover_fits { list_all (rect_fits table.now.columns) cover.now ≡ true }
    ensures points { IfOk result (λ left. AreSame table.now.columns (in_any left) (left_over rects.now cover.now)) }
    ensures cuts { IfOk result (λ left. AreCutFrom table.now.columns (rects.now ++ cover.now) left) }
    ensures over { IsErrOf result (Refused (record {})) → limit < grid table.now.columns (rects.now ++ cover.now) }
{
    let once = match rects.disjoint(alloc, table, limit) {
        Ok(once) => once,
        Err(no) => return Err(no),
    };
    match once.minus(alloc, cover, table, limit) {
        Ok(left) => Ok(left),
        Err(no) => Err(no),
    }
}

fn rest_of(
    alloc: Global,
    part: &Part,
    table: &Table,
    cover: &Rects,
    limit: u32,
) -> Result<Rects, No<Over>>
    requires table { IsTrue (is_table table.now) }
    requires part_fits { list_all (rect_fits table.now.columns) part.now.rects ≡ true }
    requires cover_fits { list_all (rect_fits table.now.columns) cover.now ≡ true }
    ensures left { IfOk result (λ rest. AreLeft table.now.columns part.now.need (left_over part.now.rects cover.now) rest) }
    ensures cuts { IfOk result (λ rest. AreCutFrom table.now.columns (part.now.rects ++ cover.now) rest) }
    ensures few { IfOk result (λ rest. length rest ≤ limit) }
    ensures over { IsErrOf result (Refused (record {})) → limit < grid table.now.columns (part.now.rects ++ cover.now) }
{
    let left = match left_of(alloc, &part.rects, table, cover, limit) {
        Ok(left) => left,
        Err(no) => return Err(no),
    };
    match left.tidy(alloc, part.need, table, limit) {
        Ok(rest) => Ok(rest),
        Err(no) => Err(no),
    }
}

/// What is left of a part, which is cut only where the cover lacks some of it.
fn rest_if_any(
    alloc: Global,
    part: &Part,
    table: &Table,
    cover: &Rects,
    limit: u32,
) -> Result<Rects, No<Over>>
    requires table { IsTrue (is_table table.now) }
    requires part_fits { list_all (rect_fits table.now.columns) part.now.rects ≡ true }
    requires cover_fits { list_all (rect_fits table.now.columns) cover.now ≡ true }
    ensures left { IfOk result (λ rest. AreLeft table.now.columns part.now.need (left_over part.now.rects cover.now) rest) }
    ensures cuts { IfOk result (λ rest. AreCutFrom table.now.columns (part.now.rects ++ cover.now) rest) }
    ensures few { IfOk result (λ rest. length rest ≤ limit) }
    ensures over_left { IsErrOf result (Refused (record {})) → HasNoPoint table.now.columns (left_over part.now.rects cover.now) → ⊥ }
    ensures over { IsErrOf result (Refused (record {})) → limit < grid table.now.columns (part.now.rects ++ cover.now) }
{
    if part.rects.within(alloc, cover, table)? {
        return Ok(Rects::new(alloc));
    }
    rest_of(alloc, part, table, cover, limit)
}

fn both(a: Attrs, b: Attrs) -> Attrs
    ensures { (c : ℕ) → has_column result c ≡ (has_column a c || has_column b c) }
{
    Attrs(a.0 | b.0)
}

/// The needed columns, and those that a rect constrains.
fn shipped(need: Attrs, rects: &Rects) -> Attrs
    requires { list_all (λ rect. nat_le (length rect) 16) rects.now ≡ true }
    ensures { (c : ℕ) → has_column result c ≡ (has_column need c || is_constrained c rects.now) }
{
    let mut attrs = need;
    for rect in rects.as_slice() {
        attrs = both(attrs, rect.columns());
    }
    attrs
}

/// The points of a part that the cover does not have, in rects that constrain only needed and essential columns.
pub fn trim(
    alloc: Global,
    part: &Part,
    table: &Table,
    cover: &Rects,
    limit: u32,
) -> Result<Trimmed, No<Over>>
    requires table { IsTrue (is_table table.now) }
    requires part_fits { list_all (rect_fits table.now.columns) part.now.rects ≡ true }
    requires cover_fits { list_all (rect_fits table.now.columns) cover.now ≡ true }
    ensures fits { IfOk result (λ t. list_all (rect_fits table.now.columns) t.rest ≡ true) }
    ensures points { IfOk result (λ t. AreSame table.now.columns (in_any t.rest) (left_over part.now.rects cover.now)) }
    ensures once { IfOk result (λ t. (p : Row) → IsTrue (is_point table.now.columns p) → times t.rest p ≤ 1) }
    ensures bound { IfOk result (λ t. list_all (constrains_only t.attrs 0) t.rest ≡ true) }
    ensures columns { IfOk result (λ t. (c : ℕ)
        → IsTrue (has_column t.attrs c) ↔ (IsTrue (has_column part.now.need c) ⊎ IsEssential table.now.columns (left_over part.now.rects cover.now) c)) }
    ensures empty { IfOk result (λ t. (t.rest ≡ []) ↔ HasNoPoint table.now.columns (left_over part.now.rects cover.now)) }
    ensures some { IfOk result (λ t. (t.rest ≡ [] → ⊥) → HasPoint table.now.columns (left_over part.now.rects cover.now)) }
    ensures cuts { IfOk result (λ t. AreCutFrom table.now.columns (part.now.rects ++ cover.now) t.rest) }
    ensures few { IfOk result (λ t. length t.rest ≤ limit) }
    ensures over_left { IsErrOf result (Refused (record {})) → HasNoPoint table.now.columns (left_over part.now.rects cover.now) → ⊥ }
    ensures over { IsErrOf result (Refused (record {})) → limit < grid table.now.columns (part.now.rects ++ cover.now) }
{
    let rest = match rest_if_any(alloc, part, table, cover, limit) {
        Ok(rest) => rest,
        Err(no) => return Err(no),
    };
    let attrs = shipped(part.need, &rest);
    Ok(Trimmed { rest, attrs })
}
