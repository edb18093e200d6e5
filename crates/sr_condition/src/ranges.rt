//! The values of a test as the bounds of one span.
ghost use Rattle.std.specs.Prelude.{◌≡◌, ◌++◌, ◌∷◌, [], true, Some, IfOk};
ghost use Rattle.sr_box.specs.declared.span.Span.TheVariants.{Strs};
ghost use Rattle.sr_cell.specs.declared.cell.Cell.TheVariants.{Num, Str};
ghost use Rattle.sr_cell.specs.declared.table.Kind.TheVariants.{Num as Numbers, Str as Texts};
ghost use Rattle.sr_cell.specs.Cells.{cell_le};
ghost use Rattle.sr_cell.specs.Columns.{are_bytes};
ghost use Rattle.sr_model.specs.Conditions.{passes, Between, Prefix};
ghost use Rattle.sr_model.specs.Ends.{places_of};
ghost use Rattle.sr_query.specs.Binding.{is_default};
ghost use Rattle.sr_condition.specs.Suits.{cell_suits};
ghost use Rattle.sr_condition.specs.Ranges.{ranged, IsRange};

use sr_box::prefix::next_prefix;
use sr_box::span::Span;
use sr_cell::cell::Cell;
use sr_cell::list::{Bytes, NoMemory, Seq};
use sr_cell::table::Column;
use sr_grammar::statement::Op;
use std::alloc::Global;

/// The bounds of the values that a comparison is true of; of `<>`, of those that it leaves out.
pub(crate) fn compared(
    alloc: Global,
    column: &Column,
    op: Op,
    value: &Cell,
) -> Result<Span, NoMemory>
    requires { cell_suits column.now.kind value.now ≡ true }
    ensures { IfOk result (IsRange column.now (passes (ranged op value.now)) (places_of (ranged op value.now))) }
{
    match value {
        Cell::Num(number) => Ok(number_range(column, op, *number)),
        Cell::Str(text) => text_range(alloc, column, op, text.as_str().as_bytes()),
        Cell::Null => unreachable!(),
    }
}

fn number_range(column: &Column, op: Op, number: i64) -> Span
    requires kind { column.now.kind ≡ Numbers }
    requires inside { is_default number ≡ true }
    ensures { IsRange column.now (passes (ranged op (Num number))) (places_of (ranged op (Num number))) result }
{
    match op {
        Op::Eq | Op::Ne => Span::Nums {
            lo: number,
            hi: number,
        },
        Op::Lt => Span::Nums {
            lo: column.lo,
            hi: number - 1,
        },
        Op::Le => Span::Nums {
            lo: column.lo,
            hi: number,
        },
        Op::Gt => Span::Nums {
            lo: number + 1,
            hi: column.hi,
        },
        Op::Ge => Span::Nums {
            lo: number,
            hi: column.hi,
        },
    }
}

fn text_range(alloc: Global, column: &Column, op: Op, text: &[u8]) -> Result<Span, NoMemory>
    requires { column.now.kind ≡ Texts }
    ensures { IfOk result (IsRange column.now (passes (ranged op (Str text.now))) (places_of (ranged op (Str text.now)))) }
{
    know_bytes(text);
    match op {
        Op::Eq | Op::Ne => texts(same_text(alloc, text)?, Some(next_text(alloc, text)?)),
        Op::Lt => texts(Seq::new(alloc), Some(same_text(alloc, text)?)),
        Op::Le => texts(Seq::new(alloc), Some(next_text(alloc, text)?)),
        Op::Gt => texts(next_text(alloc, text)?, None),
        Op::Ge => texts(same_text(alloc, text)?, None),
    }
}

fn texts(lo: Bytes, hi: Option<Bytes>) -> Result<Span, NoMemory>
    ensures { result ≡ Ok (Strs lo hi) }
{
    Ok(Span::Strs { lo, hi })
}

fn same_text(alloc: Global, text: &[u8]) -> Result<Bytes, NoMemory>
    ensures { IfOk result (λ same. same ≡ text.now) }
{
    let mut same = Seq::new(alloc);
    same.extend(text)?;
    Ok(same)
}

// The least text above it.
fn next_text(alloc: Global, text: &[u8]) -> Result<Bytes, NoMemory>
    ensures { IfOk result (λ next. next ≡ text.now ++ 0 ∷ []) }
{
    let mut next = same_text(alloc, text)?;
    next.push(0)?;
    Ok(next)
}

// A fact for the proof of its caller: the items of such a slice are bytes.
fn know_bytes(text: &[u8])
    ensures { are_bytes text.now ≡ true }
{}

/// The bounds of the values that lie between two, of which the second is not below the first.
pub(crate) fn between(
    alloc: Global,
    column: &Column,
    low: &Cell,
    high: &Cell,
) -> Result<Span, NoMemory>
    requires low { cell_suits column.now.kind low.now ≡ true }
    requires high { cell_suits column.now.kind high.now ≡ true }
    requires order { cell_le low.now high.now ≡ true }
    ensures { IfOk result (IsRange column.now (passes (Between low.now high.now)) (places_of (Between low.now high.now))) }
{
    match (low, high) {
        (Cell::Num(low), Cell::Num(high)) => Ok(number_between(column, *low, *high)),
        (Cell::Str(low), Cell::Str(high)) => text_between(
            alloc,
            column,
            low.as_str().as_bytes(),
            high.as_str().as_bytes(),
        ),
        _ => unreachable!(),
    }
}

fn number_between(column: &Column, low: i64, high: i64) -> Span
    requires kind { column.now.kind ≡ Numbers }
    requires order { cell_le (Num low) (Num high) ≡ true }
    ensures { IsRange column.now (passes (Between (Num low) (Num high))) (places_of (Between (Num low) (Num high))) result }
{
    Span::Nums { lo: low, hi: high }
}

fn text_between(alloc: Global, column: &Column, low: &[u8], high: &[u8]) -> Result<Span, NoMemory>
    requires kind { column.now.kind ≡ Texts }
    requires order { cell_le (Str low.now) (Str high.now) ≡ true }
    ensures { IfOk result (IsRange column.now (passes (Between (Str low.now) (Str high.now))) (places_of (Between (Str low.now) (Str high.now)))) }
{
    know_bytes(low);
    know_bytes(high);
    Ok(Span::Strs {
        lo: same_text(alloc, low)?,
        hi: Some(next_text(alloc, high)?),
    })
}

/// The bounds of the texts that begin so.
pub(crate) fn prefix(alloc: Global, column: &Column, start: &[u8]) -> Result<Span, NoMemory>
    requires { column.now.kind ≡ Texts }
    ensures { IfOk result (IsRange column.now (passes (Prefix start.now)) (places_of (Prefix start.now))) }
{
    know_bytes(start);
    let lo = same_text(alloc, start)?;
    Ok(Span::Strs {
        lo,
        hi: next_prefix(alloc, start)?,
    })
}
