//! Rows as bytes.
ghost use Rattle.std.specs.Prelude.{◌≡◌, ◌++◌, IfOk, OnOk};
ghost use Rattle.sr_bytes.specs.Spelling.{count_bytes, number_bytes};
ghost use Rattle.sr_handle.specs.Packed.{packed_cell, packed_row, packed_rows};

use sr_bytes::write::push_count;
use sr_cell::cell::{Cell, Row};
use sr_cell::list::{Bytes, NoMemory, Seq};
use std::alloc::Global;

/// Four bytes that count the items, unless there are too many.
fn push_length(out: &mut Bytes, length: usize) -> Result<(), NoMemory>
    ensures { OnOk result (out.new ≡ out.old ++ count_bytes length) }
{
    match u32::try_from(length) {
        Ok(count) => push_count(out, count),
        Err(_) => Err(NoMemory),
    }
}

#[tactic(auto, unfolding(sr_bytes::specs::Spelling::number_bytes))]
fn push_number(out: &mut Bytes, number: i64) -> Result<(), NoMemory>
    ensures { OnOk result (out.new ≡ out.old ++ number_bytes number) }
{
    out.extend(&number.to_be_bytes())
}

fn push_cell(out: &mut Bytes, cell: &Cell) -> Result<(), NoMemory>
    ensures { OnOk result (out.new ≡ out.old ++ packed_cell cell.now) }
{
    match cell {
        Cell::Num(number) => {
            out.push(0)?;
            push_number(out, *number)
        }
        Cell::Str(text) => {
            let bytes = text.as_str().as_bytes();
            out.push(1)?;
            push_length(out, bytes.len())?;
            out.extend(bytes)
        }
        Cell::Null => out.push(2),
    }
}

fn push_row(out: &mut Bytes, row: &Row) -> Result<(), NoMemory>
    ensures { OnOk result (out.new ≡ out.old ++ packed_row row.now) }
{
    push_length(out, row.len())?;
    for cell in row.as_slice() {
        push_cell(out, cell)?;
    }
    Ok(())
}

/// The bytes of the rows, one behind the other.
pub fn pack_rows(alloc: Global, rows: &[Row]) -> Result<Bytes, NoMemory>
    ensures { IfOk result (λ bytes. bytes ≡ packed_rows rows.now) }
{
    let mut out = Seq::new(alloc);
    for row in rows {
        push_row(&mut out, row)?;
    }
    Ok(out)
}
