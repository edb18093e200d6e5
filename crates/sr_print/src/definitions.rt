//! CREATE, and the columns that it defines.
#![tactic(auto, using(crate::proofs::WritingLists::written_append))]

ghost use Rattle.std.specs.Prelude.{◌≡◌, if◌then◌else◌, [], OnOk};
ghost use Rattle.sr_grammar.specs.Printed as tokens;
ghost use Rattle.sr_print.specs.Writes.{Writes};

use crate::printer::Printer;
use sr_cell::list::NoMemory;
use sr_cell::table::{Column, Kind, Table};

/// The ends of the domain of a column without a CHECK.
const LOW_DEFAULT: i64 = -1_099_511_627_776;

const HIGH_DEFAULT: i64 = 1_099_511_627_775;

/// Writes the CREATE of a table.
pub fn create(printer: &mut Printer, table: &Table) -> Result<(), NoMemory>
    ensures { OnOk result (Writes (tokens.create table.now) printer.old printer.new) }
{
    printer.key("CREATE")?;
    printer.key("TABLE")?;
    printer.name(table.name.as_str())?;
    printer.mark("(")?;
    columns(printer, usize::from(table.key), table.columns.as_slice())?;
    printer.mark(")")
}

fn columns(printer: &mut Printer, key: usize, all: &[Column]) -> Result<(), NoMemory>
    ensures { OnOk result (Writes (tokens.columns key all.now) printer.old printer.new) }
{
    let [first, others @ ..] = all else {
        return Ok(());
    };
    column(printer, key == 0, first)?;
    for (index, one) in others.iter().enumerate() {
        printer.mark(",")?;
        column(printer, key == index + 1, one)?;
    }
    Ok(())
}

fn column(printer: &mut Printer, is_key: bool, column: &Column) -> Result<(), NoMemory>
    ensures { OnOk result (Writes (tokens.column is_key column.now) printer.old printer.new) }
{
    printer.name(column.name.as_str())?;
    printer.key(kind_word(column.kind))?;
    if is_key {
        printer.key("PRIMARY")?;
        printer.key("KEY")?;
    }
    if column.nullable {
        printer.key("NULL")?;
    }
    if has_check(column) {
        check(printer, column)?;
    }
    Ok(())
}

fn kind_word(kind: Kind) -> &'static str
    ensures { result.now ≡ tokens.kind_word kind }
{
    match kind {
        Kind::Num => "INT",
        Kind::Str => "TEXT",
    }
}

/// Whether a column has a domain other than the default.
fn has_check(column: &Column) -> bool
    ensures { tokens.check_rule column.now.kind column.now.name column.now.lo column.now.hi
        ≡ (if result then tokens.check column.now.name column.now.lo column.now.hi else []) }
{
    match column.kind {
        Kind::Num => !(column.lo <= LOW_DEFAULT && HIGH_DEFAULT <= column.hi),
        Kind::Str => false,
    }
}

fn check(printer: &mut Printer, column: &Column) -> Result<(), NoMemory>
    ensures { OnOk result (Writes (tokens.check column.now.name column.now.lo column.now.hi) printer.old printer.new) }
{
    printer.key("CHECK")?;
    printer.mark("(")?;
    printer.name(column.name.as_str())?;
    printer.key("BETWEEN")?;
    printer.number(column.lo)?;
    printer.key("AND")?;
    printer.number(column.hi)?;
    printer.mark(")")
}
