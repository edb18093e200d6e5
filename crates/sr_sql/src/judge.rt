//! Judging the columns of a CREATE: their domains, and the one key, which is not nullable.
ghost use Rattle.std.specs.Prelude.{◌≡◌, ◌≤◌, false, length, filter, map, IfOk, Ok, Err, IsErrOf};
ghost use Rattle.std.specs.List.{list_any};
ghost use Rattle.sr_cell.specs.declared.fault.Fault.{Fault as TheFault};
ghost use Rattle.sr_cell.specs.declared.list.No.TheVariants.{Refused};
ghost use Rattle.sr_grammar.specs.Trees.{Defines, Create, is_key, is_nullable, is_nullable_key, may_check, is_bad_rule, has_bad_domain, checked, column_of, key_of, statement_of};

use crate::columns::Written;
use sr_cell::fault::{Fault, Why};
use sr_cell::list::{Copied, No, NoMemory};
use sr_cell::table::{Column, Columns, Kind, Table};
use sr_cell::text::Text;
use sr_grammar::statement::{Check, ColumnRule, Definition};
use std::alloc::Global;

/// The ends of the widest domain.
const LEAST: i64 = -1099511627776;

const GREATEST: i64 = 1099511627775;

/// The numbers from one end to the other, both inside.
#[derive(Clone, Copy)]
struct Ends {
    lo: i64,
    hi: i64,
}

fn is_key(column: &Definition) -> bool
    ensures { result ≡ is_key column.now }
{
    for rule in column.rules.as_slice() {
        if matches!(rule, ColumnRule::PrimaryKey) {
            return true;
        }
    }
    false
}

/// Whether a column has the rule NULL.
fn is_nullable(column: &Definition) -> bool
    ensures { result ≡ is_nullable column.now }
{
    for rule in column.rules.as_slice() {
        if matches!(rule, ColumnRule::Null) {
            return true;
        }
    }
    false
}

/// Whether a column marked as the key has the rule NULL.
fn any_nullable_key(columns: &[Definition]) -> bool
    ensures { result ≡ list_any is_nullable_key columns.now }
{
    for column in columns {
        if is_key(column) && is_nullable(column) {
            return true;
        }
    }
    false
}

/// Whether a column of this name and kind may have the range.
fn may_check(name: &Text, kind: Kind, check: &Check) -> bool
    ensures { result ≡ may_check name.now kind check.now }
{
    match kind {
        Kind::Num => {
            check.name.as_str() == name.as_str()
                && LEAST <= check.low
                && check.low <= check.high
                && check.high <= GREATEST
        }
        Kind::Str => false,
    }
}

fn has_bad_domain(column: &Definition) -> bool
    ensures { result ≡ has_bad_domain column.now }
{
    for rule in column.rules.as_slice() {
        match rule {
            ColumnRule::Check(check) if !may_check(&column.name, column.kind, check) => return true,
            _ => {}
        }
    }
    false
}

fn any_bad_domain(columns: &[Definition]) -> bool
    ensures { result ≡ list_any has_bad_domain columns.now }
{
    for column in columns {
        if has_bad_domain(column) {
            return true;
        }
    }
    false
}

/// How many of the columns are keys.
fn keys(columns: &[Definition]) -> usize
    ensures { result ≡ length (filter is_key columns.now) }
{
    let mut count = 0;
    for column in columns {
        if is_key(column) {
            count += 1;
        }
    }
    count
}

/// The number of the first key column, or how many columns there are.
fn first_key(columns: &[Definition]) -> usize
    ensures { result ≡ key_of columns.now }
{
    for (i, column) in columns.iter().enumerate() {
        if is_key(column) {
            return i;
        }
    }
    columns.len()
}

/// The domain of a column: that of its CHECK, or the default; texts have none.
fn domain(column: &Definition) -> Ends
    ensures { column_of column.now
        ≡ record { name = column.now.name; kind = column.now.kind; lo = result.lo; hi = result.hi; nullable = is_nullable column.now } }
{
    for rule in column.rules.as_slice() {
        match rule {
            ColumnRule::Check(check) => {
                return Ends {
                    lo: check.low,
                    hi: check.high,
                };
            }
            _ => {}
        }
    }
    match column.kind {
        Kind::Num => Ends {
            lo: LEAST,
            hi: GREATEST,
        },
        Kind::Str => Ends { lo: 0, hi: 0 },
    }
}

fn column_of(alloc: Global, column: &Definition) -> Result<Column, NoMemory>
    ensures { IfOk result (λ c. c ≡ column_of column.now) }
{
    let domain = domain(column);
    Ok(Column {
        name: column.name.copy(alloc)?,
        kind: column.kind,
        lo: domain.lo,
        hi: domain.hi,
        nullable: is_nullable(column),
    })
}

fn columns_of(alloc: Global, columns: &[Definition]) -> Result<Columns, NoMemory>
    ensures { IfOk result (λ c. c ≡ map column_of columns.now) }
{
    let mut all = Columns::new(alloc);
    for column in columns {
        all.push(column_of(alloc, column)?)?;
    }
    Ok(all)
}

/// The table of a CREATE, if its domains are good, and one column is the key and has no rule NULL.
pub(crate) fn table_of(alloc: Global, written: Written) -> Result<Table, No<Fault>>
    requires few { length written.columns ≤ 65536 }
    ensures found { IfOk result (λ table. statement_of (Defines written.name written.columns) ≡ Ok (Create table)) }
    ensures refused { (fault : TheFault) → IsErrOf result (Refused fault) → statement_of (Defines written.name written.columns) ≡ Err fault }
{
    let columns = written.columns.as_slice();
    if any_bad_domain(columns) {
        return Err(No::Refused(Fault {
            why: Why::BadDomain,
            at: 0,
        }));
    }
    if any_nullable_key(columns) {
        return Err(No::Refused(Fault {
            why: Why::BadNull,
            at: 0,
        }));
    }
    if keys(columns) != 1 {
        return Err(No::Refused(Fault {
            why: Why::NoKey,
            at: 0,
        }));
    }
    let key = first_key(columns) as u16;
    let columns = columns_of(alloc, columns)?;
    Ok(Table {
        name: written.name,
        columns,
        key,
    })
}
