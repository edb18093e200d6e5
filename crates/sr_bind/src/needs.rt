//! The columns that a part of a query needs.
ghost use Rattle.std.specs.Prelude.{◌≡◌, ◌<◌, nat_lt, ◌^◌, ◌++◌, map, flat_map, length, IsTrue, IfOk, OnOk};
ghost use Rattle.std.specs.List.{list_all};
ghost use Rattle.sr_query.specs.Binding.{with_column, references, needed, named_columns, join_columns};
ghost use Rattle.sr_query.specs.Bound.{output_of};
ghost use Rattle.sr_query.specs.Meant.{meant};
ghost use Rattle.sr_resolve.specs.Joined.{join_of};
ghost use Rattle.sr_resolve.specs.Known.{are_known};
ghost use Rattle.sr_bind.specs.Needs.{compared_columns, is_low, is_joined};

use crate::references::references;
use sr_cell::attrs::Attrs;
use sr_cell::list::{NoMemory, Seq};
use sr_cell::schema::Schema;
use sr_query::condition::{Condition, Output};
use sr_query::query::{KeyJoin, Outputs};
use std::alloc::Global;

/// The set of columns with one more.
fn with_column(bits: u16, column: u8) -> u16
    requires { column < 16 }
    ensures { result ≡ with_column column bits }
{
    if Attrs(bits).has(column) {
        bits
    } else {
        bits + (1 << column)
    }
}

/// The columns of that part, its key among them.
pub fn need_of(key: u16, part: u8, named: &[Output]) -> Attrs
    requires key { key < 12 }
    requires named { IsTrue (list_all is_low (map output_of named.now)) }
    ensures { result ≡ needed part (map output_of named.now) (2 ^ key) }
{
    let mut bits = 1 << key;
    for output in named {
        if output.part == part {
            bits = with_column(bits, output.column);
        }
    }
    Attrs(bits)
}

/// All columns that a query names: selected, joined and compared.
pub fn named_columns(
    alloc: Global,
    schema: &Schema,
    tables: &[u8],
    outputs: &[Output],
    joins: &[KeyJoin],
    conjuncts: &[Condition],
) -> Result<Outputs, NoMemory>
    requires known { IsTrue (are_known schema.now tables.now) }
    requires joined { IsTrue (list_all (is_joined (length tables.now)) (map (join_of schema.now tables.now) joins.now)) }
    ensures { IfOk result (λ named. map output_of named
        ≡ named_columns (map output_of outputs.now) (map (join_of schema.now tables.now) joins.now) (map meant conjuncts.now)) }
{
    let mut named = Seq::new(alloc);
    named.extend(outputs)?;
    for join in joins {
        add_joined(&mut named, schema, tables, join)?;
    }
    add_compared(alloc, &mut named, conjuncts)?;
    Ok(named)
}

fn add_joined(
    named: &mut Outputs,
    schema: &Schema,
    tables: &[u8],
    join: &KeyJoin,
) -> Result<(), NoMemory>
    requires known { IsTrue (are_known schema.now tables.now) }
    requires joined { join.now.right < length tables.now }
    ensures { OnOk result (map output_of named.new ≡ map output_of named.old ++ join_columns (join_of schema.now tables.now join.now)) }
{
    let table = &schema.as_slice()[tables[join.right as usize] as usize];
    named.push(Output {
        part: join.left,
        column: join.column,
    })?;
    named.push(Output {
        part: join.right,
        column: table.key as u8,
    })
}

fn add_compared(alloc: Global, named: &mut Outputs, conjuncts: &[Condition]) -> Result<(), NoMemory>
    ensures { OnOk result (map output_of named.new ≡ map output_of named.old ++ compared_columns (map meant conjuncts.now)) }
{
    for conjunct in conjuncts {
        add_referred(alloc, named, conjunct)?;
    }
    Ok(())
}

fn add_referred(alloc: Global, named: &mut Outputs, conjunct: &Condition) -> Result<(), NoMemory>
    ensures { OnOk result (map output_of named.new ≡ map output_of named.old ++ map (λ r. r.1) (references (meant conjunct.now))) }
{
    let found = references(alloc, conjunct)?;
    for reference in found.as_slice() {
        named.push(reference.output)?;
    }
    Ok(())
}
