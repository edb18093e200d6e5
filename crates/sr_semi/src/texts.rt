//! The texts that ask columns of one table.
ghost use Rattle.std.specs.Prelude.{◌≡◌, map, IfOk};
ghost use Rattle.sr_grammar.specs.Seen.{cond_seen, filter_seen};
ghost use Rattle.sr_query.specs.Binding.{column_at};
ghost use Rattle.sr_semi.specs.Keys.{key_in, literal_of};
ghost use Rattle.sr_semi.specs.Texts.{all_of, bare_reference, names_of, text_of};

use crate::conjuncts::Conjuncts;
use sr_cell::attrs::Attrs;
use sr_cell::cell::Cell;
use sr_cell::list::{Copied, NoMemory, Seq};
use sr_cell::table::Table;
use sr_cell::text::Text;
use sr_grammar::statement::{Atom, Cond, Literal, Literals, Name, Names, Select, Statement};
use sr_print::print::print;
use std::alloc::Global;

/// A column by its name alone.
fn reference(alloc: Global, column: &Text) -> Result<Name, NoMemory>
    ensures { IfOk result (λ name. name ≡ bare_reference column.now) }
{
    Ok(Name {
        table: None,
        column: column.copy(alloc)?,
        place: 0,
    })
}

/// The names of these columns of a table.
fn names_of(alloc: Global, table: &Table, need: Attrs) -> Result<Names, NoMemory>
    ensures { IfOk result (λ names. names ≡ names_of 0 need table.now.columns) }
{
    let mut names = Seq::new(alloc);
    for (c, column) in table.columns.as_slice().iter().enumerate() {
        if need.has_index(c) {
            names.push(reference(alloc, &column.name)?)?;
        }
    }
    Ok(names)
}

/// One condition that says all of them; none where there is none.
fn all_of(conjuncts: Conjuncts) -> Option<Cond>
    ensures { filter_seen result ≡ all_of (map cond_seen conjuncts) }
{
    let mut all = conjuncts.into_vec();
    if all.len() < 2 {
        return all.pop();
    }
    Some(Cond::And(all))
}

/// The text that asks these columns of a table, of the rows for which the conjuncts hold.
pub fn text_of(
    alloc: Global,
    table: &Table,
    need: Attrs,
    conjuncts: Conjuncts,
) -> Result<Text, NoMemory>
    ensures { IfOk result (λ text. text ≡ text_of table.now need (map cond_seen conjuncts)) }
{
    let select = Select {
        all: false,
        list: names_of(alloc, table, need)?,
        first: table.name.copy(alloc)?,
        first_place: 0,
        joins: Seq::new(alloc),
        filter: all_of(conjuncts),
        place: 0,
    };
    print(alloc, &Statement::Select(select))
}

fn literals(alloc: Global, cells: &[Cell]) -> Result<Literals, NoMemory>
    ensures { IfOk result (λ literals. literals ≡ map literal_of cells.now) }
{
    let mut literals = Seq::new(alloc);
    for cell in cells {
        literals.push(Literal {
            cell: cell.copy(alloc)?,
            place: 0,
        })?;
    }
    Ok(literals)
}

/// The key of a table by its name.
#[tactic(auto, using(crate::proofs::Looking::absent_column))]
fn key_name(alloc: Global, table: &Table) -> Result<Name, NoMemory>
    ensures { IfOk result (λ name. name ≡ bare_reference (column_at table.now table.now.key).name) }
{
    match table.columns.get(table.key as usize) {
        Some(column) => reference(alloc, &column.name),
        None => reference(alloc, &Text::of(alloc, "")?),
    }
}

/// That the key of a table is one of these.
pub fn key_in(alloc: Global, table: &Table, keys: &[Cell]) -> Result<Cond, NoMemory>
    ensures { IfOk result (λ c. cond_seen c ≡ key_in table.now keys.now) }
{
    let name = key_name(alloc, table)?;
    Ok(Cond::Test(name, Atom::OneOf(literals(alloc, keys)?)))
}
