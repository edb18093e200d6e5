//! The tables of the CREATE lines in front of all others.
ghost use Rattle.std.specs.Prelude.{◌≡◌, ℕ, List, [], ◌∷◌, ◌++◌, IsTrue, IfOk, OnOk, IsErrOf};
ghost use Rattle.std.specs.List.{list_all};
ghost use Rattle.sr_cell.specs.declared.list.No.TheVariants.{Refused};
ghost use Rattle.sr_cell.specs.declared.fault.Fault.{Fault as TheFault};
ghost use Rattle.sr_cell.specs.declared.table.Table.{Table};
ghost use Rattle.sr_grammar.specs.Tokens.{tokens_of};
ghost use Rattle.sr_lines.specs.Lines.{lines_of};
ghost use Rattle.sr_lines.specs.Script.{begins_create, RefusesTable, AddsTable, FirstRefused};
ghost use Rattle.sr_lines.specs.Creates.{Creates};
ghost use Rattle.sr_query.specs.Bound.{is_table};
ghost use Rattle.sr_reader.specs.declared.head.RefusedLine.{RefusedLine as TheRefusedLine};
ghost use Rattle.sr_reader.specs.Lined.{AreLines};

use crate::line::Line;
use crate::lines::Lines;
use sr_cell::fault::Fault;
use sr_cell::list::No;
use sr_cell::schema::Schema;
use sr_grammar::statement::Statement;
use sr_sql::read::read;
use std::alloc::Global;

/// A CREATE line that is refused, by its number counted from 1, and why.
#[derive(Clone, Copy)]
pub struct RefusedLine {
    pub number: u64,
    pub fault: Fault,
}

/// Adds the table of a CREATE, if it is not refused.
fn add_table(alloc: Global, schema: &mut Schema, sql: &str) -> Result<(), No<Fault>>
    requires { IsTrue (begins_create (tokens_of sql.now)) }
    ensures added { OnOk result ((t : Table) × AddsTable schema.old sql.now t × (schema.new ≡ schema.old ++ t ∷ [])) }
    ensures refused { (fault : TheFault) → IsErrOf result (Refused fault) → RefusesTable schema.old sql.now fault }
{
    match read(alloc, sql)? {
        Statement::Create(table) => schema.add_nullable(alloc, table),
        _ => unreachable!(),
    }
}

/// The tables of the CREATE lines of the script that the lines are of; or the first of these lines that is refused.
pub fn created(alloc: Global, lines: &Lines<'_>) -> Result<Schema, No<RefusedLine>>
    requires { (clients : ℕ) × (bytes : List ℕ) × AreLines clients bytes lines.now }
    ensures created { (clients : ℕ) (bytes : List ℕ) → AreLines clients bytes lines.now → IfOk result (Creates clients [] (lines_of bytes)) }
    ensures sound { IfOk result (λ schema. IsTrue (list_all is_table schema)) }
    ensures accepts { (clients : ℕ) (bytes : List ℕ) → AreLines clients bytes lines.now
        → OnOk result ((line : ℕ) (fault : TheFault) → FirstRefused clients 1 [] (lines_of bytes) line fault → ⊥) }
    ensures refused { (clients : ℕ) (bytes : List ℕ) → AreLines clients bytes lines.now → (refused : TheRefusedLine)
        → IsErrOf result (Refused refused) → FirstRefused clients 1 [] (lines_of bytes) refused.number refused.fault }
{
    let mut schema = Schema::new(alloc);
    for (i, line) in lines.as_slice().iter().enumerate() {
        match line {
            Line::Silent => {}
            Line::Create(sql) => match add_table(alloc, &mut schema, sql) {
                Ok(()) => {}
                Err(No::Refused(fault)) => {
                    let number = i as u64 + 1;
                    return Err(No::Refused(RefusedLine { number, fault }));
                }
                Err(No::NoMemory) => return Err(No::NoMemory),
            },
            Line::Event(_) => return Ok(schema),
        }
    }
    Ok(schema)
}
