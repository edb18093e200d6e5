//! The tables and statements of a server's files.
ghost use Rattle.std.specs.Prelude.{◌≡◌, ℕ, ◌<◌, ◌^◌, ◌⊎◌, nat_lt, List, [], length, Ok, Some, None, IsTrue, IfOk, OnOk, IsErrOf};
ghost use Rattle.std.specs.List.{list_all};
ghost use Rattle.sr_cell.specs.declared.fault.Fault.{Fault as TheFault};
ghost use Rattle.sr_cell.specs.declared.list.No.TheVariants.{Refused, NoMemory as Wanting};
ghost use Rattle.sr_lines.specs.Creates.{Creates};
ghost use Rattle.sr_lines.specs.Lines.{lines_of};
ghost use Rattle.sr_lines.specs.Script.{FirstRefused, LinePlace as TheLinePlace};
ghost use Rattle.sr_load.specs.Filling.{filled};
ghost use Rattle.sr_reader.specs.Lined.{AreLines, place_seen};
ghost use Rattle.sr_reader.specs.declared.script.LinePlace.{LinePlace as ReadPlace};
ghost use Rattle.sr_setup.specs.Faults.{IsRefusal};
ghost use Rattle.sr_cell.specs.Clients.{most_clients};
ghost use Rattle.sr_setup.specs.Files.{statements_of, outside, RefusesCreate, RefusesLoad, SetsUp};
ghost use Rattle.sr_setup.specs.declared.setup.SetupFault.{SetupFault as TheSetupFault};
ghost use Rattle.sr_setup.specs.declared.setup.SetupFault.TheVariants.{Line, Create, Load as LoadRefused};
ghost use Rattle.sr_tables.specs.Stored.{no_rows};

use crate::exec_file::{Statements, exec_statements};
use crate::schema_file::schema_lines;
use sr_cell::fault::Fault;
use sr_cell::list::No;
use sr_cell::text::Text;
use sr_load::fill::{Load, LoadFault, fill};
use sr_reader::head::created;
use sr_reader::lines::Lines;
use sr_reader::script::LinePlace;
use sr_tables::tables::Tables;
use std::alloc::Global;

/// The tables with the rows of their files, and the statements to carry out first.
#[derive(Drop)]
pub struct Setup {
    pub tables: Tables,
    pub statements: Statements,
}

/// Why files are refused.
#[derive(Drop)]
pub enum SetupFault {
    /// The line is the first that is outside the grammar of its file, counted from 1, and the place of its fault in bytes. Those of the
    /// schema file come first.
    Line { line: u64, place: u32 },
    /// The line is the first CREATE line that is refused, counted from 1, and why. No line is outside the grammar.
    Create { line: u64, fault: Fault },
    /// The file for the table of this name is the first that is refused, and why. No line is outside the grammar, and no CREATE line
    /// is refused.
    Load { table: Text, fault: Fault },
}

/// The lines of a schema file, and the statements of an exec file.
#[derive(Drop)]
struct Judged<'a> {
    lines: Lines<'a>,
    statements: Statements,
}

/// Judges the lines of both files: the first that is outside the grammar of its file is named.
fn judge<'a>(alloc: Global, schema: &'a [u8], exec: &[u8]) -> Result<Judged<'a>, No<LinePlace>>
    requires schema { length schema.now < 2 ^ 32 }
    requires exec { length exec.now < 2 ^ 32 }
    ensures lines { IfOk result (λ judged. AreLines most_clients schema.now judged.lines) }
    ensures statements { IfOk result (λ judged. judged.statements ≡ statements_of (lines_of exec.now)) }
    ensures few { IfOk result (λ judged. length judged.statements < 2 ^ 32) }
    ensures inside { OnOk result (outside schema.now exec.now ≡ None) }
    ensures outside { (fault : ReadPlace) → IsErrOf result (Refused fault) → outside schema.now exec.now ≡ Some (place_seen fault) }
{
    let lines = match schema_lines(alloc, schema) {
        Ok(lines) => lines,
        Err(no) => return Err(no),
    };
    match exec_statements(alloc, exec) {
        Ok(statements) => Ok(Judged { lines, statements }),
        Err(no) => Err(no),
    }
}

/// The tables of the CREATE lines with the rows of the files; or the first CREATE line that is refused, or else the first file.
fn fill_tables(alloc: Global, lines: &Lines<'_>, loads: &[Load]) -> Result<Tables, No<SetupFault>>
    requires lines { (schema : List ℕ) × AreLines most_clients schema lines.now }
    requires loads { IsTrue (list_all (λ load. nat_lt (length load.bytes) (2 ^ 32)) loads.now) }
    ensures created { (schema : List ℕ) → AreLines most_clients schema lines.now
        → IfOk result (λ tables. Creates most_clients [] (lines_of schema) tables.schema) }
    ensures accepts { (schema : List ℕ) → AreLines most_clients schema lines.now
        → OnOk result ((line : ℕ) (fault : TheFault) → FirstRefused most_clients 1 [] (lines_of schema) line fault → ⊥) }
    ensures filled { IfOk result (λ tables. filled tables.schema loads.now (no_rows tables.schema) ≡ Ok tables.rows) }
    ensures refused { (schema : List ℕ) → AreLines most_clients schema lines.now → (fault : TheSetupFault) → IsErrOf result (Refused fault)
        → IsRefusal schema loads.now fault }
{
    let schema = match created(alloc, lines) {
        Ok(schema) => schema,
        Err(No::Refused(refused)) => {
            return Err(No::Refused(SetupFault::Create {
                line: refused.number,
                fault: refused.fault,
            }));
        }
        Err(No::NoMemory) => return Err(No::NoMemory),
    };
    match fill(alloc, schema, loads) {
        Ok(tables) => Ok(tables),
        Err(No::Refused(LoadFault { table, fault })) => {
            Err(No::Refused(SetupFault::Load { table, fault }))
        }
        Err(No::NoMemory) => Err(No::NoMemory),
    }
}

/// Reads what a server is set up with: judges the lines of the schema file and then those of the exec file, makes the tables of the
/// CREATE lines, and fills them from their files.
pub fn set_up(
    alloc: Global,
    schema: &[u8],
    exec: &[u8],
    loads: &[Load],
) -> Result<Setup, No<SetupFault>>
    requires schema { length schema.now < 2 ^ 32 }
    requires exec { length exec.now < 2 ^ 32 }
    requires loads { IsTrue (list_all (λ load. nat_lt (length load.bytes) (2 ^ 32)) loads.now) }
    ensures sets_up { IfOk result (λ setup. SetsUp schema.now exec.now loads.now setup.tables setup.statements) }
    ensures few { IfOk result (λ setup. length setup.statements < 2 ^ 32) }
    ensures line { (line place : ℕ) → IsErrOf result (Refused (Line line place)) → outside schema.now exec.now ≡ Some (record { line = line; place = place }) }
    ensures line_first { (at : TheLinePlace) → outside schema.now exec.now ≡ Some at
        → IsErrOf result (Refused (Line at.line at.place)) ⊎ IsErrOf result Wanting }
    ensures create { (line : ℕ) (fault : TheFault) → IsErrOf result (Refused (Create line fault)) → RefusesCreate schema.now exec.now line fault }
    ensures load { (table : List ℕ) (fault : TheFault) → IsErrOf result (Refused (LoadRefused table fault))
        → RefusesLoad schema.now exec.now loads.now table fault }
{
    let judged = match judge(alloc, schema, exec) {
        Ok(judged) => judged,
        Err(No::Refused(at)) => {
            return Err(No::Refused(SetupFault::Line {
                line: at.line,
                place: at.place,
            }));
        }
        Err(No::NoMemory) => return Err(No::NoMemory),
    };
    let Judged { lines, statements } = judged;
    match fill_tables(alloc, &lines, loads) {
        Ok(tables) => Ok(Setup { tables, statements }),
        Err(no) => Err(no),
    }
}
