//! The tables and the events of a client's files.
ghost use Rattle.std.specs.Prelude.{◌≡◌, ℕ, ◌<◌, ◌^◌, ◌⊎◌, [], length, None, Some, IsTrue, IfOk, OnOk, IsErrOf};
ghost use Rattle.std.specs.List.{list_all, AllZip};
ghost use Rattle.sr_cell.specs.declared.fault.Fault.{Fault as TheFault};
ghost use Rattle.sr_cell.specs.declared.list.No.TheVariants.{Refused, NoMemory as Wanting};
ghost use Rattle.sr_cell.specs.Clients.{most_clients};
ghost use Rattle.sr_lines.specs.Lines.{lines_of};
ghost use Rattle.sr_lines.specs.Creates.{Creates};
ghost use Rattle.sr_lines.specs.Script.{FirstRefused, LinePlace as TheLinePlace};
ghost use Rattle.sr_query.specs.Bound.{is_table};
ghost use Rattle.sr_reader.specs.Lined.{AreLines, place_seen};
ghost use Rattle.sr_reader.specs.declared.script.LinePlace.{LinePlace as ReadPlace};
ghost use Rattle.sr_setup.specs.Files.{first_fault};
ghost use Rattle.sr_setup.specs.ClientFiles.{client_outside, script_outside, ClientRefuses, IsAsked, Refuses};
ghost use Rattle.sr_setup.specs.declared.client_setup.ClientFault.TheVariants.{Line, Create};

use crate::client_script::client_events;
use crate::own_lines::{OwnLine, own_lines};
use crate::schema_file::schema_lines;
use sr_cell::fault::Fault;
use sr_cell::list::{No, Seq};
use sr_cell::schema::Schema;
use sr_reader::head::created;
use sr_reader::line::Line as ScriptLine;
use sr_reader::lines::Lines;
use sr_reader::script::{LinePlace, Script};
use std::alloc::Global;

/// Why the files of a client are refused.
#[derive(Clone, Copy, Debug, PartialEq, Eq)]
pub enum ClientFault {
    /// The line is the first that is outside the grammar of its file, counted from 1, and the place of its fault in bytes. Those of the
    /// schema file come first.
    Line { line: u64, place: u32 },
    /// The line is the first CREATE line that is refused, counted from 1, and why. No line is outside the grammar.
    Create { line: u64, fault: Fault },
}

/// The lines of both files.
#[derive(Drop)]
struct Judged<'a, L> {
    schema: Lines<'a>,
    script: Seq<L>,
}

/// The tables of a schema file, and the lines of a script.
#[derive(Drop)]
pub(crate) struct Prepared<L> {
    pub schema: Schema,
    pub lines: Seq<L>,
}

/// Judges the lines of both files: the first that is outside the grammar of its file is named.
fn judge<'a, L: OwnLine<'a>>(
    alloc: Global,
    id: u8,
    schema: &'a [u8],
    script: &'a [u8],
) -> Result<Judged<'a, L>, No<LinePlace>>
    requires schema { length schema.now < 2 ^ 32 }
    requires script { length script.now < 2 ^ 32 }
    ensures schema { IfOk result (λ judged. AreLines most_clients schema.now judged.schema) }
    ensures script { IfOk result (λ judged. AllZip L.says (lines_of script.now) judged.script) }
    ensures own { OnOk result (first_fault (L.fault id) 1 (lines_of script.now) ≡ None) }
    ensures inside { OnOk result (script_outside (L.fault id) schema.now script.now ≡ None) }
    ensures outside { (fault : ReadPlace) → IsErrOf result (Refused fault) → script_outside (L.fault id) schema.now script.now ≡ Some (place_seen fault) }
{
    let schema = match schema_lines(alloc, schema) {
        Ok(lines) => lines,
        Err(no) => return Err(no),
    };
    match own_lines(alloc, id, script) {
        Ok(script) => Ok(Judged { schema, script }),
        Err(no) => Err(no),
    }
}

/// Judges the lines of both files, and makes the tables of the CREATE lines.
pub(crate) fn prepare<'a, L: OwnLine<'a>>(
    alloc: Global,
    id: u8,
    schema: &'a [u8],
    script: &'a [u8],
) -> Result<Prepared<L>, No<ClientFault>>
    requires schema { length schema.now < 2 ^ 32 }
    requires script { length script.now < 2 ^ 32 }
    ensures created { IfOk result (λ made. Creates most_clients [] (lines_of schema.now) made.schema) }
    ensures accepts { OnOk result ((line : ℕ) (fault : TheFault) → FirstRefused most_clients 1 [] (lines_of schema.now) line fault → ⊥) }
    ensures tables { IfOk result (λ made. IsTrue (list_all is_table made.schema)) }
    ensures lines { IfOk result (λ made. AllZip L.says (lines_of script.now) made.lines) }
    ensures own { OnOk result (first_fault (L.fault id) 1 (lines_of script.now) ≡ None) }
    ensures inside { OnOk result (script_outside (L.fault id) schema.now script.now ≡ None) }
    ensures line { (line place : ℕ) → IsErrOf result (Refused (Line line place))
        → script_outside (L.fault id) schema.now script.now ≡ Some (record { line = line; place = place }) }
    ensures line_first { (at : TheLinePlace) → script_outside (L.fault id) schema.now script.now ≡ Some at
        → IsErrOf result (Refused (Line at.line at.place)) ⊎ IsErrOf result Wanting }
    ensures create { (line : ℕ) (fault : TheFault) → IsErrOf result (Refused (Create line fault)) → Refuses (L.fault id) schema.now script.now line fault }
{
    let Judged { schema, script } = match judge::<L>(alloc, id, schema, script) {
        Ok(judged) => judged,
        Err(No::Refused(at)) => {
            return Err(No::Refused(ClientFault::Line {
                line: at.line,
                place: at.place,
            }));
        }
        Err(No::NoMemory) => return Err(No::NoMemory),
    };
    match created(alloc, &schema) {
        Ok(schema) => Ok(Prepared {
            schema,
            lines: script,
        }),
        Err(No::Refused(refused)) => Err(No::Refused(ClientFault::Create {
            line: refused.number,
            fault: refused.fault,
        })),
        Err(No::NoMemory) => Err(No::NoMemory),
    }
}

/// Reads the files of the client of this number: judges the lines of the schema file and then those of the script, makes the tables of
/// the CREATE lines, and reads the events of the script over them.
pub fn set_up_client(
    alloc: Global,
    id: u8,
    schema: &[u8],
    script: &[u8],
) -> Result<Script, No<ClientFault>>
    requires schema { length schema.now < 2 ^ 32 }
    requires script { length script.now < 2 ^ 32 }
    ensures asked { IfOk result (λ read. IsAsked id schema.now script.now read.schema read.lines) }
    ensures tables { IfOk result (λ read. IsTrue (list_all is_table read.schema)) }
    ensures line { (line place : ℕ) → IsErrOf result (Refused (Line line place))
        → client_outside id schema.now script.now ≡ Some (record { line = line; place = place }) }
    ensures line_first { (at : TheLinePlace) → client_outside id schema.now script.now ≡ Some at
        → IsErrOf result (Refused (Line at.line at.place)) ⊎ IsErrOf result Wanting }
    ensures create { (line : ℕ) (fault : TheFault) → IsErrOf result (Refused (Create line fault)) → ClientRefuses id schema.now script.now line fault }
{
    let Prepared { schema, lines } = match prepare::<ScriptLine<'_>>(alloc, id, schema, script) {
        Ok(prepared) => prepared,
        Err(no) => return Err(no),
    };
    match client_events(alloc, &schema, id, &lines) {
        Ok(lines) => Ok(Script { schema, lines }),
        Err(_) => Err(No::NoMemory),
    }
}
