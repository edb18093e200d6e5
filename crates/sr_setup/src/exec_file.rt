//! An exec file.
ghost use Rattle.std.specs.Prelude.{◌≡◌, ◌<◌, ◌≤◌, ◌^◌, ◌++◌, length, [], ◌∷◌, None, Some, IfOk, IfErr, OnOk, IsErrOf};
ghost use Rattle.sr_cell.specs.declared.list.No.TheVariants.{Refused};
ghost use Rattle.sr_lines.specs.Lines.{lines_of};
ghost use Rattle.sr_reader.specs.declared.script.LinePlace.{LinePlace as TheLinePlace};
ghost use Rattle.sr_reader.specs.Lined.{place_seen};
ghost use Rattle.sr_setup.specs.Files.{first_fault, exec_fault, statements_of};

use sr_cell::list::{No, NoMemory, Seq};
use sr_cell::text::Text;
use sr_reader::cut::cut_line;
use sr_reader::line::is_silent;
use sr_reader::script::LinePlace;
use std::alloc::Global;
use std::str;

/// Texts of statements, in their order.
pub type Statements = Seq<Text>;

/// A line of an exec file as a text; or the place of its first byte that is none.
fn exec_line(bytes: &[u8]) -> Result<&str, u32>
    requires { length bytes.now < 2 ^ 32 }
    ensures same { IfOk result (λ line. line.now ≡ bytes.now) }
    ensures inside { OnOk result (exec_fault bytes.now ≡ None) }
    ensures outside { IfErr result (λ place. exec_fault bytes.now ≡ Some place) }
{
    match str::from_utf8(bytes) {
        Ok(line) => Ok(line),
        Err(fault) => Err(fault.valid_up_to() as u32),
    }
}

/// Adds the statement of a line, if it has one.
fn add_statement(alloc: Global, statements: &mut Statements, line: &str) -> Result<(), NoMemory>
    ensures { OnOk result (statements.new ≡ statements.old ++ statements_of (line.now ∷ [])) }
{
    if is_silent(line) {
        return Ok(());
    }
    statements.push(Text::of(alloc, line)?)
}

/// The statements of an exec file; or the first line that is outside its grammar, with the place of the fault.
pub fn exec_statements(alloc: Global, bytes: &[u8]) -> Result<Statements, No<LinePlace>>
    requires { length bytes.now < 2 ^ 32 }
    ensures statements { IfOk result (λ statements. statements ≡ statements_of (lines_of bytes.now)) }
    ensures few { IfOk result (λ statements. length statements ≤ length bytes.now) }
    ensures inside { OnOk result (first_fault exec_fault 1 (lines_of bytes.now) ≡ None) }
    ensures outside { (fault : TheLinePlace) → IsErrOf result (Refused fault) → first_fault exec_fault 1 (lines_of bytes.now) ≡ Some (place_seen fault) }
{
    let mut statements = Seq::new(alloc);
    let mut rest = bytes;
    let mut number: u64 = 1;
    'lines: while !rest.is_empty() {
        let cut = cut_line(rest);
        match exec_line(cut.line) {
            Ok(line) => add_statement(alloc, &mut statements, line)?,
            Err(place) => return Err(No::Refused(LinePlace {
                line: number,
                place,
            })),
        }
        rest = cut.rest;
        number += 1;
    }
    Ok(statements)
}
