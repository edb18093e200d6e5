//! A schema file.
ghost use Rattle.std.specs.Prelude.{◌≡◌, ◌<◌, ◌^◌, length, None, Some, IfOk, IfErr, OnOk, IsErrOf};
ghost use Rattle.sr_cell.specs.declared.list.No.TheVariants.{Refused};
ghost use Rattle.sr_lines.specs.Lines.{lines_of};
ghost use Rattle.sr_reader.specs.declared.script.LinePlace.{LinePlace as TheLinePlace};
ghost use Rattle.sr_reader.specs.Lined.{IsLine, AreLines, place_seen};
ghost use Rattle.sr_cell.specs.Clients.{most_clients};
ghost use Rattle.sr_setup.specs.Files.{first_fault, schema_fault};

use sr_cell::list::{No, Seq};
use sr_reader::cut::cut_line;
use sr_reader::line::{Line, read_line};
use sr_reader::lines::Lines;
use sr_reader::script::LinePlace;
use std::alloc::Global;

/// The most clients that a script may name.
pub(crate) const CLIENTS: u8 = 64;

/// A line of a schema file; or the place of its fault.
fn schema_line(bytes: &[u8]) -> Result<Line<'_>, u32>
    requires { length bytes.now < 2 ^ 32 }
    ensures line { IfOk result (IsLine most_clients bytes.now) }
    ensures inside { OnOk result (schema_fault bytes.now ≡ None) }
    ensures outside { IfErr result (λ place. schema_fault bytes.now ≡ Some place) }
{
    match read_line(bytes, CLIENTS) {
        Ok(Line::Event(_)) => Err(0),
        Ok(line) => Ok(line),
        Err(place) => Err(place),
    }
}

/// The lines of a schema file; or the first that is outside its grammar, with the place of the fault.
pub fn schema_lines(alloc: Global, bytes: &[u8]) -> Result<Lines<'_>, No<LinePlace>>
    requires { length bytes.now < 2 ^ 32 }
    ensures lines { IfOk result (AreLines most_clients bytes.now) }
    ensures inside { OnOk result (first_fault schema_fault 1 (lines_of bytes.now) ≡ None) }
    ensures outside { (fault : TheLinePlace) → IsErrOf result (Refused fault) → first_fault schema_fault 1 (lines_of bytes.now) ≡ Some (place_seen fault) }
{
    let mut lines = Seq::new(alloc);
    let mut rest = bytes;
    let mut number: u64 = 1;
    'lines: while !rest.is_empty() {
        let cut = cut_line(rest);
        match schema_line(cut.line) {
            Ok(line) => lines.push(line)?,
            Err(place) => return Err(No::Refused(LinePlace {
                line: number,
                place,
            })),
        }
        rest = cut.rest;
        number += 1;
    }
    Ok(lines)
}
