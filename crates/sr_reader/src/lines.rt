//! The lines of a script.
ghost use Rattle.std.specs.Prelude.{◌≡◌, ◌<◌, ◌^◌, ◌||◌, length, None, Some, IfOk, IfErr, OnOk, IsErrOf};
ghost use Rattle.sr_cell.specs.declared.list.No.TheVariants.{Refused};
ghost use Rattle.sr_lines.specs.Lines.{lines_of};
ghost use Rattle.sr_lines.specs.Script.{Creating, first_outside};
ghost use Rattle.sr_reader.specs.declared.script.LinePlace.{LinePlace as TheLinePlace};
ghost use Rattle.sr_reader.specs.LineSeen.{line_seen};
ghost use Rattle.sr_reader.specs.Lined.{IsLine, AreLines, place_seen, is_event, is_create, GoesOn, StopsAt};

use crate::cut::cut_line;
use crate::line::{Line, read_line};
use crate::script::LinePlace;
use sr_cell::list::{No, Seq};
use std::alloc::Global;

/// The lines of a script, in order: the first is line 1.
pub type Lines<'a> = Seq<Line<'a>>;

fn is_event(line: Line<'_>) -> bool
    ensures { result ≡ is_event (line_seen line.entry) }
{
    match line {
        Line::Event(_) => true,
        _ => false,
    }
}

fn is_create(line: Line<'_>) -> bool
    ensures { result ≡ is_create (line_seen line.entry) }
{
    match line {
        Line::Create(_) => true,
        _ => false,
    }
}

/// Whether events have begun, behind the line.
fn has_begun(running: bool, line: Line<'_>) -> bool
    ensures { result ≡ (running || is_event (line_seen line.entry)) }
{
    running || is_event(line)
}

/// A line of a script whose events have begun or not; or the place of its fault.
fn read_here(clients: u8, running: bool, bytes: &[u8]) -> Result<Line<'_>, u32>
    requires { length bytes.now < 2 ^ 32 }
    ensures line { IfOk result (IsLine clients bytes.now) }
    ensures inside { IfOk result (GoesOn clients bytes.now running) }
    ensures outside { IfErr result (StopsAt clients bytes.now running) }
{
    let line = match read_line(bytes, clients) {
        Ok(line) => line,
        Err(place) => return Err(place),
    };
    if running && is_create(line) {
        return Err(0);
    }
    Ok(line)
}

/// Reads all lines of a script with so many clients; or names the first that is outside the grammar, with the place of its fault.
pub fn read_lines(alloc: Global, clients: u8, bytes: &[u8]) -> Result<Lines<'_>, No<LinePlace>>
    requires { length bytes.now < 2 ^ 32 }
    ensures lines { IfOk result (AreLines clients bytes.now) }
    ensures inside { OnOk result (first_outside clients 1 Creating (lines_of bytes.now) ≡ None) }
    ensures outside { (fault : TheLinePlace) → IsErrOf result (Refused fault)
        → first_outside clients 1 Creating (lines_of bytes.now) ≡ Some (place_seen fault) }
{
    let mut lines = Seq::new(alloc);
    let mut rest = bytes;
    let mut number: u64 = 1;
    let mut running = false;
    'lines: while !rest.is_empty() {
        let cut = cut_line(rest);
        let line = match read_here(clients, running, cut.line) {
            Ok(line) => line,
            Err(place) => return Err(No::Refused(LinePlace {
                line: number,
                place,
            })),
        };
        running = has_begun(running, line);
        lines.push(line)?;
        rest = cut.rest;
        number += 1;
    }
    Ok(lines)
}
