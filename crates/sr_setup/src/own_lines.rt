//! The lines of a script of one client.
ghost use Rattle.std.specs.Prelude.{◌≡◌, ℕ, ◌<◌, ◌^◌, List, length, Option as Maybe, None, Some, IfOk, IfErr, OnOk, IsErrOf};
ghost use Rattle.std.specs.List.{AllZip};
ghost use Rattle.sr_cell.specs.declared.list.No.TheVariants.{Refused};
ghost use Rattle.sr_lines.specs.Lines.{lines_of};
ghost use Rattle.sr_reader.specs.declared.script.LinePlace.{LinePlace as TheLinePlace};
ghost use Rattle.sr_reader.specs.Lined.{place_seen};
ghost use Rattle.sr_setup.specs.Files.{first_fault};

use sr_cell::list::{No, Seq};
use sr_reader::cut::cut_line;
use sr_reader::script::LinePlace;
use std::alloc::Global;

/// A line of a script of one client.
pub trait OwnLine<'a>: Sized + Drop {
    /// The place of the fault of a line, for the client of this number.
    ghost fault: { ℕ → List ℕ → Maybe ℕ };

    /// This is what the text of a line says.
    ghost says: { List ℕ → Self → Type 0 };

    /// Reads a line for the client of this number; or names the place of its fault, in bytes.
    fn read(bytes: &'a [u8], id: u8) -> Result<Self, u32>
        requires { length bytes.now < 2 ^ 32 }
        ensures line { IfOk result (says bytes.now) }
        ensures inside { OnOk result (fault id bytes.now ≡ None) }
        ensures outside { IfErr result (λ place. fault id bytes.now ≡ Some place) };
}

/// The lines of a script; or the first that is outside its grammar, with the place of the fault.
pub fn own_lines<'a, L: OwnLine<'a>>(
    alloc: Global,
    id: u8,
    bytes: &'a [u8],
) -> Result<Seq<L>, No<LinePlace>>
    requires { length bytes.now < 2 ^ 32 }
    ensures lines { IfOk result (AllZip L.says (lines_of bytes.now)) }
    ensures inside { OnOk result (first_fault (L.fault id) 1 (lines_of bytes.now) ≡ None) }
    ensures outside { (fault : TheLinePlace) → IsErrOf result (Refused fault) → first_fault (L.fault id) 1 (lines_of bytes.now) ≡ Some (place_seen fault) }
{
    let mut lines = Seq::new(alloc);
    let mut rest = bytes;
    let mut number: u64 = 1;
    'lines: while !rest.is_empty() {
        let cut = cut_line(rest);
        match L::read(cut.line, id) {
            Ok(line) => lines.push(line)?,
            Err(place) => return Err(No::Refused(LinePlace {
                line: number,
                place,
            })),
        }
        rest = cut.rest;
        number += 1;
    }
    Ok(lines)
}
