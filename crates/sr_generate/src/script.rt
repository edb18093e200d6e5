//! The whole script, line by line.
ghost use Rattle.std.specs.Prelude.{◌≡◌, ◌≤◌, OnOk, IsErrOf};
ghost use Rattle.std.specs.Io.KnownBytes.{Appends};
ghost use Rattle.sr_cell.specs.declared.list.No.TheVariants.{Refused, NoMemory as Wanting};
ghost use Rattle.sr_io.specs.Causes.{Rose};
ghost use Rattle.sr_io.specs.Pieces.{WritesPrefix};
ghost use Rattle.sr_generate.specs.Script.{script};

use crate::draw::Draws;
use crate::line::{ROWS, line_at};
use sr_cell::list::No;
use sr_io::outside::{Failed, Sink};
use sr_io::whole::write_all;
use std::alloc::Global;

/// The line that makes the table.
const CREATE: &str =
    "CREATE TABLE t (k INT PRIMARY KEY CHECK (k BETWEEN 0 AND 999), a INT CHECK (a BETWEEN 0 AND 999), b INT CHECK (b BETWEEN 0 AND 99))\n";

/// Writes the script of that seed, with so many events, line by line. After an `Err` a prefix of it was written.
pub fn write_script<K: Sink>(
    alloc: Global,
    seed: u64,
    events: u32,
    sink: &mut K,
) -> Result<(), No<Failed>>
    ensures whole { OnOk result (Appends (K.writing sink.old).written (K.writing sink.new).written (script seed events)) }
    ensures prefix { WritesPrefix (K.writing sink.old).written (K.writing sink.new).written (script seed events) }
    ensures ok_keeps_faults { OnOk result ((K.writing sink.new).faults ≡ (K.writing sink.old).faults) }
    ensures want_keeps_faults { IsErrOf result Wanting → (K.writing sink.new).faults ≡ (K.writing sink.old).faults }
    ensures failed_is_counted { IsErrOf result (Refused record {}) → Rose (K.writing sink.old).faults (K.writing sink.new).faults }
    ensures stays_steady { K.IsSteady sink.old → K.IsSteady sink.new }
    ensures steady_never_fails { K.IsSteady sink.old → ¬ IsErrOf result (Refused record {}) }
    ensures held_stays { K.held sink.new ≡ K.held sink.old }
    ensures reading_stays { K.reading sink.new ≡ K.reading sink.old }
    ensures linking_stays { K.linking sink.new ≡ K.linking sink.old }
    ensures complaints_stay { K.complaints sink.new ≡ K.complaints sink.old }
{
    let mut draws = Draws { state: seed };
    match write_all(sink, CREATE.as_bytes()) {
        Ok(()) => {}
        Err(no) => return Err(no),
    }
    for number in 0..ROWS + u64::from(events) {
        match line_at(alloc, number, &mut draws) {
            Err(_) => return Err(No::NoMemory),
            Ok(line) => match write_all(sink, line.as_bytes()) {
                Ok(()) => {}
                Err(no) => return Err(no),
            },
        }
    }
    Ok(())
}
