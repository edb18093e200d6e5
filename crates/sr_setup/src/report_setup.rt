//! The tables and the lines of a report's files.
ghost use Rattle.std.specs.Prelude.{◌≡◌, ℕ, ◌<◌, ◌^◌, ◌⊎◌, length, Some, IsTrue, IfOk, IsErrOf};
ghost use Rattle.std.specs.List.{list_all};
ghost use Rattle.sr_cell.specs.declared.fault.Fault.{Fault as TheFault};
ghost use Rattle.sr_cell.specs.declared.list.No.TheVariants.{Refused, NoMemory as Wanting};
ghost use Rattle.sr_lines.specs.Script.{LinePlace as TheLinePlace};
ghost use Rattle.sr_query.specs.Bound.{is_table};
ghost use Rattle.sr_setup.specs.ReportFiles.{report_outside, ReportRefuses, IsReported};
ghost use Rattle.sr_setup.specs.declared.client_setup.ClientFault.TheVariants.{Line, Create};

use crate::client_setup::{ClientFault, Prepared, prepare};
use crate::report_line::ReportText;
use crate::report_script::{ReportScript, report_lines};
use sr_cell::list::No;
use std::alloc::Global;

/// Reads the files of the report of the client of this number: judges the lines of the schema file and then those of the script, makes
/// the tables of the CREATE lines, and reads the events of the script over them. What an aggregate says is not judged here.
pub fn set_up_report(
    alloc: Global,
    id: u8,
    schema: &[u8],
    script: &[u8],
) -> Result<ReportScript, No<ClientFault>>
    requires schema { length schema.now < 2 ^ 32 }
    requires script { length script.now < 2 ^ 32 }
    ensures asked { IfOk result (λ read. IsReported id schema.now script.now read.schema read.lines) }
    ensures tables { IfOk result (λ read. IsTrue (list_all is_table read.schema)) }
    ensures line { (line place : ℕ) → IsErrOf result (Refused (Line line place))
        → report_outside id schema.now script.now ≡ Some (record { line = line; place = place }) }
    ensures line_first { (at : TheLinePlace) → report_outside id schema.now script.now ≡ Some at
        → IsErrOf result (Refused (Line at.line at.place)) ⊎ IsErrOf result Wanting }
    ensures create { (line : ℕ) (fault : TheFault) → IsErrOf result (Refused (Create line fault)) → ReportRefuses id schema.now script.now line fault }
{
    let Prepared { schema, lines } = match prepare::<ReportText<'_>>(alloc, id, schema, script) {
        Ok(prepared) => prepared,
        Err(no) => return Err(no),
    };
    match report_lines(alloc, &schema, id, lines.as_slice()) {
        Ok(lines) => Ok(ReportScript { schema, lines }),
        Err(_) => Err(No::NoMemory),
    }
}
