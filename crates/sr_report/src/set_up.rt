//! A report from its files.
ghost use Rattle.std.specs.Prelude.{◌≡◌, ℕ, ◌<◌, ◌^◌, ◌⊎◌, length, Some, IsTrue, IfOk, IsErrOf};
ghost use Rattle.std.specs.List.{list_all};
ghost use Rattle.sr_cell.specs.declared.fault.Fault.{Fault as TheFault};
ghost use Rattle.sr_cell.specs.declared.list.No.TheVariants.{Refused, NoMemory as Wanting};
ghost use Rattle.sr_lines.specs.Script.{LinePlace as TheLinePlace};
ghost use Rattle.sr_query.specs.Bound.{is_table};
ghost use Rattle.sr_setup.specs.ReportFiles.{report_outside, ReportRefuses};
ghost use Rattle.sr_setup.specs.declared.client_setup.ClientFault.TheVariants.{Line, Create};
ghost use Rattle.sr_dial.specs.Following.{Ahead};
ghost use Rattle.sr_report.specs.Plans.{AsksReport};
ghost use Rattle.sr_report.specs.Steps.{Follows, jobs_left};

use crate::report::Report;
use sr_cell::list::No;
use sr_cell::schema::Schema;
use sr_setup::client_setup::ClientFault;
use sr_setup::report_script::ReportScript;
use sr_setup::report_setup::set_up_report as read_report;
use std::alloc::Global;

/// The tables of a report, and the report before its first line.
#[derive(Drop)]
pub struct SetUp {
    pub schema: Schema,
    pub plans: Report,
}

/// Judges and reads the files of the report of the client of this number: the lines of the schema file and then those of the script, the
/// CREATE lines, and each event and each aggregate over their tables.
pub fn set_up_report(
    alloc: Global,
    id: u8,
    schema: &[u8],
    script: &[u8],
) -> Result<SetUp, No<ClientFault>>
    requires schema { length schema.now < 2 ^ 32 }
    requires script { length script.now < 2 ^ 32 }
    ensures asked { IfOk result (λ s. (ahead : Ahead) × AsksReport id schema.now script.now s.schema ahead × Follows s.schema s.plans ahead) }
    ensures tables { IfOk result (λ s. IsTrue (list_all is_table s.schema)) }
    ensures few { IfOk result (λ s. jobs_left s.plans < 2 ^ 40) }
    ensures line { (line place : ℕ) → IsErrOf result (Refused (Line line place))
        → report_outside id schema.now script.now ≡ Some (record { line = line; place = place }) }
    ensures line_first { (at : TheLinePlace) → report_outside id schema.now script.now ≡ Some at
        → IsErrOf result (Refused (Line at.line at.place)) ⊎ IsErrOf result Wanting }
    ensures create { (line : ℕ) (fault : TheFault) → IsErrOf result (Refused (Create line fault)) → ReportRefuses id schema.now script.now line fault }
{
    let ReportScript { schema, lines } = match read_report(alloc, id, schema, script) {
        Ok(read) => read,
        Err(no) => return Err(no),
    };
    match Report::new(alloc, &schema, id, lines) {
        Ok(plans) => Ok(SetUp { schema, plans }),
        Err(_) => Err(No::NoMemory),
    }
}
