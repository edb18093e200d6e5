//! The script of a report.
ghost use Rattle.std.specs.Prelude.{◌≡◌, ℕ, List, None, IsTrue, IfOk};
ghost use Rattle.std.specs.List.{list_all, AllZip};
ghost use Rattle.sr_lines.specs.Lines.{lines_of};
ghost use Rattle.sr_query.specs.Bound.{is_table};
ghost use Rattle.sr_setup.specs.Files.{first_fault};
ghost use Rattle.sr_setup.specs.ReportFiles.{report_fault, AreReportLines};
ghost use Rattle.sr_setup.specs.Lined.{text_seen, IsOwnText, IsReadFor, IsReportText};

use crate::report_line::ReportText;
use sr_cell::list::{NoMemory, Seq};
use sr_cell::schema::Schema;
use sr_cell::text::Text;
use sr_reader::events::event_of;
use sr_reader::script::EventLine;
use std::alloc::Global;

/// A line of a report's script: an event of its client; or an aggregate by its text, with the line's number counted from 1.
#[derive(Drop)]
pub enum ReportLine {
    Event(EventLine),
    Aggregate { number: u64, sql: Text },
}

pub type ReportLines = Seq<ReportLine>;

/// The tables of a report, and the lines of its script.
#[derive(Drop)]
pub struct ReportScript {
    pub schema: Schema,
    pub lines: ReportLines,
}

/// The line of that number, if it asks for anything.
fn line_of(
    alloc: Global,
    schema: &Schema,
    number: u64,
    text: ReportText<'_>,
) -> Result<Option<ReportLine>, NoMemory>
    requires tables { IsTrue (list_all is_table schema.now) }
    ensures { (id : ℕ) → IsOwnText id text.entry → IfOk result (IsReadFor id schema.now number (text_seen text.entry)) }
{
    match text {
        ReportText::Silent => Ok(None),
        ReportText::Event(words) => {
            let event = event_of(alloc, schema, words)?;
            Ok(Some(ReportLine::Event(EventLine { number, event })))
        }
        ReportText::Aggregate(sql) => {
            let sql = Text::of(alloc, sql)?;
            Ok(Some(ReportLine::Aggregate { number, sql }))
        }
    }
}

/// The lines of the client's report that the texts are of, over these tables.
pub(crate) fn report_lines(
    alloc: Global,
    schema: &Schema,
    id: u8,
    texts: &[ReportText<'_>],
) -> Result<ReportLines, NoMemory>
    requires tables { IsTrue (list_all is_table schema.now) }
    requires texts { (script : List ℕ) × AllZip IsReportText (lines_of script) texts.now × (first_fault (report_fault id) 1 (lines_of script) ≡ None) }
    ensures are { (script : List ℕ) → AllZip IsReportText (lines_of script) texts.now
        → first_fault (report_fault id) 1 (lines_of script) ≡ None → IfOk result (AreReportLines id script schema.now) }
{
    let mut lines = Seq::new(alloc);
    for (i, text) in texts.iter().enumerate() {
        if let Some(line) = line_of(alloc, schema, i as u64 + 1, *text)? {
            lines.push(line)?;
        }
    }
    Ok(lines)
}
