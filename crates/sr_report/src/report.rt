//! A report as a plan.
ghost use Rattle.std.specs.Prelude.{◌≡◌, ◌≤◌, ◌<◌, ◌*◌, ℕ, List, None, IsTrue, IfOk, IfSome, length};
ghost use Rattle.std.specs.List.{list_all};
ghost use Rattle.sr_cell.specs.declared.table.Table.{Table as TheTable};
ghost use Rattle.sr_query.specs.Bound.{is_table};
ghost use Rattle.sr_setup.specs.ReportFiles.{Saying, Aggregate, AreReportLines, IsReportLine};
ghost use Rattle.sr_plan.specs.Plans.{Plan};
ghost use Rattle.sr_dial.specs.Calls.{Task};
ghost use Rattle.sr_dial.specs.Jobs.{Gives};
ghost use Rattle.sr_dial.specs.declared.parts.Answer.{Answer as TheAnswer};
ghost use Rattle.sr_report.specs.Plans.{Entry, AreEntries, ComesTo, LineComesTo, report_plan};
ghost use Rattle.sr_report.specs.Steps.{Follows, IsLeft, IsSaying, IsStep, IsStepOf, jobs_left, told_by};

use crate::texts::{groups_text, refused_text};
use sr_agg::agg::Agg;
use sr_cell::list::{No, NoMemory, Seq};
use sr_cell::schema::Schema;
use sr_dial::parts::Answer;
use sr_dial::plans::{Job, Plans};
use sr_reader::meaning::query_of;
use sr_reader::script::{Event, EventLine};
use sr_setup::report_script::{ReportLine, ReportLines};
use std::alloc::Global;
use std::vec::IntoIter;

/// What is done for a line of a report's script.
#[derive(Drop)]
pub enum Step {
    /// What the line asks of the client.
    Line(EventLine),
    /// The text of an aggregate that is refused.
    Say { number: u64, text: String },
    /// The query of an aggregate, and what is told of its rows.
    Tell { line: EventLine, agg: Agg },
}

/// An aggregate whose query was asked, with the number of its line.
#[derive(Drop)]
pub struct Asked {
    pub number: u64,
    pub agg: Agg,
}

/// The lines of a report, and the aggregate whose query was handed out last.
#[derive(Drop)]
pub struct Report {
    pub id: u8,
    pub steps: IntoIter<Step>,
    pub asked: Option<Asked>,
}

/// What is done for an aggregate of that text.
fn aggregate_step(
    alloc: Global,
    schema: &Schema,
    id: u8,
    number: u64,
    sql: &str,
) -> Result<Step, NoMemory>
    requires tables { IsTrue (list_all is_table schema.now) }
    ensures { IfOk result (λ step. (entry : Entry) × ComesTo schema.now (Aggregate sql.now) entry × IsStepOf schema.now id step number entry) }
{
    match Agg::start(alloc, schema, sql) {
        Ok(agg) => {
            let query = query_of(alloc, schema, agg.inner().as_str())?;
            let event = Event::Query { client: id, query };
            Ok(Step::Tell {
                line: EventLine { number, event },
                agg,
            })
        }
        Err(No::Refused(fault)) => Ok(Step::Say {
            number,
            text: refused_text(alloc, id, number, fault)?,
        }),
        Err(No::NoMemory) => Err(NoMemory),
    }
}

/// What is done for a line.
fn step_of(alloc: Global, schema: &Schema, id: u8, line: ReportLine) -> Result<Step, NoMemory>
    requires tables { IsTrue (list_all is_table schema.now) }
    ensures { (saying : ℕ × Saying) → IsReportLine id schema.now line saying
        → IfOk result (λ step. (entry : ℕ × Entry) × LineComesTo schema.now saying entry × IsStep schema.now id step entry) }
{
    match line {
        ReportLine::Event(line) => Ok(Step::Line(line)),
        ReportLine::Aggregate { number, sql } => {
            aggregate_step(alloc, schema, id, number, sql.as_str())
        }
    }
}

impl Report {
    /// The report of the client of this number that the lines are of, over these tables. Each aggregate is judged here.
    pub fn new(
        alloc: Global,
        schema: &Schema,
        id: u8,
        lines: ReportLines,
    ) -> Result<Report, NoMemory>
        requires tables { IsTrue (list_all is_table schema.now) }
        requires lines { (script : List ℕ) × AreReportLines id script schema.now lines }
        ensures plans { (script : List ℕ) → AreReportLines id script schema.now lines
            → IfOk result (λ report. (entries : List (ℕ × Entry)) × AreEntries schema.now script entries
            × Follows schema.now report (λ answer. report_plan id entries)) }
        ensures few { IfOk result (λ report. jobs_left report ≤ 2 * length lines) }
    {
        let mut steps = Seq::with_room(alloc, lines.len())?;
        for line in lines.into_vec() {
            steps.push(step_of(alloc, schema, id, line)?)?;
        }
        Ok(Report {
            id,
            steps: steps.into_vec().into_iter(),
            asked: None,
        })
    }
}

/// What is told of the rows of an answer.
fn told(alloc: Global, id: u8, asked: &Asked, answer: &Answer) -> Result<Job, NoMemory>
    ensures { IfOk result (λ job. IsSaying job asked.now.number (told_by id asked.now answer.now)) }
{
    let groups = asked.agg.groups(alloc, answer.rows.as_slice())?;
    let text = groups_text(alloc, id, asked.number, answer.version, groups.as_slice())?;
    Ok(Job::Say {
        number: asked.number,
        text,
    })
}

impl Report {
    /// The job of the next line, where no answer is awaited.
    fn next_line(&mut self) -> Option<Job>
        requires { self.old.asked ≡ None }
        ensures gives { (tables : List TheTable) (plan : Plan Task TheAnswer) → IsLeft tables self.old plan → Gives Follows tables result plan self.new }
        ensures falls { IfSome result (λ job. jobs_left self.new < jobs_left self.old) }
    {
        match self.steps.next() {
            Some(Step::Line(line)) => Some(Job::Line(line)),
            Some(Step::Say { number, text }) => Some(Job::Say { number, text }),
            Some(Step::Tell { line, agg }) => {
                self.asked = Some(Asked {
                    number: line.number,
                    agg,
                });
                Some(Job::Line(line))
            }
            None => None,
        }
    }
}

impl Plans for Report {
    ghost use Rattle.sr_report.specs.Steps.{Follows, jobs_left};

    ghost follows = { Follows };

    ghost depth = { jobs_left };

    fn next(&mut self, alloc: Global, answer: Option<&Answer>) -> Result<Option<Job>, NoMemory> {
        let Some(asked) = self.asked.take() else {
            return Ok(self.next_line());
        };
        let Some(answer) = answer else {
            return Ok(self.next_line());
        };
        Ok(Some(told(alloc, self.id, &asked, answer)?))
    }
}
