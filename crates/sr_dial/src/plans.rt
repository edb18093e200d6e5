//! What is to be done, one job after another.
ghost use Rattle.std.specs.Prelude.{◌≡◌, ◌<◌, ℕ, List, IfOk, IfSome, option_copied};
ghost use Rattle.std.specs.Vec.Iter.{into_iter_items};
ghost use Rattle.sr_cell.specs.declared.table.Table.{Table as TheTable};
ghost use Rattle.sr_dial.specs.Following.{Ahead};
ghost use Rattle.sr_dial.specs.Jobs.{Gives, number_of};

use crate::parts::Answer;
use sr_cell::list::NoMemory;
use sr_reader::script::{EventLine, EventLines};
use std::alloc::Global;
use std::vec::IntoIter;

/// What is done for a line of a script: what the line asks of the client; or a text is written.
#[derive(Drop)]
pub enum Job {
    Line(EventLine),
    Say { number: u64, text: String },
}

impl Job {
    /// The number of its line.
    pub(crate) fn number(&self) -> u64
        ensures { result ≡ number_of self.now }
    {
        match self {
            Job::Line(line) => line.number,
            Job::Say { number, .. } => *number,
        }
    }
}

/// Whoever says what is done next, where this may depend on the answer of the last job.
pub trait Plans {
    /// Over tables of this schema this is ahead of it.
    ghost follows: { List TheTable → Self → Ahead → Type 0 };

    /// How many jobs it may still hand out.
    ghost depth: { Self → ℕ };

    /// Hands out the next job, behind one that had this answer; or none, where all is done.
    fn next(&mut self, alloc: Global, answer: Option<&Answer>) -> Result<Option<Job>, NoMemory>
        ensures gives { (schema : List TheTable) (ahead : Ahead) → follows schema self.old ahead
            → IfOk result (λ job. Gives follows schema job (ahead (option_copied answer.entry)) self.new) }
        ensures falls { IfOk result (λ job. IfSome job (λ some. depth self.new < depth self.old)) };
}

/// The lines of a script, one after another, whatever is answered.
#[derive(Drop)]
pub struct Script {
    pub lines: IntoIter<EventLine>,
}

impl Script {
    /// These lines; takes no memory.
    pub fn new(lines: EventLines) -> Script
        ensures { into_iter_items result.lines ≡ lines }
    {
        Script {
            lines: lines.into_vec().into_iter(),
        }
    }
}

impl Plans for Script {
    ghost use Rattle.std.specs.Prelude.{length};
    ghost use Rattle.std.specs.Vec.Iter.{into_iter_items};
    ghost use Rattle.sr_dial.specs.Jobs.{AreAhead};

    ghost follows = { λ schema s. AreAhead schema (into_iter_items s.lines) };

    ghost depth = { λ s. length (into_iter_items s.lines) };

    fn next(&mut self, _: Global, _: Option<&Answer>) -> Result<Option<Job>, NoMemory> {
        match self.lines.next() {
            Some(line) => Ok(Some(Job::Line(line))),
            None => Ok(None),
        }
    }
}
