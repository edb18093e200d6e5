//! A script of a client, one job after another.
ghost use Rattle.std.specs.Prelude.{◌≡◌, ◌≤◌, ◌<◌, ◌+◌, ◌*◌, ◌^◌, ◌++◌, [], None, Some, IfNone, IfOk, IfSome, OnOk, IsTrue, length, option_to_list};
ghost use Rattle.std.specs.List.{list_all};
ghost use Rattle.std.specs.Vec.Iter.{into_iter_items};
ghost use Rattle.sr_keyset.specs.Follows.{FollowsScript, GivesLine, GivesOn, jobs_left, jobs_of, jobs_of_lines};
ghost use Rattle.sr_lines.specs.Lines.{lines_of};
ghost use Rattle.sr_query.specs.Bound.{is_table};
ghost use Rattle.sr_setup.specs.ClientFiles.{client_fault};
ghost use Rattle.sr_setup.specs.Files.{first_fault};

use crate::jobs::{Going, Handed, begin, go_on};
use crate::lines::{TextLine, TextLines, words_in};
use crate::tables::Tables;
use sr_cell::list::NoMemory;
use sr_cell::schema::Schema;
use sr_dial::parts::Answer;
use sr_dial::plans::{Job, Plans};
use std::alloc::Global;
use std::vec::IntoIter;

/// The lines of a client's script that are still to be done, and the join that is under way, if there is one.
#[derive(Drop)]
pub struct KeySets<'a> {
    tables: Tables,
    lines: IntoIter<TextLine<'a>>,
    going: Option<Going<'a>>,
}

/// Goes over the lines.
fn over(lines: TextLines<'_>) -> IntoIter<TextLine<'_>>
    ensures { into_iter_items result ≡ lines.entry }
{
    lines.into_vec().into_iter()
}

/// Takes the next line, if one is left.
fn next_of<'a>(lines: &mut IntoIter<TextLine<'a>>) -> Option<TextLine<'a>>
    ensures first { into_iter_items lines.old ≡ option_to_list result ++ into_iter_items lines.new }
    ensures none { IfNone result (into_iter_items lines.old ≡ []) }
{
    lines.next()
}

impl<'a> KeySets<'a> {
    /// Before the first line of the script of the client of this number, which is inside its grammar.
    pub(crate) fn new(
        alloc: Global,
        schema: &Schema,
        id: u8,
        script: &'a [u8],
    ) -> Result<KeySets<'a>, NoMemory>
        requires tables { IsTrue (list_all is_table schema.now) }
        requires long { length script.now < 2 ^ 32 }
        requires inside { first_fault (client_fault id) 1 (lines_of script.now) ≡ None }
        ensures follows { IfOk result (FollowsScript schema.now script.now) }
        ensures few { IfOk result (λ k. jobs_left k ≤ 4 * length script.now) }
    {
        let tables = Tables::of(alloc, schema)?;
        let lines = words_in(alloc, script)?;
        Ok(KeySets {
            tables,
            lines: over(lines),
            going: None,
        })
    }

    /// Hands out what comes of an answer to the last text of a join.
    fn hand_on(
        &mut self,
        alloc: Global,
        going: Going<'a>,
        answer: &Answer,
    ) -> Result<Option<Job>, NoMemory>
        ensures gives { IfOk result (λ job. GivesOn self.old going.entry answer.now job self.new) }
        ensures falls { OnOk result (jobs_left self.new < jobs_of_lines self.old + jobs_of (Some going.entry)) }
    {
        let Handed { job, going } = go_on(alloc, &self.tables, going, answer)?;
        self.going = going;
        Ok(Some(job))
    }

    /// Hands out what comes of the next line.
    fn hand_line(&mut self, alloc: Global) -> Result<Option<Job>, NoMemory>
        ensures gives { IfOk result (λ job. GivesLine self.old job self.new) }
        ensures falls { IfOk result (λ job. IfSome job (λ some. jobs_left self.new < jobs_of_lines self.old)) }
    {
        match next_of(&mut self.lines) {
            Some(line) => {
                let Handed { job, going } = begin(alloc, &self.tables, line)?;
                self.going = going;
                Ok(Some(job))
            }
            None => Ok(None),
        }
    }
}

impl<'a> Plans for KeySets<'a> {
    ghost use Rattle.sr_keyset.specs.Follows.{Follows, jobs_left};

    ghost follows = { Follows };

    ghost depth = { jobs_left };

    fn next(&mut self, alloc: Global, answer: Option<&Answer>) -> Result<Option<Job>, NoMemory> {
        match self.going.take() {
            Some(going) => match answer {
                Some(answer) => self.hand_on(alloc, going, answer),
                None => self.hand_line(alloc),
            },
            None => self.hand_line(alloc),
        }
    }
}
