//! The lines of an explanation, and what is said of it.
ghost use Rattle.std.specs.Prelude.{◌≡◌, ◌<◌, IfOk};
ghost use Rattle.sr_explain.specs.Telling.{explain_lines};
ghost use Rattle.sr_handle.specs.Telling.{IsFew, explained_text, said_of_explained};

use crate::said::Said;
use sr_cell::fault::Fault;
use sr_cell::list::{Bytes, NoMemory, Seq};
use sr_cell::table::Table;
use sr_explain::explanation::Explanation;
use sr_explain::lines::lines;
use sr_script::line::{TraceLine, TraceLines};
use sr_script::text::lines_text;
use std::alloc::Global;

/// What is said of an explanation, or of a text that is refused.
pub fn said_of_explained(explained: &Result<Explanation, Fault>) -> Said
    ensures { result ≡ said_of_explained explained.now }
{
    match explained {
        Ok(explanation) => Said::Explained {
            version: explanation.version,
        },
        Err(fault) => Said::Sql(*fault),
    }
}

/// The lines of client `id`, whose number is 0.
pub fn explained_text(
    alloc: Global,
    tables: &[Table],
    id: u8,
    explained: &Result<Explanation, Fault>,
) -> Result<Bytes, NoMemory>
    requires few { IsFew explained.now }
    ensures { IfOk result (λ text. text ≡ explained_text tables.now id explained.now) }
{
    let lines = explained_lines(alloc, id, explained)?;
    let text = lines_text(alloc, tables, 0, lines.as_slice())?;
    Ok(Seq::from_vec(text.into_bytes()))
}

fn explained_lines(
    alloc: Global,
    id: u8,
    explained: &Result<Explanation, Fault>,
) -> Result<TraceLines, NoMemory>
    requires few { IsFew explained.now }
    ensures { IfOk result (λ lines. lines ≡ explain_lines id explained.now) }
{
    match explained {
        Ok(explanation) => {
            let mut told = lines(alloc, explanation)?;
            told.push(TraceLine::Explained {
                client: id,
                version: explanation.version,
            })?;
            Ok(told)
        }
        Err(fault) => {
            let mut told = Seq::new(alloc);
            told.push(TraceLine::ExplainSql {
                client: id,
                fault: *fault,
            })?;
            Ok(told)
        }
    }
}
