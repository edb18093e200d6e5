//! Indexes for the rows of an ask.
ghost use Rattle.std.specs.Prelude.{◌≡◌};

use sr_message::message::{AskPart, Message};
use sr_tables::tables::Tables;
use std::alloc::Global;

/// Makes indexes by which the rows of an ask are found, where memory is to be had: no row changes.
pub(crate) fn index_asked(alloc: Global, tables: &mut Tables, message: &Message)
    ensures { tables.new ≡ tables.old }
{
    match message {
        Message::Ask { parts, .. } => index_parts(alloc, tables, parts.as_slice()),
        _ => {}
    }
}

fn index_parts(alloc: Global, tables: &mut Tables, parts: &[AskPart])
    ensures { tables.new ≡ tables.old }
{
    for part in parts {
        tables.index(alloc, part.table, &part.rects);
    }
}
