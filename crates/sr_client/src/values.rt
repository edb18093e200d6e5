//! Facts, which do nothing: what the types of messages say of the texts in them.
ghost use Rattle.std.specs.Prelude.{IsTrue};
ghost use Rattle.std.specs.List.{list_all};
ghost use Rattle.sr_cell.specs.Columns.{are_bytes, is_value, are_values};
ghost use Rattle.sr_client.specs.Values.{tells_values, has_values};

use sr_cell::cell::{Cell, Row};
use sr_message::message::{Message, Tell};

fn know_bytes(text: &[u8])
    ensures { IsTrue (are_bytes text.now) }
{}

fn know_cell(cell: &Cell)
    ensures { IsTrue (is_value cell.now) }
{
    match cell {
        Cell::Num(_) | Cell::Null => {}
        Cell::Str(text) => know_bytes(text.as_str().as_bytes()),
    }
}

fn know_row(row: &Row)
    ensures { IsTrue (are_values row.now) }
{
    for cell in row.as_slice() {
        know_cell(cell);
    }
}

fn know_rows(rows: &[Row])
    ensures { IsTrue (list_all are_values rows.now) }
{
    for row in rows {
        know_row(row);
    }
}

fn know_tell(tell: &Tell)
    ensures { IsTrue (tells_values tell.now) }
{
    match &tell.after {
        Some(row) => know_row(row),
        None => {}
    }
}

/// The new rows that are told have bytes in their texts.
pub(crate) fn know_told(told: &[Tell])
    ensures { IsTrue (list_all tells_values told.now) }
{
    for tell in told {
        know_tell(tell);
    }
}

fn know_message(message: &Message)
    ensures { IsTrue (has_values message.now) }
{
    match message {
        Message::Notice { told, .. } => know_told(told.as_slice()),
        Message::Rows { rows, .. } => know_rows(rows.as_slice()),
        _ => {}
    }
}

/// The rows of messages have bytes in their texts.
pub(crate) fn know_messages(messages: &[Message])
    ensures { IsTrue (list_all has_values messages.now) }
{
    for message in messages {
        know_message(message);
    }
}
