//! Which messages must be refused.
ghost use Rattle.std.specs.Prelude.{◌≡◌, ◌&&◌, nat_lt, not, ◌==◌, ◌||◌, length};
ghost use Rattle.std.specs.List.{list_all};
ghost use Rattle.sr_cell.specs.Columns.{table_at};
ghost use Rattle.sr_box.specs.Points.{constrains_only};
ghost use Rattle.sr_session.specs.Refusals.{is_request, begins, suits_state, suits_schema, suits_wire, has_no_nullable, holding_suits, suits_columns, are_columns, suits_table, part_suits, server_misfit};

use crate::session::Session;
use sr_box::rect::Rect;
use sr_cell::attrs::Attrs;
use sr_cell::schema::Schema;
use sr_cell::table::Table;
use sr_message::message::{AskPart, Holding, Message};
use sr_union::rects::Rects;
use sr_wire::bad_frame::BadFrame;

/// The wire over which a holding stands for all columns.
const WHOLE_WIRE: u8 = 1;

/// What stands against a message of that client, which has this session or none: the first of Direction, State and Shape.
pub(crate) fn server_misfit(
    schema: &Schema,
    session: &Option<Session>,
    client: u8,
    message: &Message,
) -> Option<BadFrame>
    ensures { result ≡ server_misfit schema.now session.now client message.now }
{
    if !is_request(message) {
        return Some(BadFrame::Direction);
    }
    if !suits_state(session.is_some(), client, message) {
        return Some(BadFrame::State);
    }
    if !suits_schema(schema, message) {
        return Some(BadFrame::Shape);
    }
    None
}

/// Whether clients send messages of this kind.
fn is_request(message: &Message) -> bool
    ensures { result ≡ is_request message.now }
{
    match message {
        Message::Hello { .. } => true,
        Message::Resume { .. } => true,
        Message::Ask { .. } => true,
        Message::Write { .. } => true,
        _ => false,
    }
}

/// Whether a session may begin.
fn begins(opened: bool, client: u8, named: u8) -> bool
    ensures { result ≡ begins opened client named }
{
    !opened && named == client
}

/// Whether a request suits what is open.
fn suits_state(opened: bool, client: u8, message: &Message) -> bool
    ensures { result ≡ suits_state opened client message.now }
{
    match message {
        Message::Hello { client: named, .. } => begins(opened, client, *named),
        Message::Resume { client: named, .. } => begins(opened, client, *named),
        Message::Ask { .. } => opened,
        Message::Write { .. } => opened,
        _ => true,
    }
}

/// Whether the tables, columns and rects of a request suit the schema.
fn suits_schema(schema: &Schema, message: &Message) -> bool
    ensures { result ≡ suits_schema schema.now message.now }
{
    match message {
        Message::Hello { wire, .. } => suits_wire(schema, *wire),
        Message::Resume { wire, holdings, .. } => {
            suits_wire(schema, *wire) && all_holdings_suit(schema, *wire, holdings.as_slice())
        }
        Message::Ask { parts, .. } => all_parts_suit(schema, parts.as_slice()),
        _ => true,
    }
}

/// Whether no column is nullable, unless the wire can tell of NULL.
fn suits_wire(schema: &Schema, wire: u8) -> bool
    ensures { result ≡ suits_wire schema.now wire }
{
    wire != WHOLE_WIRE || all_without_nullable(schema.as_slice())
}

fn all_without_nullable(tables: &[Table]) -> bool
    ensures { result ≡ list_all has_no_nullable tables.now }
{
    for table in tables {
        if !has_no_nullable(table) {
            return false;
        }
    }
    true
}

fn has_no_nullable(table: &Table) -> bool
    ensures { result ≡ has_no_nullable table.now }
{
    for column in table.columns.as_slice() {
        if column.nullable {
            return false;
        }
    }
    true
}

fn all_holdings_suit(schema: &Schema, wire: u8, holdings: &[Holding]) -> bool
    ensures { result ≡ list_all (holding_suits schema.now wire) holdings.now }
{
    for holding in holdings {
        if !holding_suits(schema, wire, holding) {
            return false;
        }
    }
    true
}

/// Whether the table is there, the rects fit it, and the columns suit it unless the holding stands for all.
fn holding_suits(schema: &Schema, wire: u8, holding: &Holding) -> bool
    ensures { result ≡ holding_suits schema.now wire holding.now }
{
    let number = holding.table as usize;
    let tables = schema.as_slice();
    number < tables.len()
        && holding.rects.fits(&tables[number])
        && (wire == WHOLE_WIRE || suits_columns(&tables[number], holding))
}

/// Whether the columns are the table's, the key among them, and the rects constrain no other.
fn suits_columns(table: &Table, holding: &Holding) -> bool
    ensures { result ≡ suits_columns table.now holding.now }
{
    are_columns(holding.attrs.0, table.columns.len())
        && holding.attrs.has_index(table.key as usize)
        && all_constrain_only(holding.attrs, &holding.rects)
}

fn all_parts_suit(schema: &Schema, parts: &[AskPart]) -> bool
    ensures { result ≡ list_all (part_suits schema.now) parts.now }
{
    for part in parts {
        if !part_suits(schema, part) {
            return false;
        }
    }
    true
}

/// Whether the table is there, and the part suits it.
fn part_suits(schema: &Schema, part: &AskPart) -> bool
    ensures { result ≡ part_suits schema.now part.now }
{
    let number = part.table as usize;
    let tables = schema.as_slice();
    number < tables.len() && suits_table(&tables[number], part)
}

/// Whether the columns and rects of a part suit the table.
fn suits_table(table: &Table, part: &AskPart) -> bool
    ensures { result ≡ suits_table table.now part.now }
{
    are_columns(part.attrs.0, table.columns.len())
        && part.attrs.has_index(table.key as usize)
        && part.rects.fits(table)
        && all_constrain_only(part.attrs, &part.rects)
}

/// Whether each column of the set is one of so many.
fn are_columns(attrs: u16, count: usize) -> bool
    ensures { result ≡ are_columns attrs count }
{
    count >= 16 || attrs >> count == 0
}

fn all_constrain_only(attrs: Attrs, rects: &Rects) -> bool
    ensures { result ≡ list_all (constrains_only attrs 0) rects.now }
{
    for rect in rects.as_slice() {
        if !constrains_only(attrs, rect) {
            return false;
        }
    }
    true
}

/// Whether the rect constrains no other column.
fn constrains_only(attrs: Attrs, rect: &Rect) -> bool
    ensures { result ≡ constrains_only attrs 0 rect.now }
{
    let spans = rect.as_slice();
    for i in 0..spans.len() {
        if spans[i].constrains() && !attrs.has_index(i) {
            return false;
        }
    }
    true
}
