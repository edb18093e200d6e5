//! Which messages a client refuses, and why.
ghost use Rattle.std.specs.Prelude.{◌≡◌, ℕ, not, nat_lt, nat_le, Bool, true, List, [], ◌∷◌, length, slice_get, IsTrue, None, Some};
ghost use Rattle.std.specs.List.{list_all};
ghost use Rattle.sr_cell.specs.Cells.{cell_at, cell_eq, Row as TheRow};
ghost use Rattle.sr_cell.specs.Columns.{table_at, fits_columns, takes_cell};
ghost use Rattle.sr_model.specs.Queries.{Query as TheQuery};
ghost use Rattle.sr_model.specs.SortedRows.{ascend, key_lt};
ghost use Rattle.sr_region.specs.Regions.{is_in, rank};
ghost use Rattle.sr_wire.specs.declared.bad_frame.BadFrame.TheVariants.{State, Number, Version, Shape};
ghost use Rattle.sr_session.specs.Misfits.{misfit, or_else, known, is_ask, is_write, is_resume, is_number, parts_of, cells_fit, fit_ask, suits, rows_suit, tell_suits, tells_ascend, told_suits, goes_on, last_came};
ghost use Rattle.sr_client.specs.Stands.{out_of};
ghost use Rattle.sr_client.specs.Shapes.{key_suits, after_suits, is_told_before};

use crate::client::Request;
use crate::laid::Laid;
use sr_cell::attrs::Attrs;
use sr_cell::cell::{Cell, Row};
use sr_cell::table::{Column, Table};
use sr_message::message::{AskPart, Message, Tell};
use sr_region::region::rank_of;
use sr_rows::rows::is_row_at_most;
use sr_union::rects::Rects;
use sr_wire::bad_frame::BadFrame;

/// What stands against a message, where this request is out, these messages are laid by, and this is the client's version.
pub fn misfit(
    schema: &[Table],
    out: &Option<Request>,
    laid: &Laid,
    version: u64,
    message: &Message,
) -> Option<BadFrame>
    ensures { (meaning : TheQuery) → result ≡ misfit schema.now (out_of meaning out.now) laid.now version message.now }
{
    match message {
        Message::Notice {
            version: then,
            told,
        } => told_misfit(schema, laid.known(version), *then, told.as_slice()),
        Message::Lapse { version: then } => first_of(false, false, *then <= laid.known(version)),
        Message::Rows { number, part, rows } => {
            rows_misfit(schema, out, laid, *number, *part, rows.as_slice())
        }
        Message::Reply {
            number,
            version: then,
        } => first_of(
            !is_ask(out),
            !is_number(out, *number),
            *then < laid.known(version),
        ),
        Message::Written {
            number,
            version: then,
        } => first_of(
            !is_write(out),
            !is_number(out, *number),
            *then < laid.known(version),
        ),
        Message::Refused { number, .. } => {
            first_of(!is_write(out), !is_number(out, *number), false)
        }
        Message::Welcome {
            number,
            version: then,
            ..
        } => first_of(
            !is_resume(out),
            !is_number(out, *number),
            *then < laid.known(version),
        ),
        _ => Some(BadFrame::Direction),
    }
}

/// The first reason of these three.
fn first_of(state: bool, number: bool, version: bool) -> Option<BadFrame>
    ensures { result ≡ or_else state State (or_else number Number (or_else version Version None)) }
{
    if state {
        Some(BadFrame::State)
    } else if number {
        Some(BadFrame::Number)
    } else if version {
        Some(BadFrame::Version)
    } else {
        None
    }
}

// ---- the request that it answers

fn is_ask(out: &Option<Request>) -> bool
    ensures { (meaning : TheQuery) → result ≡ is_ask (out_of meaning out.now) }
{
    matches!(out, Some(Request::Ask(_)))
}

fn is_write(out: &Option<Request>) -> bool
    ensures { (meaning : TheQuery) → result ≡ is_write (out_of meaning out.now) }
{
    matches!(out, Some(Request::Write { .. }))
}

fn is_resume(out: &Option<Request>) -> bool
    ensures { (meaning : TheQuery) → result ≡ is_resume (out_of meaning out.now) }
{
    matches!(out, Some(Request::Resume { .. }))
}

fn is_number(out: &Option<Request>, number: u64) -> bool
    ensures { (meaning : TheQuery) → result ≡ is_number (out_of meaning out.now) number }
{
    match out {
        Some(Request::Ask(ask)) => number == ask.number,
        Some(Request::Write { number: own }) => number == *own,
        Some(Request::Resume { number: own }) => number == *own,
        None => false,
    }
}

fn parts_of(out: &Option<Request>) -> &[AskPart]
    ensures { (meaning : TheQuery) → result.now ≡ parts_of (out_of meaning out.now) }
{
    match out {
        Some(Request::Ask(ask)) => ask.parts.as_slice(),
        _ => &[],
    }
}

// ---- what a notice tells

fn told_misfit(schema: &[Table], known: u64, version: u64, told: &[Tell]) -> Option<BadFrame>
    ensures { result ≡ or_else (nat_le version known) Version (or_else (not (told_suits schema.now told.now)) Shape None) }
{
    if version <= known {
        Some(BadFrame::Version)
    } else if !told_suits(schema, told) {
        Some(BadFrame::Shape)
    } else {
        None
    }
}

/// Whether tells are of tables of the schema, fit them, and ascend by table and key.
fn told_suits(schema: &[Table], told: &[Tell]) -> bool
    ensures { result ≡ told_suits schema.now told.now }
{
    all_suit(schema, told) && tells_ascend(told)
}

fn all_suit(schema: &[Table], told: &[Tell]) -> bool
    ensures { result ≡ list_all (tell_suits schema.now) told.now }
{
    for tell in told {
        if !tell_suits(schema, tell) {
            return false;
        }
    }
    true
}

fn tell_suits(schema: &[Table], tell: &Tell) -> bool
    ensures { result ≡ tell_suits schema.now tell.now }
{
    match schema.get(tell.table as usize) {
        Some(table) => key_suits(table, &tell.key) && after_suits(table, tell),
        None => false,
    }
}

fn key_suits(table: &Table, key: &Cell) -> bool
    ensures { result ≡ key_suits table.now key.now }
{
    match table.columns.get(table.key as usize) {
        Some(column) => column.takes(key),
        None => false,
    }
}

fn after_suits(table: &Table, tell: &Tell) -> bool
    ensures { result ≡ after_suits table.now tell.now }
{
    match &tell.after {
        Some(row) => row.fits(table) && has_key(row, table.key as usize, &tell.key),
        None => true,
    }
}

/// Whether the cell of that column is this one.
#[tactic(auto, using(sr_rows::proofs::Order::cell_at_absent))]
fn has_key(row: &Row, column: usize, key: &Cell) -> bool
    ensures { result ≡ cell_eq (cell_at row.now column) key.now }
{
    match row.get(column) {
        Some(cell) => are_equal(cell, key),
        None => are_equal(&Cell::Num(0), key),
    }
}

fn are_equal(cell: &Cell, other: &Cell) -> bool
    ensures { result ≡ cell_eq cell.now other.now }
{
    cell.is_at_most(other) && other.is_at_most(cell)
}

fn tells_ascend(told: &[Tell]) -> bool
    ensures { result ≡ tells_ascend told.now }
{
    let mut rest = told;
    while let Some((tell, others)) = rest.split_first() {
        if let Some(next) = others.first() {
            if !is_told_before(tell, next) {
                return false;
            }
        }
        rest = others;
    }
    true
}

fn is_told_before(tell: &Tell, next: &Tell) -> bool
    ensures { result ≡ is_told_before tell.now next.now }
{
    tell.table < next.table
        || (tell.table == next.table
            && tell.key.is_at_most(&next.key)
            && !are_equal(&tell.key, &next.key))
}

// ---- rows

fn rows_misfit(
    schema: &[Table],
    out: &Option<Request>,
    laid: &Laid,
    number: u64,
    part: u8,
    rows: &[Row],
) -> Option<BadFrame>
    ensures { (meaning : TheQuery) → result ≡ or_else (not (is_ask (out_of meaning out.now))) State (or_else (not (is_number (out_of meaning out.now) number)) Number
        (or_else (not (rows_suit schema.now (parts_of (out_of meaning out.now)) laid.now part rows.now)) Shape None)) }
{
    if !is_ask(out) {
        Some(BadFrame::State)
    } else if !is_number(out, number) {
        Some(BadFrame::Number)
    } else if !rows_suit(schema, parts_of(out), laid, part, rows) {
        Some(BadFrame::Shape)
    } else {
        None
    }
}

/// Whether rows are of that part of what was asked, and go on behind those that were laid by.
fn rows_suit(schema: &[Table], parts: &[AskPart], laid: &Laid, part: u8, rows: &[Row]) -> bool
    ensures { result ≡ rows_suit schema.now parts.now laid.now part rows.now }
{
    match parts.get(part as usize) {
        Some(ask) => {
            fit_ask(schema, ask, rows)
                && goes_on(
                    rank_of(ask.attrs, key_of(schema, ask.table)),
                    part,
                    laid,
                    rows,
                )
        }
        None => false,
    }
}

/// The columns of a table; none, where it is not there.
fn columns_of(schema: &[Table], table: u8) -> &[Column]
    ensures { result.now ≡ (table_at schema.now table).columns }
{
    match schema.get(table as usize) {
        Some(table) => table.columns.as_slice(),
        None => &[],
    }
}

/// The key column of a table; the first, where it is not there.
fn key_of(schema: &[Table], table: u8) -> usize
    ensures { result ≡ (table_at schema.now table).key }
{
    match schema.get(table as usize) {
        Some(table) => table.key as usize,
        None => 0,
    }
}

fn fit_ask(schema: &[Table], ask: &AskPart, rows: &[Row]) -> bool
    ensures { result ≡ fit_ask schema.now ask.now rows.now }
{
    let columns = columns_of(schema, ask.table);
    for row in rows {
        if !cells_fit(ask.attrs, columns, row) || !has_cells(&ask.rects, ask.attrs, row) {
            return false;
        }
    }
    true
}

/// Whether some rect has the rows with these cells.
fn has_cells(rects: &Rects, attrs: Attrs, cells: &Row) -> bool
    ensures { result ≡ is_in attrs rects.now cells.now }
{
    for rect in rects.as_slice() {
        if rect.has_part(attrs, cells) {
            return true;
        }
    }
    false
}

/// Whether a row has a cell for each of these columns, which the column takes, and no other.
fn cells_fit(attrs: Attrs, columns: &[Column], row: &Row) -> bool
    ensures { result ≡ cells_fit attrs 0 columns.now row.now }
{
    let mut rest = row.as_slice();
    for (i, column) in columns.iter().enumerate() {
        if attrs.has_index(i) {
            match rest.split_first() {
                Some((cell, others)) if column.takes(cell) => rest = others,
                _ => return false,
            }
        }
    }
    rest.is_empty()
}

/// Whether rows of a part ascend by key, behind the last row that was laid by.
fn goes_on(key: usize, part: u8, laid: &Laid, rows: &[Row]) -> bool
    ensures { result ≡ goes_on key part (last_came None laid.now) rows.now }
{
    match laid.last_rows() {
        Some(message) => goes_on_after(key, part, message, rows),
        None => ascends(key, rows),
    }
}

#[tactic(auto, using(crate::proofs::GoesLemmas::row_some, crate::proofs::GoesLemmas::row_none))]
fn goes_on_after(key: usize, part: u8, message: &Message, rows: &[Row]) -> bool
    ensures { result ≡ goes_on key part (last_came None (message.now ∷ [])) rows.now }
{
    match message {
        Message::Rows {
            part: own,
            rows: came,
            ..
        } => match came.as_slice().last() {
            Some(last) => goes_on_behind(key, part, *own, last, rows),
            None => ascends(key, rows),
        },
        _ => ascends(key, rows),
    }
}

fn goes_on_behind(key: usize, part: u8, own: u8, last: &Row, rows: &[Row]) -> bool
    ensures { result ≡ goes_on key part (Some (own, last.now)) rows.now }
{
    if own == part {
        follows(key, last, rows)
    } else {
        own < part && ascends(key, rows)
    }
}

/// Whether rows ascend by key.
fn ascends(key: usize, rows: &[Row]) -> bool
    ensures { result ≡ ascend key rows.now }
{
    match rows.split_first() {
        Some((row, rest)) => follows(key, row, rest),
        None => true,
    }
}

/// Whether rows ascend by key behind that one.
fn follows(key: usize, row: &Row, rows: &[Row]) -> bool
    ensures { result ≡ ascend key (row.now ∷ rows.now) }
{
    let mut last = row;
    let mut rest = rows;
    while let Some((next, others)) = rest.split_first() {
        if !is_below(key, last, next) {
            return false;
        }
        last = next;
        rest = others;
    }
    true
}

fn is_below(key: usize, row: &Row, next: &Row) -> bool
    ensures { result ≡ key_lt key row.now next.now }
{
    is_row_at_most(row, next, key) && !is_row_at_most(next, row, key)
}
