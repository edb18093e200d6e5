//! Messages written as frames.
ghost use Rattle.std.specs.Prelude.{◌≡◌, ℕ, ◌≤◌, ◌∷◌, ◌++◌, ◌&&◌, ◌^◌, nat_lt, List, Option, drop, length, true, IsTrue, IfOk, OnOk};
ghost use Rattle.std.specs.List.{flat_map, list_all};
ghost use Rattle.std.specs.Str.{is_utf8};
ghost use Rattle.sr_bytes.specs.Spelling.{count_bytes, long_bytes, is_from_to};
ghost use Rattle.sr_wire.specs.Limits.{may_write_holding, may_write_part, may_write_after, may_write_tell, may_write, IsSendable};
ghost use Rattle.sr_wire.specs.Spelling.{held_attrs_bytes, holding_bytes, part_bytes, after_bytes, tell_bytes, flag_bytes, fault_bytes, kind_of, fields_of, body_of, spelling, has_holding_bytes, has_part_bytes, has_after_bytes, has_tell_bytes, has_fields, has_spelling, is_long};

use crate::kind::FrameKind;
use crate::views::FIRST_WIRE;
use crate::why;
use sr_bytes::write::{
    know_utf8, push_count, push_key, push_long, push_rects, push_row, push_rows, push_short_count,
};
use sr_cell::attrs::Attrs;
use sr_cell::cell::Row;
use sr_cell::fault::Fault;
use sr_cell::list::{Bytes, NoMemory};
use sr_cell::text::Text;
use sr_message::message::{AskPart, AskParts, Holding, Holdings, Message, Tell, Told};
use std::alloc::Global;

/// The bytes of the length.
const LENGTH_BYTES: usize = 4;

fn push_flag(out: &mut Bytes, flag: bool) -> Result<(), NoMemory>
    ensures { OnOk result (out.new ≡ out.old ++ flag_bytes flag) }
{
    if flag { out.push(1) } else { out.push(0) }
}

fn push_fault(out: &mut Bytes, fault: Fault) -> Result<(), NoMemory>
    ensures written { OnOk result (out.new ≡ out.old ++ fault_bytes fault) }
    ensures spelled { nat_lt fault.at (2 ^ 32) ≡ true }
{
    out.push(why::byte_of(fault.why))?;
    push_count(out, fault.at)
}

fn push_statement(out: &mut Bytes, sql: &Text) -> Result<(), NoMemory>
    requires { IsTrue (is_from_to 0 65536 (length sql.now)) }
    ensures written { OnOk result (out.new ≡ out.old ++ (count_bytes (length sql.now) ++ sql.now)) }
    ensures text { IsTrue (is_utf8 sql.now) }
{
    let sql = sql.as_str();
    know_utf8(sql);
    let bytes = sql.as_bytes();
    push_count(out, bytes.len() as u32)?;
    out.extend(bytes)
}

// Over wire 1 the columns of a holding are not written.
fn push_held_attrs(out: &mut Bytes, wire: u8, attrs: Attrs) -> Result<(), NoMemory>
    ensures { OnOk result (out.new ≡ out.old ++ held_attrs_bytes wire attrs) }
{
    if wire == FIRST_WIRE {
        Ok(())
    } else {
        push_short_count(out, attrs.0)
    }
}

fn push_holding(out: &mut Bytes, wire: u8, holding: &Holding) -> Result<(), NoMemory>
    requires { IsTrue (may_write_holding wire holding.now) }
    ensures written { OnOk result (out.new ≡ out.old ++ holding_bytes wire holding.now) }
    ensures spelled { OnOk result (has_holding_bytes wire holding.now ≡ true) }
{
    out.push(holding.table)?;
    push_held_attrs(out, wire, holding.attrs)?;
    push_rects(out, &holding.rects)
}

fn push_holdings(out: &mut Bytes, wire: u8, holdings: &Holdings) -> Result<(), NoMemory>
    requires { IsTrue (is_from_to 1 1024 (length holdings.now) && list_all (may_write_holding wire) holdings.now) }
    ensures written { OnOk result (out.new ≡ out.old ++ (count_bytes (length holdings.now) ++ flat_map (holding_bytes wire) holdings.now)) }
    ensures spelled { OnOk result (list_all (has_holding_bytes wire) holdings.now ≡ true) }
{
    push_count(out, holdings.len() as u32)?;
    for holding in holdings.as_slice() {
        push_holding(out, wire, holding)?;
    }
    Ok(())
}

fn push_part(out: &mut Bytes, part: &AskPart) -> Result<(), NoMemory>
    requires { IsTrue (may_write_part part.now) }
    ensures written { OnOk result (out.new ≡ out.old ++ part_bytes part.now) }
    ensures spelled { OnOk result (has_part_bytes part.now ≡ true) }
{
    out.push(part.table)?;
    push_short_count(out, part.attrs.0)?;
    push_rects(out, &part.rects)
}

fn push_parts(out: &mut Bytes, parts: &AskParts) -> Result<(), NoMemory>
    requires { IsTrue (is_from_to 1 4 (length parts.now) && list_all may_write_part parts.now) }
    ensures written { OnOk result (out.new ≡ out.old ++ length parts.now ∷ flat_map part_bytes parts.now) }
    ensures spelled { OnOk result (list_all has_part_bytes parts.now ≡ true) }
{
    out.push(parts.len() as u8)?;
    for part in parts.as_slice() {
        push_part(out, part)?;
    }
    Ok(())
}

fn push_after(out: &mut Bytes, after: &Option<Row>) -> Result<(), NoMemory>
    requires { IsTrue (may_write_after after.now) }
    ensures written { OnOk result (out.new ≡ out.old ++ after_bytes after.now) }
    ensures spelled { OnOk result (has_after_bytes after.now ≡ true) }
{
    match after {
        None => out.push(0),
        Some(row) => {
            out.push(1)?;
            push_row(out, row)
        }
    }
}

fn push_tell(out: &mut Bytes, tell: &Tell) -> Result<(), NoMemory>
    requires { IsTrue (may_write_tell tell.now) }
    ensures written { OnOk result (out.new ≡ out.old ++ tell_bytes tell.now) }
    ensures spelled { OnOk result (has_tell_bytes tell.now ≡ true) }
{
    out.push(tell.table)?;
    push_key(out, &tell.key)?;
    push_after(out, &tell.after)
}

fn push_told(out: &mut Bytes, told: &Told) -> Result<(), NoMemory>
    requires { IsTrue (is_from_to 0 10000 (length told.now) && list_all may_write_tell told.now) }
    ensures written { OnOk result (out.new ≡ out.old ++ (count_bytes (length told.now) ++ flat_map tell_bytes told.now)) }
    ensures spelled { OnOk result (list_all has_tell_bytes told.now ≡ true) }
{
    push_count(out, told.len() as u32)?;
    for tell in told.as_slice() {
        push_tell(out, tell)?;
    }
    Ok(())
}

fn push_session(out: &mut Bytes, wire: u8, client: u8, number: u64) -> Result<(), NoMemory>
    ensures written { OnOk result (out.new ≡ out.old ++ (wire ∷ client ∷ long_bytes number)) }
    ensures spelled { is_long number ≡ true }
{
    out.push(wire)?;
    out.push(client)?;
    push_long(out, number)
}

// Two numbers of eight bytes.
fn push_numbers(out: &mut Bytes, one: u64, two: u64) -> Result<(), NoMemory>
    ensures written { OnOk result (out.new ≡ out.old ++ (long_bytes one ++ long_bytes two)) }
    ensures spelled { (is_long one && is_long two) ≡ true }
{
    push_long(out, one)?;
    push_long(out, two)
}

fn push_fields(out: &mut Bytes, message: &Message) -> Result<(), NoMemory>
    requires { IsTrue (may_write message.now) }
    ensures written { OnOk result (out.new ≡ out.old ++ fields_of message.now) }
    ensures spelled { OnOk result (has_fields message.now ≡ true) }
{
    match message {
        Message::Hello {
            wire,
            client,
            number,
        } => push_session(out, *wire, *client, *number),
        Message::Resume {
            wire,
            client,
            number,
            version,
            holdings,
        } => {
            push_session(out, *wire, *client, *number)?;
            push_long(out, *version)?;
            push_holdings(out, *wire, holdings)
        }
        Message::Ask {
            number,
            fresh,
            parts,
        } => {
            push_long(out, *number)?;
            push_flag(out, *fresh)?;
            push_parts(out, parts)
        }
        Message::Write { number, sql } => {
            push_long(out, *number)?;
            push_statement(out, sql)
        }
        Message::Welcome {
            number,
            version,
            kept,
        } => {
            push_numbers(out, *number, *version)?;
            push_flag(out, *kept)
        }
        Message::Notice { version, told } => {
            push_long(out, *version)?;
            push_told(out, told)
        }
        Message::Rows { number, part, rows } => {
            push_long(out, *number)?;
            out.push(*part)?;
            push_rows(out, rows)
        }
        Message::Reply { number, version } | Message::Written { number, version } => {
            push_numbers(out, *number, *version)
        }
        Message::Refused { number, fault } => {
            push_long(out, *number)?;
            push_fault(out, *fault)
        }
        Message::Lapse { version } => push_long(out, *version),
    }
}

fn kind_of(message: &Message) -> FrameKind
    ensures { result ≡ kind_of message.now }
{
    match message {
        Message::Hello { .. } => FrameKind::Hello,
        Message::Resume { .. } => FrameKind::Resume,
        Message::Ask { .. } => FrameKind::Ask,
        Message::Write { .. } => FrameKind::Write,
        Message::Welcome { .. } => FrameKind::Welcome,
        Message::Notice { .. } => FrameKind::Notice,
        Message::Rows { .. } => FrameKind::Rows,
        Message::Reply { .. } => FrameKind::Reply,
        Message::Written { .. } => FrameKind::Written,
        Message::Refused { .. } => FrameKind::Refused,
        Message::Lapse { .. } => FrameKind::Lapse,
    }
}

// Puts a length over the first four bytes.
#[tactic(auto, unfolding(sr_bytes::specs::Spelling::count_bytes))]
fn put_length(out: &mut Bytes, size: u32)
    requires { 4 ≤ length out.old }
    ensures { out.new ≡ count_bytes size ++ drop 4 out.old }
{
    let bytes = size.to_be_bytes();
    out.replace(0, bytes[0]);
    out.replace(1, bytes[1]);
    out.replace(2, bytes[2]);
    out.replace(3, bytes[3]);
}

fn push_body(out: &mut Bytes, message: &Message) -> Result<(), NoMemory>
    requires { IsTrue (may_write message.now) }
    ensures written { OnOk result (out.new ≡ out.old ++ body_of message.now) }
    ensures spelled { OnOk result (has_fields message.now ≡ true) }
{
    out.push(kind_of(message).byte())?;
    push_fields(out, message)
}

/// The frame of a message.
pub fn encode(alloc: Global, message: &Message) -> Result<Bytes, NoMemory>
    requires { IsSendable message.now }
    ensures written { IfOk result (λ bytes. bytes ≡ spelling message.now) }
    ensures spelled { IfOk result (λ bytes. IsTrue (has_spelling message.now)) }
{
    let mut out = Bytes::new(alloc);
    push_count(&mut out, 0)?;
    push_body(&mut out, message)?;
    let length = (out.len() - LENGTH_BYTES) as u32;
    put_length(&mut out, length);
    Ok(out)
}
