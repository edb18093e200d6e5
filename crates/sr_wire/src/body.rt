//! Messages in the bytes that spell them.
ghost use Rattle.std.specs.Prelude.{◌≡◌, ◌≤◌, length};
ghost use Rattle.sr_bytes.specs.Views.{Reads};
ghost use Rattle.sr_wire.specs.Bodies.{message_of};
ghost use Rattle.sr_wire.specs.Reading.{a_client, a_flag, a_fault, a_statement, a_wire, fields_at};
ghost use Rattle.sr_wire.specs.declared.kind.FrameKind.TheVariants as kinds;

use crate::kind::FrameKind;
use crate::views::{AskPartsView, FIRST_WIRE, HoldingsView, ToldView, holdings, parts, told};
use crate::why::why_of;
use sr_bytes::cursor::{BadField, Cursor};
use sr_bytes::views::RowsView;
use sr_cell::fault::Fault;

/// The last version of this format.
const LAST_WIRE: u8 = 2;

/// The greatest number of a client.
const CLIENTS: u8 = 64;

/// The most bytes of a statement.
const STATEMENT: u32 = 65_536;

/// The last part of an ask.
const LAST_PART: u8 = 3;

/// The number of the last reason.
const REASONS: u8 = 33;

/// A message, as `Message`. Its lists and texts are read in the frame's bytes.
#[derive(Drop)]
pub enum Body<'a> {
    Hello {
        wire: u8,
        client: u8,
        number: u64,
    },
    Resume {
        wire: u8,
        client: u8,
        number: u64,
        version: u64,
        holdings: HoldingsView<'a>,
    },
    Ask {
        number: u64,
        fresh: bool,
        parts: AskPartsView<'a>,
    },
    Write {
        number: u64,
        sql: &'a str,
    },
    Welcome {
        number: u64,
        version: u64,
        kept: bool,
    },
    Notice {
        version: u64,
        told: ToldView<'a>,
    },
    Rows {
        number: u64,
        part: u8,
        rows: RowsView<'a>,
    },
    Reply {
        number: u64,
        version: u64,
    },
    Written {
        number: u64,
        version: u64,
    },
    Refused {
        number: u64,
        fault: Fault,
    },
    Lapse {
        version: u64,
    },
}

fn wire(fields: &mut Cursor<'_>) -> Result<u8, BadField>
    ensures { Reads (λ wire. wire) result fields.new (a_wire fields.old) }
{
    fields.byte_in(FIRST_WIRE, LAST_WIRE)
}

fn client(fields: &mut Cursor<'_>) -> Result<u8, BadField>
    ensures { Reads (λ client. client) result fields.new (a_client fields.old) }
{
    fields.byte_in(1, CLIENTS)
}

fn flag(fields: &mut Cursor<'_>) -> Result<bool, BadField>
    ensures { Reads (λ flag. flag) result fields.new (a_flag fields.old) }
{
    Ok(fields.byte_in(0, 1)? == 1)
}

fn fault(fields: &mut Cursor<'_>) -> Result<Fault, BadField>
    ensures { Reads (λ fault. fault) result fields.new (a_fault fields.old) }
{
    let number = fields.byte_in(1, REASONS)?;
    let why = why_of(number);
    let at = fields.u32()?;
    Ok(Fault { why, at })
}

fn statement<'a>(fields: &mut Cursor<'a>) -> Result<&'a str, BadField>
    ensures { Reads (λ sql. sql.now) result fields.new (a_statement fields.old) }
{
    let length = fields.u32_in(0, STATEMENT)?;
    fields.utf8(length as usize)
}

fn hello<'a>(fields: &mut Cursor<'a>) -> Result<Body<'a>, BadField>
    ensures { Reads message_of result fields.new (fields_at kinds.Hello fields.old) }
{
    let wire = wire(fields)?;
    let client = client(fields)?;
    let number = fields.u64()?;
    Ok(Body::Hello {
        wire,
        client,
        number,
    })
}

fn resume<'a>(fields: &mut Cursor<'a>) -> Result<Body<'a>, BadField>
    ensures { Reads message_of result fields.new (fields_at kinds.Resume fields.old) }
{
    let wire = wire(fields)?;
    let client = client(fields)?;
    let number = fields.u64()?;
    let version = fields.u64()?;
    let holdings = holdings(fields, wire)?;
    Ok(Body::Resume {
        wire,
        client,
        number,
        version,
        holdings,
    })
}

fn ask<'a>(fields: &mut Cursor<'a>) -> Result<Body<'a>, BadField>
    ensures { Reads message_of result fields.new (fields_at kinds.Ask fields.old) }
{
    let number = fields.u64()?;
    let fresh = flag(fields)?;
    let parts = parts(fields)?;
    Ok(Body::Ask {
        number,
        fresh,
        parts,
    })
}

fn write<'a>(fields: &mut Cursor<'a>) -> Result<Body<'a>, BadField>
    ensures { Reads message_of result fields.new (fields_at kinds.Write fields.old) }
{
    let number = fields.u64()?;
    let sql = statement(fields)?;
    Ok(Body::Write { number, sql })
}

fn welcome<'a>(fields: &mut Cursor<'a>) -> Result<Body<'a>, BadField>
    ensures { Reads message_of result fields.new (fields_at kinds.Welcome fields.old) }
{
    let number = fields.u64()?;
    let version = fields.u64()?;
    let kept = flag(fields)?;
    Ok(Body::Welcome {
        number,
        version,
        kept,
    })
}

fn notice<'a>(fields: &mut Cursor<'a>) -> Result<Body<'a>, BadField>
    ensures { Reads message_of result fields.new (fields_at kinds.Notice fields.old) }
{
    let version = fields.u64()?;
    let told = told(fields)?;
    Ok(Body::Notice { version, told })
}

fn rows<'a>(fields: &mut Cursor<'a>) -> Result<Body<'a>, BadField>
    ensures { Reads message_of result fields.new (fields_at kinds.Rows fields.old) }
{
    let number = fields.u64()?;
    let part = fields.byte_in(0, LAST_PART)?;
    let rows = fields.rows()?;
    Ok(Body::Rows { number, part, rows })
}

fn reply<'a>(fields: &mut Cursor<'a>) -> Result<Body<'a>, BadField>
    ensures { Reads message_of result fields.new (fields_at kinds.Reply fields.old) }
{
    let number = fields.u64()?;
    let version = fields.u64()?;
    Ok(Body::Reply { number, version })
}

fn written<'a>(fields: &mut Cursor<'a>) -> Result<Body<'a>, BadField>
    ensures { Reads message_of result fields.new (fields_at kinds.Written fields.old) }
{
    let number = fields.u64()?;
    let version = fields.u64()?;
    Ok(Body::Written { number, version })
}

fn refused<'a>(fields: &mut Cursor<'a>) -> Result<Body<'a>, BadField>
    ensures { Reads message_of result fields.new (fields_at kinds.Refused fields.old) }
{
    let number = fields.u64()?;
    let fault = fault(fields)?;
    Ok(Body::Refused { number, fault })
}

fn lapse<'a>(fields: &mut Cursor<'a>) -> Result<Body<'a>, BadField>
    ensures { Reads message_of result fields.new (fields_at kinds.Lapse fields.old) }
{
    let version = fields.u64()?;
    Ok(Body::Lapse { version })
}

/// The fields of a frame of that kind.
pub(crate) fn fields_of<'a>(kind: FrameKind, fields: &mut Cursor<'a>) -> Result<Body<'a>, BadField>
    ensures { Reads message_of result fields.new (fields_at kind fields.old) }
{
    match kind {
        FrameKind::Hello => hello(fields),
        FrameKind::Resume => resume(fields),
        FrameKind::Ask => ask(fields),
        FrameKind::Write => write(fields),
        FrameKind::Welcome => welcome(fields),
        FrameKind::Notice => notice(fields),
        FrameKind::Rows => rows(fields),
        FrameKind::Reply => reply(fields),
        FrameKind::Written => written(fields),
        FrameKind::Refused => refused(fields),
        FrameKind::Lapse => lapse(fields),
    }
}

impl<'a> Body<'a> {
    /// The same message, whose lists are to be gone through by themselves.
    pub fn again(&self) -> Body<'a>
        ensures { message_of result ≡ message_of self.now }
    {
        match *self {
            Body::Hello {
                wire,
                client,
                number,
            } => Body::Hello {
                wire,
                client,
                number,
            },
            Body::Resume {
                wire,
                client,
                number,
                version,
                ref holdings,
            } => Body::Resume {
                wire,
                client,
                number,
                version,
                holdings: holdings.again(),
            },
            Body::Ask {
                number,
                fresh,
                ref parts,
            } => Body::Ask {
                number,
                fresh,
                parts: parts.again(),
            },
            Body::Write { number, sql } => Body::Write { number, sql },
            Body::Welcome {
                number,
                version,
                kept,
            } => Body::Welcome {
                number,
                version,
                kept,
            },
            Body::Notice { version, ref told } => Body::Notice {
                version,
                told: told.again(),
            },
            Body::Rows {
                number,
                part,
                ref rows,
            } => Body::Rows {
                number,
                part,
                rows: rows.again(),
            },
            Body::Reply { number, version } => Body::Reply { number, version },
            Body::Written { number, version } => Body::Written { number, version },
            Body::Refused { number, fault } => Body::Refused { number, fault },
            Body::Lapse { version } => Body::Lapse { version },
        }
    }
}
