//! What frames show, in memory of its own.
ghost use Rattle.std.specs.Prelude.{◌≡◌, IfOk};
ghost use Rattle.sr_wire.specs.Bodies.{message_of};
ghost use Rattle.sr_wire.specs.Views.{holding_of, part_of, after_of, tell_of};

use crate::body::Body;
use crate::frame::Frame;
use crate::views::{AskPartView, AskPartsView, HoldingView, HoldingsView, TellView, ToldView};
use sr_bytes::views::RowView;
use sr_cell::cell::Row;
use sr_cell::list::NoMemory;
use sr_cell::text::Text;
use sr_message::message::{AskPart, AskParts, Holding, Holdings, Message, Tell, Told};
use std::alloc::Global;

impl<'a> HoldingView<'a> {
    /// The holding, in memory of its own.
    pub fn to_holding(self, alloc: Global) -> Result<Holding, NoMemory>
        ensures { IfOk result (λ holding. holding ≡ holding_of self.entry) }
    {
        let HoldingView {
            table,
            attrs,
            rects,
        } = self;
        let rects = rects.to_rects(alloc)?;
        Ok(Holding {
            table,
            attrs,
            rects,
        })
    }
}

impl<'a> HoldingsView<'a> {
    /// The holdings that are left, in memory of their own.
    pub fn to_holdings(mut self, alloc: Global) -> Result<Holdings, NoMemory>
        ensures { IfOk result (λ holdings. holdings ≡ self.entry) }
    {
        let mut holdings = Holdings::new(alloc);
        while let Some(holding) = self.next() {
            holdings.push(holding.to_holding(alloc)?)?;
        }
        Ok(holdings)
    }
}

impl<'a> AskPartView<'a> {
    /// The part, in memory of its own.
    pub fn to_part(self, alloc: Global) -> Result<AskPart, NoMemory>
        ensures { IfOk result (λ part. part ≡ part_of self.entry) }
    {
        let AskPartView {
            table,
            attrs,
            rects,
        } = self;
        let rects = rects.to_rects(alloc)?;
        Ok(AskPart {
            table,
            attrs,
            rects,
        })
    }
}

impl<'a> AskPartsView<'a> {
    /// The parts that are left, in memory of their own.
    pub fn to_parts(mut self, alloc: Global) -> Result<AskParts, NoMemory>
        ensures { IfOk result (λ parts. parts ≡ self.entry) }
    {
        let mut parts = AskParts::new(alloc);
        while let Some(part) = self.next() {
            parts.push(part.to_part(alloc)?)?;
        }
        Ok(parts)
    }
}

fn to_after(after: Option<RowView<'_>>, alloc: Global) -> Result<Option<Row>, NoMemory>
    ensures { IfOk result (λ row. row ≡ after_of after.entry) }
{
    match after {
        None => Ok(None),
        Some(row) => Ok(Some(row.to_row(alloc)?)),
    }
}

impl<'a> TellView<'a> {
    /// The tell, in memory of its own.
    pub fn to_tell(self, alloc: Global) -> Result<Tell, NoMemory>
        ensures { IfOk result (λ tell. tell ≡ tell_of self.entry) }
    {
        let TellView { table, key, after } = self;
        let key = key.to_cell(alloc)?;
        let after = to_after(after, alloc)?;
        Ok(Tell { table, key, after })
    }
}

impl<'a> ToldView<'a> {
    /// The tells that are left, in memory of their own.
    pub fn to_told(mut self, alloc: Global) -> Result<Told, NoMemory>
        ensures { IfOk result (λ told. told ≡ self.entry) }
    {
        let mut told = Told::new(alloc);
        while let Some(tell) = self.next() {
            told.push(tell.to_tell(alloc)?)?;
        }
        Ok(told)
    }
}

impl<'a> Body<'a> {
    /// The message, in memory of its own.
    pub fn to_message(self, alloc: Global) -> Result<Message, NoMemory>
        ensures { IfOk result (λ message. message ≡ message_of self.entry) }
    {
        match self {
            Body::Hello {
                wire,
                client,
                number,
            } => Ok(Message::Hello {
                wire,
                client,
                number,
            }),
            Body::Resume {
                wire,
                client,
                number,
                version,
                holdings,
            } => Ok(Message::Resume {
                wire,
                client,
                number,
                version,
                holdings: holdings.to_holdings(alloc)?,
            }),
            Body::Ask {
                number,
                fresh,
                parts,
            } => Ok(Message::Ask {
                number,
                fresh,
                parts: parts.to_parts(alloc)?,
            }),
            Body::Write { number, sql } => Ok(Message::Write {
                number,
                sql: Text::of(alloc, sql)?,
            }),
            Body::Welcome {
                number,
                version,
                kept,
            } => Ok(Message::Welcome {
                number,
                version,
                kept,
            }),
            Body::Notice { version, told } => Ok(Message::Notice {
                version,
                told: told.to_told(alloc)?,
            }),
            Body::Rows { number, part, rows } => Ok(Message::Rows {
                number,
                part,
                rows: rows.to_rows(alloc)?,
            }),
            Body::Reply { number, version } => Ok(Message::Reply { number, version }),
            Body::Written { number, version } => Ok(Message::Written { number, version }),
            Body::Refused { number, fault } => Ok(Message::Refused { number, fault }),
            Body::Lapse { version } => Ok(Message::Lapse { version }),
        }
    }
}

impl<'a> Frame<'a> {
    /// The message, in memory of its own.
    pub fn message(&self, alloc: Global) -> Result<Message, NoMemory>
        ensures { IfOk result (λ message. message ≡ self.now) }
    {
        self.body().to_message(alloc)
    }
}
