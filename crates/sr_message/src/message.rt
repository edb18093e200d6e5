//! Messages.
use sr_cell::attrs::Attrs;
use sr_cell::cell::{Cell, Row, Rows};
use sr_cell::fault::Fault;
use sr_cell::list::{Copied, NoMemory, Seq};
use sr_cell::text::Text;
use sr_union::rects::Rects;
use std::alloc::Global;

/// What is asked of one table: these columns of the rows in these rects.
#[derive(Drop)]
pub struct AskPart {
    pub table: u8,
    pub attrs: Attrs,
    pub rects: Rects,
}

impl Copied for AskPart {
    fn copy(&self, alloc: Global) -> Result<AskPart, NoMemory> {
        Ok(AskPart {
            table: self.table,
            attrs: self.attrs,
            rects: self.rects.copy(alloc)?,
        })
    }
}

pub type AskParts = Seq<AskPart>;

/// The row that a key has from now on, or that it has none.
#[derive(Drop)]
pub struct Tell {
    pub table: u8,
    pub key: Cell,
    pub after: Option<Row>,
}

pub type Told = Seq<Tell>;

/// Points of one table that a client holds or asked for, under these columns: those in these rects.
#[derive(Drop)]
pub struct Holding {
    pub table: u8,
    pub attrs: Attrs,
    pub rects: Rects,
}

pub type Holdings = Seq<Holding>;

/// A message. A client sends the first four kinds, which are requests; a server sends the others. A number is that of the
/// request that is meant.
#[derive(Drop)]
pub enum Message {
    /// A session begins for a client that holds nothing. The wire is 1 or 2: over wire 2 a holding has its columns, over wire 1 it
    /// stands for all columns.
    Hello {
        wire: u8,
        client: u8,
        number: u64,
    },
    /// A session begins again: the client holds these points, with the rows of that version.
    Resume {
        wire: u8,
        client: u8,
        number: u64,
        version: u64,
        holdings: Holdings,
    },
    /// The rows of these parts are asked for. It is fresh where the client holds nothing.
    Ask {
        number: u64,
        fresh: bool,
        parts: AskParts,
    },
    /// A statement that writes is to be carried out.
    Write {
        number: u64,
        sql: Text,
    },
    /// The session is open from that version on; what the client holds is kept, or is to be dropped.
    Welcome {
        number: u64,
        version: u64,
        kept: bool,
    },
    /// What a version changes of the subscribed points.
    Notice {
        version: u64,
        told: Told,
    },
    /// Some rows of a part of an ask; parts count from 0.
    Rows {
        number: u64,
        part: u8,
        rows: Rows,
    },
    /// All rows of the ask were sent, and they are of that version.
    Reply {
        number: u64,
        version: u64,
    },
    /// The write made that version.
    Written {
        number: u64,
        version: u64,
    },
    /// The write was refused, and changed nothing.
    Refused {
        number: u64,
        fault: Fault,
    },
    /// What changed up to that version cannot be told any more: all that is held is to be dropped.
    Lapse {
        version: u64,
    },
}

pub type Messages = Seq<Message>;
