//! Scripts, as they are read.
use sr_cell::fault::Fault;
use sr_cell::list::Seq;
use sr_cell::schema::Schema;
use sr_cell::text::Text;
use sr_query::query::Query;
use sr_query::write::Write;

/// What a line says. A text stands for its statement or its query, or for why it is refused; that of a write is read by the server.
#[derive(Drop)]
pub enum Event {
    Exec(Result<Write, Fault>),
    Query {
        client: u8,
        query: Result<Query, Fault>,
    },
    Write {
        client: u8,
        sql: Text,
    },
    Explain {
        client: u8,
        query: Result<Query, Fault>,
    },
    Push {
        client: u8,
    },
    ToServer {
        client: u8,
    },
    ToClient {
        client: u8,
    },
    Settle {
        client: u8,
    },
    Evict {
        client: u8,
        place: u32,
    },
    Cut {
        client: u8,
    },
    Resume {
        client: u8,
    },
}

/// The event of a line, with the line's number counted from 1.
#[derive(Drop)]
pub struct EventLine {
    pub number: u64,
    pub event: Event,
}

pub type EventLines = Seq<EventLine>;

/// The tables of a script, and its events.
#[derive(Drop)]
pub struct Script {
    pub schema: Schema,
    pub lines: EventLines,
}

/// A line that is outside the grammar: its number counted from 1, and the place of the fault in bytes.
#[derive(Clone, Copy)]
pub struct LinePlace {
    pub line: u64,
    pub place: u32,
}
