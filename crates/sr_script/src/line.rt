//! The lines of a trace.
use sr_cell::attrs::Attrs;
use sr_cell::cause::Cause;
use sr_cell::cell::Row;
use sr_cell::fault::Fault;
use sr_cell::list::Seq;
use sr_union::rects::Rects;

/// What a cut ended.
#[derive(Clone, Copy)]
pub enum FailKind {
    Query,
    Write,
    Resume,
}

/// The requests of a client.
#[derive(Clone, Copy)]
pub enum RequestKind {
    Hello,
    Resume,
    Ask,
    Write,
}

/// A line: first those of details, then those that end a step.
#[derive(Drop)]
pub enum TraceLine {
    Answer {
        client: u8,
        query: u64,
        version: u64,
        rows: u64,
    },
    Row {
        row: Row,
    },
    Held {
        client: u8,
        table: u8,
        attrs: Attrs,
        rects: Rects,
    },
    Drop {
        client: u8,
        cause: Cause,
        table: u8,
        attrs: Attrs,
        stamp: u64,
        rects: Rects,
    },
    Ask {
        client: u8,
        request: u64,
        fresh: bool,
        parts: u8,
    },
    Part {
        table: u8,
        attrs: Attrs,
        rects: Rects,
    },
    Fail {
        client: u8,
        kind: FailKind,
        number: u64,
    },
    Pieces,
    Need {
        table: u8,
        attrs: Attrs,
    },
    Probe {
        table: u8,
        attrs: Attrs,
        stamp: u64,
        rects: Rects,
    },
    Rest {
        table: u8,
        attrs: Attrs,
        rects: Rects,
    },
    Victim {
        place: u32,
        table: u8,
        attrs: Attrs,
        stamp: u64,
        rows: u64,
    },
    ExecVersion {
        version: u64,
    },
    ExecRefused {
        fault: Fault,
    },
    QueryAnswered {
        client: u8,
        query: u64,
    },
    QueryAsked {
        client: u8,
        request: u64,
    },
    QuerySql {
        client: u8,
        fault: Fault,
    },
    QueryBusy {
        client: u8,
        request: u64,
    },
    QueryDown {
        client: u8,
        cut: u64,
    },
    WriteSent {
        client: u8,
        request: u64,
    },
    WriteSql {
        client: u8,
        fault: Fault,
    },
    WriteBusy {
        client: u8,
        request: u64,
    },
    WriteDown {
        client: u8,
        cut: u64,
    },
    PushSent {
        client: u8,
        frames: u64,
    },
    PushClosed {
        client: u8,
    },
    ServerEmpty {
        client: u8,
    },
    ServerTook {
        client: u8,
        kind: RequestKind,
        frames: u64,
    },
    ClientEmpty {
        client: u8,
    },
    ClientLaid {
        client: u8,
    },
    ClientApplied {
        client: u8,
        version: u64,
    },
    ClientAnswered {
        client: u8,
    },
    ClientAsked {
        client: u8,
        request: u64,
    },
    ClientWritten {
        client: u8,
        request: u64,
        version: u64,
    },
    ClientRefused {
        client: u8,
        request: u64,
        fault: Fault,
    },
    ClientForgot {
        client: u8,
        version: u64,
    },
    ClientWelcome {
        client: u8,
        version: u64,
        kept: bool,
    },
    Settled {
        client: u8,
        frames: u64,
    },
    EvictDropped {
        client: u8,
    },
    EvictBusy {
        client: u8,
        request: u64,
    },
    EvictNone {
        client: u8,
        count: u64,
    },
    Explained {
        client: u8,
        version: u64,
    },
    ExplainSql {
        client: u8,
        fault: Fault,
    },
    CutDone {
        client: u8,
        cut: u64,
    },
    CutAlready {
        client: u8,
        cut: u64,
    },
    ResumeSent {
        client: u8,
        request: u64,
    },
    ResumeUp {
        client: u8,
    },
}

pub type TraceLines = Seq<TraceLine>;
