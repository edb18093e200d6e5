//! What the calls of a client answer.
use sr_cell::cell::Rows;
use sr_cell::fault::Fault;
use sr_history::mark::Marks;
use sr_message::message::Message;
use sr_region::region::Region;
use sr_wire::bad_frame::BadFrame;

/// What comes of a query: its rows at a version; a request that is to be sent; or that another request is out, or that something
/// would have to be asked and the link is cut. The marks say what is held or dropped from then on.
#[derive(Drop)]
pub enum QueryStep {
    Answered {
        query: u64,
        version: u64,
        rows: Rows,
        marks: Marks,
    },
    Asked {
        query: u64,
        request: u64,
        message: Message,
        marks: Marks,
    },
    Busy {
        request: u64,
    },
    Down {
        cut: u64,
    },
}

/// What comes of a message of the server. After a message that is refused the client holds nothing and is cut.
#[derive(Drop)]
pub enum Took {
    Laid,
    Applied {
        version: u64,
        marks: Marks,
    },
    Forgot {
        version: u64,
        marks: Marks,
    },
    Answered {
        query: u64,
        version: u64,
        rows: Rows,
        marks: Marks,
    },
    Asked {
        request: u64,
        message: Message,
        marks: Marks,
    },
    Written {
        request: u64,
        version: u64,
        marks: Marks,
    },
    Refused {
        request: u64,
        fault: Fault,
        marks: Marks,
    },
    Welcomed {
        version: u64,
        kept: bool,
        marks: Marks,
    },
    Bad(BadFrame),
}

/// What comes of a write: a request that is to be sent; that its text is too long; that another request is out; or that the link is
/// cut.
#[derive(Drop)]
pub enum WriteStep {
    Sent { request: u64, message: Message },
    Sql(Fault),
    Busy { request: u64 },
    Down { cut: u64 },
}

/// What comes of a resume: the first message of a session, which is to be sent, or that the link is not cut.
#[derive(Drop)]
pub enum ResumeStep {
    Sent { request: u64, message: Message },
    Up,
}

/// What comes of an eviction: the region, or that a request is out, or how many regions there are where none has that number.
#[derive(Drop)]
pub enum EvictStep {
    Dropped(Region),
    Busy { request: u64 },
    NoSuch { count: usize },
}

/// What ended with a cut: nothing, or the request of that number; of an ask, the query that waits for it.
#[derive(Clone, Copy, PartialEq, Eq)]
pub enum Ended {
    Nothing,
    Query(u64),
    Write(u64),
    Resume(u64),
}

/// What comes of a cut: its number and what ended, or the number of the last cut where the link was cut already.
#[derive(Clone, Copy, PartialEq, Eq)]
pub enum CutStep {
    Cut { number: u64, ended: Ended },
    Already { number: u64 },
}
