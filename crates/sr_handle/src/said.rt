//! What a call of a client came to.
use sr_cell::fault::Fault;
use sr_cell::list::NoMemory;
use sr_wire::bad_frame::BadFrame;
use sr_wire::wire_fault::WireFault;

/// What a call did. `Sent` says that a request of that number is to be sent, and `Wanting` that no whole frame has come.
#[derive(Clone, Copy)]
pub enum Said {
    Answered { query: u64, version: u64 },
    Sent { request: u64 },
    Busy { request: u64 },
    Down { cut: u64 },
    Sql(Fault),
    Up,
    Cut { number: u64 },
    AlreadyCut { number: u64 },
    Dropped,
    NoSuch { count: usize },
    Explained { version: u64 },
    Wanting,
    Laid,
    Applied { version: u64 },
    Forgot { version: u64 },
    Written { request: u64, version: u64 },
    Refused { request: u64, fault: Fault },
    Welcomed { version: u64, kept: bool },
    Bad(BadFrame),
    Spoiled(WireFault),
}

/// Why a call did nothing: memory was refused, and the link is cut; all numbers are drawn; or the text is no UTF-8 from that byte on.
#[derive(Clone, Copy)]
pub enum Stop {
    NoMemory,
    Worn,
    BadText { place: u32 },
}

impl From<NoMemory> for Stop {
    fn from(_want: NoMemory) -> Stop {
        Stop::NoMemory
    }
}
