//! How a run ends.
use sr_wire::bad_frame::BadFrame;
use sr_wire::wire_fault::WireFault;

/// How a run ended: all lines of the script were carried out, and the link never failed, or it did; a line was not written; what came was
/// no frame, or a message that must be refused; or more than a million messages came for one request.
#[derive(Clone, Copy)]
pub enum Ending {
    Whole,
    Faulty,
    Unwritten,
    Spoiled(WireFault),
    Bad(BadFrame),
    Limit,
}
