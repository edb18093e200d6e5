//! What a call tells a caller in C, as numbers.
ghost use Rattle.std.specs.Prelude.{◌≡◌};
ghost use Rattle.sr_handle.specs.Told.{bad_number, bare, blamed, flag, numbered, of_fault, of_wire, outcome_of, stopped, told_of};

use crate::said::{Said, Stop};
use sr_cell::fault::Fault;
use sr_wire::bad_frame::BadFrame;
use sr_wire::why;
use sr_wire::wire_fault::WireFault;

/// The outcome of a call, which `naworuke.h` names, and the numbers that go with it: why and where a text or a frame is refused, the
/// number of a query, request, cut or line, and a version.
#[repr(C)]
#[derive(Clone, Copy)]
pub struct Told {
    pub outcome: u32,
    pub why: u32,
    pub at: u64,
    pub number: u64,
    pub version: u64,
}

/// An outcome with no numbers.
pub fn bare(outcome: u32) -> Told
    ensures { result ≡ bare outcome }
{
    numbered(outcome, 0, 0)
}

fn numbered(outcome: u32, number: u64, version: u64) -> Told
    ensures { result ≡ numbered outcome number version }
{
    Told {
        outcome,
        why: 0,
        at: 0,
        number,
        version,
    }
}

/// An outcome for a reason.
pub fn blamed(outcome: u32, why: u32, at: u64, number: u64) -> Told
    ensures { result ≡ blamed outcome why at number }
{
    Told {
        outcome,
        why,
        at,
        number,
        version: 0,
    }
}

pub fn of_fault(outcome: u32, fault: Fault, number: u64) -> Told
    ensures { result ≡ of_fault outcome fault number }
{
    blamed(
        outcome,
        why::byte_of(fault.why) as u32,
        fault.at as u64,
        number,
    )
}

fn of_bad(why: BadFrame) -> u32
    ensures { result ≡ bad_number why }
{
    match why {
        BadFrame::Direction => 1,
        BadFrame::State => 2,
        BadFrame::Number => 3,
        BadFrame::Version => 4,
        BadFrame::Shape => 5,
    }
}

fn of_wire(fault: WireFault) -> Told
    ensures { result ≡ of_wire fault }
{
    match fault {
        WireFault::Short => blamed(20, 1, 0, 0),
        WireFault::Long { length } => blamed(20, 2, length as u64, 0),
        WireFault::Kind { byte } => blamed(20, 3, byte as u64, 0),
        WireFault::Field { place } => blamed(20, 4, place as u64, 0),
    }
}

fn flag(holds: bool) -> u64
    ensures { result ≡ flag holds }
{
    if holds { 1 } else { 0 }
}

/// What is told of what a call said.
pub fn told_of(said: Said) -> Told
    ensures { result ≡ told_of said }
{
    match said {
        Said::Answered { query, version } => numbered(1, query, version),
        Said::Sent { request } => numbered(2, request, 0),
        Said::Busy { request } => numbered(3, request, 0),
        Said::Down { cut } => numbered(4, cut, 0),
        Said::Sql(fault) => of_fault(5, fault, 0),
        Said::Up => bare(6),
        Said::Cut { number } => numbered(7, number, 0),
        Said::AlreadyCut { number } => numbered(8, number, 0),
        Said::Dropped => bare(9),
        Said::NoSuch { count } => numbered(10, count as u64, 0),
        Said::Explained { version } => numbered(11, 0, version),
        Said::Wanting => bare(12),
        Said::Laid => bare(13),
        Said::Applied { version } => numbered(14, 0, version),
        Said::Forgot { version } => numbered(15, 0, version),
        Said::Written { request, version } => numbered(16, request, version),
        Said::Refused { request, fault } => of_fault(17, fault, request),
        Said::Welcomed { version, kept } => numbered(18, flag(kept), version),
        Said::Bad(why) => blamed(19, of_bad(why), 0, 0),
        Said::Spoiled(fault) => of_wire(fault),
    }
}

/// What is told of it that a call did nothing.
pub fn stopped(stop: Stop) -> Told
    ensures { result ≡ stopped stop }
{
    match stop {
        Stop::NoMemory => bare(21),
        Stop::Worn => bare(22),
        Stop::BadText { place } => blamed(23, 0, place as u64, 0),
    }
}

/// What is told of a call.
pub fn outcome_of(made: Result<Said, Stop>) -> Told
    ensures { result ≡ outcome_of made }
{
    match made {
        Ok(said) => told_of(said),
        Err(stop) => stopped(stop),
    }
}
