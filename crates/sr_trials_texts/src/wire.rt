//! Frames worked out by hand.
ghost use Rattle.std.specs.Prelude.{◌≡◌, [], ◌∷◌, IfOk};
ghost use Rattle.sr_box.specs.declared.span.Span.TheVariants.{Full};
ghost use Rattle.sr_wire.specs.Examples.{ask, resume, whole_resume};
ghost use Rattle.sr_wire.specs.Limits.{IsSendable};

use crate::common::{list_of, thirties};
use sr_box::rect::Rect;
use sr_box::span::Span;
use sr_bytes::views::SpanView;
use sr_cell::attrs::Attrs;
use sr_cell::list::NoMemory;
use sr_message::message::{AskPart, Holding, Message};
use sr_union::rects::Rects;
use sr_wire::body::Body;
use sr_wire::encode::encode;
use sr_wire::frame::decode;
use sr_wire::wire_fault::WireFault;
use std::alloc::Global;

/// The frame by which client 1 begins.
pub const HELLO: [u8; 15] = [0, 0, 0, 11, 1, 1, 1, 0, 0, 0, 0, 0, 0, 0, 0];

/// Client 1 begins again over wire 2 with number 3, at version 5; it holds two columns of all rows of a table of two.
const RESUME: [u8; 37] = [
    0, 0, 0, 0x21, 2, 2, 1, 0, 0, 0, 0, 0, 0, 0, 3, 0, 0, 0, 0, 0, 0, 0, 5, 0, 0, 0, 1, 0, 0, 3, 0,
    0, 0, 1, 2, 0, 0,
];

/// Over wire 1 it holds all columns, and does not name them.
const WHOLE_RESUME: [u8; 35] = [
    0, 0, 0, 0x1f, 2, 1, 1, 0, 0, 0, 0, 0, 0, 0, 3, 0, 0, 0, 0, 0, 0, 0, 5, 0, 0, 0, 1, 0, 0, 0, 0,
    1, 2, 0, 0,
];

/// A reply to request 1, of version 2.
const REPLY: [u8; 21] = [
    0, 0, 0, 17, 0x14, 0, 0, 0, 0, 0, 0, 0, 1, 0, 0, 0, 0, 0, 0, 0, 2,
];

/// The same with a byte left over.
const LONG_REPLY: [u8; 22] = [
    0, 0, 0, 18, 0x14, 0, 0, 0, 0, 0, 0, 0, 1, 0, 0, 0, 0, 0, 0, 0, 2, 0,
];

/// Request 1 asks the first two columns of the rows from 30 to 40 in the second.
const ASK: [u8; 43] = [
    0, 0, 0, 39, 3, 0, 0, 0, 0, 0, 0, 0, 1, 1, 1, 0, 0, 3, 0, 0, 0, 1, 4, 0, 1, 0, 0, 0, 0, 0, 0,
    0, 30, 0, 0, 0, 0, 0, 0, 0, 40, 0, 0,
];

/// A Hello of a wire that there is not.
const LATER_HELLO: [u8; 15] = [0, 0, 0, 11, 1, 3, 1, 0, 0, 0, 0, 0, 0, 0, 0];

/// The first Resume with a thirteenth column.
const STRANGE_RESUME: [u8; 37] = [
    0, 0, 0, 0x21, 2, 2, 1, 0, 0, 0, 0, 0, 0, 0, 3, 0, 0, 0, 0, 0, 0, 0, 5, 0, 0, 0, 1, 0, 0x10, 3,
    0, 0, 0, 1, 2, 0, 0,
];

fn ask(alloc: Global) -> Result<Message, NoMemory>
    ensures { IfOk result (λ message. message ≡ ask) }
{
    let part = AskPart {
        table: 0,
        attrs: Attrs(3),
        rects: thirties(alloc)?,
    };
    Ok(Message::Ask {
        number: 1,
        fresh: true,
        parts: list_of(alloc, [part])?,
    })
}

// Whether the message is encoded as these bytes.
fn is_encoded(alloc: Global, message: &Message, bytes: &[u8]) -> Result<bool, NoMemory>
    requires { IsSendable message.now }
{
    let frame = encode(alloc, message)?;
    Ok(frame.as_slice() == bytes)
}

#[test]
fn a_hello_is_encoded(rt: HostRuntime) {
    let hello = Message::Hello {
        wire: 1,
        client: 1,
        number: 0,
    };
    assert!(rt; is_encoded(rt.alloc(), &hello, &HELLO) == Ok(true));
}

#[test]
fn a_reply_is_encoded(rt: HostRuntime) {
    let reply = Message::Reply {
        number: 1,
        version: 2,
    };
    assert!(rt; is_encoded(rt.alloc(), &reply, &REPLY) == Ok(true));
}

// The same of the ask.
fn is_ask_encoded(alloc: Global, bytes: &[u8]) -> Result<bool, NoMemory> {
    let ask = ask(alloc)?;
    is_encoded(alloc, &ask, bytes)
}

#[test]
fn an_ask_is_encoded(rt: HostRuntime) {
    assert!(rt; is_ask_encoded(rt.alloc(), &ASK) == Ok(true));
}

// All rows of a table of two columns.
fn pairs(alloc: Global) -> Result<Rects, NoMemory>
    ensures { IfOk result (λ rects. rects ≡ (Full ∷ Full ∷ []) ∷ []) }
{
    let mut rect = Rect::new(alloc);
    rect.push(Span::Full)?;
    rect.push(Span::Full)?;
    let mut rects = Rects::new(alloc);
    rects.push(rect).and(Ok(rects))
}

fn resume(alloc: Global) -> Result<Message, NoMemory>
    ensures { IfOk result (λ message. message ≡ resume) }
{
    let holding = Holding {
        table: 0,
        attrs: Attrs(3),
        rects: pairs(alloc)?,
    };
    Ok(Message::Resume {
        wire: 2,
        client: 1,
        number: 3,
        version: 5,
        holdings: list_of(alloc, [holding])?,
    })
}

fn whole_resume(alloc: Global) -> Result<Message, NoMemory>
    ensures { IfOk result (λ message. message ≡ whole_resume) }
{
    let holding = Holding {
        table: 0,
        attrs: Attrs(4095),
        rects: pairs(alloc)?,
    };
    Ok(Message::Resume {
        wire: 1,
        client: 1,
        number: 3,
        version: 5,
        holdings: list_of(alloc, [holding])?,
    })
}

// The same of both.
fn are_resumes_encoded(alloc: Global) -> Result<bool, NoMemory> {
    let resume = resume(alloc)?;
    let whole = whole_resume(alloc)?;
    Ok(is_encoded(alloc, &resume, &RESUME)? && is_encoded(alloc, &whole, &WHOLE_RESUME)?)
}

#[test]
fn a_resume_is_encoded_as_its_wire_has_it(rt: HostRuntime) {
    assert!(rt; are_resumes_encoded(rt.alloc()) == Ok(true));
}

/// The wire of a Resume in front of the bytes, with the columns of its first holding and the number of all.
fn resumed(bytes: &[u8]) -> Option<(u8, u16, usize)> {
    let frame = decode(bytes).ok()?;
    match frame.body() {
        Body::Resume {
            wire,
            mut holdings,
            ..
        } => {
            let first = holdings.next()?;
            let is_last = holdings.next().is_none();
            Some((wire, first.attrs.0, if is_last { 1 } else { 2 }))
        }
        _ => None,
    }
}

/// The numbers of a Hello, a Reply or an ask in front of the bytes.
fn numbers(bytes: &[u8]) -> Option<(u64, u64)> {
    let frame = decode(bytes).ok()?;
    match frame.body() {
        Body::Hello {
            wire: 1,
            client,
            number,
        } => Some((number, client as u64)),
        Body::Reply { number, version } => Some((number, version)),
        Body::Ask { number, fresh, .. } => Some((number, fresh as u64)),
        _ => None,
    }
}

/// The second span of the first rect of an ask, with its table and columns.
fn asked(bytes: &[u8]) -> Option<(u8, u16, i64, i64)> {
    let frame = decode(bytes).ok()?;
    match frame.body() {
        Body::Ask { mut parts, .. } => {
            let mut part = parts.next()?;
            let mut rect = part.rects.next()?;
            let _full = rect.next()?;
            match rect.next()? {
                SpanView::Nums { lo, hi } => Some((part.table, part.attrs.0, lo, hi)),
                _ => None,
            }
        }
        _ => None,
    }
}

#[test]
fn frames_are_decoded(rt: HostRuntime) {
    assert_eq!(rt; numbers(&HELLO), Some((0, 1)));
    assert_eq!(rt; numbers(&REPLY), Some((1, 2)));
    assert_eq!(rt; numbers(&ASK), Some((1, 1)));
    assert_eq!(rt; asked(&ASK), Some((0, 3, 30, 40)));
    assert_eq!(rt; resumed(&RESUME), Some((2, 3, 1)));
    assert_eq!(rt; resumed(&WHOLE_RESUME), Some((1, 4095, 1)));
}

fn is_short(bytes: &[u8]) -> bool {
    matches!(decode(bytes), Err(WireFault::Short))
}

static FAULTS: [(&[u8], WireFault); 6] = [
    (b"\0\0\0\0", WireFault::Field { place: 0 }),
    (
        b"\x08\0\0\x01",
        WireFault::Long {
            length: 134_217_729,
        },
    ),
    (b"\0\0\0\x0b\x05", WireFault::Kind { byte: 5 }),
    (&LONG_REPLY, WireFault::Field { place: 21 }),
    (&LATER_HELLO, WireFault::Field { place: 5 }),
    (&STRANGE_RESUME, WireFault::Field { place: 28 }),
];

#[test]
fn the_first_fault_is_named(rt: HostRuntime) {
    for (bytes, fault) in &FAULTS {
        assert_eq!(rt; decode(bytes).err(), Some(*fault), "in {bytes:?}");
    }
    assert!(rt; is_short(&HELLO[..3]));
    assert!(rt; is_short(&HELLO[..4]));
    assert!(rt; is_short(&REPLY[..20]));
}
