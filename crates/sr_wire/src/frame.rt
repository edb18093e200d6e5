//! Frames at the front of bytes.
ghost use Rattle.std.specs.Prelude.{◌≡◌, ℕ, ◌+◌, ◌<◌, ◌≤◌, List, ◌++◌, length, Option, IsTrue, IfOk, IsOkAnd};
ghost use Rattle.sr_bytes.specs.Reading.{Reading};
ghost use Rattle.sr_bytes.specs.Views.{Reads};
ghost use Rattle.sr_message.specs.declared.message.Message.{Message};
ghost use Rattle.sr_wire.specs.Bodies.{message_of, client_of, Decodes, Answers};
ghost use Rattle.sr_wire.specs.Reading.{in_frame, length_at, kind_in, decoded, nothing_left, finished, go_on, cut};
ghost use Rattle.sr_wire.specs.Spelling.{spelling, has_spelling, most_bytes};

use crate::body::{Body, fields_of};
use crate::kind::FrameKind;
use crate::wire_fault::WireFault;
use sr_bytes::cursor::{BadField, Cursor};
use std::marker::Model;

/// The most bytes that may follow the length.
const MOST_BYTES: u32 = 134_217_728;

/// The bytes of the length.
const LENGTH_BYTES: usize = 4;

/// The bytes in front of the fields.
const HEAD_BYTES: usize = 5;

/// A frame, in the bytes that it was decoded from. Contracts see its message.
#[derive(Drop)]
pub struct Frame<'a> {
    bytes: &'a [u8],
    body: Body<'a>,
}

impl<'a> Model for Frame<'a> {
    ghost use Rattle.sr_message.specs.declared.message.Message.{Message};

    ghost Value = { Message };

    ghost use Rattle.std.specs.Prelude.{◌≡◌, IsTrue};
    ghost use Rattle.sr_wire.specs.Bodies.{message_of};
    ghost use Rattle.sr_wire.specs.Spelling.{spelling, has_spelling};

    ghost view = { λ f. message_of f.body };

    ghost invariant = { λ f. (f.bytes.now ≡ spelling (message_of f.body)) × IsTrue (has_spelling (message_of f.body)) };
}

impl<'a> Frame<'a> {
    /// The message, whose lists and texts are read in the frame's bytes.
    pub fn body(&self) -> Body<'a>
        ensures { message_of result ≡ self.now }
    {
        self.body.again()
    }

    /// The bytes of the frame, which are the spelling of its message.
    pub fn bytes(&self) -> &'a [u8]
        ensures bytes { result.now ≡ spelling self.now }
        ensures spelled { IsTrue (has_spelling self.now) }
    {
        self.bytes
    }

    /// How many bytes it has.
    pub fn size(&self) -> usize
        ensures { result ≡ length (spelling self.now) }
    {
        self.bytes.len()
    }

    /// The client that begins a session, or begins it again, with this frame.
    pub fn client(&self) -> Option<u8>
        ensures { result ≡ client_of self.now }
    {
        match &self.body {
            Body::Hello { client, .. } | Body::Resume { client, .. } => Some(*client),
            _ => None,
        }
    }
}

fn length_at(bytes: &[u8]) -> Result<u32, WireFault>
    ensures { result ≡ length_at bytes.now }
{
    if bytes.len() < LENGTH_BYTES {
        return Err(WireFault::Short);
    }
    let length = u32::from_be_bytes([bytes[0], bytes[1], bytes[2], bytes[3]]);
    if length == 0 {
        return Err(WireFault::Field { place: 0 });
    }
    if length > MOST_BYTES {
        return Err(WireFault::Long { length });
    }
    if bytes.len() == LENGTH_BYTES {
        return Err(WireFault::Short);
    }
    Ok(length)
}

fn kind_in(bytes: &[u8]) -> Result<FrameKind, WireFault>
    requires { 4 < length bytes.now }
    ensures { result ≡ kind_in bytes.now }
{
    let byte = bytes[LENGTH_BYTES];
    match FrameKind::of_byte(byte) {
        Some(kind) => Ok(kind),
        None => Err(WireFault::Kind { byte }),
    }
}

// What was read of the fields of a frame of that size, if nothing is left behind them.
fn finished<'a>(
    size: usize,
    read: Result<Body<'a>, BadField>,
    left: &[u8],
) -> Result<Body<'a>, WireFault>
    requires { size ≤ most_bytes + 4 }
    ensures { (reading : Reading Message) → Reads message_of read.entry left.now reading → Decodes message_of size result (finished size (nothing_left reading)) }
{
    let place = size.saturating_sub(left.len()) as u32;
    match read {
        Ok(body) => {
            if left.is_empty() {
                Ok(body)
            } else {
                Err(WireFault::Field { place })
            }
        }
        Err(BadField) => Err(WireFault::Field { place }),
    }
}

fn in_frame<'a>(kind: FrameKind, frame: &'a [u8]) -> Result<Body<'a>, WireFault>
    requires low { 4 < length frame.now }
    requires high { length frame.now ≤ most_bytes + 4 }
    ensures { Decodes message_of (length frame.now) result (in_frame kind frame.now) }
{
    let mut fields = Cursor::over(&frame[HEAD_BYTES..]);
    let read = fields_of(kind, &mut fields);
    finished(frame.len(), read, fields.left())
}

// A frame of a body of that length, whose kind is known.
fn frame_of<'a>(bytes: &'a [u8], length: u32, kind: FrameKind) -> Result<Frame<'a>, WireFault>
    requires length { length_at bytes.now ≡ Ok length }
    requires kind { kind_in bytes.now ≡ Ok kind }
    ensures { Answers result (go_on (cut (length + 4) bytes.now) (in_frame kind)) }
{
    let size = length as usize + LENGTH_BYTES;
    if bytes.len() < size {
        return Err(WireFault::Short);
    }
    let frame = &bytes[..size];
    match in_frame(kind, frame) {
        Ok(body) => Ok(Frame { bytes: frame, body }),
        Err(fault) => Err(fault),
    }
}

fn exactly<'a>(bytes: &'a [u8]) -> Result<Frame<'a>, WireFault>
    ensures { Answers result (decoded bytes.now) }
{
    let length = match length_at(bytes) {
        Ok(length) => length,
        Err(fault) => return Err(fault),
    };
    let kind = match kind_in(bytes) {
        Ok(kind) => kind,
        Err(fault) => return Err(fault),
    };
    frame_of(bytes, length, kind)
}

/// The frame at the front of the bytes, or what stands against one; takes no memory.
pub fn decode<'a>(bytes: &'a [u8]) -> Result<Frame<'a>, WireFault>
    ensures first { IfOk result (λ frame. (rest : List ℕ) × (bytes.now ≡ spelling frame ++ rest)) }
    ensures spelled { IfOk result (λ frame. IsTrue (has_spelling frame)) }
    ensures every { (m : Message) (rest : List ℕ) → IsTrue (has_spelling m) → bytes.now ≡ spelling m ++ rest → IsOkAnd result (λ frame. frame ≡ m) }
    ensures exact { Answers result (decoded bytes.now) }
{
    exactly(bytes)
}
