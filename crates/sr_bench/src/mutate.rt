//! Frames that were changed at random, and what decoding answers them.
use crate::rects::Random;
use sr_cell::list::{Bytes, NoMemory, Seq};
use sr_wire::frame::decode;
use sr_wire::wire_fault::WireFault;
use std::alloc::Global;

/// How often each answer came.
#[derive(Clone, Copy)]
pub struct Answers {
    pub whole: u64,
    pub short: u64,
    pub long: u64,
    pub kind: u64,
    pub field: u64,
}

impl Answers {
    fn count(&mut self, bytes: &[u8]) {
        let answer = match decode(bytes) {
            Ok(_) => &mut self.whole,
            Err(WireFault::Short) => &mut self.short,
            Err(WireFault::Long { .. }) => &mut self.long,
            Err(WireFault::Kind { .. }) => &mut self.kind,
            Err(WireFault::Field { .. }) => &mut self.field,
        };
        *answer = answer.wrapping_add(1);
    }
}

/// Flips a bit of one of the bytes.
fn flip(bytes: &mut Bytes, random: &mut Random) {
    if bytes.is_empty() {
        return;
    }
    let at = random.next() as usize % bytes.len();
    if let Some(byte) = bytes.get(at) {
        let flipped = *byte ^ (1 << (random.next() % 8));
        bytes.replace(at, flipped);
    }
}

/// Cuts off some bytes at the end.
fn cut(bytes: &mut Bytes, random: &mut Random) {
    let len = random.next() as usize % (bytes.len().max(1));
    bytes.truncate(len);
}

/// Puts another length in front: one a little greater or smaller, or any.
fn relength(bytes: &mut Bytes, random: &mut Random) {
    if bytes.len() < 4 {
        return;
    }
    if random.next() % 2 == 0 {
        let high = random.next();
        let low = random.next();
        bytes.replace(0, (high / 256) as u8);
        bytes.replace(1, (high % 256) as u8);
        bytes.replace(2, (low / 256) as u8);
        bytes.replace(3, (low % 256) as u8);
        return;
    }
    if let Some(byte) = bytes.get(3) {
        let near = byte.wrapping_add((random.next() % 8) as u8).wrapping_sub(4);
        bytes.replace(3, near);
    }
}

/// The frame, changed in one way.
fn change(bytes: &mut Bytes, frame: &[u8], random: &mut Random) -> Result<(), NoMemory> {
    bytes.truncate(0);
    bytes.extend(frame)?;
    match random.next() % 4 {
        0 => cut(bytes, random),
        1 => relength(bytes, random),
        2 => flip(bytes, random),
        _ => {
            flip(bytes, random);
            flip(bytes, random);
            flip(bytes, random);
        }
    }
    Ok(())
}

/// Changes each frame so many times, and counts what decoding answers.
pub fn mutate(
    alloc: Global,
    frames: &Seq<Bytes>,
    random: &mut Random,
    times: u32,
) -> Result<Answers, NoMemory> {
    let mut answers = Answers {
        whole: 0,
        short: 0,
        long: 0,
        kind: 0,
        field: 0,
    };
    let mut bytes = Bytes::new(alloc);
    for _time in 0..times {
        for frame in frames.as_slice() {
            change(&mut bytes, frame.as_slice(), random)?;
            answers.count(bytes.as_slice());
        }
    }
    Ok(answers)
}
