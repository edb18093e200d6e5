//! Prints how fast frames are written and read, and what decoding answers to frames that were changed.
ghost use Rattle.std.specs.Prelude.{IfOk};
ghost use Rattle.sr_wire.specs.Limits.{IsSendable};

use crate::messages::{answer, ask, hello, notice, write};
use crate::mutate::{Answers, mutate};
use crate::rects::Random;
use crate::wire::{copy_often, decode_often, encode_often, read_often};
use sr_cell::list::{Bytes, NoMemory, Seq};
use sr_message::message::Message;
use sr_wire::encode::encode;
use std::alloc::Global;
use std::io;
use std::time::Instant;

/// How many frames stand side by side.
const FRAMES: u32 = 8;

/// How often they are gone through in one measurement.
const TIMES: u32 = 20;

/// How often each is measured; the fastest counts.
const ROUNDS: u32 = 50;

/// How often each of five frames is changed.
const CHANGES: u32 = 200_000;

/// What was measured of one frame: its size, and the microseconds.
#[derive(Clone, Copy)]
struct Times {
    size: usize,
    copied: u128,
    encoded: u128,
    decoded: u128,
    read: u128,
    sum: u64,
}

/// Prints the speeds of a frame of 256 rows and one of 1,000 rects, and then the answers to a million changed frames.
pub fn frames(rt: &HostRuntime) -> io::Result<()> {
    let alloc = rt.alloc();
    let mut random = Random {
        state: 1,
        columns: 4,
        width: 3000,
    };
    match answer(alloc, &mut random, 256) {
        Ok(message) => print_message(rt, "256 rows", message)?,
        Err(NoMemory) => return println!(rt; "no memory"),
    }
    match ask(alloc, &mut random, 1000) {
        Ok(message) => print_message(rt, "1000 rects", message)?,
        Err(NoMemory) => return println!(rt; "no memory"),
    }
    let start = Instant::now(rt)?;
    match changed(alloc, &mut random) {
        Ok(answers) => print_answers(rt, answers, start.elapsed(rt)?.as_millis()),
        Err(NoMemory) => println!(rt; "no memory"),
    }
}

/// As `print_times`, of a message that nothing needs any more.
fn print_message(rt: &HostRuntime, name: &str, message: Message) -> io::Result<()>
    requires { IsSendable message }
{
    let printed = print_times(rt, name, &message);
    drop(message);
    printed
}

/// Measures a message's frame, and prints the speeds.
fn print_times(rt: &HostRuntime, name: &str, message: &Message) -> io::Result<()>
    requires { IsSendable message.now }
{
    let mut fastest = measure(rt, message)?;
    for _round in 1..ROUNDS {
        fastest = faster(fastest, measure(rt, message)?);
    }
    match fastest {
        Some(times) => {
            let bytes = times.size as u128 * FRAMES as u128 * TIMES as u128;
            println!(rt; "{name}, {} bytes (sum {}):", times.size, times.sum)?;
            print_speed(rt, "copy", bytes, times.copied, times.copied)?;
            print_speed(rt, "encode", bytes, times.encoded, times.copied)?;
            print_speed(rt, "decode", bytes, times.decoded, times.copied)?;
            print_speed(rt, "decode and read", bytes, times.read, times.copied)
        }
        None => println!(rt; "no memory"),
    }
}

/// The faster time of each.
fn faster(one: Option<Times>, other: Option<Times>) -> Option<Times> {
    let (one, other) = (one?, other?);
    Some(Times {
        size: one.size,
        copied: one.copied.min(other.copied),
        encoded: one.encoded.min(other.encoded),
        decoded: one.decoded.min(other.decoded),
        read: one.read.min(other.read),
        sum: one.sum,
    })
}

/// Prints the megabytes a second, and how many times as long as a copy it took.
fn print_speed(
    rt: &HostRuntime,
    name: &str,
    bytes: u128,
    micros: u128,
    copied: u128,
) -> io::Result<()> {
    let speed = bytes / micros.max(1);
    let tenths = micros.saturating_mul(10) / copied.max(1);
    println!(rt;
        "  {name}: {speed} MB/s, {}.{} times a copy",
        tenths / 10,
        tenths % 10
    )
}

/// Measures a message's frame; None when out of memory.
fn measure(rt: &HostRuntime, message: &Message) -> io::Result<Option<Times>>
    requires { IsSendable message.now }
{
    match side_by_side(rt.alloc(), message) {
        Ok(frames) => measure_frames(rt, message, &frames),
        Err(NoMemory) => Ok(None),
    }
}

/// Measures a message's frame, of which some stand side by side.
fn measure_frames(
    rt: &HostRuntime,
    message: &Message,
    frames: &Seq<Bytes>,
) -> io::Result<Option<Times>>
    requires { IsSendable message.now }
{
    let alloc = rt.alloc();
    let start = Instant::now(rt)?;
    let copy = copy_often(alloc, frames, TIMES);
    let copied = start.elapsed(rt)?.as_micros();
    let start = Instant::now(rt)?;
    let encode = encode_often(alloc, message, FRAMES * TIMES);
    let encoded = start.elapsed(rt)?.as_micros();
    let start = Instant::now(rt)?;
    let decode = decode_often(frames, TIMES);
    let decoded = start.elapsed(rt)?.as_micros();
    let start = Instant::now(rt)?;
    let seen = read_often(frames, TIMES);
    let read = start.elapsed(rt)?.as_micros();
    match (copy, encode) {
        (Ok(copy), Ok(encode)) => Ok(Some(Times {
            size: frames.as_slice().first().map_or(0, Bytes::len),
            copied,
            encoded,
            decoded,
            read,
            sum: copy
                .wrapping_add(encode)
                .wrapping_add(decode)
                .wrapping_add(seen),
        })),
        _ => Ok(None),
    }
}

/// The frame of the message, so many times.
fn side_by_side(alloc: Global, message: &Message) -> Result<Seq<Bytes>, NoMemory>
    requires { IsSendable message.now }
{
    let mut frames = Seq::new(alloc);
    for _frame in 0..FRAMES {
        frames.push(encode(alloc, message)?)?;
    }
    Ok(frames)
}

/// The answers to five frames of several kinds, each of which is changed so many times.
fn changed(alloc: Global, random: &mut Random) -> Result<Answers, NoMemory> {
    let mut frames = Seq::new(alloc);
    push_frames(alloc, &mut frames, random)?;
    mutate(alloc, &frames, random, CHANGES)
}

/// Five frames of several kinds more.
fn push_frames(
    alloc: Global,
    frames: &mut Seq<Bytes>,
    random: &mut Random,
) -> Result<(), NoMemory> {
    push_frame(alloc, frames, answer(alloc, random, 4))?;
    push_frame(alloc, frames, ask(alloc, random, 6))?;
    push_frame(alloc, frames, notice(alloc, random))?;
    push_frame(alloc, frames, Ok(hello()))?;
    push_frame(alloc, frames, write(alloc))
}

/// The frame of one message more, if there is memory for it.
fn push_frame(
    alloc: Global,
    frames: &mut Seq<Bytes>,
    message: Result<Message, NoMemory>,
) -> Result<(), NoMemory>
    requires { IfOk message (λ message. IsSendable message) }
{
    match message {
        Ok(message) => {
            let frame = encode(alloc, &message);
            drop(message);
            frames.push(frame?)
        }
        Err(want) => Err(want),
    }
}

fn print_answers(rt: &HostRuntime, answers: Answers, millis: u128) -> io::Result<()> {
    let Answers {
        whole,
        short,
        long,
        kind,
        field,
    } = answers;
    println!(rt;
        "changed frames: {whole} whole, {short} short, {long} long, {kind} of no kind, {field} with a field at fault, in {millis} ms"
    )
}
