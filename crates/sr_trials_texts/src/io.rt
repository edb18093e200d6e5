//! Runs over the forms in memory, with each call failing in turn.
ghost use Rattle.std.specs.Prelude.{◌<◌};

use crate::common::list_of;
use sr_cell::list::{Bytes, No, NoMemory, Seq};
use sr_cell::text::Text;
use sr_io::fails::Fails;
use sr_io::file::File;
use sr_io::mem_host::MemHost;
use sr_io::mem_link::MemLink;
use sr_io::mem_sink::MemSink;
use sr_io::mem_source::MemSource;
use sr_io::outside::{Dock, Failed, Host, Link, Sink, Source};
use sr_io::whole::{ReadAll, read_all, send_all, write_all};
use std::alloc::Global;

fn list(alloc: Global, bytes: &[u8]) -> Result<Bytes, NoMemory> {
    let mut list = Seq::new(alloc);
    list.extend(bytes)?;
    Ok(list)
}

fn numbers(alloc: Global, numbers: &[u64]) -> Result<Fails, NoMemory> {
    let mut fails = Seq::new(alloc);
    fails.extend(numbers)?;
    Ok(fails)
}

/// Holds `hello` under the name `greeting`.
fn host(alloc: Global, fails: &[u64]) -> Result<MemHost, NoMemory> {
    let fails = numbers(alloc, fails)?;
    let bytes = list(alloc, b"hello")?;
    let file = File {
        name: Text::of(alloc, "greeting")?,
        bytes,
    };
    MemHost::new(alloc, list_of(alloc, [file])?, Seq::new(alloc), fails, 2)
}

/// Two peers connect, and the first of them brings `hello`.
fn dock(alloc: Global, fails: &[u64]) -> Result<MemHost, NoMemory> {
    let fails = numbers(alloc, fails)?;
    let peers = list_of(alloc, [list(alloc, b"hello")?, Seq::new(alloc)])?;
    MemHost::new(alloc, Seq::new(alloc), peers, fails, 3)
}

/// Whether the call failed.
fn fails<T: Drop>(came: Result<T, No<Failed>>) -> bool {
    matches!(came, Err(No::Refused(Failed)))
}

/// Whether there are just these bytes.
fn are(came: Option<Bytes>, wanted: &[u8]) -> bool {
    match came {
        Some(bytes) => bytes.as_slice() == wanted,
        None => false,
    }
}

/// What is read of `hello`, two bytes at a time.
fn read_up_to(alloc: Global, limit: usize) -> Result<Bytes, No<ReadAll>> {
    let mut source = MemSource::new(list(alloc, b"hello")?, Seq::new(alloc), 2);
    read_all(alloc, &mut source, limit)
}

fn is_too_long(came: Result<Bytes, No<ReadAll>>) -> bool {
    matches!(came, Err(No::Refused(ReadAll::TooLong)))
}

#[test]
fn reads_no_more_than_the_limit(rt: HostRuntime) {
    let alloc = rt.alloc();
    assert!(rt; is_too_long(read_up_to(alloc, 4)));
    assert!(rt; are(read_up_to(alloc, 5).ok(), b"hello"));
    assert!(rt; are(read_up_to(alloc, 6).ok(), b"hello"));
}

/// What a sink has of `ab` that takes so many bytes at a time.
fn written_by(alloc: Global, piece: usize) -> Option<Bytes>
    requires { 0 < piece }
{
    let mut sink = MemSink::new(alloc, Seq::new(alloc), piece);
    let _ = write_all(&mut sink, b"ab");
    sink.written(alloc).ok()
}

#[test]
fn writes_all(rt: HostRuntime) {
    let alloc = rt.alloc();
    assert!(rt; are(written_by(alloc, 1), b"ab"));
    assert!(rt; are(written_by(alloc, 2), b"ab"));
    assert!(rt; are(written_by(alloc, 3), b"ab"));
}

/// What a host reads under the name that it has picked.
fn picked(alloc: Global) -> Option<Bytes> {
    let mut host = host(alloc, &[]).ok()?;
    let _ = host.pick("greeting");
    read_all(alloc, &mut host, 5).ok()
}

fn written(alloc: Global) -> Option<Bytes> {
    let mut host = host(alloc, &[]).ok()?;
    let _ = write_all(&mut host, b"ab");
    host.written(alloc).ok()
}

fn complained(alloc: Global) -> Option<Bytes> {
    let mut host = host(alloc, &[]).ok()?;
    host.complain(b"no such");
    host.complain(b" file");
    host.complained(alloc).ok()
}

#[test]
fn a_host_reads_writes_and_complains(rt: HostRuntime) {
    let alloc = rt.alloc();
    assert!(rt; are(picked(alloc), b"hello"));
    assert!(rt; are(written(alloc), b"ab"));
    assert!(rt; are(complained(alloc), b"no such file"));
}

/// Whether a name is not found, and how many calls of reading and of writing have failed then.
fn missed(alloc: Global) -> Result<(bool, u64, u64), NoMemory> {
    let mut host = host(alloc, &[])?;
    let is_missed = fails(host.pick("gone"));
    Ok((is_missed, host.read_faults(), host.write_faults()))
}

#[test]
fn a_name_that_is_not_held_is_a_fault_of_reading(rt: HostRuntime) {
    assert!(rt; missed(rt.alloc()) == Ok((true, 1, 0)));
}

// The number of the call that is to fail, and which of four calls fail then.
static CALLS: [(u64, [bool; 4]); 5] = [
    (1, [true, false, false, false]),
    (2, [false, true, false, false]),
    (3, [false, false, true, false]),
    (4, [false, false, false, true]),
    (5, [false, false, false, false]),
];

fn failed_calls(alloc: Global, number: u64) -> Result<[bool; 4], NoMemory> {
    let mut room = [0u8; 2];
    let mut host = host(alloc, &[number])?;
    Ok([
        fails(host.pick("greeting")),
        fails(host.read(&mut room)),
        fails(host.write(b"ab")),
        fails(host.read(&mut room)),
    ])
}

#[test]
fn each_call_fails_at_its_number(rt: HostRuntime) {
    for (number, wanted) in &CALLS {
        assert!(rt;
            failed_calls(rt.alloc(), *number) == Ok(*wanted),
            "at {number}"
        );
    }
}

// What the first and the third of four calls to fail comes to.
const TWO_OF_FOUR: [bool; 4] = [true, false, true, false];

fn failed_reads(alloc: Global) -> Result<([bool; 4], u64), NoMemory> {
    let mut room = [0u8; 2];
    let mut source = MemSource::new(list(alloc, b"hello")?, numbers(alloc, &[1, 3])?, 2);
    let failed = [
        fails(source.read(&mut room)),
        fails(source.read(&mut room)),
        fails(source.read(&mut room)),
        fails(source.read(&mut room)),
    ];
    Ok((failed, source.read_faults()))
}

fn failed_writes(alloc: Global) -> Result<([bool; 4], u64), NoMemory> {
    let mut sink = MemSink::new(alloc, numbers(alloc, &[1, 3])?, 2);
    let failed = [
        fails(sink.write(b"ab")),
        fails(sink.write(b"ab")),
        fails(sink.write(b"ab")),
        fails(sink.write(b"ab")),
    ];
    Ok((failed, sink.write_faults()))
}

#[test]
fn a_source_and_a_sink_fail_at_their_numbers(rt: HostRuntime) {
    let alloc = rt.alloc();
    assert!(rt; failed_reads(alloc) == Ok((TWO_OF_FOUR, 2)));
    assert!(rt; failed_writes(alloc) == Ok((TWO_OF_FOUR, 2)));
}

/// How much the first peer brings, before it is sent `abcd`.
fn speaks<D: Dock>(dock: &mut D, room: &mut [u8; 4]) -> Option<usize> {
    dock.accept().ok()?;
    let count = dock.recv(room).ok()?;
    send_all(dock, b"abcd").ok()?;
    Some(count)
}

/// How much the first peer brings, whether that is `hel`, and what it is sent.
fn first_peer(alloc: Global) -> Option<(Option<usize>, bool, Option<Bytes>)> {
    let mut host = dock(alloc, &[]).ok()?;
    let mut room = [0u8; 4];
    let count = speaks(&mut host, &mut room);
    let is_well = room == [b'h', b'e', b'l', 0];
    Some((count, is_well, host.sent(alloc, 0).ok()))
}

fn brings_and_takes(came: Option<(Option<usize>, bool, Option<Bytes>)>) -> bool {
    match came {
        Some((Some(3), is_well, sent)) => is_well && are(sent, b"abcd"),
        _ => false,
    }
}

/// Whether nothing is sent once the first peer is gone, how much the second brings, and whether there is no third.
fn outlasts<H: Host>(host: &mut H) -> Option<(bool, usize, bool)> {
    let mut room = [0u8; 4];
    host.accept().ok()?;
    host.hang_up();
    let is_gone = fails(host.send(b"e"));
    host.dial("there").ok()?;
    let count = host.recv(&mut room).ok()?;
    Some((is_gone, count, fails(host.accept())))
}

/// What comes of further peers, and how many calls have failed then.
fn further_peers(alloc: Global) -> Option<(Option<(bool, usize, bool)>, u64)> {
    let mut host = dock(alloc, &[]).ok()?;
    let came = outlasts(&mut host);
    Some((came, host.link_faults()))
}

#[test]
fn a_host_links_its_peers_in_turn(rt: HostRuntime) {
    let alloc = rt.alloc();
    assert!(rt; brings_and_takes(first_peer(alloc)));
    assert!(rt; further_peers(alloc) == Some((Some((true, 0, true)), 2)));
}

// As `CALLS`, for calls of links: where no peer is accepted, nothing is sent or received.
static CALLS_OF_A_DOCK: [(u64, [bool; 4]); 5] = [
    (1, [true, false, false, false]),
    (2, [false, true, true, true]),
    (3, [false, false, true, false]),
    (4, [false, false, false, true]),
    (5, [false, false, false, false]),
];

fn failed_calls_of_a_dock(alloc: Global, number: u64) -> Result<[bool; 4], NoMemory> {
    let mut room = [0u8; 2];
    let mut host = dock(alloc, &[number])?;
    Ok([
        fails(host.dock("here")),
        fails(host.accept()),
        fails(host.send(b"ab")),
        fails(host.recv(&mut room)),
    ])
}

#[test]
fn each_call_of_a_dock_fails_at_its_number(rt: HostRuntime) {
    for (number, wanted) in &CALLS_OF_A_DOCK {
        assert!(rt;
            failed_calls_of_a_dock(rt.alloc(), *number) == Ok(*wanted),
            "at {number}"
        );
    }
}

/// Whether the first and the third of four sends fail, how many faults are counted, and what was sent.
fn sends(alloc: Global) -> Option<(bool, u64, Option<Bytes>)> {
    let mut link = MemLink::new(alloc, Seq::new(alloc), numbers(alloc, &[1, 3]).ok()?, 1);
    let failed = [
        fails(link.send(b"ab")),
        fails(link.send(b"ab")),
        fails(link.send(b"ab")),
        fails(link.send(b"ab")),
    ];
    let is_well = failed == TWO_OF_FOUR;
    Some((is_well, link.link_faults(), link.sent(alloc).ok()))
}

fn are_two(came: Option<(bool, u64, Option<Bytes>)>) -> bool {
    match came {
        Some((is_well, 2, sent)) => is_well && are(sent, b"aa"),
        _ => false,
    }
}

#[test]
fn a_link_fails_at_its_numbers(rt: HostRuntime) {
    assert!(rt; are_two(sends(rt.alloc())));
}
