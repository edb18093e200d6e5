//! A frame that comes in pieces, byte by byte and over a link in memory.
use crate::common::list_of;
use crate::wire::HELLO;
use sr_cell::list::{Bytes, No, NoMemory, Seq};
use sr_feed::feed::{Feed, fetch};
use sr_feed::fetched::Fetched;
use sr_io::mem_link::MemLink;
use sr_io::outside::Failed;
use sr_io::whole::send_all;
use std::alloc::Global;

/// How many bytes the frame in front has.
fn front_size(feed: &Feed) -> Option<usize> {
    match feed.front() {
        Ok(Some(frame)) => Some(frame.size()),
        _ => None,
    }
}

/// The size of the frame that comes with the last of these bytes, which are fed one by one, and not before.
fn size_at_the_end(alloc: Global, bytes: &[u8]) -> Result<Option<usize>, NoMemory> {
    let mut feed = Feed::new(alloc);
    for byte in bytes {
        if front_size(&feed).is_some() {
            return Ok(None);
        }
        feed.feed(&[*byte])?;
    }
    Ok(front_size(&feed))
}

#[test]
fn a_frame_comes_byte_by_byte(rt: HostRuntime) {
    assert_eq!(rt; size_at_the_end(rt.alloc(), &HELLO), Ok(Some(15)));
}

/// Whether these come of the link, one after another.
fn fetches(link: &mut MemLink, feed: &mut Feed, all: &[Fetched]) -> Result<bool, NoMemory> {
    for wanted in all {
        if fetch(link, feed)? != *wanted {
            return Ok(false);
        }
    }
    Ok(true)
}

/// A link that brings HELLO, ten bytes at a time, and whose first call fails.
fn link_of_hello(alloc: Global) -> Result<MemLink, NoMemory> {
    let mut brings = Bytes::new(alloc);
    brings.extend(&HELLO)?;
    Ok(MemLink::new(alloc, brings, list_of(alloc, [1])?, 10))
}

/// Whether these come of that link, and the size of the frame in front then.
fn hello_comes(alloc: Global, all: &[Fetched]) -> Result<(bool, Option<usize>), NoMemory> {
    let mut link = link_of_hello(alloc)?;
    let mut feed = Feed::new(alloc);
    let is_well = fetches(&mut link, &mut feed, all)?;
    Ok((is_well, front_size(&feed)))
}

#[test]
fn a_link_is_fetched_to_its_end(rt: HostRuntime) {
    let all = [
        Fetched::LinkFault,
        Fetched::More { bytes: 10 },
        Fetched::More { bytes: 5 },
        Fetched::End { left: 15 },
    ];
    assert_eq!(rt; hello_comes(rt.alloc(), &all), Ok((true, Some(15))));
}

fn silent_link(alloc: Global) -> MemLink {
    MemLink::new(alloc, Bytes::new(alloc), Seq::new(alloc), 1)
}

/// What comes of a link that brings nothing.
fn fetched_of_silence(alloc: Global) -> Result<Fetched, NoMemory> {
    fetch(&mut silent_link(alloc), &mut Feed::new(alloc))
}

#[test]
fn a_silent_link_is_at_its_end(rt: HostRuntime) {
    assert_eq!(rt;
        fetched_of_silence(rt.alloc()),
        Ok(Fetched::End { left: 0 })
    );
}

/// Whether a link takes just the bytes that are sent.
fn takes(alloc: Global, bytes: &[u8]) -> Result<bool, No<Failed>> {
    let mut link = silent_link(alloc);
    send_all(&mut link, bytes)?;
    Ok(link.sent(alloc)?.as_slice() == bytes)
}

#[test]
fn a_link_takes_what_is_sent(rt: HostRuntime) {
    assert!(rt; takes(rt.alloc(), b"ab") == Ok(true));
}
