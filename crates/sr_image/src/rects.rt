//! The rects of a part, read from the front of bytes.
ghost use Rattle.std.specs.Prelude.{◌≡◌, ◌+◌, ◌<◌, ◌≤◌, [], length, IfOk};
ghost use Rattle.sr_box.specs.Points.{constrains_only};
ghost use Rattle.sr_bytes.specs.Reading.{a_rect, passing};
ghost use Rattle.sr_image.specs.Reading.{each_behind, is_lone, may_rect, meets_some, some_rects};
ghost use Rattle.sr_image.specs.Found.{ReadsOr};

use crate::index::first_met;
use sr_box::rect::Rect;
use sr_bytes::cursor::{BadField, Cursor};
use sr_cell::attrs::Attrs;
use sr_cell::list::No;
use sr_cell::table::Table;
use sr_union::rects::Rects;
use std::alloc::Global;

/// The most rects of an image.
pub(crate) const RECTS: usize = 16_384;

/// The table and columns of a part whose rects are read, and how many rects the parts before it have.
#[derive(Clone, Copy)]
pub(crate) struct Place<'a> {
    pub(crate) table: &'a Table,
    pub(crate) attrs: Attrs,
    pub(crate) many: usize,
}

/// Whether the rect constrains no other column.
fn constrains_only(attrs: Attrs, rect: &Rect) -> bool
    ensures { result ≡ constrains_only attrs 0 rect.now }
{
    let spans = rect.as_slice();
    for i in 0..spans.len() {
        if spans[i].constrains() && !attrs.has_index(i) {
            return false;
        }
    }
    true
}

/// Whether the rect may stand at that place of the part, whatever the others are.
fn is_lone(part: &Place, place: usize, rect: &Rect) -> bool
    ensures { result ≡ is_lone part.now.table.now part.now.attrs part.now.many place rect.now }
{
    rect.fits(part.table)
        && constrains_only(part.attrs, rect)
        && part.many < RECTS
        && place < RECTS - part.many
}

/// Whether the rect meets one of the others.
fn meets_some(rect: &Rect, others: &[Rect]) -> bool
    ensures { result ≡ meets_some others.now rect.now }
{
    others.iter().any(|other| rect.meets(other))
}

/// A rect that may stand behind those, whether it meets them or not.
fn one_lone<'a>(
    alloc: Global,
    bytes: &mut Cursor<'a>,
    part: &Place,
    place: usize,
) -> Result<Rect, No<BadField>>
    ensures read { ReadsOr result bytes.new (passing (is_lone part.now.table.now part.now.attrs part.now.many place) a_rect bytes.old) }
    ensures few { IfOk result (λ _. part.now.many + place < 16384) }
{
    let at = bytes.left();
    let view = match bytes.rect() {
        Ok(view) => view,
        Err(bad) => return Err(No::Refused(bad)),
    };
    let rect = view.to_rect(alloc)?;
    if is_lone(part, place, &rect) {
        return Ok(rect);
    }
    *bytes = Cursor::over(at);
    Err(No::Refused(BadField))
}

/// So many rects, whether they meet or not.
fn each_lone<'a>(
    alloc: Global,
    bytes: &mut Cursor<'a>,
    part: &Place,
    count: u32,
) -> Result<Rects, No<BadField>>
    requires { part.now.many ≤ 16384 }
    ensures read { ReadsOr result bytes.new
        (each_behind (λ before. passing (is_lone part.now.table.now part.now.attrs part.now.many (length before)) a_rect) count [] bytes.old) }
    ensures few { IfOk result (λ rects. part.now.many + length rects ≤ 16384) }
{
    let mut rects = Rects::new(alloc);
    for _ in 0..count {
        match one_lone(alloc, bytes, part, rects.len()) {
            Ok(rect) => rects.push(rect)?,
            Err(no) => return Err(no),
        }
    }
    Ok(rects)
}

/// A rect that may stand behind those.
fn one_rect<'a>(
    alloc: Global,
    bytes: &mut Cursor<'a>,
    part: &Place,
    before: &[Rect],
) -> Result<Rect, No<BadField>>
    ensures read { ReadsOr result bytes.new (passing (may_rect part.now.table.now part.now.attrs part.now.many before.now) a_rect bytes.old) }
    ensures few { IfOk result (λ _. part.now.many + length before.now < 16384) }
{
    let at = bytes.left();
    let view = match bytes.rect() {
        Ok(view) => view,
        Err(bad) => return Err(No::Refused(bad)),
    };
    let rect = view.to_rect(alloc)?;
    if is_lone(part, before.len(), &rect) && !meets_some(&rect, before) {
        return Ok(rect);
    }
    *bytes = Cursor::over(at);
    Err(No::Refused(BadField))
}

/// So many rects, each of which may stand behind those before it. Each is compared with all of these.
fn each_rect<'a>(
    alloc: Global,
    bytes: &mut Cursor<'a>,
    part: &Place,
    count: u32,
) -> Result<Rects, No<BadField>>
    requires { part.now.many ≤ 16384 }
    ensures read { ReadsOr result bytes.new
        (each_behind (λ before. passing (may_rect part.now.table.now part.now.attrs part.now.many before) a_rect) count [] bytes.old) }
    ensures few { IfOk result (λ rects. part.now.many + length rects ≤ 16384) }
{
    let mut rects = Rects::new(alloc);
    for _ in 0..count {
        match one_rect(alloc, bytes, part, rects.as_slice()) {
            Ok(rect) => rects.push(rect)?,
            Err(no) => return Err(no),
        }
    }
    Ok(rects)
}

/// So many rects, each of which may stand behind those before it.
fn apart_rects<'a>(
    alloc: Global,
    bytes: &mut Cursor<'a>,
    part: &Place,
    count: u32,
) -> Result<Rects, No<BadField>>
    requires { part.now.many ≤ 16384 }
    ensures read { ReadsOr result bytes.new
        (each_behind (λ before. passing (may_rect part.now.table.now part.now.attrs part.now.many before) a_rect) count [] bytes.old) }
    ensures few { IfOk result (λ rects. part.now.many + length rects ≤ 16384) }
{
    let at = bytes.left();
    match each_lone(alloc, bytes, part, count) {
        Ok(rects) => match first_met(alloc, rects.as_slice())? {
            None => return Ok(rects),
            Some(_place) => {}
        },
        Err(No::NoMemory) => return Err(No::NoMemory),
        Err(No::Refused(_)) => {}
    }
    // The first rect at fault is looked for one by one.
    *bytes = Cursor::over(at);
    each_rect(alloc, bytes, part, count)
}

/// The rects of a part.
pub(crate) fn some_rects<'a>(
    alloc: Global,
    bytes: &mut Cursor<'a>,
    part: &Place,
) -> Result<Rects, No<BadField>>
    requires { part.now.many ≤ 16384 }
    ensures read { ReadsOr result bytes.new (some_rects part.now.table.now part.now.attrs part.now.many bytes.old) }
    ensures few { IfOk result (λ rects. part.now.many + length rects ≤ 16384) }
{
    match bytes.u32_in(1, RECTS as u32) {
        Ok(count) => apart_rects(alloc, bytes, part, count),
        Err(bad) => Err(No::Refused(bad)),
    }
}
