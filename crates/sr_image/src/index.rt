//! The rects of a list in an order in which near ones stand together, with hulls of blocks of them. A hull tells of a whole
//! block that nothing is found there.
ghost use Rattle.std.specs.Prelude.{◌≡◌, ◌<◌, ◌≤◌, true, false, ℕ, List, [], length, slice_get, take, drop, Some, IfOk};
ghost use Rattle.std.specs.List.{list_any};
ghost use Rattle.std.specs.List.Sorted.{IsPermutation};
ghost use Rattle.sr_region.specs.Regions.{is_in};
ghost use Rattle.sr_image.specs.Reading.{meets_some};
ghost use Rattle.sr_image.specs.Index.{IsIndex, are_levels, are_under, covers, ends_within, first_met, found_at, is_covered, is_in_hull, is_sought, is_under, numbered, span_covers};
ghost use Rattle.sr_box.specs.Points.{Rect as Spans};

use sr_box::rect::Rect;
use sr_box::span::Span;
use sr_cell::attrs::Attrs;
use sr_cell::cell::{Row, is_text_at_most};
use sr_cell::list::{Bytes, Copied, NoMemory};
use std::alloc::Global;

/// The most columns of a table.
const COLUMNS: usize = 12;

/// A size of blocks that all rects of an image are fewer than.
const LARGEST: usize = 32_768;

/// The fewest rects of a block, but the last.
const FEW: usize = 8;

/// Hulls of blocks of one size; the last may be of fewer. A block without one may have anything.
#[derive(Drop)]
pub(crate) struct Level {
    size: usize,
    hulls: Vec<Option<Rect>>,
}

/// The places of a list of rects in another order, and the hulls of blocks of these, the largest blocks first.
#[derive(Drop)]
pub(crate) struct Index {
    order: Vec<usize>,
    levels: Vec<Level>,
}

/// What is looked for among rects.
#[derive(Clone, Copy)]
pub(crate) enum Sought<'a> {
    /// One before that place that meets this rect.
    Meeting { before: usize, rect: &'a Rect },
    /// One that has the row of these columns.
    Row { attrs: Attrs, row: &'a Row },
}

impl<'a> Sought<'a> {
    /// Whether it is the rect of that place.
    fn is(&self, place: usize, rect: &Rect) -> bool
        ensures { result ≡ is_sought self.now place rect.now }
    {
        match self {
            Sought::Meeting { before, rect: own } => place < *before && own.meets(rect),
            Sought::Row { attrs, row } => rect.has_part(*attrs, row),
        }
    }

    /// Whether it may be a rect in the hull.
    fn may_be_in(&self, hull: &Rect) -> bool
        ensures { result ≡ is_in_hull self.now hull.now }
    {
        match self {
            Sought::Meeting { rect: own, .. } => own.meets(hull),
            Sought::Row { attrs, row } => hull.has_part(*attrs, row),
        }
    }
}

impl Index {
    /// An index of these rects.
    pub(crate) fn over(alloc: Global, rects: &[Rect]) -> Result<Index, NoMemory>
        ensures { IfOk result (λ index. IsIndex rects.now index) }
    {
        let mut order = places_of(alloc, rects)?;
        arrange(rects, order.as_mut_slice(), LARGEST, 0);
        let levels = levels_of(alloc, rects, order.as_slice())?;
        Ok(Index { order, levels })
    }

    /// Whether a rect before that place meets this one.
    fn meets_before(&self, rects: &[Rect], rect: &Rect, before: usize) -> bool
        requires { IsIndex rects.now self.now }
        ensures { result ≡ meets_some (take before rects.now) rect.now }
    {
        // what Sought may hold is named here, which the checker asks for
        let _none: Option<&Row> = None;
        let sought = Sought::Meeting { before, rect };
        self.has(rects, &sought)
    }

    /// Whether some rect has the row of these columns.
    pub(crate) fn has_part(&self, rects: &[Rect], attrs: Attrs, row: &Row) -> bool
        requires { IsIndex rects.now self.now }
        ensures { result ≡ is_in attrs rects.now row.now }
    {
        let sought = Sought::Row { attrs, row };
        self.has(rects, &sought)
    }

    /// Whether what is sought is among the rects.
    fn has(&self, rects: &[Rect], sought: &Sought) -> bool
        requires { IsIndex rects.now self.now }
        ensures { result ≡ list_any (found_at sought.now rects.now) self.now.order.items }
    {
        let order = self.order.as_slice();
        let mut at = 0;
        while at < order.len() {
            let end = passed(self.levels.as_slice(), order, at, sought);
            if at < end {
                at = end;
            } else {
                if is_at(rects, order[at], sought) {
                    return true;
                }
                at += 1;
            }
        }
        false
    }
}

/// Whether what is sought is the rect of that place.
fn is_at(rects: &[Rect], place: usize, sought: &Sought) -> bool
    ensures { result ≡ found_at sought.now rects.now place }
{
    match rects.get(place) {
        Some(rect) => sought.is(place, rect),
        None => false,
    }
}

/// The end of the largest block that begins at that place of the order and has nothing that is sought, or the place itself.
fn passed(levels: &[Level], order: &[usize], at: usize, sought: &Sought) -> usize
    requires { at ≤ length order.now }
    ensures on { at ≤ result }
    ensures none { (rects : List Spans) → are_levels rects order.now levels.now ≡ true
        → list_any (found_at sought.now rects) (drop at order.now) ≡ list_any (found_at sought.now rects) (drop result order.now) }
{
    for level in levels {
        if is_passed(level, at, sought) {
            return if level.size < order.len() - at {
                at + level.size
            } else {
                order.len()
            };
        }
    }
    at
}

/// Whether a block of the level begins at that place whose hull tells that nothing is there.
fn is_passed(level: &Level, at: usize, sought: &Sought) -> bool
    ensures size { result ≡ true → 0 < level.now.size }
    ensures none { (rects : List Spans) (order : List ℕ) → result ≡ true → are_under rects level.now.size level.now.hulls.items order ≡ true
        → list_any (found_at sought.now rects) (take level.now.size (drop at order)) ≡ false }
{
    if level.size == 0 || at % level.size != 0 {
        return false;
    }
    match level.hulls.get(at / level.size) {
        Some(Some(hull)) => !sought.may_be_in(hull),
        _ => false,
    }
}

/// The places of the rects, in their order.
fn places_of(alloc: Global, rects: &[Rect]) -> Result<Vec<usize>, NoMemory>
    ensures { IfOk result (λ places. places.items ≡ numbered 0 rects.now) }
{
    let mut places = Vec::new(alloc);
    for place in 0..rects.len() {
        places.push(place)?;
    }
    Ok(places)
}

/// Puts the places of a block of at most that size into an order in which near rects stand together: each half of a block has
/// the lower ones of a column.
fn arrange(rects: &[Rect], order: &mut [usize], size: usize, turn: usize)
    ensures { IsPermutation order.old order.new }
{
    if size <= FEW {
        return;
    }
    let half = size / 2;
    if order.len() <= half {
        arrange(rects, order, half, turn);
        return;
    }
    sort_block(rects, order, turn);
    let (near, far) = order.split_at_mut(half);
    arrange(rects, near, half, turn % COLUMNS + 1);
    arrange(rects, far, half, turn % COLUMNS + 1);
}

/// Sorts a block by a column that tells its rects apart.
fn sort_block(rects: &[Rect], block: &mut [usize], turn: usize)
    ensures { IsPermutation block.old block.new }
{
    let column = best_column(rects, block, turn);
    let common = common_of(rects, block, column);
    block.sort_unstable_by_key(|place| low_of(rects, *place, column, common));
}

/// Where the rect of that place begins in that column: at that number, at a text, of which the bytes behind so many count, or at
/// Null, which is the last.
fn low_of(rects: &[Rect], place: usize, column: usize, common: usize) -> i64 {
    match rects.get(place) {
        Some(rect) => match rect.get(column) {
            Some(Span::Nums { lo, .. }) => *lo,
            Some(Span::Strs { lo, .. }) => number_of(lo.as_slice(), common),
            Some(Span::Null) => i64::MAX,
            _ => i64::MIN,
        },
        None => i64::MIN,
    }
}

/// A number by which texts are in order that differ in the seven bytes from that place on, and not before them.
fn number_of(text: &[u8], from: usize) -> i64 {
    let mut bytes = [0; 8];
    for i in 1..8 {
        if let Some(byte) = text.get(from.saturating_add(i - 1)) {
            bytes[i] = *byte;
        }
    }
    i64::from_be_bytes(bytes)
}

/// The text at which the rect of that place begins in that column, if it does.
fn text_of(rects: &[Rect], place: usize, column: usize) -> Option<&[u8]> {
    match rects.get(place)?.get(column) {
        Some(Span::Strs { lo, .. }) => Some(lo.as_slice()),
        _ => None,
    }
}

/// How many bytes in front are the same in all texts at which rects of a block begin in that column.
fn common_of(rects: &[Rect], block: &[usize], column: usize) -> usize {
    let mut first: Option<&[u8]> = None;
    let mut common = usize::MAX;
    for place in block {
        if let Some(text) = text_of(rects, *place, column) {
            match first {
                Some(own) => common = common.min(count_same(own, text)),
                None => first = Some(text),
            }
        }
    }
    common
}

/// How many bytes in front are the same.
fn count_same(one: &[u8], other: &[u8]) -> usize {
    one.iter()
        .zip(other)
        .take_while(|(own, byte)| own == byte)
        .count()
}

/// The column in which the fewest rects of a block begin where the lowest does; of several the first from that turn on.
fn best_column(rects: &[Rect], block: &[usize], turn: usize) -> usize {
    let mut best = 0;
    let mut fewest = usize::MAX;
    for step in 0..COLUMNS {
        let column = (turn % COLUMNS + step) % COLUMNS;
        let count = count_lowest(rects, block, column);
        if count < fewest {
            fewest = count;
            best = column;
        }
    }
    best
}

fn count_lowest(rects: &[Rect], block: &[usize], column: usize) -> usize {
    let common = common_of(rects, block, column);
    let mut lowest = i64::MAX;
    for place in block {
        lowest = lowest.min(low_of(rects, *place, column, common));
    }
    block
        .iter()
        .filter(|place| low_of(rects, **place, column, common) == lowest)
        .count()
}

/// Hulls of blocks of each size, the largest first.
fn levels_of(alloc: Global, rects: &[Rect], order: &[usize]) -> Result<Vec<Level>, NoMemory>
    ensures { IfOk result (λ levels. are_levels rects.now order.now levels.items ≡ true) }
{
    let mut levels = Vec::new(alloc);
    let mut size = LARGEST;
    for _ in 0..4 {
        size /= FEW;
        if 0 < size && size < order.len() {
            let hulls = hulls_of(alloc, rects, order, size)?;
            levels.push(Level { size, hulls })?;
        }
    }
    Ok(levels)
}

/// The hull of each block of that size.
fn hulls_of(
    alloc: Global,
    rects: &[Rect],
    order: &[usize],
    size: usize,
) -> Result<Vec<Option<Rect>>, NoMemory>
    requires { 0 < size }
    ensures { IfOk result (λ hulls. are_under rects.now size hulls.items order.now ≡ true) }
{
    let mut hulls = Vec::new(alloc);
    let mut left = order;
    while size < left.len() {
        let (block, rest) = left.split_at(size);
        let hull = hull_of(alloc, rects, block)?;
        hulls.push(hull)?;
        left = rest;
    }
    let hull = hull_of(alloc, rects, left)?;
    hulls.push(hull)?;
    Ok(hulls)
}

/// A rect that has all those of these places, if there is one.
fn hull_of(alloc: Global, rects: &[Rect], block: &[usize]) -> Result<Option<Rect>, NoMemory>
    ensures { IfOk result (λ hull. is_under rects.now hull block.now ≡ true) }
{
    let hull = wide_of(alloc, rects, block)?;
    if all_covered(&hull, rects, block) {
        return Ok(Some(hull));
    }
    Ok(None)
}

/// The first rect of a block, widened by the others.
fn wide_of(alloc: Global, rects: &[Rect], block: &[usize]) -> Result<Rect, NoMemory> {
    let mut hull = Rect::new(alloc);
    for (i, place) in block.iter().enumerate() {
        if let Some(rect) = rects.get(*place) {
            if i == 0 {
                hull = rect.copy(alloc)?;
            } else if !covers(&hull, rect) {
                widen(alloc, &mut hull, rect)?;
            }
        }
    }
    Ok(hull)
}

fn all_covered(hull: &Rect, rects: &[Rect], block: &[usize]) -> bool
    ensures { result ≡ is_under rects.now (Some hull.now) block.now }
{
    for place in block {
        if !is_covered(hull, rects, *place) {
            return false;
        }
    }
    true
}

fn is_covered(hull: &Rect, rects: &[Rect], place: usize) -> bool
    ensures { result ≡ is_covered hull.now (slice_get rects.now place) }
{
    match rects.get(place) {
        Some(rect) => covers(hull, rect),
        None => true,
    }
}

/// Widens the hull by a rect.
fn widen(alloc: Global, hull: &mut Rect, rect: &Rect) -> Result<(), NoMemory> {
    for (column, span) in rect.as_slice().iter().enumerate() {
        let wide = match hull.get(column) {
            Some(own) => wider(alloc, own, span)?,
            None => Span::Full,
        };
        hull.set(column, wide);
    }
    Ok(())
}

fn wider(alloc: Global, own: &Span, span: &Span) -> Result<Span, NoMemory> {
    match (own, span) {
        (Span::Nums { lo, hi }, Span::Nums { lo: low, hi: high }) => Ok(Span::Nums {
            lo: (*lo).min(*low),
            hi: (*hi).max(*high),
        }),
        (Span::Strs { lo, hi }, Span::Strs { lo: low, hi: high }) => Ok(Span::Strs {
            lo: lesser(lo, low).copy(alloc)?,
            hi: later(hi, high).copy(alloc)?,
        }),
        (Span::Null, Span::Null) => Ok(Span::Null),
        _ => Ok(Span::Full),
    }
}

/// The lesser of two texts.
fn lesser<'a>(one: &'a Bytes, other: &'a Bytes) -> &'a Bytes {
    if is_text_at_most(one.as_slice(), other.as_slice()) {
        one
    } else {
        other
    }
}

/// The upper of two ends.
fn later<'a>(one: &'a Option<Bytes>, other: &'a Option<Bytes>) -> &'a Option<Bytes> {
    if ends_within(one, other) { other } else { one }
}

/// Whether the upper end of texts is no upper than another.
fn ends_within(end: &Option<Bytes>, wide: &Option<Bytes>) -> bool
    ensures { result ≡ ends_within end.now wide.now }
{
    match (end, wide) {
        (_, None) => true,
        (None, Some(_)) => false,
        (Some(end), Some(wide)) => is_text_at_most(end.as_slice(), wide.as_slice()),
    }
}

/// Whether the hull has each point of the rect.
fn covers(hull: &Rect, rect: &Rect) -> bool
    ensures { result ≡ covers hull.now rect.now }
{
    let wide = hull.as_slice();
    let spans = rect.as_slice();
    if wide.len() != spans.len() {
        return false;
    }
    for i in 0..wide.len() {
        if !span_covers(&wide[i], &spans[i]) {
            return false;
        }
    }
    true
}

fn span_covers(wide: &Span, span: &Span) -> bool
    ensures { result ≡ span_covers wide.now span.now }
{
    match (wide, span) {
        (Span::Full, _) => true,
        (Span::Nums { lo, hi }, Span::Nums { lo: low, hi: high }) => *lo <= *low && *high <= *hi,
        (Span::Strs { lo, hi }, Span::Strs { lo: low, hi: high }) => {
            is_text_at_most(lo.as_slice(), low.as_slice()) && ends_within(high, hi)
        }
        (Span::Null, Span::Null) => true,
        _ => false,
    }
}

/// The first place of a rect that meets one before it.
pub(crate) fn first_met(alloc: Global, rects: &[Rect]) -> Result<Option<usize>, NoMemory>
    ensures { IfOk result (λ place. place ≡ first_met [] rects.now) }
{
    let index = Index::over(alloc, rects)?;
    Ok(place_met(&index, rects))
}

fn place_met(index: &Index, rects: &[Rect]) -> Option<usize>
    requires { IsIndex rects.now index.now }
    ensures { result ≡ first_met [] rects.now }
{
    for place in 0..rects.len() {
        if index.meets_before(rects, &rects[place], place) {
            return Some(place);
        }
    }
    None
}
