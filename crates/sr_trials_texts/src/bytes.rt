//! Bytes worked out by hand.
ghost use Rattle.std.specs.Prelude.{◌≡◌, pos, [], ◌∷◌, IfOk};
ghost use Rattle.sr_cell.specs.declared.cell.Cell.TheVariants.{Num, Str};

use crate::common::{list_of, thirties};
use sr_bytes::cursor::Cursor;
use sr_bytes::write::{push_rects, push_rows};
use sr_cell::cell::{Cell, Rows};
use sr_cell::list::{Bytes, NoMemory, Same};
use sr_cell::text::Text;
use std::alloc::Global;
use std::test::Fail;

/// A list of one row, which is 3, 'ink'.
const INK: [u8; 17] = [0, 1, 2, 0, 0, 0, 0, 0, 0, 0, 0, 3, 1, 3, b'i', b'n', b'k'];

/// What `thirties` is.
const THIRTIES: [u8; 25] = [
    0, 0, 0, 1, 4, 0, 1, 0, 0, 0, 0, 0, 0, 0, 30, 0, 0, 0, 0, 0, 0, 0, 40, 0, 0,
];

fn ink(alloc: Global) -> Result<Rows, NoMemory>
    ensures { IfOk result (λ rows. rows ≡ (Num (pos 3) ∷ Str (105 ∷ 110 ∷ 107 ∷ []) ∷ []) ∷ []) }
{
    let name = Text::of(alloc, "ink")?;
    list_of(alloc, [list_of(alloc, [Cell::Num(3), Cell::Str(name)])?])
}

// Whether the cursor stands at just those rows.
fn are_rows_read(alloc: Global, cursor: &mut Cursor<'_>) -> Result<bool, NoMemory> {
    match cursor.rows() {
        Ok(rows) => Ok(rows.to_rows(alloc)?.same(&ink(alloc)?)),
        Err(_) => Ok(false),
    }
}

// Whether the cursor stands at just those rects.
fn are_rects_read(alloc: Global, cursor: &mut Cursor<'_>) -> Result<bool, NoMemory> {
    match cursor.rects() {
        Ok(rects) => Ok(rects.to_rects(alloc)?.same(&thirties(alloc)?)),
        Err(_) => Ok(false),
    }
}

fn written_rows(alloc: Global) -> Result<Bytes, NoMemory> {
    let mut out = Bytes::new(alloc);
    push_rows(&mut out, &ink(alloc)?).and(Ok(out))
}

fn written_rects(alloc: Global) -> Result<Bytes, NoMemory> {
    let mut out = Bytes::new(alloc);
    push_rects(&mut out, &thirties(alloc)?).and(Ok(out))
}

#[test]
fn rows_are_written(rt: HostRuntime) -> Result<(), Fail> {
    let out = written_rows(rt.alloc())?;
    assert_eq!(rt; out.as_slice(), INK.as_slice());
    Ok(())
}

#[test]
fn rects_are_written(rt: HostRuntime) -> Result<(), Fail> {
    let out = written_rects(rt.alloc())?;
    assert_eq!(rt; out.as_slice(), THIRTIES.as_slice());
    Ok(())
}

fn rows_and_rects(alloc: Global) -> Result<Bytes, NoMemory> {
    let mut bytes = Bytes::new(alloc);
    bytes.extend(&INK)?;
    bytes.extend(&THIRTIES).and(Ok(bytes))
}

// Whether just those rows are read of both, and then just those rects, and how much is left then.
fn both_are_read(alloc: Global) -> Result<(bool, usize), NoMemory> {
    let bytes = rows_and_rects(alloc)?;
    let mut cursor = Cursor::over(bytes.as_slice());
    let are_read = are_rows_read(alloc, &mut cursor)? && are_rects_read(alloc, &mut cursor)?;
    Ok((are_read, cursor.left().len()))
}

#[test]
fn what_is_written_is_read(rt: HostRuntime) {
    assert!(rt; both_are_read(rt.alloc()) == Ok((true, 0)));
}

/// What is read in a test.
#[derive(Clone, Copy, Debug)]
enum Kind {
    Cell,
    Row,
    Rows,
    Span,
    Rects,
}

/// Whether the bytes begin with such a value, and how many are left.
fn reads(kind: Kind, bytes: &[u8]) -> (bool, usize) {
    let mut cursor = Cursor::over(bytes);
    let good = match kind {
        Kind::Cell => cursor.cell().is_ok(),
        Kind::Row => cursor.row().is_ok(),
        Kind::Rows => cursor.rows().is_ok(),
        Kind::Span => cursor.span().is_ok(),
        Kind::Rects => cursor.rects().is_ok(),
    };
    (good, cursor.left().len())
}

// Bytes, whether they begin with such a value, and how many are left.
static VALUES: [(Kind, &[u8], bool, usize); 25] = [
    (Kind::Cell, b"", false, 0),
    (Kind::Cell, b"\x03", false, 1),
    (Kind::Cell, b"\x00\x00\x00", false, 2),
    (Kind::Cell, b"\x01\x79aaa", false, 4),
    (Kind::Cell, b"\x01\x02a", false, 1),
    (Kind::Cell, b"\x01\x01\xff", false, 1),
    (Kind::Cell, b"\x01\x01ab", true, 1),
    (Kind::Row, b"\x00", false, 1),
    (Kind::Row, b"\x0d", false, 1),
    (Kind::Row, b"\x02\x01\x01a", false, 0),
    (Kind::Row, b"\x02\x01\x01a\x01\x00b", true, 1),
    (Kind::Rows, b"\x00\x00", false, 2),
    (Kind::Rows, b"\x01\x01", false, 2),
    (Kind::Rows, b"\x00\x01\x01\x01\x00", true, 0),
    (Kind::Span, b"\x05", false, 1),
    (
        Kind::Span,
        b"\x01\x00\x00\x00\x00\x00\x00\x00\x05\x00\x00\x00\x00\x00\x00\x00\x04",
        false,
        8,
    ),
    (
        Kind::Span,
        b"\x01\xff\xff\xff\xff\xff\xff\xff\xff\x00\x00\x00\x00\x00\x00\x00\x00",
        true,
        0,
    ),
    (Kind::Span, b"\x02\x01b\x01b", false, 2),
    (Kind::Span, b"\x02\x01b\x02b", false, 1),
    (Kind::Span, b"\x02\x01b\x01c", true, 0),
    (Kind::Span, b"\x03\x00", true, 0),
    (Kind::Rects, b"\x00\x00\x00\x00", false, 4),
    (Kind::Rects, b"\x00\x00\x40\x01", false, 4),
    (Kind::Rects, b"\x00\x00\x00\x01\x00", false, 1),
    (Kind::Rects, b"\x00\x00\x00\x02\x01\x00", false, 0),
];

#[test]
fn a_fault_stands_at_its_field(rt: HostRuntime) {
    for (kind, bytes, good, left) in &VALUES {
        assert_eq!(rt;
            reads(*kind, bytes),
            (*good, *left),
            "{kind:?} in {bytes:?}"
        );
    }
}
