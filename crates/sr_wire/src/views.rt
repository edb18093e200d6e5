//! Holdings, parts and tells in the bytes that spell them.
ghost use Rattle.std.specs.Prelude.{◌≡◌, ℕ, List, [], ◌++◌, option_to_list, IfNone};
ghost use Rattle.sr_bytes.specs.Reading.{items, many};
ghost use Rattle.std.specs.Option.{option_map};
ghost use Rattle.sr_bytes.specs.Views.{Reads};
ghost use Rattle.sr_wire.specs.Reading.{a_holding, a_part, a_tell, an_after, some_holdings, some_parts, some_told};
ghost use Rattle.sr_wire.specs.Views.{holding_of, part_of, tell_of, after_of};

use sr_bytes::cursor::{BadField, Cursor};
use sr_bytes::item::{Item, next_item, skip_items};
use sr_bytes::views::{CellView, RectsView, RowView};
use sr_cell::attrs::Attrs;
use sr_message::message::{AskPart, Holding, Tell};
use std::marker::Model;

/// The last table that a holding may name.
const LAST_TABLE: u8 = 15;

/// The most holdings of a session that begins again.
const HOLDINGS: u32 = 1_024;

/// The most parts of an ask.
const PARTS: u8 = 4;

/// The most changes of a notice.
const TELLS: u32 = 10_000;

/// All columns that a table may have.
const ALL_COLUMNS: u16 = 4_095;

/// The first version of this format, over which a holding stands for all columns.
pub(crate) const FIRST_WIRE: u8 = 1;

/// Points of one table, under these columns.
#[derive(Drop)]
pub struct HoldingView<'a> {
    pub table: u8,
    pub attrs: Attrs,
    pub rects: RectsView<'a>,
}

/// A part of an ask.
#[derive(Drop)]
pub struct AskPartView<'a> {
    pub table: u8,
    pub attrs: Attrs,
    pub rects: RectsView<'a>,
}

/// The row that a key has from now on, or that it has none.
#[derive(Drop)]
pub struct TellView<'a> {
    pub table: u8,
    pub key: CellView<'a>,
    pub after: Option<RowView<'a>>,
}

/// The holdings that are left of a list.
#[derive(Drop)]
pub struct HoldingsView<'a> {
    wire: u8,
    holdings: u32,
    bytes: Cursor<'a>,
}

impl<'a> Model for HoldingsView<'a> {
    ghost use Rattle.std.specs.Prelude.{List};
    ghost use Rattle.sr_message.specs.declared.message.Holding.{Holding};

    ghost Value = { List Holding };

    ghost use Rattle.sr_bytes.specs.Reading.{items};
    ghost use Rattle.sr_wire.specs.Reading.{a_holding};

    ghost view = { λ v. items (a_holding v.wire) v.holdings v.bytes };
}

/// The parts that are left of a list.
#[derive(Drop)]
pub struct AskPartsView<'a> {
    parts: u32,
    bytes: Cursor<'a>,
}

impl<'a> Model for AskPartsView<'a> {
    ghost use Rattle.std.specs.Prelude.{List};
    ghost use Rattle.sr_message.specs.declared.message.AskPart.{AskPart};

    ghost Value = { List AskPart };

    ghost use Rattle.sr_bytes.specs.Reading.{items};
    ghost use Rattle.sr_wire.specs.Reading.{a_part};

    ghost view = { λ v. items a_part v.parts v.bytes };
}

/// The tells that are left of a list.
#[derive(Drop)]
pub struct ToldView<'a> {
    tells: u32,
    bytes: Cursor<'a>,
}

impl<'a> Model for ToldView<'a> {
    ghost use Rattle.std.specs.Prelude.{List};
    ghost use Rattle.sr_message.specs.declared.message.Tell.{Tell};

    ghost Value = { List Tell };

    ghost use Rattle.sr_bytes.specs.Reading.{items};
    ghost use Rattle.sr_wire.specs.Reading.{a_tell};

    ghost view = { λ v. items a_tell v.tells v.bytes };
}

impl<'a> Item<'a> for HoldingView<'a> {
    type Seen = Holding;

    ghost reader = { a_holding 2 };

    ghost seen = { holding_of };

    fn read(bytes: &mut Cursor<'a>) -> Result<HoldingView<'a>, BadField> {
        let table = bytes.byte_in(0, LAST_TABLE)?;
        let attrs = Attrs(bytes.u16_in(0, ALL_COLUMNS)?);
        let rects = bytes.rects()?;
        Ok(HoldingView {
            table,
            attrs,
            rects,
        })
    }
}

/// A holding as wire 1 has it, without columns of its own.
#[derive(Drop)]
struct WholeView<'a> {
    holding: HoldingView<'a>,
}

impl<'a> Item<'a> for WholeView<'a> {
    type Seen = Holding;

    ghost reader = { a_holding 1 };

    ghost seen = { λ v. holding_of v.holding };

    fn read(bytes: &mut Cursor<'a>) -> Result<WholeView<'a>, BadField> {
        let table = bytes.byte_in(0, LAST_TABLE)?;
        let attrs = Attrs(ALL_COLUMNS);
        let rects = bytes.rects()?;
        Ok(WholeView {
            holding: HoldingView {
                table,
                attrs,
                rects,
            },
        })
    }
}

impl<'a> Item<'a> for AskPartView<'a> {
    type Seen = AskPart;

    ghost reader = { a_part };

    ghost seen = { part_of };

    fn read(bytes: &mut Cursor<'a>) -> Result<AskPartView<'a>, BadField> {
        let table = bytes.byte()?;
        let attrs = Attrs(bytes.u16_in(0, ALL_COLUMNS)?);
        let rects = bytes.rects()?;
        Ok(AskPartView {
            table,
            attrs,
            rects,
        })
    }
}

fn after<'a>(bytes: &mut Cursor<'a>) -> Result<Option<RowView<'a>>, BadField>
    ensures { Reads after_of result bytes.new (an_after bytes.old) }
{
    match bytes.byte_in(0, 1)? {
        0 => Ok(None),
        _ => Ok(Some(bytes.row()?)),
    }
}

impl<'a> Item<'a> for TellView<'a> {
    type Seen = Tell;

    ghost reader = { a_tell };

    ghost seen = { tell_of };

    fn read(bytes: &mut Cursor<'a>) -> Result<TellView<'a>, BadField> {
        let table = bytes.byte()?;
        let key = bytes.key()?;
        let after = after(bytes)?;
        Ok(TellView { table, key, after })
    }
}

/// Passes over so many holdings.
fn skip_holdings(bytes: &mut Cursor<'_>, wire: u8, count: u32) -> Result<(), BadField>
    ensures { Reads (λ _. items (a_holding wire) count bytes.old) result bytes.new (many (a_holding wire) count bytes.old) }
{
    if wire == FIRST_WIRE {
        skip_items::<WholeView<'_>>(bytes, count)
    } else {
        skip_items::<HoldingView<'_>>(bytes, count)
    }
}

/// A list of holdings over that wire, which are read again when they are asked for.
pub(crate) fn holdings<'a>(bytes: &mut Cursor<'a>, wire: u8) -> Result<HoldingsView<'a>, BadField>
    ensures { Reads (λ v. v) result bytes.new (some_holdings wire bytes.old) }
{
    let holdings = bytes.u32_in(1, HOLDINGS)?;
    let from = Cursor::over(bytes.left());
    skip_holdings(bytes, wire, holdings)?;
    Ok(HoldingsView {
        wire,
        holdings,
        bytes: from,
    })
}

/// A list of parts, likewise.
pub(crate) fn parts<'a>(bytes: &mut Cursor<'a>) -> Result<AskPartsView<'a>, BadField>
    ensures { Reads (λ v. v) result bytes.new (some_parts bytes.old) }
{
    let parts = bytes.byte_in(1, PARTS)? as u32;
    let from = Cursor::over(bytes.left());
    skip_items::<AskPartView<'a>>(bytes, parts)?;
    Ok(AskPartsView { parts, bytes: from })
}

/// A list of tells, likewise.
pub(crate) fn told<'a>(bytes: &mut Cursor<'a>) -> Result<ToldView<'a>, BadField>
    ensures { Reads (λ v. v) result bytes.new (some_told bytes.old) }
{
    let tells = bytes.u32_in(0, TELLS)?;
    let from = Cursor::over(bytes.left());
    skip_items::<TellView<'a>>(bytes, tells)?;
    Ok(ToldView { tells, bytes: from })
}

/// The next of so many holdings of wire 1, or None where none is left.
fn next_whole<'a>(left: &mut u32, bytes: &mut Cursor<'a>) -> Option<HoldingView<'a>>
    ensures first { items (a_holding 1) left.old bytes.old ≡ option_to_list (option_map holding_of result) ++ items (a_holding 1) left.new bytes.new }
    ensures end { IfNone result (items (a_holding 1) left.old bytes.old ≡ []) }
{
    match next_item::<WholeView<'a>>(left, bytes) {
        None => None,
        Some(whole) => Some(whole.holding),
    }
}

impl<'a> HoldingsView<'a> {
    /// The next holding, or None where none is left.
    pub fn next(&mut self) -> Option<HoldingView<'a>>
        ensures first { self.old ≡ option_to_list (option_map holding_of result) ++ self.new }
        ensures end { IfNone result (self.old ≡ []) }
    {
        if self.wire == FIRST_WIRE {
            next_whole(&mut self.holdings, &mut self.bytes)
        } else {
            next_item(&mut self.holdings, &mut self.bytes)
        }
    }

    /// The same holdings, to be gone through by themselves.
    pub fn again(&self) -> HoldingsView<'a>
        ensures { result ≡ self.now }
    {
        HoldingsView {
            wire: self.wire,
            holdings: self.holdings,
            bytes: Cursor::over(self.bytes.left()),
        }
    }
}

impl<'a> AskPartsView<'a> {
    /// The next part, or None where none is left.
    pub fn next(&mut self) -> Option<AskPartView<'a>>
        ensures first { self.old ≡ option_to_list (option_map part_of result) ++ self.new }
        ensures end { IfNone result (self.old ≡ []) }
    {
        next_item(&mut self.parts, &mut self.bytes)
    }

    /// The same parts, to be gone through by themselves.
    pub fn again(&self) -> AskPartsView<'a>
        ensures { result ≡ self.now }
    {
        AskPartsView {
            parts: self.parts,
            bytes: Cursor::over(self.bytes.left()),
        }
    }
}

impl<'a> ToldView<'a> {
    /// The next tell, or None where none is left.
    pub fn next(&mut self) -> Option<TellView<'a>>
        ensures first { self.old ≡ option_to_list (option_map tell_of result) ++ self.new }
        ensures end { IfNone result (self.old ≡ []) }
    {
        next_item(&mut self.tells, &mut self.bytes)
    }

    /// The same tells, to be gone through by themselves.
    pub fn again(&self) -> ToldView<'a>
        ensures { result ≡ self.now }
    {
        ToldView {
            tells: self.tells,
            bytes: Cursor::over(self.bytes.left()),
        }
    }
}
