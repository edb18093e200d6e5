//! Items of the rows of an ask.
ghost use Rattle.std.specs.Prelude.{◌≡◌, ◌<◌, ◌≤◌, ◌++◌, map, take, drop, length, IsTrue, ◌↔◌, IfOk, OnOk};
ghost use Rattle.sr_log.specs.Held.{Held};
ghost use Rattle.sr_session.specs.Sessions.{row_messages};
ghost use Rattle.sr_outbox.specs.declared.item.Item.TheVariants.{Rows as RowsOf};
ghost use Rattle.sr_outbox.specs.Items.{asked_of, key_pieces, part_items, row_items};
ghost use Rattle.sr_outbox.specs.Left.{messages};

use crate::item::{Asked, Item, Items};
use sr_cell::cell::Cell;
use sr_cell::list::{NoMemory, Seq};
use sr_message::message::AskPart;
use sr_tables::tables::Tables;
use std::alloc::Global;
use std::collections::VecDeque;

/// The most rows of one message.
const PIECE: usize = 256;

/// Puts the rows of each part behind the items, part by part, in messages of 256 rows.
pub fn push_rows(
    alloc: Global,
    items: &mut Items,
    tables: &Tables,
    number: u64,
    parts: &[AskPart],
) -> Result<(), NoMemory>
    requires { length parts.now ≤ 4 }
    ensures { (log : Held) → OnOk result (messages tables.now log items.new ≡
        messages tables.now log items.old ++ row_messages tables.now.rows number 0 parts.now) }
{
    tables.know_stored();
    push_parts(alloc, items, tables, number, parts)
}

/// Puts the items of each part behind the others.
fn push_parts(
    alloc: Global,
    items: &mut Items,
    tables: &Tables,
    number: u64,
    parts: &[AskPart],
) -> Result<(), NoMemory>
    requires { length parts.now ≤ 4 }
    ensures { OnOk result (items.new ≡ items.old ++ row_items tables.now number 0 parts.now) }
{
    for i in 0..parts.len() {
        let ask = &parts[i];
        push_part(alloc, items, tables, &asked_of(number, i as u8, ask), ask)?;
    }
    Ok(())
}

fn asked_of(number: u64, part: u8, ask: &AskPart) -> Asked
    ensures { result ≡ asked_of number part ask.now }
{
    Asked {
        number,
        part,
        table: ask.table,
        attrs: ask.attrs,
    }
}

/// Puts the rows of one part behind the items.
fn push_part(
    alloc: Global,
    items: &mut Items,
    tables: &Tables,
    asked: &Asked,
    ask: &AskPart,
) -> Result<(), NoMemory>
    ensures { OnOk result (items.new ≡ items.old ++ part_items tables.now asked.now ask.now) }
{
    let keys = tables.keys_in(alloc, ask.table, &ask.rects)?;
    push_pieces(alloc, items, asked, keys)
}

/// Puts the rows with these keys behind the items, in pieces of 256.
fn push_pieces(
    alloc: Global,
    items: &mut Items,
    asked: &Asked,
    keys: Seq<Cell>,
) -> Result<(), NoMemory>
    ensures { OnOk result (items.new ≡ items.old ++ map (RowsOf asked.now) (key_pieces (length keys) keys)) }
{
    let mut left = VecDeque::from_vec(keys.into_vec());
    'pieces: while has_keys(&left) {
        let keys = take_piece(alloc, &mut left)?;
        items.push(Item::Rows {
            asked: asked.again(),
            keys,
        })?;
    }
    Ok(())
}

fn has_keys(left: &VecDeque<Cell>) -> bool
    ensures { IsTrue result ↔ (0 < length left.now.items) }
{
    !left.is_empty()
}

/// Takes the first 256 keys, or all where they are fewer.
fn take_piece(alloc: Global, left: &mut VecDeque<Cell>) -> Result<Seq<Cell>, NoMemory>
    ensures piece { IfOk result (λ keys. keys ≡ take 256 left.old.items) }
    ensures left { OnOk result (left.new.items ≡ drop 256 left.old.items) }
{
    let mut keys = Seq::new(alloc);
    'keys: for _ in 0..PIECE {
        match left.pop_front() {
            None => return Ok(keys),
            Some(key) => keys.push(key)?,
        }
    }
    Ok(keys)
}
