//! What is left to ask of a query.
ghost use Rattle.std.specs.Prelude.{◌≡◌, ◌+◌, ◌<◌, ◌≤◌, List, [], ◌∷◌, length, IfOk, IsErrOf, IsTrue};
ghost use Rattle.std.specs.List.{list_all, All};
ghost use Rattle.sr_cell.specs.declared.list.No.TheVariants.{Refused};
ghost use Rattle.sr_cell.specs.declared.table.Table.{Table as TheTable};
ghost use Rattle.sr_message.specs.declared.message.AskPart.{AskPart as TheAskPart};
ghost use Rattle.sr_message.specs.Sizes.{most_rects, count_asked};
ghost use Rattle.sr_query.specs.Bound.{is_table};
ghost use Rattle.sr_store.specs.Stores.{IsStore};
ghost use Rattle.sr_client.specs.Asking.{AsksRest, LeavesRest, AreMeant, entry_of, whole_asks};
ghost use Rattle.sr_client.specs.Cutting.{AreCutAlong, IsOver, grid_of_part};

use crate::victims::table_at;
use sr_cell::list::{Copied, No, NoMemory, Seq};
use sr_cell::schema::Schema;
use sr_message::message::{AskPart, AskParts};
use sr_query::query::Part;
use sr_store::store::Store;
use sr_trim::trim::{Trimmed, trim};
use sr_union::minus::Over;
use std::alloc::Global;

/// The most rects of one ask.
const MOST_RECTS: u32 = 16_384;

/// An entry for each part of which some points are not covered by the regions. Refused where there could be more rects than an
/// ask may have; some point is not covered then.
pub fn asks_of(
    alloc: Global,
    schema: &Schema,
    store: &Store,
    parts: &[Part],
) -> Result<AskParts, No<Over>>
    requires tables { IsTrue (list_all is_table schema.now) }
    requires store { IsStore schema.now store.now.regions }
    requires meant { AreMeant schema.now parts.now }
    ensures asks { IfOk result (AsksRest schema.now store.now.regions parts.now) }
    ensures few { IfOk result (λ asks. length asks ≤ length parts.now) }
    ensures rects { IfOk result (λ asks. count_asked asks ≤ most_rects) }
    ensures cuts { IfOk result (AreCutAlong schema.now store.now.regions parts.now) }
    ensures over { IsErrOf result (Refused (record {})) → IsOver schema.now store.now.regions parts.now }
    ensures over_left { IsErrOf result (Refused (record {})) → LeavesRest schema.now store.now.regions parts.now }
{
    let mut asks = Seq::new(alloc);
    let mut room = MOST_RECTS;
    for part in parts {
        match rest_of(alloc, schema, store, part, room) {
            Ok(rest) => {
                room = room_behind(room, rest.as_slice());
                asks.append(rest)?;
            }
            Err(no) => return Err(no),
        }
    }
    Ok(asks)
}

/// How many rects there is room for behind these entries.
fn room_behind(room: u32, asks: &[AskPart]) -> u32
    requires { count_asked asks.now ≤ room }
    ensures { result + count_asked asks.now ≡ room }
{
    let mut left = room;
    for ask in asks {
        left -= ask.rects.len() as u32;
    }
    left
}

/// An entry for the part, if some of its points are not covered. Refused where it could have more rects than there is room for.
fn rest_of(
    alloc: Global,
    schema: &Schema,
    store: &Store,
    part: &Part,
    room: u32,
) -> Result<AskParts, No<Over>>
    requires tables { IsTrue (list_all is_table schema.now) }
    requires store { IsStore schema.now store.now.regions }
    requires meant { AreMeant schema.now (part.now ∷ []) }
    ensures asks { IfOk result (AsksRest schema.now store.now.regions (part.now ∷ [])) }
    ensures few { IfOk result (λ asks. length asks ≤ 1) }
    ensures rects { IfOk result (λ asks. count_asked asks ≤ room) }
    ensures grid { IfOk result (λ asks. count_asked asks ≤ grid_of_part schema.now store.now.regions part.now) }
    ensures cuts { IfOk result (AreCutAlong schema.now store.now.regions (part.now ∷ [])) }
    ensures over { IsErrOf result (Refused (record {})) → room < grid_of_part schema.now store.now.regions part.now }
    ensures over_left { IsErrOf result (Refused (record {})) → LeavesRest schema.now store.now.regions (part.now ∷ []) }
{
    let table = table_at(schema, part.table);
    let cover = store.cover_near(alloc, part)?;
    let trimmed = trim(alloc, part, table, &cover, room);
    drop(cover);
    match trimmed {
        Ok(trimmed) => Ok(entry_of(alloc, part.table, trimmed)?),
        Err(no) => Err(no),
    }
}

/// An entry for each part that has rects: all of it.
pub fn whole_asks(alloc: Global, parts: &[Part]) -> Result<AskParts, NoMemory>
    ensures is { IfOk result (λ asks. asks ≡ whole_asks parts.now) }
    ensures few { (schema : List TheTable) → AreMeant schema parts.now → IfOk result (All (λ (ask : TheAskPart). length ask.rects ≤ 64)) }
{
    let mut asks = Seq::new(alloc);
    for part in parts {
        asks.append(whole_ask(alloc, part)?)?;
    }
    Ok(asks)
}

/// An entry for the part, if it has rects: all of it.
fn whole_ask(alloc: Global, part: &Part) -> Result<AskParts, NoMemory>
    ensures { IfOk result (λ asks. asks ≡ entry_of part.now.table part.now.need part.now.rects) }
{
    let whole = Trimmed {
        rest: part.rects.copy(alloc)?,
        attrs: part.need,
    };
    entry_of(alloc, part.table, whole)
}

/// An entry, if a rest is there.
fn entry_of(alloc: Global, table: u8, trimmed: Trimmed) -> Result<AskParts, NoMemory>
    ensures { IfOk result (λ asks. asks ≡ entry_of table trimmed.attrs trimmed.rest) }
{
    let mut asks = Seq::new(alloc);
    let Trimmed { rest, attrs } = trimmed;
    if !rest.is_empty() {
        asks.push(AskPart {
            table,
            attrs,
            rects: rest,
        })?;
    }
    Ok(asks)
}
