//! A client as a library for programs in C, and in what calls C. `c/naworuke.h` says what each call does.
#![tactic(auto)]

ghost use Rattle.std.specs.Prelude.{◌≡◌, ◌-◌, ◌^◌, length, min, slice_get};
ghost use Rattle.std.specs.Option.{is_some};
ghost use Rattle.sr_store.specs.Fitted.{count_rows};
ghost use Rattle.sr_c.specs.Calls.{Feeds, Hands, Packs, Tells, TellsOpening, told_of_opening};
ghost use Rattle.sr_handle.specs.Handles.{Asked, Began, Dropped, Explained, IsCut, Took, Wrote};
ghost use Rattle.sr_handle.specs.Showing.{cell_at, copied, kind_of, number_of, shown_at, text_of};

mod held;

use held::{Held, erased};
use sr_cell::list::NoMemory;
use sr_handle::open::{Closed, Setting, open, told_of_closed};
use sr_handle::show::{Shown, shown_region};
use sr_handle::told::{Told, bare, outcome_of};
use std::alloc::Global;

/// A handle is opened, and its pointer goes out; or why not.
fn opened(
    alloc: Global,
    schema: &[u8],
    setting: &Setting,
    client: &mut *mut u8,
) -> Result<(), Closed>
    ensures { Hands schema.now setting.now result }
{
    let handle = open(alloc, schema, setting)?;
    match Box::new(alloc, handle) {
        Ok(handle) => {
            *client = erased(Box::into_raw(handle));
            Ok(())
        }
        Err(_) => Err(Closed::NoMemory),
    }
}

fn told_of_opening(made: Result<(), Closed>) -> Told
    ensures { result ≡ told_of_opening made }
{
    match made {
        Ok(()) => bare(0),
        Err(closed) => told_of_closed(closed),
    }
}

/// A client over the tables of a schema.
#[unsafe(no_mangle)]
pub extern "C" fn naworuke_open(
    alloc: Global,
    schema: &[u8],
    setting: &Setting,
    client: &mut *mut u8,
    tells: &mut Told,
) -> u32
    ensures { TellsOpening schema.now setting.now tells.new result }
{
    let made = opened(alloc, schema, setting, client);
    *tells = told_of_opening(made);
    tells.outcome
}

/// Lets go of a client.
#[unsafe(no_mangle)]
pub extern "C" fn naworuke_free(client: Held) {
    drop(client.into_parts().into_box());
}

/// The text of a query.
#[unsafe(no_mangle)]
pub extern "C" fn naworuke_query(
    alloc: Global,
    client: &mut Held,
    sql: &[u8],
    tells: &mut Told,
) -> u32
    ensures { Tells (Asked client.old.value sql.now client.new.value) tells.new result }
{
    *tells = outcome_of(client.as_mut().query(alloc, sql));
    tells.outcome
}

/// The text of a write.
#[unsafe(no_mangle)]
pub extern "C" fn naworuke_write(
    alloc: Global,
    client: &mut Held,
    sql: &[u8],
    tells: &mut Told,
) -> u32
    ensures { Tells (Wrote client.old.value sql.now client.new.value) tells.new result }
{
    *tells = outcome_of(client.as_mut().write(alloc, sql));
    tells.outcome
}

/// How the text of a query would be answered. `naworuke_text` has the lines.
#[unsafe(no_mangle)]
pub extern "C" fn naworuke_explain(
    alloc: Global,
    client: &mut Held,
    sql: &[u8],
    tells: &mut Told,
) -> u32
    ensures { Tells (Explained client.old.value sql.now client.new.value) tells.new result }
{
    *tells = outcome_of(client.as_mut().explain(alloc, sql));
    tells.outcome
}

/// The region of that number is to be dropped.
#[unsafe(no_mangle)]
pub extern "C" fn naworuke_evict(
    alloc: Global,
    client: &mut Held,
    number: usize,
    tells: &mut Told,
) -> u32
    ensures { Tells (Dropped client.old.value number client.new.value) tells.new result }
{
    *tells = outcome_of(client.as_mut().evict(alloc, number));
    tells.outcome
}

/// The link is cut.
#[unsafe(no_mangle)]
pub extern "C" fn naworuke_cut(alloc: Global, client: &mut Held, tells: &mut Told) -> u32
    ensures { Tells (IsCut client.old.value client.new.value) tells.new result }
{
    *tells = outcome_of(client.as_mut().cut(alloc));
    tells.outcome
}

/// A session is to begin.
#[unsafe(no_mangle)]
pub extern "C" fn naworuke_resume(alloc: Global, client: &mut Held, tells: &mut Told) -> u32
    ensures { Tells (Began client.old.value client.new.value) tells.new result }
{
    *tells = outcome_of(client.as_mut().resume(alloc));
    tells.outcome
}

/// These bytes came.
#[unsafe(no_mangle)]
pub extern "C" fn naworuke_feed(client: &mut Held, bytes: &[u8]) -> u32
    ensures { Feeds client.old.value bytes.now client.new.value result }
{
    match client.as_mut().feed(bytes) {
        Ok(()) => 0,
        Err(NoMemory) => 21,
    }
}

/// The next message among the bytes that came is to be taken.
#[unsafe(no_mangle)]
pub extern "C" fn naworuke_take(alloc: Global, client: &mut Held, tells: &mut Told) -> u32
    ensures { Tells (Took client.old.value client.new.value) tells.new result }
{
    *tells = outcome_of(client.as_mut().take(alloc));
    tells.outcome
}

/// The bytes that are to be sent.
#[unsafe(no_mangle)]
pub extern "C" fn naworuke_sent(client: &mut Held, room: &mut [u8]) -> u64
    ensures size { result ≡ length client.old.value.sent }
    ensures bytes { room.new ≡ copied client.old.value.sent room.old }
    ensures same { client.new.value ≡ client.old.value }
{
    client.as_mut().copy_sent(room)
}

/// How many rows the last answer has.
#[unsafe(no_mangle)]
pub extern "C" fn naworuke_rows(client: &mut Held) -> u64
    ensures rows { result ≡ length client.old.value.rows }
    ensures same { client.new.value ≡ client.old.value }
{
    client.as_mut().count_rows()
}

/// A cell of the last answer.
#[unsafe(no_mangle)]
pub extern "C" fn naworuke_cell(
    client: &mut Held,
    row: usize,
    column: usize,
    number: &mut i64,
    room: &mut [u8],
) -> u32
    ensures kind { result ≡ kind_of (cell_at client.old.value.rows row column) }
    ensures number { number.new ≡ number_of (cell_at client.old.value.rows row column) number.old }
    ensures text { room.new ≡ copied (text_of (cell_at client.old.value.rows row column)) room.old }
    ensures same { client.new.value ≡ client.old.value }
{
    client.as_mut().copy_cell(row, column, number, room)
}

/// The rows of the last answer become bytes.
#[unsafe(no_mangle)]
pub extern "C" fn naworuke_pack(alloc: Global, client: &mut Held) -> u32
    ensures { Packs client.old.value client.new.value result }
{
    match client.as_mut().pack(alloc) {
        Ok(()) => 0,
        Err(NoMemory) => 21,
    }
}

/// The bytes of the rows, or the lines of an explanation.
#[unsafe(no_mangle)]
pub extern "C" fn naworuke_text(client: &mut Held, room: &mut [u8]) -> u64
    ensures size { result ≡ length client.old.value.text }
    ensures bytes { room.new ≡ copied client.old.value.text room.old }
    ensures same { client.new.value ≡ client.old.value }
{
    client.as_mut().copy_text(room)
}

/// The version of which the regions have the rows.
#[unsafe(no_mangle)]
pub extern "C" fn naworuke_version(client: &mut Held) -> u64
    ensures version { result ≡ client.old.value.seat.version }
    ensures same { client.new.value ≡ client.old.value }
{
    client.as_mut().seat.version()
}

/// How many rows the regions have.
#[unsafe(no_mangle)]
pub extern "C" fn naworuke_kept(client: &mut Held) -> u64
    ensures rows { result ≡ min (count_rows client.old.value.seat.store.regions) (2 ^ 64 - 1) }
    ensures same { client.new.value ≡ client.old.value }
{
    client.as_mut().seat.kept_rows()
}

/// Whether a request is out.
#[unsafe(no_mangle)]
pub extern "C" fn naworuke_waits(client: &mut Held) -> bool
    ensures waits { result ≡ is_some client.old.value.seat.out }
    ensures same { client.new.value ≡ client.old.value }
{
    client.as_mut().seat.is_waiting()
}

/// How many regions are kept.
#[unsafe(no_mangle)]
pub extern "C" fn naworuke_regions(client: &mut Held) -> u64
    ensures regions { result ≡ length client.old.value.seat.store.regions }
    ensures same { client.new.value ≡ client.old.value }
{
    client.as_mut().seat.regions().len() as u64
}

/// A region that is kept.
#[unsafe(no_mangle)]
pub extern "C" fn naworuke_region_at(client: &mut Held, number: usize, region: &mut Shown) -> bool
    ensures there { result ≡ is_some (slice_get client.old.value.seat.store.regions number) }
    ensures shown { region.new ≡ shown_at (slice_get client.old.value.seat.store.regions number) region.old }
    ensures same { client.new.value ≡ client.old.value }
{
    match client.as_mut().seat.regions().get(number) {
        Some(kept) => {
            *region = shown_region(kept);
            true
        }
        None => false,
    }
}
