//! A handle from a caller's words.
ghost use Rattle.std.specs.Prelude.{◌≡◌, ◌<◌, ◌^◌, length, Some, None, IfOk, IsTrue};
ghost use Rattle.std.specs.List.{list_all};
ghost use Rattle.sr_query.specs.Bound.{is_table};
ghost use Rattle.sr_handle.specs.Opening.{CreatesFor, Opens, limits_of, told_of_closed};

use crate::handle::Handle;
use crate::told::{Told, bare, blamed, of_fault};
use sr_cell::fault::Fault;
use sr_cell::list::No;
use sr_cell::schema::Schema;
use sr_policy::policy::{Limits, Policy};
use sr_reader::head::created;
use sr_setup::schema_file::schema_lines;
use std::alloc::Global;

/// The number of a client, and how many rows and regions it may keep by which policy: 0 is recency, and 1 distance.
#[repr(C)]
#[derive(Clone, Copy)]
pub struct Setting {
    pub client: u32,
    pub rows: u32,
    pub regions: u32,
    pub policy: u32,
}

/// Why no client is opened: memory was refused; a number is out of its range; a line of the schema is outside its grammar, at that byte; or
/// its CREATE is refused.
#[derive(Clone, Copy)]
pub enum Closed {
    NoMemory,
    Range,
    Line { line: u64, place: u32 },
    Create { line: u64, fault: Fault },
}

/// A client's number and its limits, where all are in their ranges.
fn limits_of(setting: &Setting) -> Option<(u8, Limits)>
    ensures { result ≡ limits_of setting.now }
{
    if setting.client < 1 || setting.client > 64 {
        return None;
    }
    if setting.rows > 200_000 || setting.regions > 1_024 {
        return None;
    }
    let policy = match setting.policy {
        0 => Policy::Recency,
        1 => Policy::Distance,
        _ => return None,
    };
    let limits = Limits {
        rows: setting.rows,
        regions: setting.regions,
        policy,
    };
    Some((setting.client as u8, limits))
}

/// The tables of the CREATE lines of a schema.
fn tables_of(alloc: Global, schema: &[u8]) -> Result<Schema, Closed>
    ensures tables { CreatesFor schema.now result }
    ensures sound { IfOk result (λ tables. IsTrue (list_all is_table tables)) }
{
    if schema.len() >= u32::MAX as usize {
        return Err(Closed::Range);
    }
    let lines = match schema_lines(alloc, schema) {
        Ok(lines) => lines,
        Err(No::Refused(at)) => {
            return Err(Closed::Line {
                line: at.line,
                place: at.place,
            });
        }
        Err(No::NoMemory) => return Err(Closed::NoMemory),
    };
    match created(alloc, &lines) {
        Ok(tables) => Ok(tables),
        Err(No::Refused(refused)) => Err(Closed::Create {
            line: refused.number,
            fault: refused.fault,
        }),
        Err(No::NoMemory) => Err(Closed::NoMemory),
    }
}

/// A client over these tables, to which nothing has happened.
pub fn open(alloc: Global, schema: &[u8], setting: &Setting) -> Result<Handle, Closed>
    ensures { Opens schema.now setting.now result }
{
    let Some((client, limits)) = limits_of(setting) else {
        return Err(Closed::Range);
    };
    let tables = tables_of(alloc, schema)?;
    match Handle::new(alloc, client, tables, limits) {
        Ok(handle) => Ok(handle),
        Err(_) => Err(Closed::NoMemory),
    }
}

/// What is told of it that no client is opened.
pub fn told_of_closed(closed: Closed) -> Told
    ensures { result ≡ told_of_closed closed }
{
    match closed {
        Closed::NoMemory => bare(21),
        Closed::Range => bare(24),
        Closed::Line { line, place } => blamed(25, 0, place as u64, line),
        Closed::Create { line, fault } => of_fault(26, fault, line),
    }
}
