//! The records of a file.
ghost use Rattle.std.specs.Prelude.{◌≡◌, ◌<◌, ◌≤◌, [], IfOk, length, map, get_or};
ghost use Rattle.csv.specs.Reading.{default_config, records, strip_bom};
ghost use Rattle.csv.specs.Records.{fields_of};

use csv::{ByteRecord, ReaderBuilder};
use sr_cell::list::{NoMemory, Seq};
use std::alloc::Global;

/// Every record, the header among them, of whatever length. A reader over bytes fails only where memory is
/// wanting, so each of its failures is told as that.
pub(crate) fn all_records(alloc: Global, bytes: &[u8]) -> Result<Seq<ByteRecord>, NoMemory>
    ensures all { IfOk result (λ all. records default_config (strip_bom bytes.now) ≡ map fields_of all) }
    ensures few { IfOk result (λ all. length all ≤ length bytes.now) }
{
    let reader = ReaderBuilder::new()
        .has_headers(false)
        .flexible(true)
        .from_reader(alloc, bytes);
    let mut all = Seq::new(alloc);
    for record in reader.into_byte_records() {
        match record {
            Err(_) => return Err(NoMemory),
            Ok(record) => all.push(record)?,
        }
    }
    Ok(all)
}

/// The field of that place, counted from 0.
pub(crate) fn field_at(raw: &ByteRecord, place: usize) -> &[u8]
    requires { place < length (fields_of raw.now) }
    ensures { result.now ≡ get_or (fields_of raw.now) place [] }
{
    match raw.get(place) {
        Some(field) => field,
        None => unreachable!(),
    }
}
