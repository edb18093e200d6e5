//! Reading the files for the tables.
ghost use Rattle.std.specs.Prelude.{◌≡◌, ℕ, ◌^◌, nat_lt, List, [], ◌∷◌, length, None, IsTrue, IfErr, IfOk, OnOk, IsErrOf};
ghost use Rattle.std.specs.List.{AllZip, list_all};
ghost use Rattle.sr_load.specs.declared.fill.Load.{Load as TheLoad};
ghost use Rattle.sr_cli.specs.Files.{IsLoad, IsHeldLoad, names_of};
ghost use Rattle.sr_cli.specs.Leaves.{NotRead, OnlyReads};
ghost use Rattle.sr_cli.specs.Seen.{AddsLoad};
ghost use Rattle.sr_cli.specs.declared.file.ReadFault.TheVariants.{Fault};

use crate::file::{ReadFault, read_file};
use sr_cell::list::Seq;
use sr_cell::text::Text;
use sr_io::outside::Host;
use sr_load::fill::{Load, Loads};
use sr_words::command::LoadWord;
use std::alloc::Global;

/// Reads the files for the tables, in their order. The first that cannot be read or is too long ends it.
pub(crate) fn read_loads<H: Host>(
    alloc: Global,
    words: &[LoadWord],
    host: &mut H,
) -> Result<Loads, ReadFault>
    ensures read { IfOk result (AllZip (IsLoad (H.held host.old)) words.now) }
    ensures short { IfOk result (λ loads. IsTrue (list_all (λ load. nat_lt (length load.bytes) (2 ^ 32)) loads)) }
    ensures not_read { IfErr result (NotRead (H.held host.old) (names_of words.now) (H.reading host.old) (H.reading host.new)) }
    ensures ok_keeps_faults { OnOk result ((H.reading host.new).faults ≡ (H.reading host.old).faults) }
    ensures steady { H.IsSteady host.old → IsErrOf result Fault → (loads : List TheLoad) → ¬ AllZip (IsHeldLoad (H.held host.old)) words.now loads }
    ensures stays { OnlyReads H H.writing H.linking H.held H.complaints H.IsSteady host.old host.new }
{
    let mut loads = Seq::new(alloc);
    for word in words {
        match add_load(alloc, word, &mut loads, host) {
            Ok(()) => {}
            Err(no) => return Err(no),
        }
    }
    Ok(loads)
}

/// Reads the file that the word names, and adds it.
fn add_load<H: Host>(
    alloc: Global,
    word: &LoadWord,
    loads: &mut Loads,
    host: &mut H,
) -> Result<(), ReadFault>
    ensures read { OnOk result (AddsLoad (H.held host.old) word.now loads.old loads.new) }
    ensures not_read { IfErr result (NotRead (H.held host.old) (word.now.file ∷ []) (H.reading host.old) (H.reading host.new)) }
    ensures ok_keeps_faults { OnOk result ((H.reading host.new).faults ≡ (H.reading host.old).faults) }
    ensures steady { H.IsSteady host.old → IsErrOf result Fault → H.held host.old word.now.file ≡ None }
    ensures stays { OnlyReads H H.writing H.linking H.held H.complaints H.IsSteady host.old host.new }
{
    match read_load(alloc, word, host) {
        Ok(load) => match loads.push(load) {
            Ok(()) => Ok(()),
            Err(_) => Err(ReadFault::NoMemory),
        },
        Err(no) => Err(no),
    }
}

/// Reads the file that the word names.
fn read_load<H: Host>(alloc: Global, word: &LoadWord, host: &mut H) -> Result<Load, ReadFault>
    ensures read { IfOk result (IsLoad (H.held host.old) word.now) }
    ensures not_read { IfErr result (NotRead (H.held host.old) (word.now.file ∷ []) (H.reading host.old) (H.reading host.new)) }
    ensures ok_keeps_faults { OnOk result ((H.reading host.new).faults ≡ (H.reading host.old).faults) }
    ensures steady { H.IsSteady host.old → IsErrOf result Fault → H.held host.old word.now.file ≡ None }
    ensures stays { OnlyReads H H.writing H.linking H.held H.complaints H.IsSteady host.old host.new }
{
    let bytes = match read_file(alloc, word.file.as_str(), host) {
        Ok(bytes) => bytes,
        Err(no) => return Err(no),
    };
    match Text::of(alloc, word.table.as_str()) {
        Ok(table) => Ok(Load { table, bytes }),
        Err(_) => Err(ReadFault::NoMemory),
    }
}
