//! Reading a file.
ghost use Rattle.std.specs.Prelude.{◌≡◌, [], ◌∷◌, None, IfErr, IfOk, IsErrOf, OnOk};
ghost use Rattle.sr_cli.specs.Files.{IsWhatIsHeld};
ghost use Rattle.sr_cli.specs.Leaves.{NotRead, OnlyReads};
ghost use Rattle.sr_cli.specs.declared.file.ReadFault.TheVariants.{Fault};

use sr_cell::list::{Bytes, No};
use sr_io::outside::Host;
use sr_io::whole::{ReadAll, read_all};
use std::alloc::Global;

/// The most bytes that a file may have.
const LIMIT: usize = 67108864;

/// Why a file was not read.
#[derive(Clone, Copy)]
pub enum ReadFault {
    /// The host failed.
    Fault,
    /// Memory was refused.
    NoMemory,
    /// There are more bytes than the limit.
    TooLong,
}

/// Reads what is held under the name.
pub fn read_file<H: Host>(alloc: Global, name: &str, host: &mut H) -> Result<Bytes, ReadFault>
    ensures read { IfOk result (IsWhatIsHeld (H.held host.old name.now)) }
    ensures not_read { IfErr result (NotRead (H.held host.old) (name.now ∷ []) (H.reading host.old) (H.reading host.new)) }
    ensures ok_keeps_faults { OnOk result ((H.reading host.new).faults ≡ (H.reading host.old).faults) }
    ensures steady { H.IsSteady host.old → IsErrOf result Fault → H.held host.old name.now ≡ None }
    ensures stays { OnlyReads H H.writing H.linking H.held H.complaints H.IsSteady host.old host.new }
{
    match host.pick(name) {
        Err(No::NoMemory) => return Err(ReadFault::NoMemory),
        Err(No::Refused(_)) => return Err(ReadFault::Fault),
        Ok(()) => {}
    }
    match read_all(alloc, host, LIMIT) {
        Ok(bytes) => Ok(bytes),
        Err(No::NoMemory) => Err(ReadFault::NoMemory),
        Err(No::Refused(ReadAll::ReadFault)) => Err(ReadFault::Fault),
        Err(No::Refused(ReadAll::TooLong)) => Err(ReadFault::TooLong),
    }
}
