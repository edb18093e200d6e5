//! Why the run of a client stops.
ghost use Rattle.std.specs.Prelude.{◌≡◌, Some, IfErr, OnOk};
ghost use Rattle.sr_dial.specs.declared.ending.Ending.TheVariants.{Whole};
ghost use Rattle.sr_cli.specs.Client.{ending_of, stop_of};

use crate::report::Refusal;
use sr_cell::list::No;
use sr_dial::ending::Ending;
use sr_setup::client_setup::ClientFault;
use sr_wire::bad_frame::BadFrame;
use sr_wire::wire_fault::WireFault;

/// Why a run did not do all that the words ask for.
#[derive(Drop)]
pub enum Stop {
    /// It was refused, or something failed.
    Refused(Refusal),
    /// What came is no frame.
    Spoiled(WireFault),
    /// A message that came must be refused.
    Bad(BadFrame),
    /// More frames came for one request than the limit.
    Limit,
}

/// Why a run stops whose files are not set up.
pub(crate) fn stop_of(no: No<ClientFault>) -> Stop
    ensures { result ≡ stop_of no }
{
    match no {
        No::NoMemory => Stop::Refused(Refusal::Memory),
        No::Refused(ClientFault::Line { line, place }) => {
            Stop::Refused(Refusal::Line { line, place })
        }
        No::Refused(ClientFault::Create { line, fault }) => {
            Stop::Refused(Refusal::Setup { line, fault })
        }
    }
}

/// What a run that ended so comes to.
pub(crate) fn end_by(ending: Ending) -> Result<(), Stop>
    ensures whole { OnOk result (ending ≡ Whole) }
    ensures stopped { IfErr result (λ why. ending_of why ≡ Some ending) }
{
    match ending {
        Ending::Whole => Ok(()),
        Ending::Faulty => Err(Stop::Refused(Refusal::Link)),
        Ending::Unwritten => Err(Stop::Refused(Refusal::Write)),
        Ending::Spoiled(fault) => Err(Stop::Spoiled(fault)),
        Ending::Bad(why) => Err(Stop::Bad(why)),
        Ending::Limit => Err(Stop::Limit),
    }
}
