//! What the error output says of frames.
ghost use Rattle.std.specs.Prelude.{◌≡◌, string_bytes, IfOk};
ghost use Rattle.sr_io.specs.Told.{complained};
ghost use Rattle.sr_cli.specs.Errors.{bad_text, spoiled_text};
ghost use Rattle.sr_cli.specs.Leaves.{Names, OnlyComplains, Says};

use sr_cell::list::NoMemory;
use sr_io::outside::Host;
use sr_wire::bad_frame::BadFrame;
use sr_wire::wire_fault::WireFault;
use std::alloc::Global;

fn spoiled_text(alloc: Global, fault: WireFault) -> Result<String, NoMemory>
    ensures { IfOk result (λ text. string_bytes text ≡ spoiled_text fault) }
{
    let text = match fault {
        WireFault::Short => format!(in alloc; "frame short\n")?,
        WireFault::Long { length } => format!(in alloc; "frame long {length}\n")?,
        WireFault::Kind { byte } => format!(in alloc; "frame kind {byte}\n")?,
        WireFault::Field { place } => format!(in alloc; "frame field {place}\n")?,
    };
    Ok(text)
}

fn bad_text(why: BadFrame) -> &'static [u8]
    ensures { result.now ≡ bad_text why }
{
    match why {
        BadFrame::Direction => b"frame direction\n",
        BadFrame::State => b"frame state\n",
        BadFrame::Number => b"frame number\n",
        BadFrame::Version => b"frame version\n",
        BadFrame::Shape => b"frame shape\n",
    }
}

/// Says that what came is no frame, and what stands against it, or tells that there was no memory for it.
pub(crate) fn report_spoiled<H: Host>(alloc: Global, fault: WireFault, host: &mut H) -> u8
    ensures named { Names 8 (spoiled_text fault) result (H.complaints host.old) (H.complaints host.new) }
    ensures stays { OnlyComplains H H.reading H.writing H.linking H.held H.IsSteady host.old host.new }
{
    match spoiled_text(alloc, fault) {
        Ok(text) => {
            host.complain(text.as_bytes());
            8
        }
        Err(_) => {
            host.complain(b"memory\n");
            9
        }
    }
}

/// Says that a message must be refused, and why.
pub(crate) fn report_bad<H: Host>(why: BadFrame, host: &mut H) -> u8
    ensures status { result ≡ 8 }
    ensures named { H.complaints host.new ≡ complained (bad_text why) (H.complaints host.old) }
    ensures stays { OnlyComplains H H.reading H.writing H.linking H.held H.IsSteady host.old host.new }
{
    host.complain(bad_text(why));
    8
}

/// Says that more frames came for one request than the limit.
pub(crate) fn report_limit<H: Host>(host: &mut H) -> u8
    ensures said { Says 11 result (H.complaints host.old) (H.complaints host.new) }
    ensures stays { OnlyComplains H H.reading H.writing H.linking H.held H.IsSteady host.old host.new }
{
    host.complain(b"too many frames\n");
    11
}
