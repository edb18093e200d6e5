//! Why a run is refused, and what the error output says of it.
ghost use Rattle.std.specs.Prelude.{◌≡◌, string_bytes, IfOk};
ghost use Rattle.sr_cli.specs.Errors.{line_text, load_text, setup_text};
ghost use Rattle.sr_cli.specs.Leaves.{EndsAs, Names, OnlyComplains, Reported, refusal_of, unread_of};

use crate::file::ReadFault;
use sr_cell::fault::{Fault, Why};
use sr_cell::list::{No, NoMemory};
use sr_cell::text::Text;
use sr_io::outside::Host;
use sr_script::words::why_word;
use sr_world::replay::RunFault;
use std::alloc::Global;

/// Why a run did not do all that the words ask for.
#[derive(Drop)]
pub enum Refusal {
    /// Reading failed.
    Read,
    /// Writing failed.
    Write,
    /// The link failed.
    Link,
    /// Memory was refused.
    Memory,
    /// A file is too long.
    TooLong,
    /// That line is the first that is outside the grammar of its file, and the place of its fault in bytes.
    Line { line: u64, place: u32 },
    /// That line is the first CREATE line that is refused, and why.
    Setup { line: u64, fault: Fault },
    /// The file for the table of that name is the first that is refused, and why.
    Load { table: Text, fault: Fault },
}

/// Why a run is refused whose file is not read.
pub(crate) fn unread(fault: ReadFault) -> Refusal
    ensures { result ≡ unread_of fault }
{
    match fault {
        ReadFault::Fault => Refusal::Read,
        ReadFault::NoMemory => Refusal::Memory,
        ReadFault::TooLong => Refusal::TooLong,
    }
}

/// What a replay that ended so comes to.
pub(crate) fn end_of<T: Drop>(done: Result<T, No<RunFault>>) -> Result<(), Refusal>
    ensures { EndsAs done result }
{
    match done {
        Ok(_) => Ok(()),
        Err(no) => Err(refusal_of(no)),
    }
}

/// Why a run is refused whose replay is refused so.
pub(crate) fn refusal_of(no: No<RunFault>) -> Refusal
    ensures { result ≡ refusal_of no }
{
    match no {
        No::NoMemory => Refusal::Memory,
        No::Refused(RunFault::WriteFault) => Refusal::Write,
        No::Refused(RunFault::Line { line, place }) => Refusal::Line { line, place },
        No::Refused(RunFault::Setup { line, fault }) => Refusal::Setup { line, fault },
        No::Refused(RunFault::Load { table, fault }) => Refusal::Load { table, fault },
    }
}

/// Says why on the error output, and answers the status.
pub(crate) fn report<H: Host>(alloc: Global, refusal: Refusal, host: &mut H) -> u8
    ensures reported { Reported refusal result (H.complaints host.old) (H.complaints host.new) }
    ensures stays { OnlyComplains H H.reading H.writing H.linking H.held H.IsSteady host.old host.new }
{
    match refusal {
        Refusal::Read => {
            host.complain(b"read\n");
            3
        }
        Refusal::Write => {
            host.complain(b"write\n");
            4
        }
        Refusal::Link => {
            host.complain(b"link\n");
            5
        }
        Refusal::Memory => {
            host.complain(b"memory\n");
            9
        }
        Refusal::TooLong => {
            host.complain(b"too long\n");
            10
        }
        Refusal::Line { line, place } => report_line(alloc, line, place, host),
        Refusal::Setup { line, fault } => report_setup(alloc, line, fault, host),
        Refusal::Load { table, fault } => report_load(alloc, &table, fault, host),
    }
}

/// Names the line and the place of its fault on the error output, or tells that there was no memory for it.
fn report_line<H: Host>(alloc: Global, line: u64, place: u32, host: &mut H) -> u8
    ensures named { Names 6 (line_text line place) result (H.complaints host.old) (H.complaints host.new) }
    ensures stays { OnlyComplains H H.reading H.writing H.linking H.held H.IsSteady host.old host.new }
{
    match place_line(alloc, line, place) {
        Ok(text) => {
            host.complain(text.as_bytes());
            6
        }
        Err(_) => {
            host.complain(b"memory\n");
            9
        }
    }
}

/// Names the line and its fault on the error output, or tells that there was no memory for it.
fn report_setup<H: Host>(alloc: Global, line: u64, fault: Fault, host: &mut H) -> u8
    ensures named { Names 7 (setup_text line fault) result (H.complaints host.old) (H.complaints host.new) }
    ensures stays { OnlyComplains H H.reading H.writing H.linking H.held H.IsSteady host.old host.new }
{
    match setup_line(alloc, line, fault) {
        Ok(text) => {
            host.complain(text.as_bytes());
            7
        }
        Err(_) => {
            host.complain(b"memory\n");
            9
        }
    }
}

/// Names the table of the file and its fault on the error output, or tells that there was no memory for it.
fn report_load<H: Host>(alloc: Global, table: &Text, fault: Fault, host: &mut H) -> u8
    ensures named { Names 7 (load_text table.now fault) result (H.complaints host.old) (H.complaints host.new) }
    ensures stays { OnlyComplains H H.reading H.writing H.linking H.held H.IsSteady host.old host.new }
{
    match load_line(alloc, table.as_str(), fault) {
        Ok(text) => {
            host.complain(text.as_bytes());
            7
        }
        Err(_) => {
            host.complain(b"memory\n");
            9
        }
    }
}

/// The line that names a line and the place of its fault.
fn place_line(alloc: Global, line: u64, place: u32) -> Result<String, NoMemory>
    ensures { IfOk result (λ text. string_bytes text ≡ line_text line place) }
{
    Ok(format!(in alloc; "line {line} {place}\n")?)
}

/// The line that names a CREATE line and its fault.
fn setup_line(alloc: Global, line: u64, fault: Fault) -> Result<String, NoMemory>
    ensures { IfOk result (λ text. string_bytes text ≡ setup_text line fault) }
{
    let why = why_word(fault.why);
    Ok(format!(in alloc; "schema {line} {why} {}\n", fault.at)?)
}

/// The line that names the table of the file and its fault.
fn load_line(alloc: Global, table: &str, fault: Fault) -> Result<String, NoMemory>
    ensures { IfOk result (λ text. string_bytes text ≡ load_text table.now fault) }
{
    match fault.why {
        Why::UnknownTable => Ok(format!(in alloc; "load {table} unknown\n")?),
        why => {
            let why = why_word(why);
            Ok(format!(in alloc; "load {table} {} {why}\n", fault.at)?)
        }
    }
}
