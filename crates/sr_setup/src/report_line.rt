//! A line of a report's script.
ghost use Rattle.std.specs.Prelude.{◌≡◌, ◌<◌, ◌^◌, true, false, length, None, Some, IfOk, IfErr, IfSome, IfNone, OnOk};
ghost use Rattle.std.specs.Char.{is_ascii_digit};
ghost use Rattle.std.specs.List.{list_all};
ghost use Rattle.sr_cell.specs.Clients.{most_clients};
ghost use Rattle.sr_lines.specs.Parts.{is_client};
ghost use Rattle.sr_lines.specs.Script.{part_of, behind, are_digits, client_number};
ghost use Rattle.sr_setup.specs.ReportFiles.{Aggregate, is_aggregate, report_fault, saying_of};
ghost use Rattle.sr_setup.specs.Lined.{IsReportText};

use crate::client_script::second_place;
use crate::own_lines::OwnLine;
use crate::schema_file::CLIENTS;
use sr_reader::line::Line;
use sr_reader::words::Words;
use std::str;

/// A line of a report's script: blank or a comment; an event; or the text of an aggregate.
#[derive(Clone, Copy)]
pub enum ReportText<'a> {
    Silent,
    Event(Words<'a>),
    Aggregate(&'a str),
}

/// The part in front of the first space, and what stands behind that space: nothing, where there is none.
fn split(line: &str) -> (&str, &str)
    ensures part { result.0.now ≡ part_of line.now }
    ensures behind { result.1.now ≡ behind line.now }
{
    match line.split_once(' ') {
        Some(parts) => parts,
        None => (line, ""),
    }
}

fn all_digits(part: &str) -> bool
    ensures { result ≡ list_all is_ascii_digit part.now }
{
    part.as_bytes().iter().all(|b| b.is_ascii_digit())
}

/// Whether a part has one to three digits alone.
fn are_digits(part: &str) -> bool
    ensures { result ≡ are_digits 3 part.now }
{
    1 <= part.len() && part.len() <= 3 && all_digits(part)
}

fn is_client(number: u8) -> bool
    ensures { result ≡ is_client most_clients number }
{
    1 <= number && number <= CLIENTS
}

/// The number of a client, if the part is one.
fn client_number(part: &str) -> Option<u8>
    ensures { result ≡ client_number most_clients part.now }
{
    if !are_digits(part) {
        return None;
    }
    let Ok(number) = part.parse::<u8>() else {
        return None;
    };
    if is_client(number) {
        Some(number)
    } else {
        None
    }
}

/// The line as a text, if its word is agg.
fn aggregate_line(bytes: &[u8]) -> Option<&str>
    ensures found { IfSome result (λ line. (line.now ≡ bytes.now) × (is_aggregate bytes.now ≡ true)) }
    ensures none { IfNone result (is_aggregate bytes.now ≡ false) }
{
    let Ok(line) = str::from_utf8(bytes) else {
        return None;
    };
    let (word, _) = split(line);
    if word == "agg" { Some(line) } else { None }
}

/// The text of an aggregate; or the place of its fault.
fn read_aggregate(line: &str, id: u8) -> Result<&str, u32>
    requires length { length line.now < 2 ^ 32 }
    requires word { is_aggregate line.now ≡ true }
    ensures text { IfOk result (λ sql. saying_of line.now ≡ Some (Aggregate sql.now)) }
    ensures inside { OnOk result (report_fault id line.now ≡ None) }
    ensures outside { IfErr result (λ place. report_fault id line.now ≡ Some place) }
{
    let (_, rest) = split(line);
    let (part, sql) = split(rest);
    let Some(client) = client_number(part) else {
        return Err(second_place(line.as_bytes()));
    };
    if sql.is_empty() {
        return Err(line.len() as u32);
    }
    if client != id {
        return Err(second_place(line.as_bytes()));
    }
    Ok(sql)
}

/// A line whose word is another; or the place of its fault.
fn read_other(bytes: &[u8], id: u8) -> Result<ReportText<'_>, u32>
    requires length { length bytes.now < 2 ^ 32 }
    requires word { is_aggregate bytes.now ≡ false }
    ensures line { IfOk result (IsReportText bytes.now) }
    ensures inside { OnOk result (report_fault id bytes.now ≡ None) }
    ensures outside { IfErr result (λ place. report_fault id bytes.now ≡ Some place) }
{
    match Line::read(bytes, id) {
        Ok(Line::Event(words)) => Ok(ReportText::Event(words)),
        Ok(_) => Ok(ReportText::Silent),
        Err(place) => Err(place),
    }
}

impl<'a> OwnLine<'a> for ReportText<'a> {
    ghost fault = { report_fault };

    ghost says = { IsReportText };

    fn read(bytes: &'a [u8], id: u8) -> Result<ReportText<'a>, u32> {
        let Some(line) = aggregate_line(bytes) else {
            return read_other(bytes, id);
        };
        match read_aggregate(line, id) {
            Ok(sql) => Ok(ReportText::Aggregate(sql)),
            Err(place) => Err(place),
        }
    }
}
