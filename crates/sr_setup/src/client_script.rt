//! The script of one client.
ghost use Rattle.std.specs.Prelude.{◌≡◌, ℕ, ◌<◌, ◌^◌, List, length, None, IsTrue, IfOk};
ghost use Rattle.std.specs.List.{list_all};
ghost use Rattle.sr_cell.specs.Clients.{most_clients};
ghost use Rattle.sr_lines.specs.Lines.{lines_of};
ghost use Rattle.sr_query.specs.Bound.{is_table};
ghost use Rattle.sr_reader.specs.Lined.{IsLine, AreLines};
ghost use Rattle.sr_reader.specs.LineSeen.{words_seen};
ghost use Rattle.sr_setup.specs.Files.{first_fault};
ghost use Rattle.sr_setup.specs.ClientFiles.{doer_of, second_place, client_fault, AreAsked};

use crate::own_lines::OwnLine;
use crate::schema_file::CLIENTS;
use sr_cell::list::{NoMemory, Seq};
use sr_cell::schema::Schema;
use sr_reader::events::event_of;
use sr_reader::line::{Line, read_line};
use sr_reader::lines::Lines;
use sr_reader::script::{EventLine, EventLines};
use sr_reader::words::Words;
use std::alloc::Global;

/// The client that does what the words say, where a client does it by itself.
fn doer_of(words: Words<'_>) -> Option<u8>
    ensures { result ≡ doer_of (words_seen words.entry) }
{
    match words {
        Words::Query { client, .. } => Some(client),
        Words::Write { client, .. } => Some(client),
        Words::Explain { client, .. } => Some(client),
        Words::Evict { client, .. } => Some(client),
        Words::Cut { client } => Some(client),
        Words::Resume { client } => Some(client),
        Words::Exec { .. }
        | Words::Push { .. }
        | Words::ToServer { .. }
        | Words::ToClient { .. }
        | Words::Settle { .. } => None,
    }
}

/// Where the second part of a line begins, in bytes.
pub(crate) fn second_place(line: &[u8]) -> u32
    requires { length line.now < 2 ^ 32 }
    ensures { result ≡ second_place line.now }
{
    for (i, b) in line.iter().enumerate() {
        if *b == b' ' {
            return i as u32 + 1;
        }
    }
    line.len() as u32
}

impl<'a> OwnLine<'a> for Line<'a> {
    ghost fault = { client_fault };

    ghost says = { IsLine most_clients };

    fn read(bytes: &'a [u8], id: u8) -> Result<Line<'a>, u32> {
        match read_line(bytes, CLIENTS) {
            Ok(Line::Silent) => Ok(Line::Silent),
            Ok(Line::Create(_)) => Err(0),
            Ok(Line::Event(words)) => match doer_of(words) {
                Some(client) => {
                    if client == id {
                        Ok(Line::Event(words))
                    } else {
                        Err(second_place(bytes))
                    }
                }
                None => Err(0),
            },
            Err(place) => Err(place),
        }
    }
}

/// The events of the client's script that the lines are of, over these tables.
pub fn client_events(
    alloc: Global,
    schema: &Schema,
    id: u8,
    lines: &Lines<'_>,
) -> Result<EventLines, NoMemory>
    requires tables { IsTrue (list_all is_table schema.now) }
    requires lines { (script : List ℕ) × AreLines most_clients script lines.now × (first_fault (client_fault id) 1 (lines_of script) ≡ None) }
    ensures asked { (script : List ℕ) → AreLines most_clients script lines.now → first_fault (client_fault id) 1 (lines_of script) ≡ None
        → IfOk result (AreAsked id script schema.now) }
{
    let mut events = Seq::new(alloc);
    for (i, line) in lines.as_slice().iter().enumerate() {
        if let Line::Event(words) = line {
            let number = i as u64 + 1;
            let event = event_of(alloc, schema, *words)?;
            events.push(EventLine { number, event })?;
        }
    }
    Ok(events)
}
