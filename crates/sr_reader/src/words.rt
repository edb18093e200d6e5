//! Events, as lines write them.
ghost use Rattle.std.specs.Prelude.{◌≡◌, ℕ, List};
ghost use Rattle.std.specs.Borrow.{Bor};
ghost use Rattle.sr_lines.specs.Script.{Words as TheWords, text, ending, last_client, client_text, client_place, event_of};
ghost use Rattle.sr_reader.specs.LineSeen.{made_of, reading_seen};

use crate::parts::{client_number, place_number, split};

/// An event, as a line writes it: clients count from 1, places in class order from 0. A text is all that is left of the line.
#[derive(Clone, Copy)]
pub enum Words<'a> {
    Exec { sql: &'a str },
    Query { client: u8, sql: &'a str },
    Write { client: u8, sql: &'a str },
    Explain { client: u8, sql: &'a str },
    Push { client: u8 },
    ToServer { client: u8 },
    ToClient { client: u8 },
    Settle { client: u8 },
    Evict { client: u8, place: u32 },
    Cut { client: u8 },
    Resume { client: u8 },
}

// An error of these is what is left of the line from the first part on that does not fit.

/// A text that is not empty.
fn text(rest: &str) -> Result<&str, &str>
    ensures { (made : List ℕ → TheWords) → made_of (λ (sql : Bor (List ℕ)). made sql.now) result ≡ text made rest.now }
{
    if rest.is_empty() {
        return Err(rest);
    }
    Ok(rest)
}

/// Whether nothing stands behind the part in front.
fn ending(rest: &str) -> Result<(), &str>
    ensures { (words : TheWords) → made_of (λ _. words) result ≡ ending words rest.now }
{
    let (part, behind) = split(rest);
    if part.len() == rest.len() {
        Ok(())
    } else {
        Err(behind)
    }
}

/// The number of a client in the last part.
fn last_client(clients: u8, rest: &str) -> Result<u8, &str>
    ensures { (made : ℕ → TheWords) → made_of made result ≡ last_client clients made rest.now }
{
    let (part, _) = split(rest);
    let Some(client) = client_number(clients, part) else {
        return Err(rest);
    };
    match ending(rest) {
        Ok(()) => Ok(client),
        Err(behind) => Err(behind),
    }
}

/// The number of a client, and then a text.
fn client_text(clients: u8, rest: &str) -> Result<(u8, &str), &str>
    ensures { (made : ℕ → List ℕ → TheWords) → made_of (λ (read : ℕ × Bor (List ℕ)). made read.0 read.1.now) result ≡ client_text clients made rest.now }
{
    let (part, behind) = split(rest);
    let Some(client) = client_number(clients, part) else {
        return Err(rest);
    };
    match text(behind) {
        Ok(sql) => Ok((client, sql)),
        Err(none) => Err(none),
    }
}

/// The number of a client, and then a place.
fn client_place(clients: u8, rest: &str) -> Result<(u8, u32), &str>
    ensures { (made : ℕ → ℕ → TheWords) → made_of (λ (read : ℕ × ℕ). made read.0 read.1) result ≡ client_place clients made rest.now }
{
    let (part, behind) = split(rest);
    let Some(client) = client_number(clients, part) else {
        return Err(rest);
    };
    let (part, _) = split(behind);
    let Some(place) = place_number(part) else {
        return Err(behind);
    };
    match ending(behind) {
        Ok(()) => Ok((client, place)),
        Err(left) => Err(left),
    }
}

/// The event that a line says.
pub(crate) fn event_of(clients: u8, line: &str) -> Result<Words<'_>, &str>
    ensures { reading_seen result ≡ event_of clients line.now }
{
    let (word, rest) = split(line);
    match word {
        "exec" => text(rest).map(|sql| Words::Exec { sql }),
        "query" => client_text(clients, rest).map(|(client, sql)| Words::Query { client, sql }),
        "write" => client_text(clients, rest).map(|(client, sql)| Words::Write { client, sql }),
        "explain" => client_text(clients, rest).map(|(client, sql)| Words::Explain { client, sql }),
        "push" => last_client(clients, rest).map(|client| Words::Push { client }),
        "toserver" => last_client(clients, rest).map(|client| Words::ToServer { client }),
        "toclient" => last_client(clients, rest).map(|client| Words::ToClient { client }),
        "settle" => last_client(clients, rest).map(|client| Words::Settle { client }),
        "cut" => last_client(clients, rest).map(|client| Words::Cut { client }),
        "resume" => last_client(clients, rest).map(|client| Words::Resume { client }),
        "evict" => client_place(clients, rest).map(|(client, place)| Words::Evict {
            client,
            place,
        }),
        _ => Err(line),
    }
}
