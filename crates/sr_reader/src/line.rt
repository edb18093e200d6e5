//! What a line is.
ghost use Rattle.std.specs.Prelude.{◌≡◌, ◌<◌, ◌^◌, ◌||◌, length, nat_eq, codes};
ghost use Rattle.std.specs.List.{starts_with};
ghost use Rattle.sr_grammar.specs.Tokens.{Key, is, seen, tokens_of};
ghost use Rattle.sr_lines.specs.Script.{is_blank, begins_create, event_line, line_of};
ghost use Rattle.sr_reader.specs.LineSeen.{read_seen};

use crate::words::{Words, event_of};
use sr_token::token::{Token, TokenKind};
use sr_token::tokens::Tokens;
use std::str;

/// A line of a script. Silent is a blank line or a comment; a CREATE lends its text.
#[derive(Clone, Copy)]
pub enum Line<'a> {
    Silent,
    Create(&'a str),
    Event(Words<'a>),
}

fn is_blank(line: &str) -> bool
    ensures { result ≡ is_blank line.now }
{
    line.as_bytes().iter().all(|b| *b == b' ')
}

fn is_comment(line: &str) -> bool
    ensures { result ≡ starts_with nat_eq line.now (codes "#") }
{
    line.starts_with("#")
}

/// Whether a line is blank or a comment.
pub fn is_silent(line: &str) -> bool
    ensures { result ≡ (is_blank line.now || starts_with nat_eq line.now (codes "#")) }
{
    is_blank(line) || is_comment(line)
}

fn is_create(token: Token<'_>) -> bool
    ensures { result ≡ is Key (codes "CREATE") (seen token.entry.kind token.entry.from token.entry.text.now) }
{
    token.kind == TokenKind::Word && token.text.eq_ignore_ascii_case("CREATE")
}

/// Whether the first token is the word CREATE.
fn begins_create(line: &str) -> bool
    requires { length line.now < 2 ^ 32 }
    ensures { result ≡ begins_create (tokens_of line.now) }
{
    match Tokens::over(line).next() {
        Ok(Some(token)) => is_create(token),
        Ok(None) => false,
        Err(_) => false,
    }
}

/// The event of a line; or the place of its fault.
fn read_event(line: &str, clients: u8) -> Result<Line<'_>, u32>
    requires { length line.now < 2 ^ 32 }
    ensures { read_seen result ≡ event_line clients line.now }
{
    match event_of(clients, line) {
        Ok(words) => Ok(Line::Event(words)),
        Err(rest) => Err((line.len() - rest.len()) as u32),
    }
}

/// A line of a script with so many clients; or the place of its fault, in bytes. Takes no memory.
pub fn read_line(line: &[u8], clients: u8) -> Result<Line<'_>, u32>
    requires { length line.now < 2 ^ 32 }
    ensures { read_seen result ≡ line_of clients line.now }
{
    let text = match str::from_utf8(line) {
        Ok(text) => text,
        Err(fault) => return Err(fault.valid_up_to() as u32),
    };
    if is_silent(text) {
        return Ok(Line::Silent);
    }
    if begins_create(text) {
        return Ok(Line::Create(text));
    }
    read_event(text, clients)
}
