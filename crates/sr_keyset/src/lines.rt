//! The lines of a client's script, whose texts are not bound yet.
ghost use Rattle.std.specs.Prelude.{◌≡◌, ◌≤◌, ◌<◌, ◌^◌, IfOk, length, map};
ghost use Rattle.sr_keyset.specs.Follows.{line_seen};
ghost use Rattle.sr_keyset.specs.Lines.{words_in};

use sr_cell::list::{NoMemory, Seq};
use sr_reader::cut::cut_line;
use sr_reader::line::{Line, read_line};
use sr_reader::words::Words;
use std::alloc::Global;

/// The most clients that a script may name.
const CLIENTS: u8 = 64;

/// The words of a line, with the line's number counted from 1.
#[derive(Clone, Copy)]
pub struct TextLine<'a> {
    pub number: u64,
    pub words: Words<'a>,
}

pub(crate) type TextLines<'a> = Seq<TextLine<'a>>;

/// The words of the lines of a script.
pub(crate) fn words_in(alloc: Global, script: &[u8]) -> Result<TextLines<'_>, NoMemory>
    requires { length script.now < 2 ^ 32 }
    ensures words { IfOk result (λ found. map line_seen found ≡ words_in script.now) }
    ensures few { IfOk result (λ found. length found ≤ length script.now) }
{
    let mut found = Seq::new(alloc);
    let mut rest = script;
    let mut number: u64 = 1;
    'lines: while !rest.is_empty() {
        let cut = cut_line(rest);
        if let Ok(Line::Event(words)) = read_line(cut.line, CLIENTS) {
            found.push(TextLine { number, words })?;
        }
        rest = cut.rest;
        number += 1;
    }
    Ok(found)
}
