//! The tokens that are still to be read, of which two are looked at ahead.
ghost use Rattle.std.specs.Prelude.{◌≡◌, ◌↔◌, ◌<◌, ◌^◌, ◌&&◌, [], length, drop, map, true, false, IfOk, IsTrue};
ghost use Rattle.std.specs.Option.{option_map};
ghost use Rattle.sr_token.specs.Tokens.{tokens_from};
ghost use Rattle.sr_token.specs.Spans.{AreSpans};
ghost use Rattle.sr_grammar.specs.Tokens.{Key, Named, Mark, Bad, is, of_kind, upper, lower, is_reserved, lexeme_seen, tokens_of};
ghost use Rattle.sr_grammar.specs.Words.{place_of, name_of};
ghost use Rattle.sr_grammar_laws.specs.Reading.{Got, one, next_is};
ghost use Rattle.sr_agg.specs.Statement.{is_none, name_ahead, place_if_any};
ghost use Rattle.sr_agg.specs.Views.{token_seen, in_front, left_seen, word_of, MayRead, Reads};

use crate::stop::Stop;
use sr_cell::list::NoMemory;
use sr_cell::text::Text;
use sr_grammar::words::{is_reserved, lowered};
use sr_token::token::TokenKind;
use sr_token::tokens::Tokens;
use std::alloc::Global;
use std::marker::Model;

/// A token, and the byte where it begins.
#[derive(Clone, Copy)]
pub(crate) struct Seen<'a> {
    kind: TokenKind,
    text: &'a str,
    place: u32,
}

/// The next token, a place where none begins, or the end.
#[derive(Clone, Copy)]
pub(crate) enum Next<'a> {
    Token(Seen<'a>),
    Bad(u32),
    End,
}

/// A name, and where it begins.
#[derive(Drop)]
pub(crate) struct Word {
    pub(crate) text: Text,
    pub(crate) place: u32,
}

/// The tokens of a text that are left.
#[derive(Drop)]
pub(crate) struct Cursor<'a> {
    tokens: Tokens<'a>,
    next: Next<'a>,
    second: Next<'a>,
}

impl<'a> Model for Cursor<'a> {
    ghost use Rattle.std.specs.Prelude.{List};
    ghost use Rattle.sr_grammar.specs.Tokens.{Tok};
    ghost use Rattle.sr_agg.specs.Views.{left_seen};

    ghost Value = { List Tok };

    ghost view = { λ c. left_seen c.next c.second c.tokens };
}

/// Takes the next token.
fn taken<'a>(tokens: &mut Tokens<'a>) -> Next<'a>
    ensures { in_front result (map lexeme_seen tokens.new) ≡ map lexeme_seen tokens.old }
{
    match tokens.next() {
        Ok(Some(token)) => Next::Token(Seen {
            kind: token.kind,
            text: token.text,
            place: token.from as u32,
        }),
        Ok(None) => Next::End,
        Err(fault) => Next::Bad(fault.at),
    }
}

/// Takes the token behind that one, if it is one.
fn taken_behind<'a>(next: Next<'a>, tokens: &mut Tokens<'a>) -> Next<'a>
    ensures { left_seen next.entry result tokens.new ≡ in_front next.entry (map lexeme_seen tokens.old) }
{
    match next {
        Next::Token(_) => taken(tokens),
        Next::Bad(_) | Next::End => Next::End,
    }
}

/// Whether a token is this reserved word.
fn is_key(token: Seen<'_>, word: &str) -> bool
    requires { IsTrue (is_reserved (upper word.now)) }
    ensures { result ≡ is Key (upper word.now) (token_seen token.entry) }
{
    token.kind == TokenKind::Word && token.text.eq_ignore_ascii_case(word)
}

/// Whether a token is this word, which is not reserved.
fn is_name(token: Seen<'_>, word: &str) -> bool
    requires { is_reserved (upper word.now) ≡ false }
    ensures { result ≡ is Named (lower word.now) (token_seen token.entry) }
{
    token.kind == TokenKind::Word && token.text.eq_ignore_ascii_case(word)
}

/// Whether a token is this mark.
fn is_mark(token: Seen<'_>, mark: &str) -> bool
    ensures { result ≡ is Mark mark.now (token_seen token.entry) }
{
    token.kind == TokenKind::Mark && token.text == mark
}

impl<'a> Cursor<'a> {
    /// All tokens of a text.
    pub(crate) fn over(text: &'a str) -> Cursor<'a>
        requires { length text.now < 2 ^ 32 }
        ensures tokens { result ≡ tokens_of text.now }
        ensures spans { AreSpans text.now 0 (tokens_from text.now 0) }
    {
        let mut tokens = Tokens::over(text);
        let next = taken(&mut tokens);
        let second = taken_behind(next, &mut tokens);
        Cursor {
            tokens,
            next,
            second,
        }
    }

    /// Goes on to the token behind the next.
    pub(crate) fn advance(&mut self)
        ensures { self.new ≡ drop 1 self.old }
    {
        match self.next {
            Next::Token(_) => {
                self.next = self.second;
                self.second = taken_behind(self.next, &mut self.tokens);
            }
            Next::Bad(_) | Next::End => self.next = Next::End,
        }
    }

    /// Where the next token begins, if there is one.
    pub(crate) fn place(&self) -> Option<u32>
        ensures { result ≡ place_if_any self.now }
    {
        match self.next {
            Next::Token(token) => Some(token.place),
            Next::Bad(at) => Some(at),
            Next::End => None,
        }
    }

    /// Whether nothing comes next.
    pub(crate) fn is_end(&self) -> bool
        ensures { result ≡ is_none self.now }
    {
        matches!(self.next, Next::End)
    }

    /// Whether nothing comes behind the next token.
    pub(crate) fn is_last(&self) -> bool
        ensures { result ≡ is_none (drop 1 self.now) }
    {
        match self.next {
            Next::Token(_) => matches!(self.second, Next::End),
            Next::Bad(_) | Next::End => true,
        }
    }

    /// Whether no token begins where the next one would.
    pub(crate) fn is_bad(&self) -> bool
        ensures { result ≡ next_is (of_kind Bad) self.now }
    {
        matches!(self.next, Next::Bad(_))
    }

    /// Whether this mark comes next.
    pub(crate) fn is_mark(&self, mark: &str) -> bool
        ensures { result ≡ next_is (is Mark mark.now) self.now }
    {
        match self.next {
            Next::Token(token) => is_mark(token, mark),
            _ => false,
        }
    }

    /// Whether this word, which is not reserved, comes next.
    pub(crate) fn is_name(&self, word: &str) -> bool
        requires { is_reserved (upper word.now) ≡ false }
        ensures { result ≡ next_is (is Named (lower word.now)) self.now }
    {
        match self.next {
            Next::Token(token) => is_name(token, word),
            _ => false,
        }
    }

    /// Reads this mark, if it comes next: its place.
    pub(crate) fn maybe_mark(&mut self, mark: &str) -> Option<u32>
        ensures { MayRead mark.now self.old result self.new }
    {
        match self.next {
            Next::Token(token) if is_mark(token, mark) => {
                self.advance();
                Some(token.place)
            }
            _ => None,
        }
    }

    /// Reads this mark.
    pub(crate) fn mark(&mut self, mark: &str) -> Result<u32, Stop>
        ensures { Reads (λ at. at) (one (place_of Mark mark.now)) self.old result self.new }
    {
        match self.maybe_mark(mark) {
            Some(place) => Ok(place),
            None => Err(Stop::Grammar),
        }
    }

    /// Reads this reserved word.
    pub(crate) fn key(&mut self, word: &str) -> Result<u32, Stop>
        requires { IsTrue (is_reserved (upper word.now)) }
        ensures { Reads (λ at. at) (one (place_of Key (upper word.now))) self.old result self.new }
    {
        match self.next {
            Next::Token(token) if is_key(token, word) => {
                self.advance();
                Ok(token.place)
            }
            _ => Err(Stop::Grammar),
        }
    }

    /// Reads this word, which is not reserved.
    pub(crate) fn word(&mut self, word: &str) -> Result<u32, Stop>
        requires { is_reserved (upper word.now) ≡ false }
        ensures { Reads (λ at. at) (one (place_of Named (lower word.now))) self.old result self.new }
    {
        match self.next {
            Next::Token(token) if is_name(token, word) => {
                self.advance();
                Ok(token.place)
            }
            _ => Err(Stop::Grammar),
        }
    }

    /// The name that comes next, in lower case, if one does; it is not taken.
    pub(crate) fn name_ahead(&self, alloc: Global) -> Result<Option<Word>, NoMemory>
        ensures { IfOk result (λ found. option_map word_of found ≡ name_ahead self.now) }
    {
        let next = self.next;
        match next {
            Next::Token(token) if token.kind == TokenKind::Word && !is_reserved(token.text) => {
                Ok(Some(Word {
                    text: lowered(alloc, token.text)?,
                    place: token.place,
                }))
            }
            _ => Ok(None),
        }
    }

    /// Reads a name, which is kept in lower case.
    pub(crate) fn name(&mut self, alloc: Global) -> Result<Word, Stop>
        ensures { Reads word_of (one name_of) self.old result self.new }
    {
        match self.name_ahead(alloc)? {
            Some(word) => {
                self.advance();
                Ok(word)
            }
            None => Err(Stop::Grammar),
        }
    }
}
