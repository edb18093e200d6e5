//! The tokens that are still to be read, of which one is looked at ahead.
ghost use Rattle.std.specs.Prelude.{◌≡◌, ◌↔◌, ◌<◌, ◌^◌, [], length, drop, map, true, false, IfOk, IsTrue, MatchOption};
ghost use Rattle.sr_token.specs.Texts.{IsTextOf};
ghost use Rattle.sr_grammar.specs.Tokens.{Key, Mark, Bad, is, of_kind, upper, is_reserved, lexeme_seen, tokens_of};
ghost use Rattle.sr_grammar.specs.Words.{place_of, name_of, number_of, plain_of, prefix_of, op_of};
ghost use Rattle.sr_grammar_laws.specs.Reading.{Got, one, next_is};
ghost use Rattle.sr_sql.specs.Views.{Reads, next_place};
ghost use Rattle.sr_sql.specs.Next.{item_seen, left_seen, IsNext, word_of};

use crate::stop::Stop;
use crate::words;
use sr_cell::cell::Cell;
use sr_cell::text::Text;
use sr_grammar::statement::{Literal, Op};
use sr_grammar::words::{is_reserved, lowered};
use sr_token::token::TokenKind;
use sr_token::tokens::Tokens;
use std::alloc::Global;
use std::marker::Model;

/// A token, and the byte where it begins.
#[derive(Clone, Copy)]
pub(crate) struct Item<'a> {
    kind: TokenKind,
    text: &'a str,
    place: u32,
}

/// The next token, a place where none begins, or the end.
#[derive(Clone, Copy)]
pub(crate) enum Next<'a> {
    Item(Item<'a>),
    Bad(u32),
    End,
}

/// A name, and where it begins.
#[derive(Drop)]
pub(crate) struct Word {
    pub(crate) text: Text,
    pub(crate) place: u32,
}

/// The tokens of a text that are left.
#[derive(Drop)]
pub(crate) struct Cursor<'a> {
    tokens: Tokens<'a>,
    next: Next<'a>,
}

impl<'a> Model for Cursor<'a> {
    ghost use Rattle.std.specs.Prelude.{List};
    ghost use Rattle.sr_grammar.specs.Tokens.{Tok};
    ghost use Rattle.sr_sql.specs.Next.{left_seen, IsNext};

    ghost Value = { List Tok };

    ghost view = { λ c. left_seen c.next c.tokens };

    ghost invariant = { λ c. IsNext c.next };
}

/// Takes the next token.
fn taken<'a>(tokens: &mut Tokens<'a>) -> Next<'a>
    ensures next { left_seen result tokens.new ≡ map lexeme_seen tokens.old }
    ensures text { IsNext result }
{
    match tokens.next() {
        Ok(Some(token)) => Next::Item(Item {
            kind: token.kind,
            text: token.text,
            place: token.from as u32,
        }),
        Ok(None) => Next::End,
        Err(fault) => Next::Bad(fault.at),
    }
}

/// Whether a token is this reserved word.
fn is_key(item: Item<'_>, word: &str) -> bool
    requires { IsTrue (is_reserved (upper word.now)) }
    ensures { result ≡ is Key (upper word.now) (item_seen item.entry) }
{
    item.kind == TokenKind::Word && item.text.eq_ignore_ascii_case(word)
}

/// Whether a token is this mark.
fn is_mark(item: Item<'_>, mark: &str) -> bool
    ensures { result ≡ is Mark mark.now (item_seen item.entry) }
{
    item.kind == TokenKind::Mark && item.text == mark
}

impl<'a> Cursor<'a> {
    /// All tokens of a text.
    pub(crate) fn over(text: &'a str) -> Cursor<'a>
        requires { length text.now < 2 ^ 32 }
        ensures { result ≡ tokens_of text.now }
    {
        let mut tokens = Tokens::over(text);
        let next = taken(&mut tokens);
        Cursor { tokens, next }
    }

    /// Goes on to the token behind the next.
    fn advance(&mut self)
        ensures { self.new ≡ drop 1 self.old }
    {
        self.next = match self.next {
            Next::Item(_) => taken(&mut self.tokens),
            Next::Bad(_) | Next::End => Next::End,
        };
    }

    /// Where the next token begins, if there is one.
    pub(crate) fn place(&self) -> Option<u32>
        ensures { result ≡ next_place self.now }
    {
        match self.next {
            Next::Item(item) => Some(item.place),
            Next::Bad(at) => Some(at),
            Next::End => None,
        }
    }

    /// Whether nothing comes next.
    pub(crate) fn is_end(&self) -> bool
        ensures { IsTrue result ↔ (self.now ≡ []) }
    {
        matches!(self.next, Next::End)
    }

    /// Whether no token begins where the next one would.
    pub(crate) fn is_bad(&self) -> bool
        ensures { result ≡ next_is (of_kind Bad) self.now }
    {
        matches!(self.next, Next::Bad(_))
    }

    /// Whether this reserved word comes next.
    pub(crate) fn is_word(&self, word: &str) -> bool
        requires { IsTrue (is_reserved (upper word.now)) }
        ensures { result ≡ next_is (is Key (upper word.now)) self.now }
    {
        match self.next {
            Next::Item(item) => is_key(item, word),
            _ => false,
        }
    }

    /// Whether this mark comes next.
    pub(crate) fn is_mark(&self, mark: &str) -> bool
        ensures { result ≡ next_is (is Mark mark.now) self.now }
    {
        match self.next {
            Next::Item(item) => is_mark(item, mark),
            _ => false,
        }
    }

    /// Reads this reserved word, if it comes next: its place.
    pub(crate) fn maybe_word(&mut self, word: &str) -> Option<u32>
        requires { IsTrue (is_reserved (upper word.now)) }
        ensures { MatchOption result
            ((next_is (is Key (upper word.now)) self.old ≡ false) × (self.new ≡ self.old)) (λ at. (next_is (is Key (upper word.now)) self.old ≡ true)
            × (one (place_of Key (upper word.now)) self.old ≡ Got at self.new)) }
    {
        match self.next {
            Next::Item(item) if is_key(item, word) => {
                self.advance();
                Some(item.place)
            }
            _ => None,
        }
    }

    /// Reads this mark, if it comes next: its place.
    pub(crate) fn maybe_mark(&mut self, mark: &str) -> Option<u32>
        ensures { MatchOption result
            ((next_is (is Mark mark.now) self.old ≡ false) × (self.new ≡ self.old)) (λ at. (next_is (is Mark mark.now) self.old ≡ true)
            × (one (place_of Mark mark.now) self.old ≡ Got at self.new)) }
    {
        match self.next {
            Next::Item(item) if is_mark(item, mark) => {
                self.advance();
                Some(item.place)
            }
            _ => None,
        }
    }

    /// Reads this reserved word.
    pub(crate) fn word(&mut self, word: &str) -> Result<u32, Stop>
        requires { IsTrue (is_reserved (upper word.now)) }
        ensures { Reads (λ at. at) (one (place_of Key (upper word.now))) self.old result self.new }
    {
        match self.maybe_word(word) {
            Some(place) => Ok(place),
            None => Err(Stop::Grammar),
        }
    }

    /// Reads this mark.
    pub(crate) fn mark(&mut self, mark: &str) -> Result<u32, Stop>
        ensures { Reads (λ at. at) (one (place_of Mark mark.now)) self.old result self.new }
    {
        match self.maybe_mark(mark) {
            Some(place) => Ok(place),
            None => Err(Stop::Grammar),
        }
    }
}

impl<'a> Cursor<'a> {
    /// Reads a name, which is kept in lower case.
    pub(crate) fn name(&mut self, alloc: Global) -> Result<Word, Stop>
        ensures { Reads word_of (one name_of) self.old result self.new }
    {
        let next = self.next;
        match next {
            Next::Item(item) if item.kind == TokenKind::Word && !is_reserved(item.text) => {
                let text = lowered(alloc, item.text)?;
                self.advance();
                Ok(Word {
                    text,
                    place: item.place,
                })
            }
            _ => Err(Stop::Grammar),
        }
    }

    /// Reads a number without its sign.
    pub(crate) fn number(&mut self) -> Result<u64, Stop>
        ensures number { Reads (λ n. n) (one number_of) self.old result self.new }
        ensures short { IfOk result (λ n. n < 10 ^ 18) }
    {
        let next = self.next;
        match next {
            Next::Item(item) if item.kind == TokenKind::Number => {
                let number = words::value_of(item.text.as_bytes());
                self.advance();
                Ok(number)
            }
            _ => Err(Stop::Grammar),
        }
    }

    /// Reads a number without a sign, or a text.
    pub(crate) fn plain(&mut self, alloc: Global) -> Result<Literal, Stop>
        ensures { Reads (λ l. l) (one plain_of) self.old result self.new }
    {
        let next = self.next;
        match next {
            Next::Item(item) if item.kind == TokenKind::Number => {
                let number = words::value_of(item.text.as_bytes());
                self.advance();
                Ok(Literal {
                    cell: Cell::Num(number as i64),
                    place: item.place,
                })
            }
            Next::Item(item) if item.kind == TokenKind::Quoted => {
                let text = words::unquoted(alloc, item.text)?;
                self.advance();
                Ok(Literal {
                    cell: Cell::Str(Text::from_string(text)),
                    place: item.place,
                })
            }
            _ => Err(Stop::Grammar),
        }
    }

    /// Reads the text of a prefix, without its `%`.
    pub(crate) fn prefix(&mut self, alloc: Global) -> Result<Literal, Stop>
        ensures { Reads (λ l. l) (one prefix_of) self.old result self.new }
    {
        let next = self.next;
        match next {
            Next::Item(item) if item.kind == TokenKind::Quoted => {
                let text = words::unquoted(alloc, item.text)?;
                if !words::is_prefix(text.as_str().as_bytes()) {
                    return Err(Stop::Grammar);
                }
                let text = Text::of(alloc, &text.as_str()[..text.len() - 1])?;
                self.advance();
                Ok(Literal {
                    cell: Cell::Str(text),
                    place: item.place,
                })
            }
            _ => Err(Stop::Grammar),
        }
    }

    /// Reads a comparison.
    pub(crate) fn operator(&mut self) -> Result<Op, Stop>
        ensures { Reads (λ op. op) (one op_of) self.old result self.new }
    {
        let next = self.next;
        match next {
            Next::Item(item) if item.kind == TokenKind::Mark => match words::operator(item.text) {
                Some(op) => {
                    self.advance();
                    Ok(op)
                }
                None => Err(Stop::Grammar),
            },
            _ => Err(Stop::Grammar),
        }
    }
}
