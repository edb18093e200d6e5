//! A printer, which writes token by token.
ghost use Rattle.std.specs.Prelude.{◌≡◌, ◌++◌, ◌||◌, if◌then◌else◌, List, [], ◌∷◌, true, codes, OnOk, string_bytes};
ghost use Rattle.sr_grammar.specs.Tokens.{Named, Quoted};
ghost use Rattle.sr_grammar.specs.Printed as tokens;
ghost use Rattle.sr_grammar.specs.Spaced.{doubled, is_close, is_open};
ghost use Rattle.sr_print.specs.Writes.{Writes};

use sr_cell::list::NoMemory;
use sr_cell::text::Text;
use std::alloc::Global;
use std::fmt::Write;
use std::marker::Model;

/// What is written so far, and whether the next token stands right behind it.
#[derive(Drop)]
pub struct Printer {
    text: String,
    tight: bool,
}

impl Model for Printer {
    ghost use Rattle.std.specs.Prelude.{string_bytes};
    ghost use Rattle.sr_print.specs.Writes.{Page};

    ghost Value = { Page };

    ghost view = { λ p. record { text = string_bytes p.text; tight = p.tight } };
}

impl Printer {
    /// A printer that has written nothing; takes no memory.
    pub fn new(alloc: Global) -> Printer
        ensures { result ≡ record { text = []; tight = true } }
    {
        Printer {
            text: String::new(alloc),
            tight: true,
        }
    }

    /// What was written.
    pub fn into_text(self) -> Text
        ensures { result ≡ self.text }
    {
        Text::from_string(self.text)
    }

    /// Writes a reserved word, in upper case.
    #[tactic(auto, unfolding(crate::specs::Writes::stroke))]
    pub fn key(&mut self, word: &str) -> Result<(), NoMemory>
        ensures { OnOk result (Writes (tokens.key word.now ∷ []) self.old self.new) }
    {
        self.put(false, word, false)
    }

    /// Writes a name.
    #[tactic(auto, unfolding(crate::specs::Writes::stroke))]
    pub fn name(&mut self, name: &str) -> Result<(), NoMemory>
        ensures { OnOk result (Writes (tokens.name name.now 0 ∷ []) self.old self.new) }
    {
        self.put(false, name, false)
    }

    /// Writes a mark.
    #[tactic(auto, unfolding(crate::specs::Writes::stroke))]
    pub fn mark(&mut self, sign: &str) -> Result<(), NoMemory>
        ensures { OnOk result (Writes (tokens.mark sign.now ∷ []) self.old self.new) }
    {
        self.put(is_close_mark(sign), sign, is_open_mark(sign))
    }

    /// Writes a number, with its minus.
    pub fn number(&mut self, number: i64) -> Result<(), NoMemory>
        ensures { OnOk result (Writes (tokens.number number 0) self.old self.new) }
    {
        self.blank(false)?;
        write!(self.text, "{number}")?;
        self.tight = false;
        Ok(())
    }

    /// Writes a text in quotes.
    pub fn quoted(&mut self, text: &str) -> Result<(), NoMemory>
        ensures { OnOk result (Writes (tokens.token Quoted text.now 0 ∷ []) self.old self.new) }
    {
        self.blank(false)?;
        self.text.push_str("'")?;
        push_doubled(&mut self.text, text)?;
        self.text.push_str("'")?;
        self.tight = false;
        Ok(())
    }

    /// Writes a text and a `%` behind it in quotes.
    pub fn prefix(&mut self, text: &str) -> Result<(), NoMemory>
        ensures { OnOk result (Writes (tokens.token Quoted (text.now ++ codes "%") 0 ∷ []) self.old self.new) }
    {
        self.blank(false)?;
        self.text.push_str("'")?;
        push_doubled(&mut self.text, text)?;
        self.text.push_str("%'")?;
        self.tight = false;
        Ok(())
    }

    /// A token; `close` says that no blank stands before it, and `tight` that none stands behind it.
    fn put(&mut self, close: bool, token: &str, tight: bool) -> Result<(), NoMemory>
        ensures { OnOk result (self.new
            ≡ record { text = self.old.text ++ ((if self.old.tight || close then [] else codes " ") ++ token.now); tight = tight }) }
    {
        self.blank(close)?;
        self.text.push_str(token)?;
        self.tight = tight;
        Ok(())
    }

    /// The blank before a token, where one may stand.
    fn blank(&mut self, close: bool) -> Result<(), NoMemory>
        ensures { OnOk result (self.new ≡ record { text = self.old.text ++ (if self.old.tight || close then [] else codes " "); tight = self.old.tight }) }
    {
        if !(self.tight || close) {
            self.text.push(' ')?;
        }
        Ok(())
    }
}

/// Whether no blank stands before this mark.
fn is_close_mark(sign: &str) -> bool
    ensures { result ≡ is_close (tokens.mark sign.now) }
{
    sign == "," || sign == ")" || sign == "."
}

/// Whether no blank stands behind this mark.
fn is_open_mark(sign: &str) -> bool
    ensures { result ≡ is_open (tokens.mark sign.now) }
{
    sign == "(" || sign == "." || sign == "-"
}

/// Appends a text with each quote doubled.
fn push_doubled(to: &mut String, text: &str) -> Result<(), NoMemory>
    ensures { OnOk result (string_bytes to.new ≡ string_bytes to.old ++ doubled text.now) }
{
    for letter in text.chars() {
        if letter == '\'' {
            to.push_str("''")?;
        } else {
            to.push(letter)?;
        }
    }
    Ok(())
}
