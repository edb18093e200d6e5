//! What the values of the words say.
ghost use Rattle.std.specs.Prelude.{◌≡◌, ◌≤◌, ℕ, true, map, option_map, Some, IfSome};
ghost use Rattle.std.specs.List.{list_all};
ghost use Rattle.std.specs.Char.{is_ascii_digit};
ghost use Rattle.std.specs.Str.Parse.{digits_value};
ghost use Rattle.sr_words.specs.Words.{are_digits, number_of, number_or, number_in, policy_of, is_said, cut_word, load_words};
ghost use Rattle.sr_words.specs.Seen.{load_of};
ghost use Rattle.sr_words.specs.Reads.{Reads};

use crate::command::{LoadWord, LoadWords};
use crate::fault::WordsFault;
use sr_cell::list::Seq;
use sr_cell::text::Text;
use sr_policy::policy::Policy;
use std::alloc::Global;

fn all_digits(word: &[u8]) -> bool
    ensures { result ≡ list_all is_ascii_digit word.now }
{
    for byte in word {
        if !byte.is_ascii_digit() {
            return false;
        }
    }
    true
}

/// Whether the word is one to twenty digits.
fn are_digits(word: &[u8]) -> bool
    ensures { result ≡ are_digits word.now }
{
    1 <= word.len() && word.len() <= 20 && all_digits(word)
}

/// The number that digits write.
fn value_of(digits: &[u8]) -> u128
    requires { are_digits digits.now ≡ true }
    ensures { result ≡ digits_value 10 digits.now }
{
    let mut value = 0;
    for digit in digits {
        value = value * 10 + u128::from(*digit - b'0');
    }
    value
}

/// What a number may be.
#[derive(Clone, Copy)]
pub struct Range {
    pub least: u64,
    pub most: u64,
}

/// The number that the word writes, if it is in the range.
fn number_of(range: Range, word: &str) -> Option<u64>
    ensures number { result ≡ number_of range.least range.most word.now }
    ensures within { IfSome result (λ number. number ≤ range.most) }
{
    let word = word.as_bytes();
    if !are_digits(word) {
        return None;
    }
    let value = value_of(word);
    if u128::from(range.least) <= value && value <= u128::from(range.most) {
        Some(value as u64)
    } else {
        None
    }
}

/// The number that is said; where none is, the default.
pub fn number_or(default: u64, range: Range, word: Option<&str>) -> Option<u64>
    requires { default ≤ range.most }
    ensures number { result ≡ number_or default range.least range.most (option_map (λ w. w.now) word.entry) }
    ensures within { IfSome result (λ number. number ≤ range.most) }
{
    match word {
        None => Some(default),
        Some(word) => number_of(range, word),
    }
}

/// The number that has to be said.
pub fn number_in(range: Range, word: Option<&str>) -> Option<u64>
    ensures number { result ≡ number_in range.least range.most (option_map (λ w. w.now) word.entry) }
    ensures within { IfSome result (λ number. number ≤ range.most) }
{
    match word {
        None => None,
        Some(word) => number_of(range, word),
    }
}

/// The policy that is said; where none is, recency.
pub fn policy_of(word: Option<&str>) -> Option<Policy>
    ensures { result ≡ policy_of (option_map (λ w. w.now) word.entry) }
{
    match word {
        None => Some(Policy::Recency),
        Some("recency") => Some(Policy::Recency),
        Some("distance") => Some(Policy::Distance),
        Some(_) => None,
    }
}

/// Whether a flag is said.
pub fn is_said(word: Option<&str>) -> bool
    ensures { result ≡ is_said (option_map (λ w. w.now) word.entry) }
{
    match word {
        None => false,
        Some(word) => word == "true",
    }
}

/// A word that has to be there.
pub fn text_of(alloc: Global, word: Option<&str>) -> Result<Text, WordsFault>
    ensures { Reads (option_map (λ w. w.now) word.entry) result }
{
    match word {
        None => Err(WordsFault::NotInForm),
        Some(word) => match Text::of(alloc, word) {
            Ok(text) => Ok(text),
            Err(_) => Err(WordsFault::NoMemory),
        },
    }
}

/// A word that need not be there.
pub fn text_or_none(alloc: Global, word: Option<&str>) -> Result<Option<Text>, WordsFault>
    ensures { Reads (Some (option_map (λ w. w.now) word.entry)) result }
{
    match word {
        None => Ok(None),
        Some(_) => Ok(Some(text_of(alloc, word)?)),
    }
}

/// What stands before the first `=` of the word, and behind it. Neither is empty.
fn cut_word(word: &str) -> Option<(&str, &str)>
    ensures { option_map (λ cut. load_of cut.0.now cut.1.now) result ≡ cut_word word.now }
{
    match word.split_once('=') {
        None => None,
        Some((table, file)) => {
            if table.is_empty() || file.is_empty() {
                None
            } else {
                Some((table, file))
            }
        }
    }
}

/// The table and the file that the word names.
fn load_of(alloc: Global, word: &str) -> Result<LoadWord, WordsFault>
    ensures { Reads (cut_word word.now) result }
{
    match cut_word(word) {
        None => Err(WordsFault::NotInForm),
        Some((table, file)) => match Text::of(alloc, table) {
            Err(_) => Err(WordsFault::NoMemory),
            Ok(table) => match Text::of(alloc, file) {
                Err(_) => Err(WordsFault::NoMemory),
                Ok(file) => Ok(LoadWord { table, file }),
            },
        },
    }
}

/// The loads that the words say, each of them one.
pub fn load_words(alloc: Global, words: &[&str]) -> Result<LoadWords, WordsFault>
    ensures { Reads (load_words (map (λ w. w.now) words.now)) result }
{
    let mut loads = Seq::new(alloc);
    for word in words {
        match load_of(alloc, word) {
            Err(no) => return Err(no),
            Ok(load) => match loads.push(load) {
                Ok(()) => {}
                Err(_) => return Err(WordsFault::NoMemory),
            },
        }
    }
    Ok(loads)
}
