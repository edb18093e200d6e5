//! Lines that are counted.
ghost use Rattle.std.specs.Prelude.{◌≡◌, length};
ghost use Rattle.std.specs.Str.{bytes_eq};
ghost use Rattle.sr_lines.specs.Lines.{lines_of};
ghost use Rattle.sr_lines.specs.Script.{part_of, behind};
ghost use Rattle.sr_summary.specs.Summary.{count_of, has_second};

use sr_reader::cut::cut_line;

/// What stands behind the first space.
fn behind(line: &[u8]) -> &[u8]
    ensures { result.now ≡ behind line.now }
{
    for (i, b) in line.iter().enumerate() {
        if *b == b' ' {
            return &line[i + 1..];
        }
    }
    &line[line.len()..]
}

/// The part in front of the first space.
fn part_of(line: &[u8]) -> &[u8]
    ensures { result.now ≡ part_of line.now }
{
    for (i, b) in line.iter().enumerate() {
        if *b == b' ' {
            return &line[..i];
        }
    }
    line
}

/// Whether the second word of a line is this one.
fn has_second(word: &[u8], line: &[u8]) -> bool
    ensures { result ≡ has_second word.now line.now }
{
    part_of(behind(line)) == word
}

/// How many lines there are.
pub fn count_lines(text: &[u8]) -> u64
    ensures { result ≡ length (lines_of text.now) }
{
    let mut count: u64 = 0;
    let mut rest = text;
    'lines: while !rest.is_empty() {
        rest = cut_line(rest).rest;
        count += 1;
    }
    count
}

/// How many lines have this second word.
pub fn count_second(word: &[u8], text: &[u8]) -> u64
    ensures { result ≡ count_of word.now text.now }
{
    let mut count: u64 = 0;
    let mut rest = text;
    'lines: while !rest.is_empty() {
        let cut = cut_line(rest);
        if has_second(word, cut.line) {
            count += 1;
        }
        rest = cut.rest;
    }
    count
}
