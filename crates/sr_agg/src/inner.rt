//! The query of the rows that an aggregate tells of.
ghost use Rattle.std.specs.Prelude.{◌≡◌, ◌++◌, drop, fold, map, bytes_eq, string_bytes, IfOk, OnOk};
ghost use Rattle.std.specs.Option.{option_copied};
ghost use Rattle.std.specs.Str.{IsCharBoundary};
ghost use Rattle.std.specs.List.{list_any};
ghost use Rattle.sr_token.specs.Tokens.{is_blank};
ghost use Rattle.sr_agg.specs.Inner.{behind_comma, cut, group_count, inner_text, key_of_table, list_text, listed, spelling, spellings, spellings_of, table_of, trimmed, with_text};
ghost use Rattle.sr_agg.specs.Views.{MayCut};

use crate::statement::{Aggregate, Listed};
use sr_cell::list::{NoMemory, Seq};
use sr_cell::schema::Schema;
use sr_cell::table::Table;
use sr_cell::text::Text;
use sr_grammar::statement::Name;
use std::alloc::Global;

pub(crate) type Texts = Seq<Text>;

/// The spellings of the columns that the query lists. The first of them group its rows.
#[derive(Drop)]
pub(crate) struct Listing {
    pub(crate) texts: Texts,
    pub(crate) groups: usize,
}

/// A reference as it is spelled, in lower case.
pub(crate) fn spelling(alloc: Global, name: &Name) -> Result<Text, NoMemory>
    ensures { IfOk result (λ text. text ≡ spelling name.now) }
{
    match &name.table {
        None => Text::of(alloc, name.column.as_str()),
        Some(table) => {
            let mut text = String::from_str(alloc, table.as_str())?;
            text.push_str(".")?;
            text.push_str(name.column.as_str())?;
            Ok(Text::from_string(text))
        }
    }
}

fn is_among(texts: &[Text], text: &str) -> bool
    ensures { result ≡ list_any (bytes_eq text.now) texts.now }
{
    for other in texts {
        if text == other.as_str() {
            return true;
        }
    }
    false
}

/// Puts the spelling of a name behind the others, if it is none of them.
fn push_once(alloc: Global, texts: &mut Texts, name: &Name) -> Result<(), NoMemory>
    ensures { OnOk result (texts.new ≡ with_text texts.old (spelling name.now)) }
{
    let text = spelling(alloc, name)?;
    if is_among(texts.as_slice(), text.as_str()) {
        return Ok(());
    }
    texts.push(text)
}

fn push_names(alloc: Global, texts: &mut Texts, names: &[Name]) -> Result<(), NoMemory>
    ensures { OnOk result (texts.new ≡ fold with_text texts.old (map spelling names.now)) }
{
    for name in names {
        push_once(alloc, texts, name)?;
    }
    Ok(())
}

fn push_item(alloc: Global, texts: &mut Texts, item: &Listed) -> Result<(), NoMemory>
    ensures { OnOk result (texts.new ≡ fold with_text texts.old (spellings_of item.now)) }
{
    match item {
        Listed::Plain(name) => push_once(alloc, texts, name),
        Listed::Rows => Ok(()),
        Listed::Of(_, _, name) => push_once(alloc, texts, name),
    }
}

fn push_items(alloc: Global, texts: &mut Texts, items: &[Listed]) -> Result<(), NoMemory>
    ensures { OnOk result (texts.new ≡ fold with_text texts.old (spellings items.now)) }
{
    for item in items {
        push_item(alloc, texts, item)?;
    }
    Ok(())
}

/// The spellings that the query of an aggregate lists.
pub(crate) fn listing_of(alloc: Global, aggregate: &Aggregate) -> Result<Listing, NoMemory>
    ensures texts { IfOk result (λ l. l.texts ≡ listed aggregate.now) }
    ensures groups { IfOk result (λ l. l.groups ≡ group_count aggregate.now) }
{
    let mut texts = Texts::new(alloc);
    match &aggregate.groups {
        Some(names) => push_names(alloc, &mut texts, names.as_slice())?,
        None => {}
    }
    let groups = texts.len();
    push_items(alloc, &mut texts, aggregate.items.as_slice())?;
    Ok(Listing { texts, groups })
}

/// Puts the key of a table, with its name, behind the text; or a `*`.
fn push_key(text: &mut String, table: Option<&Table>) -> Result<(), NoMemory>
    ensures { OnOk result (string_bytes text.new ≡ string_bytes text.old ++ key_of_table (option_copied table.entry)) }
{
    let Some(table) = table else {
        text.push_str("*")?;
        return Ok(());
    };
    match table.columns.get(table.key as usize) {
        Some(column) => {
            text.push_str(table.name.as_str())?;
            text.push_str(".")?;
            text.push_str(column.name.as_str())?;
        }
        None => text.push_str("*")?,
    }
    Ok(())
}

/// The table of that name.
fn table_named<'a>(schema: &'a Schema, name: &Option<Text>) -> Option<&'a Table>
    ensures { option_copied result ≡ table_of schema.now name.now }
{
    let Some(name) = name else {
        return None;
    };
    let Some(number) = schema.table_of(name.as_str()) else {
        return None;
    };
    schema.get(number as usize)
}

/// Puts texts behind the text, each behind a comma.
fn push_behind_comma(text: &mut String, texts: &[Text]) -> Result<(), NoMemory>
    ensures { OnOk result (string_bytes text.new ≡ string_bytes text.old ++ behind_comma texts.now) }
{
    for more in texts {
        text.push_str(", ")?;
        text.push_str(more.as_str())?;
    }
    Ok(())
}

/// Puts what the query lists behind the text: the spellings, or where there is none the key of the table.
fn push_list(
    text: &mut String,
    schema: &Schema,
    table: &Option<Text>,
    texts: &[Text],
) -> Result<(), NoMemory>
    ensures { OnOk result (string_bytes text.new ≡ string_bytes text.old ++ list_text schema.now table.now texts.now) }
{
    match texts {
        [] => push_key(text, table_named(schema, table)),
        [first, more @ ..] => {
            text.push_str(first.as_str())?;
            push_behind_comma(text, more)
        }
    }
}

fn is_blank(byte: u8) -> bool
    ensures { result ≡ is_blank byte }
{
    matches!(byte, b' ' | b'\t' | b'\r' | b'\n')
}

/// The text from one place up to another, or to its end, without the blanks at the end of that.
fn query_text(text: &str, from: u32, until: Option<u32>) -> &str
    requires from { IsCharBoundary text.now from }
    requires until { MayCut text.now until }
    ensures { result.now ≡ trimmed (drop from (cut until text.now)) }
{
    let from = from as usize;
    let mut end = match until {
        Some(place) => from.max(place as usize),
        None => text.len(),
    };
    let bytes = text.as_bytes();
    while end > from && is_blank(bytes[end - 1]) {
        end -= 1;
    }
    &text[from..end]
}

/// The text of the query.
pub(crate) fn inner_text(
    alloc: Global,
    schema: &Schema,
    text: &str,
    aggregate: &Aggregate,
    listing: &Listing,
) -> Result<Text, NoMemory>
    requires from { IsCharBoundary text.now aggregate.now.from }
    requires until { MayCut text.now aggregate.now.until }
    requires listing { listing.now.texts ≡ listed aggregate.now }
    ensures { IfOk result (λ inner. inner ≡ inner_text schema.now text.now aggregate.now) }
{
    let mut inner = String::from_str(alloc, "SELECT ")?;
    push_list(
        &mut inner,
        schema,
        &aggregate.table,
        listing.texts.as_slice(),
    )?;
    inner.push_str(" ")?;
    inner.push_str(query_text(text, aggregate.from, aggregate.until))?;
    Ok(Text::from_string(inner))
}
