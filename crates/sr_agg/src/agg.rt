//! Aggregates: a query for the client, and what is told of the groups of its answer.
ghost use Rattle.std.specs.Prelude.{◌≡◌, IsTrue, IfOk, IsErrOf, Ok, Err, Some, map, take};
ghost use Rattle.std.specs.List.{list_all};
ghost use Rattle.std.specs.Option.{option_copied};
ghost use Rattle.sr_cell.specs.declared.fault.Fault.{Fault as TheFault};
ghost use Rattle.sr_cell.specs.declared.list.No.TheVariants.{Refused};
ghost use Rattle.sr_query.specs.declared.query.Part.{Part as ThePart};
ghost use Rattle.sr_query.specs.Bound.{is_table, output_of};
ghost use Rattle.sr_agg.specs.declared.agg.AggFault.{AggFault as TheAggFault};
ghost use Rattle.sr_agg.specs.Groups.{aggregates};
ghost use Rattle.sr_agg.specs.Seen.{no_of, scope_seen, scope_with, IsAsked, IsUnasked, Judges};
ghost use Rattle.sr_agg.specs.Starting.{group_at, group_of, is_text_at, is_text_column, is_text_output, item_of, not_grouped};
ghost use Rattle.sr_agg.specs.Starting.{place_among, place_of, planned, same_among, sum_of_text, text_sum_at, ungrouped_at, Starts};

use crate::groups::aggregates;
use crate::inner::{Listing, inner_text, listing_of, spelling};
use crate::item::{Function, GroupRows, Item, Items};
use crate::read::read;
use crate::statement::{Aggregate, Listed};
use sr_bind::bind::bind_query;
use sr_cell::cell::Row;
use sr_cell::fault::Fault;
use sr_cell::list::{No, NoMemory};
use sr_cell::schema::Schema;
use sr_cell::table::{Column, Kind};
use sr_cell::text::Text;
use sr_grammar::statement::Name;
use sr_query::condition::Output;
use sr_query::query::{Part, Query};
use sr_sql::read as sql;
use std::alloc::Global;
use std::marker::Model;

/// Why a text begins no aggregate: what it or its query is refused for; a listed column that does not group; or a SUM
/// of texts. A place is a byte of the text.
#[derive(Clone, Copy, Debug, PartialEq, Eq)]
pub enum AggFault {
    Sql(Fault),
    NotGrouped { place: u32 },
    SumOfText { place: u32 },
}

/// An aggregate: the query to ask, how many of its columns group its rows, and what is told of each group.
#[derive(Drop)]
pub struct Agg {
    inner: Text,
    groups: usize,
    items: Items,
}

impl Model for Agg {
    ghost use Rattle.sr_agg.specs.Starting.{Plan};

    ghost Value = { Plan };

    ghost view = { λ a. record { inner = a.inner; groups = a.groups; items = a.items } };
}

/// What is known of an aggregate once its query is bound.
#[derive(Clone, Copy)]
struct Bound<'a> {
    schema: &'a Schema,
    query: &'a Query,
    listing: &'a Listing,
}

/// The query that a text asks, or its first fault.
fn asked(alloc: Global, schema: &Schema, text: &str) -> Result<Query, No<Fault>>
    requires { IsTrue (list_all is_table schema.now) }
    ensures found { IfOk result (IsAsked schema.now text.now) }
    ensures refused { (fault : TheFault) → IsErrOf result (Refused fault) → IsUnasked schema.now text.now fault }
{
    let statement = match sql::read(alloc, text) {
        Ok(statement) => statement,
        Err(no) => return Err(no),
    };
    let query = bind_query(alloc, schema, &statement);
    drop(statement);
    query
}

/// A text's refusal, or that of its query.
fn refused(no: No<Fault>) -> No<AggFault>
    ensures { result ≡ no_of no }
{
    match no {
        No::Refused(fault) => No::Refused(AggFault::Sql(fault)),
        No::NoMemory => No::NoMemory,
    }
}

/// The first items, so many; or all, where there are fewer.
fn first(outputs: &[Output], count: usize) -> &[Output]
    ensures { result.now ≡ take count outputs.now }
{
    if count < outputs.len() {
        return &outputs[..count];
    }
    outputs
}

/// The place of the first output that is the same column.
fn same_among(outputs: &[Output], output: Output) -> Option<usize>
    ensures { result ≡ same_among 0 (output_of output) (map output_of outputs.now) }
{
    for (i, other) in outputs.iter().enumerate() {
        if output.part == other.part && output.column == other.column {
            return Some(i);
        }
    }
    None
}

/// The place of a text among others, or 0.
fn place_in(texts: &[Text], text: &str) -> usize
    ensures { result ≡ place_among 0 text.now texts.now }
{
    for (i, other) in texts.iter().enumerate() {
        if text == other.as_str() {
            return i;
        }
    }
    0
}

fn is_text_column(column: Option<&Column>) -> bool
    ensures { result ≡ is_text_column (option_copied column.entry) }
{
    match column {
        Some(column) => matches!(column.kind, Kind::Str),
        None => false,
    }
}

/// Whether a column of a query's parts has texts.
fn is_text(schema: &Schema, parts: &[Part], output: Output) -> bool
    ensures { result ≡ is_text_output schema.now (map (λ (p : ThePart). p.table) parts.now) (Some (output_of output)) }
{
    let Some(part) = parts.get(output.part as usize) else {
        return false;
    };
    match schema.get(part.table as usize) {
        Some(table) => is_text_column(table.columns.get(output.column as usize)),
        None => false,
    }
}

impl<'a> Bound<'a> {
    /// The place of a name in the query's list.
    fn place_of(self, alloc: Global, name: &Name) -> Result<usize, NoMemory>
        ensures { IfOk result (λ place. place ≡ place_of (scope_seen self.entry) name.now) }
    {
        let text = spelling(alloc, name)?;
        Ok(place_in(self.listing.texts.as_slice(), text.as_str()))
    }

    /// The place, among the columns that group, of the first that is that column of the list.
    fn group_at(self, place: usize) -> Option<usize>
        ensures { result ≡ group_at (scope_seen self.entry) place }
    {
        let outputs = &self.query.output;
        match outputs.get(place) {
            Some(output) => same_among(first(outputs.as_slice(), self.listing.groups), *output),
            None => None,
        }
    }

    /// The place of a name's column among the columns that group.
    fn group_of(self, alloc: Global, name: &Name) -> Result<Option<usize>, NoMemory>
        ensures { IfOk result (λ place. place ≡ group_of (scope_seen self.entry) name.now) }
    {
        Ok(self.group_at(self.place_of(alloc, name)?))
    }

    /// Whether that column of the list has texts.
    fn is_text_at(self, place: usize) -> bool
        ensures { result ≡ is_text_at self.entry.schema.now (scope_seen self.entry) place }
    {
        match self.query.output.get(place) {
            Some(output) => is_text(self.schema, self.query.parts.as_slice(), *output),
            None => false,
        }
    }

    /// The place of a plain item that groups nothing.
    fn ungrouped_at(self, alloc: Global, item: &Listed) -> Result<Option<u32>, NoMemory>
        ensures { IfOk result (λ place. place ≡ ungrouped_at (scope_seen self.entry) item.now) }
    {
        match item {
            Listed::Plain(name) => match self.group_of(alloc, name)? {
                Some(_) => Ok(None),
                None => Ok(Some(name.place)),
            },
            _ => Ok(None),
        }
    }

    /// The place of the first plain item that groups nothing.
    fn not_grouped(self, alloc: Global, items: &[Listed]) -> Result<Option<u32>, NoMemory>
        ensures { IfOk result (λ place. place ≡ not_grouped (scope_seen self.entry) items.now) }
    {
        for item in items {
            if let Some(place) = self.ungrouped_at(alloc, item)? {
                return Ok(Some(place));
            }
        }
        Ok(None)
    }

    /// The place of a SUM of texts.
    fn text_sum_at(self, alloc: Global, item: &Listed) -> Result<Option<u32>, NoMemory>
        ensures { IfOk result (λ place. place ≡ text_sum_at self.entry.schema.now (scope_seen self.entry) item.now) }
    {
        match item {
            Listed::Of(Function::Sum, place, name) => {
                if self.is_text_at(self.place_of(alloc, name)?) {
                    return Ok(Some(*place));
                }
                Ok(None)
            }
            _ => Ok(None),
        }
    }

    /// The place of the first SUM of texts.
    fn sum_of_text(self, alloc: Global, items: &[Listed]) -> Result<Option<u32>, NoMemory>
        ensures { IfOk result (λ place. place ≡ sum_of_text self.entry.schema.now (scope_seen self.entry) items.now) }
    {
        for item in items {
            if let Some(place) = self.text_sum_at(alloc, item)? {
                return Ok(Some(place));
            }
        }
        Ok(None)
    }

    /// What is told of a listed item.
    fn item_of(self, alloc: Global, item: &Listed) -> Result<Item, NoMemory>
        ensures { IfOk result (λ told. told ≡ item_of (scope_seen self.entry) item.now) }
    {
        match item {
            Listed::Plain(name) => match self.group_of(alloc, name)? {
                Some(place) => Ok(Item::Grouping(place)),
                None => Ok(Item::Grouping(0)),
            },
            Listed::Rows => Ok(Item::Rows),
            Listed::Of(function, _, name) => Ok(Item::Of(*function, self.place_of(alloc, name)?)),
        }
    }

    /// What is told of each group.
    fn items(self, alloc: Global, items: &[Listed]) -> Result<Items, NoMemory>
        ensures { IfOk result (λ all. all ≡ map (item_of (scope_seen self.entry)) items.now) }
    {
        let mut all = Items::with_room(alloc, items.len())?;
        for item in items {
            all.push(self.item_of(alloc, item)?)?;
        }
        Ok(all)
    }

    /// The aggregate of these items, if all of them may be told.
    fn planned(self, alloc: Global, items: &[Listed], inner: Text) -> Result<Agg, No<AggFault>>
        ensures { Judges result (planned self.entry.schema.now (scope_seen self.entry) items.now inner) }
    {
        if let Some(place) = self.not_grouped(alloc, items)? {
            return Err(No::Refused(AggFault::NotGrouped { place }));
        }
        if let Some(place) = self.sum_of_text(alloc, items)? {
            return Err(No::Refused(AggFault::SumOfText { place }));
        }
        Ok(Agg {
            inner,
            groups: self.listing.groups,
            items: self.items(alloc, items)?,
        })
    }
}

/// The aggregate of these items over a query that is bound, if all of them may be told.
fn judged(
    alloc: Global,
    schema: &Schema,
    query: &Query,
    listing: &Listing,
    items: &[Listed],
    inner: Text,
) -> Result<Agg, No<AggFault>>
    ensures { Judges result (planned schema.now (scope_with query.now listing.now) items.now inner) }
{
    let bound = Bound {
        schema,
        query,
        listing,
    };
    bound.planned(alloc, items, inner)
}

/// The same of an aggregate as it was read.
fn planned(
    alloc: Global,
    schema: &Schema,
    query: Query,
    listing: Listing,
    aggregate: Aggregate,
    inner: Text,
) -> Result<Agg, No<AggFault>>
    ensures { Judges result (planned schema.now (scope_with query listing) aggregate.items inner) }
{
    let items = aggregate.items.as_slice();
    judged(alloc, schema, &query, &listing, items, inner)
}

impl Agg {
    /// The aggregate that a text says over a schema, or its first fault.
    pub fn start(alloc: Global, schema: &Schema, sql: &str) -> Result<Agg, No<AggFault>>
        requires tables { IsTrue (list_all is_table schema.now) }
        ensures begun { IfOk result (λ a. Starts schema.now sql.now (Ok a)) }
        ensures refused { (fault : TheAggFault) → IsErrOf result (Refused fault) → Starts schema.now sql.now (Err fault) }
    {
        let aggregate = match read(alloc, sql) {
            Ok(aggregate) => aggregate,
            Err(no) => return Err(refused(no)),
        };
        let listing = listing_of(alloc, &aggregate)?;
        let inner = inner_text(alloc, schema, sql, &aggregate, &listing)?;
        let query = match asked(alloc, schema, inner.as_str()) {
            Ok(query) => query,
            Err(no) => return Err(refused(no)),
        };
        planned(alloc, schema, query, listing, aggregate, inner)
    }

    /// The query to ask; takes no memory.
    pub fn inner(&self) -> &Text
        ensures { result.now ≡ self.now.inner }
    {
        &self.inner
    }

    /// What is told of the groups of the query's rows: one row of items for each group, in the order of their grouping
    /// cells.
    pub fn groups(&self, alloc: Global, rows: &[Row]) -> Result<GroupRows, NoMemory>
        ensures { IfOk result (λ told. told ≡ aggregates self.now.groups self.now.items rows.now) }
    {
        aggregates(alloc, self.groups, self.items.as_slice(), rows)
    }
}
