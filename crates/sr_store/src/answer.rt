//! What an answer makes of the regions.
ghost use Rattle.std.specs.Prelude.{◌≡◌, ◌≤◌, ◌<◌, ◌+◌, ◌↔◌, true, false, List, ◌++◌, length, map, if◌then◌else◌, IfOk, IfSome, IfNone, IsErrOf, IsTrue};
ghost use Rattle.std.specs.List.{list_all, All, AllZip};
ghost use Rattle.sr_cell.specs.declared.cause.Cause.TheVariants.{Absorbed, Pieces};
ghost use Rattle.sr_cell.specs.declared.list.No.TheVariants.{Refused};
ghost use Rattle.sr_cell.specs.Columns.{table_at};
ghost use Rattle.sr_box.specs.Points.{rect_fits, constrains_only};
ghost use Rattle.sr_query.specs.Bound.{is_table};
ghost use Rattle.sr_query.specs.declared.query.Part.{Part as ThePart};
ghost use Rattle.sr_region.specs.declared.region.Region.{Region as TheRegion};
ghost use Rattle.sr_store.specs.Told.{Told, IsTold, AreTrueOf};
ghost use Rattle.sr_store.specs.Classes.{ascends};
ghost use Rattle.sr_store.specs.Stores.{IsOfSchema, IsSettled, count_rects, drop_of};
ghost use Rattle.sr_store.specs.Answered.{IsArrival, AreApart, HaveArrived, IsHeavy, AreFlags, flagged, held_of};
ghost use Rattle.sr_store.specs.Renewing.{IsRenewal, with_regions};
ghost use Rattle.sr_store.specs.Making.{ComesFrom, AreParted, AreNews, IsOutcome, IsAbsorbedBy, IsKeptOr, CanJoin, without_rows};

use crate::absorb::{absorbed, met_by, still_absorbed};
use crate::add::together;
use crate::arrive::arrived_regions;
use crate::marks::{drop_marks, held_marks};
use crate::parting::{Parted, copies_without_rows, parted_by, sift};
use crate::restamp::{MOST_RECTS, restamp};
use crate::store::Arrivals;
use sr_cell::cause::Cause;
use sr_cell::list::{No, NoMemory, Seq};
use sr_cell::schema::Schema;
use sr_history::mark::Marks;
use sr_query::query::Part;
use sr_region::region::Region;
use sr_union::minus::Over;
use std::alloc::Global;

/// Regions, and the marks on the way to them.
#[derive(Drop)]
pub(crate) struct Answer {
    pub(crate) regions: Seq<Region>,
    pub(crate) marks: Marks,
}

/// What an answer makes; or the drops of all regions, where there would be too many pieces.
#[derive(Drop)]
pub(crate) enum Outcome {
    Answered(Answer),
    GivenUp(Marks),
}

/// The regions that an answer makes, with a flag for each that is absorbed, and one for each of those that stay.
#[derive(Drop)]
pub(crate) struct News {
    pub(crate) regions: Seq<Region>,
    pub(crate) absorbed: Seq<bool>,
    pub(crate) still_absorbed: Seq<bool>,
}

/// The regions of an answer, before any is dropped.
fn renewed(
    alloc: Global,
    schema: &Schema,
    number: u64,
    parts: &[Part],
    arrivals: Arrivals,
    old: Seq<Region>,
) -> Result<Seq<Region>, No<Over>>
    requires tables { IsTrue (list_all is_table schema.now) }
    requires each { All (IsOfSchema schema.now) old }
    requires fit { All (λ (part : ThePart). list_all (rect_fits (table_at schema.now part.table).columns) part.rects ≡ true) parts.now }
    requires only { All (λ (part : ThePart). list_all (constrains_only part.need 0) part.rects ≡ true) parts.now }
    requires arrivals { All (IsArrival schema.now parts.now) arrivals }
    requires apart { AreApart schema.now old arrivals }
    requires told { (told : Told) × IsTold schema.now told × AreTrueOf told old × HaveArrived told arrivals }
    ensures renewal { IfOk result (IsRenewal schema.now number parts.now arrivals old) }
    ensures over { (whole : List TheRegion) → All (ComesFrom schema.now whole parts.now arrivals) old
        → IsErrOf result (Refused (record {})) → IsHeavy schema.now whole parts.now arrivals }
{
    let mut pieces = match restamp(alloc, schema, old, parts, number) {
        Ok(pieces) => pieces,
        Err(no) => return Err(no),
    };
    match arrived_regions(alloc, schema, arrivals, number) {
        Ok(arrived) => pieces.append(arrived)?,
        Err(no) => return Err(no),
    }
    Ok(together(Seq::new(alloc), pieces)?)
}

/// How many rects the region has; 0 where it has a flag.
fn plain_count(region: &Region, flag: bool) -> usize
    ensures { result ≡ (if flag then 0 else length region.now.rects) }
{
    if flag { 0 } else { region.rects.len() }
}

/// How many rects there may still be when those of the regions without flag are counted; none where there are more of them.
fn room_after(regions: &[Region], flags: &[bool], room: usize) -> Option<usize>
    requires { length flags.now ≡ length regions.now }
    ensures left { IfSome result (λ left. count_rects (flagged false flags.now regions.now) + left ≡ room) }
    ensures none { IfNone result (room < count_rects (flagged false flags.now regions.now)) }
{
    let mut left = room;
    for i in 0..regions.len() {
        let count = plain_count(&regions[i], flags[i]);
        if count > left {
            return None;
        }
        left -= count;
    }
    Some(left)
}

/// Whether the regions without flag have at most `MOST_RECTS` rects.
fn have_few(still: &[Region], news: &News) -> bool
    requires still { length news.now.still_absorbed ≡ length still.now }
    requires news { length news.now.absorbed ≡ length news.now.regions }
    ensures { IsTrue result ↔ (count_rects (flagged false news.now.still_absorbed still.now) + count_rects (flagged false news.now.absorbed news.now.regions) ≤ 16384) }
{
    match room_after(still, news.still_absorbed.as_slice(), MOST_RECTS as usize) {
        Some(room) => {
            room_after(news.regions.as_slice(), news.absorbed.as_slice(), room).is_some()
        }
        None => false,
    }
}

/// The regions that an answer makes, with a flag for each that is absorbed; of those that stay only the met ones are tested.
fn flag_absorbed(
    alloc: Global,
    schema: &Schema,
    still: &[Region],
    regions: Seq<Region>,
    met: &[bool],
) -> Result<News, NoMemory>
    requires tables { IsTrue (list_all is_table schema.now) }
    requires still { All (IsOfSchema schema.now) still.now }
    requires news { All (IsOfSchema schema.now) regions }
    requires others { AllZip (IsKeptOr schema.now still.now regions) met.now still.now }
    ensures regions { IfOk result (λ news. news.regions ≡ regions) }
    ensures absorbed { IfOk result (λ news. AreFlags (IsAbsorbedBy schema.now still.now news.regions) news.absorbed news.regions) }
    ensures still_absorbed { IfOk result (λ news. AreFlags (IsAbsorbedBy schema.now still.now news.regions) news.still_absorbed still.now) }
{
    let absorbed = absorbed(alloc, schema, still, regions.as_slice())?;
    let still_absorbed = still_absorbed(alloc, schema, still, regions.as_slice(), met)?;
    Ok(News {
        regions,
        absorbed,
        still_absorbed,
    })
}

/// The regions that an answer makes, beside those that stay.
fn news_of(
    alloc: Global,
    schema: &Schema,
    number: u64,
    parts: &[Part],
    arrivals: Arrivals,
    still: &[Region],
    changed: Seq<Region>,
) -> Result<News, No<Over>>
    requires tables { IsTrue (list_all is_table schema.now) }
    requires fit { All (λ (part : ThePart). list_all (rect_fits (table_at schema.now part.table).columns) part.rects ≡ true) parts.now }
    requires only { All (λ (part : ThePart). list_all (constrains_only part.need 0) part.rects ≡ true) parts.now }
    requires arrivals { All (IsArrival schema.now parts.now) arrivals }
    requires parted { (old : List TheRegion) × AreParted schema.now number parts.now arrivals old still.now changed }
    ensures news { IfOk result (AreNews schema.now number parts.now arrivals still.now changed) }
    ensures over { (old : List TheRegion) → AreParted schema.now number parts.now arrivals old still.now changed
        → IsErrOf result (Refused (record {})) → IsHeavy schema.now old parts.now arrivals }
{
    let met = met_by(alloc, still, arrivals.as_slice())?;
    let regions = match renewed(alloc, schema, number, parts, arrivals, changed) {
        Ok(regions) => regions,
        Err(no) => return Err(no),
    };
    let news = flag_absorbed(alloc, schema, still, regions, met.as_slice())?;
    if !have_few(still, &news) {
        return Err(No::Refused(Over));
    }
    Ok(news)
}

/// Two lists of parted regions together: the regions without flag, and the drops of the others behind the marks.
fn join_parted(still: Parted, news: Parted, marks: Marks) -> Result<Answer, NoMemory>
    requires plain_order { ascends still.plain ≡ true }
    requires plain_join { CanJoin still.plain news.plain }
    requires flagged_order { ascends still.flagged ≡ true }
    requires flagged_join { CanJoin still.flagged news.flagged }
    ensures regions { IfOk result (λ answer. answer.regions ≡ with_regions still.plain news.plain) }
    ensures marks { IfOk result (λ answer. answer.marks ≡ marks ++ map (drop_of Absorbed) (with_regions still.flagged news.flagged)) }
{
    let absorbed = together(still.flagged, news.flagged)?;
    let marks = drop_marks(marks, Cause::Absorbed, absorbed)?;
    let regions = together(still.plain, news.plain)?;
    Ok(Answer { regions, marks })
}

/// The regions that stay and the new ones together, without the flagged ones, of which the drops stand behind the marks.
fn put_together(
    alloc: Global,
    still: Seq<Region>,
    news: News,
    marks: Marks,
) -> Result<Answer, NoMemory>
    requires order { ascends still ≡ true }
    requires join { CanJoin still news.regions }
    requires still { length news.still_absorbed ≡ length still }
    requires news { length news.absorbed ≡ length news.regions }
    ensures regions { IfOk result (λ answer. answer.regions ≡ with_regions (flagged false news.still_absorbed still) (flagged false news.absorbed news.regions)) }
    ensures marks { IfOk result (λ answer. answer.marks ≡ marks ++ map (drop_of Absorbed) (with_regions (flagged true news.still_absorbed still) (flagged true news.absorbed news.regions))) }
{
    let News {
        regions,
        absorbed,
        still_absorbed,
    } = news;
    let still = sift(alloc, still, still_absorbed)?;
    let news = sift(alloc, regions, absorbed)?;
    join_parted(still, news, marks)
}

/// The drops of the regions of both lists, in class order.
fn given_up(alloc: Global, still: Seq<Region>, changed: Seq<Region>) -> Result<Marks, NoMemory>
    requires order { ascends still ≡ true }
    requires join { CanJoin still changed }
    ensures { IfOk result (λ marks. marks ≡ map (drop_of Pieces) (with_regions still changed)) }
{
    drop_marks(Seq::new(alloc), Cause::Pieces, together(still, changed)?)
}

/// What an answer makes of parted regions; the copies are of those that it may change, and the marks of what arrived.
fn outcome_of(
    alloc: Global,
    schema: &Schema,
    number: u64,
    parts: &[Part],
    arrivals: Arrivals,
    both: Parted,
    copies: Seq<Region>,
    marks: Marks,
) -> Result<Outcome, NoMemory>
    requires tables { IsTrue (list_all is_table schema.now) }
    requires fit { All (λ (part : ThePart). list_all (rect_fits (table_at schema.now part.table).columns) part.rects ≡ true) parts.now }
    requires only { All (λ (part : ThePart). list_all (constrains_only part.need 0) part.rects ≡ true) parts.now }
    requires arrivals { All (IsArrival schema.now parts.now) arrivals }
    requires parted { (old : List TheRegion) × AreParted schema.now number parts.now arrivals old both.plain both.flagged }
    requires copies { copies ≡ map without_rows both.flagged }
    requires marks { marks ≡ map held_of arrivals }
    ensures { (old : List TheRegion) → AreParted schema.now number parts.now arrivals old both.plain both.flagged
        → IfOk result (IsOutcome schema.now number parts.now arrivals old) }
{
    let Parted { plain, flagged } = both;
    match news_of(
        alloc,
        schema,
        number,
        parts,
        arrivals,
        plain.as_slice(),
        flagged,
    ) {
        Ok(news) => Ok(Outcome::Answered(put_together(alloc, plain, news, marks)?)),
        Err(No::Refused(_)) => Ok(Outcome::GivenUp(given_up(alloc, plain, copies)?)),
        Err(No::NoMemory) => Err(NoMemory),
    }
}

/// The regions after an answer, and its marks. In regions that are not known to be settled each one is looked at.
pub(crate) fn answer_of(
    alloc: Global,
    schema: &Schema,
    number: u64,
    parts: &[Part],
    arrivals: Arrivals,
    old: Seq<Region>,
    settled: bool,
) -> Result<Outcome, NoMemory>
    requires tables { IsTrue (list_all is_table schema.now) }
    requires each { All (IsOfSchema schema.now) old }
    requires order { ascends old ≡ true }
    requires settled { settled ≡ true → IsSettled schema.now old }
    requires fit { All (λ (part : ThePart). list_all (rect_fits (table_at schema.now part.table).columns) part.rects ≡ true) parts.now }
    requires only { All (λ (part : ThePart). list_all (constrains_only part.need 0) part.rects ≡ true) parts.now }
    requires arrivals { All (IsArrival schema.now parts.now) arrivals }
    requires apart { AreApart schema.now old arrivals }
    requires told { (told : Told) × IsTold schema.now told × AreTrueOf told old × HaveArrived told arrivals }
    ensures { IfOk result (IsOutcome schema.now number parts.now arrivals old) }
{
    let marks = held_marks(alloc, arrivals.as_slice())?;
    let both = parted_by(alloc, old, parts, number, settled)?;
    // Cutting gives the changed regions up, so that what their drops need is copied before it.
    let copies = copies_without_rows(alloc, both.flagged.as_slice())?;
    outcome_of(alloc, schema, number, parts, arrivals, both, copies, marks)
}
