//! A store that starts from what an earlier one held.
ghost use Rattle.std.specs.Prelude.{◌≡◌, ◌<◌, [], ◌∷◌, ◌++◌, length, map, IfOk, OnOk, IsTrue};
ghost use Rattle.std.specs.List.{list_all, All};
ghost use Rattle.sr_query.specs.Bound.{is_table};
ghost use Rattle.sr_store.specs.declared.start.Kept.{Kept as ThePart};
ghost use Rattle.sr_store.specs.Stores.{IsStore};
ghost use Rattle.sr_store.specs.Starting.{AreLawful, IsStart, mark_of, region_of, regions_of};

use crate::answer::Answer;
use crate::lookup::table_at;
use crate::store::Store;
use sr_cell::attrs::Attrs;
use sr_cell::cell::Rows;
use sr_cell::list::{Copied, NoMemory, Seq};
use sr_cell::schema::Schema;
use sr_history::mark::{Mark, Marks};
use sr_policy::policy::Limits;
use sr_region::region::Region;
use sr_union::rects::Rects;
use std::alloc::Global;

/// What is held of a table under some columns: the points of the rects, and their rows with the cells of these columns, by key.
#[derive(Drop)]
pub struct Kept {
    pub table: u8,
    pub attrs: Attrs,
    pub rects: Rects,
    pub rows: Rows,
}

/// Parts by table, and then by columns as a number.
pub type Kepts = Seq<Kept>;

/// A store, and the marks of what it holds and dropped at its start.
#[derive(Drop)]
pub struct StoreStart {
    pub store: Store,
    pub marks: Marks,
}

/// Appends the mark that the part is held.
fn push_mark(alloc: Global, marks: &mut Marks, kept: &Kept) -> Result<(), NoMemory>
    ensures { OnOk result (marks.new ≡ marks.old ++ mark_of kept.now ∷ []) }
{
    let rects = kept.rects.copy(alloc)?;
    marks.push(Mark::Held {
        table: kept.table,
        attrs: kept.attrs,
        rects,
    })
}

/// Each part is held.
fn marks_of(alloc: Global, kept: &[Kept]) -> Result<Marks, NoMemory>
    ensures { IfOk result (λ marks. marks ≡ map mark_of kept.now) }
{
    let mut marks = Seq::new(alloc);
    for part in kept {
        push_mark(alloc, &mut marks, part)?;
    }
    Ok(marks)
}

/// The region of a part; no query touched it.
fn region_of(schema: &Schema, kept: Kept) -> Region
    requires tables { IsTrue (list_all is_table schema.now) }
    requires within { kept.table < length schema.now }
    ensures { result ≡ region_of schema.now kept }
{
    let key = table_at(schema, kept.table).key;
    let Kept {
        table,
        attrs,
        rects,
        rows,
    } = kept;
    Region {
        table,
        key,
        attrs,
        stamp: 0,
        rects,
        rows,
    }
}

/// The regions of the parts.
fn regions_of(alloc: Global, schema: &Schema, kept: Kepts) -> Result<Seq<Region>, NoMemory>
    requires tables { IsTrue (list_all is_table schema.now) }
    requires within { All (λ (k : ThePart). k.table < length schema.now) kept }
    ensures { IfOk result (λ regions. regions ≡ regions_of schema.now kept) }
{
    let mut regions = Seq::new(alloc);
    for part in kept.into_vec() {
        regions.push(region_of(schema, part))?;
    }
    Ok(regions)
}

impl Store {
    /// A store that holds these parts, as far as the limits allow, with no query answered; the marks say that each part is held,
    /// and then what the limits demand to drop. Whether a part has all its points in others with more columns is not looked at
    /// before the first answer.
    pub fn of(
        alloc: Global,
        schema: &Schema,
        limits: Limits,
        kept: Kepts,
    ) -> Result<StoreStart, NoMemory>
        requires tables { IsTrue (list_all is_table schema.now) }
        requires lawful { AreLawful schema.now kept }
        ensures started { IfOk result (IsStart schema.now limits kept) }
        ensures store { IfOk result (λ start. IsStore schema.now start.store.regions) }
    {
        let marks = marks_of(alloc, kept.as_slice())?;
        let regions = regions_of(alloc, schema, kept)?;
        let mut store = Store::new(alloc, limits);
        store.settled = false;
        let marks = store.keep(alloc, schema, Answer { regions, marks })?;
        Ok(StoreStart { store, marks })
    }
}
