//! How a client would answer a query.
ghost use Rattle.std.specs.Prelude.{◌≡◌, [], ◌∷◌, length, Some, IfOk};
ghost use Rattle.std.specs.List.{AllZip};
ghost use Rattle.sr_model.specs.Queries.{Query as TheQuery};
ghost use Rattle.sr_client.specs.Asking.{whole_asks};
ghost use Rattle.sr_client.specs.Bound.{IsMeaning};
ghost use Rattle.sr_client.specs.Explaining.{AreProbes, entry_for, IsRestIn, IsExplained, Explains};
ghost use Rattle.sr_client.specs.Stands.{Stands};

use crate::asks::{asks_of, whole_asks};
use crate::client::Client;
use crate::victims::victims_of;
use sr_cell::list::{Copied, No, NoMemory, Seq};
use sr_explain::explanation::{ExplainPart, ExplainParts, Explanation, ProbeView, Probes};
use sr_message::message::AskPart;
use sr_query::query::{Part, Query};
use sr_region::region::Region;
use sr_trim::trim::Trimmed;
use sr_union::rects::Rects;
use std::alloc::Global;

impl Client {
    /// How a query would be answered now: what its regions would serve of it and what would be asked, as `query` judges
    /// it; and all regions in the order in which they would be dropped one after another. It may be asked while a request is out.
    pub fn explain(&self, alloc: Global, query: &Query) -> Result<Explanation, NoMemory>
        requires stands { Stands self.now }
        requires meant { (meaning : TheQuery) × IsMeaning self.now.schema query.now meaning }
        ensures explains { (meaning : TheQuery) → IsMeaning self.now.schema query.now meaning → IfOk result (Explains self.now meaning) }
        ensures victims { IfOk result (λ explanation. length explanation.victims ≡ length self.now.store.regions) }
    {
        let parts = query.parts.as_slice();
        let victims = victims_of(alloc, &self.schema, &self.store)?;
        match asks_of(alloc, &self.schema, &self.store, parts) {
            Ok(asks) => Ok(Explanation {
                version: self.version,
                pieces: false,
                parts: explained(alloc, self.store.regions.as_slice(), asks.as_slice(), parts)?,
                victims,
            }),
            Err(No::Refused(_)) => Ok(Explanation {
                version: self.version,
                pieces: !self.store.regions.is_empty(),
                parts: explained_whole(alloc, parts)?,
                victims,
            }),
            Err(No::NoMemory) => Err(NoMemory),
        }
    }
}

/// The parts of a query where nothing is held: all of them would be asked.
fn explained_whole(alloc: Global, parts: &[Part]) -> Result<ExplainParts, NoMemory>
    ensures { IfOk result (AllZip (IsExplained [] (whole_asks parts.now)) parts.now) }
{
    let asks = whole_asks(alloc, parts)?;
    explained(alloc, &[], asks.as_slice(), parts)
}

/// The parts of a query, where these regions are held and this would be asked.
fn explained(
    alloc: Global,
    regions: &[Region],
    asks: &[AskPart],
    parts: &[Part],
) -> Result<ExplainParts, NoMemory>
    ensures { IfOk result (AllZip (IsExplained regions.now asks.now) parts.now) }
{
    let mut all = Seq::new(alloc);
    for part in parts {
        all.push(explained_part(alloc, regions, asks, part)?)?;
    }
    Ok(all)
}

fn explained_part(
    alloc: Global,
    regions: &[Region],
    asks: &[AskPart],
    part: &Part,
) -> Result<ExplainPart, NoMemory>
    ensures { IfOk result (IsExplained regions.now asks.now part.now) }
{
    let Trimmed { rest, attrs } = rest_in(alloc, part, asks)?;
    let probes = probes_of(alloc, regions, part)?;
    Ok(ExplainPart {
        table: part.table,
        need: part.need,
        probes,
        rest,
        attrs,
    })
}

/// What would be asked of the part's table, if anything would.
fn rest_in(alloc: Global, part: &Part, asks: &[AskPart]) -> Result<Trimmed, NoMemory>
    ensures { IfOk result (λ trimmed. IsRestIn (entry_for part.now.table asks.now) trimmed.attrs trimmed.rest) }
{
    for ask in asks {
        if ask.table == part.table {
            return rest_of(alloc, ask);
        }
    }
    Ok(Trimmed {
        rest: Rects::new(alloc),
        attrs: part.need,
    })
}

/// What the entry asks.
fn rest_of(alloc: Global, ask: &AskPart) -> Result<Trimmed, NoMemory>
    ensures { IfOk result (λ trimmed. IsRestIn (Some ask.now) trimmed.attrs trimmed.rest) }
{
    Ok(Trimmed {
        rest: ask.rects.copy(alloc)?,
        attrs: ask.attrs,
    })
}

/// What the regions that serve the part have in common with it.
fn probes_of(alloc: Global, regions: &[Region], part: &Part) -> Result<Probes, NoMemory>
    ensures { IfOk result (AreProbes part.now regions.now) }
{
    let mut probes = Seq::new(alloc);
    for region in regions {
        probes.append(probe_of(alloc, region, part)?)?;
    }
    Ok(probes)
}

/// What the region has in common with the part, if it serves it and meets it.
fn probe_of(alloc: Global, region: &Region, part: &Part) -> Result<Probes, NoMemory>
    ensures { IfOk result (AreProbes part.now (region.now ∷ [])) }
{
    let mut probes = Seq::new(alloc);
    if !region.serves(part.table, part.need) {
        return Ok(probes);
    }
    let rects = part.rects.meet(alloc, &region.rects)?;
    if rects.is_empty() {
        return Ok(probes);
    }
    probes.push(ProbeView {
        attrs: region.attrs,
        stamp: region.stamp,
        rects,
    })?;
    Ok(probes)
}
