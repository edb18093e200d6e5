//! The conjuncts on one part of a query.
ghost use Rattle.std.specs.Prelude.{◌≡◌, map, filter, not, IfOk};
ghost use Rattle.sr_query.specs.Meant.{meant};
ghost use Rattle.sr_bind.specs.OneTable.{is_on};

use crate::conjuncts::Conjuncts;
use crate::references::references;
use sr_cell::list::{NoMemory, Seq};
use sr_query::condition::Condition;
use std::alloc::Global;

/// Conjuncts on one part, and the others.
#[derive(Drop)]
pub struct Halves {
    pub own: Conjuncts,
    pub others: Conjuncts,
}

/// Takes the conjuncts on that part from the others; both keep their order.
pub fn split(alloc: Global, part: u8, conjuncts: Conjuncts) -> Result<Halves, NoMemory>
    ensures own { IfOk result (λ s. map meant s.own ≡ filter (is_on part) (map meant conjuncts)) }
    ensures others { IfOk result (λ s. map meant s.others ≡ filter (λ b. not (is_on part b)) (map meant conjuncts)) }
{
    let mut own = Seq::new(alloc);
    let mut others = Seq::new(alloc);
    for conjunct in conjuncts.into_vec() {
        if is_on(alloc, part, &conjunct)? {
            own.push(conjunct)?;
        } else {
            others.push(conjunct)?;
        }
    }
    Ok(Halves { own, others })
}

fn is_on(alloc: Global, part: u8, conjunct: &Condition) -> Result<bool, NoMemory>
    ensures { IfOk result (λ yes. yes ≡ is_on part (meant conjunct.now)) }
{
    let named = references(alloc, conjunct)?;
    match named.as_slice() {
        [] => Ok(false),
        [first, ..] => Ok(first.output.part == part),
    }
}
