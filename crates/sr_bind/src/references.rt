//! The references of a condition.
ghost use Rattle.std.specs.Prelude.{◌≡◌, ◌++◌, map, IfOk, OnOk};
ghost use Rattle.sr_query.specs.Binding.{references, all_references};
ghost use Rattle.sr_query.specs.Meant.{meant, bounds_of};
ghost use Rattle.sr_bind.specs.Referred.{reference_of};

use sr_cell::list::{NoMemory, Seq};
use sr_query::condition::{Condition, Output};
use std::alloc::Global;

/// A column that a condition names, and the place of its name in the text.
#[derive(Clone, Copy)]
pub struct Reference {
    pub place: u32,
    pub output: Output,
}

pub type References = Seq<Reference>;

/// The columns that the condition names, from the left.
pub fn references(alloc: Global, condition: &Condition) -> Result<References, NoMemory>
    ensures { IfOk result (λ all. map reference_of all ≡ references (meant condition.now)) }
{
    let mut found = Seq::new(alloc);
    refer(condition, &mut found)?;
    Ok(found)
}

#[cycle(references)]
fn refer(condition: &Condition, found: &mut References) -> Result<(), NoMemory>
    ensures { OnOk result (map reference_of found.new ≡ map reference_of found.old ++ references (meant condition.now)) }
{
    match condition {
        Condition::Test(place, output, _) => found.push(Reference {
            place: *place,
            output: *output,
        }),
        Condition::And(all) => refer_all(all, found),
        Condition::Or(all) => refer_all(all, found),
        Condition::Not(one) => refer(one, found),
    }
}

#[cycle(references)]
fn refer_all(conditions: &[Condition], found: &mut References) -> Result<(), NoMemory>
    ensures { OnOk result (map reference_of found.new ≡ map reference_of found.old ++ all_references (bounds_of (map meant conditions.now))) }
{
    for condition in conditions {
        refer(condition, found)?;
    }
    Ok(())
}
