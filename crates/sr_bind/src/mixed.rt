//! Conjuncts of one table each.
ghost use Rattle.std.specs.Prelude.{◌≡◌, map};
ghost use Rattle.sr_query.specs.Binding.{each, stranger, names_one, is_of_part};
ghost use Rattle.sr_query.specs.Decided.{Decides};
ghost use Rattle.sr_query.specs.Meant.{meant};
ghost use Rattle.sr_bind.specs.OneTable.{one_table, done};
ghost use Rattle.sr_bind.specs.Referred.{reference_of};

use crate::references::{Reference, references};
use sr_cell::fault::{Fault, Why};
use sr_cell::list::No;
use sr_query::condition::Condition;
use std::alloc::Global;

/// Refuses a conjunct that names columns of two tables.
pub fn one_table_each(alloc: Global, conjuncts: &[Condition]) -> Result<(), No<Fault>>
    ensures { Decides (λ _. done (map meant conjuncts.now)) result (each one_table (map meant conjuncts.now)) }
{
    for conjunct in conjuncts {
        match one_table(alloc, conjunct) {
            Ok(()) => {}
            Err(no) => return Err(no),
        }
    }
    Ok(())
}

fn one_table(alloc: Global, conjunct: &Condition) -> Result<(), No<Fault>>
    ensures { Decides (λ u. u) result (one_table (meant conjunct.now)) }
{
    let named = references(alloc, conjunct)?;
    match named.as_slice() {
        [] => Ok(()),
        [first, others @ ..] => stranger(first.output.part, others),
    }
}

/// Refuses the first reference to another part.
fn stranger(part: u8, named: &[Reference]) -> Result<(), No<Fault>>
    ensures { Decides (λ u. u) result (stranger part (map reference_of named.now)) }
{
    for reference in named {
        if reference.output.part != part {
            return Err(No::Refused(Fault {
                why: Why::Mixed,
                at: reference.place,
            }));
        }
    }
    Ok(())
}
