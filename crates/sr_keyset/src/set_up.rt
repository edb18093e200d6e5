//! The tables and the script of a client, from its files.
ghost use Rattle.std.specs.Prelude.{◌≡◌, ℕ, ◌<◌, ◌^◌, ◌⊎◌, length, IsTrue, IfOk, IsErrOf};
ghost use Rattle.std.specs.List.{list_all};
ghost use Rattle.sr_cell.specs.declared.fault.Fault.{Fault as TheFault};
ghost use Rattle.sr_cell.specs.declared.list.No.TheVariants.{Refused, NoMemory as Wanting};
ghost use Rattle.sr_keyset.specs.Follows.{jobs_left};
ghost use Rattle.sr_keyset.specs.SetUp.{AreSetUp, IsOutside};
ghost use Rattle.sr_lines.specs.Script.{LinePlace};
ghost use Rattle.sr_query.specs.Bound.{is_table};
ghost use Rattle.sr_setup.specs.ClientFiles.{ClientRefuses};
ghost use Rattle.sr_setup.specs.declared.client_setup.ClientFault.TheVariants.{Line, Create};

use crate::key_sets::KeySets;
use sr_cell::list::No;
use sr_cell::schema::Schema;
use sr_setup::client_setup::{ClientFault, set_up_client};
use std::alloc::Global;

/// The tables of a client, and its script before the first line.
#[derive(Drop)]
pub struct SetUp<'a> {
    pub schema: Schema,
    pub plans: KeySets<'a>,
}

/// Judges and reads the files of the client of this number, as for `client`.
pub fn set_up_key_sets<'a>(
    alloc: Global,
    id: u8,
    schema: &[u8],
    script: &'a [u8],
) -> Result<SetUp<'a>, No<ClientFault>>
    requires schema { length schema.now < 2 ^ 32 }
    requires script { length script.now < 2 ^ 32 }
    ensures asked { IfOk result (AreSetUp id schema.now script.now) }
    ensures tables { IfOk result (λ s. IsTrue (list_all is_table s.schema)) }
    ensures few { IfOk result (λ s. jobs_left s.plans < 2 ^ 40) }
    ensures line { (at : LinePlace) → IsErrOf result (Refused (Line at.line at.place)) → IsOutside id schema.now script.now at }
    ensures first { (at : LinePlace) → IsOutside id schema.now script.now at → IsErrOf result (Refused (Line at.line at.place)) ⊎ IsErrOf result Wanting }
    ensures create { (line : ℕ) (fault : TheFault) → IsErrOf result (Refused (Create line fault)) → ClientRefuses id schema.now script.now line fault }
{
    match set_up_client(alloc, id, schema, script) {
        Ok(read) => {
            let schema = read.schema;
            match KeySets::new(alloc, &schema, id, script) {
                Ok(plans) => Ok(SetUp { schema, plans }),
                Err(_) => Err(No::NoMemory),
            }
        }
        Err(no) => Err(no),
    }
}
