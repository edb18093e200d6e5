//! A client that starts from what an earlier one held.
ghost use Rattle.std.specs.Prelude.{◌≡◌, IfOk, IsTrue};
ghost use Rattle.std.specs.List.{list_all};
ghost use Rattle.sr_model.specs.Statements.{Tables};
ghost use Rattle.sr_query.specs.Bound.{is_table};
ghost use Rattle.sr_store.specs.Brought.{IsToldOf};
ghost use Rattle.sr_store.specs.Starting.{AreLawful, AreTrueParts, IsStart, kept_rows};
ghost use Rattle.sr_store.specs.Told.{told_of};
ghost use Rattle.sr_client.specs.Stands.{IsClient, StandsFor};
ghost use Rattle.sr_client.specs.Starting.{AreStartMarks, MayBeWritten, start_client, start_past};

use crate::client::Client;
use crate::laid::Laid;
use sr_cell::list::NoMemory;
use sr_cell::schema::Schema;
use sr_history::mark::Marks;
use sr_policy::policy::Limits;
use sr_store::start::Kepts;
use sr_store::store::Store;
use std::alloc::Global;

/// A client, and the marks of what it holds and dropped at its start.
#[derive(Drop)]
pub struct ClientStart {
    pub client: Client,
    pub marks: Marks,
}

impl Client {
    /// A client at that version that holds these parts, as far as the limits allow, and whose link is down by cut 0; the marks say
    /// that each part is held, and then what the limits demand to drop. On any link it stands for the past of its start, and where
    /// the parts have the rows of some tables, so has the client.
    pub fn of(
        alloc: Global,
        id: u8,
        schema: Schema,
        limits: Limits,
        version: u64,
        kept: Kepts,
    ) -> Result<ClientStart, NoMemory>
        requires tables { IsTrue (list_all is_table schema) }
        requires lawful { AreLawful schema kept }
        requires short { MayBeWritten kept }
        ensures client { IfOk result (λ start. start.client ≡ start_client id schema limits version start.client.store) }
        ensures store { IfOk result (λ start. IsStart schema limits kept (record { store = start.client.store; marks = start.marks })) }
        ensures marks { IfOk result (λ start. AreStartMarks schema limits kept start.marks) }
        ensures stands { IfOk result (λ start. StandsFor (start_past schema version kept start.marks) start.client) }
        ensures told { IfOk result (λ start. IsToldOf schema (kept_rows kept) start.client.store.regions) }
        ensures over { IfOk result (λ start. (tables : Tables) → AreTrueParts (told_of tables) kept
            → IsClient start.client (start_past schema version kept start.marks) tables) }
    {
        let start = Store::of(alloc, &schema, limits, kept)?;
        let client = Client {
            id,
            schema,
            store: start.store,
            version,
            queries: 0,
            next_request: 0,
            out: None,
            laid: Laid::new(alloc),
            cut: true,
            cuts: 0,
        };
        Ok(ClientStart {
            client,
            marks: start.marks,
        })
    }
}
