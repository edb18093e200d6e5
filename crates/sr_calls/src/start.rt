//! A client that starts from an image.
ghost use Rattle.std.specs.Prelude.{◌≡◌, ◌≤◌, IfOk, IsTrue};
ghost use Rattle.std.specs.List.{list_all};
ghost use Rattle.sr_query.specs.Bound.{is_table};
ghost use Rattle.sr_store.specs.Starting.{IsStart};
ghost use Rattle.sr_client.specs.Stands.{StandsFor};
ghost use Rattle.sr_client.specs.Starting.{start_client, start_past};
ghost use Rattle.sr_image.specs.Laws.{is_image};
ghost use Rattle.sr_calls.specs.ClientEnds.{IsReady};

use sr_cell::list::{Copied, NoMemory};
use sr_cell::schema::Schema;
use sr_client::client::Client;
use sr_client::start::ClientStart;
use sr_image::image::Image;
use sr_policy::policy::Limits;
use std::alloc::Global;

/// A client of that number that starts from an image, and holds of it what the limits allow; and the marks of its start. Its link is down.
pub fn start_from(
    alloc: Global,
    id: u8,
    schema: &Schema,
    limits: Limits,
    image: Image,
) -> Result<ClientStart, NoMemory>
    requires first { 1 ≤ id }
    requires last { id ≤ 64 }
    requires tables { IsTrue (list_all is_table schema.now) }
    requires regions { limits.regions ≤ 1024 }
    requires image { IsTrue (is_image schema.now image) }
    ensures client { IfOk result (λ start. start.client ≡ start_client id schema.now limits image.version start.client.store) }
    ensures store { IfOk result (λ start. IsStart schema.now limits image.kept (record { store = start.client.store; marks = start.marks })) }
    ensures stands { IfOk result (λ start. StandsFor (start_past schema.now image.version image.kept start.marks) start.client) }
    ensures ready { IfOk result (λ start. IsReady start.client) }
{
    let own = schema.copy(alloc)?;
    let Image { version, kept } = image;
    Client::of(alloc, id, own, limits, version, kept)
}
