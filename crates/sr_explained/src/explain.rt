//! The replay of a script, and how a query would be answered behind it.
ghost use Rattle.std.specs.Prelude.{◌≡◌, ℕ, ◌<◌, ◌≤◌, ◌^◌, ◌⊎◌, nat_lt, List, [], length, string_bytes, Some, Ok, Result, IsTrue, IfOk, OnOk, IsErrOf};
ghost use Rattle.std.specs.List.{list_all};
ghost use Rattle.sr_cell.specs.declared.fault.Fault.{Fault as TheFault};
ghost use Rattle.sr_cell.specs.declared.list.No.TheVariants.{Refused, NoMemory as Wanting};
ghost use Rattle.sr_lines.specs.Lines.{lines_of};
ghost use Rattle.sr_lines.specs.Script.{FirstRefused, LinePlace as TheLinePlace};
ghost use Rattle.sr_model.specs.Queries.{Query as TheQuery};
ghost use Rattle.sr_reader.specs.Read.{Means};
ghost use Rattle.sr_server.specs.Servers.{IsClientNumber};
ghost use Rattle.sr_io.specs.Causes.{Rose};
ghost use Rattle.sr_session.specs.Scenes.{Scene};
ghost use Rattle.sr_client.specs.Bound.{IsMeaning};
ghost use Rattle.sr_client.specs.Stands.{Stands};
ghost use Rattle.sr_world.specs.declared.replay.RunFault.{RunFault as TheRunFault};
ghost use Rattle.sr_world.specs.declared.replay.RunFault.TheVariants.{WriteFault, Line};
ghost use Rattle.sr_world.specs.Replay.{outside};
ghost use Rattle.sr_world.specs.Worlds.{Represents, StandsForSome};
ghost use Rattle.sr_explained.specs.After.{Behind, WroteBehind, WrotePart, IsRefusedFor, IsTextFor, TextOf, AreLinesFor};

use crate::nowhere::Nowhere;
use sr_cell::fault::Fault;
use sr_cell::list::{No, NoMemory, Seq};
use sr_client::client::Client;
use sr_io::outside::Sink;
use sr_io::whole::write_all;
use sr_load::fill::Load;
use sr_query::query::Query;
use sr_reader::meaning::query_of;
use sr_script::line::{TraceLine, TraceLines};
use sr_script::text::lines_text;
use sr_world::lines::lines_of_explain;
use sr_world::replay::{RunFault, replay};
use sr_world::world::{Options, World};
use std::alloc::Global;

/// Replays a script as `replay` does, but without its trace, and then writes how client 1 would answer a query, in lines with number
/// 0.
pub fn explain<K: Sink>(
    alloc: Global,
    options: Options,
    script: &[u8],
    loads: &[Load],
    sql: &str,
    sink: &mut K,
) -> Result<(), No<RunFault>>
    requires clients { IsClientNumber options.clients }
    requires regions { options.limits.regions ≤ 1024 }
    requires script { length script.now < 2 ^ 32 }
    requires loads { IsTrue (list_all (λ load. nat_lt (length load.bytes) (2 ^ 32)) loads.now) }
    ensures whole { OnOk result (WroteBehind (K.writing sink.old).written (K.writing sink.new).written options script.now loads.now sql.now) }
    ensures part_after_fault { IsErrOf result (Refused WriteFault)
        → WrotePart (K.writing sink.old).written (K.writing sink.new).written options script.now loads.now sql.now }
    ensures part_in_want { IsErrOf result Wanting
        → (K.writing sink.new ≡ K.writing sink.old) ⊎ WrotePart (K.writing sink.old).written (K.writing sink.new).written options script.now loads.now sql.now }
    ensures refused { (fault : TheRunFault) → IsErrOf result (Refused fault) → IsRefusedFor options script.now loads.now sql.now fault }
    ensures line_first { (at : TheLinePlace) → outside options.clients script.now ≡ Some at
        → IsErrOf result (Refused (Line at.line at.place)) ⊎ IsErrOf result Wanting }
    ensures refused_writes_nothing { (fault : TheRunFault) → IsErrOf result (Refused fault) → (fault ≡ WriteFault) ⊎ (K.writing sink.new ≡ K.writing sink.old) }
    ensures write_fault_is_counted { IsErrOf result (Refused WriteFault) → Rose (K.writing sink.old).faults (K.writing sink.new).faults }
    ensures faults_never_fall { (K.writing sink.old).faults ≤ (K.writing sink.new).faults }
    ensures ok_keeps_faults { OnOk result ((K.writing sink.new).faults ≡ (K.writing sink.old).faults) }
    ensures want_keeps_faults { IsErrOf result Wanting → (K.writing sink.new).faults ≡ (K.writing sink.old).faults }
    ensures stays_steady { K.IsSteady sink.old → K.IsSteady sink.new }
    ensures steady_never_faults { K.IsSteady sink.old → ¬ IsErrOf result (Refused WriteFault) }
    ensures held_stays { K.held sink.new ≡ K.held sink.old }
    ensures reading_stays { K.reading sink.new ≡ K.reading sink.old }
    ensures linking_stays { K.linking sink.new ≡ K.linking sink.old }
    ensures complaints_stay { K.complaints sink.new ≡ K.complaints sink.old }
{
    let text = match text_behind(alloc, options, script, loads, sql) {
        Ok(text) => text,
        Err(no) => return Err(no),
    };
    match write_all(sink, text.as_bytes()) {
        Ok(()) => Ok(()),
        Err(No::Refused(_)) => Err(No::Refused(RunFault::WriteFault)),
        Err(No::NoMemory) => Err(No::NoMemory),
    }
}

/// The text of the lines of an explanation behind the script.
fn text_behind(
    alloc: Global,
    options: Options,
    script: &[u8],
    loads: &[Load],
    sql: &str,
) -> Result<String, No<RunFault>>
    requires clients { IsClientNumber options.clients }
    requires regions { options.limits.regions ≤ 1024 }
    requires script { length script.now < 2 ^ 32 }
    requires loads { IsTrue (list_all (λ load. nat_lt (length load.bytes) (2 ^ 32)) loads.now) }
    ensures behind { IfOk result (λ text. Behind options script.now loads.now sql.now (string_bytes text)) }
    ensures refused { (fault : TheRunFault) → IsErrOf result (Refused fault) → IsRefusedFor options script.now loads.now sql.now fault }
    ensures line_first { (at : TheLinePlace) → outside options.clients script.now ≡ Some at
        → IsErrOf result (Refused (Line at.line at.place)) ⊎ IsErrOf result Wanting }
    ensures never_writes { ¬ IsErrOf result (Refused WriteFault) }
{
    let text = match replay(alloc, options, script, loads, &mut Nowhere) {
        Ok(world) => text_over(alloc, &world, sql),
        Err(no) => return Err(no),
    };
    match text {
        Ok(text) => Ok(text),
        Err(_) => Err(No::NoMemory),
    }
}

/// The text of the lines that explain to client 1 what the SQL asks of the tables, or why it is refused.
fn text_over(alloc: Global, world: &World, sql: &str) -> Result<String, NoMemory>
    requires world { StandsForSome world.now }
    requires first { 0 < length world.now.seats.items }
    ensures { (s : Scene) → Represents world.now s → IfOk result (λ text. TextOf s sql.now (string_bytes text)) }
{
    let query = query_of(alloc, world.server.tables.schema(), sql)?;
    text_of(alloc, world, &query)
}

/// The text of the lines that explain a query, or its fault, to client 1.
fn text_of(alloc: Global, world: &World, query: &Result<Query, Fault>) -> Result<String, NoMemory>
    requires world { StandsForSome world.now }
    requires first { 0 < length world.now.seats.items }
    requires means { (meaning : Result TheQuery TheFault) × Means world.now.server.tables.schema query.now meaning }
    ensures { (s : Scene) (meaning : Result TheQuery TheFault) → Represents world.now s → Means world.now.server.tables.schema query.now meaning
        → IfOk result (λ text. IsTextFor s meaning (string_bytes text)) }
{
    let lines = lines_for(alloc, &world.seats[0].client, query)?;
    lines_text(
        alloc,
        world.server.tables.schema().as_slice(),
        0,
        lines.as_slice(),
    )
}

/// The lines of how client 1 would answer a query, or of why its text is refused.
fn lines_for(
    alloc: Global,
    client: &Client,
    query: &Result<Query, Fault>,
) -> Result<TraceLines, NoMemory>
    requires stands { Stands client.now }
    requires few { client.now.store.limits.regions ≤ 1024 }
    requires means { (meaning : Result TheQuery TheFault) × Means client.now.schema query.now meaning }
    ensures { (meaning : Result TheQuery TheFault) → Means client.now.schema query.now meaning → IfOk result (AreLinesFor client.now meaning) }
{
    match query {
        Ok(query) => explained_lines(alloc, client, query),
        Err(fault) => {
            let mut refused = Seq::new(alloc);
            refused.push(TraceLine::ExplainSql {
                client: 1,
                fault: *fault,
            })?;
            Ok(refused)
        }
    }
}

/// The lines of how client 1 would answer a query.
fn explained_lines(alloc: Global, client: &Client, query: &Query) -> Result<TraceLines, NoMemory>
    requires stands { Stands client.now }
    requires few { client.now.store.limits.regions ≤ 1024 }
    requires meant { (meaning : TheQuery) × IsMeaning client.now.schema query.now meaning }
    ensures { (meaning : TheQuery) → IsMeaning client.now.schema query.now meaning → IfOk result (AreLinesFor client.now (Ok meaning)) }
{
    let explanation = client.explain(alloc, query)?;
    lines_of_explain(alloc, 1, &explanation)
}
