//! The replay of a script.
ghost use Rattle.std.specs.Prelude.{◌≡◌, ℕ, ◌+◌, ◌*◌, ◌<◌, ◌≤◌, ◌^◌, ◌⊎◌, nat_lt, List, [], ◌∷◌, length, string_bytes, Ok, Some, None, IsTrue, IfOk, OnOk, OnErr, IsErrOf};
ghost use Rattle.std.specs.List.{list_all, AllZip};
ghost use Rattle.sr_lines.specs.Events.{ScriptEvent};
ghost use Rattle.sr_cell.specs.declared.fault.Fault.{Fault as TheFault};
ghost use Rattle.sr_cell.specs.declared.list.No.TheVariants.{Refused, NoMemory as Wanting};
ghost use Rattle.sr_lines.specs.Lines.{lines_of};
ghost use Rattle.sr_lines.specs.Script.{FirstRefused, LinePlace as TheLinePlace};
ghost use Rattle.sr_lines.specs.Creates.{Creates};
ghost use Rattle.sr_query.specs.Bound.{is_table};
ghost use Rattle.sr_reader.specs.Lined.{AreLines};
ghost use Rattle.sr_reader.specs.Read.{Fits, IsEventLine, IsRead, event_fits};
ghost use Rattle.sr_server.specs.Servers.{IsClientNumber};
ghost use Rattle.sr_tables.specs.Stored.{no_rows};
ghost use Rattle.sr_load.specs.Filling.{filled};
ghost use Rattle.sr_io.specs.Causes.{Rose};
ghost use Rattle.sr_world.specs.declared.replay.RunFault.{RunFault as TheRunFault};
ghost use Rattle.sr_world.specs.declared.replay.RunFault.TheVariants.{WriteFault, Line, Setup, Load as LoadRefused};
ghost use Rattle.sr_world.specs.Worlds.{IsWorld, SameSetting, drawn, most_drawn};
ghost use Rattle.sr_world.specs.Replay.{RefusesLoad, Wrote, WrotePart, outside};
ghost use Rattle.sr_world.specs.Refused.{IsSetupFault};
ghost use Rattle.sr_world.specs.Ran.{Ran, RanWhole, RanPart, TracedWhole, TracedPart, Stays};

use crate::world::{Options, World};
use sr_cell::fault::Fault;
use sr_cell::list::{No, NoMemory};
use sr_cell::text::Text;
use sr_io::outside::{Failed, Sink};
use sr_io::whole::write_all;
use sr_load::fill::{Load, LoadFault, fill};
use sr_reader::events::read_events;
use sr_reader::head::created;
use sr_reader::lines::{Lines, read_lines};
use sr_reader::script::{EventLine, EventLines};
use sr_script::text::lines_text;
use sr_tables::tables::Tables;
use std::alloc::Global;

/// Why a replay was refused.
#[derive(Drop)]
pub enum RunFault {
    /// A call of the sink failed.
    WriteFault,
    /// The line is the first that is outside the grammar, counted from 1, and the place of its fault in bytes.
    Line { line: u64, place: u32 },
    /// The line is the first CREATE line that is refused, counted from 1, and why. No line is outside the grammar.
    Setup { line: u64, fault: Fault },
    /// The file for the table of this name is the first that is refused, and why. No line is outside the grammar, and no CREATE line
    /// is refused.
    Load { table: Text, fault: Fault },
}

/// The tables of a script before its first event, and its events.
#[derive(Drop)]
struct Prepared {
    tables: Tables,
    events: EventLines,
}

/// Replays a script over tables with the rows of the files, in a world that is set up as the options say: judges its lines, runs its
/// events in their order and writes the trace. Answers the world at the end.
pub fn replay<K: Sink>(
    alloc: Global,
    options: Options,
    script: &[u8],
    loads: &[Load],
    sink: &mut K,
) -> Result<World, No<RunFault>>
    requires clients { IsClientNumber options.clients }
    requires regions { options.limits.regions ≤ 1024 }
    requires script { length script.now < 2 ^ 32 }
    requires loads { IsTrue (list_all (λ load. nat_lt (length load.bytes) (2 ^ 32)) loads.now) }
    ensures whole { IfOk result (Wrote (K.writing sink.old).written (K.writing sink.new).written options script.now loads.now) }
    ensures part_after_fault { IsErrOf result (Refused WriteFault)
        → WrotePart (K.writing sink.old).written (K.writing sink.new).written options script.now loads.now }
    ensures part_in_want { IsErrOf result Wanting → (K.writing sink.new ≡ K.writing sink.old)
        ⊎ WrotePart (K.writing sink.old).written (K.writing sink.new).written options script.now loads.now }
    ensures line { (line place : ℕ) → IsErrOf result (Refused (Line line place))
        → outside options.clients script.now ≡ Some (record { line = line; place = place }) }
    ensures line_first { (at : TheLinePlace) → outside options.clients script.now ≡ Some at → IsErrOf result (Refused (Line at.line at.place))
        ⊎ IsErrOf result Wanting }
    ensures line_writes_nothing { (line place : ℕ) → IsErrOf result (Refused (Line line place)) → K.writing sink.new ≡ K.writing sink.old }
    ensures setup { (line : ℕ) (fault : TheFault) → IsErrOf result (Refused (Setup line fault))
        → FirstRefused options.clients 1 [] (lines_of script.now) line fault }
    ensures setup_writes_nothing { (line : ℕ) (fault : TheFault) → IsErrOf result (Refused (Setup line fault)) → K.writing sink.new ≡ K.writing sink.old }
    ensures load { (table : List ℕ) (fault : TheFault) → IsErrOf result (Refused (LoadRefused table fault))
        → RefusesLoad options.clients script.now loads.now table fault }
    ensures load_writes_nothing { (table : List ℕ) (fault : TheFault) → IsErrOf result (Refused (LoadRefused table fault))
        → K.writing sink.new ≡ K.writing sink.old }
    ensures write_fault_is_counted { IsErrOf result (Refused WriteFault) → Rose (K.writing sink.old).faults (K.writing sink.new).faults }
    ensures faults_never_fall { (K.writing sink.old).faults ≤ (K.writing sink.new).faults }
    ensures ok_keeps_faults { OnOk result ((K.writing sink.new).faults ≡ (K.writing sink.old).faults) }
    ensures want_keeps_faults { IsErrOf result Wanting → (K.writing sink.new).faults ≡ (K.writing sink.old).faults }
    ensures stays_steady { K.IsSteady sink.old → K.IsSteady sink.new }
    ensures steady_never_faults { K.IsSteady sink.old → ¬ IsErrOf result (Refused WriteFault) }
    ensures held_stays { K.held sink.new ≡ K.held sink.old }
    ensures reading_stays { K.reading sink.new ≡ K.reading sink.old }
    ensures linking_stays { K.linking sink.new ≡ K.linking sink.old }
    ensures complaints_stay { K.complaints sink.new ≡ K.complaints sink.old }
{
    let Prepared { tables, events } = match prepare(alloc, options.clients, script, loads) {
        Ok(prepared) => prepared,
        Err(no) => return Err(no),
    };
    match run_script(alloc, options, events, tables, sink) {
        Ok(world) => Ok(world),
        Err(No::Refused(_)) => Err(No::Refused(RunFault::WriteFault)),
        Err(No::NoMemory) => Err(No::NoMemory),
    }
}

/// Judges the lines of a script, and makes its tables with the rows of the files.
fn prepare(
    alloc: Global,
    clients: u8,
    script: &[u8],
    loads: &[Load],
) -> Result<Prepared, No<RunFault>>
    requires script { length script.now < 2 ^ 32 }
    requires loads { IsTrue (list_all (λ load. nat_lt (length load.bytes) (2 ^ 32)) loads.now) }
    ensures inside { OnOk result (outside clients script.now ≡ None) }
    ensures read { IfOk result (λ prepared. IsRead clients script.now (record { schema = prepared.tables.schema; lines = prepared.events })) }
    ensures fits { IfOk result (λ prepared. Fits clients (record { schema = prepared.tables.schema; lines = prepared.events })) }
    ensures filled { IfOk result (λ prepared. filled prepared.tables.schema loads.now (no_rows prepared.tables.schema) ≡ Ok prepared.tables.rows) }
    ensures line { (line place : ℕ) → IsErrOf result (Refused (Line line place)) → outside clients script.now ≡ Some (record { line = line; place = place }) }
    ensures line_first { (at : TheLinePlace) → outside clients script.now ≡ Some at → IsErrOf result (Refused (Line at.line at.place))
        ⊎ IsErrOf result Wanting }
    ensures setup { (line : ℕ) (fault : TheFault) → IsErrOf result (Refused (Setup line fault)) → FirstRefused clients 1 [] (lines_of script.now) line fault }
    ensures load { (table : List ℕ) (fault : TheFault) → IsErrOf result (Refused (LoadRefused table fault))
        → RefusesLoad clients script.now loads.now table fault }
    ensures writes_nothing { ¬ IsErrOf result (Refused WriteFault) }
{
    let lines = match read_lines(alloc, clients, script) {
        Ok(lines) => lines,
        Err(No::Refused(at)) => {
            return Err(No::Refused(RunFault::Line {
                line: at.line,
                place: at.place,
            }));
        }
        Err(No::NoMemory) => return Err(No::NoMemory),
    };
    let tables = match fill_tables(alloc, &lines, loads) {
        Ok(tables) => tables,
        Err(no) => return Err(no),
    };
    match read_events(alloc, tables.schema(), &lines) {
        Ok(events) => Ok(Prepared { tables, events }),
        Err(_) => Err(No::NoMemory),
    }
}

/// The tables of the CREATE lines with the rows of the files; or the first CREATE line that is refused, or else the first file.
fn fill_tables(alloc: Global, lines: &Lines<'_>, loads: &[Load]) -> Result<Tables, No<RunFault>>
    requires lines { (clients : ℕ) × (script : List ℕ) × AreLines clients script lines.now }
    requires loads { IsTrue (list_all (λ load. nat_lt (length load.bytes) (2 ^ 32)) loads.now) }
    ensures created { (clients : ℕ) (script : List ℕ) → AreLines clients script lines.now
        → IfOk result (λ tables. Creates clients [] (lines_of script) tables.schema) }
    ensures sound { IfOk result (λ tables. IsTrue (list_all is_table tables.schema)) }
    ensures accepts { (clients : ℕ) (script : List ℕ) → AreLines clients script lines.now
        → OnOk result ((line : ℕ) (fault : TheFault) → FirstRefused clients 1 [] (lines_of script) line fault → ⊥) }
    ensures filled { IfOk result (λ tables. filled tables.schema loads.now (no_rows tables.schema) ≡ Ok tables.rows) }
    ensures refused { (clients : ℕ) (script : List ℕ) → AreLines clients script lines.now → (fault : TheRunFault) → IsErrOf result (Refused fault)
        → IsSetupFault clients script loads.now fault }
{
    let schema = match created(alloc, lines) {
        Ok(schema) => schema,
        Err(No::Refused(refused)) => {
            return Err(No::Refused(RunFault::Setup {
                line: refused.number,
                fault: refused.fault,
            }));
        }
        Err(No::NoMemory) => return Err(No::NoMemory),
    };
    match fill(alloc, schema, loads) {
        Ok(tables) => Ok(tables),
        Err(No::Refused(LoadFault { table, fault })) => {
            Err(No::Refused(RunFault::Load { table, fault }))
        }
        Err(No::NoMemory) => Err(No::NoMemory),
    }
}

/// Runs the events of a script that was read, over its tables.
fn run_script<K: Sink>(
    alloc: Global,
    options: Options,
    lines: EventLines,
    tables: Tables,
    sink: &mut K,
) -> Result<World, No<Failed>>
    requires clients { IsClientNumber options.clients }
    requires regions { options.limits.regions ≤ 1024 }
    requires fits { Fits options.clients (record { schema = tables.schema; lines = lines }) }
    requires events { (events : List (ℕ × ScriptEvent)) × AllZip (IsEventLine tables.schema) lines events }
    requires few { length lines < 2 ^ 32 }
    ensures whole { (events : List (ℕ × ScriptEvent)) → AllZip (IsEventLine tables.schema) lines events
        → IfOk result (λ world. TracedWhole options tables.schema tables.rows events world (K.writing sink.old).written (K.writing sink.new).written) }
    ensures part { (events : List (ℕ × ScriptEvent)) → AllZip (IsEventLine tables.schema) lines events
        → OnErr result (TracedPart options tables.schema tables.rows events (K.writing sink.old).written (K.writing sink.new).written) }
    ensures faults_never_fall { (K.writing sink.old).faults ≤ (K.writing sink.new).faults }
    ensures ok_keeps_faults { OnOk result ((K.writing sink.new).faults ≡ (K.writing sink.old).faults) }
    ensures want_keeps_faults { IsErrOf result Wanting → (K.writing sink.new).faults ≡ (K.writing sink.old).faults }
    ensures failed_is_counted { IsErrOf result (Refused record {}) → Rose (K.writing sink.old).faults (K.writing sink.new).faults }
    ensures steady_never_fails { K.IsSteady sink.old → ¬ IsErrOf result (Refused record {}) }
    ensures stays { Stays K K.reading K.linking K.held K.complaints K.IsSteady sink.old sink.new }
{
    let mut world = match World::new(alloc, options, tables) {
        Ok(world) => world,
        Err(_) => return Err(No::NoMemory),
    };
    match run_events(alloc, &mut world, lines, sink) {
        Ok(()) => Ok(world),
        Err(no) => Err(no),
    }
}

/// Runs the events of the lines.
fn run_events<K: Sink>(
    alloc: Global,
    world: &mut World,
    lines: EventLines,
    sink: &mut K,
) -> Result<(), No<Failed>>
    requires world { IsWorld world.old }
    requires fits { IsTrue (list_all (λ line. event_fits (length world.old.seats.items) world.old.server.tables.schema line.event) lines) }
    requires events { (events : List (ℕ × ScriptEvent)) × AllZip (IsEventLine world.old.server.tables.schema) lines events }
    requires room { drawn world.old + length lines * most_drawn < 2 ^ 63 }
    ensures whole { (events : List (ℕ × ScriptEvent)) → AllZip (IsEventLine world.old.server.tables.schema) lines events
        → OnOk result (RanWhole world.old.eager world.old.server.tables.schema events world.old world.new
        (K.writing sink.old).written (K.writing sink.new).written) }
    ensures part { (events : List (ℕ × ScriptEvent)) → AllZip (IsEventLine world.old.server.tables.schema) lines events
        → OnErr result (RanPart world.old.eager world.old.server.tables.schema events world.old (K.writing sink.old).written (K.writing sink.new).written) }
    ensures faults_never_fall { (K.writing sink.old).faults ≤ (K.writing sink.new).faults }
    ensures ok_keeps_faults { OnOk result ((K.writing sink.new).faults ≡ (K.writing sink.old).faults) }
    ensures want_keeps_faults { IsErrOf result Wanting → (K.writing sink.new).faults ≡ (K.writing sink.old).faults }
    ensures failed_is_counted { IsErrOf result (Refused record {}) → Rose (K.writing sink.old).faults (K.writing sink.new).faults }
    ensures steady_never_fails { K.IsSteady sink.old → ¬ IsErrOf result (Refused record {}) }
    ensures stays { Stays K K.reading K.linking K.held K.complaints K.IsSteady sink.old sink.new }
{
    for line in lines.into_vec() {
        let text = match event_text(alloc, world, line) {
            Ok(text) => text,
            Err(_) => return Err(No::NoMemory),
        };
        match write_all(sink, text.as_bytes()) {
            Ok(()) => {}
            Err(no) => return Err(no),
        }
    }
    Ok(())
}

/// What the event of a line does, as the text of its lines.
fn event_text(alloc: Global, world: &mut World, line: EventLine) -> Result<String, NoMemory>
    requires world { IsWorld world.old }
    requires fits { IsTrue (event_fits (length world.old.seats.items) world.old.server.tables.schema line.event) }
    requires means { (event : ℕ × ScriptEvent) × IsEventLine world.old.server.tables.schema line event }
    requires room { drawn world.old + most_drawn < 2 ^ 63 }
    ensures ran { (event : ℕ × ScriptEvent) → IsEventLine world.old.server.tables.schema line event
        → IfOk result (λ text. Ran world.old.eager world.old.server.tables.schema (event ∷ []) world.old world.new (string_bytes text)) }
    ensures world { IsWorld world.new }
    ensures drawn { OnOk result (drawn world.new ≤ drawn world.old + most_drawn) }
    ensures setting { SameSetting world.old world.new }
{
    let EventLine { number, event } = line;
    let lines = world.step(alloc, event)?;
    let schema = world.server.tables.schema();
    lines_text(alloc, schema.as_slice(), number, lines.as_slice())
}
