//! The statements of the exec file.
ghost use Rattle.std.specs.Prelude.{◌≡◌, ◌+◌, ◌<◌, ◌≤◌, ◌^◌, ◌∷◌, [], codes, decimal, length, string_bytes, true, IfOk, OnErr};
ghost use Rattle.sr_log.specs.Held.{newest as newest_of};
ghost use Rattle.sr_script.specs.TraceText.{ended, fault_words};
ghost use Rattle.sr_session.specs.Sessions.{Database};
ghost use Rattle.sr_server.specs.Servers.{IsServer, StandsForSome};
ghost use Rattle.sr_talk.specs.Rounds.{OnlyOutput};
ghost use Rattle.sr_serve.specs.Execs.{Executed, ExecutesAs, ExecutesInPart};

use sr_cell::fault::Fault;
use sr_cell::list::{No, NoMemory};
use sr_cell::text::Text;
use sr_io::outside::Sink;
use sr_io::whole::write_all;
use sr_script::words::why_word;
use sr_server::server::Server;
use std::alloc::Global;
use std::fmt::Write;

/// The line of a statement that made this version.
fn version_line(alloc: Global, version: u64) -> Result<String, NoMemory>
    ensures { IfOk result (λ line. string_bytes line ≡ ended (codes "exec" ∷ codes "version" ∷ decimal version ∷ [])) }
{
    Ok(format!(in alloc; "exec version {version}\n")?)
}

/// The line of a statement that was refused.
fn refused_line(alloc: Global, fault: Fault) -> Result<String, NoMemory>
    ensures { IfOk result (λ line. string_bytes line ≡ ended (codes "exec" ∷ codes "refused" ∷ fault_words fault)) }
{
    let why = why_word(fault.why);
    Ok(format!(in alloc; "exec refused {why} {}\n", fault.at)?)
}

/// Carries out a statement, or refuses it, and answers its line.
fn exec_one(alloc: Global, server: &mut Server, text: &str) -> Result<String, NoMemory>
    requires stands { StandsForSome server.old }
    requires number { newest_of server.old.log + 1 < 2 ^ 63 }
    ensures done { (db : Database) → IsServer server.old db → IfOk result (λ line. Executed db text.now (string_bytes line) server.new) }
    ensures sessions { server.new.sessions ≡ server.old.sessions }
    ensures grows { newest_of server.new.log ≤ newest_of server.old.log + 1 }
{
    match server.exec_text(alloc, text) {
        Ok(version) => version_line(alloc, version),
        Err(No::Refused(fault)) => refused_line(alloc, fault),
        Err(No::NoMemory) => Err(NoMemory),
    }
}

/// Carries out the statements one after another, and writes the line of each once it is done. False where a line is not written;
/// the statements behind it are not looked at.
pub(crate) fn exec_all<K: Sink>(
    alloc: Global,
    sink: &mut K,
    server: &mut Server,
    texts: &[Text],
) -> Result<bool, NoMemory>
    requires stands { StandsForSome server.old }
    requires number { newest_of server.old.log + length texts.now < 2 ^ 63 }
    ensures done { (db : Database) → IsServer server.old db
        → IfOk result (λ all. ExecutesAs all db texts.now (K.writing sink.old) (K.writing sink.new) server.new) }
    ensures in_part { (db : Database) → IsServer server.old db → OnErr result (ExecutesInPart db texts.now (K.writing sink.old) (K.writing sink.new)) }
    ensures sessions { server.new.sessions ≡ server.old.sessions }
    ensures grows { newest_of server.new.log ≤ newest_of server.old.log + length texts.now }
    ensures stays { OnlyOutput K K.reading K.held K.complaints K.IsSteady sink.old sink.new }
    ensures linking_stays { K.linking sink.new ≡ K.linking sink.old }
    ensures steady_writes { K.IsSteady sink.old → IfOk result (λ all. all ≡ true) }
{
    for at in 0..texts.len() {
        let line = exec_one(alloc, server, texts[at].as_str())?;
        match write_all(sink, line.as_bytes()) {
            Ok(()) => {}
            Err(No::Refused(_)) => return Ok(false),
            Err(No::NoMemory) => return Err(NoMemory),
        }
    }
    Ok(true)
}
