//! A run of a client over a plan.
ghost use Rattle.std.specs.Prelude.{◌≡◌, ◌≢◌, ◌≤◌, ◌+◌, ◌*◌, true, None, IfOk, OnErr};
ghost use Rattle.sr_session.specs.Clients.{Client as Past};
ghost use Rattle.sr_client.specs.Stands.{StandsFor};
ghost use Rattle.sr_links.specs.Steps.{Resumed};
ghost use Rattle.sr_plan.specs.Plans.{Next};
ghost use Rattle.sr_dial.specs.Calls.{Do};
ghost use Rattle.sr_dial.specs.Following.{Ahead};
ghost use Rattle.sr_dial.specs.declared.ending.Ending.TheVariants.{Unwritten};
ghost use Rattle.sr_talk.specs.Rounds.{OnlyOutput};
ghost use Rattle.sr_calls.specs.ClientEnds.{room_of, setting_of};
ghost use Rattle.sr_calls.specs.Runs.{RanOff, RanSteadilyFrom};

use crate::client_end::ClientEnd;
use sr_cell::list::NoMemory;
use sr_cell::table::Table;
use sr_dial::ending::Ending;
use sr_dial::plans::Plans;
use sr_dial::run::run;
use sr_io::outside::Host;
use std::alloc::Global;

/// Runs a plan as a client whose link is cut, over a link to the server at this address: resumes first, and then does what the plan asks,
/// each job until nothing is out. The tables are the client's own. The client is left as its steps leave it.
pub fn run_plan<H: Host, P: Plans>(
    alloc: Global,
    host: &mut H,
    end: &mut ClientEnd,
    schema: &[Table],
    address: &str,
    plans: &mut P,
) -> Result<Ending, NoMemory>
    requires schema { schema.now ≡ end.old.client.schema }
    requires asks { (ahead : Ahead) × P.follows schema.now plans.old ahead }
    requires room { 4000004 * (P.depth plans.old + 1) ≤ room_of end.old.client }
    requires fresh { end.old.answer ≡ None }
    ensures ran { (past : Past) (ahead : Ahead) → StandsFor past end.old.client → past.cut ≡ true → past.out ≡ None
        → P.follows schema.now plans.old ahead
        → IfOk result (λ ended. RanSteadilyFrom (H.IsSteady host.old) end.old past address.now (Next 0 (Do Resumed) ahead) ended
        (H.linking host.old) (H.linking host.new) (H.writing host.old) (H.writing host.new) end.new) }
    ensures broken_off { (past : Past) (ahead : Ahead) → StandsFor past end.old.client → past.cut ≡ true → past.out ≡ None
        → P.follows schema.now plans.old ahead
        → OnErr result (RanOff end.old past address.now (Next 0 (Do Resumed) ahead)
        (H.linking host.old) (H.linking host.new) (H.writing host.old) (H.writing host.new)) }
    ensures setting { setting_of end.new ≡ setting_of end.old }
    ensures stays { OnlyOutput H H.reading H.held H.complaints H.IsSteady host.old host.new }
    ensures steady_writes { H.IsSteady host.old → IfOk result (λ ended. ended ≢ Unwritten) }
{
    let id = end.client().id;
    run(alloc, host, end, schema, id, address, plans)
}
