//! What a client does when its link is cut.
ghost use Rattle.std.specs.Prelude.{◌≡◌, ◌<◌, ◌≤◌, ◌+◌, ◌^◌};
ghost use Rattle.sr_client.specs.Stands.{Stands, Stays, drawn};
ghost use Rattle.sr_client.specs.Steps.{Cuts, ended_of};

use crate::client::{Client, Request};
use crate::laid::Laid;
use crate::steps::{CutStep, Ended};
use std::alloc::Global;

impl Client {
    /// Ends the request that is out, and gives up what was laid by; takes no memory. What is held stays, and the version. Where the
    /// link is cut already nothing is done.
    pub fn cut(&mut self, alloc: Global) -> CutStep
        requires stands { Stands self.old }
        requires room { self.old.cuts < 2 ^ 63 }
        ensures cuts { Cuts self.old self.new result }
        ensures version { self.new.version ≡ self.old.version }
        ensures held { self.new.store ≡ self.old.store }
        ensures stays { Stays self.old self.new }
        ensures drawn { drawn self.new ≡ drawn self.old }
        ensures once { self.new.cuts ≤ self.old.cuts + 1 }
    {
        if self.cut {
            return CutStep::Already { number: self.cuts };
        }
        let ended = ended_of(&self.out);
        self.set_out(None);
        self.laid = Laid::new(alloc);
        self.cut = true;
        self.cuts += 1;
        CutStep::Cut {
            number: self.cuts,
            ended,
        }
    }
}

/// What ends with the request that is out.
fn ended_of(out: &Option<Request>) -> Ended
    ensures { result ≡ ended_of out.now }
{
    match out {
        None => Ended::Nothing,
        Some(Request::Ask(ask)) => Ended::Query(ask.query_number),
        Some(Request::Write { number }) => Ended::Write(*number),
        Some(Request::Resume { number }) => Ended::Resume(*number),
    }
}
