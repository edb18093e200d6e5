//! What a client does with a write.
ghost use Rattle.std.specs.Prelude.{◌≡◌, ◌+◌, ◌<◌, ◌≤◌, ◌^◌, length, Ok, IfOk, OnErr};
ghost use Rattle.sr_session.specs.Texts.{most_text, long_text};
ghost use Rattle.sr_client.specs.declared.steps.WriteStep.TheVariants.{Sql};
ghost use Rattle.sr_client.specs.Sends.{WriteSendsWell};
ghost use Rattle.sr_client.specs.Stands.{Stands, Stays, drawn};
ghost use Rattle.sr_client.specs.Steps.{Writes};

use crate::client::{Client, Request};
use crate::steps::WriteStep;
use sr_cell::fault::{Fault, Why};
use sr_cell::list::NoMemory;
use sr_cell::text::Text;
use sr_message::message::Message;
use std::alloc::Global;

/// The most bytes of the text of a write.
const MOST_TEXT: u32 = 65_536;

impl Client {
    /// Sends the text of a write as it is, for the server to judge. A text of more than 65,536 bytes is refused before all else.
    /// Nothing is done while a request is out, or over a cut link, nor when memory ran out.
    pub fn write(&mut self, alloc: Global, sql: &str) -> Result<WriteStep, NoMemory>
        requires stands { Stands self.old }
        requires room { drawn self.old + 2 < 2 ^ 63 }
        ensures too_long { most_text < length sql.now → (result ≡ Ok (Sql long_text)) × (self.new ≡ self.old) }
        ensures writes { length sql.now ≤ most_text → IfOk result (Writes self.old sql.now self.new) }
        ensures stands { Stands self.new }
        ensures version { self.new.version ≡ self.old.version }
        ensures held { self.new.store ≡ self.old.store }
        ensures cuts { self.new.cuts ≡ self.old.cuts }
        ensures unchanged { OnErr result (self.new ≡ self.old) }
        ensures sends { IfOk result (WriteSendsWell self.old.schema self.old.id) }
        ensures stays { Stays self.old self.new }
        ensures drawn { drawn self.new ≤ drawn self.old + 2 }
    {
        if sql.len() > MOST_TEXT as usize {
            return Ok(WriteStep::Sql(Fault {
                why: Why::LongText,
                at: MOST_TEXT,
            }));
        }
        if let Some(request) = &self.out {
            return Ok(WriteStep::Busy {
                request: request.number(),
            });
        }
        if self.cut {
            return Ok(WriteStep::Down { cut: self.cuts });
        }
        let request = self.next_request;
        let message = Message::Write {
            number: request,
            sql: Text::of(alloc, sql)?,
        };
        self.next_request = request + 1;
        self.set_out(Some(Request::Write { number: request }));
        Ok(WriteStep::Sent { request, message })
    }
}
