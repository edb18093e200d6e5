//! How a client begins a session anew.
ghost use Rattle.std.specs.Prelude.{◌≡◌, ◌+◌, ◌<◌, ◌≤◌, ◌^◌, length, map, IfOk, OnOk, OnErr};
ghost use Rattle.sr_client.specs.Sends.{IsOfFormat, ResumeSendsWell, SendsFirst, first_of};
ghost use Rattle.sr_client.specs.Stands.{Stands, Stays, drawn};
ghost use Rattle.sr_client.specs.Steps.{Resumes};
ghost use Rattle.sr_session.specs.Resumable.{region_holding};

use crate::client::{Client, Request};
use crate::steps::ResumeStep;
use sr_cell::list::{Copied, NoMemory, Seq};
use sr_message::message::{Holding, Holdings, Message};
use sr_region::region::Region;
use std::alloc::Global;

impl Client {
    /// Begins a session over a cut link: a Hello where nothing is held, else a Resume of the client's version with all points that
    /// are held, under their columns. Nothing is done where the link is not cut, nor when memory ran out.
    pub fn resume(&mut self, alloc: Global) -> Result<ResumeStep, NoMemory>
        requires stands { Stands self.old }
        requires room { drawn self.old + 2 < 2 ^ 63 }
        ensures resumes { IfOk result (Resumes self.old self.new) }
        ensures first { IfOk result (SendsFirst self.old) }
        ensures stands { Stands self.new }
        ensures version { self.new.version ≡ self.old.version }
        ensures held { self.new.store ≡ self.old.store }
        ensures cuts { self.new.cuts ≡ self.old.cuts }
        ensures unchanged { OnErr result (self.new ≡ self.old) }
        ensures sends { IsOfFormat self.old → IfOk result (ResumeSendsWell self.old.schema self.old.id) }
        ensures stays { Stays self.old self.new }
        ensures drawn { drawn self.new ≤ drawn self.old + 2 }
    {
        if !self.cut {
            return Ok(ResumeStep::Up);
        }
        let request = self.next_request;
        let message = first_of(alloc, self)?;
        self.next_request = request + 1;
        self.set_out(Some(Request::Resume { number: request }));
        self.cut = false;
        Ok(ResumeStep::Sent { request, message })
    }
}

/// The version of the format that a client speaks.
const WIRE: u8 = 2;

/// The most tables of a schema.
const MOST_TABLES: usize = 16;

/// The first message of the client's next session.
fn first_of(alloc: Global, client: &Client) -> Result<Message, NoMemory>
    ensures first { IfOk result (λ message. message ≡ first_of client.now client.now.store.regions) }
    ensures few { OnOk result (length client.now.schema ≤ 16) }
{
    // a schema has no more tables, which its type keeps to itself
    if client.schema.len() > MOST_TABLES {
        return Err(NoMemory);
    }
    let regions = client.store.regions.as_slice();
    if regions.is_empty() {
        return Ok(Message::Hello {
            wire: WIRE,
            client: client.id,
            number: client.next_request,
        });
    }
    Ok(Message::Resume {
        wire: WIRE,
        client: client.id,
        number: client.next_request,
        version: client.version,
        holdings: holdings_of(alloc, regions)?,
    })
}

/// The points of regions, under their columns.
fn holdings_of(alloc: Global, regions: &[Region]) -> Result<Holdings, NoMemory>
    ensures { IfOk result (λ holdings. holdings ≡ map region_holding regions.now) }
{
    let mut holdings = Seq::new(alloc);
    for region in regions {
        holdings.push(Holding {
            table: region.table,
            attrs: region.attrs,
            rects: region.rects.copy(alloc)?,
        })?;
    }
    Ok(holdings)
}
