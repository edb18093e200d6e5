//! What the steps of a client leave to be told and to be sent.
ghost use Rattle.std.specs.Prelude.{◌≡◌, [], None, Some};
ghost use Rattle.sr_handle.specs.declared.said.Said.TheVariants.{Answered, Sent};
ghost use Rattle.sr_handle.specs.Leaving.{left_of_asked, left_of_query, left_of_took, left_of_write, left_of_resume, left_of_evict, said_of_cut};

use crate::said::Said;
use sr_cell::cell::Rows;
use sr_cell::fault::Fault;
use sr_cell::list::Seq;
use sr_client::steps::{CutStep, EvictStep, QueryStep, ResumeStep, Took, WriteStep};
use sr_message::message::Message;
use std::alloc::Global;

/// What a step says, the message that is to be sent, and the rows of an answer.
#[derive(Drop)]
pub struct Left {
    pub said: Said,
    pub sent: Option<Message>,
    pub rows: Rows,
}

/// Nothing is to be sent, and there is no answer.
pub fn quiet(alloc: Global, said: Said) -> Left
    ensures { result ≡ record { said = said; sent = None; rows = [] } }
{
    Left {
        said,
        sent: None,
        rows: Seq::new(alloc),
    }
}

fn sending(alloc: Global, request: u64, message: Message) -> Left
    ensures { result ≡ record { said = Sent request; sent = Some message; rows = [] } }
{
    Left {
        said: Said::Sent { request },
        sent: Some(message),
        rows: Seq::new(alloc),
    }
}

fn answered(query: u64, version: u64, rows: Rows) -> Left
    ensures { result ≡ record { said = Answered query version; sent = None; rows = rows } }
{
    Left {
        said: Said::Answered { query, version },
        sent: None,
        rows,
    }
}

/// What the step of a query leaves.
fn left_of_query(alloc: Global, step: QueryStep) -> Left
    ensures { result ≡ left_of_query step }
{
    match step {
        QueryStep::Answered {
            query,
            version,
            rows,
            ..
        } => answered(query, version, rows),
        QueryStep::Asked {
            request,
            message,
            ..
        } => sending(alloc, request, message),
        QueryStep::Busy { request } => quiet(alloc, Said::Busy { request }),
        QueryStep::Down { cut } => quiet(alloc, Said::Down { cut }),
    }
}

/// What the text of a query leaves, which may be refused.
pub fn left_of_asked(alloc: Global, step: Result<QueryStep, Fault>) -> Left
    ensures { result ≡ left_of_asked step }
{
    match step {
        Ok(step) => left_of_query(alloc, step),
        Err(fault) => quiet(alloc, Said::Sql(fault)),
    }
}

/// What a message leaves that was taken or refused.
pub fn left_of_took(alloc: Global, took: Took) -> Left
    ensures { result ≡ left_of_took took }
{
    match took {
        Took::Laid => quiet(alloc, Said::Laid),
        Took::Applied { version, .. } => quiet(alloc, Said::Applied { version }),
        Took::Forgot { version, .. } => quiet(alloc, Said::Forgot { version }),
        Took::Answered {
            query,
            version,
            rows,
            ..
        } => answered(query, version, rows),
        Took::Asked {
            request,
            message,
            ..
        } => sending(alloc, request, message),
        Took::Written {
            request,
            version,
            ..
        } => quiet(alloc, Said::Written { request, version }),
        Took::Refused { request, fault, .. } => quiet(alloc, Said::Refused { request, fault }),
        Took::Welcomed { version, kept, .. } => quiet(alloc, Said::Welcomed { version, kept }),
        Took::Bad(why) => quiet(alloc, Said::Bad(why)),
    }
}

/// What the step of a write leaves.
pub fn left_of_write(alloc: Global, step: WriteStep) -> Left
    ensures { result ≡ left_of_write step }
{
    match step {
        WriteStep::Sent { request, message } => sending(alloc, request, message),
        WriteStep::Sql(fault) => quiet(alloc, Said::Sql(fault)),
        WriteStep::Busy { request } => quiet(alloc, Said::Busy { request }),
        WriteStep::Down { cut } => quiet(alloc, Said::Down { cut }),
    }
}

/// What the step of a resume leaves.
pub fn left_of_resume(alloc: Global, step: ResumeStep) -> Left
    ensures { result ≡ left_of_resume step }
{
    match step {
        ResumeStep::Sent { request, message } => sending(alloc, request, message),
        ResumeStep::Up => quiet(alloc, Said::Up),
    }
}

/// What the step of an eviction leaves.
pub fn left_of_evict(alloc: Global, step: EvictStep) -> Left
    ensures { result ≡ left_of_evict step }
{
    match step {
        EvictStep::Dropped(_) => quiet(alloc, Said::Dropped),
        EvictStep::Busy { request } => quiet(alloc, Said::Busy { request }),
        EvictStep::NoSuch { count } => quiet(alloc, Said::NoSuch { count }),
    }
}

/// What the step of a cut says.
pub fn said_of_cut(step: CutStep) -> Said
    ensures { result ≡ said_of_cut step }
{
    match step {
        CutStep::Cut { number, .. } => Said::Cut { number },
        CutStep::Already { number } => Said::AlreadyCut { number },
    }
}
