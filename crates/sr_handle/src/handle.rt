//! A client with what its last call left: the bytes to send, the rows of an answer, the lines of an explanation.
ghost use Rattle.std.specs.Prelude.{◌≡◌, ◌≤◌, ◌++◌, length, IfOk, OnOk, OnErr, option_to_list, IsTrue};
ghost use Rattle.std.specs.List.{list_all, All};
ghost use Rattle.sr_query.specs.Bound.{is_table};
ghost use Rattle.sr_wire.specs.Limits.{IsSendable};
ghost use Rattle.sr_handle.specs.Handles.{Asked, Began, Dropped, Explained, IsCut, IsFront, Keeps, KeepsLines, KeepsRest, Took, TookFront, Wrote, bytes_of, new_handle};
ghost use Rattle.sr_handle.specs.Packed.{packed_rows};
ghost use Rattle.sr_handle.specs.Showing.{cell_at, copied, kind_of, number_of, text_of};
ghost use Rattle.sr_handle.specs.Telling.{IsFew};

use crate::left::{
    Left, left_of_asked, left_of_evict, left_of_resume, left_of_took, left_of_write, quiet,
    said_of_cut,
};
use crate::pack::pack_rows;
use crate::said::{Said, Stop};
use crate::seat::Seat;
use crate::show::{cell_at, copy_out, kind_of};
use crate::tell::{explained_text, said_of_explained};
use sr_cell::cell::{Cell, Rows};
use sr_cell::fault::Fault;
use sr_cell::list::{Bytes, NoMemory, Seq};
use sr_cell::schema::Schema;
use sr_explain::explanation::Explanation;
use sr_feed::feed::Feed;
use sr_message::message::Message;
use sr_policy::policy::Limits;
use sr_wire::encode::encode;
use sr_wire::wire_fault::WireFault;
use std::alloc::Global;
use std::str;

/// A client, the bytes that came and are not read yet, and what its last call left: the bytes to send and the rows of its answer.
#[derive(Drop)]
pub struct Handle {
    pub seat: Seat,
    pub feed: Feed,
    pub sent: Bytes,
    pub rows: Rows,
    pub text: Bytes,
}

impl Handle {
    /// A client to which nothing has happened, and whose link is down.
    pub fn new(alloc: Global, id: u8, schema: Schema, limits: Limits) -> Result<Handle, NoMemory>
        requires first { 1 ≤ id }
        requires last { id ≤ 64 }
        requires tables { IsTrue (list_all is_table schema) }
        requires regions { limits.regions ≤ 1024 }
        ensures { IfOk result (λ handle. handle ≡ new_handle id schema limits) }
    {
        Ok(Handle {
            seat: Seat::new(alloc, id, schema, limits)?,
            feed: Feed::new(alloc),
            sent: Seq::new(alloc),
            rows: Seq::new(alloc),
            text: Seq::new(alloc),
        })
    }

    /// Keeps what a step left, in place of what was kept. Without memory nothing is kept anew.
    fn keep(&mut self, alloc: Global, left: Left) -> Result<Said, Stop>
        requires sendable { All IsSendable (option_to_list left.sent) }
        ensures kept { IfOk result (Keeps left self.new) }
        ensures rest { KeepsRest self.old self.new }
    {
        match bytes_of(alloc, &left.sent) {
            Ok(sent) => {
                let Left { said, rows, .. } = left;
                self.sent = sent;
                self.rows = rows;
                Ok(said)
            }
            Err(NoMemory) => Err(Stop::NoMemory),
        }
    }

    /// Judges the text of a query.
    pub fn query(&mut self, alloc: Global, sql: &[u8]) -> Result<Said, Stop>
        ensures asked { IfOk result (Asked self.old sql.now self.new) }
    {
        let text = text_of(sql)?;
        let step = self.seat.query(alloc, text)?;
        self.keep(alloc, left_of_asked(alloc, step))
    }

    /// Sends the text of a write.
    pub fn write(&mut self, alloc: Global, sql: &[u8]) -> Result<Said, Stop>
        ensures wrote { IfOk result (Wrote self.old sql.now self.new) }
    {
        let text = text_of(sql)?;
        let step = self.seat.write(alloc, text)?;
        self.keep(alloc, left_of_write(alloc, step))
    }

    /// Drops the region of that number, counted from 0 in class order.
    pub fn evict(&mut self, alloc: Global, number: usize) -> Result<Said, Stop>
        ensures dropped { IfOk result (Dropped self.old number self.new) }
    {
        let step = self.seat.evict(number);
        self.keep(alloc, left_of_evict(alloc, step))
    }

    /// The link was cut; what came and is not read is forgotten.
    pub fn cut(&mut self, alloc: Global) -> Result<Said, Stop>
        ensures cut { IfOk result (IsCut self.old self.new) }
    {
        let step = self.seat.cut(alloc)?;
        self.feed = Feed::new(alloc);
        self.keep(alloc, quiet(alloc, said_of_cut(step)))
    }

    /// Begins a session over a cut link.
    pub fn resume(&mut self, alloc: Global) -> Result<Said, Stop>
        ensures began { IfOk result (Began self.old self.new) }
    {
        let step = self.seat.resume(alloc)?;
        self.keep(alloc, left_of_resume(alloc, step))
    }

    /// These bytes came, behind the others. In want of memory nothing changes.
    pub fn feed(&mut self, bytes: &[u8]) -> Result<(), NoMemory>
        ensures fed { OnOk result (self.new ≡ record self.old { feed = self.old.feed ++ bytes.now }) }
        ensures unchanged { OnErr result (self.new ≡ self.old) }
    {
        self.feed.feed(bytes)
    }

    /// Takes the message whose frame stands in front of what came, if a whole one does.
    pub fn take(&mut self, alloc: Global) -> Result<Said, Stop>
        ensures took { IfOk result (Took self.old self.new) }
    {
        match front_of(alloc, &self.feed) {
            Ok(Front::Whole { message, size }) => self.take_front(alloc, message, size),
            Ok(Front::Wanting) => Ok(Said::Wanting),
            Ok(Front::Spoiled(fault)) => Ok(Said::Spoiled(fault)),
            Err(NoMemory) => Err(Stop::NoMemory),
        }
    }

    fn take_front(&mut self, alloc: Global, message: Message, size: usize) -> Result<Said, Stop>
        requires there { size ≤ length self.old.feed }
        ensures took { IfOk result (TookFront self.old message size self.new) }
    {
        let took = self.seat.take(alloc, message)?;
        self.feed.pass(size);
        self.keep(alloc, left_of_took(alloc, took))
    }

    /// Explains how the text of a query would be answered. The lines of that are kept.
    pub fn explain(&mut self, alloc: Global, sql: &[u8]) -> Result<Said, Stop>
        ensures explained { IfOk result (Explained self.old sql.now self.new) }
    {
        let text = text_of(sql)?;
        let explained = self.seat.explain(alloc, text);
        match explained {
            Ok(explained) => self.keep_lines(alloc, &explained),
            Err(NoMemory) => Err(Stop::NoMemory),
        }
    }

    fn keep_lines(
        &mut self,
        alloc: Global,
        explained: &Result<Explanation, Fault>,
    ) -> Result<Said, Stop>
        requires few { IsFew explained.now }
        ensures kept { IfOk result (KeepsLines self.old explained.now self.new) }
    {
        match explained_text(alloc, self.seat.tables(), self.seat.id(), explained) {
            Ok(text) => {
                self.text = text;
                Ok(said_of_explained(explained))
            }
            Err(NoMemory) => Err(Stop::NoMemory),
        }
    }

    /// Keeps the rows of the answer as bytes.
    pub fn pack(&mut self, alloc: Global) -> Result<(), NoMemory>
        ensures packed { OnOk result (self.new ≡ record self.old { text = packed_rows self.old.rows }) }
        ensures unchanged { OnErr result (self.new ≡ self.old) }
    {
        self.text = pack_rows(alloc, self.rows.as_slice())?;
        Ok(())
    }

    /// Copies the bytes that are to be sent.
    pub fn copy_sent(&self, room: &mut [u8]) -> u64
        ensures size { result ≡ length self.now.sent }
        ensures bytes { room.new ≡ copied self.now.sent room.old }
    {
        copy_out(self.sent.as_slice(), room)
    }

    /// Copies the bytes of rows, or the lines of an explanation.
    pub fn copy_text(&self, room: &mut [u8]) -> u64
        ensures size { result ≡ length self.now.text }
        ensures bytes { room.new ≡ copied self.now.text room.old }
    {
        copy_out(self.text.as_slice(), room)
    }

    /// How many rows the last answer has.
    pub fn count_rows(&self) -> u64
        ensures { result ≡ length self.now.rows }
    {
        self.rows.len() as u64
    }

    /// The kind of a cell of the last answer. Its number, or the length of its text, goes out, and the text into the room, unless that is
    /// too short.
    pub fn copy_cell(&self, row: usize, column: usize, number: &mut i64, room: &mut [u8]) -> u32
        ensures kind { result ≡ kind_of (cell_at self.now.rows row column) }
        ensures number { number.new ≡ number_of (cell_at self.now.rows row column) number.old }
        ensures text { room.new ≡ copied (text_of (cell_at self.now.rows row column)) room.old }
    {
        let cell = cell_at(self.rows.as_slice(), row, column);
        match cell {
            Some(Cell::Num(n)) => *number = *n,
            Some(Cell::Str(text)) => *number = copy_out(text.as_str().as_bytes(), room) as i64,
            Some(Cell::Null) | None => {}
        }
        kind_of(cell)
    }
}

/// What stands in front of what came.
#[derive(Drop)]
pub enum Front {
    Whole { message: Message, size: usize },
    Wanting,
    Spoiled(WireFault),
}

fn front_of(alloc: Global, feed: &Feed) -> Result<Front, NoMemory>
    ensures { IfOk result (IsFront feed.now) }
{
    match feed.front() {
        Ok(Some(frame)) => Ok(Front::Whole {
            message: frame.message(alloc)?,
            size: frame.size(),
        }),
        Ok(None) => Ok(Front::Wanting),
        Err(fault) => Ok(Front::Spoiled(fault)),
    }
}

/// The frame of the message that is to be sent, if there is one.
fn bytes_of(alloc: Global, sent: &Option<Message>) -> Result<Bytes, NoMemory>
    requires sendable { All IsSendable (option_to_list sent.now) }
    ensures { IfOk result (λ bytes. bytes ≡ bytes_of sent.now) }
{
    match sent {
        None => Ok(Seq::new(alloc)),
        Some(message) => encode(alloc, message),
    }
}

/// The text that the bytes are.
fn text_of(bytes: &[u8]) -> Result<&str, Stop>
    ensures { IfOk result (λ text. text.now ≡ bytes.now) }
{
    match str::from_utf8(bytes) {
        Ok(text) => Ok(text),
        Err(fault) => Err(Stop::BadText {
            place: fault.valid_up_to().min(u32::MAX as usize) as u32,
        }),
    }
}
