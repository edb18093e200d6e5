//! What one message is made from.
ghost use Rattle.std.specs.Prelude.{◌≡◌, [], ◌∷◌, ◌++◌, IfOk, IfSome, OnOk, map, option_to_list, slice_get};
ghost use Rattle.std.specs.Option.{option_copied};
ghost use Rattle.sr_message.specs.Tells.{tell_of};
ghost use Rattle.sr_outbox.specs.Left.{message_of, changes_after, picked};

use sr_cell::attrs::Attrs;
use sr_cell::cell::Cell;
use sr_cell::change::Change;
use sr_cell::fault::Fault;
use sr_cell::list::{Copied, NoMemory, Seq};
use sr_log::log::Log;
use sr_message::message::{Message, Tell, Told};
use sr_tables::tables::Tables;
use std::alloc::Global;

/// Which part of which ask rows are for, and of which table's columns they are.
#[derive(Drop)]
pub struct Asked {
    pub number: u64,
    pub part: u8,
    pub table: u8,
    pub attrs: Attrs,
}

impl Asked {
    /// The same.
    pub(crate) fn again(&self) -> Asked
        ensures { result ≡ self.now }
    {
        Asked {
            number: self.number,
            part: self.part,
            table: self.table,
            attrs: self.attrs,
        }
    }
}

/// A message that is to be sent, by what it is made from when its turn comes.
#[derive(Drop)]
pub enum Item {
    Lapse {
        version: u64,
    },
    /// A version is told by the changes in these places of the first one above another.
    Notice {
        version: u64,
        above: u64,
        places: Seq<usize>,
    },
    /// The rows with these keys.
    Rows {
        asked: Asked,
        keys: Seq<Cell>,
    },
    Reply {
        number: u64,
        version: u64,
    },
    Written {
        number: u64,
        version: u64,
    },
    Welcome {
        number: u64,
        version: u64,
        kept: bool,
    },
    Refused {
        number: u64,
        fault: Fault,
    },
}

pub type Items = Seq<Item>;

impl Item {
    /// The message, from the tables and the log as they are.
    pub fn message(&self, alloc: Global, tables: &Tables, log: &Log) -> Result<Message, NoMemory>
        ensures { IfOk result (λ message. message ≡ message_of tables.now log.now self.now) }
    {
        match self {
            Item::Lapse { version } => Ok(Message::Lapse { version: *version }),
            Item::Notice {
                version,
                above,
                places,
            } => {
                let told = tells_at(alloc, log, *above, places.as_slice())?;
                Ok(Message::Notice {
                    version: *version,
                    told,
                })
            }
            Item::Rows { asked, keys } => {
                let rows = tables.rows_with(alloc, asked.table, asked.attrs, keys.as_slice())?;
                Ok(Message::Rows {
                    number: asked.number,
                    part: asked.part,
                    rows,
                })
            }
            Item::Reply { number, version } => Ok(Message::Reply {
                number: *number,
                version: *version,
            }),
            Item::Written { number, version } => Ok(Message::Written {
                number: *number,
                version: *version,
            }),
            Item::Welcome {
                number,
                version,
                kept,
            } => Ok(Message::Welcome {
                number: *number,
                version: *version,
                kept: *kept,
            }),
            Item::Refused { number, fault } => Ok(Message::Refused {
                number: *number,
                fault: *fault,
            }),
        }
    }
}

/// The changes in these places of the first version above that one, as a client is told of them.
fn tells_at(alloc: Global, log: &Log, above: u64, places: &[usize]) -> Result<Told, NoMemory>
    ensures { IfOk result (λ told. told ≡ map tell_of (picked places.now (changes_after above log.now))) }
{
    tells_of(alloc, changes_after(log, above), places)
}

/// What the first version above that one changes, where the log reaches back so far.
fn changes_after(log: &Log, above: u64) -> &[Change]
    ensures { result.now ≡ changes_after above log.now }
{
    let Some(entries) = log.since(above) else {
        return &[];
    };
    match entries.first() {
        Some(entry) => entry.changes.as_slice(),
        None => &[],
    }
}

fn tells_of(alloc: Global, changes: &[Change], places: &[usize]) -> Result<Told, NoMemory>
    ensures { IfOk result (λ told. told ≡ map tell_of (picked places.now changes.now)) }
{
    let mut told = Seq::with_room(alloc, places.len())?;
    for i in 0..places.len() {
        push_tell(alloc, &mut told, change_at(changes, places[i]))?;
    }
    Ok(told)
}

fn change_at(changes: &[Change], place: usize) -> Option<&Change>
    ensures { option_copied result ≡ slice_get changes.now place }
{
    changes.get(place)
}

/// What is told of the change behind the others, if there is one.
fn push_tell(alloc: Global, told: &mut Told, change: Option<&Change>) -> Result<(), NoMemory>
    ensures { OnOk result (told.new ≡ told.old ++ map tell_of (option_to_list (option_copied change.entry))) }
{
    match change {
        Some(change) => told.push(tell_of(alloc, change)?),
        None => Ok(()),
    }
}

fn tell_of(alloc: Global, change: &Change) -> Result<Tell, NoMemory>
    ensures { IfOk result (λ tell. tell ≡ tell_of change.now) }
{
    Ok(Tell {
        table: change.table,
        key: change.key.copy(alloc)?,
        after: change.after.copy(alloc)?,
    })
}
