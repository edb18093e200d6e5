//! The messages that are left.
ghost use Rattle.std.specs.Prelude.{◌≡◌, ◌≢◌, [], ◌++◌, IfOk, OnOk, OnErr, None, option_to_list};
ghost use Rattle.sr_outbox.specs.Left.{messages};

use crate::item::{Item, Items};
use sr_cell::list::{NoMemory, Seq};
use sr_log::log::Log;
use sr_message::message::{Message, Messages};
use sr_tables::tables::Tables;
use std::alloc::Global;
use std::collections::VecDeque;
use std::marker::Model;

/// Messages that are left to be sent, each by what it is made from.
#[derive(Drop)]
pub struct Left {
    items: VecDeque<Item>,
}

impl Model for Left {
    ghost use Rattle.std.specs.Prelude.{List};
    ghost use Rattle.sr_outbox.specs.declared.item.Item.{Item as TheItem};

    ghost Value = { List TheItem };

    ghost view = { λ l. l.items.items };
}

impl Left {
    /// The messages of these items; takes no memory.
    pub fn new(items: Items) -> Left
        ensures { result ≡ items }
    {
        Left {
            items: VecDeque::from_vec(items.into_vec()),
        }
    }

    /// The first message that is left on these tables and that log, or None where none is left. In want of memory, where one is left,
    /// nothing changes.
    pub fn next(
        &mut self,
        alloc: Global,
        tables: &Tables,
        log: &Log,
    ) -> Result<Option<Message>, NoMemory>
        ensures given { IfOk result (λ message.
            messages tables.now log.now self.old ≡ option_to_list message ++ messages tables.now log.now self.new) }
        ensures none { IfOk result (λ message. message ≡ None → messages tables.now log.now self.old ≡ []) }
        ensures wanting { OnErr result (messages tables.now log.now self.old ≢ []) }
        ensures unchanged { OnErr result (self.new ≡ self.old) }
    {
        let Some(item) = self.items.front() else {
            return Ok(None);
        };
        let message = item.message(alloc, tables, log)?;
        let _ = self.items.pop_front();
        Ok(Some(message))
    }
    /// All messages that are left on these tables and that log, one after another.
    pub fn all(&mut self, alloc: Global, tables: &Tables, log: &Log) -> Result<Messages, NoMemory>
        ensures sent { IfOk result (λ sent. sent ≡ messages tables.now log.now self.old) }
        ensures none { OnOk result (messages tables.now log.now self.new ≡ []) }
    {
        let mut sent = Seq::new(alloc);
        'messages: while let Some(message) = self.next(alloc, tables, log)? {
            sent.push(message)?;
        }
        Ok(sent)
    }
}
