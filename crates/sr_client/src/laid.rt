//! The messages that wait for the last one of the request that is out.
ghost use Rattle.std.specs.Prelude.{◌≡◌, ◌∷◌, ◌++◌, [], None, IfNone, IfSome, OnOk, OnErr};
ghost use Rattle.sr_session.specs.Misfits.{known, last_came, version_of};
ghost use Rattle.sr_client.specs.Shapes.{IsLastRows, brings_rows};

use sr_cell::list::{NoMemory, Seq};
use sr_message::message::{Message, Messages};
use std::alloc::Global;
use std::marker::Model;

/// Messages in the order in which they came. Beside them stand their greatest version and the place of the last one that brings
/// rows, so that nothing has to walk over all that waits.
#[derive(Drop)]
pub struct Laid {
    messages: Messages,
    newest: u64,
    last_rows: Option<usize>,
}

impl Model for Laid {
    ghost use Rattle.std.specs.Prelude.{◌≡◌, List};
    ghost use Rattle.sr_message.specs.declared.message.Message.{Message};
    ghost use Rattle.sr_session.specs.Misfits.{known};
    ghost use Rattle.sr_client.specs.Shapes.{IsLastRows};

    ghost Value = { List Message };

    ghost view = { λ l. l.messages };

    ghost invariant = { λ l. (l.newest ≡ known 0 l.messages) × IsLastRows l.messages l.last_rows };
}

impl Laid {
    /// No message; takes no memory.
    pub(crate) fn new(alloc: Global) -> Laid
        ensures { result ≡ [] }
    {
        Laid {
            messages: Seq::new(alloc),
            newest: 0,
            last_rows: None,
        }
    }

    /// One message more, at the end.
    pub(crate) fn push(&mut self, message: Message) -> Result<(), NoMemory>
        ensures pushed { OnOk result (self.new ≡ self.old ++ message ∷ []) }
        ensures unchanged { OnErr result (self.new ≡ self.old) }
    {
        let newest = version_of(&message, self.newest);
        let last_rows = last_rows_with(self.messages.as_slice(), self.last_rows, &message);
        self.messages.push(message)?;
        self.newest = newest;
        self.last_rows = last_rows;
        Ok(())
    }

    /// The messages as a slice.
    pub(crate) fn as_slice(&self) -> &[Message]
        ensures { result.now ≡ self.now }
    {
        self.messages.as_slice()
    }

    /// The messages as a vector; takes no memory.
    pub(crate) fn into_vec(self) -> Vec<Message>
        ensures { result.items ≡ self }
    {
        let Laid { messages, .. } = self;
        messages.into_vec()
    }

    /// The greatest of that version and those of the messages.
    pub(crate) fn known(&self, version: u64) -> u64
        ensures { result ≡ known version self.now }
    {
        version.max(self.newest)
    }

    /// The last message that brings rows.
    pub(crate) fn last_rows(&self) -> Option<&Message>
        ensures last { IfSome result (λ message. last_came None (message.now ∷ []) ≡ last_came None self.now) }
        ensures none { IfNone result (last_came None self.now ≡ None) }
    {
        match self.last_rows {
            Some(place) => self.messages.get(place),
            None => None,
        }
    }
}

fn version_of(message: &Message, most: u64) -> u64
    ensures { result ≡ version_of message.now most }
{
    match message {
        Message::Notice { version, .. } | Message::Lapse { version } => most.max(*version),
        _ => most,
    }
}

/// The place of the last message that brings rows, where one more follows.
fn last_rows_with(
    messages: &[Message],
    last_rows: Option<usize>,
    message: &Message,
) -> Option<usize>
    requires { IsLastRows messages.now last_rows }
    ensures { IsLastRows (messages.now ++ message.now ∷ []) result }
{
    if brings_rows(message) {
        Some(messages.len())
    } else {
        last_rows
    }
}

fn brings_rows(message: &Message) -> bool
    ensures { result ≡ brings_rows message.now }
{
    match message {
        Message::Rows { rows, .. } => rows.len() > 0,
        _ => false,
    }
}
