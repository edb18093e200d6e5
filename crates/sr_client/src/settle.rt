//! What a client does once its request has ended, where that is no ask.
ghost use Rattle.std.specs.Prelude.{◌≡◌, ◌≤◌, ◌∷◌, false, List, [], map, IfOk, OnOk, OnErr, IsTrue};
ghost use Rattle.std.specs.List.{list_all};
ghost use Rattle.sr_message.specs.declared.message.Message.{Message as TheMessage};
ghost use Rattle.sr_message.specs.declared.message.Message.TheVariants.{Refused, Welcome, Written};
ghost use Rattle.sr_store.specs.Stores.{drop_of};
ghost use Rattle.sr_store.specs.Fitted.{IsFitted};
ghost use Rattle.sr_session.specs.Regions.{after_messages};
ghost use Rattle.sr_session.specs.Walks.{has_lapse, version_after};
ghost use Rattle.sr_session.specs.Rules.{cause_afresh};
ghost use Rattle.sr_client.specs.Sends.{TookSendsWell};
ghost use Rattle.sr_client.specs.Settling.{settled_at, SettlesTo, WelcomesTo};
ghost use Rattle.sr_client.specs.Stands.{Stands, Stays, KeepsNumbers, IsFit, drawn};
ghost use Rattle.sr_client.specs.Steps.{Takes, is_bad};
ghost use Rattle.sr_client.specs.Values.{has_values};

use crate::client::Client;
use crate::laid::Laid;
use crate::steps::Took;
use crate::take::has_lapse;
use crate::values::know_messages;
use sr_cell::cause::Cause;
use sr_cell::fault::Fault;
use sr_cell::list::NoMemory;
use sr_history::mark::Marks;
use sr_message::message::Message;
use std::alloc::Global;
use std::mem;

impl Client {
    /// The write that is out made that version.
    pub(crate) fn written(
        &mut self,
        alloc: Global,
        number: u64,
        version: u64,
    ) -> Result<Took, NoMemory>
        requires stands { Stands self.old }
        requires fit { IsFit self.old (Written number version) }
        ensures good { IfOk result (λ took. is_bad took ≡ false) }
        ensures takes { IfOk result (Takes self.old (Written number version) self.new) }
        ensures version { self.old.version ≤ self.new.version }
        ensures sends { IfOk result (TookSendsWell self.old.schema self.old.id) }
        ensures stays { Stays self.old self.new }
        ensures drawn { drawn self.new ≡ drawn self.old }
        ensures cuts { self.new.cuts ≡ self.old.cuts }
        ensures numbers_left { OnErr result (KeepsNumbers self.old self.new) }
    {
        know_messages(self.laid.as_slice());
        let marks = self.settle(alloc, version)?;
        Ok(Took::Written {
            request: number,
            version,
            marks,
        })
    }

    /// The write that is out was refused: the client comes to the version of what was laid by.
    pub(crate) fn refused(
        &mut self,
        alloc: Global,
        number: u64,
        fault: Fault,
    ) -> Result<Took, NoMemory>
        requires stands { Stands self.old }
        requires fit { IsFit self.old (Refused number fault) }
        ensures good { IfOk result (λ took. is_bad took ≡ false) }
        ensures takes { IfOk result (Takes self.old (Refused number fault) self.new) }
        ensures version { self.old.version ≤ self.new.version }
        ensures sends { IfOk result (TookSendsWell self.old.schema self.old.id) }
        ensures stays { Stays self.old self.new }
        ensures drawn { drawn self.new ≡ drawn self.old }
        ensures cuts { self.new.cuts ≡ self.old.cuts }
        ensures numbers_left { OnErr result (KeepsNumbers self.old self.new) }
    {
        know_messages(self.laid.as_slice());
        let version = version_after(self.version, self.laid.as_slice());
        let marks = self.settle(alloc, version)?;
        Ok(Took::Refused {
            request: number,
            fault,
            marks,
        })
    }

    /// The session is open from that version on; what is held is kept, or all dropped.
    pub(crate) fn welcome(
        &mut self,
        alloc: Global,
        number: u64,
        version: u64,
        kept: bool,
    ) -> Result<Took, NoMemory>
        requires stands { Stands self.old }
        requires fit { IsFit self.old (Welcome number version kept) }
        ensures good { IfOk result (λ took. is_bad took ≡ false) }
        ensures takes { IfOk result (Takes self.old (Welcome number version kept) self.new) }
        ensures version { self.old.version ≤ self.new.version }
        ensures sends { IfOk result (TookSendsWell self.old.schema self.old.id) }
        ensures stays { Stays self.old self.new }
        ensures drawn { drawn self.new ≡ drawn self.old }
        ensures cuts { self.new.cuts ≡ self.old.cuts }
        ensures numbers_left { OnErr result (KeepsNumbers self.old self.new) }
    {
        know_messages(self.laid.as_slice());
        let marks = self.settle_welcomed(alloc, version, kept)?;
        Ok(Took::Welcomed {
            version,
            kept,
            marks,
        })
    }

    /// Applies what was laid by, or drops all where it is not kept.
    fn settle_welcomed(
        &mut self,
        alloc: Global,
        version: u64,
        kept: bool,
    ) -> Result<Marks, NoMemory>
        requires stands { Stands self.old }
        requires values { IsTrue (list_all has_values self.old.laid) }
        ensures welcomes { IfOk result (λ marks. WelcomesTo kept self.old marks self.new.store.regions) }
        ensures now { OnOk result (self.new ≡ settled_at self.old version self.new.store.regions) }
        ensures stays { Stays self.old self.new }
        ensures drawn { drawn self.new ≡ drawn self.old }
        ensures cuts { self.new.cuts ≡ self.old.cuts }
        ensures numbers_left { OnErr result (KeepsNumbers self.old self.new) }
    {
        if kept {
            self.settle(alloc, version)
        } else {
            let cause = cause_afresh(self.laid.as_slice());
            self.settle_empty(alloc, cause, version)
        }
    }

    /// Applies what was laid by: after a Lapse all is dropped, else the limits are met.
    fn settle(&mut self, alloc: Global, version: u64) -> Result<Marks, NoMemory>
        requires stands { Stands self.old }
        requires values { IsTrue (list_all has_values self.old.laid) }
        ensures settles { IfOk result (λ marks. SettlesTo (has_lapse self.old.laid) self.old marks self.new.store.regions) }
        ensures now { OnOk result (self.new ≡ settled_at self.old version self.new.store.regions) }
        ensures stays { Stays self.old self.new }
        ensures drawn { drawn self.new ≡ drawn self.old }
        ensures cuts { self.new.cuts ≡ self.old.cuts }
        ensures numbers_left { OnErr result (KeepsNumbers self.old self.new) }
    {
        if has_lapse(self.laid.as_slice()) {
            self.settle_empty(alloc, Cause::Lapsed, version)
        } else {
            self.settle_fit(alloc, version)
        }
    }

    /// Drops all.
    fn settle_empty(&mut self, alloc: Global, cause: Cause, version: u64) -> Result<Marks, NoMemory>
        ensures marks { IfOk result (λ marks. marks ≡ map (drop_of cause) self.old.store.regions) }
        ensures now { OnOk result (self.new ≡ settled_at self.old version []) }
        ensures stays { Stays self.old self.new }
        ensures drawn { drawn self.new ≡ drawn self.old }
        ensures cuts { self.new.cuts ≡ self.old.cuts }
        ensures numbers_left { OnErr result (KeepsNumbers self.old self.new) }
    {
        let marks = self.store.drop_all(alloc, cause)?;
        self.laid = Laid::new(alloc);
        self.set_out(None);
        self.version = version;
        Ok(marks)
    }

    /// Applies what was laid by, and drops what the limits demand then.
    fn settle_fit(&mut self, alloc: Global, version: u64) -> Result<Marks, NoMemory>
        requires stands { Stands self.old }
        requires values { IsTrue (list_all has_values self.old.laid) }
        ensures fitted { IfOk result (λ marks. IsFitted self.old.schema self.old.store.limits self.old.store.last (after_messages self.old.laid self.old.store.regions) self.new.store.regions marks) }
        ensures now { OnOk result (self.new ≡ settled_at self.old version self.new.store.regions) }
        ensures stays { Stays self.old self.new }
        ensures drawn { drawn self.new ≡ drawn self.old }
        ensures cuts { self.new.cuts ≡ self.old.cuts }
        ensures numbers_left { OnErr result (KeepsNumbers self.old self.new) }
    {
        let laid = mem::replace(&mut self.laid, Laid::new(alloc));
        self.apply_laid(alloc, &mut [], laid)?;
        let marks = self.store.fit(alloc, &self.schema)?;
        self.set_out(None);
        self.version = version;
        Ok(marks)
    }
}

/// Why all is dropped where a session begins afresh: a Lapse that was laid by is applied first.
fn cause_afresh(laid: &[Message]) -> Cause
    ensures { result ≡ cause_afresh (has_lapse laid.now) }
{
    if has_lapse(laid) {
        Cause::Lapsed
    } else {
        Cause::Fresh
    }
}

/// The version of the last of the messages that carries one, or this one.
fn version_after(version: u64, laid: &[Message]) -> u64
    ensures { result ≡ version_after version laid.now }
{
    let mut last = version;
    for message in laid {
        last = version_behind(last, message);
    }
    last
}

fn version_behind(last: u64, message: &Message) -> u64
    ensures { (others : List TheMessage) → version_after last (message.now ∷ others) ≡ version_after result others }
{
    match message {
        Message::Notice { version, .. } | Message::Lapse { version } => *version,
        _ => last,
    }
}
