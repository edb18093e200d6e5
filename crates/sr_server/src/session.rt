//! Sessions.
use sr_subs::subs::Subs;
use std::marker::Model;

/// The wire that a client speaks, what it has asked for, and the version that the messages to it have reached.
#[derive(Drop)]
pub struct Session {
    pub(crate) wire: u8,
    pub(crate) subs: Subs,
    pub(crate) upto: u64,
}

impl Model for Session {
    ghost use Rattle.sr_session.specs.Sessions.{Session as TheSession};

    ghost Value = { TheSession };

    ghost view = { λ s. record { wire = s.wire; subscription = s.subs; upto = s.upto } };
}
