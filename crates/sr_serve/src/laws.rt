//! Laws of runs of `serve`: functions that do nothing, and whose contracts are the laws.
ghost use Rattle.sr_serve.specs.Address.{ComeAtTheAddress};
ghost use Rattle.sr_serve.specs.Bounds.{AreBounded};

/// The connections that a run makes come at the address that it is given.
pub fn connections_come_at_the_address()
    ensures { ComeAtTheAddress }
{}

/// A frame takes at most 134,217,732 bytes, and no connection is read on for one message once so many are there.
pub fn frames_are_bounded()
    ensures { AreBounded }
{}
