//! Laws of the words: functions that do nothing, and whose contracts are worked values.
ghost use Rattle.std.specs.Prelude.{◌≡◌, Some, None, codes};
ghost use Rattle.sr_words.specs.Examples.{with_id, client_numbered};
ghost use Rattle.sr_words.specs.Words.{client_of};
ghost use Rattle.sr_words.specs.declared.command.ClientKind.TheVariants.{Client};

/// The numbers of clients are 1 to 64.
pub fn clients_are_numbered_from_1_to_64()
    ensures none_before { client_of Client (with_id (codes "0")) ≡ None }
    ensures first { client_of Client (with_id (codes "1")) ≡ Some (client_numbered 1) }
    ensures last { client_of Client (with_id (codes "64")) ≡ Some (client_numbered 64) }
    ensures none_after { client_of Client (with_id (codes "65")) ≡ None }
{}
