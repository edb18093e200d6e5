//! Laws: functions that do nothing, and whose contracts are the laws.
ghost use Rattle.sr_client.specs.ByTold.{ClientsKeepToBudgets};
ghost use Rattle.sr_client.specs.Stands.{PromisesAreTrue};

/// What comes first to a client that stands, as all clients do after any events, is truly promised to it.
pub fn promises_are_true()
    ensures { PromisesAreTrue }
{}

/// On any link, whatever the peer is, a client has no more rows and regions than its budgets, by the rows that the frames brought.
pub fn clients_keep_to_budgets()
    ensures { ClientsKeepToBudgets }
{}
