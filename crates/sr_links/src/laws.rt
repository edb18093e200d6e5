//! Laws of the definitions: functions that do nothing, and whose contracts are the laws.
ghost use Rattle.sr_cell.specs.declared.table.Table.{Table};
ghost use Rattle.sr_model.specs.Statements.{Tables};
ghost use Rattle.sr_session.specs.Clients.{Client};
ghost use Rattle.std.specs.Prelude.{List};
ghost use Rattle.sr_store.specs.Told.{Told};
ghost use Rattle.sr_links.specs.Brought.{StepsGoByTold};
ghost use Rattle.sr_links.specs.Counts.{FewAreLaid};
ghost use Rattle.sr_links.specs.Answers.{AnswersAreTrue, ServedAnswersAreTrue, WholeTalksEndFree, LinesAnswerTheirQueries, ClientsHaveTheRows, ServedClientsHaveTheRows};

/// A client of which only this is known: when it stands for a past, with the rows of some tables of a schema.
pub trait Peer {
    ghost is_of: { List Table → Self → Client → Tables → Type 0 };
}

/// Over an honest link each step is true: an answer has the rows of its query at the version that it names, an ask asks just what is not
/// covered, a covered query sends nothing, the client keeps to its budgets, and no message is refused. So it is over any number of
/// connections, whatever the server did meanwhile, and wherever it closed the session, or never did. The client keeps to its rules over
/// any link.
pub fn answers_are_true<C: Peer>()
    ensures { AnswersAreTrue C.is_of }
{}

/// The same of a client of which nothing is known over other links, where the session is closed behind each connection and nowhere else.
pub fn served_answers_are_true<C: Peer>()
    ensures { ServedAnswersAreTrue C.is_of }
{}

/// Where the server took all requests of a connection, and all that it sent came, no request is out at its end.
pub fn whole_talks_end_free<C: Peer>()
    ensures { WholeTalksEndFree C.is_of }
{}

/// Each answer of a line that queries while nothing is out is that of the line's query, at once or behind the messages that are taken.
pub fn lines_answer_their_queries<C: Peer>()
    ensures { LinesAnswerTheirQueries C.is_of }
{}

/// Over an honest link the client has the rows of its version on the server behind each step: so what it explains then is said of them.
pub fn clients_have_the_rows<C: Peer>()
    ensures { ClientsHaveTheRows C.is_of }
{}

/// The same where the session is closed behind each connection and nowhere else, of a client of which nothing is known over other links.
pub fn served_clients_have_the_rows<C: Peer>()
    ensures { ServedClientsHaveTheRows C.is_of }
{}

/// Over an honest link no more messages are laid by for one request than one frame is answered with, where the server's log keeps at most
/// 500,000 changes and its tables have at most 65,536 rows: 501,026.
pub fn few_are_laid<C: Peer>()
    ensures { FewAreLaid C.is_of }
{}

/// A client of which this is known on any link: when it stands for a past, with rows that were told of tables of a schema.
pub trait Hearer {
    ghost has_told: { List Table → Self → Client → Told → Type 0 };
}

/// Over any link, whatever the peer is, each step goes by the rules, where kept rows are those that the frames brought, and the client
/// keeps to its budgets by them.
pub fn steps_go_by_told<C: Hearer>()
    ensures { StepsGoByTold C.has_told }
{}
