//! Laws of the definitions: functions that do nothing, and whose contracts are the laws.
ghost use Rattle.sr_session.specs.Headline.{ACoveredQueryIsAnswered, ACoveredQuerySendsNothing, AnAskAsksTheUncovered, AnswersAreRight, AnswersNeverFall, AsksByPoints, CachesKeepToTheirBudgets, QueriesKeepTheirNumbers, TablesStayOfTheSchema, VersionsNeverFall};
ghost use Rattle.sr_session.specs.Laws.{AnsweringKeeps, AskingAgainKeeps, ExecKeeps, ForgettingKeeps, LayingKeeps, NeverRefused, NoticingKeeps, PromisedRowsSuit, PromisedTellsSuit, PromisesFit, PushKeeps, RepliesAreAnswerable, RowsAreAsked, TakingAsksKeeps};
ghost use Rattle.sr_session.specs.Progress.{LightQueriesKeepTheirPieces, LightRepliesKeepTheirPieces, QueriesAreAnsweredOrAsked, RepliesAnswer};
ghost use Rattle.sr_session.specs.Regions.{LaidMessagesKeepTrue};
ghost use Rattle.sr_session.specs.Resumable.{RegionsCanResume};
ghost use Rattle.sr_session.specs.Scenes.{EventsKeep, FirstStands, OthersStay, RunsStand};
ghost use Rattle.sr_session.specs.Tidy.{RulesKeepTidy};
ghost use Rattle.sr_session.specs.Wires.{AllColumnsAreToldAll, WorkedTouches};

// ---- the headline

/// Wherever in a run a query is answered, the answer is the query's rows on the tables of the version that it names.
pub fn answers_are_right()
    ensures rows { AnswersAreRight }
{}

/// A query keeps its number and its meaning, whatever happens to any client.
pub fn queries_keep_their_numbers()
    ensures numbers { QueriesKeepTheirNumbers }
{}

/// After any event no client's version is below that before, nor above the newest, and so it is with the version that an answer names.
pub fn versions_never_fall()
    ensures clients { VersionsNeverFall }
    ensures answers { AnswersNeverFall }
{}

/// Wherever in a run something is asked, just the points of the query that are not covered are asked, in at most 16,384 rects, and the
/// ask is the only message on its way to the server.
pub fn an_ask_asks_the_uncovered()
    ensures uncovered { AnAskAsksTheUncovered }
{}

/// So each point of a part of the query is asked just where no class that is held has it with all columns that the part needs.
pub fn asks_by_points()
    ensures points { AsksByPoints }
{}

/// A query of which each point is covered sends nothing; and where no request is out, it is answered at once.
pub fn a_covered_query_sends_nothing()
    ensures silent { ACoveredQuerySendsNothing }
    ensures answered { ACoveredQueryIsAnswered }
{}

/// In each scene of each run, where the tables are of the schema, no client keeps more rows at its version, or more classes, than its
/// budgets allow.
pub fn caches_keep_to_their_budgets()
    ensures budgets { CachesKeepToTheirBudgets }
{}

/// The tables of all versions are of the schema, where the first ones are and each statement makes such.
pub fn tables_stay_of_the_schema()
    ensures tables { TablesStayOfTheSchema }
{}

// ---- what each event leaves standing

/// Every event of a scene with any number of clients leaves every client standing: statements and writes, queries, evictions,
/// pushes, deliveries, cuts and resumes.
pub fn events_keep()
    ensures { EventsKeep }
{}

/// The scene before anything happens stands.
pub fn first_stands()
    ensures { FirstStands }
{}

/// So every client stands after any events in any order.
pub fn runs_stand()
    ensures { RunsStand }
{}

/// An event of one client leaves every other client, its queues and its session as they were.
pub fn others_stay()
    ensures { OthersStay }
{}

/// Each step of a client by itself, on any link, leaves what it has out asking the rest of its newest query, and what it laid by such
/// as may be laid by.
pub fn rules_keep_tidy()
    ensures { RulesKeepTidy }
{}

/// A version more leaves each client standing, whatever the log drops.
pub fn exec_keeps()
    ensures { ExecKeeps }
{}

/// A push goes on with the promise, by notices, by a Lapse in their place, or by an empty notice behind them.
pub fn push_keeps()
    ensures { PushKeeps }
{}

/// So does taking an ask, fresh or not: what is due, the rows and the reply, with what is subscribed then.
pub fn taking_asks_keeps()
    ensures { TakingAsksKeeps }
{}

/// A message is laid by, and what is promised stays.
pub fn laying_keeps()
    ensures { LayingKeeps }
{}

/// Where a reply comes first it is of the ask that is out, its version is not below the client's, and the rows laid by are those of
/// its version.
pub fn replies_are_answerable()
    ensures { RepliesAreAnswerable }
{}

/// So the rows of each part that were laid by are just the asked rows of that part at the reply's version.
pub fn rows_are_asked()
    ensures { RowsAreAsked }
{}

/// Regions with the rows of the client's version have those of the reply's once the laid messages are applied; after a Lapse there
/// are none.
pub fn laid_messages_keep_true()
    ensures { LaidMessagesKeepTrue }
{}

/// After an answer, whatever marks came, at most what was held and asked is held, and the rest of the promise stands.
pub fn answering_keeps()
    ensures { AnsweringKeeps }
{}

/// A reply after a Lapse, under an ask that was not fresh: all is dropped, the whole is asked, and nothing that is pending
/// contradicts it.
pub fn asking_again_keeps()
    ensures { AskingAgainKeeps }
{}

/// A Lapse comes while nothing is out.
pub fn forgetting_keeps()
    ensures { ForgettingKeeps }
{}

/// A notice comes while nothing is out.
pub fn noticing_keeps()
    ensures { NoticingKeeps }
{}

/// The first message of a client's queue has the right direction, state, number and version.
pub fn promises_fit()
    ensures { PromisesFit }
{}

/// Promised rows fit the asked columns, lie in the asked rects, and ascend by part and key over all messages of a reply.
pub fn promised_rows_suit()
    ensures { PromisedRowsSuit }
{}

/// Promised tells are of tables of the schema, fit them, and ascend by table and key.
pub fn promised_tells_suit()
    ensures { PromisedTellsSuit }
{}

/// So nothing that is promised is refused.
pub fn never_refused()
    ensures { NeverRefused }
{}

// ---- both wires

/// An entry for all columns, as a session of wire 1 has them, is told of each change whose old or new row it has.
pub fn all_columns_are_told_all()
    ensures { AllColumnsAreToldAll }
{}

/// Six changes, and whether they are told.
pub fn worked_touches()
    ensures { WorkedTouches }
{}

/// Regions that keep what is held have one holding for each class in a Resume, and a server finds their shape right.
pub fn regions_can_resume()
    ensures { RegionsCanResume }
{}

// ---- what comes of a query in the end

/// A query that means something, while no request is out and the link is not cut, is answered or asked.
pub fn queries_are_answered_or_asked()
    ensures { QueriesAreAnsweredOrAsked }
{}

/// The reply of an ask answers its query in the same step, or the query is asked once more, afresh, and then the next reply answers it: a
/// query has at most two asks.
pub fn replies_answer()
    ensures { RepliesAnswer }
{}

/// Where the load is not too high, nothing is dropped for its pieces, neither at a query nor at a reply.
pub fn light_loads_keep_their_pieces()
    ensures queries { LightQueriesKeepTheirPieces }
    ensures replies { LightRepliesKeepTheirPieces }
{}
