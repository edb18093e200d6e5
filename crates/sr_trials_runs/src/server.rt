//! Servers of a few sessions, over one table of numbers `k`, the key, and `a`.
ghost use Rattle.std.specs.Prelude.{◌≡◌, ◌<◌, ◌≤◌, ◌+◌, true, false, IsTrue, IfOk, OnOk, length};
ghost use Rattle.std.specs.List.{list_all};
ghost use Rattle.sr_cell.specs.Columns.{table_at};
ghost use Rattle.sr_cell.specs.Names.{is_bad_domain};
ghost use Rattle.sr_query.specs.Bound.{is_table};
ghost use Rattle.sr_log.specs.Held.{newest as newest_of};
ghost use Rattle.sr_session.specs.Refusals.{has_few_parts};
ghost use Rattle.sr_server.specs.Servers.{StandsForSome};

use crate::common::{list_of, rects_of};
use sr_box::span::Span;
use sr_cell::attrs::Attrs;
use sr_cell::cell::{Cell, Row};
use sr_cell::list::{No, NoMemory};
use sr_cell::schema::Schema;
use sr_cell::table::{Column, Kind, Table};
use sr_cell::text::Text;
use sr_message::message::{AskPart, Holding, Message, Messages};
use sr_server::outbox::Outbox;
use sr_server::server::Server;
use sr_tables::tables::Tables;
use sr_union::rects::Rects;
use sr_wire::bad_frame::BadFrame;
use std::alloc::Global;

// A message, by its kind on the wire, its version or 0, and how much it carries.
type Seen = (u8, u64, usize);

// What a step of a test does, for the client of its number.
#[derive(Clone, Copy)]
enum Step {
    Take(u8, Sent, Wanted),
    Push(u8, Wanted),
    Cut(u8),
}

// A message that the server takes.
#[derive(Clone, Copy)]
enum Sent {
    // the first message of a session over wire 1, which names that client
    Hello(u8),
    // the session of that client begins again over wire 1 at that version, with the keys from 0 to 9 of that table
    Resume(u8, u64, u8),
    // the session of client 2 begins again over wire 2 at version 0, with values of `a` from 0 to 9 under these columns
    Later(u16),
    // an ask, fresh or not, for the keys between two numbers, of that table and with these columns
    Ask(bool, (i64, i64), (u8, u16)),
    // an ask for values of `a` from 0 to 9, with these columns
    Values(u16),
    Write(&'static str),
    Lapse,
}

// What comes of it: at most two messages, or nothing, or a refusal.
#[derive(Clone, Copy)]
enum Wanted {
    Nothing,
    One(Seen),
    Two(Seen, Seen),
    Closed,
    Bad(BadFrame),
}

fn seen(message: &Message) -> Seen {
    match message {
        Message::Welcome { version, kept, .. } => (0x11, *version, *kept as usize),
        Message::Notice { version, told } => (0x12, *version, told.len()),
        Message::Rows { rows, .. } => (0x13, 0, rows.len()),
        Message::Reply { version, .. } => (0x14, *version, 0),
        Message::Written { version, .. } => (0x15, *version, 0),
        Message::Refused { fault, .. } => (0x16, 0, fault.at as usize),
        Message::Lapse { version } => (0x17, *version, 0),
        _ => (0, 0, 0),
    }
}

fn are(sent: &[Message], wanted: Wanted) -> bool {
    match wanted {
        Wanted::Nothing => sent.is_empty(),
        Wanted::One(first) => match sent {
            [one] => seen(one) == first,
            _ => false,
        },
        Wanted::Two(first, second) => match sent {
            [one, other] => seen(one) == first && seen(other) == second,
            _ => false,
        },
        Wanted::Closed | Wanted::Bad(_) => false,
    }
}

// A column of any numbers.
fn numbers(alloc: Global, name: &str) -> Result<Column, NoMemory>
    ensures good { IfOk result (λ column. is_bad_domain column ≡ false) }
    ensures never { IfOk result (λ column. column.nullable ≡ false) }
{
    Ok(Column {
        name: Text::of(alloc, name)?,
        kind: Kind::Num,
        lo: -1099511627776,
        hi: 1099511627775,
        nullable: false,
    })
}

// The table.
fn table(alloc: Global) -> Result<Table, NoMemory>
    ensures { IfOk result (λ table. is_table table ≡ true) }
{
    let key = numbers(alloc, "k")?;
    let other = numbers(alloc, "a")?;
    let columns = list_of(alloc, [key, other])?;
    Ok(Table {
        name: Text::of(alloc, "t")?,
        columns,
        key: 0,
    })
}

fn schema(alloc: Global) -> Result<Schema, NoMemory>
    ensures { IfOk result (λ schema. IsTrue (list_all is_table schema)) }
{
    let mut schema = Schema::new(alloc);
    match schema.add(alloc, table(alloc)?) {
        Ok(()) => Ok(schema),
        Err(_) => Err(NoMemory),
    }
}

// A server at version 0 whose log keeps one change.
fn server(alloc: Global) -> Result<Server, NoMemory>
    ensures stands { IfOk result StandsForSome }
    ensures number { IfOk result (λ server. newest_of server.log ≡ 0) }
{
    Server::new(alloc, Tables::empty(alloc, schema(alloc)?)?, 1)
}

// The rect of the keys from `lo` to `hi`.
fn keys(alloc: Global, lo: i64, hi: i64) -> Result<Rects, NoMemory> {
    rects_of(alloc, [Span::Nums { lo, hi }, Span::Full])
}

// The rect of the values of `a` from 0 to 9.
fn values(alloc: Global) -> Result<Rects, NoMemory> {
    rects_of(alloc, [Span::Full, Span::Nums { lo: 0, hi: 9 }])
}

fn ask(alloc: Global, fresh: bool, table: u8, attrs: u16, rects: Rects) -> Result<Message, NoMemory>
    ensures { IfOk result (λ m. has_few_parts m ≡ true) }
{
    let part = AskPart {
        table,
        attrs: Attrs(attrs),
        rects,
    };
    Ok(Message::Ask {
        number: 1,
        fresh,
        parts: list_of(alloc, [part])?,
    })
}

fn resume(
    alloc: Global,
    wire: u8,
    client: u8,
    version: u64,
    holding: Holding,
) -> Result<Message, NoMemory>
    ensures { IfOk result (λ m. has_few_parts m ≡ true) }
{
    Ok(Message::Resume {
        wire,
        client,
        number: 1,
        version,
        holdings: list_of(alloc, [holding])?,
    })
}

// A holding of all columns.
fn whole(table: u8, rects: Rects) -> Holding {
    Holding {
        table,
        attrs: Attrs(4095),
        rects,
    }
}

// A holding of the table under these columns.
fn narrow(attrs: u16, rects: Rects) -> Holding {
    Holding {
        table: 0,
        attrs: Attrs(attrs),
        rects,
    }
}

fn write(alloc: Global, sql: &str) -> Result<Message, NoMemory>
    ensures { IfOk result (λ m. has_few_parts m ≡ true) }
{
    Ok(Message::Write {
        number: 1,
        sql: Text::of(alloc, sql)?,
    })
}

fn message(alloc: Global, sent: Sent) -> Result<Message, NoMemory>
    ensures { IfOk result (λ m. has_few_parts m ≡ true) }
{
    match sent {
        Sent::Hello(client) => Ok(Message::Hello {
            wire: 1,
            client,
            number: 0,
        }),
        Sent::Resume(client, version, table) => {
            resume(alloc, 1, client, version, whole(table, keys(alloc, 0, 9)?))
        }
        Sent::Later(attrs) => resume(alloc, 2, 2, 0, narrow(attrs, values(alloc)?)),
        Sent::Ask(fresh, (lo, hi), (table, attrs)) => {
            ask(alloc, fresh, table, attrs, keys(alloc, lo, hi)?)
        }
        Sent::Values(attrs) => ask(alloc, true, 0, attrs, values(alloc)?),
        Sent::Write(sql) => write(alloc, sql),
        Sent::Lapse => Ok(Message::Lapse { version: 0 }),
    }
}

// Whether the server takes the message and sends these, or refuses it for that reason.
fn takes(
    alloc: Global,
    server: &mut Server,
    client: u8,
    message: &Message,
    wanted: Wanted,
) -> Result<bool, NoMemory>
    requires stands { StandsForSome server.old }
    requires parts { has_few_parts message.now ≡ true }
    requires number { newest_of server.old.log < 100 }
    ensures stands { OnOk result (StandsForSome server.new) }
    ensures grows { OnOk result (newest_of server.new.log ≤ newest_of server.old.log + 1) }
{
    if client == 0 || client > 64 {
        return Ok(false);
    }
    match server.take(alloc, client, message) {
        Ok(sent) => Ok(are(sent.as_slice(), wanted)),
        Err(No::Refused(why)) => Ok(is_bad(why, wanted)),
        Err(No::NoMemory) => Err(NoMemory),
    }
}

fn is_bad(why: BadFrame, wanted: Wanted) -> bool {
    match wanted {
        Wanted::Bad(reason) => why == reason,
        _ => false,
    }
}

// As `takes`, of a message that nothing needs any more.
fn takes_one(
    alloc: Global,
    server: &mut Server,
    client: u8,
    message: Message,
    wanted: Wanted,
) -> Result<bool, NoMemory>
    requires stands { StandsForSome server.old }
    requires parts { has_few_parts message ≡ true }
    requires number { newest_of server.old.log < 100 }
    ensures stands { OnOk result (StandsForSome server.new) }
    ensures grows { OnOk result (newest_of server.new.log ≤ newest_of server.old.log + 1) }
{
    takes(alloc, server, client, &message, wanted)
}

fn is_pushed(sent: &Option<Messages>, wanted: Wanted) -> bool {
    match sent {
        None => matches!(wanted, Wanted::Closed),
        Some(sent) => are(sent.as_slice(), wanted),
    }
}

// Whether a push sends these.
fn pushes(alloc: Global, server: &mut Server, client: u8, wanted: Wanted) -> Result<bool, NoMemory>
    requires stands { StandsForSome server.old }
    ensures stands { OnOk result (StandsForSome server.new) }
    ensures grows { OnOk result (newest_of server.new.log ≡ newest_of server.old.log) }
{
    if client == 0 || client > 64 {
        return Ok(false);
    }
    let sent = server.push(alloc, client)?;
    Ok(is_pushed(&sent, wanted))
}

fn cut(server: &mut Server, client: u8) -> bool
    requires stands { StandsForSome server.old }
    ensures stands { StandsForSome server.new }
    ensures grows { newest_of server.new.log ≡ newest_of server.old.log }
{
    if client == 0 || client > 64 {
        return false;
    }
    server.cut(client);
    true
}

fn does_step(alloc: Global, server: &mut Server, step: Step) -> Result<bool, NoMemory>
    requires stands { StandsForSome server.old }
    requires number { newest_of server.old.log < 100 }
    ensures stands { OnOk result (StandsForSome server.new) }
    ensures grows { OnOk result (newest_of server.new.log ≤ newest_of server.old.log + 1) }
{
    match step {
        Step::Take(client, sent, wanted) => {
            let message = message(alloc, sent)?;
            takes_one(alloc, server, client, message, wanted)
        }
        Step::Push(client, wanted) => pushes(alloc, server, client, wanted),
        Step::Cut(client) => Ok(cut(server, client)),
    }
}

// Which step of these is not done so by the server, or how many there are.
fn steps_done(alloc: Global, server: &mut Server, steps: &[Step]) -> Result<usize, NoMemory>
    requires stands { StandsForSome server.old }
    requires number { newest_of server.old.log ≡ 0 }
{
    for (i, step) in steps.iter().enumerate() {
        if i >= 99 || !does_step(alloc, server, *step)? {
            return Ok(i);
        }
    }
    Ok(steps.len())
}

// The same, of a new server.
fn done(alloc: Global, steps: &[Step]) -> Result<usize, NoMemory> {
    let mut server = server(alloc)?;
    steps_done(alloc, &mut server, steps)
}

// Client 1 writes; client 2 has asked for all keys from 0 to 9, and client 1 for those from 5 on.
static TOLD: [Step; 9] = [
    Step::Take(1, Sent::Hello(1), Wanted::One((0x11, 0, 0))),
    Step::Take(2, Sent::Hello(2), Wanted::One((0x11, 0, 0))),
    Step::Take(
        1,
        Sent::Write("INSERT INTO t VALUES (1, 10)"),
        Wanted::One((0x15, 1, 0)),
    ),
    Step::Take(
        2,
        Sent::Ask(true, (0, 9), (0, 3)),
        Wanted::Two((0x13, 0, 1), (0x14, 1, 0)),
    ),
    Step::Take(
        1,
        Sent::Ask(false, (5, 9), (0, 3)),
        Wanted::One((0x14, 1, 0)),
    ),
    Step::Take(
        1,
        Sent::Write("UPDATE t SET a = 11 WHERE k = 1"),
        Wanted::One((0x15, 2, 0)),
    ),
    Step::Push(2, Wanted::One((0x12, 2, 1))),
    Step::Push(2, Wanted::Nothing),
    Step::Take(
        1,
        Sent::Write("INSERT INTO t VALUES (6, 60)"),
        Wanted::Two((0x12, 3, 1), (0x15, 3, 0)),
    ),
];

// The log keeps one change, so the first of two writes is dropped.
static DROPPED: [Step; 10] = [
    Step::Take(1, Sent::Hello(1), Wanted::One((0x11, 0, 0))),
    Step::Take(2, Sent::Hello(2), Wanted::One((0x11, 0, 0))),
    Step::Take(
        2,
        Sent::Ask(true, (0, 9), (0, 3)),
        Wanted::One((0x14, 0, 0)),
    ),
    Step::Take(
        1,
        Sent::Write("INSERT INTO t VALUES (1, 10)"),
        Wanted::One((0x15, 1, 0)),
    ),
    Step::Take(
        1,
        Sent::Write("INSERT INTO t VALUES (2, 20)"),
        Wanted::One((0x15, 2, 0)),
    ),
    Step::Push(2, Wanted::One((0x17, 2, 0))),
    Step::Push(2, Wanted::Nothing),
    Step::Take(
        1,
        Sent::Write("DELETE FROM t WHERE k = 1"),
        Wanted::One((0x15, 3, 0)),
    ),
    Step::Push(2, Wanted::One((0x12, 3, 0))),
    Step::Push(3, Wanted::Closed),
];

// A second row of key 1 is refused. Then client 2 resumes at a version that the log reaches back to, and at an earlier one.
static RESUMED: [Step; 7] = [
    Step::Take(1, Sent::Hello(1), Wanted::One((0x11, 0, 0))),
    Step::Take(
        1,
        Sent::Write("INSERT INTO t VALUES (1, 10)"),
        Wanted::One((0x15, 1, 0)),
    ),
    Step::Take(
        1,
        Sent::Write("INSERT INTO t VALUES (1, 20)"),
        Wanted::One((0x16, 0, 0)),
    ),
    Step::Take(
        1,
        Sent::Write("DELETE FROM t WHERE k = 1"),
        Wanted::One((0x15, 2, 0)),
    ),
    Step::Take(
        2,
        Sent::Resume(2, 1, 0),
        Wanted::Two((0x12, 2, 1), (0x11, 2, 1)),
    ),
    Step::Cut(2),
    Step::Take(2, Sent::Resume(2, 0, 0), Wanted::One((0x11, 2, 0))),
];

// Table 9 is not there. Columns 2 lack the key, columns 7 are more than there are, columns 1 lack `a`; no key lies between 9 and 0.
static REFUSED: [Step; 19] = [
    Step::Take(2, Sent::Lapse, Wanted::Bad(BadFrame::Direction)),
    Step::Take(
        1,
        Sent::Ask(true, (0, 9), (9, 3)),
        Wanted::Bad(BadFrame::State),
    ),
    Step::Take(
        1,
        Sent::Write("DELETE FROM t"),
        Wanted::Bad(BadFrame::State),
    ),
    Step::Take(1, Sent::Hello(2), Wanted::Bad(BadFrame::State)),
    Step::Take(1, Sent::Hello(1), Wanted::One((0x11, 0, 0))),
    Step::Take(1, Sent::Hello(1), Wanted::Bad(BadFrame::State)),
    Step::Take(1, Sent::Lapse, Wanted::Bad(BadFrame::Direction)),
    Step::Take(
        1,
        Sent::Ask(true, (0, 9), (9, 3)),
        Wanted::Bad(BadFrame::Shape),
    ),
    Step::Take(
        1,
        Sent::Ask(true, (0, 9), (0, 2)),
        Wanted::Bad(BadFrame::Shape),
    ),
    Step::Take(
        1,
        Sent::Ask(true, (0, 9), (0, 7)),
        Wanted::Bad(BadFrame::Shape),
    ),
    Step::Take(
        1,
        Sent::Ask(true, (9, 0), (0, 3)),
        Wanted::Bad(BadFrame::Shape),
    ),
    Step::Take(1, Sent::Values(1), Wanted::Bad(BadFrame::Shape)),
    Step::Take(1, Sent::Values(3), Wanted::One((0x14, 0, 0))),
    Step::Take(2, Sent::Resume(2, 0, 9), Wanted::Bad(BadFrame::Shape)),
    Step::Take(2, Sent::Later(1), Wanted::Bad(BadFrame::Shape)),
    Step::Take(2, Sent::Later(2), Wanted::Bad(BadFrame::Shape)),
    Step::Take(2, Sent::Later(7), Wanted::Bad(BadFrame::Shape)),
    Step::Take(2, Sent::Later(3), Wanted::One((0x11, 0, 1))),
    Step::Take(
        1,
        Sent::Ask(true, (0, 9), (0, 1)),
        Wanted::One((0x14, 0, 0)),
    ),
];

#[test]
fn each_step_is_answered_by_the_rules(rt: HostRuntime) {
    let alloc = rt.alloc();
    assert!(rt; done(alloc, &TOLD) == Ok(9));
    assert!(rt; done(alloc, &DROPPED) == Ok(10));
    assert!(rt; done(alloc, &RESUMED) == Ok(7));
    assert!(rt; done(alloc, &REFUSED) == Ok(19));
}

// Whether a row may be loaded into table 0.
fn fits(tables: &Tables, row: &Row) -> bool
    ensures known { IsTrue result → 0 < length tables.now.schema }
    ensures width { IsTrue result → length row.now ≡ length (table_at tables.now.schema 0).columns }
{
    match tables.schema().get(0) {
        Some(table) => table.columns.len() == row.len(),
        None => false,
    }
}

// Loads a row, or answers that it is refused.
fn loads(alloc: Global, tables: &mut Tables, row: Row) -> Result<bool, NoMemory> {
    if !fits(tables, &row) {
        return Ok(false);
    }
    match tables.load(alloc, 0, row) {
        Ok(()) => Ok(true),
        Err(No::Refused(_)) => Ok(false),
        Err(No::NoMemory) => Err(NoMemory),
    }
}

// The table with 600 rows, in each of which `a` is 30.
fn filled(alloc: Global) -> Result<Tables, NoMemory> {
    let mut tables = Tables::empty(alloc, schema(alloc)?)?;
    for key in 0..600 {
        let row = list_of(alloc, [Cell::Num(key), Cell::Num(30)])?;
        if !loads(alloc, &mut tables, row)? {
            return Ok(tables);
        }
    }
    Ok(tables)
}

// Whether the next message of an Outbox is this one.
fn gives(
    alloc: Global,
    server: &Server,
    outbox: &mut Outbox,
    wanted: Seen,
) -> Result<bool, NoMemory> {
    match outbox.next(alloc, server)? {
        Some(message) => Ok(seen(&message) == wanted),
        None => Ok(false),
    }
}

// Whether an Outbox gives these messages, and then none.
fn gives_all(
    alloc: Global,
    server: &Server,
    outbox: &mut Outbox,
    wanted: &[Seen],
) -> Result<bool, NoMemory> {
    for seen in wanted {
        if !gives(alloc, server, outbox, *seen)? {
            return Ok(false);
        }
    }
    Ok(outbox.next(alloc, server)?.is_none())
}

// Whether client 1 is answered so that asks for the whole table.
fn answers_whole(alloc: Global, server: &mut Server, wanted: &[Seen]) -> Result<bool, NoMemory>
    requires stands { StandsForSome server.old }
    requires number { newest_of server.old.log ≡ 0 }
{
    let hello = message(alloc, Sent::Hello(1))?;
    if !takes_one(alloc, server, 1, hello, Wanted::One((0x11, 0, 0)))? {
        return Ok(false);
    }
    let whole = ask(
        alloc,
        true,
        0,
        3,
        rects_of(alloc, [Span::Full, Span::Full])?,
    )?;
    match server.begin(alloc, 1, &whole) {
        Ok(outbox) => {
            let mut outbox = outbox;
            gives_all(alloc, server, &mut outbox, wanted)
        }
        Err(_) => Ok(false),
    }
}

// The same, of a server whose table has 600 rows.
fn is_made_so(alloc: Global, wanted: &[Seen]) -> Result<bool, NoMemory> {
    let mut server = Server::new(alloc, filled(alloc)?, 1)?;
    answers_whole(alloc, &mut server, wanted)
}

static WHOLE: [Seen; 4] = [(0x13, 0, 256), (0x13, 0, 256), (0x13, 0, 88), (0x14, 0, 0)];

#[test]
fn a_reply_is_made_message_by_message(rt: HostRuntime) {
    let alloc = rt.alloc();
    assert!(rt; is_made_so(alloc, &WHOLE) == Ok(true));
}
