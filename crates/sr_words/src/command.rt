//! What the words of the program ask for.
use sr_cell::list::Seq;
use sr_cell::text::Text;
use sr_policy::policy::Limits;

/// What the words ask for.
#[derive(Drop)]
pub enum Command {
    Replay(ReplayWords),
    Client(ClientWords),
    Save(ClientWords),
    Warm(WarmWords),
    Serve(ServeWords),
    Explain(ExplainWords),
    Generate(GenerateWords),
}

/// Replay a script over these files, and write its trace.
#[derive(Drop)]
pub struct ReplayWords {
    pub setup: Setup,
    pub script: Text,
    pub loads: LoadWords,
}

/// How a script is replayed: whether all deliveries are made after each event, what each client may keep, how many changes the log of
/// the server keeps, and how many clients there are.
#[derive(Clone, Copy, PartialEq, Eq)]
pub struct Setup {
    pub eager: bool,
    pub limits: Limits,
    pub log: u32,
    pub clients: u8,
}

/// A table, and the name of the file to be loaded into it.
#[derive(Drop)]
pub struct LoadWord {
    pub table: Text,
    pub file: Text,
}

pub type LoadWords = Seq<LoadWord>;

/// What a client does with the lines of its script.
#[derive(Drop)]
pub enum ClientKind {
    /// What each line asks.
    Client,
    /// The same; and lines of aggregates are answered from the rows of a query.
    Report,
    /// What each line asks, where joins of two tables ask the right one for the keys of the left one alone.
    Semi,
}

/// Run a script as the client of this number, over a link to that address.
#[derive(Drop)]
pub struct ClientWords {
    pub kind: ClientKind,
    pub limits: Limits,
    pub id: u8,
    pub schema: Text,
    pub address: Text,
    pub script: Text,
}

/// Run a script as a client that starts from the image of that file.
#[derive(Drop)]
pub struct WarmWords {
    pub client: ClientWords,
    pub image: Text,
}

/// Serve so many connections at that address, one after another.
#[derive(Drop)]
pub struct ServeWords {
    pub log: u32,
    pub exec: Option<Text>,
    pub schema: Text,
    pub address: Text,
    pub count: u32,
    pub loads: LoadWords,
}

/// Replay a script, and say how a query would be answered then.
#[derive(Drop)]
pub struct ExplainWords {
    pub setup: Setup,
    pub script: Text,
    pub sql: Text,
}

/// Make a script from a number, and write it, or what its replay comes to.
#[derive(Clone, Copy)]
pub struct GenerateWords {
    pub whole_script: bool,
    pub seed: u64,
    pub events: u32,
}
