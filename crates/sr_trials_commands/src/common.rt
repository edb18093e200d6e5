//! A run over a host in memory, and how it came out.
ghost use Rattle.std.specs.Prelude.{◌<◌};

use sr_cell::list::{Bytes, NoMemory, Seq};
use sr_cell::text::Text;
use sr_cli::run::run;
use sr_io::file::{File, FileList};
use sr_io::mem_host::{MemHost, Peers};
use std::alloc::Global;

/// What the host holds: the files with their names, what each peer says, and the number of the call that fails, 0 for none.
#[derive(Clone, Copy)]
pub struct Given<'a> {
    pub files: &'a [(&'a str, &'a [u8])],
    pub peers: &'a [&'a [u8]],
    pub fails: u64,
}

/// How a run came out, with what was sent to the first peer.
#[derive(Drop)]
pub struct Outcome {
    pub status: u8,
    pub output: Bytes,
    pub error: Bytes,
    pub sent: Bytes,
}

/// Whether the run ended with this status, this output and this line on the error output.
pub fn ends(got: &Outcome, status: u8, output: &[u8], error: &[u8]) -> bool {
    got.status == status && got.output.as_slice() == output && got.error.as_slice() == error
}

fn bytes_of(alloc: Global, all: &[u8]) -> Result<Bytes, NoMemory> {
    let mut bytes = Seq::new(alloc);
    bytes.extend(all)?;
    Ok(bytes)
}

fn words_of(alloc: Global, all: &[&str]) -> Result<Seq<Text>, NoMemory> {
    let mut words = Seq::new(alloc);
    for word in all {
        words.push(Text::of(alloc, word)?)?;
    }
    Ok(words)
}

fn file_of(alloc: Global, name: &str, bytes: &[u8]) -> Result<File, NoMemory> {
    let bytes = bytes_of(alloc, bytes)?;
    Ok(File {
        name: Text::of(alloc, name)?,
        bytes,
    })
}

fn files_of(alloc: Global, all: &[(&str, &[u8])]) -> Result<FileList, NoMemory> {
    let mut files = Seq::new(alloc);
    for (name, bytes) in all {
        files.push(file_of(alloc, name, bytes)?)?;
    }
    Ok(files)
}

fn peers_of(alloc: Global, all: &[&[u8]]) -> Result<Peers, NoMemory> {
    let mut peers = Seq::new(alloc);
    for says in all {
        peers.push(bytes_of(alloc, says)?)?;
    }
    Ok(peers)
}

fn host_of(alloc: Global, given: Given<'_>, piece: usize) -> Result<MemHost, NoMemory>
    requires { 0 < piece }
{
    let mut numbers = Seq::new(alloc);
    numbers.push(given.fails)?;
    let files = files_of(alloc, given.files)?;
    MemHost::new(alloc, files, peers_of(alloc, given.peers)?, numbers, piece)
}

fn outcome_of(alloc: Global, status: u8, host: &MemHost) -> Result<Outcome, NoMemory> {
    Ok(Outcome {
        status,
        output: host.written(alloc)?,
        error: host.complained(alloc)?,
        sent: host.sent(alloc, 0)?,
    })
}

/// Runs the words over a host that holds what is given.
pub fn run_given(alloc: Global, words: &[&str], given: Given<'_>) -> Result<Outcome, NoMemory> {
    run_in_pieces(alloc, words, given, 4096)
}

/// The same, over a host that moves so many bytes at most in one call.
pub fn run_in_pieces(
    alloc: Global,
    words: &[&str],
    given: Given<'_>,
    piece: usize,
) -> Result<Outcome, NoMemory>
    requires { 0 < piece }
{
    let words = words_of(alloc, words)?;
    let mut host = host_of(alloc, given, piece)?;
    let status = run(alloc, words.as_slice(), &mut host);
    outcome_of(alloc, status, &host)
}
