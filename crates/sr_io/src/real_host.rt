//! The host over the runtime: files, standard input and output, the error output, and TCP connections.
ghost use Rattle.std.specs.Prelude.{◌≡◌, ◌<◌, ◌≤◌, [], length, Some, None, IfSome, OnOk, OnErr};
ghost use Rattle.std.specs.Option.{is_some};
ghost use Rattle.sr_io.specs.Told.{no_linking};

use crate::outside::{Dock, Failed, Host, Link, Outside, Sink, Source, count_fault};
use sr_cell::list::No;
use std::io::{ErrorKind, Read, Write};
use std::net::{Net, OpenListener, OpenStream, TcpListener, TcpStream};
use std::rt::Files;
use std::time::Duration;
use std::{fs, io, str};

/// What is read at present.
#[derive(Drop)]
enum Current<F, I> {
    Nothing,
    File(F),
    Input(I),
}

/// A host that tells nothing of its bytes; what it does rests on the operating system.
#[derive(Drop)]
pub struct RealHost<R: Files + Input + Print + Eprint + Net + Drop> {
    rt: R,
    current: Current<R::File, R::Reader>,
    stream: Option<R::Stream>,
    listener: Option<R::Listener>,
    patience: Duration,
    read_faults: u64,
    write_faults: u64,
    link_faults: u64,
}

impl<R: Files + Input + Print + Eprint + Net + Drop> RealHost<R> {
    /// Nothing is picked or connected yet. A receive for which nothing comes in 60 seconds fails, and a send of which nothing goes.
    pub fn new(rt: R) -> RealHost<R>
        ensures reading { ⟦<RealHost<R> as Outside>⟧.reading result ≡ record { left = None; faults = 0 } }
        ensures writing { ⟦<RealHost<R> as Outside>⟧.writing result ≡ record { written = None; faults = 0 } }
        ensures linking { ⟦<RealHost<R> as Outside>⟧.linking result ≡ no_linking }
    {
        RealHost::with_patience(rt, Duration::from_secs(60))
    }

    /// The same, but for how long a receive and a send wait.
    pub fn with_patience(rt: R, patience: Duration) -> RealHost<R>
        ensures reading { ⟦<RealHost<R> as Outside>⟧.reading result ≡ record { left = None; faults = 0 } }
        ensures writing { ⟦<RealHost<R> as Outside>⟧.writing result ≡ record { written = None; faults = 0 } }
        ensures linking { ⟦<RealHost<R> as Outside>⟧.linking result ≡ no_linking }
    {
        RealHost {
            rt,
            current: Current::Nothing,
            stream: None,
            listener: None,
            patience,
            read_faults: 0,
            write_faults: 0,
            link_faults: 0,
        }
    }

    /// From now on this connection is used, where the system can say when the peer is silent for too long.
    fn connect(&mut self, stream: R::Stream) -> io::Result<()>
        ensures used { OnOk result (self.new ≡ record self.old { stream = Some stream }) }
        ensures unchanged { OnErr result (self.new ≡ self.old) }
    {
        // else a small frame behind another would wait
        let _ = stream.set_nodelay(true);
        // else a peer that has vanished would be waited for forever
        stream.set_read_timeout(Some(self.patience))?;
        stream.set_write_timeout(Some(self.patience))?;
        self.stream = Some(stream);
        Ok(())
    }
}

/// Reads some bytes, again after a signal; `None` where that failed.
fn read_some<T: Read>(from: &mut T, room: &mut [u8]) -> Option<usize>
    requires { 0 < length room.old }
    ensures room { length room.new ≡ length room.old }
    ensures fits_room { IfSome result (λ n. n ≤ length room.new) }
{
    for _ in 0..u64::MAX {
        match from.read(room) {
            Ok(count) => return Some(count),
            Err(e) if e.kind() == ErrorKind::Interrupted => {}
            Err(_) => return None,
        }
    }
    None
}

/// Prints some bytes, again after a signal; `None` where that failed or nothing was taken.
fn print_some<R: Print>(rt: &R, bytes: &[u8]) -> Option<usize>
    ensures some_bytes { IfSome result (λ n. (0 < n) × (n ≤ length bytes.now)) }
{
    for _ in 0..u64::MAX {
        match rt.write_some(bytes) {
            Ok(0) => return None,
            Ok(count) => return Some(count),
            Err(e) if e.kind() == ErrorKind::Interrupted => {}
            Err(_) => return None,
        }
    }
    None
}

/// Writes some bytes, again after a signal; `None` where that failed or nothing was taken.
fn write_some<T: Write>(to: &mut T, bytes: &[u8]) -> Option<usize>
    ensures some_bytes { IfSome result (λ n. (0 < n) × (n ≤ length bytes.now)) }
{
    for _ in 0..u64::MAX {
        match to.write(bytes) {
            Ok(0) => return None,
            Ok(count) => return Some(count),
            Err(e) if e.kind() == ErrorKind::Interrupted => {}
            Err(_) => return None,
        }
    }
    None
}

impl<R: Files + Input + Print + Eprint + Net + Drop> Outside for RealHost<R> {
    ghost reading = { λ s. record { left = None; faults = s.read_faults } };

    ghost writing = { λ s. record { written = None; faults = s.write_faults } };

    ghost linking = { λ s. record { past = []; present = None; peers = None; docked = None; is_up = is_some s.stream; faults = s.link_faults } };

    ghost held = { λ _ _. None };

    ghost complaints = { λ _. None };

    ghost IsSteady = { λ _. ⊥ };
}

impl<R: Files + Input + Print + Eprint + Net + Drop> Source for RealHost<R> {
    fn read(&mut self, room: &mut [u8]) -> Result<usize, No<Failed>> {
        let got = match &mut self.current {
            Current::Nothing => Some(0),
            Current::File(file) => read_some(file, room),
            Current::Input(input) => read_some(input, room),
        };
        match got {
            Some(count) => Ok(count),
            None => Err(count_fault(&mut self.read_faults)),
        }
    }

    fn read_faults(&self) -> u64 {
        self.read_faults
    }
}

impl<R: Files + Input + Print + Eprint + Net + Drop> Sink for RealHost<R> {
    fn write(&mut self, bytes: &[u8]) -> Result<usize, No<Failed>> {
        match print_some(&self.rt, bytes) {
            Some(count) => Ok(count),
            None => Err(count_fault(&mut self.write_faults)),
        }
    }

    fn write_faults(&self) -> u64 {
        self.write_faults
    }
}

impl<R: Files + Input + Print + Eprint + Net + Drop> Link for RealHost<R> {
    fn send(&mut self, bytes: &[u8]) -> Result<usize, No<Failed>> {
        let put = match &mut self.stream {
            None => None,
            Some(stream) => write_some(stream, bytes),
        };
        match put {
            Some(count) => Ok(count),
            None => Err(count_fault(&mut self.link_faults)),
        }
    }

    fn recv(&mut self, room: &mut [u8]) -> Result<usize, No<Failed>> {
        let got = match &mut self.stream {
            None => None,
            Some(stream) => read_some(stream, room),
        };
        match got {
            Some(count) => Ok(count),
            None => Err(count_fault(&mut self.link_faults)),
        }
    }

    fn link_faults(&self) -> u64 {
        self.link_faults
    }
}

impl<R: Files + Input + Print + Eprint + Net + Drop> Dock for RealHost<R> {
    fn dock(&mut self, address: &str) -> Result<(), No<Failed>> {
        match TcpListener::bind(&self.rt, address) {
            Ok(listener) => {
                self.listener = Some(listener);
                Ok(())
            }
            Err(_) => Err(count_fault(&mut self.link_faults)),
        }
    }

    fn accept(&mut self) -> Result<(), No<Failed>> {
        if let Some(listener) = &self.listener
            && let Ok((stream, _)) = listener.accept()
            && self.connect(stream).is_ok()
        {
            return Ok(());
        }
        Err(count_fault(&mut self.link_faults))
    }

    fn hang_up(&mut self) {
        self.stream = None;
    }
}

impl<R: Files + Input + Print + Eprint + Net + Drop> Host for RealHost<R> {
    /// The name `-` is standard input.
    fn pick(&mut self, name: &str) -> Result<(), No<Failed>> {
        if name == "-" {
            self.current = Current::Input(self.rt.reader());
            return Ok(());
        }
        match fs::open(&self.rt, name) {
            Ok(file) => {
                self.current = Current::File(file);
                Ok(())
            }
            Err(_) => Err(count_fault(&mut self.read_faults)),
        }
    }

    fn dial(&mut self, address: &str) -> Result<(), No<Failed>> {
        if let Ok(stream) = TcpStream::connect(&self.rt, address)
            && self.connect(stream).is_ok()
        {
            return Ok(());
        }
        Err(count_fault(&mut self.link_faults))
    }

    /// What is no text is not said.
    fn complain(&mut self, bytes: &[u8]) {
        for chunk in bytes.utf8_chunks() {
            let _ = self.rt.eprint(chunk.valid());
        }
    }
}
