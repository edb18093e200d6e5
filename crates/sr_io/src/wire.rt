//! One connection in memory.
ghost use Rattle.std.specs.Prelude.{◌≡◌, length, min, take, IfOk, OnErr};
ghost use Rattle.sr_io.specs.Told.{Connection, fresh, sends, takes};

use crate::piece::{add_piece, copy_piece};
use sr_cell::list::{Bytes, Copied, NoMemory, Seq};
use sr_cell::text::Text;
use std::alloc::Global;
use std::marker::Model;

/// The address at which it was made, the bytes that it brings, how many of them were taken, and the bytes that were sent. Contracts see a
/// connection.
#[derive(Drop)]
pub struct Wire {
    address: Text,
    brings: Bytes,
    at: usize,
    sent: Bytes,
}

impl Model for Wire {
    ghost use Rattle.std.specs.Prelude.{length, take, drop, ◌≤◌};
    ghost use Rattle.sr_io.specs.Told.{Connection};

    ghost Value = { Connection };

    ghost view = { λ w. record { address = w.address; sent = w.sent; taken = take w.at w.brings; coming = drop w.at w.brings } };

    ghost invariant = { λ w. w.at ≤ length w.brings };
}

impl Wire {
    /// Nothing was sent or taken yet.
    pub fn new(alloc: Global, address: Text, brings: Bytes) -> Wire
        ensures { result ≡ fresh address brings }
    {
        Wire {
            address,
            brings,
            at: 0,
            sent: Seq::new(alloc),
        }
    }

    /// Sends the first of the bytes, at most `piece` of them.
    pub fn put(&mut self, bytes: &[u8], piece: usize) -> Result<usize, NoMemory>
        ensures count { IfOk result (λ n. n ≡ min (length bytes.now) piece) }
        ensures sent { IfOk result (λ n. self.new ≡ sends (take n bytes.now) self.old) }
        ensures unchanged { OnErr result (self.new ≡ self.old) }
    {
        add_piece(&mut self.sent, bytes, piece)
    }

    /// Takes the first of the bytes to come, at most `piece` of them; takes no memory.
    pub fn get(&mut self, room: &mut [u8], piece: usize) -> usize
        ensures count { result ≡ min (min (length self.old.coming) (length room.old)) piece }
        ensures room { length room.new ≡ length room.old }
        ensures first { take result self.old.coming ≡ take result room.new }
        ensures taken { self.new ≡ takes (take result room.new) self.old }
    {
        let count = copy_piece(&self.brings, self.at, room, piece);
        self.at += count;
        count
    }

    /// A copy of the bytes that were sent.
    pub fn sent(&self, alloc: Global) -> Result<Bytes, NoMemory>
        ensures { IfOk result (λ bytes. bytes ≡ self.now.sent) }
    {
        self.sent.copy(alloc)
    }
}
