//! A link of a session: what waits to go up, and how much has come down.

ghost use Rattle.std.specs.Prelude.{◌≡◌, ◌↔◌, ◌+◌, ◌<◌, ◌^◌, suc, if◌then◌else◌, [], length, take, IfOk, OnOk, IsTrue};
ghost use Rattle.ncc_clients.specs.Links.{lift_all, lift_bytes, lift_requests, requests_in};
ghost use Rattle.ncc_clients.specs.Drives.{with_parcel};

use crate::parcel::Parcel;
use ncc_pack::{Bytes, Memory};
use std::alloc::Global;
use std::collections::VecDeque;
use std::marker::Model;

/// A link of a session.
#[derive(Drop)]
pub struct Link {
    conn: u64,
    up: VecDeque<Parcel>,
    down: u64,
    alloc: Global,
}

impl Model for Link {
    ghost use Rattle.ncc_clients.specs.Links.{Link};

    ghost Value = { Link };

    ghost view = { λ l. record { conn = l.conn; up = l.up.items; down = l.down } };
}

impl Link {
    /// A link that is this connection. Nothing has moved. It takes no memory.
    pub fn new(alloc: Global, conn: u64) -> Link
        ensures made { result ≡ record { conn = conn; up = []; down = 0 } }
    {
        Link {
            conn,
            up: VecDeque::new(alloc),
            down: 0,
            alloc,
        }
    }

    /// The number of its connection. It takes no memory.
    pub fn conn(&self) -> u64
        ensures exact { result ≡ self.now.conn }
    {
        self.conn
    }

    /// How many bytes have come down. It takes no memory.
    pub fn down(&self) -> u64
        ensures exact { result ≡ self.now.down }
    {
        self.down
    }

    /// Says whether nothing waits to go up. It takes no memory.
    pub fn is_empty(&self) -> bool
        ensures empty { IsTrue result ↔ (self.now.up ≡ []) }
    {
        self.up.is_empty()
    }

    /// How many requests wait to go up, of those that count. It takes no memory.
    pub fn requests(&self) -> u64
        ensures exact { result ≡ requests_in self.now.up }
    {
        let mut count = 0;
        for index in 0..self.up.len() {
            if self.counts(index) {
                count += 1;
            }
        }
        count
    }

    #[tactic(auto, using(crate::proofs::Parcels::one_more))]
    fn counts(&self, index: usize) -> bool
        requires there { index < length self.now.up }
        ensures { requests_in (take (index + 1) self.now.up) ≡ (if result then suc (requests_in (take index self.now.up))
            else requests_in (take index self.now.up)) }
    {
        match self.up.get(index) {
            Some(parcel) => parcel.counts(),
            None => false,
        }
    }

    /// Bytes are sent: they wait to go up.
    pub fn send(&mut self, bytes: Bytes) -> Result<(), Memory>
        ensures ok { OnOk result (self.new ≡ with_parcel bytes self.old) }
    {
        self.up.push_back(Parcel::new(bytes))?;
        Ok(())
    }

    /// So many more bytes have come down. It takes no memory.
    pub fn fall(&mut self, count: u64)
        requires within { self.old.down + count < 2 ^ 64 }
        ensures down { self.new ≡ record self.old { down = self.old.down + count } }
    {
        self.down += count;
    }

    #[tactic(auto, using(std::proofs::lemmas::List::append_assoc))]
    /// What goes up where all does.
    pub fn lift_all(&mut self) -> Result<Bytes, Memory>
        ensures ok { IfOk result (λ moved. record { moved = moved; left = self.new.up } ≡ lift_all self.old.up) }
        ensures same { OnOk result (self.new ≡ record self.old { up = self.new.up }) }
    {
        let mut moved = Bytes::new(self.alloc);
        while let Some(parcel) = self.up.pop_front() {
            moved.extend(parcel.rest())?;
        }
        Ok(moved)
    }

    #[tactic(auto, using(std::proofs::lemmas::List::append_assoc), unfolding(crate::specs::Links::lift_requests))]
    /// What goes up up to the end of so many requests.
    pub fn lift_requests(&mut self, count: u64) -> Result<Bytes, Memory>
        ensures ok { IfOk result (λ moved. record { moved = moved; left = self.new.up } ≡ lift_requests count self.old.up) }
        ensures same { OnOk result (self.new ≡ record self.old { up = self.new.up }) }
    {
        let mut moved = Bytes::new(self.alloc);
        let mut left = count;
        while left != 0 {
            let Some(parcel) = self.up.pop_front() else {
                return Ok(moved);
            };
            moved.extend(parcel.rest())?;
            if parcel.counts() {
                left -= 1;
            }
        }
        Ok(moved)
    }

    #[tactic(auto, using(std::proofs::lemmas::List::append_assoc), unfolding(crate::specs::Links::lift_bytes))]
    /// What goes up where at most so many bytes do.
    pub fn lift_bytes(&mut self, count: u64) -> Result<Bytes, Memory>
        ensures ok { IfOk result (λ moved. record { moved = moved; left = self.new.up } ≡ lift_bytes count self.old.up) }
        ensures same { OnOk result (self.new ≡ record self.old { up = self.new.up }) }
    {
        let mut moved = Bytes::new(self.alloc);
        let mut left = count;
        while let Some(parcel) = self.up.pop_front() {
            let mut parcel = parcel;
            let len = parcel.rest().len() as u64;
            if left < len {
                moved.extend(&parcel.rest()[..left as usize])?;
                parcel.go(left as usize);
                self.up.push_front(parcel)?;
                return Ok(moved);
            }
            moved.extend(parcel.rest())?;
            left -= len;
        }
        Ok(moved)
    }
}
