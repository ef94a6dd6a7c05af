//! What was sent and waits to go up.

ghost use Rattle.std.specs.Prelude.{◌≡◌, ◌≤◌, bytes_eq, length, drop};
ghost use Rattle.ncc_driver.specs.Requests.{shake_bytes};
ghost use Rattle.ncc_clients.specs.Links.{counts, goodbye_bytes, parcel};

use ncc_pack::Bytes;
use std::marker::Model;

// 60 60 B0 17, and four proposals: 4.4 alone (Bolt 4.4, "Handshake").
const SHAKE: &[u8] = &[
    0x60, 0x60, 0xB0, 0x17, 0, 0, 4, 4, 0, 0, 0, 0, 0, 0, 0, 0, 0, 0, 0, 0,
];

// GOODBYE in one chunk (Bolt 4.4, "GOODBYE").
const GOODBYE: &[u8] = &[0, 2, 0xB0, 0x02, 0, 0];

/// One thing that was sent: what of it has not gone up, and whether it is a request that counts.
#[derive(Drop)]
pub struct Parcel {
    bytes: Bytes,
    // So many bytes have gone up.
    gone: usize,
    counts: bool,
}

impl Model for Parcel {
    ghost use Rattle.ncc_clients.specs.Links.{Parcel};
    ghost use Rattle.std.specs.Prelude.{drop, length, ◌≤◌};

    ghost Value = { Parcel };

    ghost view = { λ p. record { bytes = drop p.gone p.bytes; counts = p.counts } };

    ghost invariant = { λ p. p.gone ≤ length p.bytes };
}

#[tactic(auto, using(crate::proofs::Parcels::shake_is))]
fn is_shake(bytes: &[u8]) -> bool
    ensures { result ≡ bytes_eq bytes.now shake_bytes }
{
    bytes == SHAKE
}

#[tactic(auto, using(crate::proofs::Parcels::goodbye_is))]
fn is_goodbye(bytes: &[u8]) -> bool
    ensures { result ≡ bytes_eq bytes.now goodbye_bytes }
{
    bytes == GOODBYE
}

// Handshakes and GOODBYE do not count.
fn counts(bytes: &[u8]) -> bool
    ensures { result ≡ counts bytes.now }
{
    !is_shake(bytes) && !is_goodbye(bytes)
}

impl Parcel {
    /// What was just sent. It takes no memory.
    pub fn new(bytes: Bytes) -> Parcel
        ensures made { result ≡ parcel bytes }
    {
        let counts = counts(bytes.as_slice());
        Parcel {
            bytes,
            gone: 0,
            counts,
        }
    }

    /// What of it has not gone up. It takes no memory.
    pub fn rest(&self) -> &[u8]
        ensures rest { result.now ≡ self.now.bytes }
    {
        &self.bytes.as_slice()[self.gone..]
    }

    /// Says whether it is a request that counts. It takes no memory.
    pub fn counts(&self) -> bool
        ensures exact { result ≡ self.now.counts }
    {
        self.counts
    }

    #[tactic(auto, using(crate::proofs::Parcels::within, crate::proofs::Parcels::drop_more))]
    /// So many bytes of it go up, which it still has. It takes no memory.
    pub fn go(&mut self, count: usize)
        requires there { count ≤ length self.old.bytes }
        ensures gone { self.new ≡ record self.old { bytes = drop count self.old.bytes } }
    {
        let _len = self.bytes.len();
        self.gone += count;
    }
}
