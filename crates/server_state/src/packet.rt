//! Room for one inner packet.

ghost use Rattle.std.specs.Prelude.{◌≡◌, ◌≤◌, [], length, IfOk};

use std::alloc::Global;
use std::marker::Model;
use vpn_base::NoMemory;

// The longest inner packet, in bytes.
const LONGEST: usize = 1500;

/// An inner packet, in a place that has room for any. Contracts see its bytes.
#[derive(Drop)]
pub struct Packet {
    bytes: Vec<u8>,
}

impl Model for Packet {
    ghost use Rattle.std.specs.Prelude.{ℕ, List, ◌≤◌, length, vec_capacity};

    ghost Value = { List ℕ };

    ghost view = { λ p. p.bytes.items };

    ghost invariant = { λ p. (1500 ≤ vec_capacity p.bytes) × (length p.bytes.items ≤ 1500) };
}

impl Packet {
    /// Room for a packet, with no bytes yet.
    pub fn make(alloc: Global) -> Result<Packet, NoMemory>
        ensures { IfOk result (λ p. p ≡ []) }
    {
        Ok(Packet {
            bytes: Vec::with_capacity(alloc, LONGEST)?,
        })
    }

    /// Puts a packet of at most 1,500 bytes into the place. It takes no memory.
    pub fn fill(&mut self, inner: &[u8])
        requires { length inner.now ≤ 1500 }
        ensures { self.new ≡ inner.now }
    {
        self.bytes.clear();
        let filled = self.bytes.extend_from_slice(inner);
        prove!(filled.is_ok());
        let _ = filled;
    }

    /// Its bytes.
    pub fn as_slice(&self) -> &[u8]
        ensures bytes { result.now ≡ self.now }
        ensures short { length self.now ≤ 1500 }
    {
        &self.bytes
    }
}
