//! The packet ids that a sender gives out.

ghost use Rattle.std.specs.Prelude.{◌≡◌, ◌+◌, ◌-◌, ◌^◌, ◌↔◌, IfOk, IsErr, OnErr};

use std::marker::Model;

/// No packet id is left.
#[derive(Clone, Copy, Debug, PartialEq, Eq)]
pub struct Spent;

/// Packet ids in order, each given out once. Contracts see the last id that was given out.
#[derive(Debug, Drop)]
pub struct SendIds {
    last: u32,
}

impl Model for SendIds {
    ghost use Rattle.std.specs.Prelude.{ℕ};

    ghost Value = { ℕ };

    ghost view = { λ ids. ids.last };
}

impl SendIds {
    /// The ids behind this one, which is 0 where none was given out.
    pub fn at(last: u32) -> SendIds
        ensures { result ≡ last }
    {
        SendIds { last }
    }

    /// The last id that was given out.
    pub fn last(&self) -> u32
        ensures { result ≡ self.now }
    {
        self.last
    }

    /// The next id. Spent comes exactly where the last id is 0xFFFFFFFF, and nothing changes then.
    pub fn next(&mut self) -> Result<u32, Spent>
        ensures given { IfOk result (λ id. (id ≡ self.old + 1) × (self.new ≡ self.old + 1)) }
        ensures spent { IsErr result ↔ (self.old ≡ 2 ^ 32 - 1) }
        ensures unchanged { OnErr result (self.new ≡ self.old) }
    {
        if self.last == u32::MAX {
            return Err(Spent);
        }
        self.last += 1;
        Ok(self.last)
    }
}
