//! What a run came to.

use vpn_links::LinkFault;

/// How a run ended.
#[derive(Clone, Copy, Debug, PartialEq, Eq)]
pub enum Outcome {
    /// The core stopped, and everything that it did up to then was given.
    Stopped,
    /// The outside failed, by another fault than of the line.
    Fault(LinkFault),
    /// As many events as there may be were taken, and the core did not stop.
    TurnsSpent,
    /// There was not enough memory for the outbox, or for a call of the outside.
    Memory,
}

/// What a run came to, with three counts.
#[derive(Clone, Copy, Debug, PartialEq, Eq)]
pub struct Ran {
    /// How it ended.
    pub outcome: Outcome,
    /// How many events were taken.
    pub events: u64,
    /// How many datagrams were lost on the line, at most 2^64 - 1.
    pub lost: u64,
    /// How many events or hosts were left out for want of memory, at most 2^64 - 1.
    pub refused: u64,
}
