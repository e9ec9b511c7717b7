//! What the calls of a client's session answer.

use vpn_base::{Cause, Conn, Freshness};

/// What the owner of a client's session is to do after a call.
#[derive(Clone, Copy, Debug, PartialEq, Eq)]
pub enum Turn {
    /// Nothing more.
    Going,
    /// The engine's answer means nothing now: the name is known already.
    Ignored,
    /// The client's name is known now: its file may be asked for.
    Named,
    /// The newest key session has all that its key exchange needs.
    Exchange,
    /// The client ends.
    Over(Cause),
}

/// Why a client's session does not take a control packet.
#[derive(Clone, Copy, Debug, PartialEq, Eq)]
pub enum Refused {
    /// Its wrap came before, or is too old.
    Replayed {
        /// The time of the wrap, in seconds.
        time: u32,
        /// The id of the wrap.
        id: u32,
    },
    /// No live key session has its key id, and it begins none.
    BadKey {
        /// The key id.
        kid: u8,
    },
}

/// Why a client's session does not open a data packet.
#[derive(Clone, Copy, Debug, PartialEq, Eq)]
pub enum SessionFault {
    /// No usable key session has its key id.
    BadKey {
        /// The key id.
        kid: u8,
    },
    /// It was not sealed under the key.
    NotSealed,
    /// It opens, and its packet id may not be accepted.
    Stale {
        /// Why the id may not be accepted.
        kind: Freshness,
        /// The id.
        id: u32,
        /// The greatest id that was accepted under the key.
        greatest: u32,
    },
}

/// A message behind a key exchange, without its NUL.
#[derive(Clone, Copy)]
pub struct Message<'a> {
    /// The engine connection that it came on.
    pub conn: Conn,
    /// Its bytes.
    pub bytes: &'a [u8],
}
