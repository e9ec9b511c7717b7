//! Numbers, identifiers and settings under names of their own.

ghost use Rattle.std.specs.Prelude.{◌≡◌};

/// The session id by which one end of a session is named on the wire.
#[derive(Clone, Copy, Debug, PartialEq, Eq, PartialOrd, Ord)]
pub struct Sid(pub [u8; 8]);

/// The number of a client, counted from 0 in the order in which clients were admitted.
#[derive(Clone, Copy, Debug, PartialEq, Eq, PartialOrd, Ord)]
pub struct Cid(pub u64);

/// The number of a connection to the TLS engine.
#[derive(Clone, Copy, Debug, PartialEq, Eq, PartialOrd, Ord)]
pub struct Conn(pub u64);

/// A moment, in milliseconds.
#[derive(Clone, Copy, Debug, PartialEq, Eq, PartialOrd, Ord)]
pub struct Moment(pub u64);

/// The random bytes that one event brings with it.
#[derive(Clone, Copy, Debug, PartialEq, Eq)]
pub struct Draw(pub [u8; 120]);

/// Which end of a session this is.
#[derive(Clone, Copy, Debug, PartialEq, Eq)]
pub enum Role {
    /// The end that admits clients.
    Server,
    /// The end that connects.
    Client,
}

/// A cipher for data packets.
#[derive(Clone, Copy, Debug, PartialEq, Eq)]
pub enum Cipher {
    /// AES-128-GCM.
    Aes128Gcm,
    /// AES-256-GCM.
    Aes256Gcm,
}

impl Cipher {
    ghost use Rattle.vpn_base.specs.CipherName.{cipher_name};

    /// Its name, as the configuration, the peer info and a push reply have it.
    pub fn name(self) -> &'static [u8]
        ensures { result.now ≡ cipher_name self }
    {
        match self {
            Cipher::Aes128Gcm => b"AES-128-GCM",
            Cipher::Aes256Gcm => b"AES-256-GCM",
        }
    }
}

/// How the cipher of a session is found.
#[derive(Clone, Copy, Debug, PartialEq, Eq)]
pub enum Policy {
    /// The first of these that the peer offers.
    Choose {
        /// The cipher that is tried first.
        first: Cipher,
        /// The cipher that is tried after it, if there is one.
        second: Option<Cipher>,
    },
    /// This one.
    Fixed(Cipher),
}

/// The packet ids that a control packet acknowledges: the first `count` of `ids`.
#[derive(Clone, Copy, Debug, PartialEq, Eq)]
pub struct Acks {
    /// How many ids count, at most 8.
    pub count: u8,
    /// The ids.
    pub ids: [u32; 8],
}

/// Which key session is meant.
#[derive(Clone, Copy, Debug, PartialEq, Eq)]
pub struct Place {
    /// Its engine connection.
    pub conn: Conn,
    /// The own session id.
    pub own: Sid,
    /// The peer's session id, where it is known.
    pub peer: Option<Sid>,
    /// The number of the key session within its client, from 0.
    pub number: u64,
}

/// The timers and the anti-replay window of a session.
#[derive(Clone, Copy, Debug, PartialEq, Eq)]
pub struct Timers {
    /// Seconds from the beginning of a key session to the next renegotiation; 0 is never.
    pub reneg: u32,
    /// Seconds for which the older key stays usable.
    pub tran: u32,
    /// Seconds within which a negotiation has to finish.
    pub hand: u32,
    /// Seconds from the first sending of a control packet to the next.
    pub timeout: u32,
    /// The width of the anti-replay window, in packet ids.
    pub win: u32,
    /// Seconds for which a late packet is still taken.
    pub win_secs: u32,
}

/// Why a client has ended.
#[derive(Clone, Copy, Debug, PartialEq, Eq)]
pub enum Cause {
    /// A negotiation did not finish in time.
    HandWindow,
    /// Nothing fresh came for too long.
    PingRestart,
    /// The TLS engine ended the connection.
    EngineDown,
    /// A renegotiation brought another common name.
    NameChanged,
    /// The common name can't be the name of a file.
    BadName,
    /// The peer offers none of the ciphers.
    NoCipher,
    /// The key exchange message can't be one, from this byte on.
    BadMessage {
        /// The place of the first byte that no message has there.
        place: u32,
    },
    /// Too much plain text stayed unread.
    Unread,
    /// Too much control text waits to be acknowledged.
    TextFull,
    /// The packet ids of wrapped control packets are used up.
    WrapSpent,
    /// The client's file disables it.
    Disabled,
    /// There is no file for the client, and one is required.
    NoCcd,
    /// The client's file could not be read.
    CcdFailed,
    /// The client's file is refused.
    CcdRefused {
        /// The line that is refused, from 1.
        line: u32,
    },
    /// No address is left.
    PoolEmpty,
    /// A client of the same common name was established.
    Replaced {
        /// The number of that client.
        by: Cid,
    },
    /// An operator ended it.
    Killed,
    /// The server refused the authentication.
    AuthFailed,
    /// The server told the client to restart.
    Restart,
    /// The server told the client to halt.
    HaltTold,
    /// The push reply is refused.
    PushRefused,
}

/// Why a datagram or the plain text of a control packet is no packet.
#[derive(Clone, Copy, Debug, PartialEq, Eq)]
pub enum Malformed {
    /// It has no bytes.
    Empty,
    /// Its opcode is none of those that are served.
    Opcode {
        /// The first byte.
        first: u8,
    },
    /// A field is cut off.
    Short,
    /// It acknowledges more than 8 packets.
    Acks,
    /// It acknowledges packets and lacks the receiver's session id.
    NoRemote,
}

/// What the anti-replay window says of a packet id.
#[derive(Clone, Copy, Debug, PartialEq, Eq)]
pub enum Freshness {
    /// It may be accepted.
    Fresh,
    /// It is 0, which no packet has.
    Zero,
    /// It lies below the window.
    Old,
    /// It was accepted before.
    Seen,
    /// A higher one was accepted too long ago.
    Late,
}
