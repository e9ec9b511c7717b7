//! What is reported of a step, for an operator to read.

use vpn_base::{Addr, Cause, Cid, Conn, Freshness, Ip4, Malformed, Sid};

/// Why something was dropped, or what became of a client. A `from` of None is the packet device.
#[derive(Clone, Copy, Debug, PartialEq, Eq)]
pub enum Note {
    /// A datagram is no packet.
    Malformed {
        /// What is wrong with it.
        kind: Malformed,
        /// Its first byte, if it has one.
        first: Option<u8>,
    },
    /// A control packet was not wrapped by the other end.
    NotWrapped,
    /// A wrapped control packet came before, or is too old.
    Replayed {
        /// The time of its wrap, in seconds.
        time: u32,
        /// The id of its wrap.
        id: u32,
    },
    /// No client has this peer id.
    UnknownPeer {
        /// The peer id.
        peer: u32,
    },
    /// No client has this session id at this address.
    UnknownSession {
        /// The session id.
        sid: Sid,
    },
    /// No open key session has this engine connection.
    UnknownConn {
        /// The engine connection.
        conn: Conn,
    },
    /// No more clients are admitted.
    Full {
        /// How many there may be.
        most: u32,
    },
    /// No usable key session has this key id.
    BadKey {
        /// The client.
        cid: Cid,
        /// The key id.
        kid: u8,
    },
    /// A data packet was not sealed under the key.
    NotSealed {
        /// The client.
        cid: Cid,
    },
    /// The id of a data packet is not fresh.
    Stale {
        /// The client.
        cid: Cid,
        /// Why it is not fresh.
        kind: Freshness,
        /// The id.
        id: u32,
        /// The greatest id that was accepted under the key.
        greatest: u32,
    },
    /// A client says that it is there.
    Ping {
        /// The client.
        cid: Cid,
    },
    /// An inner packet is not of IPv4.
    NotIp {
        /// The client that sent it.
        from: Option<Cid>,
    },
    /// An inner packet has too many bytes.
    TooLong {
        /// The client that sent it.
        from: Option<Cid>,
    },
    /// An inner packet goes to many.
    Multicast {
        /// The client that sent it.
        from: Option<Cid>,
    },
    /// A client does not own the source of its inner packet.
    BadSource {
        /// The client that sent it.
        cid: Cid,
        /// The client that owns the source, if one does.
        owner: Option<Cid>,
    },
    /// Nobody owns the destination of an inner packet.
    NoRoute,
    /// The packet ids under the key of the client that is sealed to are used up.
    KeySpent {
        /// The client that is sealed to.
        cid: Cid,
    },
    /// The queue to the packet device is full.
    QueueFull {
        /// The client that sent the packet.
        cid: Cid,
    },
    /// A client sends from another address now.
    Moved {
        /// The client.
        cid: Cid,
        /// The address.
        to: Addr,
    },
    /// A host was not learned, for want of memory.
    NotLearned {
        /// The client that it stands behind.
        cid: Cid,
        /// The host.
        host: Ip4,
    },
    /// A message or an engine answer that means nothing now.
    Ignored {
        /// The client.
        cid: Cid,
    },
    /// An answer for a client's file that nobody waits for.
    Unasked {
        /// The client.
        cid: Cid,
    },
    /// The tunnel is not configured yet.
    NotUp,
    /// A client has ended.
    Ended {
        /// The client.
        cid: Cid,
        /// Why it ended.
        cause: Cause,
    },
    /// An event was left out for want of memory.
    NoMemory,
}
