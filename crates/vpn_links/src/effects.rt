//! What a core has done to the outside.

use crate::notes::Note;
use vpn_base::{Addr, Cid, Conn, Ip4, Role, RouteList, TextList};

/// One effect of a step, whose bytes lie in the outbox that lends it.
#[derive(Clone, Copy)]
pub enum Effect<'a> {
    /// A datagram goes to an address.
    Wire {
        /// Where it goes.
        to: Addr,
        /// Its bytes.
        bytes: &'a [u8],
    },
    /// The TLS engine is to open a connection.
    EngineOpen {
        /// The number of the connection.
        conn: Conn,
        /// Which end it is.
        role: Role,
    },
    /// Control text of the other end goes to the TLS engine.
    EnginePut {
        /// The engine connection.
        conn: Conn,
        /// The text.
        bytes: &'a [u8],
    },
    /// Plain text goes to the other end, through the TLS engine.
    EngineWrite {
        /// The engine connection.
        conn: Conn,
        /// The plain text.
        bytes: &'a [u8],
    },
    /// The TLS engine is to close a connection.
    EngineClose {
        /// The engine connection.
        conn: Conn,
    },
    /// An inner packet goes to the packet device.
    Device {
        /// Its bytes.
        bytes: &'a [u8],
    },
    /// The packet device is to be configured.
    Configure {
        /// Its address.
        address: Ip4,
        /// How many bits the addresses of its subnet share.
        len: u8,
        /// The gateway, if there is one.
        gateway: Option<Ip4>,
        /// The routes that lead into the tunnel.
        routes: &'a RouteList,
        /// The options that were pushed beside.
        rest: &'a TextList,
    },
    /// The file of a client is wanted.
    Ask {
        /// The client.
        cid: Cid,
        /// The name of the file.
        name: &'a [u8],
    },
    /// A line of the management interface, without its end.
    Say {
        /// Its bytes.
        bytes: &'a [u8],
    },
    /// A note for the operator.
    Report(Note),
    /// The program is to end.
    Stop,
}
