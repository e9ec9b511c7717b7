//! What a server's core keeps.

use crate::client::ClientState;
use crate::queue::DeviceQueue;
use address_pool::Pool;
use client_table::ClientTable;
use ovpn_config::Settings;
use route_table::RouteTable;
use tls_crypt::StaticKey;
use vpn_base::{Cid, Ip4, Moment, Place};

/// A server's core.
#[derive(Drop)]
pub struct ServerCore<S> {
    /// The configuration.
    pub settings: Settings,
    /// The static key.
    pub key: StaticKey,
    /// The clients that are here.
    pub clients: ClientTable<ClientState<S>>,
    /// The rows of the route table, and the hosts that were learned.
    pub routes: RouteTable,
    /// The addresses in the tunnel that established clients have.
    pub pool: Pool,
    /// An address that was taken ahead, for a client that may be established.
    pub held: Option<Ip4>,
    /// The packets that wait for the packet device.
    pub queue: DeviceQueue,
    /// The moment of the last event.
    pub moment: Moment,
    /// How many connections of the TLS engine were opened.
    pub connections: u64,
    /// How many bytes all data packets had that opened fresh.
    pub bytes_in: u64,
    /// How many bytes all data packets had that were sealed.
    pub bytes_out: u64,
    /// Seconds between two byte counts; 0 is never.
    pub count_interval: u64,
    /// The moment from which that interval runs.
    pub counted_at: Moment,
    /// Whether the server was stopped.
    pub is_stopped: bool,
    /// How many events it took.
    pub events: u64,
    /// The key session to which the datagram of the last event went.
    pub last_taken: Option<Place>,
    /// The client whose turn it is in a step.
    pub turn: Cid,
    /// How many control datagrams were staged when its turn began.
    pub mark: usize,
}
