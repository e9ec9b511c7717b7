//! A core to which nothing has come.

ghost use Rattle.std.specs.Prelude.{◌≡◌, ◌+◌, ◌-◌, ◌^◌, ◌≤◌, IfOk, IfSome, IsSome, unwrap_or};
ghost use Rattle.vpn_base.specs.Network.{Network};
ghost use Rattle.vpn_base.specs.declared.names.Role.TheVariants.{Server};
ghost use Rattle.ovpn_config.specs.Bounds.{IsBounded};
ghost use Rattle.server_table.specs.Establishing.{first_address, last_address, network};
ghost use Rattle.server_table.specs.Table.{table_begun};
ghost use Rattle.server_state.specs.Core.{CoreStands, IsSound};

use crate::queue::DeviceQueue;
use crate::state::ServerCore;
use address_pool::Pool;
use client_table::ClientTable;
use ovpn_config::Settings;
use peer_table::ClientSession;
use route_table::RouteTable;
use std::alloc::Global;
use tls_crypt::StaticKey;
use vpn_base::{Cid, Ip4, Moment, NoMemory, Prefix};

// The second address behind that of the network.
#[tactic(auto, using(crate::proofs::Made::fits, crate::proofs::Made::four))]
fn first_in(net: Prefix) -> Ip4
    requires { net.len ≤ 30 }
    ensures { result.0 ≡ net.net.0 + 2 }
{
    Ip4((u64::from(net.net().0) + 2) as u32)
}

// The address before the last of the network.
#[tactic(auto, using(crate::proofs::Made::fits, crate::proofs::Made::four))]
fn last_in(net: Prefix) -> Ip4
    requires { net.len ≤ 30 }
    ensures { result.0 ≡ net.net.0 + 2 ^ (32 - net.len) - 2 }
{
    Ip4((u64::from(net.net().0) + (1u64 << (32 - net.len())) - 2) as u32)
}

impl<S: ClientSession> ServerCore<S> {
    /// A core to which nothing has come, with the settings of a server. It takes the memory of the queue to
    /// the packet device.
    pub fn make(
        alloc: Global,
        settings: Settings,
        key: StaticKey,
    ) -> Result<ServerCore<S>, NoMemory>
        requires bounded { IsBounded settings }
        requires server { settings.role ≡ Server }
        ensures made { IfOk result (λ core. CoreStands S.stands core (table_begun settings key.0)) }
        ensures sound { IfOk result (λ core. IsSound S.goes_on S.count S.since core) }
    {
        let Some(net) = settings.net else {
            unreachable!()
        };
        let most = settings.max_clients;
        let routes = RouteTable::new(alloc)?;
        let queue = DeviceQueue::make(alloc)?;
        Ok(ServerCore {
            settings,
            key,
            clients: ClientTable::new(alloc, most),
            routes,
            pool: Pool::new(alloc, first_in(net), last_in(net)),
            held: None,
            queue,
            moment: Moment(0),
            connections: 0,
            bytes_in: 0,
            bytes_out: 0,
            count_interval: 0,
            counted_at: Moment(0),
            is_stopped: false,
            events: 0,
            last_taken: None,
            turn: Cid(0),
            mark: 0,
        })
    }
}
