//! The verdict on an inner packet: where it goes, or why it is dropped.
#![tactic(auto)]

ghost use Rattle.std.specs.Prelude.{◌≡◌, ◌+◌, ◌*◌, ◌≤◌, length};
ghost use Rattle.route_table.specs.Owner.{owner};
ghost use Rattle.inner_verdict.specs.Verdict.{verdict, is_group, routed, sourced};

use ip_packets::Inner;
use route_table::{RouteTable, is_owner};
use std::sync::ledger::Ledger;
use vpn_base::{Cid, Ip4, Prefix, Steps};

/// The longest inner packet that is carried, in bytes.
pub const LONGEST_PACKET: usize = 1500;

/// Where an inner packet goes, or why it is dropped.
#[derive(Clone, Copy, Debug, PartialEq, Eq)]
pub enum Verdict {
    /// It is no IPv4 packet.
    NotIp,
    /// It is longer than 1,500 bytes.
    TooLong,
    /// Its destination is a multicast address, 255.255.255.255 or the subnet's broadcast.
    Multicast,
    /// The client that sent it does not own its source.
    BadSource {
        /// The client that does, if there is one.
        owner: Option<Cid>,
    },
    /// It goes to this client.
    ToClient(Cid),
    /// It goes to the device.
    ToDevice,
    /// It came from the device, and no client owns its destination.
    NoRoute,
}

fn is_for_many(subnet: Option<Prefix>, a: Ip4) -> bool
    ensures { result ≡ is_group subnet a }
{
    if a.0 / 0x1000_0000 == 14 || a.0 == 0xFFFF_FFFF {
        return true;
    }
    match subnet {
        None => false,
        Some(subnet) => {
            u64::from(a.0) == u64::from(subnet.net().0) + (1u64 << (32 - subnet.len())) - 1
        }
    }
}

fn by_destination(between: bool, sender: Option<Cid>, target: Option<Cid>) -> Verdict
    ensures { result ≡ routed between sender target }
{
    match (sender, target) {
        (None, None) => Verdict::NoRoute,
        (None, Some(target)) => Verdict::ToClient(target),
        (Some(_), None) => Verdict::ToDevice,
        (Some(_), Some(target)) => {
            if between {
                Verdict::ToClient(target)
            } else {
                Verdict::ToDevice
            }
        }
    }
}

/// The verdict on a packet from the client `sender`, or from the device where that is None, over
/// the rows of the table. `between` says whether clients may reach each other. The cases are judged
/// in the order of the variants of `Verdict`, and the first that holds is the answer. It looks for
/// two owners at most.
#[tactic(auto, unfolding(crate::specs::Verdict::verdict))]
pub fn verdict_on<L: Ledger>(
    table: &RouteTable,
    subnet: Option<Prefix>,
    between: bool,
    sender: Option<Cid>,
    packet: &[u8],
    steps: &mut Steps<L>,
) -> Verdict
    ensures exact { result ≡ verdict table.now.rows subnet between sender packet.now }
    ensures cost { steps.new ≤ steps.old + 2 * length table.now.rows }
{
    let Ok(inner) = Inner::read(packet) else {
        return Verdict::NotIp;
    };
    if packet.len() > LONGEST_PACKET {
        return Verdict::TooLong;
    }
    let destination = inner.destination();
    if is_for_many(subnet, destination) {
        return Verdict::Multicast;
    }
    match sender {
        None => by_destination(between, None, table.owner(destination, steps)),
        Some(client) => {
            let found = table.owner(inner.source(), steps);
            if !is_owner(client, found) {
                Verdict::BadSource { owner: found }
            } else if !between {
                Verdict::ToDevice
            } else {
                by_destination(between, sender, table.owner(destination, steps))
            }
        }
    }
}
