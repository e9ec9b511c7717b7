//! Which key session sent a datagram.

ghost use Rattle.std.specs.Prelude.{◌≡◌, ◌<◌, length, slice_get, Some};
ghost use Rattle.opcode_codec.specs.Packet.{packet_form};
ghost use Rattle.client_table.specs.Entries.{Entry};
ghost use Rattle.client_table.specs.Tables.{entries_of};
ghost use Rattle.peer_table.specs.Peer.{Peer};
ghost use Rattle.server_table.specs.Senders.{first_sent, if_named, kid_in, names, sent_by, sent_here};
ghost use Rattle.server_table.specs.Table.{Table};
ghost use Rattle.server_state.specs.declared.client.ClientState.{ClientState};
ghost use Rattle.server_state.specs.Core.{CoreStands};
ghost use Rattle.server_core.specs.internal.{sent_of};

use opcode_codec::{Packet, read_packet};
use peer_table::ClientSession;
use server_state::ServerCore;
use vpn_base::{Addr, Place};

// The key id in a packet.
fn kid_in(packet: &Packet<'_>) -> u8
    ensures { result ≡ kid_in (packet_form packet.now) }
{
    match packet {
        Packet::Wrapped { kid, .. } => *kid,
        Packet::Inner(view) => view.kid,
    }
}

// Whether a packet names a key session of the client with this peer id.
fn names(packet: &Packet<'_>, peer_id: u32, at: &Place) -> bool
    ensures { result ≡ names (packet_form packet.now) peer_id at.now }
{
    match packet {
        Packet::Wrapped { sid, .. } => at.own.0.as_slice() == sid.0.as_slice(),
        Packet::Inner(view) => peer_id == view.peer,
    }
}

// A key session of the client with this peer id, where the packet names it.
fn if_named(packet: &Packet<'_>, peer_id: u32, at: Option<Place>) -> Option<Place>
    ensures { result ≡ if_named (packet_form packet.now) peer_id at }
{
    match at {
        None => None,
        Some(at) => {
            if names(packet, peer_id, &at) {
                Some(at)
            } else {
                None
            }
        }
    }
}

// The same where the client has the address to which the packet was sent.
fn sent_here(
    to: Addr,
    packet: &Packet<'_>,
    address: Addr,
    peer_id: u32,
    at: Option<Place>,
) -> Option<Place>
    ensures { result ≡ sent_here to (packet_form packet.now) address peer_id at }
{
    if address.ip.0 == to.ip.0 && address.port == to.port {
        if_named(packet, peer_id, at)
    } else {
        None
    }
}

// The key session of the client at this place by which a packet to this address may have been sent.
fn sent_at<S: ClientSession>(
    core: &ServerCore<S>,
    i: usize,
    to: Addr,
    packet: &Packet<'_>,
) -> Option<Place>
    requires { i < length (entries_of core.now.clients) }
    ensures { (e : Entry (ClientState S)) (p : Peer) → slice_get (entries_of core.now.clients) i ≡ Some e → S.stands e.value.session p →
        result ≡ sent_of to (packet_form packet.now) e p }
{
    let key = core.clients.key_at(i);
    let at = core.clients.look_at(i).session.place(kid_in(packet));
    sent_here(to, packet, key.address, key.peer_id, at)
}

// The first key session of all clients by which it may have been sent.
fn first_sent<S: ClientSession>(
    core: &ServerCore<S>,
    to: Addr,
    packet: &Packet<'_>,
) -> Option<Place>
    ensures { (t : Table) → CoreStands S.stands core.now t → result ≡ first_sent to (packet_form packet.now) t.clients }
{
    for i in 0..core.clients.count() {
        if let Some(at) = sent_at(core, i, to, packet) {
            return Some(at);
        }
    }
    None
}

/// The key session that sent a datagram to this address, by what the datagram tells, of several the one of the
/// least client number.
pub(crate) fn sent_by<S: ClientSession>(
    core: &ServerCore<S>,
    to: Addr,
    datagram: &[u8],
) -> Option<Place>
    ensures { (t : Table) → CoreStands S.stands core.now t → result ≡ sent_by t to datagram.now }
{
    match read_packet(datagram) {
        Err(_) => None,
        Ok(packet) => first_sent(core, to, &packet),
    }
}
