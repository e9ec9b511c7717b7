//! The data channel of one key session.

ghost use Rattle.std.specs.Prelude.{◌≡◌, ◌↔◌, ◌≤◌, ◌<◌, ◌+◌, ◌-◌, ◌^◌, ℕ, List, length, take, drop, IfOk, IsErr, OnOk, OnErr, Err};
ghost use Rattle.vpn_base.specs.declared.names.Role.{Role};
ghost use Rattle.packet_ids.specs.Freshness.{History, begun, freshness, greatest_id};
ghost use Rattle.packet_ids.specs.Window.{Stands};
ghost use Rattle.peer_table.specs.DataPackets.{opened_under, sealed_under};
ghost use Rattle.peer_table.specs.KeySessions.{Keys};
ghost use Rattle.peer_table.specs.Peer.{other};
ghost use Rattle.data_channel.specs.Channels.{Channel, answer_judged, answer_to, channel_of, next_packet, next_packet_of, opened_by, opened_of, received_after, received_judged, with_opened, with_sealed};
ghost use Rattle.data_channel.specs.declared.channel.DataFault.TheVariants.{Stale};
ghost use Rattle.data_channel.specs.Standing.{ChannelStands, GcmKeysStand, GcmStands, IsUnchanged, KeysStand, ShowsInner, TellsInner};

use crate::keys::{Sealer, by_role, other, sealer_for};
use gcm_seal::{Aead, AnyGcm, NotSealed};
use hmac_kit::KeyBlock;
use packet_ids::{SendIds, Spent, Window};
use sealed_packet::{open_packet, seal_packet};
use std::alloc::Global;
use std::marker::Model;
use vpn_base::{Cipher, Freshness, Moment, NoMemory, Role};

/// Why a data packet is refused.
#[derive(Clone, Copy, Debug, PartialEq, Eq)]
pub enum DataFault {
    /// It was not sealed under the key.
    NotSealed,
    /// It opens, and its packet id may not be accepted.
    Stale {
        /// Why the id may not be accepted.
        kind: Freshness,
        /// The id.
        id: u32,
        /// The greatest id that was accepted under the key.
        greatest: u32,
    },
}

/// How many bytes a data packet has before its inner packet: head and tag.
const OVERHEAD: usize = 24;

// What each packet begins with.
#[derive(Drop)]
struct Head {
    kid: u8,
    peer_id: u32,
}

impl Model for Head {
    ghost use Rattle.std.specs.Prelude.{◌<◌, ◌^◌};
    ghost use Rattle.data_channel.specs.Heads.{Ids};

    ghost Value = { Ids };

    ghost view = { λ h. record { kid = h.kid; peer_id = h.peer_id } };

    ghost invariant = { λ h. (h.kid < 8) × (h.peer_id < 2 ^ 24) };
}

/// The data channel of one key session at one end: it seals under one key, with the packet ids in order, and
/// opens what the other end sealed under its key, each packet id once (OpenVPN 2.6, src/openvpn/crypto.h).
#[derive(Drop)]
pub struct DataChannel<C: Drop> {
    role: Role,
    client: Sealer<C>,
    server: Sealer<C>,
    head: Head,
    window: Window,
    ids: SendIds,
}

// Accepts the packet id of a packet whose inner packet has this length, where it is fresh.
fn accept_id(window: &mut Window, id: u32, size: usize, now: Moment) -> Result<usize, DataFault>
    ensures received { (h : History) → Stands window.old h → Stands window.new (received_judged h id now (freshness h id now)) }
    ensures answer { (h : History) → Stands window.old h → (bytes inner : List ℕ) → size ≡ length inner → drop 24 bytes ≡ inner →
        TellsInner result bytes (answer_judged h id inner (freshness h id now)) }
    ensures size { IfOk result (λ n. n ≡ size) }
    ensures opened { (before after : List ℕ) → IsUnchanged result before after }
{
    match window.test(id, now) {
        Freshness::Fresh => {
            window.accept(id, now);
            Ok(size)
        }
        Freshness::Zero => Err(stale(window, Freshness::Zero, id)),
        Freshness::Old => Err(stale(window, Freshness::Old, id)),
        Freshness::Seen => Err(stale(window, Freshness::Seen, id)),
        Freshness::Late => Err(stale(window, Freshness::Late, id)),
    }
}

// The refusal of a packet id.
fn stale(window: &Window, kind: Freshness, id: u32) -> DataFault
    ensures fault { (h : History) → Stands window.now h → result ≡ Stale kind id (greatest_id h.accepted) }
    ensures opened { (before after : List ℕ) → IsUnchanged (Err result) before after }
{
    DataFault::Stale {
        kind,
        id,
        greatest: window.greatest(),
    }
}

impl DataChannel<AnyGcm> {
    /// The channel of an end of this role under the keys of a session. A window of so many ids judges the ids of
    /// the other end, in which late ids stay fresh for so many seconds.
    pub fn from_keys(
        alloc: Global,
        keys: &KeyBlock,
        cipher: Cipher,
        role: Role,
        kid: u8,
        peer_id: u32,
        win: u32,
        win_secs: u32,
    ) -> Result<DataChannel<AnyGcm>, NoMemory>
        requires kid { kid < 8 }
        requires peer_id { peer_id < 2 ^ 24 }
        requires win { 1 ≤ win }
        ensures { IfOk result (λ channel.
            GcmStands channel (channel_of role (record { block = keys.now.0; cipher = cipher; peer_id = peer_id }) kid (begun win win_secs) 0)) }
    {
        match Window::new(alloc, win, win_secs) {
            Ok(window) => Ok(DataChannel::over_window(keys, cipher, role, kid, peer_id, window)),
            Err(NoMemory) => Err(NoMemory),
        }
    }

    /// The same over a window that is handed in, which goes on from where it stands. It takes no memory.
    pub fn over_window(
        keys: &KeyBlock,
        cipher: Cipher,
        role: Role,
        kid: u8,
        peer_id: u32,
        window: Window,
    ) -> DataChannel<AnyGcm>
        requires kid { kid < 8 }
        requires peer_id { peer_id < 2 ^ 24 }
        ensures stands { (received : History) → Stands window received →
            GcmStands result (channel_of role (record { block = keys.now.0; cipher = cipher; peer_id = peer_id }) kid received 0) }
        ensures keys { (received : History) → Stands window received →
            GcmKeysStand result (record { block = keys.now.0; cipher = cipher; peer_id = peer_id }) kid received 0 }
    {
        DataChannel::resumed(keys, cipher, role, kid, peer_id, window, 0)
    }

    /// The same behind the last packet id that was sealed under. It takes no memory.
    #[tactic(auto, unfolding(crate::specs::Standing::ChannelStands))]
    pub fn resumed(
        keys: &KeyBlock,
        cipher: Cipher,
        role: Role,
        kid: u8,
        peer_id: u32,
        window: Window,
        last_sealed: u32,
    ) -> DataChannel<AnyGcm>
        requires kid { kid < 8 }
        requires peer_id { peer_id < 2 ^ 24 }
        ensures stands { (received : History) → Stands window received →
            GcmStands result (channel_of role (record { block = keys.now.0; cipher = cipher; peer_id = peer_id }) kid received last_sealed) }
        ensures role { result.role ≡ role }
    {
        DataChannel {
            role,
            client: sealer_for(keys, cipher, Role::Client),
            server: sealer_for(keys, cipher, Role::Server),
            head: Head { kid, peer_id },
            window,
            ids: SendIds::at(last_sealed),
        }
    }
}

impl<C: Aead + Drop> DataChannel<C> {
    /// Seals an inner packet under the next packet id at the front of `out`, and answers the packet's length, 24 more than
    /// that of the inner one. Spent comes exactly after the last id, 0xFFFFFFFF, and nothing changes then. It takes no memory.
    #[tactic(auto, unfolding(crate::specs::Standing::ChannelStands))]
    pub fn seal_into(&mut self, inner: &[u8], out: &mut [u8]) -> Result<usize, Spent>
        requires short { length inner.now ≤ 65512 }
        requires room { length inner.now + 24 ≤ length out.old }
        ensures size { IfOk result (λ n. n ≡ length inner.now + 24) }
        ensures written { (c : Channel) → ChannelStands C.sealed self.old c → IfOk result (λ n. take n out.new ≡ next_packet c inner.now) }
        ensures rest { IfOk result (λ n. drop n out.new ≡ drop n out.old) }
        ensures sealed { (c : Channel) → ChannelStands C.sealed self.old c → OnOk result (ChannelStands C.sealed self.new (with_sealed c)) }
        ensures kept { (c : Channel) → ChannelStands C.sealed self.old c → OnErr result (ChannelStands C.sealed self.new c) }
        ensures unchanged { OnErr result (out.new ≡ out.old) }
        ensures spent { (c : Channel) → ChannelStands C.sealed self.old c → IsErr result ↔ (c.sealed ≡ 2 ^ 32 - 1) }
    {
        self.seal_of(self.role, inner, out)
    }

    /// The same for a session's keys, as an end of this role, whatever the role that the channel was made with.
    pub fn seal_as(&mut self, role: Role, inner: &[u8], out: &mut [u8]) -> Result<usize, Spent>
        requires short { length inner.now ≤ 65512 }
        requires room { length inner.now + 24 ≤ length out.old }
        ensures size { IfOk result (λ n. n ≡ length inner.now + 24) }
        ensures written { (keys : Keys) (kid : ℕ) (received : History) (sealed : ℕ) → KeysStand C.sealed self.old keys kid received sealed →
            IfOk result (λ n. take n out.new ≡ sealed_under role keys kid (sealed + 1) inner.now) }
        ensures rest { IfOk result (λ n. drop n out.new ≡ drop n out.old) }
        ensures sealed { (keys : Keys) (kid : ℕ) (received : History) (sealed : ℕ) → KeysStand C.sealed self.old keys kid received sealed →
            OnOk result (KeysStand C.sealed self.new keys kid received (sealed + 1)) }
        ensures kept { (keys : Keys) (kid : ℕ) (received : History) (sealed : ℕ) → KeysStand C.sealed self.old keys kid received sealed →
            OnErr result (KeysStand C.sealed self.new keys kid received sealed) }
        ensures unchanged { OnErr result (out.new ≡ out.old) }
        ensures spent { (keys : Keys) (kid : ℕ) (received : History) (sealed : ℕ) → KeysStand C.sealed self.old keys kid received sealed →
            IsErr result ↔ (sealed ≡ 2 ^ 32 - 1) }
    {
        self.seal_of(role, inner, out)
    }

    // The same as an end of this role.
    #[tactic(auto, unfolding(crate::specs::Standing::ChannelStands, crate::specs::Channels::next_packet_of))]
    fn seal_of(&mut self, role: Role, inner: &[u8], out: &mut [u8]) -> Result<usize, Spent>
        requires short { length inner.now ≤ 65512 }
        requires room { length inner.now + 24 ≤ length out.old }
        ensures size { IfOk result (λ n. n ≡ length inner.now + 24) }
        ensures written { (c : Channel) → ChannelStands C.sealed self.old c → IfOk result (λ n. take n out.new ≡ next_packet_of role c inner.now) }
        ensures rest { IfOk result (λ n. drop n out.new ≡ drop n out.old) }
        ensures sealed { (c : Channel) → ChannelStands C.sealed self.old c → OnOk result (ChannelStands C.sealed self.new (with_sealed c)) }
        ensures kept { (c : Channel) → ChannelStands C.sealed self.old c → OnErr result (ChannelStands C.sealed self.new c) }
        ensures unchanged { OnErr result (out.new ≡ out.old) }
        ensures role { self.new.role ≡ self.old.role }
        ensures spent { (c : Channel) → ChannelStands C.sealed self.old c → IsErr result ↔ (c.sealed ≡ 2 ^ 32 - 1) }
    {
        match self.ids.next() {
            Ok(id) => {
                let sealer = by_role(&self.client, &self.server, role);
                let size = seal_packet(
                    &sealer.cipher,
                    sealer.implicit,
                    self.head.kid,
                    self.head.peer_id,
                    id,
                    inner,
                    out,
                );
                Ok(size)
            }
            Err(Spent) => Err(Spent),
        }
    }

    /// Opens a data packet of the other end in place, and answers the length of its inner packet, which then stands
    /// behind the first 24 bytes; those stay as they are. NotSealed comes exactly where nothing seals to the
    /// datagram under the other end's key, and leaves it unchanged; Stale exactly where it opens and its packet id
    /// may not be accepted, by everything that was accepted. It takes no memory.
    #[tactic(auto, unfolding(crate::specs::Standing::ChannelStands))]
    pub fn unseal_in_place(&mut self, datagram: &mut [u8], now: Moment) -> Result<usize, DataFault>
        requires short { length datagram.old ≤ 65536 }
        ensures left { (c : Channel) → ChannelStands C.sealed self.old c →
            ChannelStands C.sealed self.new (with_opened c now (opened_by c datagram.old)) }
        ensures long { IfOk result (λ n. n + 24 ≡ length datagram.old) }
        ensures answer { (c : Channel) → ChannelStands C.sealed self.old c →
            TellsInner result datagram.new (answer_to c.received now (opened_by c datagram.old)) }
        ensures shown { (c : Channel) → ChannelStands C.sealed self.old c → ShowsInner datagram.new (opened_by c datagram.old) }
        ensures unchanged { IsUnchanged result datagram.old datagram.new }
        ensures front { take 24 datagram.new ≡ take 24 datagram.old }
        ensures length { length datagram.new ≡ length datagram.old }
    {
        self.unseal_of(self.role, datagram, now)
    }

    /// The same for a session's keys, as an end of this role, whatever the role that the channel was made with.
    pub fn unseal_as(
        &mut self,
        role: Role,
        datagram: &mut [u8],
        now: Moment,
    ) -> Result<usize, DataFault>
        requires short { length datagram.old ≤ 65536 }
        ensures left { (keys : Keys) (kid : ℕ) (received : History) (sealed : ℕ) → KeysStand C.sealed self.old keys kid received sealed →
            KeysStand C.sealed self.new keys kid (received_after received now (opened_under (other role) keys kid datagram.old)) sealed }
        ensures long { IfOk result (λ n. n + 24 ≡ length datagram.old) }
        ensures answer { (keys : Keys) (kid : ℕ) (received : History) (sealed : ℕ) → KeysStand C.sealed self.old keys kid received sealed →
            TellsInner result datagram.new (answer_to received now (opened_under (other role) keys kid datagram.old)) }
        ensures shown { (keys : Keys) (kid : ℕ) (received : History) (sealed : ℕ) → KeysStand C.sealed self.old keys kid received sealed →
            ShowsInner datagram.new (opened_under (other role) keys kid datagram.old) }
        ensures unchanged { IsUnchanged result datagram.old datagram.new }
        ensures front { take 24 datagram.new ≡ take 24 datagram.old }
        ensures length { length datagram.new ≡ length datagram.old }
    {
        self.unseal_of(role, datagram, now)
    }

    // The same as an end of this role.
    #[tactic(auto, unfolding(crate::specs::Standing::ChannelStands, crate::specs::Channels::opened_of))]
    fn unseal_of(
        &mut self,
        role: Role,
        datagram: &mut [u8],
        now: Moment,
    ) -> Result<usize, DataFault>
        requires short { length datagram.old ≤ 65536 }
        ensures left { (c : Channel) → ChannelStands C.sealed self.old c →
            ChannelStands C.sealed self.new (with_opened c now (opened_of (other role) c datagram.old)) }
        ensures long { IfOk result (λ n. n + 24 ≡ length datagram.old) }
        ensures answer { (c : Channel) → ChannelStands C.sealed self.old c →
            TellsInner result datagram.new (answer_to c.received now (opened_of (other role) c datagram.old)) }
        ensures shown { (c : Channel) → ChannelStands C.sealed self.old c → ShowsInner datagram.new (opened_of (other role) c datagram.old) }
        ensures role { self.new.role ≡ self.old.role }
        ensures unchanged { IsUnchanged result datagram.old datagram.new }
        ensures front { take 24 datagram.new ≡ take 24 datagram.old }
        ensures length { length datagram.new ≡ length datagram.old }
    {
        let sealer = by_role(&self.client, &self.server, other(role));
        let opened = open_packet(&sealer.cipher, sealer.implicit, self.head.kid, datagram);
        match opened {
            Ok(id) => accept_id(
                &mut self.window,
                id,
                datagram.len().saturating_sub(OVERHEAD),
                now,
            ),
            Err(NotSealed) => Err(DataFault::NotSealed),
        }
    }

    /// The last packet id that was sealed under, and 0 before the first.
    #[tactic(auto, unfolding(crate::specs::Standing::ChannelStands))]
    pub fn last_sealed(&self) -> u32
        ensures { (c : Channel) → ChannelStands C.sealed self.now c → result ≡ c.sealed }
    {
        self.ids.last()
    }
}
