//! Keys, and data packets of one key session.

ghost use Rattle.std.specs.Prelude.{◌≡◌, ◌↔◌, ◌≤◌, ◌<◌, ◌+◌, ◌-◌, ◌^◌, ℕ, [], ◌∷◌, ◌++◌, length, take, true, not, Some, IsOk, IsErr, IfOk, OnOk, OnErr, is_ok, vec_capacity};
ghost use Rattle.vpn_base.specs.declared.names.Role.{Role};
ghost use Rattle.vpn_links.specs.Actions.{Holds, Wire};
ghost use Rattle.packet_ids.specs.Freshness.{History};
ghost use Rattle.data_channel.specs.Channels.{received_after};
ghost use Rattle.data_channel.specs.Standing.{GcmKeysStand};
ghost use Rattle.key_method2.specs.Messages.{server_message};
ghost use Rattle.peer_table.specs.DataPackets.{ids_are_spent, opened_under, sealed_under};
ghost use Rattle.peer_table.specs.KeySessions.{Keyed, Keys, Session, keys_of};
ghost use Rattle.peer_table.specs.Outboxes.{HasRoom, IsUnchanged, TellsOpened, Uses, actions_of, wired};
ghost use Rattle.peer_table.specs.Peer.{Writes, other};
ghost use Rattle.peer_lines.specs.Calls.{after_opening, after_sealing, opened_as, opening_answer, sealing_answer, with_read};
ghost use Rattle.peer_lines.specs.Standing.{StandsFor, has_data, is_there};
ghost use Rattle.peer_lines.specs.internal.Packets.{IsFirst, IsWindowOf, fault_of};

use crate::channels::SessionChannels;
use crate::plain::drop_front;
use data_channel::{DataChannel, DataFault};
use gcm_seal::AnyGcm;
use hmac_kit::KeyBlock;
use key_method2::{Source, server_message};
use packet_ids::{Spent, Window};
use peer_table::SessionFault;
use vpn_base::{Addr, Cipher, Moment, NoMemory, Role};
use vpn_links::{Effect, Outbox};

// Why a session does not open a data packet.
fn session_fault(fault: DataFault) -> SessionFault
    ensures { result ≡ fault_of fault }
{
    match fault {
        DataFault::NotSealed => SessionFault::NotSealed,
        DataFault::Stale { kind, id, greatest } => SessionFault::Stale { kind, id, greatest },
    }
}

// Seals an inner packet as an effect.
fn seal_with(
    channel: &mut DataChannel<AnyGcm>,
    role: Role,
    inner: &[u8],
    to: Addr,
    out: &mut Outbox,
) -> Result<(), Spent>
    requires short { length inner.now ≤ 1500 }
    requires room { HasRoom out.old 1 1524 }
    ensures sealed { (keys : Keys) (kid : ℕ) (received : History) (sealed : ℕ) → GcmKeysStand channel.old keys kid received sealed →
        OnOk result (GcmKeysStand channel.new keys kid received (sealed + 1)
        × Holds out.new (out.old.effects ++ Wire to (sealed_under role keys kid (sealed + 1) inner.now) ∷ []) out.old.staged) }
    ensures kept { (keys : Keys) (kid : ℕ) (received : History) (sealed : ℕ) → GcmKeysStand channel.old keys kid received sealed →
        OnErr result (GcmKeysStand channel.new keys kid received sealed × Holds out.new out.old.effects out.old.staged) }
    ensures spent { (keys : Keys) (kid : ℕ) (received : History) (sealed : ℕ) → GcmKeysStand channel.old keys kid received sealed →
        IsErr result ↔ (sealed ≡ 2 ^ 32 - 1) }
    ensures uses { Uses out.old out.new 1 1524 }
{
    let mut packet = [0u8; 1524];
    match channel.seal_as(role, inner, &mut packet) {
        Ok(size) => {
            let added = out.add(&Effect::Wire {
                to,
                bytes: &packet[..size],
            });
            prove!(added.is_ok());
            let _ = added;
            Ok(())
        }
        Err(Spent) => Err(Spent),
    }
}

// Opens a data packet in place.
fn unseal_with(
    channel: &mut DataChannel<AnyGcm>,
    role: Role,
    datagram: &mut [u8],
    now: Moment,
) -> Result<usize, SessionFault>
    requires short { length datagram.old ≤ 65536 }
    ensures left { (keys : Keys) (kid : ℕ) (received : History) (sealed : ℕ) → GcmKeysStand channel.old keys kid received sealed →
        GcmKeysStand channel.new keys kid (received_after received now (opened_under (other role) keys kid datagram.old)) sealed }
    ensures answer { (keys : Keys) (kid : ℕ) (received : History) (sealed : ℕ) → GcmKeysStand channel.old keys kid received sealed →
        TellsOpened result datagram.new (opened_as received now (opened_under (other role) keys kid datagram.old)) }
    ensures long { IfOk result (λ n. n + 24 ≡ length datagram.old) }
    ensures unchanged { IsUnchanged result datagram.old datagram.new }
    ensures front { take 24 datagram.new ≡ take 24 datagram.old }
    ensures length { length datagram.new ≡ length datagram.old }
{
    match channel.unseal_as(role, datagram, now) {
        Ok(size) => Ok(size),
        Err(fault) => Err(session_fault(fault)),
    }
}

impl SessionChannels {
    /// Makes the data channel of a session that has keys now, reads the other end's message of so many bytes, and
    /// writes the server's message of this key source, as an effect. It takes no memory where the outbox has
    /// room for one effect of 93 bytes.
    #[tactic(auto, unfolding(crate::specs::Standing::has_data))]
    pub fn exchange(
        &mut self,
        keys: &KeyBlock,
        cipher: Cipher,
        role: Role,
        kid: u8,
        peer_id: u32,
        own: &Source,
        used: usize,
        out: &mut Outbox,
    ) -> Result<(), NoMemory>
        requires kid { kid < 8 }
        requires peer_id { peer_id < 2 ^ 24 }
        ensures made { (s : Session) → StandsFor self.old s → s.read ≡ 0 → s.link.kid ≡ kid → used ≤ length s.plain →
            s.stage ≡ Keyed (record { block = keys.now.0; cipher = cipher; peer_id = peer_id }) →
            OnOk result (StandsFor self.new (with_read used s)
            × ((end : Role) → Holds out.new (out.old.effects ++ actions_of end (Writes s.link.conn (server_message own.now) ∷ [])) out.old.staged)) }
        ensures kept { (s : Session) → StandsFor self.old s → OnErr result (StandsFor self.new s × Holds out.new out.old.effects out.old.staged) }
        ensures there { (s : Session) → StandsFor self.old s → OnOk result (has_data self.new ≡ true) }
        ensures fits { HasRoom out.old 1 93 → IsOk result }
        ensures uses { Uses out.old out.new 1 93 }
        ensures link { self.new.link ≡ self.old.link }
    {
        let message = server_message(own);
        match out.add(&Effect::EngineWrite {
            conn: self.link.conn(),
            bytes: &message,
        }) {
            Ok(()) => {}
            Err(NoMemory) => return Err(NoMemory),
        }
        let used = used.min(self.plain.len());
        drop_front(&mut self.plain, used);
        open_channel(
            &mut self.window,
            &mut self.packets,
            keys,
            cipher,
            role,
            kid,
            peer_id,
        );
        Ok(())
    }

    /// Seals an inner packet of at most 1,500 bytes as an effect, as an end of this role. Spent comes exactly where
    /// the last packet id was used, or there is no data channel. It takes no memory.
    #[tactic(auto, unfolding(crate::specs::Standing::has_data))]
    pub fn seal(
        &mut self,
        role: Role,
        inner: &[u8],
        to: Addr,
        out: &mut Outbox,
    ) -> Result<(), Spent>
        requires short { length inner.now ≤ 1500 }
        requires room { HasRoom out.old 1 1524 }
        ensures left { (s : Session) (keys : Keys) → StandsFor self.old s → keys_of s.stage ≡ Some keys → has_data self.old ≡ true →
            StandsFor self.new (after_sealing s)
            × Holds out.new (out.old.effects ++ wired to (sealing_answer role keys inner.now s)) out.old.staged }
        ensures answer { (s : Session) (keys : Keys) → StandsFor self.old s → keys_of s.stage ≡ Some keys → has_data self.old ≡ true → is_ok result ≡ not (ids_are_spent s) }
        ensures there { has_data self.new ≡ has_data self.old }
        ensures uses { Uses out.old out.new 1 1524 }
        ensures link { self.new.link ≡ self.old.link }
    {
        if self.packets.is_empty() {
            return Err(Spent);
        }
        seal_with(&mut self.packets[0], role, inner, to, out)
    }

    /// Opens a data packet of the other end in place, as an end of this role, and answers the length of its inner packet,
    /// which then stands behind the first 24 bytes. The bytes are unchanged where nothing opens. Without a
    /// data channel nothing opens. It takes no memory.
    #[tactic(auto, unfolding(crate::specs::Standing::has_data))]
    pub fn unseal(
        &mut self,
        role: Role,
        datagram: &mut [u8],
        now: Moment,
    ) -> Result<usize, SessionFault>
        requires short { length datagram.old ≤ 65536 }
        ensures left { (s : Session) (keys : Keys) → StandsFor self.old s → keys_of s.stage ≡ Some keys → has_data self.old ≡ true →
            StandsFor self.new (after_opening role keys datagram.old now s) }
        ensures answer { (s : Session) (keys : Keys) → StandsFor self.old s → keys_of s.stage ≡ Some keys → has_data self.old ≡ true →
            TellsOpened result datagram.new (opening_answer role keys datagram.old now s) }
        ensures there { has_data self.new ≡ has_data self.old }
        ensures long { IfOk result (λ n. n + 24 ≡ length datagram.old) }
        ensures unchanged { IsUnchanged result datagram.old datagram.new }
        ensures front { take 24 datagram.new ≡ take 24 datagram.old }
        ensures length { length datagram.new ≡ length datagram.old }
        ensures link { self.new.link ≡ self.old.link }
    {
        if self.packets.is_empty() {
            return Err(SessionFault::NotSealed);
        }
        unseal_with(&mut self.packets[0], role, datagram, now)
    }
}

// Makes the data channel of these keys over the window that waits for it, where none is there.
fn open_channel(
    window: &mut Option<Window>,
    packets: &mut Vec<DataChannel<AnyGcm>>,
    keys: &KeyBlock,
    cipher: Cipher,
    role: Role,
    kid: u8,
    peer_id: u32,
)
    requires kid { kid < 8 }
    requires peer_id { peer_id < 2 ^ 24 }
    ensures made { (received : History) → packets.old.items ≡ [] → 1 ≤ vec_capacity packets.old → IsWindowOf window.old received → IsFirst packets.new.items
        (record { block = keys.now.0; cipher = cipher; peer_id = peer_id }) kid received }
    ensures same { is_there packets.old.items ≡ true → packets.new.items ≡ packets.old.items }
    ensures capacity { vec_capacity packets.old ≤ vec_capacity packets.new }
{
    if !packets.is_empty() {
        return;
    }
    let Some(window) = window.take() else {
        return;
    };
    let channel = DataChannel::over_window(keys, cipher, role, kid, peer_id, window);
    // The room was taken ahead, so this does not fail.
    let _ = packets.push(channel);
}
