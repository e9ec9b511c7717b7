//! Data packets of a client.

ghost use Rattle.std.specs.Prelude.{◌≡◌, ◌≤◌, length, take, Some, true, is_ok, slice_get};
ghost use Rattle.vpn_base.specs.declared.names.Moment.{Moment};
ghost use Rattle.peer_table.specs.DataPackets.{data_came, data_kid, ids_are_spent, opened_by, sealed_by, sealed_to};
ghost use Rattle.peer_table.specs.KeySessions.{Keys, Session, keys_of};
ghost use Rattle.peer_table.specs.Outboxes.{HasRoom, IsUnchanged, LeavesSealed, TellsOpened, Uses};
ghost use Rattle.peer_table.specs.Peer.{Peer};
ghost use Rattle.session_state.specs.Standing.{GoesOn, PeerStands, UsableAreOpen, count, since};

use packet_ids::Spent;
use peer_lines::channels_stand_on;
use peer_table::SessionFault;
use session_state::SessionState;
use tls_crypt::Wrap;
use vpn_base::{Addr, Moment};
use vpn_links::Outbox;

// Seals an inner packet of at most 1,500 bytes under the newest usable keys, as an effect. `Spent` comes
// exactly where the last packet id was used, or where there are no keys. It takes no memory.
pub(crate) fn seal_to<W: Wrap + Drop>(
    session: &mut SessionState<W>,
    inner: &[u8],
    to: Addr,
    out: &mut Outbox,
) -> Result<(), Spent>
    requires short { length inner.now ≤ 1500 }
    requires room { HasRoom out.old 1 1524 }
    requires goes_on { GoesOn session.old }
    ensures left { (p : Peer) → PeerStands W.wrapped session.old p → LeavesSealed (PeerStands W.wrapped) session.new out.old out.new to (sealed_to inner.now p) }
    ensures answer { (p : Peer) → PeerStands W.wrapped session.old p → is_ok result ≡ is_ok (sealed_to inner.now p).answer }
    ensures goes_on { GoesOn session.new }
    ensures uses { Uses out.old out.new 1 1524 }
    ensures count { count session.new ≡ count session.old }
    ensures since { since session.new ≡ since session.old }
{
    match session.slots.newest_usable() {
        None => Err(Spent),
        Some(number) => seal_in(session, number, inner, to, out),
    }
}

// Seals it under the keys of the session of this number.
fn seal_in<W: Wrap + Drop>(
    session: &mut SessionState<W>,
    number: u64,
    inner: &[u8],
    to: Addr,
    out: &mut Outbox,
) -> Result<(), Spent>
    requires short { length inner.now ≤ 1500 }
    requires room { HasRoom out.old 1 1524 }
    requires goes_on { GoesOn session.old }
    ensures left { (p : Peer) (s : Session) (keys : Keys) → PeerStands W.wrapped session.old p → slice_get p.sessions number ≡ Some s → s.is_open ≡ true →
        keys_of s.stage ≡ Some keys →
        LeavesSealed (PeerStands W.wrapped) session.new out.old out.new to (sealed_by p inner.now number s (Some keys) (ids_are_spent s)) }
    ensures answer { (p : Peer) (s : Session) (keys : Keys) → PeerStands W.wrapped session.old p → slice_get p.sessions number ≡ Some s → s.is_open ≡ true →
        keys_of s.stage ≡ Some keys → is_ok result ≡ is_ok (sealed_by p inner.now number s (Some keys) (ids_are_spent s)).answer }
    ensures goes_on { GoesOn session.new }
    ensures uses { Uses out.old out.new 1 1524 }
    ensures count { count session.new ≡ count session.old }
    ensures since { since session.new ≡ since session.old }
{
    channels_stand_on();
    match session.slots.take_text(number) {
        None => Err(Spent),
        Some(mut text) => {
            let sealed = text.seal(session.role, inner, to, out);
            session.slots.put_text(number, text);
            sealed
        }
    }
}

// Opens a data packet in place, and answers the length of its inner packet, which then stands behind the
// first 24 bytes. The bytes are unchanged where nothing opens. It takes no memory.
pub(crate) fn unseal<W: Wrap + Drop>(
    session: &mut SessionState<W>,
    datagram: &mut [u8],
    now: Moment,
) -> Result<usize, SessionFault>
    requires short { length datagram.old ≤ 65536 }
    requires goes_on { GoesOn session.old }
    ensures left { (p : Peer) → UsableAreOpen p now.0 → PeerStands W.wrapped session.old p → PeerStands W.wrapped session.new (data_came datagram.old now p).peer }
    ensures answer { (p : Peer) → UsableAreOpen p now.0 → PeerStands W.wrapped session.old p → TellsOpened result datagram.new (data_came datagram.old now p).answer }
    ensures unchanged { IsUnchanged result datagram.old datagram.new }
    ensures goes_on { GoesOn session.new }
    ensures front { take 24 datagram.new ≡ take 24 datagram.old }
    ensures length { length datagram.new ≡ length datagram.old }
    ensures count { count session.new ≡ count session.old }
    ensures since { since session.new ≡ since session.old }
{
    let kid = kid_in(datagram);
    match session.slots.usable(kid, now, session.timers.tran) {
        None => Err(SessionFault::BadKey { kid }),
        Some(number) => unseal_in(session, number, datagram, now),
    }
}

// Opens it under the keys of the session of this number.
fn unseal_in<W: Wrap + Drop>(
    session: &mut SessionState<W>,
    number: u64,
    datagram: &mut [u8],
    now: Moment,
) -> Result<usize, SessionFault>
    requires short { length datagram.old ≤ 65536 }
    requires goes_on { GoesOn session.old }
    ensures left { (p : Peer) (s : Session) (keys : Keys) → PeerStands W.wrapped session.old p → slice_get p.sessions number ≡ Some s → s.is_open ≡ true →
        keys_of s.stage ≡ Some keys → PeerStands W.wrapped session.new (opened_by p datagram.old number s now (Some keys)).peer }
    ensures answer { (p : Peer) (s : Session) (keys : Keys) → PeerStands W.wrapped session.old p → slice_get p.sessions number ≡ Some s → s.is_open ≡ true →
        keys_of s.stage ≡ Some keys → TellsOpened result datagram.new (opened_by p datagram.old number s now (Some keys)).answer }
    ensures unchanged { IsUnchanged result datagram.old datagram.new }
    ensures goes_on { GoesOn session.new }
    ensures front { take 24 datagram.new ≡ take 24 datagram.old }
    ensures length { length datagram.new ≡ length datagram.old }
    ensures count { count session.new ≡ count session.old }
    ensures since { since session.new ≡ since session.old }
{
    channels_stand_on();
    match session.slots.take_text(number) {
        None => Err(SessionFault::NotSealed),
        Some(mut text) => {
            let opened = text.unseal(session.role, datagram, now);
            session.slots.put_text(number, text);
            opened
        }
    }
}

// The key id in the first byte of a datagram; that of an empty one is 0.
fn kid_in(datagram: &[u8]) -> u8
    ensures { result ≡ data_kid datagram.now }
{
    if datagram.is_empty() {
        0
    } else {
        datagram[0] % 8
    }
}
