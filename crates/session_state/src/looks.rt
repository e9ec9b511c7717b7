//! What a client's session tells of itself.

ghost use Rattle.std.specs.Prelude.{◌≡◌, ◌<◌, ◌-◌, ◌^◌, Some, is_some};
ghost use Rattle.std.specs.Option.{option_copied};
ghost use Rattle.peer_table.specs.EngineAnswers.{open_with};
ghost use Rattle.peer_table.specs.Exchange.{cipher_of, first_conn};
ghost use Rattle.peer_table.specs.KeySessions.{live_with, usable_with};
ghost use Rattle.peer_table.specs.Naming.{number_of, place, place_numbered};
ghost use Rattle.peer_table.specs.Peer.{Peer, remote_of};
ghost use Rattle.session_state.specs.Standing.{PeerStands, count};

use crate::session::SessionState;
use tls_crypt::Wrap;
use vpn_base::{Cipher, Conn, Moment, Place, Sid};

impl<W: Wrap + Drop> SessionState<W> {
    /// The client's common name; None exactly before it is known.
    #[tactic(auto, unfolding(crate::specs::Standing::PeerStands))]
    pub fn name(&self) -> Option<&[u8]>
        ensures { (p : Peer) → PeerStands W.wrapped self.now p → option_copied result ≡ p.name }
    {
        match &self.name {
            None => None,
            Some(name) => Some(name.as_slice()),
        }
    }

    /// The client's own session id; None exactly before its first control packet was taken.
    #[tactic(auto, unfolding(crate::specs::Standing::PeerStands))]
    pub fn remote(&self) -> Option<Sid>
        ensures { (p : Peer) → PeerStands W.wrapped self.now p → result ≡ p.remote }
    {
        self.remote
    }

    /// The other end's session id in what is sent; before it is fixed nothing is sent that has it.
    #[tactic(auto, unfolding(crate::specs::Standing::PeerStands))]
    pub fn remote_sent(&self) -> Sid
        ensures { (p : Peer) → PeerStands W.wrapped self.now p → result ≡ remote_of p }
    {
        match self.remote {
            None => Sid([0; 8]),
            Some(sid) => sid,
        }
    }

    /// Whether the client asked to be established without a push request. It is false before the exchange.
    #[tactic(auto, unfolding(crate::specs::Standing::PeerStands))]
    pub fn asks_push(&self) -> bool
        ensures { (p : Peer) → PeerStands W.wrapped self.now p → result ≡ p.asks_push }
    {
        self.asks_push
    }

    /// The cipher of its keys; None exactly before the first exchange.
    #[tactic(auto, unfolding(crate::specs::Standing::PeerStands))]
    pub fn cipher(&self) -> Option<Cipher>
        ensures { (p : Peer) → PeerStands W.wrapped self.now p → result ≡ cipher_of p }
    {
        self.slots.cipher()
    }

    /// Whether an open key session has this engine connection.
    #[tactic(auto, unfolding(crate::specs::Standing::PeerStands))]
    pub fn has_conn(&self, conn: Conn) -> bool
        ensures { (p : Peer) → PeerStands W.wrapped self.now p → result ≡ is_some (open_with conn p) }
    {
        self.slots.open_with(conn).is_some()
    }

    /// The engine connection of key session 0.
    #[tactic(auto, using(crate::proofs::Seen::first_is), unfolding(crate::specs::Standing::PeerStands))]
    pub fn first_conn(&self) -> Option<Conn>
        ensures { (p : Peer) → PeerStands W.wrapped self.now p → result ≡ first_conn p }
    {
        match self.slots.at(0) {
            None => None,
            Some(seen) => Some(seen.conn),
        }
    }

    /// The open key session with this key id, if there is one.
    #[tactic(auto, using(crate::proofs::Seen::placed, crate::proofs::Seen::placed_none), unfolding(crate::specs::Standing::PeerStands))]
    pub fn place(&self, kid: u8) -> Option<Place>
        ensures { (p : Peer) → PeerStands W.wrapped self.now p → result ≡ place kid p }
    {
        match self.slots.open_with_kid(kid) {
            None => None,
            Some(number) => self.place_numbered(number),
        }
    }

    /// The number of the usable key session with this key id, to which a data packet goes, if there is one.
    #[tactic(auto, unfolding(crate::specs::Standing::PeerStands))]
    pub fn data_session(&self, kid: u8, now: Moment) -> Option<u64>
        ensures { (p : Peer) → PeerStands W.wrapped self.now p → result ≡ usable_with p.timers now.0 p.sessions kid }
    {
        self.slots.usable(kid, now, self.timers.tran)
    }

    /// The number of the live key session with this key id, to which a control packet goes, or of the next one
    /// where no live one has it.
    #[tactic(auto, unfolding(crate::specs::Standing::PeerStands, crate::specs::Standing::count))]
    pub fn control_session(&self, kid: u8, now: Moment) -> u64
        requires few { count self.now < 2 ^ 64 - 1 }
        ensures { (p : Peer) → PeerStands W.wrapped self.now p → result ≡ number_of p (live_with p.timers now.0 p.sessions kid) }
    {
        match self.slots.live(kid, now, self.timers.tran) {
            None => self.slots.newest().number + 1,
            Some(number) => number,
        }
    }

    /// The key session of this number, if there is one.
    #[tactic(auto, using(crate::proofs::Seen::place_is), unfolding(crate::specs::Standing::PeerStands))]
    pub fn place_numbered(&self, number: u64) -> Option<Place>
        ensures { (p : Peer) → PeerStands W.wrapped self.now p → result ≡ place_numbered number p }
    {
        match self.slots.at(number) {
            None => None,
            Some(seen) => Some(Place {
                conn: seen.conn,
                own: self.own,
                peer: self.remote,
                number,
            }),
        }
    }
}
