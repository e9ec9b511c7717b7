//! Laws on the key sessions of a client: what was closed as no longer usable is not usable later, and the name comes
//! first.

ghost use Rattle.std.specs.Prelude.{◌≡◌, ◌≤◌, ℕ, true, false, List, Some, None};
ghost use Rattle.vpn_base.specs.declared.names.Conn.{Conn};
ghost use Rattle.vpn_base.specs.declared.names.Draw.{Draw};
ghost use Rattle.vpn_base.specs.declared.names.Moment.{Moment};
ghost use Rattle.vpn_base.specs.declared.names.Policy.{Policy};
ghost use Rattle.vpn_base.specs.declared.names.Role.{Role};
ghost use Rattle.vpn_base.specs.declared.names.Sid.{Sid};
ghost use Rattle.vpn_base.specs.declared.names.Timers.{Timers};
ghost use Rattle.vpn_links.specs.declared.events.Kind.{Kind};
ghost use Rattle.tls_crypt.specs.Packets.{Wrapping};
ghost use Rattle.peer_table.specs.ControlPackets.{Incoming, control_came};
ghost use Rattle.peer_table.specs.DataPackets.{data_came, sealed_to};
ghost use Rattle.peer_table.specs.EngineAnswers.{engine_came};
ghost use Rattle.peer_table.specs.Exchange.{after_message, exchanged};
ghost use Rattle.peer_table.specs.Orderly.{IsOrderly};
ghost use Rattle.peer_table.specs.Peer.{Peer, began};
ghost use Rattle.peer_table.specs.Time.{Ticking, is_late, retired, ticked};
ghost use Rattle.peer_table.specs.Unnamed.{NameComesFirst};
ghost use Rattle.key_sessions.specs.Slots.{LastIsOpen};
ghost use Rattle.session_state.specs.declared.session.SessionState.{SessionState};
ghost use Rattle.session_state.specs.Standing.{PeerStands, RetiredBy, UsableAreOpen};

/// A key session that was closed as no longer usable by a moment, in milliseconds, is not usable then or later:
/// this holds from a client's beginning on and through each call. A tick closes one only if it is no longer
/// usable at the tick's own moment, so it is enough to remember the moment of the last tick that closed one. The
/// key sessions for which a client's session stands are orderly, and the last of them that has keys is open.
pub fn retired_sessions_stay_retired<W: Drop>()
    ensures usable { (since now : ℕ) (p : Peer) → RetiredBy since p → since ≤ now → UsableAreOpen p now }
    ensures later { (since now : ℕ) (p : Peer) → RetiredBy since p → since ≤ now → RetiredBy now p }
    ensures begins { (role : Role) (wraps : Wrapping) (own : Sid) (timers : Timers) (conn : Conn) (now : ℕ) →
        RetiredBy 0 (began role wraps own timers conn now).peer }
    ensures control { (at : ℕ) (p : Peer) (i : Incoming) → RetiredBy at p → RetiredBy at (control_came p i).peer }
    ensures engine { (at : ℕ) (kind : Kind) (now : ℕ) (p : Peer) → RetiredBy at p → RetiredBy at (engine_came kind now p).peer }
    ensures exchange { (at : ℕ) (policy : Policy) (peer_id : ℕ) (draw : Draw) (p : Peer) → LastIsOpen p.sessions →
        RetiredBy at p → RetiredBy at (exchanged policy peer_id draw p).peer }
    ensures message { (at : ℕ) (p : Peer) → RetiredBy at p → RetiredBy at (after_message p) }
    ensures seals { (at : ℕ) (inner : List ℕ) (p : Peer) → RetiredBy at p → RetiredBy at (sealed_to inner p).peer }
    ensures opens { (at : ℕ) (datagram : List ℕ) (moment : Moment) (p : Peer) → RetiredBy at p → RetiredBy at (data_came datagram moment p).peer }
    ensures tick { (since : ℕ) (t : Ticking) (p : Peer) → RetiredBy since p → since ≤ t.at → RetiredBy t.at (ticked t p).peer }
    ensures none_retired { (since : ℕ) (t : Ticking) (p : Peer) → retired p t.at ≡ None → RetiredBy since p → RetiredBy since (ticked t p).peer }
    ensures late { (since : ℕ) (t : Ticking) (p : Peer) → is_late p t ≡ true → RetiredBy since p → RetiredBy since (ticked t p).peer }
    ensures idle { (since : ℕ) (t : Ticking) (p : Peer) → t.idle ≡ true → RetiredBy since p → RetiredBy since (ticked t p).peer }
    ensures remembered { (since after : ℕ) (t : Ticking) (p : Peer) → RetiredBy since p → since ≤ after →
        ((n : ℕ) → is_late p t ≡ false → t.idle ≡ false → retired p t.at ≡ Some n → after ≡ t.at) → RetiredBy after (ticked t p).peer }
    ensures stands { (wrapped : W → Wrapping) (s : SessionState W) (p : Peer) → PeerStands wrapped s p → LastIsOpen p.sessions × IsOrderly p.sessions }
{}

/// Until the name of a client is known, no key session gets beyond its first stage: this holds from a client's
/// beginning on and through each call.
pub fn names_come_first()
    ensures begins { (role : Role) (wraps : Wrapping) (own : Sid) (timers : Timers) (conn : Conn) (now : ℕ) →
        NameComesFirst (began role wraps own timers conn now).peer }
    ensures control { (p : Peer) (i : Incoming) → NameComesFirst p → NameComesFirst (control_came p i).peer }
    ensures engine { (kind : Kind) (now : ℕ) (p : Peer) → NameComesFirst p → NameComesFirst (engine_came kind now p).peer }
    ensures exchange { (policy : Policy) (peer_id : ℕ) (draw : Draw) (p : Peer) → NameComesFirst p → NameComesFirst (exchanged policy peer_id draw p).peer }
    ensures message { (p : Peer) → NameComesFirst p → NameComesFirst (after_message p) }
    ensures seals { (inner : List ℕ) (p : Peer) → NameComesFirst p → NameComesFirst (sealed_to inner p).peer }
    ensures opens { (datagram : List ℕ) (moment : Moment) (p : Peer) → NameComesFirst p → NameComesFirst (data_came datagram moment p).peer }
    ensures tick { (t : Ticking) (p : Peer) → NameComesFirst p → NameComesFirst (ticked t p).peer }
{}
