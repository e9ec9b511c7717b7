//! Laws that tell whether the definitions mean what they should.

ghost use Rattle.std.specs.Prelude.{ℕ, ◌≤◌, List, Option, None};
ghost use Rattle.vpn_base.specs.declared.names.Conn.{Conn};
ghost use Rattle.vpn_base.specs.declared.names.Draw.{Draw};
ghost use Rattle.vpn_base.specs.declared.names.Moment.{Moment};
ghost use Rattle.vpn_base.specs.declared.names.Policy.{Policy};
ghost use Rattle.vpn_base.specs.declared.names.Role.{Role};
ghost use Rattle.vpn_base.specs.declared.names.Sid.{Sid};
ghost use Rattle.vpn_base.specs.declared.names.Timers.{Timers};
ghost use Rattle.vpn_links.specs.declared.events.Kind.{Kind};
ghost use Rattle.tls_crypt.specs.Packets.{Wrapping};
ghost use Rattle.peer_table.specs.ControlPackets.{Incoming, control_came};
ghost use Rattle.peer_table.specs.DataPackets.{data_came, sealed_to};
ghost use Rattle.peer_table.specs.EngineAnswers.{engine_came};
ghost use Rattle.peer_table.specs.Exchange.{after_message, exchanged};
ghost use Rattle.peer_table.specs.KeySessions.{Session, is_open};
ghost use Rattle.peer_table.specs.Orderly.{IsOrderly, IsOrderlyFrom, IsOrderlyOrFixed, how_many};
ghost use Rattle.peer_table.specs.Peer.{Peer, began};
ghost use Rattle.peer_table.specs.Time.{Ticking, all_closed, ticked};

/// The key sessions of a client are orderly from its beginning on, and each call keeps them so: all but the
/// newest have keys, and at most two that have keys are open. The first control packet that is taken fixes
/// the other end's session id, and no call changes it.
pub fn key_sessions_are_orderly()
    ensures begins { (role : Role) (wraps : Wrapping) (own : Sid) (timers : Timers) (conn : Conn) (now : ℕ) →
        IsOrderlyFrom None (began role wraps own timers conn now).peer }
    ensures control { (remote : Option Sid) (p : Peer) (i : Incoming) → IsOrderlyFrom remote p → IsOrderlyOrFixed remote i (control_came p i).peer }
    ensures engine { (remote : Option Sid) (kind : Kind) (now : ℕ) (p : Peer) → IsOrderlyFrom remote p → IsOrderlyFrom remote (engine_came kind now p).peer }
    ensures exchange { (remote : Option Sid) (policy : Policy) (peer_id : ℕ) (draw : Draw) (p : Peer) →
        IsOrderlyFrom remote p → IsOrderlyFrom remote (exchanged policy peer_id draw p).peer }
    ensures message { (remote : Option Sid) (p : Peer) → IsOrderlyFrom remote p → IsOrderlyFrom remote (after_message p) }
    ensures seals { (remote : Option Sid) (inner : List ℕ) (p : Peer) → IsOrderlyFrom remote p → IsOrderlyFrom remote (sealed_to inner p).peer }
    ensures opens { (remote : Option Sid) (datagram : List ℕ) (moment : Moment) (p : Peer) →
        IsOrderlyFrom remote p → IsOrderlyFrom remote (data_came datagram moment p).peer }
    ensures tick { (remote : Option Sid) (t : Ticking) (p : Peer) → IsOrderlyFrom remote p → IsOrderlyFrom remote (ticked t p).peer }
    ensures close { (remote : Option Sid) (p : Peer) → IsOrderlyFrom remote p → IsOrderlyFrom remote (all_closed p) }
{}

/// Of orderly key sessions at most three are open.
pub fn at_most_three_are_open()
    ensures { (sessions : List Session) → IsOrderly sessions → how_many is_open sessions ≤ 3 }
{}
