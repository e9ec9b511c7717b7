//! Laws about the wraps of control packets: each is accepted once.

ghost use Rattle.std.specs.Prelude.{◌≡◌, ◌≢◌, ◌⊎◌, ◌∷◌, ◌++◌, ℕ, List, Err};
ghost use Rattle.vpn_base.specs.declared.names.Draw.{Draw};
ghost use Rattle.vpn_base.specs.declared.names.Moment.{Moment};
ghost use Rattle.vpn_base.specs.declared.names.Policy.{Policy};
ghost use Rattle.vpn_links.specs.Steps.{LacksAll};
ghost use Rattle.vpn_links.specs.declared.events.Event.{Event};
ghost use Rattle.vpn_links.specs.declared.events.Kind.{Kind};
ghost use Rattle.ovpn_config.specs.declared.settings.Settings.{Settings};
ghost use Rattle.peer_table.specs.declared.outcomes.Refused.TheVariants.{Replayed};
ghost use Rattle.peer_table.specs.ControlPackets.{Incoming, control_came};
ghost use Rattle.peer_table.specs.DataPackets.{data_came, sealed_to};
ghost use Rattle.peer_table.specs.EngineAnswers.{engine_came};
ghost use Rattle.peer_table.specs.Exchange.{after_message, exchanged};
ghost use Rattle.peer_table.specs.Peer.{Peer, answered};
ghost use Rattle.peer_table.specs.Time.{Ticking, all_closed, ticked};
ghost use Rattle.server_table.specs.Table.{table_begun};
ghost use Rattle.server_table.specs.ControlDatagrams.{ControlPacket};
ghost use Rattle.server_table.specs.Runs.{Entry, after_all};
ghost use Rattle.server_laws.specs.Wraps.{AcceptsWrap, HasWrap, WrapsStay};

/// A client's session accepts each wrap once. A control packet has its wrap accepted, whatever becomes of it,
/// or is refused as replayed and nothing is done; that is so of each whose wrap was accepted before; and no
/// call forgets one.
pub fn wraps_are_accepted_once()
    ensures accepted { (p : Peer) (i : Incoming) → HasWrap (control_came p i).peer i.packet.time i.packet.id
        ⊎ (control_came p i ≡ answered p (Err (Replayed i.packet.time i.packet.id))) }
    ensures again { (p : Peer) (i : Incoming) → HasWrap p i.packet.time i.packet.id →
        control_came p i ≡ answered p (Err (Replayed i.packet.time i.packet.id)) }
    ensures control { (p : Peer) (i : Incoming) → WrapsStay p (control_came p i).peer }
    ensures engine { (kind : Kind) (now : ℕ) (p : Peer) → WrapsStay p (engine_came kind now p).peer }
    ensures exchange { (policy : Policy) (peer_id : ℕ) (draw : Draw) (p : Peer) → WrapsStay p (exchanged policy peer_id draw p).peer }
    ensures message { (p : Peer) → WrapsStay p (after_message p) }
    ensures seals { (inner : List ℕ) (p : Peer) → WrapsStay p (sealed_to inner p).peer }
    ensures opens { (datagram : List ℕ) (moment : Moment) (p : Peer) → WrapsStay p (data_came datagram moment p).peer }
    ensures tick { (t : Ticking) (p : Peer) → WrapsStay p (ticked t p).peer }
    ensures close { (p : Peer) → WrapsStay p (all_closed p) }
{}

/// No two events of a run have a wrap of one time and id accepted of one client, that of the packet which
/// admits the client included, unless the first one lacked memory as a whole.
pub fn no_wrap_is_accepted_twice()
    ensures { (settings : Settings) (key : List ℕ) (before between : List Entry) (first : Entry) (second : Event) (n : ℕ) (r q : ControlPacket) →
        first.1 ≢ LacksAll →
        AcceptsWrap (after_all (table_begun settings key) before) first.0 n r →
        AcceptsWrap (after_all (table_begun settings key) (before ++ first ∷ between)) second n q →
        r.packet.time ≡ q.packet.time → r.packet.id ≡ q.packet.id → ⊥ }
{
    server_table::tables_stay_sound();
}
