//! Laws about where datagrams go.

ghost use Rattle.std.specs.Prelude.{◌≡◌, ℕ, is_some, Bool, true, false, List, None, Ok, Err};
ghost use Rattle.vpn_base.specs.declared.names.Moment.{Moment};
ghost use Rattle.peer_table.specs.declared.outcomes.SessionFault.TheVariants.{BadKey};
ghost use Rattle.peer_table.specs.declared.outcomes.Turn.{Turn};
ghost use Rattle.peer_table.specs.ControlPackets.{Incoming, control_came};
ghost use Rattle.peer_table.specs.DataPackets.{data_came, data_kid};
ghost use Rattle.peer_table.specs.Peer.{Peer};
ghost use Rattle.vpn_links.specs.declared.events.Event.{Event};
ghost use Rattle.ovpn_config.specs.declared.settings.Settings.{Settings};
ghost use Rattle.server_table.specs.ControlDatagrams.{control_place};
ghost use Rattle.server_table.specs.DataDatagrams.{data_place};
ghost use Rattle.server_table.specs.Runs.{Entry, after_all};
ghost use Rattle.server_table.specs.Step.{is_over, step};
ghost use Rattle.server_table.specs.Table.{Table, table_begun};
ghost use Rattle.server_laws.specs.Accepted.{Accepts};
ghost use Rattle.server_laws.specs.LastTaken.{IsApart, TellsPlace, WentToSession};

/// Where the datagram of a step went to a key session, that is one of a client's in the table after the step: its
/// connection, both session ids and its number are as they stand there. A data packet that is accepted under a key
/// session went to this one. An event that is no datagram tells none.
pub fn datagrams_go_to_key_sessions()
    ensures begins { (settings : Settings) (key : List ℕ) → TellsPlace (table_begun settings key) }
    ensures step { (lacks : Bool) (t : Table) (event : Event) → TellsPlace t → TellsPlace (step lacks t event).table }
    ensures run { (settings : Settings) (key : List ℕ) (entries : List Entry) → TellsPlace (after_all (table_begun settings key) entries) }
    ensures accepted { (lacks : Bool) (settings : Settings) (key : List ℕ) (before : List Entry) (event : Event) (n k id : ℕ) (inner : List ℕ) →
        Accepts (after_all (table_begun settings key) before) event n k id inner →
        WentToSession (step lacks (after_all (table_begun settings key) before) event).table n k }
    ensures others { (lacks : Bool) (t : Table) (event : Event) → is_over t ≡ false → IsApart event.kind → (step lacks t event).table.last_taken ≡ None }
{
    server_table::tables_stay_sound();
}

/// What is taken has a place: a control packet that a client's session takes went to a key session that the client
/// has then, and a data packet has no place only where it is refused since no usable key session has its key id.
pub fn what_is_taken_has_a_place()
    ensures control { (p : Peer) (i : Incoming) (turn : Turn) → (control_came p i).answer ≡ Ok turn → is_some (control_place i p (control_came p i).peer) ≡ true }
    ensures data { (p : Peer) (datagram : List ℕ) (now : Moment) → is_some (data_place now.0 datagram p) ≡ false →
        (data_came datagram now p).answer ≡ Err (BadKey (data_kid datagram)) }
{}
