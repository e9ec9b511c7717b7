//! Laws that tell whether the definitions mean what they should.

ghost use Rattle.std.specs.Prelude.{◌≡◌, ◌≤◌, ◌+◌, ◌^◌, ℕ, Bool, true, false, List, [], ◌∷◌, length, map, slice_get, Option, Some, None};
ghost use Rattle.ovpn_config.specs.declared.settings.Settings.{Settings};
ghost use Rattle.vpn_base.specs.declared.names.Cause.{Cause};
ghost use Rattle.vpn_links.specs.Actions.{Stop, stops};
ghost use Rattle.vpn_links.specs.declared.events.Event.{Event};
ghost use Rattle.vpn_links.specs.declared.events.Kind.TheVariants.{Halt};
ghost use Rattle.peer_table.specs.KeySessions.{is_open};
ghost use Rattle.peer_table.specs.Orderly.{how_many};
ghost use Rattle.server_table.specs.Courses.{Course, outs};
ghost use Rattle.server_table.specs.Endings.{ended};
ghost use Rattle.server_table.specs.Establishing.{Leased, address_by};
ghost use Rattle.server_table.specs.GivenUp.{IsGivenUp};
ghost use Rattle.server_table.specs.Lookups.{client_here};
ghost use Rattle.server_table.specs.internal.CallsKeepOrder.{CallsKeepOrder};
ghost use Rattle.server_table.specs.Numbers.{AreStill};
ghost use Rattle.server_table.specs.Pool.{IsFree};
ghost use Rattle.server_table.specs.Refusals.{is_refused};
ghost use Rattle.server_table.specs.Runs.{Entry, MayRun, after_all, run};
ghost use Rattle.server_table.specs.Sound.{IsSound};
ghost use Rattle.server_table.specs.Step.{course_begun, course_of, is_over, step};
ghost use Rattle.server_table.specs.Table.{Client, Table, table_begun};

/// Once the server was stopped, or took the last event that it takes, no event does anything or changes the
/// table, and none lacks memory. What stops it is the end.
pub fn a_stopped_server_stays()
    ensures step { (lacks : Bool) (t : Table) (event : Event) → is_over t ≡ true → step lacks t event ≡ course_of t }
    ensures stops { (lacks : Bool) (t : Table) (event : Event) → is_over t ≡ false → event.kind ≡ Halt →
        (step lacks t event).table.is_stopped ≡ true }
    ensures table { (t : Table) (entries : List Entry) → is_over t ≡ true → after_all t entries ≡ t }
    ensures outs { (t : Table) (entries : List Entry) → is_over t ≡ true → MayRun t entries → run t entries ≡ map (λ entry. []) entries }
{}

/// The end stops a server that takes events, does nothing else, and is told; nothing else stops it, nor does
/// anything else end the program. A server counts each event at most once.
pub fn only_the_end_stops()
    ensures told { (lacks : Bool) (t : Table) (event : Event) → is_over t ≡ false → event.kind ≡ Halt → outs (step lacks t event) ≡ Stop ∷ [] }
    ensures only { (lacks : Bool) (t : Table) (event : Event) → is_over t ≡ false → (step lacks t event).table.is_stopped ≡ true → event.kind ≡ Halt }
    ensures stop { (lacks : Bool) (t : Table) (event : Event) → stops (outs (step lacks t event)) ≡ true → event.kind ≡ Halt }
    ensures counted { (lacks : Bool) (t : Table) (event : Event) → (step lacks t event).table.events ≤ t.events + 1 }
{
    calls_keep_order();
}

/// Where a client has no address of its own, the one that it gets is free.
pub fn the_pool_gives_free_addresses()
    ensures { (t : Table) (a : Leased) → address_by t None ≡ Some a → IsFree t a.0 }
{}

// The law of a client's session, as one fact.
fn calls_keep_order()
    ensures { CallsKeepOrder }
{
    peer_table::key_sessions_are_orderly();
}

/// The moment of a server never falls, and stays one of the moments that events have.
pub fn moment_never_falls()
    ensures step { (lacks : Bool) (t : Table) (event : Event) → t.moment ≤ 2 ^ 52 → t.moment ≤ (step lacks t event).table.moment }
    ensures most { (lacks : Bool) (t : Table) (event : Event) → t.moment ≤ 2 ^ 52 → (step lacks t event).table.moment ≤ 2 ^ 52 }
    ensures run { (t : Table) (entries : List Entry) → t.moment ≤ 2 ^ 52 → t.moment ≤ (after_all t entries).moment }
{
    calls_keep_order();
}

/// Every table that a run comes to is sound: the key sessions of each client are orderly, no two clients that
/// are here have one peer id, nor one address with one session id, and each row is that of a client that is
/// here and established.
pub fn tables_stay_sound()
    ensures begins { (settings : Settings) (key : List ℕ) → IsSound (table_begun settings key) }
    ensures step { (lacks : Bool) (t : Table) (event : Event) → IsSound t → IsSound (step lacks t event).table }
    ensures run { (t : Table) (entries : List Entry) → IsSound t → IsSound (after_all t entries) }
{
    calls_keep_order();
}

/// Numbers are given in the order of admission, each once: a step keeps each client under its number, with its
/// peer id and the session id that was fixed, never brings back one that ended, and admits at most one, which
/// then has the next number.
pub fn numbers_are_in_order_of_admission()
    ensures step { (lacks : Bool) (t : Table) (event : Event) → IsSound t → AreStill t.clients (step lacks t event).table.clients }
    ensures from { (lacks : Bool) (t : Table) (event : Event) → length t.clients ≤ length (step lacks t event).table.clients }
    ensures most { (lacks : Bool) (t : Table) (event : Event) → length (step lacks t event).table.clients ≤ length t.clients + 1 }
    ensures run { (t : Table) (entries : List Entry) → IsSound t → AreStill t.clients (after_all t entries).clients }
{
    calls_keep_order();
}

/// Where all that an event does is the note of a refusal, the table is as the event found it: its moment is
/// the event's, and the event is counted.
pub fn refused_packets_change_nothing()
    ensures { (lacks : Bool) (t : Table) (event : Event) → is_refused (outs (step lacks t event)) ≡ true →
        (step lacks t event).table ≡ (course_begun t event).table }
{
    calls_keep_order();
}

/// Of each client of a sound table at most three key sessions are open.
pub fn at_most_three_sessions_are_open()
    ensures { (t : Table) (n : ℕ) (x : Client) → IsSound t → slice_get t.clients n ≡ Some x → how_many is_open x.session.sessions ≤ 3 }
{
    peer_table::at_most_three_are_open();
}

/// A client that ends gives up everything: its key sessions, its peer id, its rows with the hosts that were
/// learned of it, and the control datagrams that were staged for it.
pub fn an_end_gives_everything_up()
    ensures { (n : ℕ) (cause : Cause) (c : Course) (x : Client) → IsSound c.table → client_here c.table n ≡ Some x → IsGivenUp n x (ended n cause c) }
{}
