//! Laws by which handlers prove that their core stands for the table still.

ghost use Rattle.std.specs.Prelude.{◌≡◌, ◌+◌, ◌≤◌, ℕ, true, false, [], ◌∷◌, ◌++◌, length, List, slice_get, option_map, Some, None, Result};
ghost use Rattle.client_table.specs.declared.table.ClientTable.{ClientTable};
ghost use Rattle.client_table.specs.Changes.{number_where, place_of, with_value, without};
ghost use Rattle.client_table.specs.Finding.{has_name, has_peer_id, is_at};
ghost use Rattle.client_table.specs.Tables.{entries_of};
ghost use Rattle.vpn_base.specs.declared.address.Addr.{Addr};
ghost use Rattle.vpn_base.specs.declared.names.Sid.{Sid};
ghost use Rattle.server_table.specs.Lookups.{by_peer_id, by_session, client_here, established_named};
ghost use Rattle.server_table.specs.Table.{Client, Table};
ghost use Rattle.server_state.specs.declared.client.ClientState.{ClientState};
ghost use Rattle.server_state.specs.declared.state.ServerCore.{ServerCore};
ghost use Rattle.vpn_links.specs.Actions.{Action, Contents};
ghost use Rattle.peer_table.specs.Outboxes.{actions_of};
ghost use Rattle.peer_table.specs.Peer.{Outcome};
ghost use Rattle.peer_table.specs.declared.outcomes.Refused.{Refused};
ghost use Rattle.peer_table.specs.declared.outcomes.Turn.{Turn};
ghost use Rattle.server_table.specs.Courses.{Course, acted};
ghost use Rattle.server_state.specs.Calls.{HasCalled, opens_in};
ghost use Rattle.server_state.specs.Core.{CoreStands, CourseStands, IsOfClient, IsSound, IsSoundAhead};
ghost use Rattle.client_table.specs.Entries.{Entry};
ghost use Rattle.peer_table.specs.Places.{changed_at};
ghost use Rattle.server_state.specs.Standing.{StandFrom};
ghost use Rattle.server_state.specs.Places.{IsChangedAt, IsThere};

use peer_table::ClientSession;

/// The place of a number tells of the client of that number: it is there, or not here.
#[tactic(auto, using(crate::proofs::Changed::is_there, crate::proofs::Changed::nobody_at))]
pub fn places_tell_of_clients<S: ClientSession>()
    ensures there { (core : ServerCore S) (t : Table) (m i : ℕ) → CoreStands S.stands core t → place_of m (entries_of core.clients) ≡ Some i →
        IsThere S.stands core t m i }
    ensures nobody { (core : ServerCore S) (t : Table) (m : ℕ) → CoreStands S.stands core t → place_of m (entries_of core.clients) ≡ None → client_here t m ≡ None }
{}

/// A core stays sound where one client has another value, whose session goes on with as many key sessions.
pub fn a_changed_core_is_sound<S: ClientSession>()
    ensures { (core : ServerCore S) (ct : ClientTable (ClientState S)) (i : ℕ) (v w : ClientState S) → IsSound S.goes_on S.count S.since core →
        option_map (λ e. e.value) (slice_get (entries_of core.clients) i) ≡ Some v → S.goes_on w.session → S.count w.session ≡ S.count v.session →
        (S.since v.session ≤ core.moment.0 → S.since w.session ≤ core.moment.0) →
        IsChangedAt core i (with_value w) ct → IsSound S.goes_on S.count S.since (record core { clients = ct }) }
{}

/// Clients are found in the table of clients as in the table for which the core stands.
#[tactic(auto, using(crate::proofs::Found::peer_id_is, crate::proofs::Found::session_is, crate::proofs::Found::name_is))]
pub fn clients_are_found_alike<S: ClientSession>()
    ensures peer_id { (core : ServerCore S) (t : Table) (peer_id : ℕ) → CoreStands S.stands core t →
        option_map (λ cid. cid.0) (number_where (has_peer_id peer_id) (entries_of core.clients)) ≡ by_peer_id t peer_id }
    ensures session { (core : ServerCore S) (t : Table) (from : Addr) (sid : Sid) → CoreStands S.stands core t →
        option_map (λ cid. cid.0) (number_where (is_at from sid) (entries_of core.clients)) ≡ by_session t from sid }
    ensures name { (core : ServerCore S) (t : Table) (name : List ℕ) → CoreStands S.stands core t →
        option_map (λ cid. cid.0) (number_where (has_name name) (entries_of core.clients)) ≡ established_named t name }
{}

/// A call of the session of the client whose turn it is, at its place, is put into the course as the definitions
/// do it.
#[tactic(auto, using(crate::proofs::Acted::call_stands))]
pub fn calls_are_put_into_courses<S: ClientSession>()
    ensures turn { (before : List Action) (core : ServerCore S) (c : Course) (old after : Contents) (o : Outcome Turn) (i : ℕ) (v w : ClientState S)
        (ct : ClientTable (ClientState S)) → CourseStands S.stands before core old c →
        ((x : Client) → client_here c.table core.turn.0 ≡ Some x → HasCalled S.stands core i old after o v w ct x) →
        place_of core.turn.0 (entries_of core.clients) ≡ Some i → (x : Client) → client_here c.table core.turn.0 ≡ Some x →
        CourseStands S.stands before (record core { clients = ct; connections = core.connections + opens_in (actions_of o.peer.role o.doings) }) after
        (acted core.turn.0 x.address o c) }
    ensures control { (before : List Action) (core : ServerCore S) (c : Course) (old after : Contents) (o : Outcome (Result Turn Refused)) (i : ℕ) (v w : ClientState S)
        (ct : ClientTable (ClientState S)) → CourseStands S.stands before core old c →
        ((x : Client) → client_here c.table core.turn.0 ≡ Some x → HasCalled S.stands core i old after o v w ct x) →
        place_of core.turn.0 (entries_of core.clients) ≡ Some i → (x : Client) → client_here c.table core.turn.0 ≡ Some x →
        CourseStands S.stands before (record core { clients = ct; connections = core.connections + opens_in (actions_of o.peer.role o.doings) }) after
        (acted core.turn.0 x.address o c) }
{}

/// One client more stands behind all others, and one that goes is taken out under its number, in the table of
/// clients as in the table for which the core stands.
#[tactic(auto, using(crate::proofs::Comings::comes, crate::proofs::Comings::goes))]
pub fn clients_come_and_go_alike<S: ClientSession>()
    ensures comes { (core : ServerCore S) (t : Table) (e : Entry (ClientState S)) (x : Client) → CoreStands S.stands core t → IsOfClient S.stands e (length t.clients) x →
        x.is_here ≡ true → StandFrom (IsOfClient S.stands) (entries_of core.clients ++ e ∷ []) 0 (t.clients ++ x ∷ []) }
    ensures goes { (core : ServerCore S) (t : Table) (m : ℕ) (g : Client → Client) → CoreStands S.stands core t → ((y : Client) → (g y).is_here ≡ false) →
        StandFrom (IsOfClient S.stands) (without m (entries_of core.clients)) 0 (changed_at m g t.clients) }
{}

/// What holds before an event is counted holds when it is.
#[tactic(auto, using(crate::proofs::Ahead::sound_counted))]
pub fn a_core_ahead_is_sound<S: ClientSession>()
    ensures { (core : ServerCore S) → IsSoundAhead S.goes_on S.count S.since core → IsSound S.goes_on S.count S.since core }
{}
