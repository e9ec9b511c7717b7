//! The turn of a client.

ghost use Rattle.std.specs.Prelude.{◌≡◌, ◌<◌, ◌≤◌, ◌+◌, ℕ, List, Some, drop, length, option_map, slice_get};
ghost use Rattle.vpn_links.specs.Actions.{Action};
ghost use Rattle.client_table.specs.Changes.{place_of};
ghost use Rattle.client_table.specs.Tables.{entries_of};
ghost use Rattle.peer_table.specs.Outboxes.{GoesOnUnlessOver, HasRoom, Uses};
ghost use Rattle.peer_table.specs.Time.{ticked};
ghost use Rattle.server_table.specs.Courses.{Course, acted};
ghost use Rattle.server_table.specs.Endings as endings;
ghost use Rattle.server_table.specs.Lookups.{client_here};
ghost use Rattle.server_table.specs.Table.{Client};
ghost use Rattle.server_table.specs.Time as definitions;
ghost use Rattle.server_table.specs.Time.{ticking_for};
ghost use Rattle.server_state.specs.Calls.{opens_in};
ghost use Rattle.server_state.specs.Core.{CourseStands, IsSound};
ghost use Rattle.server_state.specs.Endings.{IsSoundBut};
ghost use Rattle.server_time.specs.Others.{LeavesOthers};
ghost use Rattle.server_time.specs.Turns.{IsNext, IsReadyAt, IsSoundBeforeTurn, MayTakeTurn, MayTick};

use crate::pinging::ping;
use crate::session::tick_client;
use peer_table::{ClientSession, Turn};
use server_state::{ClientState, ServerCore, count_opened};
use vpn_base::{Addr, Cid, Conn};
use vpn_links::Outbox;

// How many engine connections the effects from this place on open, where that is at most one.
fn opened_from(out: &Outbox, from: usize) -> u64
    ensures same { from ≤ length out.now.effects → opens_in (drop from out.now.effects) ≤ 1 → result ≡ opens_in (drop from out.now.effects) }
    ensures few { result ≤ 1 }
{
    if out.count() < from {
        return 0;
    }
    if 1 <= count_opened(out, from) { 1 } else { 0 }
}

// Time passes for the client at this place, whose turn it is. No session opens more than one connection then.
fn tick_at<S: ClientSession>(core: &mut ServerCore<S>, i: usize, to: Addr, out: &mut Outbox) -> Turn
    requires place { place_of core.old.turn.0 (entries_of core.old.clients) ≡ Some i }
    requires within { i < length (entries_of core.old.clients) }
    requires key { option_map (λ e. e.key.address) (slice_get (entries_of core.old.clients) i) ≡ Some to }
    requires ready { MayTakeTurn S.is_ready core.old core.old.turn.0 out.old }
    requires sound { IsSoundBeforeTurn S.goes_on S.count S.since core.old.turn.0 core.old }
    ensures acted { (before : List Action) (c : Course) → CourseStands S.stands before core.old out.old c →
        (x : Client) → client_here c.table core.old.turn.0 ≡ Some x →
        CourseStands S.stands before core.new out.new (acted core.old.turn.0 x.address (ticked (ticking_for c.table x) x.session) c) }
    ensures answer { (before : List Action) (c : Course) → CourseStands S.stands before core.old out.old c →
        (x : Client) → client_here c.table core.old.turn.0 ≡ Some x → result ≡ (ticked (ticking_for c.table x) x.session).answer }
    ensures but { IsSoundBut S.goes_on S.count S.since core.old.turn.0 core.new }
    ensures sound { GoesOnUnlessOver (IsSound S.goes_on S.count S.since core.new) result }
    ensures turn_stays { core.new.turn ≡ core.old.turn }
    ensures uses { (effects bytes : ℕ) → IsReadyAt S.is_ready core.old core.old.turn.0 effects bytes → Uses out.old out.new effects bytes }
    ensures others { LeavesOthers core.old.turn.0 1 core.old core.new }
{
    client_table::lending_sets_the_value::<ClientState<S>>();
    server_state::places_tell_of_clients::<S>();
    server_state::calls_are_put_into_courses::<S>();
    let from = out.count();
    let now = core.moment;
    let next_conn = Conn(core.connections);
    let keepalive = core.settings.keepalive;
    let turn = tick_client(core.clients.value_at(i), keepalive, next_conn, to, now, out);
    core.connections += opened_from(out, from);
    turn
}

// The client whose turn it is ends where its session says so.
#[tactic(auto, using(crate::proofs::Others::others_itself, crate::proofs::Others::others_ended))]
fn end_if_over<S: ClientSession + Drop>(
    core: &mut ServerCore<S>,
    cid: Cid,
    turn: Turn,
    out: &mut Outbox,
)
    requires room { HasRoom out.old 5 39 }
    requires turn { core.old.turn ≡ cid }
    requires but { IsSoundBut S.goes_on S.count S.since cid.0 core.old }
    requires sound { GoesOnUnlessOver (IsSound S.goes_on S.count S.since core.old) turn }
    ensures turned { (before : List Action) (c : Course) → CourseStands S.stands before core.old out.old c →
        CourseStands S.stands before core.new out.new (endings.turned cid.0 turn c) }
    ensures sound { IsSound S.goes_on S.count S.since core.new }
    ensures uses { Uses out.old out.new 5 39 }
    ensures turn_stays { core.new.turn ≡ core.old.turn }
    ensures others { LeavesOthers cid.0 0 core.old core.new }
{
    match turn {
        Turn::Going => {}
        Turn::Ignored => {}
        Turn::Named => {}
        Turn::Exchange => {}
        Turn::Over(cause) => core.end(cid, cause, out),
    }
}

// The client at this place, whose turn it is, has it: its session first, then it may end, then it may be due a ping.
fn take_turn<S: ClientSession + Drop>(core: &mut ServerCore<S>, i: usize, out: &mut Outbox)
    requires place { place_of core.old.turn.0 (entries_of core.old.clients) ≡ Some i }
    requires within { i < length (entries_of core.old.clients) }
    requires ready { MayTakeTurn S.is_ready core.old core.old.turn.0 out.old }
    requires sound { IsSoundBeforeTurn S.goes_on S.count S.since core.old.turn.0 core.old }
    ensures ticked { (before : List Action) (c : Course) → CourseStands S.stands before core.old out.old c →
        CourseStands S.stands before core.new out.new (definitions.client_ticked core.old.turn.0 c) }
    ensures sound { IsSound S.goes_on S.count S.since core.new }
    ensures uses { (effects bytes : ℕ) → IsReadyAt S.is_ready core.old core.old.turn.0 effects bytes → Uses out.old out.new (effects + 7) (bytes + 1563) }
    ensures turn_stays { core.new.turn ≡ core.old.turn }
    ensures others { LeavesOthers core.old.turn.0 1 core.old core.new }
{
    server_state::places_tell_of_clients::<S>();
    let cid = core.turn;
    let to = core.clients.key_at(i).address;
    let turn = tick_at(core, i, to, out);
    end_if_over(core, cid, turn, out);
    ping(core, cid, out);
}

/// Time has passed for the client of this number, if it is here: its session does what is due, which may end
/// the client, and where none ended it, a ping may be due. It takes no memory. The numbers of all clients that
/// had their turn in this step are lower. Those behind it are as they were.
pub fn client_ticked<S: ClientSession + Drop>(core: &mut ServerCore<S>, cid: Cid, out: &mut Outbox)
    requires next { IsNext out.old.staged core.old.turn.0 cid.0 }
    requires ready { MayTakeTurn S.is_ready core.old cid.0 out.old }
    requires sound { IsSoundBeforeTurn S.goes_on S.count S.since cid.0 core.old }
    ensures ticked { (before : List Action) (c : Course) → CourseStands S.stands before core.old out.old c →
        CourseStands S.stands before core.new out.new (definitions.client_ticked cid.0 c) }
    ensures sound { IsSound S.goes_on S.count S.since core.new }
    ensures uses { (effects bytes : ℕ) → IsReadyAt S.is_ready core.old cid.0 effects bytes → Uses out.old out.new (effects + 7) (bytes + 1563) }
    ensures turn { core.new.turn ≡ cid }
    ensures others { LeavesOthers cid.0 1 core.old core.new }
{
    server_state::places_tell_of_clients::<S>();
    core.turn = cid;
    core.mark = out.staged();
    match core.clients.place(cid) {
        None => {}
        Some(i) => take_turn(core, i, out),
    }
}
