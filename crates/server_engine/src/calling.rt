//! Answers of the TLS engine are given to a client's session.

ghost use Rattle.std.specs.Prelude.{◌≡◌, ◌+◌, ◌<◌, ◌≤◌, ℕ, List, length, is_some, Some};
ghost use Rattle.vpn_links.specs.Actions.{Action};
ghost use Rattle.client_table.specs.Changes.{place_of};
ghost use Rattle.client_table.specs.Tables.{entries_of};
ghost use Rattle.peer_table.specs.EngineAnswers.{engine_came};
ghost use Rattle.peer_table.specs.Outboxes.{GoesOnUnlessOver, HasRoom, Leaves, Uses};
ghost use Rattle.peer_table.specs.Peer.{Peer};
ghost use Rattle.server_table.specs.Courses.{Course, acted};
ghost use Rattle.server_table.specs.Endings.{turned};
ghost use Rattle.server_table.specs.Engine.{text_acted};
ghost use Rattle.server_table.specs.Lookups.{client_here};
ghost use Rattle.server_table.specs.Table.{Client, Table};
ghost use Rattle.server_state.specs.Core.{CoreStands, CourseStands, IsSound};
ghost use Rattle.server_state.specs.Endings.{IsSoundBut};
ghost use Rattle.server_engine.specs.Calls.{IsNamedAt, IsReadyAt, MayExchangeNow};

use peer_table::{ClientSession, Turn};
use server_state::{ClientState, ServerCore};
use vpn_base::{Addr, Moment};
use vpn_links::{Kind, Outbox};

// The session of a client takes an answer of the engine. The room is what it was made ready for.
fn take_answer<S: ClientSession>(
    client: &mut ClientState<S>,
    kind: &Kind,
    to: Addr,
    now: Moment,
    room: (usize, usize),
    out: &mut Outbox,
) -> Turn
    requires room { HasRoom out.old room.0 room.1 }
    requires ready { S.is_ready client.old.session kind.now (is_some client.old.established) room.0 room.1 }
    requires goes_on { S.goes_on client.old.session }
    ensures left { (p : Peer) → S.stands client.old.session p → Leaves S.stands client.new.session out.old out.new to (engine_came kind.now now.0 p) }
    ensures answer { (p : Peer) → S.stands client.old.session p → result ≡ (engine_came kind.now now.0 p).answer }
    ensures others { client.new ≡ record client.old { session = client.new.session } }
    ensures goes_on { GoesOnUnlessOver (S.goes_on client.new.session) result }
    ensures count { S.count client.new.session ≡ S.count client.old.session }
    ensures since { S.since client.new.session ≡ S.since client.old.session }
    ensures exchange { S.may_exchange client.new.session }
    ensures room { HasRoom out.new 2 93 }
    ensures uses { Uses out.old out.new room.0 room.1 }
{
    let _ = room;
    match client.session.on_engine(kind, to, now, out) {
        Ok(turn) => turn,
        Err(_) => unreachable!(),
    }
}

/// The session of the client whose turn it is, at this place, takes an answer of the engine, and says what is to
/// be done. The room is what it was made ready for. It takes no memory.
pub fn call_engine<S: ClientSession>(
    core: &mut ServerCore<S>,
    i: usize,
    kind: &Kind,
    room: (usize, usize),
    out: &mut Outbox,
) -> Turn
    requires room { HasRoom out.old room.0 room.1 }
    requires ready { IsReadyAt S.is_ready core.old i kind.now room.0 room.1 }
    requires place { place_of core.old.turn.0 (entries_of core.old.clients) ≡ Some i }
    requires within { i < length (entries_of core.old.clients) }
    requires named { IsNamedAt core.old i }
    requires sound { IsSound S.goes_on S.count S.since core.old }
    ensures acted { (before : List Action) (c : Course) (x : Client) → CourseStands S.stands before core.old out.old c → client_here c.table core.old.turn.0 ≡ Some x →
        CourseStands S.stands before core.new out.new (acted core.old.turn.0 x.address (engine_came kind.now c.table.moment x.session) c) }
    ensures answer { (t : Table) (x : Client) → CoreStands S.stands core.old t → client_here t core.old.turn.0 ≡ Some x →
        result ≡ (engine_came kind.now t.moment x.session).answer }
    ensures sound { GoesOnUnlessOver (IsSound S.goes_on S.count S.since core.new) result }
    ensures sound_but { IsSoundBut S.goes_on S.count S.since core.old.turn.0 core.new }
    ensures ready { MayExchangeNow S.may_exchange core.new i }
    ensures room { HasRoom out.new 2 93 }
    ensures uses { Uses out.old out.new room.0 room.1 }
    ensures turn_stays { core.new.turn ≡ core.old.turn }
    ensures mark_stays { core.new.mark ≡ core.old.mark }
    ensures only { core.new ≡ record core.old { clients = core.new.clients } }
{
    client_table::lending_sets_the_value::<ClientState<S>>();
    server_state::places_tell_of_clients::<S>();
    server_state::a_changed_core_is_sound::<S>();
    server_state::calls_are_put_into_courses::<S>();
    let to = core.clients.key_at(i).address;
    let now = core.moment;
    take_answer(core.clients.value_at(i), kind, to, now, room, out)
}

/// The client whose turn it is ends where its session says so. It takes no memory.
pub fn end_if_over<S: ClientSession + Drop>(core: &mut ServerCore<S>, turn: Turn, out: &mut Outbox)
    requires room { HasRoom out.old 5 39 }
    requires sound { GoesOnUnlessOver (IsSound S.goes_on S.count S.since core.old) turn }
    requires sound_but { IsSoundBut S.goes_on S.count S.since core.old.turn.0 core.old }
    ensures turned { (before : List Action) (c : Course) → CourseStands S.stands before core.old out.old c →
        CourseStands S.stands before core.new out.new (turned core.old.turn.0 turn c) }
    ensures sound { IsSound S.goes_on S.count S.since core.new }
    ensures uses { Uses out.old out.new 5 39 }
    ensures turn_stays { core.new.turn ≡ core.old.turn }
    ensures mark_stays { core.new.mark ≡ core.old.mark }
    ensures held_stays { core.new.held ≡ core.old.held }
    ensures room_stays { core.old.routes.spare_rows ≤ core.new.routes.spare_rows }
{
    let cid = core.turn;
    match turn {
        Turn::Going => {}
        Turn::Ignored => {}
        Turn::Named => {}
        Turn::Exchange => {}
        Turn::Over(cause) => core.end(cid, cause, out),
    }
}

/// The engine has text for the other end, on a connection of the client whose turn it is, at this place. It is
/// staged, or has ended the client. It takes no memory.
pub fn send_text<S: ClientSession + Drop>(
    core: &mut ServerCore<S>,
    i: usize,
    kind: &Kind,
    room: (usize, usize),
    out: &mut Outbox,
)
    requires room { HasRoom out.old (room.0 + 5) (room.1 + 39) }
    requires ready { IsReadyAt S.is_ready core.old i kind.now room.0 room.1 }
    requires place { place_of core.old.turn.0 (entries_of core.old.clients) ≡ Some i }
    requires within { i < length (entries_of core.old.clients) }
    requires named { IsNamedAt core.old i }
    requires sound { IsSound S.goes_on S.count S.since core.old }
    ensures sent { (before : List Action) (c : Course) (x : Client) → CourseStands S.stands before core.old out.old c → client_here c.table core.old.turn.0 ≡ Some x →
        CourseStands S.stands before core.new out.new (text_acted core.old.turn.0 x c (engine_came kind.now c.table.moment x.session)) }
    ensures sound { IsSound S.goes_on S.count S.since core.new }
    ensures uses { Uses out.old out.new (room.0 + 5) (room.1 + 39) }
    ensures turn_stays { core.new.turn ≡ core.old.turn }
    ensures mark_stays { core.new.mark ≡ core.old.mark }
{
    let turn = call_engine(core, i, kind, room, out);
    end_if_over(core, turn, out);
}
