//! Answers of the TLS engine.

ghost use Rattle.std.specs.Prelude.{◌≡◌, ◌≤◌, ◌+◌, ◌-◌, ◌^◌, [], ℕ, Bool, List, None, Some, false, OnOk, OnErr, MatchResult};
ghost use Rattle.vpn_links.specs.Actions.{Action, Holds};
ghost use Rattle.peer_table.specs.EngineAnswers.{engine_came};
ghost use Rattle.peer_table.specs.Outboxes.{HasRoom};
ghost use Rattle.server_table.specs.Courses.{Course, outs};
ghost use Rattle.server_table.specs.Engine as definitions;
ghost use Rattle.server_table.specs.Engine.{answer_acted, answer_for, engine_acted, text_acted};
ghost use Rattle.server_table.specs.Lookups.{client_here};
ghost use Rattle.server_table.specs.Runs.{is_refusal};
ghost use Rattle.server_table.specs.Table.{Client};
ghost use Rattle.server_state.specs.Core.{CourseStands, IsSound, IsSoundAhead, StaysTold};
ghost use Rattle.server_engine.specs.Calls.{IsNamedAt, IsReadyAt};
ghost use Rattle.server_answers.specs.Texts.{is_text};
ghost use Rattle.server_answers.specs.internal.Ahead.{IsTurnAt, StaysSame};

use crate::ahead::{longest_at, make_ready, prepare_at, text_length, unread_at};
use crate::following::take_plain;
use crate::reserving::{reserve_all, reserve_ending};
use peer_table::ClientSession;
use server_engine::{by_connection, send_text};
use server_establishing::give_back_held;
use server_state::{ServerCore, a_core_ahead_is_sound};
use server_table::what_is_done_is_no_refusal;
use std::alloc::Global;
use vpn_base::{Cid, Conn, Draw, NoMemory};
use vpn_links::{Kind, Note, Outbox};

// The engine has text for the other end, on a connection of the client at this place. After want of memory nothing
// has changed.
#[tactic(auto, using(crate::proofs::Readied::stays_itself, crate::proofs::Readied::stays_on))]
fn text_answered<S: ClientSession + Drop>(
    core: &mut ServerCore<S>,
    i: usize,
    kind: &Kind,
    out: &mut Outbox,
) -> Result<(), NoMemory>
    requires at { IsTurnAt core.old i }
    requires few { core.old.events ≤ 2 ^ 48 }
    requires sound { IsSoundAhead S.goes_on S.count S.since core.old }
    ensures sent { OnOk result ((before : List Action) (c : Course) (x : Client) → CourseStands S.stands before core.old out.old c →
        client_here c.table core.old.turn.0 ≡ Some x →
        CourseStands S.stands before core.new out.new (text_acted core.old.turn.0 x c (engine_came kind.now c.table.moment x.session))) }
    ensures sound { OnOk result (IsSound S.goes_on S.count S.since core.new) }
    ensures stays { OnErr result (StaysSame S.stands S.goes_on S.count S.since core.old core.new) }
    ensures outbox { OnErr result (Holds out.new out.old.effects out.old.staged) }
{
    a_core_ahead_is_sound::<S>();
    let room = match make_ready(core, i, kind) {
        Ok(room) => room,
        Err(NoMemory) => return Err(NoMemory),
    };
    match reserve_ending(out, room) {
        Ok(()) => {}
        Err(NoMemory) => return Err(NoMemory),
    }
    send_text(core, i, kind, room, out);
    Ok(())
}

// The engine has plain text or a name on a connection of the client at this place, whose session is ready for it.
// After want of memory nothing has changed.
fn plain_ready<S: ClientSession + Drop>(
    core: &mut ServerCore<S>,
    alloc: Global,
    draw: &Draw,
    i: usize,
    kind: &Kind,
    room: (usize, usize),
    out: &mut Outbox,
) -> Result<(), NoMemory>
    requires at { IsTurnAt core.old i }
    requires ready { IsReadyAt S.is_ready core.old i kind.now room.0 room.1 }
    requires named { IsNamedAt core.old i }
    requires sound { IsSoundAhead S.goes_on S.count S.since core.old }
    requires none_held { core.old.held ≡ None }
    requires mark { core.old.mark ≡ 0 }
    ensures came { OnOk result ((before : List Action) (c : Course) (x : Client) → CourseStands S.stands before core.old out.old c →
        client_here c.table core.old.turn.0 ≡ Some x →
        CourseStands S.stands before core.new out.new (engine_acted draw.now core.old.turn.0 x c (engine_came kind.now c.table.moment x.session))) }
    ensures sound { OnOk result (IsSound S.goes_on S.count S.since core.new) }
    ensures stays { OnErr result (StaysSame S.stands S.goes_on S.count S.since core.old core.new) }
    ensures outbox { OnErr result (Holds out.new out.old.effects out.old.staged) }
{
    a_core_ahead_is_sound::<S>();
    let left = match unread_at(core, i, text_length(kind)) {
        Ok(left) => left,
        Err(NoMemory) => return Err(NoMemory),
    };
    let longest = longest_at(core, i);
    let prepared = match prepare_at(core, alloc, i, kind) {
        Ok(prepared) => prepared,
        Err(NoMemory) => return Err(NoMemory),
    };
    match reserve_all(out, room, &prepared, left, longest) {
        Ok(()) => {}
        Err(NoMemory) => return Err(NoMemory),
    }
    take_plain(
        core, alloc, draw, i, kind, room, prepared, left, longest, out,
    );
    Ok(())
}

// The engine has plain text or a name on a connection of the client at this place. After want of memory nothing
// has changed.
#[tactic(auto, using(crate::proofs::Readied::stays_itself, crate::proofs::Readied::stays_on))]
fn plain_answered<S: ClientSession + Drop>(
    core: &mut ServerCore<S>,
    alloc: Global,
    draw: &Draw,
    i: usize,
    kind: &Kind,
    out: &mut Outbox,
) -> Result<(), NoMemory>
    requires at { IsTurnAt core.old i }
    requires few { core.old.events ≤ 2 ^ 48 }
    requires sound { IsSoundAhead S.goes_on S.count S.since core.old }
    requires none_held { core.old.held ≡ None }
    requires mark { core.old.mark ≡ 0 }
    ensures came { OnOk result ((before : List Action) (c : Course) (x : Client) → CourseStands S.stands before core.old out.old c →
        client_here c.table core.old.turn.0 ≡ Some x →
        CourseStands S.stands before core.new out.new (engine_acted draw.now core.old.turn.0 x c (engine_came kind.now c.table.moment x.session))) }
    ensures sound { OnOk result (IsSound S.goes_on S.count S.since core.new) }
    ensures stays { OnErr result (StaysSame S.stands S.goes_on S.count S.since core.old core.new) }
    ensures outbox { OnErr result (Holds out.new out.old.effects out.old.staged) }
{
    let room = match make_ready(core, i, kind) {
        Ok(room) => room,
        Err(NoMemory) => return Err(NoMemory),
    };
    plain_ready(core, alloc, draw, i, kind, room, out)
}

// Whether the engine has text for the other end.
fn is_text(kind: &Kind) -> bool
    ensures { result ≡ is_text kind.now }
{
    match kind {
        Kind::EngineText { .. } => true,
        _ => false,
    }
}

// The engine has answered on a connection of the client at this place. After want of memory nothing has changed.
fn answered_at<S: ClientSession + Drop>(
    core: &mut ServerCore<S>,
    alloc: Global,
    draw: &Draw,
    i: usize,
    kind: &Kind,
    out: &mut Outbox,
) -> Result<(), NoMemory>
    requires at { IsTurnAt core.old i }
    requires few { core.old.events ≤ 2 ^ 48 }
    requires sound { IsSoundAhead S.goes_on S.count S.since core.old }
    requires none_held { core.old.held ≡ None }
    requires mark { core.old.mark ≡ 0 }
    ensures came { OnOk result ((before : List Action) (c : Course) (x : Client) → CourseStands S.stands before core.old out.old c →
        client_here c.table core.old.turn.0 ≡ Some x →
        CourseStands S.stands before core.new out.new (answer_acted draw.now core.old.turn.0 x c kind.now (engine_came kind.now c.table.moment x.session))) }
    ensures sound { OnOk result (IsSound S.goes_on S.count S.since core.new) }
    ensures stays { OnErr result (StaysSame S.stands S.goes_on S.count S.since core.old core.new) }
    ensures outbox { OnErr result (Holds out.new out.old.effects out.old.staged) }
{
    if is_text(kind) {
        return text_answered(core, i, kind, out);
    }
    plain_answered(core, alloc, draw, i, kind, out)
}

// The engine has answered on a connection of the client of this number. After want of memory nothing has changed
// but whose turn it is.
fn client_answered<S: ClientSession + Drop>(
    core: &mut ServerCore<S>,
    alloc: Global,
    draw: &Draw,
    cid: Cid,
    kind: &Kind,
    out: &mut Outbox,
) -> Result<(), NoMemory>
    requires few { core.old.events ≤ 2 ^ 48 }
    requires sound { IsSoundAhead S.goes_on S.count S.since core.old }
    requires alone { out.old.staged ≡ [] }
    requires mark { core.old.mark ≡ 0 }
    ensures came { OnOk result ((before : List Action) (c : Course) → CourseStands S.stands before core.old out.old c →
        CourseStands S.stands before core.new out.new (answer_for draw.now kind.now cid.0 c (client_here c.table cid.0))) }
    ensures kept { OnErr result ((before : List Action) (c : Course) → CourseStands S.stands before core.old out.old c →
        CourseStands S.stands before core.new out.new c) }
    ensures sound { MatchResult result (λ _. IsSound S.goes_on S.count S.since core.new) (λ _. IsSoundAhead S.goes_on S.count S.since core.new) }
    ensures still { OnErr result (StaysTold S.since core.old core.new) }
    ensures outbox { OnErr result (Holds out.new out.old.effects out.old.staged) }
    ensures events { OnErr result (core.new.events ≡ core.old.events) }
{
    a_core_ahead_is_sound::<S>();
    server_state::places_tell_of_clients::<S>();
    give_back_held(core);
    core.turn = cid;
    let Some(i) = core.clients.place(cid) else {
        return Ok(());
    };
    answered_at(core, alloc, draw, i, kind, out)
}

/// The engine has text, plain text or a name on a connection. One of no client is reported, for which no memory is
/// taken. After want of memory nothing has changed but whose turn it is.
pub fn engine_answered<S: ClientSession + Drop>(
    core: &mut ServerCore<S>,
    alloc: Global,
    draw: &Draw,
    conn: Conn,
    kind: &Kind,
    out: &mut Outbox,
) -> Result<(), NoMemory>
    requires few { core.old.events ≤ 2 ^ 48 }
    requires sound { IsSoundAhead S.goes_on S.count S.since core.old }
    requires room { HasRoom out.old 1 0 }
    requires alone { out.old.staged ≡ [] }
    requires mark { core.old.mark ≡ 0 }
    ensures came { OnOk result ((before : List Action) (c : Course) → CourseStands S.stands before core.old out.old c →
        CourseStands S.stands before core.new out.new (definitions.engine_answered draw.now conn kind.now c)) }
    ensures kept { OnErr result ((before : List Action) (c : Course) → CourseStands S.stands before core.old out.old c →
        CourseStands S.stands before core.new out.new c) }
    ensures sound { MatchResult result (λ _. IsSound S.goes_on S.count S.since core.new) (λ _. IsSoundAhead S.goes_on S.count S.since core.new) }
    ensures still { OnErr result (StaysTold S.since core.old core.new) }
    ensures outbox { OnErr result (Holds out.new out.old.effects out.old.staged) }
    ensures events { OnErr result (core.new.events ≡ core.old.events) }
    ensures lacking { OnErr result ((before : List Action) (c : Course) → CourseStands S.stands before core.old out.old c → c.effects ≡ [] →
        is_refusal (outs (definitions.engine_answered draw.now conn kind.now c)) ≡ false) }
{
    a_core_ahead_is_sound::<S>();
    what_is_done_is_no_refusal();
    match by_connection(core, conn) {
        None => {
            core.report(Note::UnknownConn { conn }, out);
            Ok(())
        }
        Some(cid) => client_answered(core, alloc, draw, cid, kind, out),
    }
}
