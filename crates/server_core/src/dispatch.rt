//! Each event goes to its handler.

ghost use Rattle.std.specs.Prelude.{◌≡◌, ◌≤◌, ◌^◌, [], Bool, List, length, false, IfOk, OnOk, OnErr, MatchResult};
ghost use Rattle.vpn_links.specs.Actions.{Action, Holds};
ghost use Rattle.vpn_links.specs.Rounds.{IsOfLine};
ghost use Rattle.peer_table.specs.Outboxes.{HasRoom};
ghost use Rattle.server_table.specs.Courses.{Course, outs};
ghost use Rattle.server_table.specs.Engine as definitions;
ghost use Rattle.server_table.specs.Runs.{is_free_kind, is_refusal};
ghost use Rattle.server_table.specs.Step.{came};
ghost use Rattle.server_core.specs.internal.{lacking_none};
ghost use Rattle.server_state.specs.Core.{CourseStands, IsSound, IsSoundAhead, StaysTold};

use crate::beginning::halt;
use crate::datagrams::datagram_came;
use crate::lines::line_came;
use peer_table::ClientSession;
use server_answers::{engine_answered, file_came};
use server_engine::{by_connection, engine_is_down};
use server_state::{ServerCore, a_core_ahead_is_sound};
use server_table::what_is_done_is_no_refusal;
use server_time::tick;
use std::alloc::Global;
use vpn_base::{Conn, Draw, NoMemory};
use vpn_links::{Kind, Note, Outbox};

// The client that has an engine connection ends with it, for which there may be no memory; a connection of no
// client is reported.
fn engine_down<S: ClientSession + Drop>(
    core: &mut ServerCore<S>,
    conn: Conn,
    out: &mut Outbox,
) -> Result<(), NoMemory>
    requires sound { IsSoundAhead S.goes_on S.count S.since core.old }
    requires room { HasRoom out.old 1 0 }
    requires mark { core.old.mark ≡ 0 }
    ensures came { OnOk result ((before : List Action) (c : Course) → CourseStands S.stands before core.old out.old c →
        CourseStands S.stands before core.new out.new (definitions.engine_is_down conn c)) }
    ensures same { OnErr result (core.new ≡ core.old) }
    ensures sound { OnOk result (IsSound S.goes_on S.count S.since core.new) }
    ensures outbox { OnErr result (Holds out.new out.old.effects out.old.staged) }
    ensures lacking { OnErr result ((before : List Action) (c : Course) → CourseStands S.stands before core.old out.old c → c.effects ≡ [] →
        is_refusal (outs (definitions.engine_is_down conn c)) ≡ false) }
{
    a_core_ahead_is_sound::<S>();
    what_is_done_is_no_refusal();
    match by_connection(core, conn) {
        None => {
            core.report(Note::UnknownConn { conn }, out);
            return Ok(());
        }
        Some(_) => match out.reserve(5, 39) {
            Ok(()) => {}
            Err(NoMemory) => return Err(NoMemory),
        },
    }
    engine_is_down(core, conn, out);
    Ok(())
}

// What was done lacked no host.
fn told(done: Result<(), NoMemory>) -> Result<bool, NoMemory>
    ensures { result ≡ lacking_none done }
{
    match done {
        Ok(()) => Ok(false),
        Err(NoMemory) => Err(NoMemory),
    }
}

/// An event comes, which counts already. The answer is whether there was no memory to learn a host of it. After
/// want of memory nothing has changed, and the event was not one that takes none.
pub(crate) fn came<S: ClientSession + Drop>(
    core: &mut ServerCore<S>,
    alloc: Global,
    draw: &Draw,
    kind: &Kind,
    buffer: &mut [u8],
    out: &mut Outbox,
) -> Result<bool, NoMemory>
    requires line { IsOfLine kind.now }
    requires buffer { length buffer.old ≡ 65536 }
    requires counted { 1 ≤ core.old.events }
    requires few { core.old.events ≤ 2 ^ 48 }
    requires sound { IsSoundAhead S.goes_on S.count S.since core.old }
    requires room { HasRoom out.old 4 4096 }
    requires alone { out.old.staged ≡ [] }
    requires mark { core.old.mark ≡ 0 }
    ensures came { IfOk result (λ lacks. (before : List Action) (c : Course) → CourseStands S.stands before core.old out.old c →
        CourseStands S.stands before core.new out.new (came lacks draw.now kind.now c)) }
    ensures kept { OnErr result ((before : List Action) (c : Course) → CourseStands S.stands before core.old out.old c →
        CourseStands S.stands before core.new out.new c) }
    ensures sound { MatchResult result (λ _. IsSound S.goes_on S.count S.since core.new) (λ _. IsSoundAhead S.goes_on S.count S.since core.new) }
    ensures still { OnErr result (StaysTold S.since core.old core.new) }
    ensures outbox { OnErr result (Holds out.new out.old.effects out.old.staged) }
    ensures lacking { OnErr result ((before : List Action) (c : Course) → CourseStands S.stands before core.old out.old c → c.effects ≡ [] →
        (is_free_kind kind.now ≡ false) × (is_refusal (outs (came false draw.now kind.now c)) ≡ false)) }
    ensures length { length buffer.new ≡ 65536 }
{
    a_core_ahead_is_sound::<S>();
    what_is_done_is_no_refusal();
    match kind {
        Kind::Datagram { from, bytes } => {
            datagram_came(
                core,
                alloc,
                *from,
                bytes.as_slice(),
                kind,
                draw,
                buffer,
                out,
            )
        }
        Kind::EngineText { conn, .. } => told(engine_answered(core, alloc, draw, *conn, kind, out)),
        Kind::EnginePlain { conn, .. } => told(engine_answered(
            core, alloc, draw, *conn, kind, out,
        )),
        Kind::EngineUp { conn, .. } => told(engine_answered(core, alloc, draw, *conn, kind, out)),
        Kind::EngineDown { conn } => told(engine_down(core, *conn, out)),
        Kind::DeviceIn { bytes } => {
            core.device_came(bytes.as_slice(), out);
            Ok(false)
        }
        Kind::DeviceReady => {
            core.device_ready(out);
            Ok(false)
        }
        Kind::File { cid, answer } => told(file_came(core, alloc, draw, *cid, answer, out)),
        Kind::Line { bytes } => {
            line_came(core, bytes.as_slice(), out);
            Ok(false)
        }
        Kind::Tick => told(tick(core, out)),
        Kind::Halt => {
            halt(core, out);
            Ok(false)
        }
    }
}
