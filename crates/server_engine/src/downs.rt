//! The engine says that a connection is down.

ghost use Rattle.std.specs.Prelude.{◌≡◌, List};
ghost use Rattle.vpn_links.specs.Actions.{Action};
ghost use Rattle.peer_table.specs.Outboxes.{HasRoom, Uses};
ghost use Rattle.server_table.specs.Courses.{Course};
ghost use Rattle.server_table.specs.Engine as server;
ghost use Rattle.server_state.specs.Core.{CourseStands, IsSound};

use crate::finding::by_connection;
use peer_table::ClientSession;
use server_state::ServerCore;
use vpn_base::{Cause, Conn};
use vpn_links::{Note, Outbox};

/// The client that has an engine connection ends with it. A connection of no client is reported. It takes no
/// memory.
pub fn engine_is_down<S: ClientSession + Drop>(
    core: &mut ServerCore<S>,
    conn: Conn,
    out: &mut Outbox,
)
    requires room { HasRoom out.old 5 39 }
    requires nothing_staged { core.old.mark ≡ 0 }
    requires sound { IsSound S.goes_on S.count S.since core.old }
    ensures came { (before : List Action) (c : Course) → CourseStands S.stands before core.old out.old c →
        CourseStands S.stands before core.new out.new (server.engine_is_down conn c) }
    ensures sound { IsSound S.goes_on S.count S.since core.new }
    ensures uses { Uses out.old out.new 5 39 }
    ensures turn_stays { core.new.turn ≡ core.old.turn }
    ensures mark_stays { core.new.mark ≡ core.old.mark }
{
    match by_connection(core, conn) {
        None => core.report(Note::UnknownConn { conn }, out),
        Some(cid) => core.end(cid, Cause::EngineDown, out),
    }
}
