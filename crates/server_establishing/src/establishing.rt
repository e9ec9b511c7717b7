//! A client is established.

ghost use Rattle.std.specs.Prelude.{◌≡◌, ◌+◌, ◌≤◌, length, List, Some, None};
ghost use Rattle.vpn_links.specs.Actions.{Action};
ghost use Rattle.peer_table.specs.Outboxes.{HasRoom, Uses};
ghost use Rattle.server_table.specs.Courses.{Course};
ghost use Rattle.server_table.specs.Establishing.{ccd_in, client_established};
ghost use Rattle.server_table.specs.Lookups.{client_here};
ghost use Rattle.server_table.specs.Table.{Client};
ghost use Rattle.server_state.specs.Core.{CourseStands, IsSound};
ghost use Rattle.server_establishing.specs.Ahead.{IsMadeFor, bytes_with, effects_with, held_for, replies_in};

use crate::ahead::Ahead;
use crate::placing::establish_now;
use crate::replacing::replace;
use peer_table::ClientSession;
use server_state::ServerCore;
use server_texts::ReplyAhead;
use vpn_base::{Cid, Conn};
use vpn_links::Outbox;

/// Establishes a client, which is here, with what was made ahead for it: an established client of the same name
/// ends, unless several may have it; then the client gets its address, its rows and the reply on this
/// connection, and a manager is told. With no address left it ends. The answer is the reply, which may have to be
/// written again. It takes no memory.
pub fn establish<S: ClientSession + Drop>(
    core: &mut ServerCore<S>,
    cid: Cid,
    conn: Conn,
    ahead: Ahead,
    out: &mut Outbox,
) -> Option<ReplyAhead>
    requires held { core.old.held ≡ held_for ahead.lease }
    requires rows { 1 + length ahead.file.iroutes ≤ core.old.routes.spare_rows }
    requires room { HasRoom out.old (5 + effects_with ahead.file ahead.lease) (39 + bytes_with ahead.file ahead.lease) }
    requires first { core.old.mark ≡ 0 }
    ensures established { (before : List Action) (c : Course) (x : Client) → CourseStands S.stands before core.old out.old c →
        client_here c.table cid.0 ≡ Some x → x.established ≡ None → x.session.name ≡ Some ahead.name → ccd_in x.file ≡ ahead.file →
        IsMadeFor c cid.0 ahead.name ahead.file ahead → CourseStands S.stands before core.new out.new (client_established cid.0 conn c) }
    ensures sound { IsSound S.goes_on S.count S.since core.old → IsSound S.goes_on S.count S.since core.new }
    ensures uses { Uses out.old out.new (5 + effects_with ahead.file ahead.lease) (39 + bytes_with ahead.file ahead.lease) }
    ensures turn_stays { core.new.turn ≡ core.old.turn }
    ensures mark_stays { core.new.mark ≡ core.old.mark }
    ensures none_held { core.new.held ≡ None }
    ensures replies { result ≡ replies_in ahead.lease }
{
    replace(core, cid, ahead.name.as_slice(), out);
    establish_now(core, cid, conn, ahead, out)
}
