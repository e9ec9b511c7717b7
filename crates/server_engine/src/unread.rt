//! How much plain text a client has left unread.

ghost use Rattle.std.specs.Prelude.{◌≡◌, List, nat_lt};
ghost use Rattle.vpn_links.specs.Actions.{Action};
ghost use Rattle.peer_table.specs.Exchange.{most_unread};
ghost use Rattle.peer_table.specs.Outboxes.{HasRoom, Uses};
ghost use Rattle.peer_table.specs.Peer.{Peer};
ghost use Rattle.server_table.specs.Courses.{Course};
ghost use Rattle.server_table.specs.Engine.{unread_judged, unread_limit};
ghost use Rattle.server_state.specs.Core.{CourseStands, IsSound};

use peer_table::ClientSession;
use server_state::ServerCore;
use vpn_base::{Cause, Cid};
use vpn_links::Outbox;

// As many bytes may stay unread.
const LIMIT: usize = 8192;

// Whether a session has left too much unread.
fn has_too_much<S: ClientSession>(session: &S) -> bool
    ensures { (p : Peer) → S.stands session.now p → result ≡ nat_lt unread_limit (most_unread p.sessions) }
{
    LIMIT < session.unread()
}

/// The client whose turn it is, if it is here, ends where too much of its plain text stays unread. It takes no
/// memory.
pub fn judge_unread<S: ClientSession + Drop>(core: &mut ServerCore<S>, cid: Cid, out: &mut Outbox)
    requires room { HasRoom out.old 5 39 }
    requires turn { cid ≡ core.old.turn }
    requires sound { IsSound S.goes_on S.count S.since core.old }
    ensures judged { (before : List Action) (c : Course) → CourseStands S.stands before core.old out.old c →
        CourseStands S.stands before core.new out.new (unread_judged cid.0 c) }
    ensures sound { IsSound S.goes_on S.count S.since core.new }
    ensures uses { Uses out.old out.new 5 39 }
    ensures turn_stays { core.new.turn ≡ core.old.turn }
    ensures mark_stays { core.new.mark ≡ core.old.mark }
{
    server_state::places_tell_of_clients::<S>();
    match core.clients.place(cid) {
        None => {}
        Some(i) => {
            if has_too_much(&core.clients.look_at(i).session) {
                core.end(cid, Cause::Unread, out);
            }
        }
    }
}
