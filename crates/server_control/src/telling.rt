//! What comes of a control packet, once a session has answered.

ghost use Rattle.std.specs.Prelude.{◌≡◌, List};
ghost use Rattle.vpn_links.specs.Actions.{Action};
ghost use Rattle.peer_table.specs.Outboxes.{HasRoom};
ghost use Rattle.server_table.specs.Courses.{Course};
ghost use Rattle.server_state.specs.Core.{CourseStands, IsSound};
ghost use Rattle.server_control.specs.internal.Taking.{IsSoundAfter, told};

use peer_table::{ClientSession, Refused, Turn};
use server_state::ServerCore;
use vpn_links::{Note, Outbox};

// Reports why the packet of the client whose turn it is was refused, or ends the client where its turn is over.
pub(crate) fn tell<S: ClientSession + Drop>(
    core: &mut ServerCore<S>,
    answer: Result<Turn, Refused>,
    out: &mut Outbox,
)
    requires room { HasRoom out.old 5 39 }
    requires sound { IsSoundAfter S.goes_on S.count S.since core.old answer }
    ensures told { (before : List Action) (c : Course) → CourseStands S.stands before core.old out.old c →
        CourseStands S.stands before core.new out.new (told core.old.turn.0 c answer) }
    ensures sound { IsSound S.goes_on S.count S.since core.new }
{
    let cid = core.turn;
    match answer {
        Ok(Turn::Going) => {}
        Ok(Turn::Ignored) => {}
        Ok(Turn::Named) => {}
        Ok(Turn::Exchange) => {}
        Ok(Turn::Over(cause)) => core.end(cid, cause, out),
        Err(Refused::BadKey { kid }) => core.report(Note::BadKey { cid, kid }, out),
        Err(Refused::Replayed { time, id }) => core.report(Note::Replayed { time, id }, out),
    }
}
