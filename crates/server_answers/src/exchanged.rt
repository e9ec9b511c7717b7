//! What follows a client's key exchange.

ghost use Rattle.std.specs.Prelude.{◌≡◌, ◌+◌, ◌≤◌, List, Some, None};
ghost use Rattle.vpn_links.specs.Actions.{Action};
ghost use Rattle.peer_table.specs.Exchange.{all_unread};
ghost use Rattle.peer_table.specs.Outboxes.{HasRoom, Uses};
ghost use Rattle.server_table.specs.Courses.{Course};
ghost use Rattle.server_table.specs.Exchange.{exchange_made};
ghost use Rattle.server_table.specs.Lookups.{client_here};
ghost use Rattle.server_table.specs.Table.{Client};
ghost use Rattle.server_state.specs.Core.{CourseStands, IsSound};
ghost use Rattle.server_establishing.specs.Prepared.{IsKept, IsPrepared, prepared_bytes, prepared_effects};
ghost use Rattle.server_answers.specs.Rooms.{messages_bytes, messages_effects};

use crate::messages::take_messages;
use peer_table::ClientSession;
use server_establishing::{Prepared, establish_as_asked};
use server_state::ServerCore;
use vpn_links::Outbox;

/// Finishes the key exchange of the client whose turn it is, which was made, or has ended the client: it is
/// established where its message asked for it, and every message that waits behind it is taken, where no more
/// than so many bytes are unread. The answer is what is prepared for the client from then on. It takes no memory.
pub fn finish_exchange<S: ClientSession + Drop>(
    core: &mut ServerCore<S>,
    prepared: Prepared,
    left: usize,
    out: &mut Outbox,
) -> Prepared
    requires kept { IsKept core.old prepared }
    requires room { HasRoom out.old (prepared_effects prepared + messages_effects prepared left) (prepared_bytes prepared + messages_bytes prepared left) }
    requires first { core.old.mark ≡ 0 }
    requires sound { IsSound S.goes_on S.count S.since core.old }
    ensures made { (before : List Action) (c : Course) (x : Client) → CourseStands S.stands before core.old out.old c → client_here c.table core.old.turn.0 ≡ Some x →
        IsPrepared c core.old.turn.0 x prepared → all_unread x.session.sessions ≤ left →
        CourseStands S.stands before core.new out.new (exchange_made core.old.turn.0 c) }
    ensures gone { (before : List Action) (c : Course) → CourseStands S.stands before core.old out.old c → client_here c.table core.old.turn.0 ≡ None →
        CourseStands S.stands before core.new out.new (exchange_made core.old.turn.0 c) }
    ensures kept { IsKept core.new result }
    ensures sound { IsSound S.goes_on S.count S.since core.new }
    ensures uses { Uses out.old out.new (prepared_effects prepared + messages_effects prepared left) (prepared_bytes prepared + messages_bytes prepared left) }
    ensures turn_stays { core.new.turn ≡ core.old.turn }
    ensures mark_stays { core.new.mark ≡ core.old.mark }
{
    server_state::places_tell_of_clients::<S>();
    let cid = core.turn;
    match core.clients.place(cid) {
        None => prepared,
        Some(_) => {
            let prepared = establish_as_asked(core, cid, prepared, out);
            take_messages(core, prepared, left, out)
        }
    }
}
