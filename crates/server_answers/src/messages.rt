//! Every message behind a client's key exchange.

ghost use Rattle.std.specs.Prelude.{◌≡◌, ◌≤◌, ◌<◌, List, Some, None};
ghost use Rattle.vpn_links.specs.Actions.{Action};
ghost use Rattle.peer_table.specs.Exchange.{all_unread};
ghost use Rattle.peer_table.specs.Outboxes.{HasRoom, Uses};
ghost use Rattle.server_table.specs.Courses.{Course};
ghost use Rattle.server_table.specs.Exchange.{messages_taken};
ghost use Rattle.server_table.specs.Lookups.{client_here};
ghost use Rattle.server_table.specs.Table.{Client};
ghost use Rattle.server_state.specs.Core.{CourseStands, IsSound};
ghost use Rattle.server_establishing.specs.Prepared.{IsKept, IsPrepared};
ghost use Rattle.server_answers.specs.Rooms.{messages_bytes, messages_effects};
ghost use Rattle.server_answers.specs.internal.Taking.{HasTaken, MayTake, Spends};

use peer_table::ClientSession;
use server_engine::{Waiting, take_message};
use server_establishing::{Prepared, answer_request};
use server_state::ServerCore;
use vpn_links::Outbox;

// As many bytes a request has, with its NUL.
const REQUEST: usize = 13;

// Takes the next message that waits at the client whose turn it is, where no more than so many bytes are unread,
// and answers what is prepared for the client from then on, and how many bytes may be unread behind it: 0 where no
// more message waits. It takes no memory.
fn take_next<S: ClientSession + Drop>(
    core: &mut ServerCore<S>,
    prepared: Prepared,
    left: usize,
    out: &mut Outbox,
) -> (Prepared, usize)
    requires some { 0 < left }
    requires kept { IsKept core.old prepared }
    requires room { HasRoom out.old (messages_effects prepared left) (messages_bytes prepared left) }
    requires first { core.old.mark ≡ 0 }
    requires sound { IsSound S.goes_on S.count S.since core.old }
    ensures taken { (before : List Action) (c : Course) → CourseStands S.stands before core.old out.old c → MayTake c core.old.turn.0 prepared left →
        HasTaken S.stands before core.new out.new core.old.turn.0 c result.0 result.1 }
    ensures less { result.1 < left }
    ensures kept { IsKept core.new result.0 }
    ensures sound { IsSound S.goes_on S.count S.since core.new }
    ensures room { HasRoom out.new (messages_effects result.0 result.1) (messages_bytes result.0 result.1) }
    ensures spends { Spends out.old out.new (messages_effects prepared left) (messages_bytes prepared left) (messages_effects result.0 result.1) (messages_bytes result.0 result.1) }
    ensures turn_stays { core.new.turn ≡ core.old.turn }
    ensures mark_stays { core.new.mark ≡ core.old.mark }
{
    server_state::places_tell_of_clients::<S>();
    server_establishing::what_is_made_stays();
    let cid = core.turn;
    let Some(i) = core.clients.place(cid) else {
        return (prepared, 0);
    };
    match take_message(core, i, out) {
        Waiting::Nothing => (prepared, 0),
        Waiting::Empty => (prepared, left - 1),
        Waiting::Request(conn) => {
            // A request that waits has its bytes among those that are unread.
            if left < REQUEST {
                return (prepared, 0);
            }
            let prepared = answer_request(core, cid, conn, prepared, out);
            (prepared, left - REQUEST)
        }
        Waiting::Other => (prepared, left - 1),
    }
}

/// Takes every message that waits at the client whose turn it is, in order, where no more than so many bytes are
/// unread: an empty one does nothing, a request establishes the client or has the same reply written again, and
/// any other is reported. The answer is what is prepared for the client from then on. It takes no memory.
pub fn take_messages<S: ClientSession + Drop>(
    core: &mut ServerCore<S>,
    prepared: Prepared,
    left: usize,
    out: &mut Outbox,
) -> Prepared
    requires kept { IsKept core.old prepared }
    requires room { HasRoom out.old (messages_effects prepared left) (messages_bytes prepared left) }
    requires first { core.old.mark ≡ 0 }
    requires sound { IsSound S.goes_on S.count S.since core.old }
    ensures taken { (before : List Action) (c : Course) (x : Client) → CourseStands S.stands before core.old out.old c → client_here c.table core.old.turn.0 ≡ Some x →
        IsPrepared c core.old.turn.0 x prepared → all_unread x.session.sessions ≤ left →
        CourseStands S.stands before core.new out.new (messages_taken core.old.turn.0 c) }
    ensures gone { (before : List Action) (c : Course) → CourseStands S.stands before core.old out.old c → client_here c.table core.old.turn.0 ≡ None →
        CourseStands S.stands before core.new out.new (messages_taken core.old.turn.0 c) }
    ensures kept { IsKept core.new result }
    ensures sound { IsSound S.goes_on S.count S.since core.new }
    ensures uses { Uses out.old out.new (messages_effects prepared left) (messages_bytes prepared left) }
    ensures turn_stays { core.new.turn ≡ core.old.turn }
    ensures mark_stays { core.new.mark ≡ core.old.mark }
{
    let mut prepared = prepared;
    let mut left = left;
    while 0 < left {
        let (behind, rest) = take_next(core, prepared, left, out);
        prepared = behind;
        left = rest;
    }
    prepared
}
