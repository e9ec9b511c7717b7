//! Messages behind a client's key exchange.

ghost use Rattle.std.specs.Prelude.{◌≡◌, ◌<◌, List, length, Some};
ghost use Rattle.vpn_links.specs.Actions.{Action, Contents};
ghost use Rattle.client_table.specs.Changes.{place_of};
ghost use Rattle.client_table.specs.Tables.{entries_of};
ghost use Rattle.peer_table.specs.Exchange.{after_message, next_message};
ghost use Rattle.peer_table.specs.Outboxes.{HasRoom, Uses};
ghost use Rattle.peer_table.specs.Peer.{Peer};
ghost use Rattle.server_table.specs.Courses.{Course, client_changed};
ghost use Rattle.server_table.specs.Lookups.{client_here};
ghost use Rattle.server_table.specs.Table.{Client, Table};
ghost use Rattle.server_state.specs.Core.{CoreStands, CourseStands, IsSound};
ghost use Rattle.server_engine.specs.Messages.{IsPassed, Sees, SeesBytes, passed_on};

use peer_table::ClientSession;
use server_state::{ClientState, ServerCore};
use vpn_base::Conn;
use vpn_links::{Note, Outbox};

/// What waits where the next message of a client is looked for.
#[derive(Clone, Copy, Debug, PartialEq, Eq)]
pub enum Waiting {
    /// No message waits.
    Nothing,
    /// A message that is empty.
    Empty,
    /// The request of the client for its options, on this engine connection.
    Request(Conn),
    /// Any other message.
    Other,
}

fn found_in(conn: Conn, bytes: &[u8]) -> Waiting
    ensures { SeesBytes result conn bytes.now }
{
    if bytes.is_empty() {
        return Waiting::Empty;
    }
    if bytes == b"PUSH_REQUEST".as_slice() {
        return Waiting::Request(conn);
    }
    Waiting::Other
}

fn look<S: ClientSession>(session: &S) -> Waiting
    ensures { (p : Peer) → S.stands session.now p → Sees result (next_message p) }
{
    match session.next_message() {
        None => Waiting::Nothing,
        Some(message) => found_in(message.conn, message.bytes),
    }
}

// The session of a client passes its next message.
fn pass<S: ClientSession>(client: &mut ClientState<S>)
    requires { S.goes_on client.old.session }
    ensures passed { (p : Peer) → S.stands client.old.session p → S.stands client.new.session (after_message p) }
    ensures others { client.new ≡ record client.old { session = client.new.session } }
    ensures goes_on { S.goes_on client.new.session }
    ensures count { S.count client.new.session ≡ S.count client.old.session }
    ensures since { S.since client.new.session ≡ S.since client.old.session }
{
    client.session.pass_message();
}

// The client whose turn it is, at this place, passes its next message.
fn pass_at<S: ClientSession>(core: &mut ServerCore<S>, i: usize)
    requires place { place_of core.old.turn.0 (entries_of core.old.clients) ≡ Some i }
    requires within { i < length (entries_of core.old.clients) }
    requires sound { IsSound S.goes_on S.count S.since core.old }
    ensures passed { (before : List Action) (out : Contents) (c : Course) → CourseStands S.stands before core.old out c →
        CourseStands S.stands before core.new out (client_changed core.old.turn.0 (λ x. record x { session = after_message x.session }) c) }
    ensures sound { IsSound S.goes_on S.count S.since core.new }
    ensures turn_stays { core.new.turn ≡ core.old.turn }
    ensures mark_stays { core.new.mark ≡ core.old.mark }
    ensures only { core.new ≡ record core.old { clients = core.new.clients } }
{
    client_table::lending_sets_the_value::<ClientState<S>>();
    server_state::places_tell_of_clients::<S>();
    server_state::a_changed_core_is_sound::<S>();
    pass(core.clients.value_at(i));
}

/// Takes the next message of the client whose turn it is, at this place. An empty one does nothing, one that is
/// not a request is reported, and a request is to be answered by the caller. It takes no memory.
pub fn take_message<S: ClientSession>(
    core: &mut ServerCore<S>,
    i: usize,
    out: &mut Outbox,
) -> Waiting
    requires room { HasRoom out.old 1 0 }
    requires place { place_of core.old.turn.0 (entries_of core.old.clients) ≡ Some i }
    requires within { i < length (entries_of core.old.clients) }
    requires sound { IsSound S.goes_on S.count S.since core.old }
    ensures taken { (before : List Action) (c : Course) → CourseStands S.stands before core.old out.old c →
        IsPassed S.stands before core.new out.new core.old.turn.0 c result }
    ensures seen { (t : Table) (x : Client) → CoreStands S.stands core.old t → client_here t core.old.turn.0 ≡ Some x → Sees result (next_message x.session) }
    ensures came { (before : List Action) (c : Course) → CourseStands S.stands before core.old out.old c →
        CourseStands S.stands before core.new out.new (passed_on core.old.turn.0 c result) }
    ensures sound { IsSound S.goes_on S.count S.since core.new }
    ensures uses { Uses out.old out.new 1 0 }
    ensures turn_stays { core.new.turn ≡ core.old.turn }
    ensures mark_stays { core.new.mark ≡ core.old.mark }
    ensures only { core.new ≡ record core.old { clients = core.new.clients } }
{
    server_state::places_tell_of_clients::<S>();
    let cid = core.turn;
    match look(&core.clients.look_at(i).session) {
        Waiting::Nothing => Waiting::Nothing,
        Waiting::Empty => {
            pass_at(core, i);
            Waiting::Empty
        }
        Waiting::Request(conn) => {
            pass_at(core, i);
            Waiting::Request(conn)
        }
        Waiting::Other => {
            pass_at(core, i);
            core.report(Note::Ignored { cid }, out);
            Waiting::Other
        }
    }
}
