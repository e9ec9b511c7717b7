//! How clients take control packets.

ghost use Rattle.std.specs.Prelude.{◌≡◌, ◌<◌, ◌≤◌, ◌+◌, ◌-◌, ◌^◌, ◌∷◌, List, drop, length, min, slice_get, option_map, is_some, Some, IfOk, OnOk, OnErr, MatchResult};
ghost use Rattle.vpn_links.specs.Actions.{Action, Holds};
ghost use Rattle.client_table.specs.Changes.{place_of};
ghost use Rattle.client_table.specs.Tables.{entries_of};
ghost use Rattle.peer_table.specs.ControlPackets.{control_came};
ghost use Rattle.peer_table.specs.Outboxes.{GoesOnAfter, HasRoom, LeavesUnless, incoming};
ghost use Rattle.peer_table.specs.Peer.{Peer};
ghost use Rattle.server_table.specs.ControlDatagrams as server;
ghost use Rattle.server_table.specs.Courses.{Course};
ghost use Rattle.server_table.specs.Lookups.{client_here};
ghost use Rattle.server_table.specs.Table.{Client};
ghost use Rattle.server_state.specs.Calls.{opens_in};
ghost use Rattle.server_state.specs.Core.{CourseStands, IsSound, IsSoundAhead, StaysTold};
ghost use Rattle.server_control.specs.Packets.{HasBytes, packet_of};
ghost use Rattle.server_control.specs.internal.Taking.{HasTaken, IsSoundAfter, heard_after, last_after};

use crate::telling::tell;
use opcode_codec::ControlView;
use peer_table::{ClientSession, Refused, Turn};
use server_state::{ClientState, ServerCore, a_core_ahead_is_sound, count_opened};
use tls_crypt::Opened;
use vpn_base::{Addr, Conn, Moment, NoMemory, Place};
use vpn_links::{Kind, Outbox};

// Makes a session and the outbox ready for an event, with room for what may be told then.
fn make_ready<S: ClientSession>(
    session: &mut S,
    kind: &Kind,
    established: bool,
    out: &mut Outbox,
) -> Result<(usize, usize), NoMemory>
    requires few { S.count session.old < 2 ^ 64 - 1 }
    requires goes_on { S.goes_on session.old }
    ensures same { (p : Peer) → S.stands session.old p → S.stands session.new p }
    ensures goes_on { S.goes_on session.new }
    ensures count { S.count session.new ≡ S.count session.old }
    ensures since { S.since session.new ≡ S.since session.old }
    ensures outbox { (out.new.effects ≡ out.old.effects) × (out.new.staged ≡ out.old.staged) }
    ensures ready { IfOk result (λ room. S.is_ready session.new kind.now established room.0 room.1) }
    ensures room { IfOk result (λ room. HasRoom out.new (room.0 + 5) (room.1 + 39)) }
{
    let (effects, bytes) = match session.ready(kind, established) {
        Ok(room) => room,
        Err(NoMemory) => return Err(NoMemory),
    };
    let Some(most_effects) = effects.checked_add(5) else {
        return Err(NoMemory);
    };
    let Some(most_bytes) = bytes.checked_add(39) else {
        return Err(NoMemory);
    };
    match out.reserve(most_effects, most_bytes) {
        Ok(()) => Ok((effects, bytes)),
        Err(NoMemory) => Err(NoMemory),
    }
}

// The client takes a control packet, and is heard where its wrap is fresh.
pub(crate) fn take<S: ClientSession>(
    client: &mut ClientState<S>,
    to: Addr,
    kind: &Kind,
    opened: &Opened<'_>,
    view: &ControlView<'_>,
    next_conn: Conn,
    now: Moment,
    out: &mut Outbox,
) -> Result<Result<Turn, Refused>, NoMemory>
    requires acks { view.now.acks.count ≤ 8 }
    requires wire { HasBytes kind.now (length view.now.payload.now) }
    requires few { S.count client.old.session < 2 ^ 64 - 1 }
    requires goes_on { S.goes_on client.old.session }
    requires later { S.since client.old.session ≤ now.0 }
    ensures left { (p : Peer) → S.stands client.old.session p →
        LeavesUnless result S.stands client.new.session out.old out.new to p
        (control_came p (incoming opened.now view.now next_conn (is_some client.old.established) now)) }
    ensures answer { IfOk result (λ answer. (p : Peer) → S.stands client.old.session p →
        answer ≡ (control_came p (incoming opened.now view.now next_conn (is_some client.old.established) now)).answer) }
    ensures state { client.new ≡ heard_after result now client.old client.new.session }
    ensures goes_on { MatchResult result (GoesOnAfter (S.goes_on client.new.session)) (λ _. S.goes_on client.new.session) }
    ensures count { S.count client.new.session ≤ S.count client.old.session + 1 }
    ensures since { S.since client.new.session ≤ now.0 }
    ensures same_count { OnErr result (S.count client.new.session ≡ S.count client.old.session) }
    ensures outbox { OnErr result (Holds out.new out.old.effects out.old.staged) }
    ensures same_since { OnErr result (S.since client.new.session ≡ S.since client.old.session) }
    ensures room { OnOk result (HasRoom out.new 5 39) }
{
    let established = client.established.is_some();
    let (effects, bytes) = match make_ready(&mut client.session, kind, established, out) {
        Ok(room) => room,
        Err(NoMemory) => return Err(NoMemory),
    };
    match client
        .session
        .on_control(opened, view, to, next_conn, established, now, out)
    {
        Err(_) => unreachable!(),
        Ok(Ok(turn)) => {
            client.heard = now;
            Ok(Ok(turn))
        }
        Ok(Err(Refused::BadKey { kid })) => {
            client.heard = now;
            Ok(Err(Refused::BadKey { kid }))
        }
        Ok(Err(Refused::Replayed { time, id })) => Ok(Err(Refused::Replayed { time, id })),
    }
}

// The key session to which the last datagram went: it reached this one where it was taken.
pub(crate) fn last_after(
    answer: Result<Turn, Refused>,
    reached: Option<Place>,
    last: Option<Place>,
) -> Option<Place>
    ensures { result ≡ last_after answer reached last }
{
    match answer {
        Ok(_) => reached,
        Err(_) => last,
    }
}

fn one_at_most(count: u64) -> u64
    ensures { result ≡ min count 1 }
{
    if count > 1 { 1 } else { count }
}

// How many engine connections were opened behind so many effects, at most one.
fn opened_since(out: &Outbox, done: usize) -> u64
    ensures counted { done ≤ length out.now.effects → result ≡ min (opens_in (drop done out.now.effects)) 1 }
    ensures one { result ≤ 1 }
{
    if done > out.count() {
        return 0;
    }
    one_at_most(count_opened(out, done))
}

// The client whose turn it is, at this place and this address, takes the packet; what comes of it is not told yet.
fn take_at<S: ClientSession>(
    core: &mut ServerCore<S>,
    i: usize,
    to: Addr,
    kind: &Kind,
    opened: &Opened<'_>,
    view: &ControlView<'_>,
    out: &mut Outbox,
) -> Result<Result<Turn, Refused>, NoMemory>
    requires acks { view.now.acks.count ≤ 8 }
    requires wire { HasBytes kind.now (length view.now.payload.now) }
    requires counted { 1 ≤ core.old.events }
    requires few { core.old.events ≤ 2 ^ 48 }
    requires sound { IsSoundAhead S.goes_on S.count S.since core.old }
    requires place { place_of core.old.turn.0 (entries_of core.old.clients) ≡ Some i }
    requires within { i < length (entries_of core.old.clients) }
    requires address { option_map (λ e. e.key.address) (slice_get (entries_of core.old.clients) i) ≡ Some to }
    ensures taken { IfOk result (λ answer. (before : List Action) (c : Course) (x : Client) → CourseStands S.stands before core.old out.old c →
        client_here c.table core.old.turn.0 ≡ Some x →
        HasTaken S.stands before core.new out.new core.old.turn.0 (packet_of opened.now view.now) c x answer) }
    ensures kept { OnErr result ((before : List Action) (c : Course) → CourseStands S.stands before core.old out.old c →
        CourseStands S.stands before core.new out.new c) }
    ensures sound { MatchResult result (λ answer. IsSoundAfter S.goes_on S.count S.since core.new answer) (λ _. IsSoundAhead S.goes_on S.count S.since core.new) }
    ensures still { OnErr result (StaysTold S.since core.old core.new) }
    ensures outbox { OnErr result (Holds out.new out.old.effects out.old.staged) }
    ensures turn { core.new.turn ≡ core.old.turn }
    ensures room { OnOk result (HasRoom out.new 5 39) }
{
    client_table::lending_sets_the_value::<ClientState<S>>();
    server_state::places_tell_of_clients::<S>();
    server_state::calls_are_put_into_courses::<S>();
    let now = core.moment;
    let next_conn = Conn(core.connections);
    let done = out.count();
    let client = core.clients.value_at(i);
    let number = client.session.control_session(opened.first % 8, now);
    match take(client, to, kind, opened, view, next_conn, now, out) {
        Err(NoMemory) => Err(NoMemory),
        Ok(answer) => {
            let reached = client.session.place_numbered(number);
            core.connections += opened_since(out, done);
            core.last_taken = last_after(answer, reached, core.last_taken);
            Ok(answer)
        }
    }
}

/// The client whose turn it is takes a control packet, if it is here: its session answers, what it refuses is
/// reported, and it ends where its turn is over. The kind is that of the event, whose datagram the packet was
/// unwrapped from. After want of memory nothing has changed.
pub fn to_client<S: ClientSession + Drop>(
    core: &mut ServerCore<S>,
    kind: &Kind,
    opened: &Opened<'_>,
    view: &ControlView<'_>,
    out: &mut Outbox,
) -> Result<(), NoMemory>
    requires acks { view.now.acks.count ≤ 8 }
    requires wire { HasBytes kind.now (length view.now.payload.now) }
    requires counted { 1 ≤ core.old.events }
    requires few { core.old.events ≤ 2 ^ 48 }
    requires sound { IsSoundAhead S.goes_on S.count S.since core.old }
    ensures taken { OnOk result ((before : List Action) (c : Course) → CourseStands S.stands before core.old out.old c →
        CourseStands S.stands before core.new out.new (server.to_client (packet_of opened.now view.now) core.old.turn.0 c)) }
    ensures kept { OnErr result ((before : List Action) (c : Course) → CourseStands S.stands before core.old out.old c →
        CourseStands S.stands before core.new out.new c) }
    ensures sound { MatchResult result (λ _. IsSound S.goes_on S.count S.since core.new) (λ _. IsSoundAhead S.goes_on S.count S.since core.new) }
    ensures still { OnErr result (StaysTold S.since core.old core.new) }
    ensures outbox { OnErr result (Holds out.new out.old.effects out.old.staged) }
{
    a_core_ahead_is_sound::<S>();
    server_state::places_tell_of_clients::<S>();
    let Some(i) = core.clients.place(core.turn) else {
        return Ok(());
    };
    let to = core.clients.key_at(i).address;
    match take_at(core, i, to, kind, opened, view, out) {
        Err(NoMemory) => Err(NoMemory),
        Ok(answer) => {
            tell(core, answer, out);
            Ok(())
        }
    }
}
