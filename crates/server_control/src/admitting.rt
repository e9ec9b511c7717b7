//! How clients are admitted.

ghost use Rattle.std.specs.Prelude.{◌≡◌, ◌<◌, ◌≤◌, ◌+◌, ◌-◌, ◌^◌, ◌==◌, ◌%◌, ◌∷◌, [], List, Bool, None, ℕ, length, true, false, IfOk, OnOk, OnErr, MatchResult};
ghost use Rattle.vpn_links.specs.Actions.{Action, Holds};
ghost use Rattle.client_table.specs.Tables.{admitted_by, entries_of, most_of};
ghost use Rattle.peer_table.specs.ControlPackets.{control_came};
ghost use Rattle.peer_table.specs.Outboxes.{GoesOnAfter, HasRoom, incoming};
ghost use Rattle.peer_table.specs.Peer.{began};
ghost use Rattle.vpn_base.specs.declared.names.Role.TheVariants.{Server};
ghost use Rattle.tls_crypt.specs.Wrapped.{half, keys_of, wrapped, written_half};
ghost use Rattle.server_table.specs.ControlDatagrams as server;
ghost use Rattle.server_table.specs.Courses.{Course};
ghost use Rattle.server_state.specs.Core.{CourseStands, IsSound, IsSoundAhead, StaysTold};
ghost use Rattle.server_control.specs.Packets.{HasBytes, packet_of};
ghost use Rattle.server_control.specs.internal.Admitting.{HasBegun, state_begun};
ghost use Rattle.server_control.specs.internal.Taking.{HasTaken, IsSoundAfter};

use crate::taking::{last_after, take};
use crate::telling::tell;
use opcode_codec::ControlView;
use peer_table::{ClientSession, Refused, Turn};
use server_state::{ClientFile, ClientState, ServerCore};
use std::alloc::Global;
use tls_crypt::{Opened, StaticKey};
use vpn_base::{Addr, Conn, Draw, Moment, NoMemory, Place, Role, Sid, Timers};
use vpn_links::{Kind, Outbox};

// The server's session id for a client: the first bytes of the draw.
fn own_sid(draw: &Draw) -> Sid
    ensures { result ≡ server.own_sid draw.now }
{
    let mut own = [0; 8];
    own.copy_from_slice(&draw.0[..8]);
    Sid(own)
}

// A client whose session has begun now.
fn begun<S: ClientSession>(session: S, now: Moment) -> ClientState<S>
    ensures { result ≡ state_begun now session }
{
    ClientState {
        session,
        file: ClientFile::Unasked,
        established: None,
        heard: now,
        sealed_at: now,
        bytes_in: 0,
        bytes_out: 0,
    }
}

// A client begins and takes its first packet: the client, the key session to which the packet goes, and the
// answer. After want of memory the outbox is as before.
fn begin<S: ClientSession + Drop>(
    alloc: Global,
    key: &StaticKey,
    timers: Timers,
    own: Sid,
    conn: Conn,
    next_conn: Conn,
    now: Moment,
    from: Addr,
    kind: &Kind,
    opened: &Opened<'_>,
    view: &ControlView<'_>,
    out: &mut Outbox,
) -> Result<(ClientState<S>, Option<Place>, Result<Turn, Refused>), NoMemory>
    requires window { 1 ≤ timers.win }
    requires some_timeout { 1 ≤ timers.timeout }
    requires short_timeout { timers.timeout ≤ 60 }
    requires acks { view.now.acks.count ≤ 8 }
    requires wire { HasBytes kind.now (length view.now.payload.now) }
    ensures begun { IfOk result (λ b. HasBegun S.stands b.0 b.1 b.2 out.old out.new from now
        (began Server (wrapped (keys_of (half key.now.0 (written_half Server)))) own timers conn now.0) (incoming opened.now view.now next_conn false now)) }
    ensures kept { OnErr result (Holds out.new out.old.effects out.old.staged) }
    ensures goes_on { IfOk result (λ b. GoesOnAfter (S.goes_on b.0.session) b.2) }
    ensures count { IfOk result (λ b. S.count b.0.session ≤ 2) }
    ensures since { IfOk result (λ b. S.since b.0.session ≤ now.0) }
    ensures room { OnOk result (HasRoom out.new 5 39) }
{
    let effects = out.count();
    let staged = out.staged();
    let session = match S::begin(alloc, Role::Server, key, own, timers, conn, now, from, out) {
        Ok(session) => session,
        Err(NoMemory) => return Err(NoMemory),
    };
    let number = session.control_session(opened.first % 8, now);
    let mut client = begun(session, now);
    match take(&mut client, from, kind, opened, view, next_conn, now, out) {
        Ok(answer) => {
            let reached = client.session.place_numbered(number);
            Ok((client, reached, answer))
        }
        Err(NoMemory) => {
            out.cut(effects, staged);
            Err(NoMemory)
        }
    }
}

// A client is admitted and takes the packet, and it is its turn; what comes of it is not told yet.
fn admit_first<S: ClientSession + Drop>(
    core: &mut ServerCore<S>,
    alloc: Global,
    from: Addr,
    draw: &Draw,
    kind: &Kind,
    opened: &Opened<'_>,
    view: &ControlView<'_>,
    out: &mut Outbox,
) -> Result<Result<Turn, Refused>, NoMemory>
    requires acks { view.now.acks.count ≤ 8 }
    requires wire { HasBytes kind.now (length view.now.payload.now) }
    requires counted { 1 ≤ core.old.events }
    requires few { core.old.events ≤ 2 ^ 48 }
    requires sound { IsSoundAhead S.goes_on S.count S.since core.old }
    requires wrapped { (opened.now.id == 0) ≡ false }
    requires first { (opened.now.first % 8 == 0) ≡ true }
    requires fits { length (entries_of core.old.clients) < most_of core.old.clients }
    requires alone { out.old.staged ≡ [] }
    requires mark { core.old.mark ≡ 0 }
    ensures admitted { IfOk result (λ answer. (before : List Action) (c : Course) → CourseStands S.stands before core.old out.old c →
        HasTaken S.stands before core.new out.new (length c.table.clients) (packet_of opened.now view.now)
        (server.opened_for from c (server.session_begun c.table draw.now)) (server.client_begun c.table from (server.session_begun c.table draw.now).peer) answer) }
    ensures kept { OnErr result ((before : List Action) (c : Course) → CourseStands S.stands before core.old out.old c →
        CourseStands S.stands before core.new out.new c) }
    ensures sound { MatchResult result (λ answer. IsSoundAfter S.goes_on S.count S.since core.new answer) (λ _. IsSoundAhead S.goes_on S.count S.since core.new) }
    ensures still { OnErr result (StaysTold S.since core.old core.new) }
    ensures outbox { OnErr result (Holds out.new out.old.effects out.old.staged) }
    ensures turn { OnOk result (core.new.turn.0 ≡ admitted_by core.old.clients) }
    ensures room { OnOk result (HasRoom out.new 5 39) }
{
    client_table::peer_ids_are_the_least_free::<ClientState<S>>();
    let now = core.moment;
    let conn = Conn(core.connections);
    let next_conn = Conn(core.connections + 1);
    let timers = core.settings.timers;
    let own = own_sid(draw);
    let Ok(()) = core.clients.reserve() else {
        return Err(NoMemory);
    };
    let (client, reached, answer) = match begin(
        alloc, &core.key, timers, own, conn, next_conn, now, from, kind, opened, view, out,
    ) {
        Ok(begun) => begun,
        Err(NoMemory) => return Err(NoMemory),
    };
    let Ok(cid) = core.clients.admit(from, opened.sid, client) else {
        unreachable!();
    };
    core.turn = cid;
    core.connections += 1;
    core.last_taken = last_after(answer, reached, core.last_taken);
    Ok(answer)
}

/// Admits a client, which takes its first control packet: a client's reset with key id 0, whose wrap id is not
/// 0. Its session begins on the next engine connection. After want of memory nothing has changed.
pub fn admit<S: ClientSession + Drop>(
    core: &mut ServerCore<S>,
    alloc: Global,
    from: Addr,
    draw: &Draw,
    kind: &Kind,
    opened: &Opened<'_>,
    view: &ControlView<'_>,
    out: &mut Outbox,
) -> Result<(), NoMemory>
    requires acks { view.now.acks.count ≤ 8 }
    requires wire { HasBytes kind.now (length view.now.payload.now) }
    requires counted { 1 ≤ core.old.events }
    requires few { core.old.events ≤ 2 ^ 48 }
    requires sound { IsSoundAhead S.goes_on S.count S.since core.old }
    requires wrapped { (opened.now.id == 0) ≡ false }
    requires first { (opened.now.first % 8 == 0) ≡ true }
    requires fits { length (entries_of core.old.clients) < most_of core.old.clients }
    requires alone { out.old.staged ≡ [] }
    requires mark { core.old.mark ≡ 0 }
    ensures admitted { OnOk result ((before : List Action) (c : Course) (bytes : List ℕ) (lacks : Bool) → CourseStands S.stands before core.old out.old c →
        CourseStands S.stands before core.new out.new
        (server.admitted (record { from = from; bytes = bytes; lacks = lacks }) draw.now (packet_of opened.now view.now) c)) }
    ensures kept { OnErr result ((before : List Action) (c : Course) → CourseStands S.stands before core.old out.old c →
        CourseStands S.stands before core.new out.new c) }
    ensures sound { MatchResult result (λ _. IsSound S.goes_on S.count S.since core.new) (λ _. IsSoundAhead S.goes_on S.count S.since core.new) }
    ensures still { OnErr result (StaysTold S.since core.old core.new) }
    ensures outbox { OnErr result (Holds out.new out.old.effects out.old.staged) }
{
    match admit_first(core, alloc, from, draw, kind, opened, view, out) {
        Err(NoMemory) => Err(NoMemory),
        Ok(answer) => {
            tell(core, answer, out);
            Ok(())
        }
    }
}
