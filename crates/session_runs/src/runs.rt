//! Whole runs of a client's session.

ghost use Rattle.std.specs.Prelude.{◌≡◌, ◌≤◌, ◌<◌, ◌+◌, ◌-◌, ◌^◌, ◌++◌, List, length, drop, nat_lt, false, IfOk, OnOk};
ghost use Rattle.vpn_links.specs.Actions.{Action, Contents, Datagram, Holds};
ghost use Rattle.opcode_codec.specs.ControlText.{control_of};
ghost use Rattle.opcode_codec.specs.Packet.{packet_of};
ghost use Rattle.tls_crypt.specs.Unwrapping.{unwrapping};
ghost use Rattle.peer_table.specs.DataPackets.{data_came};
ghost use Rattle.peer_table.specs.EngineAnswers.{engine_came};
ghost use Rattle.peer_table.specs.Exchange.{after_message, next_message};
ghost use Rattle.peer_table.specs.Peer.{Peer};
ghost use Rattle.peer_table.specs.Time.{ticked, ticking};
ghost use Rattle.session_runs.specs.Runs.{Course, after_event, after_events, called, control_read, control_seen, control_unwrapped, ends, event_comes, message_told, opening_told, quiet, session_run, taking_told, unseal_if, seal_if, exchange_if};
ghost use Rattle.session_runs.specs.declared.runs.SessionAnswer.TheVariants as answers;
ghost use Rattle.session_runs.specs.internal.Courses.{GoesOnUntil, HasCome, IsAt, opened_packet};

use opcode_codec::{Opcode, Packet, read_control, read_packet};
use peer_session::PeerSession;
use peer_table::{ClientSession, Refused, SessionFault, Turn};
use std::alloc::Global;
use tls_crypt::{Opened, StaticKey, Wrap, Wrapper};
use vpn_base::{Addr, Bytes, Conn, Draw, Moment, NoMemory, Policy, Role, Sid, Timers};
use vpn_links::{Kind, Outbox};

// The bytes in front of the plain text of an unwrapped datagram.
const OVERHEAD: usize = 49;

// The bytes in front of the inner packet of an opened data packet.
const DATA_HEAD: usize = 24;

// The most bytes of an inner packet, and of the data packet that it is sealed to.
const MOST_INNER: usize = 1500;

const MOST_SEALED: usize = 1524;

// The most bytes of a data packet that comes.
const MOST_DATA: usize = 65536;

// The greatest peer id.
const MOST_PEER_ID: u32 = 0xFF_FFFF;

/// What comes to a client's session, in a run.
#[derive(Drop)]
pub enum SessionEvent {
    /// A wrapped control packet. One that the client has not wrapped, or that is malformed, does nothing.
    Control {
        /// Where the datagrams that answer it go.
        to: Addr,
        /// Its bytes.
        datagram: Bytes,
        /// The number of the next engine connection.
        next_conn: Conn,
        /// Whether the client is established.
        established: bool,
    },
    /// The engine has answered on a connection.
    Engine {
        /// What it answered.
        kind: Kind,
    },
    /// The key exchange of the newest key session. It does nothing with a peer id of 2^24 or more.
    Exchange {
        /// How the cipher is found.
        policy: Policy,
        /// The peer id of what is sealed under its keys.
        peer_id: u32,
        /// The random bytes of which the server's key source is taken.
        draw: Draw,
    },
    /// The next message behind a key exchange is passed.
    Message,
    /// Time has passed.
    Tick {
        /// The number of the next engine connection.
        next_conn: Conn,
        /// Whether the client is established.
        established: bool,
        /// Whether nothing fresh came of the client for too long.
        idle: bool,
    },
    /// An inner packet is to be sealed. One of more than 1,500 bytes does nothing.
    Seal {
        /// Its bytes.
        inner: Bytes,
    },
    /// A data packet has come. One of more than 65,536 bytes does nothing.
    Unseal {
        /// Its bytes.
        datagram: Bytes,
    },
}

/// What an event of a run comes to.
#[derive(Debug, Drop)]
pub enum SessionAnswer {
    /// Nothing was done.
    Nothing,
    /// What the owner of the session is to do.
    Turn(Turn),
    /// The control packet was refused.
    Refused(Refused),
    /// The message that was passed, without its NUL.
    Message(Bytes),
    /// No message waited.
    NoMessage,
    /// The inner packet was sealed.
    Sealed,
    /// There are no keys, or their last packet id was used.
    Spent,
    /// The inner packet of the data packet.
    Inner(Bytes),
    /// The data packet was refused.
    Fault(SessionFault),
}

/// The settings of a run.
#[derive(Clone, Copy, Debug, PartialEq, Eq)]
pub struct SessionSetup {
    /// The session id of this end.
    pub own: Sid,
    /// The timers of the client.
    pub timers: Timers,
    /// The engine connection of key session 0.
    pub conn: Conn,
    /// When key session 0 begins.
    pub began: Moment,
    /// Where the datagrams go.
    pub to: Addr,
}

// How far a run has come.
#[derive(Drop)]
pub(crate) struct Progress<S: Drop> {
    pub(crate) session: S,
    // the latest moment so far
    pub(crate) latest: Moment,
    // a turn was over
    pub(crate) is_over: bool,
    pub(crate) answers: Vec<SessionAnswer>,
}

fn tell_taking(answer: Result<Turn, Refused>) -> SessionAnswer
    ensures { result ≡ taking_told answer }
{
    match answer {
        Ok(turn) => SessionAnswer::Turn(turn),
        Err(refused) => SessionAnswer::Refused(refused),
    }
}

// The plain text of an unwrapped control packet is read, and the session takes it.
fn read_text<S: ClientSession>(
    session: &mut S,
    op: Opcode,
    opened: &Opened<'_>,
    to: Addr,
    next_conn: Conn,
    established: bool,
    now: Moment,
    out: &mut Outbox,
) -> Result<SessionAnswer, NoMemory>
    requires few { S.count session.old < 2 ^ 64 - 1 }
    requires goes_on { S.goes_on session.old }
    requires later { S.since session.old ≤ now.0 }
    ensures comes { IfOk result (λ answer. (p : Peer) → S.stands session.old p →
        HasCome S.stands session.new out.old out.new answer
        (control_read to next_conn established now p (opened_packet opened.now) (control_of op opened.now.plain.now))) }
    ensures goes_on { IfOk result (GoesOnUntil (S.goes_on session.new)) }
    ensures count { S.count session.new ≤ S.count session.old + 1 }
    ensures since { S.since session.new ≤ now.0 }
{
    match read_control(opened.plain, op) {
        Err(_) => Ok(SessionAnswer::Nothing),
        Ok(view) => {
            match session.on_control(opened, &view, to, next_conn, established, now, out) {
                Err(NoMemory) => Err(NoMemory),
                Ok(answer) => Ok(tell_taking(answer)),
            }
        }
    }
}

// What stands behind so many bytes.
#[tactic(auto, using(crate::proofs::Courses::none_behind, crate::proofs::Courses::all_behind))]
fn behind(bytes: &[u8], head: usize) -> &[u8]
    ensures { result.now ≡ drop head bytes.now }
{
    if bytes.len() < head {
        return &[];
    }
    &bytes[head..]
}

// A control packet of this opcode is unwrapped where it lies.
fn unwrap_datagram<S: ClientSession, W: Wrap>(
    session: &mut S,
    wrap: &W,
    op: Opcode,
    datagram: &mut [u8],
    to: Addr,
    next_conn: Conn,
    established: bool,
    now: Moment,
    out: &mut Outbox,
) -> Result<SessionAnswer, NoMemory>
    requires few { S.count session.old < 2 ^ 64 - 1 }
    requires goes_on { S.goes_on session.old }
    requires later { S.since session.old ≤ now.0 }
    ensures comes { IfOk result (λ answer. (p : Peer) → S.stands session.old p →
        HasCome S.stands session.new out.old out.new answer
        (control_unwrapped to next_conn established now p op (unwrapping (W.unwrapped wrap.now) datagram.old))) }
    ensures goes_on { IfOk result (GoesOnUntil (S.goes_on session.new)) }
    ensures count { S.count session.new ≤ S.count session.old + 1 }
    ensures since { S.since session.new ≤ now.0 }
{
    match wrap.unwrap_in_place(datagram) {
        Err(_) => Ok(SessionAnswer::Nothing),
        Ok(header) => {
            let opened = Opened {
                first: header.first,
                sid: header.sid,
                id: header.id,
                time: header.time,
                plain: behind(datagram, OVERHEAD),
            };
            read_text(session, op, &opened, to, next_conn, established, now, out)
        }
    }
}

// A datagram comes, which is that of a control packet or does nothing.
fn control_comes<S: ClientSession, W: Wrap>(
    alloc: Global,
    session: &mut S,
    wrap: &W,
    datagram: &[u8],
    to: Addr,
    next_conn: Conn,
    established: bool,
    now: Moment,
    out: &mut Outbox,
) -> Result<SessionAnswer, NoMemory>
    requires few { S.count session.old < 2 ^ 64 - 1 }
    requires goes_on { S.goes_on session.old }
    requires later { S.since session.old ≤ now.0 }
    ensures comes { IfOk result (λ answer. (p : Peer) → S.stands session.old p →
        HasCome S.stands session.new out.old out.new answer
        (control_seen (W.unwrapped wrap.now) to next_conn established now p datagram.now (packet_of datagram.now))) }
    ensures goes_on { IfOk result (GoesOnUntil (S.goes_on session.new)) }
    ensures count { S.count session.new ≤ S.count session.old + 1 }
    ensures since { S.since session.new ≤ now.0 }
{
    match read_packet(datagram) {
        Err(_) => Ok(SessionAnswer::Nothing),
        Ok(Packet::Inner(_)) => Ok(SessionAnswer::Nothing),
        Ok(Packet::Wrapped { op, .. }) => {
            let mut copy = Vec::from_slice(alloc, datagram)?;
            unwrap_datagram(
                session,
                wrap,
                op,
                &mut copy,
                to,
                next_conn,
                established,
                now,
                out,
            )
        }
    }
}

// The engine has answered.
fn engine_comes<S: ClientSession>(
    session: &mut S,
    kind: &Kind,
    to: Addr,
    now: Moment,
    out: &mut Outbox,
) -> Result<SessionAnswer, NoMemory>
    requires goes_on { S.goes_on session.old }
    requires later { S.since session.old ≤ now.0 }
    ensures comes { IfOk result (λ answer. (p : Peer) → S.stands session.old p →
        HasCome S.stands session.new out.old out.new answer (called to answers.Turn (engine_came kind.now now.0 p))) }
    ensures goes_on { IfOk result (GoesOnUntil (S.goes_on session.new)) }
    ensures count { S.count session.new ≤ S.count session.old + 1 }
    ensures since { S.since session.new ≤ now.0 }
{
    match session.on_engine(kind, to, now, out) {
        Ok(turn) => Ok(SessionAnswer::Turn(turn)),
        Err(NoMemory) => Err(NoMemory),
    }
}

// A key exchange is to be made.
fn exchange_comes<S: ClientSession>(
    session: &mut S,
    policy: &Policy,
    peer_id: u32,
    draw: &Draw,
    to: Addr,
    now: Moment,
    out: &mut Outbox,
) -> Result<SessionAnswer, NoMemory>
    requires goes_on { S.goes_on session.old }
    requires later { S.since session.old ≤ now.0 }
    ensures comes { IfOk result (λ answer. (p : Peer) → S.stands session.old p →
        HasCome S.stands session.new out.old out.new answer
        (exchange_if (nat_lt 16777215 peer_id) to policy.now peer_id draw.now p)) }
    ensures goes_on { IfOk result (GoesOnUntil (S.goes_on session.new)) }
    ensures count { S.count session.new ≤ S.count session.old + 1 }
    ensures since { S.since session.new ≤ now.0 }
{
    if peer_id > MOST_PEER_ID {
        return Ok(SessionAnswer::Nothing);
    }
    match session.exchange(policy, peer_id, draw, to, now, out) {
        Ok(turn) => Ok(SessionAnswer::Turn(turn)),
        Err(NoMemory) => Err(NoMemory),
    }
}

// The message that waits.
fn message_of<S: ClientSession>(alloc: Global, session: &S) -> Result<SessionAnswer, NoMemory>
    ensures comes { IfOk result (λ answer. (p : Peer) → S.stands session.now p → answer ≡ message_told (next_message p)) }
    ensures plain { IfOk result (λ answer. ends answer ≡ false) }
{
    match session.next_message() {
        None => Ok(SessionAnswer::NoMessage),
        Some(message) => Ok(SessionAnswer::Message(Bytes::copy(alloc, message.bytes)?)),
    }
}

// The next message is passed.
#[tactic(auto, using(crate::proofs::Courses::goes_on_until, crate::proofs::Courses::nothing_done))]
fn message_comes<S: ClientSession>(
    alloc: Global,
    session: &mut S,
    now: Moment,
) -> Result<SessionAnswer, NoMemory>
    requires goes_on { S.goes_on session.old }
    requires later { S.since session.old ≤ now.0 }
    ensures comes { IfOk result (λ answer. (p : Peer) (out : Contents) → S.stands session.old p →
        HasCome S.stands session.new out out answer (quiet (after_message p) (message_told (next_message p)))) }
    ensures goes_on { IfOk result (GoesOnUntil (S.goes_on session.new)) }
    ensures count { S.count session.new ≤ S.count session.old + 1 }
    ensures since { S.since session.new ≤ now.0 }
{
    let answer = match message_of(alloc, session) {
        Ok(answer) => answer,
        Err(NoMemory) => return Err(NoMemory),
    };
    session.pass_message();
    Ok(answer)
}

// Time has passed.
fn tick_comes<S: ClientSession>(
    session: &mut S,
    next_conn: Conn,
    established: bool,
    idle: bool,
    to: Addr,
    now: Moment,
    out: &mut Outbox,
) -> Result<SessionAnswer, NoMemory>
    requires few { S.count session.old < 2 ^ 64 - 1 }
    requires goes_on { S.goes_on session.old }
    requires later { S.since session.old ≤ now.0 }
    ensures comes { IfOk result (λ answer. (p : Peer) → S.stands session.old p →
        HasCome S.stands session.new out.old out.new answer
        (called to answers.Turn (ticked (ticking now.0 next_conn established idle) p))) }
    ensures goes_on { IfOk result (GoesOnUntil (S.goes_on session.new)) }
    ensures count { S.count session.new ≤ S.count session.old + 1 }
    ensures since { S.since session.new ≤ now.0 }
{
    match session.on_tick(next_conn, established, idle, to, now, out) {
        Ok(turn) => Ok(SessionAnswer::Turn(turn)),
        Err(NoMemory) => Err(NoMemory),
    }
}

// An inner packet is to be sealed.
fn seal_comes<S: ClientSession>(
    session: &mut S,
    inner: &[u8],
    to: Addr,
    now: Moment,
    out: &mut Outbox,
) -> Result<SessionAnswer, NoMemory>
    requires goes_on { S.goes_on session.old }
    requires later { S.since session.old ≤ now.0 }
    ensures comes { IfOk result (λ answer. (p : Peer) → S.stands session.old p →
        HasCome S.stands session.new out.old out.new answer (seal_if (nat_lt 1500 (length inner.now)) to inner.now p)) }
    ensures goes_on { IfOk result (GoesOnUntil (S.goes_on session.new)) }
    ensures count { S.count session.new ≤ S.count session.old + 1 }
    ensures since { S.since session.new ≤ now.0 }
{
    if inner.len() > MOST_INNER {
        return Ok(SessionAnswer::Nothing);
    }
    match out.reserve(1, MOST_SEALED) {
        Ok(()) => {}
        Err(NoMemory) => return Err(NoMemory),
    }
    match session.seal_to(inner, to, out) {
        Ok(()) => Ok(SessionAnswer::Sealed),
        Err(_) => Ok(SessionAnswer::Spent),
    }
}

// A data packet is opened where it lies.
fn open_datagram<S: ClientSession>(
    alloc: Global,
    session: &mut S,
    datagram: &mut [u8],
    now: Moment,
) -> Result<SessionAnswer, NoMemory>
    requires short { length datagram.old ≤ 65536 }
    requires goes_on { S.goes_on session.old }
    requires later { S.since session.old ≤ now.0 }
    ensures comes { IfOk result (λ answer. (p : Peer) → S.stands session.old p →
        S.stands session.new (data_came datagram.old now p).peer × (answer ≡ opening_told (data_came datagram.old now p).answer)) }
    ensures goes_on { IfOk result (GoesOnUntil (S.goes_on session.new)) }
    ensures count { S.count session.new ≤ S.count session.old + 1 }
    ensures since { S.since session.new ≤ now.0 }
{
    match session.unseal(datagram, now) {
        Ok(_) => Ok(SessionAnswer::Inner(Bytes::copy(alloc, behind(datagram, DATA_HEAD))?)),
        Err(fault) => Ok(SessionAnswer::Fault(fault)),
    }
}

// A data packet comes.
fn unseal_comes<S: ClientSession>(
    alloc: Global,
    session: &mut S,
    datagram: &[u8],
    now: Moment,
) -> Result<SessionAnswer, NoMemory>
    requires goes_on { S.goes_on session.old }
    requires later { S.since session.old ≤ now.0 }
    ensures comes { IfOk result (λ answer. (p : Peer) (out : Contents) → S.stands session.old p →
        HasCome S.stands session.new out out answer (unseal_if (nat_lt 65536 (length datagram.now)) datagram.now now p)) }
    ensures goes_on { IfOk result (GoesOnUntil (S.goes_on session.new)) }
    ensures count { S.count session.new ≤ S.count session.old + 1 }
    ensures since { S.since session.new ≤ now.0 }
{
    if datagram.len() > MOST_DATA {
        return Ok(SessionAnswer::Nothing);
    }
    let mut copy = Vec::from_slice(alloc, datagram)?;
    open_datagram(alloc, session, &mut copy, now)
}

// An event comes.
fn event_comes<S: ClientSession, W: Wrap>(
    alloc: Global,
    session: &mut S,
    wrap: &W,
    event: &SessionEvent,
    to: Addr,
    now: Moment,
    out: &mut Outbox,
) -> Result<SessionAnswer, NoMemory>
    requires few { S.count session.old < 2 ^ 64 - 1 }
    requires goes_on { S.goes_on session.old }
    requires later { S.since session.old ≤ now.0 }
    ensures comes { IfOk result (λ answer. (p : Peer) → S.stands session.old p →
        HasCome S.stands session.new out.old out.new answer (event_comes (W.unwrapped wrap.now) to p now event.now)) }
    ensures goes_on { IfOk result (GoesOnUntil (S.goes_on session.new)) }
    ensures count { S.count session.new ≤ S.count session.old + 1 }
    ensures since { S.since session.new ≤ now.0 }
{
    match event {
        SessionEvent::Control {
            to: from,
            datagram,
            next_conn,
            established,
        } => {
            let bytes = datagram.as_slice();
            let (from, next_conn, established) = (*from, *next_conn, *established);
            control_comes(
                alloc,
                session,
                wrap,
                bytes,
                from,
                next_conn,
                established,
                now,
                out,
            )
        }
        SessionEvent::Engine { kind } => engine_comes(session, kind, to, now, out),
        SessionEvent::Exchange {
            policy,
            peer_id,
            draw,
        } => exchange_comes(session, policy, *peer_id, draw, to, now, out),
        SessionEvent::Message => message_comes(alloc, session, now),
        SessionEvent::Tick {
            next_conn,
            established,
            idle,
        } => tick_comes(session, *next_conn, *established, *idle, to, now, out),
        SessionEvent::Seal { inner } => seal_comes(session, inner.as_slice(), to, now, out),
        SessionEvent::Unseal { datagram } => {
            unseal_comes(alloc, session, datagram.as_slice(), now)
        }
    }
}

// Whether a run ends with this answer.
fn is_end(answer: &SessionAnswer) -> bool
    ensures { result ≡ ends answer.now }
{
    match answer {
        SessionAnswer::Turn(Turn::Over(_)) => true,
        _ => false,
    }
}

// One event comes, unless a turn was over.
fn step<S: ClientSession + Drop, W: Wrap>(
    alloc: Global,
    run: &mut Progress<S>,
    wrap: &W,
    at: Moment,
    event: &SessionEvent,
    to: Addr,
    out: &mut Outbox,
) -> Result<(), NoMemory>
    requires few { S.count run.old.session < 2 ^ 64 - 1 }
    requires going { run.old.is_over ≡ false → S.goes_on run.old.session }
    requires past { S.since run.old.session ≤ run.old.latest.0 }
    ensures at { OnOk result ((effects : List Action) (staged : List Datagram) (c : Course) → IsAt S.stands run.old out.old effects staged c →
        IsAt S.stands run.new out.new effects staged (after_event (W.unwrapped wrap.now) to c (at, event.now))) }
    ensures going { OnOk result (run.new.is_over ≡ false → S.goes_on run.new.session) }
    ensures count { OnOk result (S.count run.new.session ≤ S.count run.old.session + 1) }
    ensures past { OnOk result (S.since run.new.session ≤ run.new.latest.0) }
{
    if run.is_over {
        return Ok(());
    }
    let now = Moment(run.latest.0.max(at.0));
    let answer = match event_comes(alloc, &mut run.session, wrap, event, to, now, out) {
        Ok(answer) => answer,
        Err(NoMemory) => return Err(NoMemory),
    };
    run.latest = now;
    run.is_over = is_end(&answer);
    run.answers.push(answer)?;
    Ok(())
}

// The events come one after the other.
fn run_all<S: ClientSession + Drop, W: Wrap>(
    alloc: Global,
    run: &mut Progress<S>,
    wrap: &W,
    events: &[(Moment, SessionEvent)],
    to: Addr,
    out: &mut Outbox,
) -> Result<(), NoMemory>
    requires few { S.count run.old.session ≤ 1 }
    requires going { run.old.is_over ≡ false → S.goes_on run.old.session }
    requires past { S.since run.old.session ≤ run.old.latest.0 }
    ensures { OnOk result ((effects : List Action) (staged : List Datagram) (c : Course) → IsAt S.stands run.old out.old effects staged c →
        IsAt S.stands run.new out.new effects staged (after_events (W.unwrapped wrap.now) to c events.now)) }
{
    for (at, event) in events {
        match step(alloc, run, wrap, *at, event, to, out) {
            Ok(()) => {}
            Err(NoMemory) => return Err(NoMemory),
        }
    }
    Ok(())
}

// A run of any session that a core may know.
fn run_any<S: ClientSession + Drop>(
    alloc: Global,
    setup: &SessionSetup,
    key: &StaticKey,
    events: &[(Moment, SessionEvent)],
    out: &mut Outbox,
) -> Result<Vec<SessionAnswer>, NoMemory>
    requires window { 1 ≤ setup.now.timers.win }
    requires some_timeout { 1 ≤ setup.now.timers.timeout }
    requires short_timeout { setup.now.timers.timeout ≤ 60 }
    ensures answers { IfOk result (λ answers. answers.items ≡ (session_run setup.now key.now.0 events.now).answers) }
    ensures outbox { OnOk result (Holds out.new
        (out.old.effects ++ (session_run setup.now key.now.0 events.now).effects)
        (out.old.staged ++ (session_run setup.now key.now.0 events.now).staged)) }
{
    let session = match S::begin(
        alloc,
        Role::Server,
        key,
        setup.own,
        setup.timers,
        setup.conn,
        setup.began,
        setup.to,
        out,
    ) {
        Ok(session) => session,
        Err(NoMemory) => return Err(NoMemory),
    };
    let wrap = Wrapper::new(key, Role::Server);
    let mut run = Progress {
        session,
        latest: setup.began,
        is_over: false,
        answers: Vec::new(alloc),
    };
    match run_all(alloc, &mut run, &wrap, events, setup.to, out) {
        Ok(()) => {}
        Err(NoMemory) => return Err(NoMemory),
    }
    let Progress { answers, .. } = run;
    Ok(answers)
}

/// A run of the session of a server's client, which begins with the settings: the events come one after the
/// other, each with its moment, and a moment before an earlier one counts as the earlier one. Answers, effects
/// and staged datagrams are those of the run by the definitions alone, in order. It ends with the first turn that
/// is over; events behind it are not taken and not answered. Want of memory anywhere is that of the whole.
pub fn run_session(
    alloc: Global,
    setup: &SessionSetup,
    key: &StaticKey,
    events: &[(Moment, SessionEvent)],
    out: &mut Outbox,
) -> Result<Vec<SessionAnswer>, NoMemory>
    requires window { 1 ≤ setup.now.timers.win }
    requires some_timeout { 1 ≤ setup.now.timers.timeout }
    requires short_timeout { setup.now.timers.timeout ≤ 60 }
    ensures answers { IfOk result (λ answers. answers.items ≡ (session_run setup.now key.now.0 events.now).answers) }
    ensures outbox { OnOk result (Holds out.new
        (out.old.effects ++ (session_run setup.now key.now.0 events.now).effects)
        (out.old.staged ++ (session_run setup.now key.now.0 events.now).staged)) }
{
    run_any::<PeerSession<Wrapper>>(alloc, setup, key, events, out)
}
