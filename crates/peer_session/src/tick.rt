//! Time passes for a client's session.

ghost use Rattle.std.specs.Prelude.{◌≡◌, ◌≤◌, ◌<◌, ◌+◌, ◌-◌, ◌*◌, ◌^◌, ℕ, Bool, true, false, not, length, Option, Some, None, is_some, slice_get, IfOk, IsOk, OnErr, OnOk, MatchResult};
ghost use Rattle.std.specs.List.{filter};
ghost use Rattle.vpn_base.specs.declared.names.Timers.{Timers};
ghost use Rattle.vpn_links.specs.Actions.{Contents, Holds};
ghost use Rattle.vpn_links.specs.declared.events.Kind.TheVariants.{Tick};
ghost use Rattle.reliable_send.specs.Sides.{IsNotMemory};
ghost use Rattle.opcode_codec.specs.declared.opcodes.Opcode.TheVariants.{SoftReset};
ghost use Rattle.control_link.specs.Calls.{Told};
ghost use Rattle.key_sessions.specs.Slots.{newest_stage};
ghost use Rattle.key_sessions.specs.declared.slot.Stage.TheVariants as stages;
ghost use Rattle.peer_table.specs.Exchange.{session_closed};
ghost use Rattle.peer_table.specs.KeySessions.{Session, session_begun};
ghost use Rattle.peer_table.specs.Outboxes.{GoesOnUnlessOver, HasRoom, LeavesUnless, Uses};
ghost use Rattle.peer_table.specs.Peer.{Outcome, Peer, first_over, turn_of};
ghost use Rattle.peer_table.specs.Time.{is_late, is_number, renewed, resent, resent_in, retired, ticked, ticking};
ghost use Rattle.peer_lines.specs.Standing.{StandsFor};
ghost use Rattle.session_state.specs.Ready.{IsReady, MayBegin};
ghost use Rattle.session_state.specs.Standing.{BlankIsFor, GoesOn, PeerStands, count, since};
ghost use Rattle.peer_session.specs.internal.Ticking.{AreOpenYet, HasDone, KeepsNext, MayGoOn, gone_with, is_end, resent_unless};

use control_link::LinkEnd;
use key_sessions::{KeySession, kid_of};
use opcode_codec::Opcode;
use peer_lines::{SessionBlank, SessionChannels};
use peer_table::Turn;
use session_state::{OpenNumbers, SessionState, cause_of};
use std::alloc::Global;
use tls_crypt::Wrap;
use vpn_base::{Addr, Cause, Conn, Moment, NoMemory, Or};
use vpn_links::{Effect, Outbox};

// At most so many effects and datagrams come of a tick: 6 datagrams of each of three open sessions and of a new
// one, a connection that is opened and one that is closed.
const EFFECTS: usize = 26;

// At most so many bytes the datagrams have.
const BYTES: usize = 28_800;

// What a call of a control link comes to, which did not end for want of memory.
fn turn_of(answer: Result<(), Or<LinkEnd>>) -> Turn
    requires { IsNotMemory answer }
    ensures { (end : Option LinkEnd) → Told answer end → result ≡ turn_of end }
{
    match answer {
        Ok(()) => Turn::Going,
        Err(Or::Memory) => Turn::Going,
        Err(Or::Why(end)) => Turn::Over(cause_of(end)),
    }
}

// The first cause of an ending stands.
fn first_over(first: Turn, later: Turn) -> Turn
    ensures { result ≡ first_over first later }
{
    match first {
        Turn::Going => later,
        Turn::Ignored => later,
        Turn::Named => later,
        Turn::Exchange => later,
        Turn::Over(cause) => Turn::Over(cause),
    }
}

// Whether a turn ends the client.
fn is_end(turn: Turn) -> bool
    ensures { result ≡ is_end turn }
{
    match turn {
        Turn::Going => false,
        Turn::Ignored => false,
        Turn::Named => false,
        Turn::Exchange => false,
        Turn::Over(_) => true,
    }
}

// Whether a number that may be there is this one.
fn is_number(number: Option<u64>, other: u64) -> bool
    ensures { result ≡ is_number number other }
{
    match number {
        None => false,
        Some(number) => number == other,
    }
}

// What belongs to the next session, of the memory that was taken for it.
fn next_text(
    alloc: Global,
    blank: &mut Option<SessionBlank>,
    conn: Conn,
    number: u64,
) -> SessionChannels
    requires { is_some blank.old ≡ true }
    ensures stands { (timers : Timers) (moment : ℕ) → BlankIsFor blank.old timers →
        StandsFor result (session_begun timers conn number SoftReset moment) }
    ensures taken { blank.new ≡ None }
{
    let Some(blank) = blank.take() else {
        unreachable!();
    };
    SessionChannels::begin(alloc, blank, conn, kid_of(number), Opcode::SoftReset)
}

// Time has passed. The client ends where its negotiation did not finish in time, or where `idle` says that
// nothing fresh came of it for too long. Else what is due is sent again, the key session that may no longer
// be used is closed, and the next one begins where it is due, on this next engine connection. At want of
// memory nothing has changed.
pub(crate) fn on_tick<W: Wrap + Drop>(
    session: &mut SessionState<W>,
    next_conn: Conn,
    established: bool,
    idle: bool,
    to: Addr,
    now: Moment,
    out: &mut Outbox,
) -> Result<Turn, NoMemory>
    requires few { count session.old < 2 ^ 64 - 1 }
    requires goes_on { GoesOn session.old }
    requires later { since session.old ≤ now.0 }
    ensures left { (p : Peer) → PeerStands W.wrapped session.old p →
        LeavesUnless result (PeerStands W.wrapped) session.new out.old out.new to p (ticked (ticking now.0 next_conn established idle) p) }
    ensures answer { IfOk result (λ turn. (p : Peer) → PeerStands W.wrapped session.old p →
        turn ≡ (ticked (ticking now.0 next_conn established idle) p).answer) }
    ensures goes_on { MatchResult result (GoesOnUnlessOver (GoesOn session.new)) (λ _. GoesOn session.new) }
    ensures fits { (effects room : ℕ) → IsReady session.old Tick effects room → HasRoom out.old effects room → IsOk result }
    ensures uses { (effects room : ℕ) → IsReady session.old Tick effects room → Uses out.old out.new effects room }
    ensures count { count session.new ≤ count session.old + 1 }
    ensures since { (since session.old ≤ since session.new) × (since session.new ≤ now.0) }
    ensures since_kept { OnErr result (since session.new ≡ since session.old) }
    ensures closed { (p : Peer) (n : ℕ) → PeerStands W.wrapped session.old p →
        IfOk result (λ _. is_late p (ticking now.0 next_conn established idle) ≡ false → idle ≡ false → retired p now.0 ≡ Some n →
        since session.new ≡ now.0) }
{
    if session.is_late(established, now) {
        return Ok(Turn::Over(Cause::HandWindow));
    }
    if idle {
        return Ok(Turn::Over(Cause::PingRestart));
    }
    let renews = session.renews(established, now);
    match reserve_tick(session, renews, out) {
        Ok(()) => {}
        Err(NoMemory) => return Err(NoMemory),
    }
    Ok(go_by(session, renews, next_conn, to, now, out))
}

// Takes the memory of a tick, and of a next session where one is to begin.
fn reserve_tick<W: Wrap + Drop>(
    session: &mut SessionState<W>,
    renews: bool,
    out: &mut Outbox,
) -> Result<(), NoMemory>
    requires goes_on { GoesOn session.old }
    ensures same { (p : Peer) → PeerStands W.wrapped session.old p → PeerStands W.wrapped session.new p }
    ensures goes_on { GoesOn session.new }
    ensures holds { Holds out.new out.old.effects out.old.staged }
    ensures room { OnOk result (HasRoom out.new 26 28800) }
    ensures next { OnOk result (renews ≡ true → MayBegin session.new) }
    ensures fits { (effects room : ℕ) → IsReady session.old Tick effects room → HasRoom out.old effects room → IsOk result }
    ensures uses { Uses out.old out.new 0 0 }
    ensures stage { newest_stage session.new.slots ≡ newest_stage session.old.slots }
    ensures count { count session.new ≡ count session.old }
    ensures since { since session.new ≡ since session.old }
{
    match out.reserve(EFFECTS, BYTES) {
        Ok(()) => {}
        Err(NoMemory) => return Err(NoMemory),
    }
    if renews { session.make_next() } else { Ok(()) }
}

// All that is due is sent again, the retired session is closed, and the next one begins where it is to.
fn go_by<W: Wrap + Drop>(
    session: &mut SessionState<W>,
    renews: bool,
    next_conn: Conn,
    to: Addr,
    now: Moment,
    out: &mut Outbox,
) -> Turn
    requires few { count session.old < 2 ^ 64 - 1 }
    requires goes_on { GoesOn session.old }
    requires room { HasRoom out.old 26 28800 }
    requires next { renews ≡ true → MayBegin session.old }
    requires keyed { renews ≡ true → newest_stage session.old.slots ≡ stages.Keyed }
    ensures done { (before : Contents) (p : Peer) (established idle : Bool) → PeerStands W.wrapped session.old p → Holds out.old before.effects before.staged →
        HasDone W.wrapped session.new result before out.new to (gone_with p (ticking now.0 next_conn established idle) renews) }
    ensures goes_on { MayGoOn session.new }
    ensures over { session.new.is_over ≡ is_end result }
    ensures uses { Uses out.old out.new 26 28800 }
    ensures count { count session.new ≤ count session.old + 1 }
    ensures since { since session.new ≡ now.0 }
{
    let numbers = OpenNumbers::of(&session.slots);
    let retired = session.slots.retired(now, session.timers.tran);
    let turn = tick_each(
        session,
        numbers.as_slice(),
        retired,
        Turn::Going,
        to,
        now,
        out,
    );
    close_retired(session, now, out);
    let turn = begin_if(session, renews, next_conn, turn, to, now, out);
    session.since = now;
    turn
}

// What is due is sent again in the sessions of these numbers but the retired one.
fn tick_each<W: Wrap + Drop>(
    session: &mut SessionState<W>,
    numbers: &[u64],
    retired: Option<u64>,
    turn: Turn,
    to: Addr,
    now: Moment,
    out: &mut Outbox,
) -> Turn
    requires goes_on { MayGoOn session.old }
    requires over { session.old.is_over ≡ is_end turn }
    requires room { HasRoom out.old (6 * length numbers.now) (7200 * length numbers.now) }
    ensures done { (before : Contents) (o : Outcome Turn) (least : ℕ) → HasDone W.wrapped session.old turn before out.old to o →
        AreOpenYet least numbers.now o.peer.sessions →
        HasDone W.wrapped session.new result before out.new to (resent now.0 (filter (λ n. not (is_number retired n)) numbers.now) o) }
    ensures goes_on { MayGoOn session.new }
    ensures over { session.new.is_over ≡ is_end result }
    ensures uses { Uses out.old out.new (6 * length numbers.now) (7200 * length numbers.now) }
    ensures keeps { KeepsNext session.old session.new }
{
    match numbers {
        [] => turn,
        [number, rest @ ..] => {
            let turn = tick_unless(
                session,
                is_number(retired, *number),
                *number,
                turn,
                to,
                now,
                out,
            );
            tick_each(session, rest, retired, turn, to, now, out)
        }
    }
}

// The same in the open session of this number, unless it is the retired one.
fn tick_unless<W: Wrap + Drop>(
    session: &mut SessionState<W>,
    is_retired: bool,
    number: u64,
    turn: Turn,
    to: Addr,
    now: Moment,
    out: &mut Outbox,
) -> Turn
    requires goes_on { MayGoOn session.old }
    requires over { session.old.is_over ≡ is_end turn }
    requires room { HasRoom out.old 6 7200 }
    ensures done { (before : Contents) (o : Outcome Turn) (s : Session) → HasDone W.wrapped session.old turn before out.old to o →
        slice_get o.peer.sessions number ≡ Some s → s.is_open ≡ true → s.link.spent ≡ false →
        HasDone W.wrapped session.new result before out.new to (resent_unless is_retired number now.0 o) }
    ensures goes_on { MayGoOn session.new }
    ensures over { session.new.is_over ≡ is_end result }
    ensures uses { Uses out.old out.new 6 7200 }
    ensures keeps { KeepsNext session.old session.new }
{
    if is_retired {
        turn
    } else {
        tick_at(session, number, turn, to, now, out)
    }
}

// What is due is sent again in the open session of this number, on whose link the wrap ids did not end.
fn tick_at<W: Wrap + Drop>(
    session: &mut SessionState<W>,
    number: u64,
    turn: Turn,
    to: Addr,
    now: Moment,
    out: &mut Outbox,
) -> Turn
    requires goes_on { MayGoOn session.old }
    requires over { session.old.is_over ≡ is_end turn }
    requires room { HasRoom out.old 6 7200 }
    ensures done { (before : Contents) (o : Outcome Turn) (s : Session) → HasDone W.wrapped session.old turn before out.old to o →
        slice_get o.peer.sessions number ≡ Some s → s.is_open ≡ true → s.link.spent ≡ false →
        HasDone W.wrapped session.new result before out.new to (resent_in number now.0 o (Some s)) }
    ensures goes_on { MayGoOn session.new }
    ensures over { session.new.is_over ≡ is_end result }
    ensures uses { Uses out.old out.new 6 7200 }
    ensures keeps { KeepsNext session.old session.new }
{
    let remote = session.remote_sent();
    match session.slots.take_text(number) {
        None => turn,
        Some(mut text) => {
            let answer = text.tick(&mut session.envelope, remote, to, now, out);
            session.slots.put_text(number, text);
            let turn = first_over(turn, turn_of(answer));
            session.is_over = is_end(turn);
            turn
        }
    }
}

// Closes the retired session, if there is one.
fn close_retired<W: Wrap + Drop>(session: &mut SessionState<W>, now: Moment, out: &mut Outbox)
    requires goes_on { MayGoOn session.old }
    requires room { HasRoom out.old 1 0 }
    ensures done { (before : Contents) (to : Addr) (turn : Turn) (o : Outcome Turn) → HasDone W.wrapped session.old turn before out.old to o →
        HasDone W.wrapped session.new turn before out.new to (session_closed (retired o.peer now.0) o) }
    ensures goes_on { MayGoOn session.new }
    ensures over { session.new.is_over ≡ session.old.is_over }
    ensures uses { Uses out.old out.new 1 0 }
    ensures keeps { KeepsNext session.old session.new }
{
    match session.slots.close_retired(now, session.timers.tran) {
        None => {}
        Some(text) => {
            let closed = text.close(out);
            prove!(closed.is_ok());
            let _ = closed;
        }
    }
}

// The next session begins where it is to.
fn begin_if<W: Wrap + Drop>(
    session: &mut SessionState<W>,
    renews: bool,
    next_conn: Conn,
    turn: Turn,
    to: Addr,
    now: Moment,
    out: &mut Outbox,
) -> Turn
    requires few { count session.old < 2 ^ 64 - 1 }
    requires goes_on { MayGoOn session.old }
    requires over { session.old.is_over ≡ is_end turn }
    requires room { HasRoom out.old 7 7200 }
    requires next { renews ≡ true → MayBegin session.old }
    requires keyed { renews ≡ true → newest_stage session.old.slots ≡ stages.Keyed }
    ensures done { (before : Contents) (o : Outcome Turn) (established idle : Bool) → HasDone W.wrapped session.old turn before out.old to o →
        HasDone W.wrapped session.new result before out.new to (renewed (ticking now.0 next_conn established idle) renews o) }
    ensures goes_on { MayGoOn session.new }
    ensures over { session.new.is_over ≡ is_end result }
    ensures uses { Uses out.old out.new 7 7200 }
    ensures count { count session.new ≤ count session.old + 1 }
{
    if renews {
        renew(session, next_conn, turn, to, now, out)
    } else {
        turn
    }
}

// The next session begins: its connection is opened, and its reset sent.
fn renew<W: Wrap + Drop>(
    session: &mut SessionState<W>,
    next_conn: Conn,
    turn: Turn,
    to: Addr,
    now: Moment,
    out: &mut Outbox,
) -> Turn
    requires few { count session.old < 2 ^ 64 - 1 }
    requires goes_on { MayGoOn session.old }
    requires over { session.old.is_over ≡ is_end turn }
    requires room { HasRoom out.old 7 7200 }
    requires next { MayBegin session.old }
    requires keyed { newest_stage session.old.slots ≡ stages.Keyed }
    ensures done { (before : Contents) (o : Outcome Turn) (established idle : Bool) → HasDone W.wrapped session.old turn before out.old to o →
        HasDone W.wrapped session.new result before out.new to (renewed (ticking now.0 next_conn established idle) true o) }
    ensures goes_on { MayGoOn session.new }
    ensures over { session.new.is_over ≡ is_end result }
    ensures uses { Uses out.old out.new 7 7200 }
    ensures count { count session.new ≡ count session.old + 1 }
{
    let number = session.slots.newest().number + 1;
    let remote = session.remote_sent();
    let mut text = next_text(session.alloc, &mut session.blank, next_conn, number);
    let added = out.add(&Effect::EngineOpen {
        conn: next_conn,
        role: session.role,
    });
    prove!(added.is_ok());
    let _ = added;
    let answer = text.send_ready(&mut session.envelope, remote, to, now, out);
    let begun = session
        .slots
        .begin_next(KeySession::begin(text, number, now));
    prove!(begun.is_ok());
    let _ = begun;
    let turn = first_over(turn, turn_of(answer));
    session.is_over = is_end(turn);
    turn
}
