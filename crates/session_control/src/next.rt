//! A control packet begins a client's next key session.

ghost use Rattle.std.specs.Prelude.{◌≡◌, ◌≤◌, ◌<◌, ◌+◌, ◌-◌, ◌*◌, ◌^◌, ◌++◌, ◌∷◌, [], ℕ, Bool, List, length, true, IsOk, IfOk, OnOk, MatchResult};
ghost use Rattle.vpn_base.specs.declared.address.Addr.{Addr};
ghost use Rattle.vpn_base.specs.declared.names.Timers.{Timers};
ghost use Rattle.vpn_links.specs.Actions.{EngineOpen, Holds};
ghost use Rattle.vpn_links.specs.declared.events.Kind.TheVariants.{Datagram};
ghost use Rattle.opcode_codec.specs.ControlText.{control_form};
ghost use Rattle.opcode_codec.specs.declared.opcodes.Opcode.TheVariants.{SoftReset};
ghost use Rattle.control_link.specs.Envelope.{EnvelopeHistory, EnvelopeStands};
ghost use Rattle.key_sessions.specs.Sessions.{BeginsAt};
ghost use Rattle.key_sessions.specs.Slots.{IsWhole, SlotsStand, newest_number, newest_stage, room};
ghost use Rattle.key_sessions.specs.declared.slot.Stage.TheVariants as stages;
ghost use Rattle.peer_lines.specs.Calls.{Leaves as LineLeaves, packet_taken};
ghost use Rattle.peer_lines.specs.Rooms.{blank_room};
ghost use Rattle.peer_lines.specs.Standing.{BlankFor, StandsFor};
ghost use Rattle.peer_table.specs.ControlPackets.{begun_by};
ghost use Rattle.peer_table.specs.KeySessions.{Session, kid_of, session_begun};
ghost use Rattle.peer_table.specs.Outboxes.{GoesOnAfter, GoesOnUnlessOver, HasRoom, Leaves, LeavesUnless, Uses, incoming};
ghost use Rattle.peer_table.specs.Peer.{Peer};
ghost use Rattle.session_state.specs.Ready.{BlankTakes, IsReady};
ghost use Rattle.session_state.specs.Standing.{GoesOn, PeerStands, count, since};
ghost use Rattle.session_control.specs.internal.Taking.{IsFreshIn, end_only};

use crate::control::{accept_wrap, fixed, turn_of};
use control_link::{Envelope, LinkEnd};
use key_sessions::{KeySession, Slots, kid_of};
use opcode_codec::{ControlView, Opcode};
use peer_lines::{SessionBlank, SessionChannels, links_go_on};
use peer_table::{Refused, Turn};
use session_state::{SessionState, least_bytes};
use std::alloc::Global;
use tls_crypt::{Opened, Wrap};
use vpn_base::{Addr, Conn, Moment, NoMemory, Or, Role, Sid};
use vpn_links::{Effect, Outbox};

// As many effects and datagrams come of a packet that begins a session at most: a connection is opened, and what a packet
// comes to.
const MOST: usize = 19;

// The end that a link's answer tells, where there was no want of memory.
fn end_only(told: Result<(), Or<LinkEnd>>) -> Option<LinkEnd>
    ensures { result ≡ end_only told }
{
    match told {
        Ok(()) => None,
        Err(Or::Why(end)) => Some(end),
        Err(Or::Memory) => None,
    }
}

// Opens an engine connection, for which there is room.
fn open_conn(conn: Conn, role: Role, out: &mut Outbox)
    requires { 1 ≤ out.old.spare_effects }
    ensures opened { Holds out.new (out.old.effects ++ EngineOpen conn role ∷ []) out.old.staged }
    ensures uses { Uses out.old out.new 1 0 }
{
    let added = out.add(&Effect::EngineOpen { conn, role });
    prove!(added.is_ok());
    let _ = added;
}

// What belongs to a session of this number that begins with this packet, for which all room is there, and the end that
// its link told.
fn begin_text<W: Wrap + Drop>(
    alloc: Global,
    blank: SessionBlank,
    env: &mut Envelope<W>,
    conn: Conn,
    number: u64,
    view: &ControlView<'_>,
    remote: Sid,
    to: Addr,
    now: Moment,
    out: &mut Outbox,
) -> (SessionChannels, Option<LinkEnd>)
    requires acks { view.now.acks.count ≤ 8 }
    requires payload { length view.now.payload.now ≤ blank_room blank }
    requires bytes { 7200 + 12 * length view.now.payload.now < 2 ^ 64 }
    requires room { HasRoom out.old 18 (7200 + 12 * length view.now.payload.now) }
    ensures left { (timers : Timers) (h : EnvelopeHistory) → BlankFor blank timers → EnvelopeStands W.wrapped env.old h →
        LineLeaves W.wrapped result.0 env.new out.old out.new to (packet_taken (session_begun timers conn number SoftReset now.0) h (control_form view.now) remote now.0) }
    ensures end { (timers : Timers) (h : EnvelopeHistory) → BlankFor blank timers → EnvelopeStands W.wrapped env.old h →
        result.1 ≡ (packet_taken (session_begun timers conn number SoftReset now.0) h (control_form view.now) remote now.0).end }
    ensures uses { Uses out.old out.new 18 (7200 + 12 * length view.now.payload.now) }
{
    let mut text = SessionChannels::begin(alloc, blank, conn, kid_of(number), Opcode::SoftReset);
    let told = text.on_packet(view, env, remote, to, now, out);
    (text, end_only(told))
}

// The next session begins with what belongs to it, for which there is a place.
fn push_next(slots: &mut Slots<SessionChannels>, text: SessionChannels, number: u64, now: Moment)
    requires keyed { newest_stage slots.old ≡ stages.Keyed }
    requires number { number ≡ newest_number slots.old + 1 }
    requires place { 1 ≤ room slots.old }
    ensures begun { (ss : List Session) (s : Session) → SlotsStand StandsFor slots.old ss → StandsFor text s → BeginsAt now.0 s → SlotsStand StandsFor slots.new (ss ++ s ∷ []) }
    ensures whole { IsWhole slots.old → IsWhole slots.new }
    ensures number { newest_number slots.new ≡ newest_number slots.old + 1 }
{
    let begun = slots.begin_next(KeySession::begin(text, number, now));
    prove!(begun.is_ok());
    let _ = begun;
}

// The key id of the next session.
pub(crate) fn next_kid<W: Wrap + Drop>(session: &SessionState<W>) -> u8
    requires few { count session.now < 2 ^ 64 - 1 }
    ensures { (p : Peer) → PeerStands W.wrapped session.now p → result ≡ kid_of (length p.sessions) }
{
    kid_of(session.slots.newest().number + 1)
}

// A control packet begins the next session, which takes it, by a wrap that is fresh.
pub(crate) fn begin_next<W: Wrap + Drop>(
    session: &mut SessionState<W>,
    opened: &Opened<'_>,
    view: &ControlView<'_>,
    to: Addr,
    next_conn: Conn,
    now: Moment,
    out: &mut Outbox,
) -> Result<Result<Turn, Refused>, NoMemory>
    requires acks { view.now.acks.count ≤ 8 }
    requires few { count session.old < 2 ^ 64 - 1 }
    requires goes_on { GoesOn session.old }
    requires keyed { newest_stage session.old.slots ≡ stages.Keyed }
    ensures left { (p : Peer) (established : Bool) → PeerStands W.wrapped session.old p → IsFreshIn p.envelope opened.now now →
        LeavesUnless result (PeerStands W.wrapped) session.new out.old out.new to p (begun_by p (incoming opened.now view.now next_conn established now) true) }
    ensures answer { IfOk result (λ answer. (p : Peer) (established : Bool) → PeerStands W.wrapped session.old p →
        answer ≡ (begun_by p (incoming opened.now view.now next_conn established now) true).answer) }
    ensures goes_on { MatchResult result (GoesOnAfter (GoesOn session.new)) (λ _. GoesOn session.new) }
    ensures fits { (from : Addr) (bytes : List ℕ) (effects room : ℕ) → IsReady session.old (Datagram from bytes) effects room →
        length view.now.payload.now ≤ length bytes → HasRoom out.old effects room → IsOk result }
    ensures uses { (from : Addr) (bytes : List ℕ) (effects room : ℕ) → IsReady session.old (Datagram from bytes) effects room →
        length view.now.payload.now ≤ length bytes → Uses out.old out.new effects room }
    ensures count { count session.new ≤ count session.old + 1 }
    ensures since { since session.new ≡ since session.old }
{
    match take_memory(session, view.payload.len(), out) {
        Ok(blank) => Ok(Ok(begin_with(session, blank, opened, view, to, next_conn, now, out))),
        Err(NoMemory) => Err(NoMemory),
    }
}

// Takes all memory for the beginning of a next session by a packet with a payload of so many bytes: a place for it, what
// belongs to it, which is given, and the outbox's room.
fn take_memory<W: Wrap + Drop>(
    session: &mut SessionState<W>,
    payload: usize,
    out: &mut Outbox,
) -> Result<SessionBlank, NoMemory>
    requires goes_on { GoesOn session.old }
    ensures same { (p : Peer) → PeerStands W.wrapped session.old p → PeerStands W.wrapped session.new p }
    ensures goes_on { GoesOn session.new }
    ensures place { OnOk result (1 ≤ room session.new.slots) }
    ensures blank_for { IfOk result (λ blank. BlankFor blank session.new.timers) }
    ensures blank_fits { IfOk result (λ blank. payload ≤ blank_room blank) }
    ensures bytes { OnOk result (7200 + 12 * payload < 2 ^ 64) }
    ensures room { OnOk result (HasRoom out.new 19 (7200 + 12 * payload)) }
    ensures outbox { Holds out.new out.old.effects out.old.staged }
    ensures fits { (from : Addr) (bytes : List ℕ) (effects room : ℕ) → IsReady session.old (Datagram from bytes) effects room →
        payload ≤ length bytes → HasRoom out.old effects room → IsOk result }
    ensures grows { Uses out.old out.new 0 0 }
    ensures stage { newest_stage session.new.slots ≡ newest_stage session.old.slots }
    ensures count { count session.new ≡ count session.old }
    ensures since { since session.new ≡ since session.old }
{
    let room = match least_bytes(payload) {
        None => return Err(NoMemory),
        Some(room) => room,
    };
    match session.make_next_for(payload) {
        Ok(()) => {}
        Err(NoMemory) => return Err(NoMemory),
    }
    match out.reserve(MOST, room) {
        Ok(()) => take_blank(session),
        Err(NoMemory) => Err(NoMemory),
    }
}

// The memory of what belongs to a next session, where it is there.
fn take_blank<W: Wrap + Drop>(session: &mut SessionState<W>) -> Result<SessionBlank, NoMemory>
    requires goes_on { GoesOn session.old }
    ensures same { (p : Peer) → PeerStands W.wrapped session.old p → PeerStands W.wrapped session.new p }
    ensures goes_on { GoesOn session.new }
    ensures blank_for { IfOk result (λ blank. BlankFor blank session.new.timers) }
    ensures blank_fits { IfOk result (λ blank. (payload : ℕ) → BlankTakes payload session.old.blank → payload ≤ blank_room blank) }
    ensures fits { (payload : ℕ) → BlankTakes payload session.old.blank → IsOk result }
    ensures slots { session.new.slots ≡ session.old.slots }
    ensures count { count session.new ≡ count session.old }
    ensures since { since session.new ≡ since session.old }
{
    match session.blank.take() {
        None => Err(NoMemory),
        Some(blank) => Ok(blank),
    }
}

// The same with all memory that it takes.
fn begin_with<W: Wrap + Drop>(
    session: &mut SessionState<W>,
    blank: SessionBlank,
    opened: &Opened<'_>,
    view: &ControlView<'_>,
    to: Addr,
    next_conn: Conn,
    now: Moment,
    out: &mut Outbox,
) -> Turn
    requires acks { view.now.acks.count ≤ 8 }
    requires few { count session.old < 2 ^ 64 - 1 }
    requires goes_on { GoesOn session.old }
    requires keyed { newest_stage session.old.slots ≡ stages.Keyed }
    requires place { 1 ≤ room session.old.slots }
    requires blank_for { BlankFor blank session.old.timers }
    requires payload { length view.now.payload.now ≤ blank_room blank }
    requires bytes { 7200 + 12 * length view.now.payload.now < 2 ^ 64 }
    requires room { HasRoom out.old 19 (7200 + 12 * length view.now.payload.now) }
    ensures left { (p : Peer) (established : Bool) → PeerStands W.wrapped session.old p → IsFreshIn p.envelope opened.now now →
        Leaves (PeerStands W.wrapped) session.new out.old out.new to (begun_by p (incoming opened.now view.now next_conn established now) true) }
    ensures answer { (p : Peer) (established : Bool) → PeerStands W.wrapped session.old p →
        Ok result ≡ (begun_by p (incoming opened.now view.now next_conn established now) true).answer }
    ensures goes_on { GoesOnUnlessOver (GoesOn session.new) result }
    ensures uses { Uses out.old out.new 19 (7200 + 12 * length view.now.payload.now) }
    ensures count { count session.new ≡ count session.old + 1 }
    ensures since { since session.new ≡ since session.old }
{
    links_go_on();
    let number = session.slots.newest().number + 1;
    open_conn(next_conn, session.role, out);
    let (text, end) = begin_text(
        session.alloc,
        blank,
        &mut session.envelope,
        next_conn,
        number,
        view,
        opened.sid,
        to,
        now,
        out,
    );
    push_next(&mut session.slots, text, number, now);
    accept_wrap(&mut session.envelope, opened, now);
    session.remote = fixed(session.remote, opened.sid);
    session.is_over = end.is_some();
    turn_of(end)
}
