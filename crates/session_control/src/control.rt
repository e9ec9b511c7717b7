//! Control packets of a client.

ghost use Rattle.std.specs.Prelude.{◌≡◌, ◌≤◌, ◌<◌, ◌+◌, ◌-◌, ◌^◌, ◌==◌, ℕ, Bool, List, length, Option, Some, true, false, is_some, slice_get, IsOk, IfOk, OnOk, OnErr, MatchResult};
ghost use Rattle.std.specs.Option.{option_or};
ghost use Rattle.vpn_base.specs.declared.address.Addr.{Addr};
ghost use Rattle.vpn_base.specs.declared.names.Conn.{Conn};
ghost use Rattle.vpn_base.specs.declared.names.Freshness.TheVariants.{Fresh};
ghost use Rattle.vpn_links.specs.declared.events.Kind.TheVariants.{Datagram};
ghost use Rattle.opcode_codec.specs.ControlText.{control_form};
ghost use Rattle.opcode_codec.specs.FirstByte.{opcode_of};
ghost use Rattle.packet_ids.specs.LongFreshness.{long_freshness};
ghost use Rattle.control_link.specs.Envelope.{EnvelopeHistory, EnvelopeStands, with_accepted};
ghost use Rattle.key_sessions.specs.Slots.{IsWhole, SlotsStand, newest_number, newest_stage};
ghost use Rattle.key_sessions.specs.declared.slot.Stage.TheVariants as stages;
ghost use Rattle.peer_lines.specs.Calls.{packet_taken};
ghost use Rattle.peer_lines.specs.Standing.{StandsFor};
ghost use Rattle.peer_table.specs.ControlPackets.{begins_next, begun_by, control_came, is_first, is_soft_reset, kid_in, placed, taken_by};
ghost use Rattle.peer_table.specs.KeySessions.{Session, live_with};
ghost use Rattle.peer_table.specs.Outboxes.{GoesOnAfter, HasRoom, LeavesUnless, Uses, incoming};
ghost use Rattle.peer_table.specs.Peer.{Peer, turn_of};
ghost use Rattle.session_state.specs.Ready.{EachText, IsReady, TakesPacket};
ghost use Rattle.session_state.specs.Standing.{GoesOn, PeerStands, UsableAreOpen, count, since};
ghost use Rattle.session_control.specs.internal.Taking.{is_fresh, IsFreshIn, LineKept, LineLeft, end_told};

use crate::next::{begin_next, next_kid};
use control_link::{Envelope, LinkEnd};
use key_sessions::{Slots, sessions_are_open_without_keys};
use opcode_codec::{ControlView, Opcode};
use peer_lines::{SessionChannels, links_go_on};
use peer_table::{Refused, Turn};
use session_state::{SessionState, cause_of};
use tls_crypt::{Opened, Wrap};
use vpn_base::{Addr, Conn, Freshness, Moment, NoMemory, Or, Sid};
use vpn_links::Outbox;

// Whether a wrap is fresh.
fn is_fresh<W: Wrap + Drop>(env: &Envelope<W>, opened: &Opened<'_>, now: Moment) -> bool
    ensures { (h : EnvelopeHistory) → EnvelopeStands W.wrapped env.now h → result ≡ is_fresh (long_freshness h.accepted opened.now.time opened.now.id now) }
{
    match env.check(opened, now) {
        Freshness::Fresh => true,
        Freshness::Zero => false,
        Freshness::Old => false,
        Freshness::Seen => false,
        Freshness::Late => false,
    }
}

// Accepts the wrap of a packet that was judged fresh. Nothing that was sent meanwhile has changed that, so it is fresh still.
pub(crate) fn accept_wrap<W: Wrap + Drop>(env: &mut Envelope<W>, opened: &Opened<'_>, now: Moment)
    ensures { (h : EnvelopeHistory) → EnvelopeStands W.wrapped env.old h → IsFreshIn h opened.now now →
        EnvelopeStands W.wrapped env.new (with_accepted h opened.now.time opened.now.id now) }
{
    match env.check(opened, now) {
        Freshness::Fresh => env.accept(opened, now),
        Freshness::Zero => {}
        Freshness::Old => {}
        Freshness::Seen => {}
        Freshness::Late => {}
    }
}

// The other end's session id: the first packet that is taken fixes it.
pub(crate) fn fixed(remote: Option<Sid>, sender: Sid) -> Option<Sid>
    ensures { result ≡ option_or remote (Some sender) }
{
    match remote {
        None => Some(sender),
        Some(remote) => Some(remote),
    }
}

// What the owner is to do where a link has ended, or has not.
pub(crate) fn turn_of(end: Option<LinkEnd>) -> Turn
    ensures { result ≡ turn_of end }
{
    match end {
        None => Turn::Going,
        Some(end) => Turn::Over(cause_of(end)),
    }
}

// The end that a link's answer tells, if it tells one.
fn end_told(told: Result<(), Or<LinkEnd>>) -> Result<Option<LinkEnd>, NoMemory>
    ensures { result ≡ end_told told }
{
    match told {
        Ok(()) => Ok(None),
        Err(Or::Why(end)) => Ok(Some(end)),
        Err(Or::Memory) => Err(NoMemory),
    }
}

// A control packet comes to the open session of this number.
fn take_at<W: Wrap + Drop>(
    slots: &mut Slots<SessionChannels>,
    env: &mut Envelope<W>,
    number: u64,
    view: &ControlView<'_>,
    remote: Sid,
    to: Addr,
    now: Moment,
    out: &mut Outbox,
) -> Result<Option<LinkEnd>, NoMemory>
    requires acks { view.now.acks.count ≤ 8 }
    requires whole { IsWhole slots.old }
    ensures taken { (ss : List Session) (s : Session) (h : EnvelopeHistory) → SlotsStand StandsFor slots.old ss → slice_get ss number ≡ Some s → s.is_open ≡ true →
        s.link.spent ≡ false → EnvelopeStands W.wrapped env.old h →
        OnOk result (LineLeft W.wrapped slots.new env.new out.old out.new to ss number (packet_taken s h (control_form view.now) remote now.0)) }
    ensures kept { (ss : List Session) (s : Session) (h : EnvelopeHistory) → SlotsStand StandsFor slots.old ss → slice_get ss number ≡ Some s → s.is_open ≡ true →
        s.link.spent ≡ false → EnvelopeStands W.wrapped env.old h →
        OnErr result (LineKept W.wrapped slots.new env.new out.old out.new ss h) }
    ensures end { (ss : List Session) (s : Session) (h : EnvelopeHistory) → SlotsStand StandsFor slots.old ss → slice_get ss number ≡ Some s → s.is_open ≡ true →
        s.link.spent ≡ false → EnvelopeStands W.wrapped env.old h →
        IfOk result (λ end. end ≡ (packet_taken s h (control_form view.now) remote now.0).end) }
    ensures whole { IsWhole slots.new }
    ensures number { newest_number slots.new ≡ newest_number slots.old }
    ensures fits { (payload room : ℕ) → EachText (TakesPacket payload room) slots.old → room < 2 ^ 64 → length view.now.payload.now ≤ payload →
        HasRoom out.old 18 room → IsOk result }
    ensures uses { (payload room : ℕ) → EachText (TakesPacket payload room) slots.old → length view.now.payload.now ≤ payload → Uses out.old out.new 18 room }
{
    match slots.take_text(number) {
        None => Ok(None),
        Some(mut text) => {
            let told = text.on_packet(view, env, remote, to, now, out);
            slots.put_text(number, text);
            end_told(told)
        }
    }
}

// Whether the opcode in the first byte of a packet is that of a soft reset.
fn is_soft_reset(first: u8) -> bool
    ensures { result ≡ is_soft_reset (opcode_of first) }
{
    first / 8 == Opcode::SoftReset as u8
}

// Whether the packet id is 0.
fn is_first(id: Option<u32>) -> bool
    ensures { result ≡ is_first id }
{
    match id {
        None => false,
        Some(id) => id == 0,
    }
}

/// A control packet has come. Refused are a wrap that was accepted before, and a packet that belongs to no
/// live key session and begins none. The effects tell whether the next engine connection was opened.
pub fn on_control<W: Wrap + Drop>(
    session: &mut SessionState<W>,
    opened: &Opened<'_>,
    view: &ControlView<'_>,
    to: Addr,
    next_conn: Conn,
    established: bool,
    now: Moment,
    out: &mut Outbox,
) -> Result<Result<Turn, Refused>, NoMemory>
    requires acks { view.now.acks.count ≤ 8 }
    requires few { count session.old < 2 ^ 64 - 1 }
    requires goes_on { GoesOn session.old }
    ensures left { (p : Peer) → UsableAreOpen p now.0 → PeerStands W.wrapped session.old p →
        LeavesUnless result (PeerStands W.wrapped) session.new out.old out.new to p (control_came p (incoming opened.now view.now next_conn established now)) }
    ensures answer { IfOk result (λ answer. (p : Peer) → UsableAreOpen p now.0 → PeerStands W.wrapped session.old p →
        answer ≡ (control_came p (incoming opened.now view.now next_conn established now)).answer) }
    ensures goes_on { MatchResult result (GoesOnAfter (GoesOn session.new)) (λ _. GoesOn session.new) }
    ensures fits { (from : Addr) (bytes : List ℕ) (effects room : ℕ) → IsReady session.old (Datagram from bytes) effects room →
        length view.now.payload.now ≤ length bytes → HasRoom out.old effects room → IsOk result }
    ensures uses { (from : Addr) (bytes : List ℕ) (effects room : ℕ) → IsReady session.old (Datagram from bytes) effects room →
        length view.now.payload.now ≤ length bytes → Uses out.old out.new effects room }
    ensures count { count session.new ≤ count session.old + 1 }
    ensures since { since session.new ≡ since session.old }
{
    if is_fresh(&session.envelope, opened, now) {
        place_packet(session, opened, view, to, next_conn, established, now, out)
    } else {
        Ok(Err(Refused::Replayed {
            time: opened.time,
            id: opened.id,
        }))
    }
}

// The same where the wrap is fresh: the packet goes to the live session with its key id, or else may begin one.
fn place_packet<W: Wrap + Drop>(
    session: &mut SessionState<W>,
    opened: &Opened<'_>,
    view: &ControlView<'_>,
    to: Addr,
    next_conn: Conn,
    established: bool,
    now: Moment,
    out: &mut Outbox,
) -> Result<Result<Turn, Refused>, NoMemory>
    requires acks { view.now.acks.count ≤ 8 }
    requires few { count session.old < 2 ^ 64 - 1 }
    requires goes_on { GoesOn session.old }
    ensures left { (p : Peer) → UsableAreOpen p now.0 → PeerStands W.wrapped session.old p → IsFreshIn p.envelope opened.now now →
        LeavesUnless result (PeerStands W.wrapped) session.new out.old out.new to p
        (placed p (incoming opened.now view.now next_conn established now) (live_with p.timers now.0 p.sessions (kid_in (incoming opened.now view.now next_conn established now)))) }
    ensures answer { IfOk result (λ answer. (p : Peer) → UsableAreOpen p now.0 → PeerStands W.wrapped session.old p → IsFreshIn p.envelope opened.now now →
        answer ≡ (placed p (incoming opened.now view.now next_conn established now)
        (live_with p.timers now.0 p.sessions (kid_in (incoming opened.now view.now next_conn established now)))).answer) }
    ensures goes_on { MatchResult result (GoesOnAfter (GoesOn session.new)) (λ _. GoesOn session.new) }
    ensures fits { (from : Addr) (bytes : List ℕ) (effects room : ℕ) → IsReady session.old (Datagram from bytes) effects room →
        length view.now.payload.now ≤ length bytes → HasRoom out.old effects room → IsOk result }
    ensures uses { (from : Addr) (bytes : List ℕ) (effects room : ℕ) → IsReady session.old (Datagram from bytes) effects room →
        length view.now.payload.now ≤ length bytes → Uses out.old out.new effects room }
    ensures count { count session.new ≤ count session.old + 1 }
    ensures since { since session.new ≡ since session.old }
{
    sessions_are_open_without_keys(&session.slots);
    match session
        .slots
        .live(opened.first % 8, now, session.timers.tran)
    {
        None => begin_or_refuse(session, opened, view, to, next_conn, established, now, out),
        Some(number) => take_in(session, number, opened, view, to, now, out),
    }
}

// The same where no live session has its key id: the packet begins the next session, or is refused.
fn begin_or_refuse<W: Wrap + Drop>(
    session: &mut SessionState<W>,
    opened: &Opened<'_>,
    view: &ControlView<'_>,
    to: Addr,
    next_conn: Conn,
    established: bool,
    now: Moment,
    out: &mut Outbox,
) -> Result<Result<Turn, Refused>, NoMemory>
    requires acks { view.now.acks.count ≤ 8 }
    requires few { count session.old < 2 ^ 64 - 1 }
    requires goes_on { GoesOn session.old }
    ensures left { (p : Peer) → PeerStands W.wrapped session.old p → IsFreshIn p.envelope opened.now now →
        LeavesUnless result (PeerStands W.wrapped) session.new out.old out.new to p
        (begun_by p (incoming opened.now view.now next_conn established now) (begins_next p (incoming opened.now view.now next_conn established now))) }
    ensures answer { IfOk result (λ answer. (p : Peer) → PeerStands W.wrapped session.old p → IsFreshIn p.envelope opened.now now →
        answer ≡ (begun_by p (incoming opened.now view.now next_conn established now) (begins_next p (incoming opened.now view.now next_conn established now))).answer) }
    ensures goes_on { MatchResult result (GoesOnAfter (GoesOn session.new)) (λ _. GoesOn session.new) }
    ensures fits { (from : Addr) (bytes : List ℕ) (effects room : ℕ) → IsReady session.old (Datagram from bytes) effects room →
        length view.now.payload.now ≤ length bytes → HasRoom out.old effects room → IsOk result }
    ensures uses { (from : Addr) (bytes : List ℕ) (effects room : ℕ) → IsReady session.old (Datagram from bytes) effects room →
        length view.now.payload.now ≤ length bytes → Uses out.old out.new effects room }
    ensures count { count session.new ≤ count session.old + 1 }
    ensures since { since session.new ≡ since session.old }
{
    if begins_next(session, opened, view, established) {
        begin_next(session, opened, view, to, next_conn, now, out)
    } else {
        accept_wrap(&mut session.envelope, opened, now);
        Ok(Err(Refused::BadKey {
            kid: opened.first % 8,
        }))
    }
}

// Whether the packet begins the next session: a soft reset with the next key id and packet id 0, where the newest
// session is finished.
fn begins_next<W: Wrap + Drop>(
    session: &SessionState<W>,
    opened: &Opened<'_>,
    view: &ControlView<'_>,
    established: bool,
) -> bool
    requires few { count session.now < 2 ^ 64 - 1 }
    ensures test { (p : Peer) (next_conn : Conn) (now : Moment) → PeerStands W.wrapped session.now p →
        result ≡ begins_next p (incoming opened.now view.now next_conn established now) }
    ensures keyed { result ≡ true → newest_stage session.now.slots ≡ stages.Keyed }
{
    is_soft_reset(opened.first)
        && opened.first % 8 == next_kid(session)
        && is_first(view.id)
        && session.newest_is_finished(established)
}

// A control packet comes to the open session of this number, by a wrap that is fresh.
fn take_in<W: Wrap + Drop>(
    session: &mut SessionState<W>,
    number: u64,
    opened: &Opened<'_>,
    view: &ControlView<'_>,
    to: Addr,
    now: Moment,
    out: &mut Outbox,
) -> Result<Result<Turn, Refused>, NoMemory>
    requires acks { view.now.acks.count ≤ 8 }
    requires goes_on { GoesOn session.old }
    ensures left { (p : Peer) (s : Session) (next_conn : Conn) (established : Bool) → PeerStands W.wrapped session.old p → IsFreshIn p.envelope opened.now now →
        slice_get p.sessions number ≡ Some s → s.is_open ≡ true →
        LeavesUnless result (PeerStands W.wrapped) session.new out.old out.new to p
        (taken_by p (incoming opened.now view.now next_conn established now) number (Some s)) }
    ensures answer { IfOk result (λ answer. (p : Peer) (s : Session) (next_conn : Conn) (established : Bool) → PeerStands W.wrapped session.old p →
        slice_get p.sessions number ≡ Some s → s.is_open ≡ true →
        answer ≡ (taken_by p (incoming opened.now view.now next_conn established now) number (Some s)).answer) }
    ensures goes_on { MatchResult result (GoesOnAfter (GoesOn session.new)) (λ _. GoesOn session.new) }
    ensures fits { (from : Addr) (bytes : List ℕ) (effects room : ℕ) → IsReady session.old (Datagram from bytes) effects room →
        length view.now.payload.now ≤ length bytes → HasRoom out.old effects room → IsOk result }
    ensures uses { (from : Addr) (bytes : List ℕ) (effects room : ℕ) → IsReady session.old (Datagram from bytes) effects room →
        length view.now.payload.now ≤ length bytes → Uses out.old out.new effects room }
    ensures count { count session.new ≡ count session.old }
    ensures since { since session.new ≡ since session.old }
{
    links_go_on();
    let taken = take_at(
        &mut session.slots,
        &mut session.envelope,
        number,
        view,
        opened.sid,
        to,
        now,
        out,
    );
    match taken {
        Ok(end) => {
            accept_wrap(&mut session.envelope, opened, now);
            session.remote = fixed(session.remote, opened.sid);
            session.is_over = end.is_some();
            Ok(Ok(turn_of(end)))
        }
        Err(NoMemory) => Err(NoMemory),
    }
}
