//! A client's session begins.

ghost use Rattle.std.specs.Prelude.{◌≡◌, ◌≤◌, ◌+◌, ◌^◌, ◌%◌, ◌/◌, ℕ, List, [], ◌++◌, map, false, IfOk, OnOk, OnErr};
ghost use Rattle.vpn_base.specs.declared.names.Conn.{Conn};
ghost use Rattle.vpn_base.specs.declared.address.Addr.{Addr};
ghost use Rattle.vpn_base.specs.declared.names.Role.TheVariants.{Client, Server};
ghost use Rattle.vpn_base.specs.declared.names.Timers.{Timers};
ghost use Rattle.vpn_links.specs.Actions.{Holds, on_wire};
ghost use Rattle.control_link.specs.Calls.{datagrams_to};
ghost use Rattle.control_link.specs.Envelope.{EnvelopeHistory, EnvelopeStands};
ghost use Rattle.control_link.specs.Links.{IsReset};
ghost use Rattle.peer_table.specs.KeySessions.{Session, session_begun};
ghost use Rattle.peer_table.specs.Outboxes.{Leaves, Uses};
ghost use Rattle.peer_table.specs.Peer.{began, first_reset, wrap_time};
ghost use Rattle.peer_lines.specs.Standing.{StandsFor};
ghost use Rattle.tls_crypt.specs.Wrapped.{half, keys_of, wrapped, written_half};
ghost use Rattle.session_state.specs.Standing.{GoesOn, PeerStands, SessionStands, count, since};
ghost use Rattle.peer_session.specs.internal.Beginnings.{IsFirst, peer_of};

use control_link::Envelope;
use key_sessions::{KeySession, Slots};
use opcode_codec::Opcode;
use peer_lines::{SessionBlank, SessionChannels};
use session_state::SessionState;
use std::alloc::Global;
use tls_crypt::{StaticKey, Wrap, Wrapper};
use vpn_base::{Addr, Conn, Moment, NoMemory, Role, Sid, Timers};
use vpn_links::{Effect, Outbox};

// The reset of session 0 by this end's role.
fn first_reset(role: Role) -> Opcode
    ensures opcode { result ≡ first_reset role }
    ensures reset { IsReset result }
{
    match role {
        Role::Server => Opcode::ServerReset,
        Role::Client => Opcode::ClientReset,
    }
}

// The time of all own wraps: the second in which the session began, modulo 2^32.
fn wrap_time(now: Moment) -> u32
    ensures { result ≡ wrap_time now.0 }
{
    (now.0 / 1000 % 4_294_967_296) as u32
}

// What belongs to session 0.
fn first_text(
    alloc: Global,
    role: Role,
    timers: &Timers,
    conn: Conn,
) -> Result<SessionChannels, NoMemory>
    requires window { 1 ≤ timers.now.win }
    requires some_timeout { 1 ≤ timers.now.timeout }
    requires short_timeout { timers.now.timeout ≤ 60 }
    ensures { IfOk result (λ text. (moment : ℕ) → StandsFor text (session_begun timers.now conn 0 (first_reset role) moment)) }
{
    let blank = SessionBlank::make(alloc, timers)?;
    Ok(SessionChannels::begin(alloc, blank, conn, 0, first_reset(role)))
}

// A session of this envelope and of what belongs to session 0.
fn session_of<W: Wrap + Drop>(
    alloc: Global,
    role: Role,
    envelope: Envelope<W>,
    own: Sid,
    timers: Timers,
    text: SessionChannels,
    now: Moment,
) -> SessionState<W>
    requires window { 1 ≤ timers.win }
    requires some_timeout { 1 ≤ timers.timeout }
    requires short_timeout { timers.timeout ≤ 60 }
    ensures stands { (h : EnvelopeHistory) (s : Session) → EnvelopeStands W.wrapped envelope h → own ≡ h.own → StandsFor text s → IsFirst now.0 s →
        PeerStands W.wrapped result (peer_of role timers h s) }
    ensures goes_on { GoesOn result }
    ensures count { count result ≡ 1 }
    ensures since { since result ≡ 0 }
{
    let first = KeySession::begin(text, 0, now);
    SessionState {
        alloc,
        role,
        timers,
        own,
        envelope,
        remote: None,
        name: None,
        asks_push: false,
        slots: Slots::new(alloc, first),
        blank: None,
        is_over: false,
        since: Moment(0),
    }
}

// A server's session: its reset waits for the control packet that admits the client.
fn begin_server<W: Wrap + Drop>(
    alloc: Global,
    wrap: W,
    own: Sid,
    timers: Timers,
    conn: Conn,
    now: Moment,
    out: &mut Outbox,
) -> Result<SessionState<W>, NoMemory>
    requires window { 1 ≤ timers.win }
    requires some_timeout { 1 ≤ timers.timeout }
    requires short_timeout { timers.timeout ≤ 60 }
    ensures made { IfOk result (λ s. (to : Addr) → Leaves (PeerStands W.wrapped) s out.old out.new to (began Server (W.wrapped wrap) own timers conn now.0)) }
    ensures kept { OnErr result (Holds out.new out.old.effects out.old.staged) }
    ensures goes_on { IfOk result (λ s. GoesOn s) }
    ensures uses { Uses out.old out.new 1 0 }
    ensures first { IfOk result (λ s. count s ≡ 1) }
    ensures since { IfOk result (λ s. since s ≡ 0) }
{
    let envelope = Envelope::new(
        alloc,
        wrap,
        own,
        wrap_time(now),
        timers.win,
        timers.win_secs,
    )?;
    let text = first_text(alloc, Role::Server, &timers, conn)?;
    match out.add(&Effect::EngineOpen {
        conn,
        role: Role::Server,
    }) {
        Ok(()) => {}
        Err(NoMemory) => return Err(NoMemory),
    }
    Ok(session_of(alloc, Role::Server, envelope, own, timers, text, now))
}

// Stages the one control datagram of at most 1,200 bytes that is here.
fn stage_only(resets: &Outbox, to: Addr, out: &mut Outbox) -> Result<(), NoMemory>
    ensures staged { (datagrams : List (List ℕ)) → Holds resets.now (map on_wire (datagrams_to to datagrams)) [] →
        OnOk result (Holds out.new out.old.effects (out.old.staged ++ datagrams_to to datagrams)) }
    ensures kept { OnErr result (Holds out.new out.old.effects out.old.staged) }
    ensures uses { Uses out.old out.new 1 1200 }
{
    if resets.count() != 1 {
        return Err(NoMemory);
    }
    let bytes = match resets.effect(0) {
        Some(Effect::Wire { to: _, bytes }) => bytes,
        _ => return Err(NoMemory),
    };
    if bytes.len() > 1200 {
        return Err(NoMemory);
    }
    match out.stage(to, bytes) {
        Ok(()) => Ok(()),
        Err(NoMemory) => Err(NoMemory),
    }
}

// A client's session: its reset is sent at once.
fn begin_client<W: Wrap + Drop>(
    alloc: Global,
    wrap: W,
    own: Sid,
    timers: Timers,
    conn: Conn,
    now: Moment,
    to: Addr,
    out: &mut Outbox,
) -> Result<SessionState<W>, NoMemory>
    requires window { 1 ≤ timers.win }
    requires some_timeout { 1 ≤ timers.timeout }
    requires short_timeout { timers.timeout ≤ 60 }
    ensures made { IfOk result (λ s. Leaves (PeerStands W.wrapped) s out.old out.new to (began Client (W.wrapped wrap) own timers conn now.0)) }
    ensures kept { OnErr result (Holds out.new out.old.effects out.old.staged) }
    ensures goes_on { IfOk result (λ s. GoesOn s) }
    ensures uses { Uses out.old out.new 2 1200 }
    ensures first { IfOk result (λ s. count s ≡ 1) }
    ensures since { IfOk result (λ s. since s ≡ 0) }
{
    let mut envelope = Envelope::new(
        alloc,
        wrap,
        own,
        wrap_time(now),
        timers.win,
        timers.win_secs,
    )?;
    let mut text = first_text(alloc, Role::Client, &timers, conn)?;
    let mut resets = Outbox::make(alloc)?;
    match text.send_ready(&mut envelope, Sid([0; 8]), to, now, &mut resets) {
        Ok(()) => {}
        // No wrap id was used before, so this is want of memory.
        Err(_) => return Err(NoMemory),
    }
    resets.settle();
    match out.reserve(2, 1200) {
        Ok(()) => {}
        Err(NoMemory) => return Err(NoMemory),
    }
    match stage_only(&resets, to, out) {
        Ok(()) => {}
        Err(NoMemory) => return Err(NoMemory),
    }
    let added = out.add(&Effect::EngineOpen {
        conn,
        role: Role::Client,
    });
    prove!(added.is_ok());
    let _ = added;
    Ok(session_of(alloc, Role::Client, envelope, own, timers, text, now))
}

// A session whose key session 0 begins on this connection, which is opened, at this moment in milliseconds.
// The own session id, the timers and the half of the static key for this role are those of its packets.
pub(crate) fn begin(
    alloc: Global,
    role: Role,
    key: &StaticKey,
    own: Sid,
    timers: Timers,
    conn: Conn,
    now: Moment,
    to: Addr,
    out: &mut Outbox,
) -> Result<SessionState<Wrapper>, NoMemory>
    requires window { 1 ≤ timers.win }
    requires some_timeout { 1 ≤ timers.timeout }
    requires short_timeout { timers.timeout ≤ 60 }
    ensures made { IfOk result (λ s. Leaves SessionStands s out.old out.new to
        (began role (wrapped (keys_of (half key.now.0 (written_half role)))) own timers conn now.0)) }
    ensures kept { OnErr result (Holds out.new out.old.effects out.old.staged) }
    ensures goes_on { IfOk result (λ s. GoesOn s) }
    ensures uses { Uses out.old out.new 2 1200 }
    ensures first { IfOk result (λ s. count s ≡ 1) }
    ensures since { IfOk result (λ s. since s ≡ 0) }
{
    let wrap = Wrapper::new(key, role);
    match role {
        Role::Server => begin_server(alloc, wrap, own, timers, conn, now, out),
        Role::Client => begin_client(alloc, wrap, own, timers, conn, now, to, out),
    }
}
