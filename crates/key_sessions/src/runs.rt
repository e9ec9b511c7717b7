//! Whole runs of the key sessions of one client, whose texts are bare.

ghost use Rattle.std.specs.Prelude.{◌≡◌, ℕ, List, Option, IfOk, Some, None};
ghost use Rattle.vpn_base.specs.declared.names.Role.TheVariants.{Server};
ghost use Rattle.vpn_base.specs.declared.names.Sid.{Sid};
ghost use Rattle.tls_crypt.specs.Packets.{Wrapping};
ghost use Rattle.peer_table.specs.Peer.{Peer, peer_begun};
ghost use Rattle.peer_table.specs.KeySessions.{Session};
ghost use Rattle.std.specs.Option.{option_copied};
ghost use Rattle.vpn_base.specs.declared.names.Timers.{Timers};
ghost use Rattle.peer_table.specs.EngineAnswers.{kept_name};
ghost use Rattle.peer_table.specs.KeySessions.{newest_session, usable_with};
ghost use Rattle.key_sessions.specs.Slots.{IsWhole, SlotsStand, newest_name, newest_stage};
ghost use Rattle.key_sessions.specs.Runs.{answers_of, begun_at, event_comes, exchanged_at, kind_of, named_at, retired_by, usable_of};
ghost use Rattle.key_sessions.specs.BareTexts.{bare_stands};
ghost use Rattle.key_sessions.specs.internal.Courses.{Comes, IsAt, closing_told};

use crate::name::NameFault;
use crate::session::{KeySession, NoCipher};
use crate::slot::Stage;
use crate::slots::Slots;
use crate::text::SessionText;
use key_method2::Km2;
use std::alloc::Global;
use vpn_base::{Bytes, Conn, Moment, NoMemory, Or, Policy, Sid, Text, Timers};
use vpn_links::ControlText;

/// What comes to the key sessions of a client, in a run. An event that the newest session is not ready for
/// changes nothing.
#[derive(Drop)]
pub enum SlotEvent {
    /// The other end's name in the newest session.
    Name {
        /// The name, as the engine gives it.
        name: Bytes,
    },
    /// The key exchange of the newest session. Nothing comes of one whose client sends no pre-master secret.
    Exchange {
        /// The client's message.
        client: Km2,
        /// The server's message.
        server: Km2,
    },
    /// The next session begins.
    Begin {
        /// Its engine connection.
        conn: Conn,
    },
    /// A retired session is closed.
    Retire,
    /// A data packet of this key id asks for its session.
    Look {
        /// The key id.
        kid: u8,
    },
}

/// What an event of a run comes to.
#[derive(Clone, Copy, Debug, PartialEq, Eq)]
pub enum SlotAnswer {
    /// No more than what it does.
    Nothing,
    /// The name is refused.
    BadName(NameFault),
    /// The client offers no cipher of the policy.
    NoCipher,
    /// The session on this engine connection is closed.
    Closed(Conn),
    /// The session of this number may be used.
    Usable(u64),
}

/// The settings of a run.
#[derive(Clone, Copy, Debug, PartialEq, Eq)]
pub struct SlotSetup {
    /// The timers of the client.
    pub timers: Timers,
    /// How the ciphers are found.
    pub policy: Policy,
    /// The peer id of its data packets.
    pub peer_id: u32,
    /// The engine connection of session 0.
    pub conn: Conn,
    /// When session 0 begins.
    pub began: Moment,
    /// The session id of the client.
    pub client_sid: Sid,
    /// The session id of the server.
    pub server_sid: Sid,
}

/// A text that is no more than its engine connection.
#[derive(Drop)]
pub struct BareText {
    /// The engine connection.
    pub conn: Conn,
}

impl ControlText for BareText {
    ghost use Rattle.vpn_base.specs.declared.names.Conn.{Conn};
    ghost use Rattle.std.specs.Prelude.{[], ◌≡◌};

    ghost History = { Conn };

    ghost stands = { λ text conn. text.conn ≡ conn };

    ghost conn_of = { λ conn. conn };

    ghost read_of = { λ _. [] };

    ghost written_of = { λ _. [] };

    fn conn(&self) -> Conn {
        self.conn
    }

    fn read_count(&self) -> u64 {
        0
    }
}

impl SessionText for BareText {
    ghost stands_for = { bare_stands };

    ghost restaged = { λ text s stage none stands. stands };

    ghost on_link = { λ text s stands. (text.conn, (λ _. text.conn), stands) };
}

// How far the newest session has come.
#[tactic(auto, using(crate::proofs::Coming::kind_is))]
fn stage_now(slots: &Slots<BareText>) -> Stage
    ensures stage { result ≡ newest_stage slots.now }
    ensures kind { (ss : List Session) → SlotsStand bare_stands slots.now ss → kind_of (newest_session ss) ≡ result }
{
    slots.newest().stage
}

// The text of a closed session tells its connection.
fn closing(text: Option<BareText>) -> SlotAnswer
    ensures { result ≡ closing_told text }
{
    match text {
        None => SlotAnswer::Nothing,
        Some(text) => SlotAnswer::Closed(text.conn),
    }
}

// A name that is known.
fn lent(known: &Option<Text>) -> Option<&[u8]>
    ensures { option_copied result ≡ known.now }
{
    match known {
        None => None,
        Some(name) => Some(name.as_slice()),
    }
}

// A copy of the name of the newest session.
fn copy_name(alloc: Global, slots: &Slots<BareText>) -> Result<Text, NoMemory>
    ensures { IfOk result (λ copy. (name : List ℕ) → newest_name slots.now ≡ Some name → copy ≡ name) }
{
    match slots.name() {
        None => Text::copy(alloc, b""),
        Some(name) => Text::copy(alloc, name),
    }
}

// A name comes.
fn name_comes(
    alloc: Global,
    slots: &mut Slots<BareText>,
    known: &mut Option<Text>,
    name: &[u8],
) -> Result<SlotAnswer, NoMemory>
    ensures comes { IfOk result (λ answer. (timers : Timers) (p : Peer) → IsAt timers slots.old known.old p →
        Comes timers slots.new known.new answer (named_at p (kept_name name.now) (kind_of (newest_session p.sessions)))) }
    ensures whole { IsWhole slots.old → IsWhole slots.new }
{
    match stage_now(slots) {
        Stage::Opening => {}
        _ => return Ok(SlotAnswer::Nothing),
    }
    match slots.name_newest(name, lent(known)) {
        Ok(()) => {
            let copy = copy_name(alloc, slots)?;
            *known = Some(copy);
            Ok(SlotAnswer::Nothing)
        }
        Err(Or::Why(fault)) => Ok(SlotAnswer::BadName(fault)),
        Err(Or::Memory) => Err(NoMemory),
    }
}

// A key exchange comes.
fn exchange_comes(
    slots: &mut Slots<BareText>,
    setup: &SlotSetup,
    client: &Km2,
    server: &Km2,
) -> SlotAnswer
    requires { IsWhole slots.old }
    ensures comes { (known : Option (List ℕ)) (p : Peer) → IsAt setup.now.timers slots.old known p →
        Comes setup.now.timers slots.new known result (exchanged_at setup.now p client.now server.now (kind_of (newest_session p.sessions))) }
    ensures whole { IsWhole slots.new }
{
    match stage_now(slots) {
        Stage::Named => {}
        _ => return SlotAnswer::Nothing,
    }
    if client.source.pre.is_none() {
        return SlotAnswer::Nothing;
    }
    match slots.key_newest(
        client,
        server,
        &setup.policy,
        setup.client_sid,
        setup.server_sid,
    ) {
        Ok(closed) => closing(closed),
        Err(NoCipher) => SlotAnswer::NoCipher,
    }
}

// The next session begins.
fn begin_comes(slots: &mut Slots<BareText>, conn: Conn, now: Moment) -> Result<SlotAnswer, NoMemory>
    ensures comes { IfOk result (λ answer. (timers : Timers) (known : Option (List ℕ)) (p : Peer) → IsAt timers slots.old known p →
        Comes timers slots.new known answer (begun_at p conn now.0 (kind_of (newest_session p.sessions)))) }
    ensures whole { IsWhole slots.old → IsWhole slots.new }
{
    match stage_now(slots) {
        Stage::Keyed => {}
        _ => return Ok(SlotAnswer::Nothing),
    }
    let Some(number) = slots.newest().number.checked_add(1) else {
        return Err(NoMemory);
    };
    match slots.begin_next(KeySession::begin(BareText { conn }, number, now)) {
        Ok(()) => Ok(SlotAnswer::Nothing),
        Err((_, fault)) => Err(fault),
    }
}

// A session is retired.
fn retire_comes(slots: &mut Slots<BareText>, setup: &SlotSetup, now: Moment) -> SlotAnswer
    requires { IsWhole slots.old }
    ensures comes { (known : Option (List ℕ)) (p : Peer) → IsAt setup.now.timers slots.old known p →
        Comes setup.now.timers slots.new known result (retired_by p now.0) }
    ensures whole { IsWhole slots.new }
{
    closing(slots.close_retired(now, setup.timers.tran))
}

// A data packet asks for its session.
fn look_comes(slots: &Slots<BareText>, setup: &SlotSetup, kid: u8, now: Moment) -> SlotAnswer
    ensures { (p : Peer) → SlotsStand bare_stands slots.now p.sessions → p.timers ≡ setup.now.timers →
        result ≡ usable_of (usable_with p.timers now.0 p.sessions kid) }
{
    match slots.usable(kid, now, setup.timers.tran) {
        None => SlotAnswer::Nothing,
        Some(number) => SlotAnswer::Usable(number),
    }
}

// An event comes.
fn event_comes(
    alloc: Global,
    slots: &mut Slots<BareText>,
    known: &mut Option<Text>,
    setup: &SlotSetup,
    event: &SlotEvent,
    now: Moment,
) -> Result<SlotAnswer, NoMemory>
    requires { IsWhole slots.old }
    ensures comes { IfOk result (λ answer. (p : Peer) → IsAt setup.now.timers slots.old known.old p →
        Comes setup.now.timers slots.new known.new answer (event_comes setup.now p now.0 event.now)) }
    ensures whole { IsWhole slots.new }
{
    match event {
        SlotEvent::Name { name } => name_comes(alloc, slots, known, name.as_slice()),
        SlotEvent::Exchange { client, server } => {
            Ok(exchange_comes(slots, setup, client, server))
        }
        SlotEvent::Begin { conn } => begin_comes(slots, *conn, now),
        SlotEvent::Retire => Ok(retire_comes(slots, setup, now)),
        SlotEvent::Look { kid } => Ok(look_comes(slots, setup, *kid, now)),
    }
}

// All events come, one after the other.
fn events_come(
    alloc: Global,
    slots: &mut Slots<BareText>,
    setup: &SlotSetup,
    events: &[(SlotEvent, Moment)],
) -> Result<Vec<SlotAnswer>, NoMemory>
    requires { IsWhole slots.old }
    ensures { IfOk result (λ answers. (p : Peer) → IsAt setup.now.timers slots.old None p → answers.items ≡ answers_of setup.now p events.now) }
{
    let mut known = None;
    let mut answers = Vec::new(alloc);
    for (event, now) in events {
        let answer = match event_comes(alloc, slots, &mut known, setup, event, *now) {
            Ok(answer) => answer,
            Err(fault) => return Err(fault),
        };
        answers.push(answer)?;
    }
    Ok(answers)
}

/// A run of the key sessions of a fresh client: the events come one after the other, each with its moment,
/// and the answers are those of each in order, as the list of all its sessions has them.
pub fn run_slots(
    alloc: Global,
    setup: &SlotSetup,
    events: &[(SlotEvent, Moment)],
) -> Result<Vec<SlotAnswer>, NoMemory>
    ensures { IfOk result (λ answers. (wraps : Wrapping) (own : Sid) →
        answers.items ≡ answers_of setup.now (peer_begun Server wraps own setup.now.timers setup.now.conn setup.now.began.0) events.now) }
{
    let text = BareText { conn: setup.conn };
    let mut slots = Slots::new(alloc, KeySession::begin(text, 0, setup.began));
    match events_come(alloc, &mut slots, setup, events) {
        Ok(answers) => Ok(answers),
        Err(fault) => Err(fault),
    }
}
