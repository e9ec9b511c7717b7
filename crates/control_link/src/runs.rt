//! Whole runs of a fresh link.

ghost use Rattle.std.specs.Prelude.{◌≡◌, ◌++◌, ◌<◌, ◌≤◌, ℕ, List, [], length, false, None, IfOk, OnOk};
ghost use Rattle.std.specs.List.{concat};
ghost use Rattle.reliable_recv.specs.Receiving.{text_of};
ghost use Rattle.control_link.specs.Envelope.{EnvelopeHistory, EnvelopeStands, envelope_begun};
ghost use Rattle.control_link.specs.Links.{IsReset, Link, LinkStands, link_begun};
ghost use Rattle.control_link.specs.Calls.{Left, Told, datagrams_to};
ghost use Rattle.control_link.specs.Reading.{read_here, texts_here};
ghost use Rattle.control_link.specs.Runs.{Course, after_event, arrivals_in, course_of, event_comes};
ghost use Rattle.control_link.specs.internal.Courses.{IsAt};

use crate::envelope::Envelope;
use crate::laws::reads_what_is_given;
use crate::link::{ControlLink, LinkEnd};
use opcode_codec::{Opcode, read_control};
use std::alloc::Global;
use tls_crypt::Wrap;
use vpn_base::{Addr, Bytes, Conn, Moment, NoMemory, Or, Sid};
use vpn_links::Outbox;

// No more payloads than so many are here at once: what a receiving side takes lies less than 12 ahead.
const MOST_HERE: usize = 12;

/// What comes to a link, in a run.
#[derive(Drop)]
pub enum LinkEvent {
    /// Text to be sent is offered.
    Say {
        /// The text.
        bytes: Bytes,
    },
    /// A control packet was unwrapped. Bytes that are no plain text of its opcode change nothing.
    Packet {
        /// Its opcode.
        op: Opcode,
        /// Its plain text.
        plain: Bytes,
    },
    /// Time has passed.
    Tick,
}

/// The settings of a link in a run.
#[derive(Clone, Copy, Debug, PartialEq, Eq)]
pub struct LinkSetup {
    /// The engine connection.
    pub conn: Conn,
    /// The key id, below 8.
    pub kid: u8,
    /// The reset that begins the key session.
    pub first: Opcode,
    /// Seconds from the first sending of a piece to the next, 1 to 60.
    pub timeout_secs: u32,
    /// The session id of this end.
    pub own: Sid,
    /// The time of all own wraps, in seconds.
    pub time: u32,
    /// The session id of the other end.
    pub remote: Sid,
    /// Where the datagrams go.
    pub to: Addr,
}

/// What a run has come to: its control datagrams, staged in an outbox, and the text that was read.
#[derive(Drop)]
pub struct LinkRun {
    /// The control datagrams, staged in order.
    pub outbox: Outbox,
    /// The text that was read.
    pub text: Bytes,
}

// Reads the payloads of the text that are here, no more than so many, and adds them.
pub(crate) fn read_texts(
    most: usize,
    link: &mut ControlLink,
    text: &mut Vec<u8>,
) -> Result<(), NoMemory>
    ensures stands { OnOk result ((l : Link) → LinkStands link.old l → LinkStands link.new (read_here most l)) }
    ensures text { OnOk result ((l : Link) → LinkStands link.old l → text.new.items ≡ text.old.items ++ concat (texts_here most l)) }
    ensures spent { link.new.spent ≡ link.old.spent }
{
    if most == 0 {
        return Ok(());
    }
    match link.next_in_order() {
        None => Ok(()),
        Some(payload) => {
            text.extend_from_slice(payload.as_slice())?;
            read_texts(most - 1, link, text)
        }
    }
}

// One event comes.
fn take_event<W: Wrap + Drop>(
    link: &mut ControlLink,
    env: &mut Envelope<W>,
    setup: &LinkSetup,
    event: &LinkEvent,
    now: Moment,
    out: &mut Outbox,
) -> Result<(), Or<LinkEnd>>
    requires open { link.old.spent ≡ false }
    ensures left { OnOk result ((l : Link) → (h : EnvelopeHistory) → LinkStands link.old l → EnvelopeStands W.wrapped env.old h →
        Left W.wrapped link.new env.new out.old out.new setup.now.to (event_comes l h event.now setup.now.remote now.0)) }
    ensures answer { (l : Link) → (h : EnvelopeHistory) → LinkStands link.old l → EnvelopeStands W.wrapped env.old h →
        Told result (event_comes l h event.now setup.now.remote now.0).end }
    ensures open { OnOk result (link.new.spent ≡ false) }
{
    match event {
        LinkEvent::Say { bytes } => {
            match link.say(bytes.as_slice(), env, setup.remote, setup.to, now, out) {
                Ok(()) => Ok(()),
                Err(fault) => Err(fault),
            }
        }
        LinkEvent::Packet { op, plain } => match read_control(plain.as_slice(), *op) {
            Ok(view) => match link.on_packet(&view, env, setup.remote, setup.to, now, out) {
                Ok(_) => Ok(()),
                Err(fault) => Err(fault),
            },
            Err(_) => Ok(()),
        },
        LinkEvent::Tick => match link.tick(env, setup.remote, setup.to, now, out) {
            Ok(()) => Ok(()),
            Err(fault) => Err(fault),
        },
    }
}

// One event comes, and then every payload of the text is read that is here.
#[tactic(auto, unfolding(crate::specs::Runs::after_event))]
fn step<W: Wrap + Drop>(
    link: &mut ControlLink,
    env: &mut Envelope<W>,
    setup: &LinkSetup,
    event: &LinkEvent,
    now: Moment,
    out: &mut Outbox,
    text: &mut Vec<u8>,
) -> Result<(), Or<LinkEnd>>
    requires open { link.old.spent ≡ false }
    ensures at { OnOk result ((c : Course) → IsAt W.wrapped link.old env.old out.old text.old.items setup.now.to c →
        IsAt W.wrapped link.new env.new out.new text.new.items setup.now.to (after_event setup.now.remote c (event.now, now))) }
    ensures ended { (c : Course) → IsAt W.wrapped link.old env.old out.old text.old.items setup.now.to c → c.end ≡ None →
        Told result (after_event setup.now.remote c (event.now, now)).end }
    ensures open { OnOk result (link.new.spent ≡ false) }
{
    match take_event(link, env, setup, event, now, out) {
        Ok(()) => {}
        Err(fault) => return Err(fault),
    }
    match read_texts(MOST_HERE, link, text) {
        Ok(()) => Ok(()),
        Err(NoMemory) => Err(Or::Memory),
    }
}

/// A run of a fresh link and envelope: the events come one after the other, each with its moment, and
/// after each every payload of the text is read that is here. The control datagrams stay staged, and the
/// text is that of the packets that came. The run ends early, by the first event that ends so: TextFull
/// where text is offered for which there is no room, WrapSpent where the wrap ids end.
pub fn run_link<W: Wrap + Drop>(
    alloc: Global,
    wrap: W,
    setup: &LinkSetup,
    events: &[(LinkEvent, Moment)],
) -> Result<LinkRun, Or<LinkEnd>>
    requires kid { setup.now.kid < 8 }
    requires first { IsReset setup.now.first }
    requires some { 1 ≤ setup.now.timeout_secs }
    requires most { setup.now.timeout_secs ≤ 60 }
    ensures staged { IfOk result (λ r. r.outbox.staged ≡ datagrams_to setup.now.to (course_of (W.wrapped wrap) setup.now events.now).datagrams) }
    ensures text { IfOk result (λ r. r.text ≡ text_of (arrivals_in events.now)) }
    ensures ended { Told result (course_of (W.wrapped wrap) setup.now events.now).end }
{
    reads_what_is_given();
    let mut link = match ControlLink::new(
        alloc,
        setup.conn,
        setup.kid,
        setup.first,
        setup.timeout_secs,
    ) {
        Ok(link) => link,
        Err(NoMemory) => return Err(Or::Memory),
    };
    let mut env = match Envelope::new(alloc, wrap, setup.own, setup.time, 1, 0) {
        Ok(env) => env,
        Err(NoMemory) => return Err(Or::Memory),
    };
    let mut outbox = match Outbox::make(alloc) {
        Ok(outbox) => outbox,
        Err(NoMemory) => return Err(Or::Memory),
    };
    let mut text = Vec::new(alloc);
    for (event, now) in events {
        match step(
            &mut link,
            &mut env,
            setup,
            event,
            *now,
            &mut outbox,
            &mut text,
        ) {
            Ok(()) => {}
            Err(fault) => return Err(fault),
        }
    }
    Ok(LinkRun {
        outbox,
        text: Bytes::of(text),
    })
}
