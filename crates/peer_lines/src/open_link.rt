//! A control link that refuses to go on once the wrap ids ended.

ghost use Rattle.std.specs.Prelude.{◌≡◌, ◌≤◌, ◌+◌, ℕ, List, [], length, false, None, IsOk, OnOk};
ghost use Rattle.reliable_send.specs.Sending.{cut, piece_count};
ghost use Rattle.reliable_send.specs.Sides.{IsNotMemory};
ghost use Rattle.control_link.specs.Calls.{Left, Told, said, tells_spent, ticked, unchanged, unless_memory, with_ready};
ghost use Rattle.control_link.specs.Envelope.{EnvelopeHistory, EnvelopeStands};
ghost use Rattle.control_link.specs.Links.{Link, LinkStands, read_of};
ghost use Rattle.peer_table.specs.Outboxes.{HasRoom, Uses};

use control_link::{ControlLink, Envelope, LinkEnd};
use std::marker::Model;
use tls_crypt::Wrap;
use vpn_base::{Addr, Conn, Moment, NoMemory, Or, Sid};
use vpn_links::{ControlText, Outbox};

// A control link, and whether the wrap ids ended on it. Contracts see the link.
#[derive(Drop)]
pub(crate) struct OpenLink {
    pub(crate) link: ControlLink,
    pub(crate) spent: bool,
}

impl Model for OpenLink {
    ghost use Rattle.std.specs.Prelude.{◌≡◌};
    ghost use Rattle.control_link.specs.Links.{KeptLink};

    ghost Value = { KeptLink };

    ghost view = { λ o. o.link };

    ghost invariant = { λ o. o.link.spent ≡ o.spent };
}

// Whether an answer says that the wrap ids ended.
fn ends(answer: &Result<(), Or<LinkEnd>>) -> bool
    ensures { result ≡ tells_spent answer.now }
{
    match answer {
        Ok(()) => false,
        Err(Or::Memory) => false,
        Err(Or::Why(LinkEnd::TextFull)) => false,
        Err(Or::Why(LinkEnd::WrapSpent)) => true,
    }
}

impl OpenLink {
    pub(crate) fn of(link: ControlLink) -> OpenLink
        requires { link.spent ≡ false }
        ensures { result ≡ link }
    {
        OpenLink { link, spent: false }
    }

    pub(crate) fn conn(&self) -> Conn
        ensures { (l : Link) → LinkStands self.now l → result ≡ l.conn }
    {
        self.link.conn()
    }

    pub(crate) fn read_count(&self) -> u64
        ensures { (l : Link) → LinkStands self.now l → result ≡ length (read_of l) }
    {
        self.link.read_count()
    }

    pub(crate) fn reserve_payload(&mut self, bytes: usize) -> Result<(), NoMemory>
        ensures same { (l : Link) → LinkStands self.old l → LinkStands self.new l }
        ensures ok { OnOk result (bytes ≤ self.new.receiving.spare) }
        ensures fits { bytes ≤ self.old.receiving.spare → IsOk result }
        ensures grows { (self.old.receiving.spare ≤ self.new.receiving.spare) × (self.old.sending.spare ≤ self.new.sending.spare) }
    {
        self.link.reserve_payload(bytes)
    }

    pub(crate) fn reserve_text(&mut self, bytes: usize) -> Result<(), NoMemory>
        ensures same { (l : Link) → LinkStands self.old l → LinkStands self.new l }
        ensures ok { OnOk result (piece_count bytes ≤ self.new.sending.spare) }
        ensures enough { OnOk result ((text : List ℕ) → length text ≤ bytes → length (cut text) ≤ self.new.sending.spare) }
        ensures fits { piece_count bytes ≤ self.old.sending.spare → IsOk result }
        ensures grows { (self.old.receiving.spare ≤ self.new.receiving.spare) × (self.old.sending.spare ≤ self.new.sending.spare) }
    {
        self.link.reserve_text(bytes)
    }

    pub(crate) fn say<W: Wrap + Drop>(
        &mut self,
        bytes: &[u8],
        env: &mut Envelope<W>,
        remote: Sid,
        to: Addr,
        now: Moment,
        out: &mut Outbox,
    ) -> Result<(), Or<LinkEnd>>
        ensures left { self.old.spent ≡ false → (l : Link) → (h : EnvelopeHistory) → LinkStands self.old l → EnvelopeStands W.wrapped env.old h →
            Left W.wrapped self.new env.new out.old out.new to (unless_memory result (said l h bytes.now remote now.0) (unchanged l h None)) }
        ensures answer { self.old.spent ≡ false → (l : Link) → (h : EnvelopeHistory) → LinkStands self.old l → EnvelopeStands W.wrapped env.old h →
            Told result (said l h bytes.now remote now.0).end }
        ensures fits { HasRoom out.old 6 7200 → length (cut bytes.now) ≤ self.old.sending.spare → IsNotMemory result }
        ensures uses { Uses out.old out.new 6 7200 }
        ensures spare { self.old.receiving.spare ≤ self.new.receiving.spare }
    {
        if self.spent {
            return Err(Or::Why(LinkEnd::WrapSpent));
        }
        let answer = self.link.say(bytes, env, remote, to, now, out);
        self.spent = ends(&answer);
        answer
    }

    pub(crate) fn send_ready<W: Wrap + Drop>(
        &mut self,
        env: &mut Envelope<W>,
        remote: Sid,
        to: Addr,
        now: Moment,
        out: &mut Outbox,
    ) -> Result<(), Or<LinkEnd>>
        ensures left { self.old.spent ≡ false → (l : Link) → (h : EnvelopeHistory) → LinkStands self.old l → EnvelopeStands W.wrapped env.old h →
            Left W.wrapped self.new env.new out.old out.new to (unless_memory result (with_ready l h [] remote now.0) (unchanged l h None)) }
        ensures answer { self.old.spent ≡ false → (l : Link) → (h : EnvelopeHistory) → LinkStands self.old l → EnvelopeStands W.wrapped env.old h →
            Told result (with_ready l h [] remote now.0).end }
        ensures fits { HasRoom out.old 6 7200 → IsNotMemory result }
        ensures uses { Uses out.old out.new 6 7200 }
        ensures spare { (self.old.receiving.spare ≤ self.new.receiving.spare) × (self.old.sending.spare ≤ self.new.sending.spare) }
    {
        if self.spent {
            return Err(Or::Why(LinkEnd::WrapSpent));
        }
        let answer = self.link.send_ready(env, remote, to, now, out);
        self.spent = ends(&answer);
        answer
    }

    pub(crate) fn tick<W: Wrap + Drop>(
        &mut self,
        env: &mut Envelope<W>,
        remote: Sid,
        to: Addr,
        now: Moment,
        out: &mut Outbox,
    ) -> Result<(), Or<LinkEnd>>
        ensures left { self.old.spent ≡ false → (l : Link) → (h : EnvelopeHistory) → LinkStands self.old l → EnvelopeStands W.wrapped env.old h →
            Left W.wrapped self.new env.new out.old out.new to (unless_memory result (ticked l h remote now.0) (unchanged l h None)) }
        ensures answer { self.old.spent ≡ false → (l : Link) → (h : EnvelopeHistory) → LinkStands self.old l → EnvelopeStands W.wrapped env.old h →
            Told result (ticked l h remote now.0).end }
        ensures fits { HasRoom out.old 6 7200 → IsNotMemory result }
        ensures uses { Uses out.old out.new 6 7200 }
        ensures spare { (self.old.receiving.spare ≤ self.new.receiving.spare) × (self.old.sending.spare ≤ self.new.sending.spare) }
    {
        if self.spent {
            return Err(Or::Why(LinkEnd::WrapSpent));
        }
        let answer = self.link.tick(env, remote, to, now, out);
        self.spent = ends(&answer);
        answer
    }
}
