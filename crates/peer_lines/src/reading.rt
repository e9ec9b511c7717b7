//! Control packets of one key session, and the text that they bring to the TLS engine.

ghost use Rattle.std.specs.Prelude.{◌≡◌, ◌≤◌, ◌<◌, ◌+◌, ◌*◌, ◌^◌, ℕ, [], ◌∷◌, ◌++◌, length, false, max, None, IsOk, IfOk, IfSome, IfNone, OnOk, OnErr};
ghost use Rattle.vpn_base.specs.declared.names.Role.{Role};
ghost use Rattle.vpn_links.specs.Actions.{Holds};
ghost use Rattle.opcode_codec.specs.ControlText.{control_form};
ghost use Rattle.reliable_send.specs.Sides.{IsNotMemory};
ghost use Rattle.control_link.specs.Calls.{Left, Told, received, tells_spent, unchanged};
ghost use Rattle.control_link.specs.Envelope.{EnvelopeHistory, EnvelopeStands};
ghost use Rattle.control_link.specs.Links.{Link, LinkStands};
ghost use Rattle.control_link.specs.Reading.{read_here, texts_here};
ghost use Rattle.peer_table.specs.ControlPackets.{most_in_order, puts};
ghost use Rattle.peer_table.specs.KeySessions.{Session};
ghost use Rattle.peer_table.specs.Outboxes.{HasRoom, Uses, actions_of};
ghost use Rattle.peer_lines.specs.Calls.{Leaves, packet_taken, still, unless_wanting};
ghost use Rattle.peer_lines.specs.Standing.{NoneIsLonger, StandsFor, has_data};
ghost use Rattle.peer_lines.specs.internal.Packets.{end_in};
ghost use Rattle.peer_lines.specs.Rooms.{longest, payload_room};

use crate::channels::SessionChannels;
use crate::open_link::OpenLink;
use control_link::{ControlLink, Envelope, LinkEnd};
use opcode_codec::ControlView;
use reliable_recv::Got;
use tls_crypt::Wrap;
use vpn_base::{Addr, Conn, Moment, NoMemory, Or, Sid};
use vpn_links::{ControlText, Effect, Outbox};

// No more payloads than so many are in order once a packet was taken.
const MOST_PUT: usize = 12;

// As many effects and datagrams come of a packet at most: 6 datagrams, and each payload.
const MOST: usize = 18;

// As many bytes have the datagrams at most.
const SENT_BYTES: usize = 7_200;

// Puts a payload to the engine, if it is not empty.
fn put_text(conn: Conn, payload: &[u8], out: &mut Outbox) -> Result<(), NoMemory>
    ensures put { OnOk result ((end : Role) → Holds out.new (out.old.effects ++ actions_of end (puts conn (payload.now ∷ []))) out.old.staged) }
    ensures fits { 1 ≤ out.old.spare_effects → length payload.now ≤ out.old.spare_bytes → IsOk result }
    ensures uses { (out.old.spare_effects ≤ out.new.spare_effects + 1) × (out.old.spare_bytes ≤ out.new.spare_bytes + length payload.now) }
{
    if let [] = payload {
        return Ok(());
    }
    match out.add(&Effect::EnginePut {
        conn,
        bytes: payload,
    }) {
        Ok(()) => Ok(()),
        Err(NoMemory) => Err(NoMemory),
    }
}

// Puts the payloads of the text that are here to the engine, no more than so many, of no more than so many bytes each.
fn put_texts(
    most: usize,
    longest: usize,
    conn: Conn,
    link: &mut ControlLink,
    out: &mut Outbox,
) -> Result<(), NoMemory>
    ensures stands { OnOk result ((l : Link) → LinkStands link.old l → LinkStands link.new (read_here most l)) }
    ensures put { OnOk result ((l : Link) (end : Role) → LinkStands link.old l →
        Holds out.new (out.old.effects ++ actions_of end (puts conn (texts_here most l))) out.old.staged) }
    ensures fits { (l : Link) → LinkStands link.old l → NoneIsLonger longest l.receiving.taken →
        most ≤ out.old.spare_effects → most * longest ≤ out.old.spare_bytes → IsOk result }
    ensures uses { (out.old.spare_effects ≤ out.new.spare_effects + most) × (out.old.spare_bytes ≤ out.new.spare_bytes + most * longest) }
    ensures spent { link.new.spent ≡ link.old.spent }
    ensures spare { (link.old.receiving.spare ≤ link.new.receiving.spare) × (link.old.sending.spare ≤ link.new.sending.spare) }
{
    if most == 0 {
        return Ok(());
    }
    match link.next_in_order() {
        None => Ok(()),
        Some(payload) => {
            let payload = payload.as_slice();
            if longest < payload.len() {
                return Err(NoMemory);
            }
            match put_text(conn, payload, out) {
                Ok(()) => {}
                Err(NoMemory) => return Err(NoMemory),
            }
            put_texts(most - 1, longest, conn, link, out)
        }
    }
}

// Puts the payloads of the text that are in order to the engine, of no more than so many bytes each.
fn put_here(link: &mut OpenLink, longest: usize, out: &mut Outbox) -> Result<(), NoMemory>
    ensures stands { OnOk result ((l : Link) → LinkStands link.old l → LinkStands link.new (read_here most_in_order l)) }
    ensures put { OnOk result ((l : Link) (end : Role) → LinkStands link.old l →
        Holds out.new (out.old.effects ++ actions_of end (puts l.conn (texts_here most_in_order l))) out.old.staged) }
    ensures fits { (l : Link) → LinkStands link.old l → NoneIsLonger longest l.receiving.taken →
        12 ≤ out.old.spare_effects → 12 * longest ≤ out.old.spare_bytes → IsOk result }
    ensures uses { (out.old.spare_effects ≤ out.new.spare_effects + 12) × (out.old.spare_bytes ≤ out.new.spare_bytes + 12 * longest) }
{
    let conn = link.link.conn();
    put_texts(MOST_PUT, longest, conn, &mut link.link, out)
}

// Whether an answer to a packet says that the wrap ids ended.
fn ends(answer: &Result<Got, Or<LinkEnd>>) -> bool
    ensures { result ≡ tells_spent answer.now }
{
    match answer {
        Ok(_) => false,
        Err(Or::Memory) => false,
        Err(Or::Why(LinkEnd::TextFull)) => false,
        Err(Or::Why(LinkEnd::WrapSpent)) => true,
    }
}

// A control packet comes to the link.
fn take_packet<W: Wrap + Drop>(
    link: &mut OpenLink,
    view: &ControlView<'_>,
    env: &mut Envelope<W>,
    remote: Sid,
    to: Addr,
    now: Moment,
    out: &mut Outbox,
) -> Result<Option<LinkEnd>, NoMemory>
    requires acks { view.now.acks.count ≤ 8 }
    ensures taken { link.old.spent ≡ false → (l : Link) → (h : EnvelopeHistory) → LinkStands link.old l → EnvelopeStands W.wrapped env.old h →
        OnOk result (Left W.wrapped link.new env.new out.old out.new to (received l h (control_form view.now) remote now.0)) }
    ensures kept { link.old.spent ≡ false → (l : Link) → (h : EnvelopeHistory) → LinkStands link.old l → EnvelopeStands W.wrapped env.old h →
        OnErr result (Left W.wrapped link.new env.new out.old out.new to (unchanged l h None)) }
    ensures end { link.old.spent ≡ false → (l : Link) → (h : EnvelopeHistory) → LinkStands link.old l → EnvelopeStands W.wrapped env.old h →
        IfOk result (λ end. (received l h (control_form view.now) remote now.0).end ≡ end) }
    ensures fits { HasRoom out.old 6 7200 → length view.now.payload.now ≤ link.old.receiving.spare → IsOk result }
    ensures uses { Uses out.old out.new 6 7200 }
{
    if link.spent {
        return Ok(Some(LinkEnd::WrapSpent));
    }
    let answer = link.link.on_packet(view, env, remote, to, now, out);
    link.spent = ends(&answer);
    end_of(answer)
}

// The end that an answer to a packet tells, if it tells one.
fn end_of(answer: Result<Got, Or<LinkEnd>>) -> Result<Option<LinkEnd>, NoMemory>
    ensures { result ≡ end_in answer }
{
    match answer {
        Ok(_) => Ok(None),
        Err(Or::Why(end)) => Ok(Some(end)),
        Err(Or::Memory) => Err(NoMemory),
    }
}

impl SessionChannels {
    /// For how many bytes an outbox has to have room, beside 18 effects, so that a control packet with a payload of so
    /// many bytes takes no memory. None comes where that is no number of bytes.
    #[tactic(auto, unfolding(crate::specs::Rooms::longest))]
    pub fn packet_room(&self, payload: usize) -> Option<usize>
        ensures room { IfSome result (λ n. n ≡ 7200 + 12 * max (longest self.now) payload) }
        ensures none { IfNone result (2 ^ 64 ≤ 7200 + 12 * max (longest self.now) payload) }
    {
        let texts = match MOST_PUT.checked_mul(self.longest.max(payload)) {
            None => return None,
            Some(texts) => texts,
        };
        texts.checked_add(SENT_BYTES)
    }

    /// Takes a control packet: its acknowledgements count, its payload is held, it is acknowledged, what may be sent is
    /// sent, and each payload that is in order now and not empty is put to the engine, as an effect. It takes no memory
    /// where the payload fits the room that was taken ahead, and the outbox has room for 18 effects and the bytes of
    /// `packet_room`.
    #[tactic(auto, unfolding(crate::specs::Standing::has_data))]
    pub fn on_packet<W: Wrap + Drop>(
        &mut self,
        view: &ControlView<'_>,
        env: &mut Envelope<W>,
        remote: Sid,
        to: Addr,
        now: Moment,
        out: &mut Outbox,
    ) -> Result<(), Or<LinkEnd>>
        requires acks { view.now.acks.count ≤ 8 }
        ensures left { (s : Session) → (h : EnvelopeHistory) → StandsFor self.old s → s.link.spent ≡ false → EnvelopeStands W.wrapped env.old h →
            Leaves W.wrapped self.new env.new out.old out.new to (unless_wanting result (packet_taken s h (control_form view.now) remote now.0) (still s h)) }
        ensures answer { (s : Session) → (h : EnvelopeHistory) → StandsFor self.old s → s.link.spent ≡ false → EnvelopeStands W.wrapped env.old h →
            Told result (packet_taken s h (control_form view.now) remote now.0).end }
        ensures fits { (room : ℕ) → room < 2 ^ 64 → 7200 + 12 * max (longest self.old) (length view.now.payload.now) ≤ room →
            HasRoom out.old 18 room → length view.now.payload.now ≤ payload_room self.old → IsNotMemory result }
        ensures uses { Uses out.old out.new 18 (7200 + 12 * max (longest self.old) (length view.now.payload.now)) }
        ensures there { has_data self.new ≡ has_data self.old }
    {
        let room = match self.packet_room(view.payload.len()) {
            None => return Err(Or::Memory),
            Some(room) => room,
        };
        match out.reserve(MOST, room) {
            Ok(()) => {}
            Err(NoMemory) => return Err(Or::Memory),
        }
        let end = match take_packet(&mut self.link, view, env, remote, to, now, out) {
            Ok(end) => end,
            Err(NoMemory) => return Err(Or::Memory),
        };
        self.longest = self.longest.max(view.payload.len());
        // No payload is longer than the longest, so the room is there and this does not fail.
        let _ = put_here(&mut self.link, self.longest, out);
        match end {
            None => Ok(()),
            Some(end) => Err(Or::Why(end)),
        }
    }
}
