//! Sending the control packets of one key session.

ghost use Rattle.std.specs.Prelude.{◌≡◌, ◌≢◌, ◌+◌, ◌-◌, ◌*◌, ◌^◌, ◌<◌, ◌≤◌, ℕ, List, [], ◌∷◌, ◌++◌, length, take, Bool, Some, IfSome, OnOk, OnErr};
ghost use Rattle.vpn_links.specs.Actions.{Datagram, Holds};
ghost use Rattle.opcode_codec.specs.declared.opcodes.Opcode.TheVariants.{Ack, DataV2};
ghost use Rattle.opcode_codec.specs.ControlText.{control_text, sent_form};
ghost use Rattle.reliable_send.specs.Sending.{Sending, Numbered, sent};
ghost use Rattle.reliable_send.specs.Sides.{Side, Stands, first_id, first_of, seen_piece};
ghost use Rattle.control_link.specs.Envelope.{EnvelopeHistory, EnvelopeStands, with_used};
ghost use Rattle.control_link.specs.Messages.{Flush, Message, datagram, ack_message, piece_message, flushed, send_ack, send_pieces};
ghost use Rattle.vpn_base.specs.Acks.{acked};
ghost use Rattle.control_link.specs.Links.{IsReset};
ghost use Rattle.control_link.specs.internal.Sending.{Sent, SentOne, head_in, pending};

use crate::envelope::Envelope;
use opcode_codec::{Opcode, first_byte, write_control};
use packet_ids::Spent;
use reliable_send::{Piece, SendSide, due_shrinks, ready_shrinks, timeout_is_kept};
use tls_crypt::Wrap;
use vpn_base::{Acks, Addr, Moment, Sid};
use vpn_links::Outbox;

/// The most pieces that one step sends.
pub(crate) const MOST: usize = 6;

/// Room for one control datagram: a piece of 1,100 bytes, 8 acknowledgements, and what stands in front.
pub(crate) const ROOM: usize = 1200;

// Room for its plain text.
const PLAIN: usize = 1150;

/// No acknowledgements.
pub(crate) const NO_ACKS: Acks = Acks {
    count: 0,
    ids: [0; 8],
};

/// What all control packets of a key session have in common.
#[derive(Clone, Copy)]
pub(crate) struct Route {
    /// The key id.
    pub(crate) kid: u8,
    /// The opcode of piece 0.
    pub(crate) first: Opcode,
    /// The session id of the other end.
    pub(crate) remote: Sid,
    /// Where the datagrams go.
    pub(crate) to: Addr,
}

// Stages one control packet under the next wrap id.
fn stage_one<W: Wrap + Drop>(
    env: &mut Envelope<W>,
    route: &Route,
    op: Opcode,
    acks: &Acks,
    id: u32,
    payload: &[u8],
    out: &mut Outbox,
) -> Result<(), Spent>
    requires kid { route.now.kid < 8 }
    requires acks { acks.now.count ≤ 8 }
    requires payload { length payload.now ≤ 1100 }
    requires effects { 1 ≤ out.old.spare_effects }
    requires bytes { 1200 ≤ out.old.spare_bytes }
    ensures sent { (h : EnvelopeHistory) → EnvelopeStands W.wrapped env.old h →
        SentOne W.wrapped env.new out.old out.new route.now h (record { op = op; form = sent_form op acks.now route.now.remote id payload.now }) result }
    ensures spare { (out.old.spare_effects ≤ out.new.spare_effects + 1) × (out.old.spare_bytes ≤ out.new.spare_bytes + 1200) }
{
    let mut plain = [0; PLAIN];
    let plain_len = write_control(op, acks, route.remote, id, payload, &mut plain);
    let mut bytes = [0; ROOM];
    match env.wrap_next(first_byte(op, route.kid), &plain[..plain_len], &mut bytes) {
        Ok(len) => {
            let staged = out.stage(route.to, &bytes[..len]);
            prove!(staged.is_ok());
            let _ = staged;
            Ok(())
        }
        Err(Spent) => Err(Spent),
    }
}

/// The ids that are acknowledged.
pub(crate) fn acked_ids(acks: &Acks) -> &[u32]
    requires { acks.now.count ≤ 8 }
    ensures value { result.now ≡ acked acks.now }
    ensures count { length (acked acks.now) ≡ acks.now.count }
{
    &acks.ids[..usize::from(acks.count)]
}

// Stages a piece, with these acknowledgements.
fn stage_piece<W: Wrap + Drop>(
    env: &mut Envelope<W>,
    route: &Route,
    acks: &Acks,
    id: u32,
    payload: &[u8],
    out: &mut Outbox,
) -> Result<(), Spent>
    requires kid { route.now.kid < 8 }
    requires first { IsReset route.now.first }
    requires acks { acks.now.count ≤ 8 }
    requires payload { length payload.now ≤ 1100 }
    requires effects { 1 ≤ out.old.spare_effects }
    requires bytes { 1200 ≤ out.old.spare_bytes }
    ensures sent { (h : EnvelopeHistory) → EnvelopeStands W.wrapped env.old h →
        SentOne W.wrapped env.new out.old out.new route.now h (piece_message (head_in route.now) (acked acks.now) (id, payload.now)) result }
    ensures spare { (out.old.spare_effects ≤ out.new.spare_effects + 1) × (out.old.spare_bytes ≤ out.new.spare_bytes + 1200) }
{
    prove!(acked_ids(acks).len() <= 8);
    let op = if id == 0 {
        route.first
    } else {
        Opcode::Control
    };
    stage_one(env, route, op, acks, id, payload, out)
}

// Stages acknowledgements alone.
fn stage_ack<W: Wrap + Drop>(
    env: &mut Envelope<W>,
    route: &Route,
    acks: &Acks,
    out: &mut Outbox,
) -> Result<(), Spent>
    requires kid { route.now.kid < 8 }
    requires acks { acks.now.count ≤ 8 }
    requires effects { 1 ≤ out.old.spare_effects }
    requires bytes { 1200 ≤ out.old.spare_bytes }
    ensures sent { (h : EnvelopeHistory) → EnvelopeStands W.wrapped env.old h →
        SentOne W.wrapped env.new out.old out.new route.now h (ack_message (head_in route.now) (acked acks.now)) result }
    ensures spare { (out.old.spare_effects ≤ out.new.spare_effects + 1) × (out.old.spare_bytes ≤ out.new.spare_bytes + 1200) }
{
    prove!(acked_ids(acks).len() <= 8);
    stage_one(env, route, Opcode::Ack, acks, 0, &[], out)
}

/// How many pieces are pending, at most 6: those that are due again, or those that may be sent for the
/// first time.
pub(crate) fn count_pending(side: &SendSide, again: bool, now: Moment) -> u32
    ensures few { result ≤ 6 }
    ensures exact { (s : Sending) → Stands side.now s → result ≡ length (pending again s now.0) }
{
    if again {
        side.due_count(now)
    } else {
        side.ready()
    }
}

// The first of them.
fn next_pending(side: &SendSide, again: bool, now: Moment) -> Option<Piece<'_>>
    ensures exact { (s : Sending) → Stands side.now s → seen_piece result ≡ first_of (pending again s now.0) }
    ensures small { IfSome result (λ p. length p.bytes.now ≤ 1100) }
{
    if again {
        side.next_due(now)
    } else {
        side.next_piece()
    }
}

// Counts it as sent.
fn count_sent(side: &mut SendSide, again: bool, id: u32, now: Moment)
    ensures stands { (s : Sending) → Stands side.old s → first_id (pending again s now.0) ≡ Some id → Stands side.new (sent s id now.0) }
    ensures side { side.old.spare ≤ side.new.spare }
{
    side.count_sent(id, now);
}

// What remains pending once the first was sent.
fn pending_shrinks()
    ensures { (again : Bool) (side : Side) (s : Sending) (p : Numbered) (rest : List Numbered) (now : ℕ)
        → Stands side s → pending again s now ≡ p ∷ rest → pending again (sent s p.0 now) now ≡ rest }
{
    ready_shrinks();
    due_shrinks();
    timeout_is_kept();
}

// Sends so many of the pending pieces, which are all of them; the acknowledgements ride on the first.
fn send_pending<W: Wrap + Drop>(
    left: u32,
    side: &mut SendSide,
    env: &mut Envelope<W>,
    route: &Route,
    acks: &Acks,
    again: bool,
    now: Moment,
    out: &mut Outbox,
) -> Result<(), Spent>
    requires kid { route.now.kid < 8 }
    requires first { IsReset route.now.first }
    requires acks { acks.now.count ≤ 8 }
    requires effects { left ≤ out.old.spare_effects }
    requires bytes { 1200 * left ≤ out.old.spare_bytes }
    ensures sent { (s : Sending) → (h : EnvelopeHistory) → Stands side.old s → EnvelopeStands W.wrapped env.old h →
        length (pending again s now.0) ≡ left →
        Sent W.wrapped side.new env.new out.old out.new route.now (send_pieces (head_in route.now) (acked acks.now) now.0 (pending again s now.0) s h) result }
    ensures spare { (out.old.spare_effects ≤ out.new.spare_effects + left) × (out.old.spare_bytes ≤ out.new.spare_bytes + 1200 * left) }
    ensures side { side.old.spare ≤ side.new.spare }
{
    pending_shrinks();
    if left == 0 {
        return Ok(());
    }
    let Some(piece) = next_pending(side, again, now) else {
        return Ok(());
    };
    let id = piece.id;
    match stage_piece(env, route, acks, id, piece.bytes, out) {
        Ok(()) => {
            count_sent(side, again, id, now);
            send_pending(left - 1, side, env, route, &NO_ACKS, again, now, out)
        }
        Err(Spent) => Err(Spent),
    }
}

/// Sends every pending piece, each under the next wrap id and counted as sent, as far as wrap ids reach.
/// The acknowledgements ride on the first, and go alone where none is pending. The outbox has room for
/// `MOST` datagrams of `ROOM` bytes.
pub(crate) fn flush<W: Wrap + Drop>(
    side: &mut SendSide,
    env: &mut Envelope<W>,
    route: &Route,
    acks: &Acks,
    again: bool,
    now: Moment,
    out: &mut Outbox,
) -> Result<(), Spent>
    requires kid { route.now.kid < 8 }
    requires first { IsReset route.now.first }
    requires acks { acks.now.count ≤ 8 }
    requires effects { 6 ≤ out.old.spare_effects }
    requires bytes { 7200 ≤ out.old.spare_bytes }
    ensures sent { (s : Sending) → (h : EnvelopeHistory) → Stands side.old s → EnvelopeStands W.wrapped env.old h →
        Sent W.wrapped side.new env.new out.old out.new route.now (flushed (head_in route.now) (acked acks.now) now.0 (pending again s now.0) s h) result }
    ensures spare { (out.old.spare_effects ≤ out.new.spare_effects + 6) × (out.old.spare_bytes ≤ out.new.spare_bytes + 7200) }
    ensures side { side.old.spare ≤ side.new.spare }
{
    let left = count_pending(side, again, now);
    if left > 0 {
        return send_pending(left, side, env, route, acks, again, now, out);
    }
    if acks.count == 0 {
        return Ok(());
    }
    prove!(acked_ids(acks).len() <= 8);
    stage_ack(env, route, acks, out)
}
