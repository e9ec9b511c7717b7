//! The plain text of control packets.

ghost use Rattle.std.specs.Prelude.{◌≡◌, ◌+◌, ◌-◌, ◌*◌, ◌^◌, ◌<◌, ◌≤◌, ◌↔◌, [], ◌∷◌, ◌++◌, ℕ, List, length, take, drop, replicate, Ok, IfOk, IsErrOf};
ghost use Rattle.std.specs.List.{flat_map, AllByRecursion};
ghost use Rattle.std.specs.Int.{w32, to_be_bytes};
ghost use Rattle.vpn_base.specs.Acks.{AreAcks, acked};
ghost use Rattle.opcode_codec.specs.ControlText.{ControlForm, IsControlText, MayFollow, IsTextOf, HasManyAcks, LacksRemote, IsCutOff, sid_bytes, id_bytes, control_form, control_text, numbers_at, fields_at, behind_ids, control_of, seen_control, sent_remote, sent_id, sent_payload, sent_form, with_front};

use crate::fields::{array_of, number_at};
use crate::opcodes::Opcode;
use vpn_base::{Acks, Malformed, Sid};

/// The plain text of a control packet, seen in its bytes (OpenVPN 2.6, src/openvpn/reliable.c,
/// reliable_ack_parse).
#[derive(Clone, Copy, Debug, PartialEq, Eq)]
pub struct ControlView<'a> {
    /// The packet ids that are acknowledged. The ids that do not count are 0.
    pub acks: Acks,
    /// The receiver's session id, which is there exactly where ids are acknowledged.
    pub remote: Option<Sid>,
    /// The packet id, which all but ACK_V1 have.
    pub id: Option<u32>,
    /// The payload, which is empty for ACK_V1.
    pub payload: &'a [u8],
}

/// The most packet ids that one packet acknowledges.
const MOST_ACKS: u8 = 8;

#[tactic(auto, unfolding(crate::specs::ControlText::numbers_at))]
fn read_ids(count: u8, bytes: &[u8]) -> [u32; 8]
    requires count { count ≤ 8 }
    requires room { 4 * count ≤ length bytes.now }
    ensures ids { take count result ≡ numbers_at count bytes.now }
    ensures zeros { drop count result ≡ replicate (8 - count) 0 }
{
    let mut ids = [0; 8];
    for k in 0..count as usize {
        ids[k] = number_at(bytes, 4 * k);
    }
    ids
}

#[tactic(auto, unfolding(crate::specs::ControlText::fields_at))]
fn read_fields<'a>(
    op: Opcode,
    acks: Acks,
    remote: Option<Sid>,
    bytes: &'a [u8],
) -> Result<ControlView<'a>, Malformed>
    ensures fields { seen_control result ≡ fields_at op (acked acks) remote bytes.now }
    ensures acks { IfOk result (λ v. v.acks ≡ acks) }
{
    if op == Opcode::Ack {
        return Ok(ControlView {
            acks,
            remote,
            id: None,
            payload: &[],
        });
    }
    if bytes.len() < 4 {
        return Err(Malformed::Short);
    }
    Ok(ControlView {
        acks,
        remote,
        id: Some(number_at(bytes, 0)),
        payload: &bytes[4..],
    })
}

#[tactic(auto, unfolding(crate::specs::ControlText::behind_ids))]
fn read_behind_ids(op: Opcode, acks: Acks, bytes: &[u8]) -> Result<ControlView<'_>, Malformed>
    ensures exact { seen_control result ≡ behind_ids op acks.count (acked acks) bytes.now }
    ensures acks { IfOk result (λ v. v.acks ≡ acks) }
{
    if acks.count == 0 {
        return read_fields(op, acks, None, bytes);
    }
    if bytes.len() < 8 {
        return Err(Malformed::NoRemote);
    }
    let (remote, rest) = bytes.split_at(8);
    read_fields(op, acks, Some(Sid(array_of(remote))), rest)
}

#[tactic(auto, unfolding(crate::specs::ControlText::control_of))]
fn read_text(plain: &[u8], op: Opcode) -> Result<ControlView<'_>, Malformed>
    ensures exact { seen_control result ≡ control_of op plain.now }
    ensures acks { IfOk result (λ v. AreAcks v.acks) }
{
    let [count, rest @ ..] = plain else {
        return Err(Malformed::Short);
    };
    let count = *count;
    if count > MOST_ACKS {
        return Err(Malformed::Acks);
    }
    let ids_end = 4 * count as usize;
    if rest.len() < ids_end {
        return Err(Malformed::Short);
    }
    let ids = read_ids(count, rest);
    read_behind_ids(op, Acks { count, ids }, &rest[ids_end..])
}

/// The plain text that the bytes are, of a packet of this opcode (OpenVPN 2.6,
/// src/openvpn/reliable.c, reliable_ack_parse). Bytes after the last field of ACK_V1 are ignored; of every other opcode
/// the text has a packet id, and the payload goes to the end. Acks comes exactly where more than 8 ids
/// are acknowledged, NoRemote exactly where the ids are there and the receiver's session id behind them
/// is cut off, and Short exactly where another field is cut off. No other error comes.
pub fn read_control(plain: &[u8], op: Opcode) -> Result<ControlView<'_>, Malformed>
    ensures exact { seen_control result ≡ control_of op plain.now }

    // What is read is spelled so.
    ensures found { IfOk result (λ v. IsTextOf op (control_form v) plain.now) }
    ensures acks { IfOk result (λ v. AreAcks v.acks) }

    // What is spelled so is read.
    ensures only { (f : ControlForm) (rest : List ℕ) → IsControlText op f → MayFollow op rest →
        plain.now ≡ control_text f ++ rest → seen_control result ≡ Ok f }

    ensures many { IsErrOf result Malformed.Acks ↔ HasManyAcks plain.now }
    ensures no_remote { IsErrOf result Malformed.NoRemote ↔ LacksRemote plain.now }
    ensures short { IsErrOf result Malformed.Short ↔ IsCutOff op plain.now }
{
    read_text(plain, op)
}

// Writes a piece behind the text that stands at the front of the buffer, and answers where it ends.
fn put(out: &mut [u8], end: usize, piece: &[u8]) -> usize
    requires { end + length piece.now ≤ length out.old }
    ensures end { result ≡ end + length piece.now }
    ensures placed { (text base : List ℕ) → length text ≡ end → out.old ≡ with_front text base →
        out.new ≡ with_front (text ++ piece.now) base }
{
    let next = end + piece.len();
    out[end..next].copy_from_slice(piece);
    next
}

fn put_number(out: &mut [u8], end: usize, number: u32) -> usize
    requires { end + 4 ≤ length out.old }
    ensures end { result ≡ end + 4 }
    ensures placed { (text base : List ℕ) → length text ≡ end → out.old ≡ with_front text base →
        out.new ≡ with_front (text ++ to_be_bytes w32 number) base }
    ensures fits { number < 2 ^ 32 }
{
    put(out, end, &number.to_be_bytes())
}

fn put_ids(out: &mut [u8], acks: &Acks) -> usize
    requires count { acks.now.count ≤ 8 }
    requires room { 1 + 4 * acks.now.count ≤ length out.old }
    ensures end { result ≡ 1 + 4 * acks.now.count }
    ensures placed { out.new ≡ with_front (acks.now.count ∷ flat_map (to_be_bytes w32) (acked acks.now)) out.old }
    ensures count { length (acked acks.now) ≡ acks.now.count }
    ensures fit { AllByRecursion (λ id. id < 2 ^ 32) (acked acks.now) }
{
    let mut end = put(out, 0, &[acks.count]);
    for id in &acks.ids[..acks.count as usize] {
        end = put_number(out, end, *id);
    }
    end
}

fn put_remote(out: &mut [u8], end: usize, count: u8, remote: Sid) -> usize
    requires { end + 8 ≤ length out.old }
    ensures end { result ≡ end + length (sid_bytes (sent_remote count remote)) }
    ensures placed { (text base : List ℕ) → length text ≡ end → out.old ≡ with_front text base →
        out.new ≡ with_front (text ++ sid_bytes (sent_remote count remote)) base }
    ensures length { length remote.0 ≡ 8 }
{
    if count == 0 {
        return end;
    }
    put(out, end, &remote.0)
}

fn put_fields(out: &mut [u8], end: usize, op: Opcode, id: u32, payload: &[u8]) -> usize
    requires { end + 4 + length payload.now ≤ length out.old }
    ensures end { result ≡ end + length (id_bytes (sent_id op id) ++ sent_payload op payload.now) }
    ensures placed { (text base : List ℕ) → length text ≡ end → out.old ≡ with_front text base →
        out.new ≡ with_front (text ++ (id_bytes (sent_id op id) ++ sent_payload op payload.now)) base }
{
    if op == Opcode::Ack {
        return end;
    }
    let end = put_number(out, end, id);
    put(out, end, payload)
}

/// Writes the plain text of a control packet of this opcode to the front of `out`, and answers how many
/// bytes it has (OpenVPN 2.6, src/openvpn/reliable.c, reliable_ack_write). The receiver's session
/// id is written where packet ids are acknowledged; the packet id and the payload are written of every
/// opcode but ACK_V1. The bytes behind it stay.
pub fn write_control(
    op: Opcode,
    acks: &Acks,
    remote: Sid,
    id: u32,
    payload: &[u8],
    out: &mut [u8],
) -> usize
    requires count { acks.now.count ≤ 8 }
    requires room { 13 + 4 * acks.now.count + length payload.now ≤ length out.old }
    ensures length { result ≡ length (control_text (sent_form op acks.now remote id payload.now)) }
    ensures written { out.new ≡ with_front (control_text (sent_form op acks.now remote id payload.now)) out.old }

    // What is written is read again.
    ensures again { control_of op (take result out.new) ≡ Ok (sent_form op acks.now remote id payload.now) }
{
    let end = put_ids(out, acks);
    let end = put_remote(out, end, acks.count, remote);
    put_fields(out, end, op, id, payload)
}
