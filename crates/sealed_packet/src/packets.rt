//! Sealing and opening.

ghost use Rattle.std.specs.Prelude.{◌≡◌, ◌↔◌, ℕ, ◌+◌, ◌^◌, ◌<◌, ◌≤◌, List, length, take, drop, Some, None, OnOk, IfOk, IfErr};
ghost use Rattle.byte_texts.specs.Texts.{IsBytes};
ghost use Rattle.sealed_packet.specs.SealedPacket.{Opens, packet, peer_in};
ghost use Rattle.sealed_packet.specs.Opening.{opened, opening};

use crate::head::{nonce_of, read_head};
use gcm_seal::{Aead, NotSealed};
use opcode_codec::write_data_head;

/// How many bytes a packet has before its cipher text: the head and the tag.
const OVERHEAD: usize = 24;

/// Writes the data packet of an inner packet to the front of `out`, and answers how many bytes it
/// takes: 24 more than the inner packet. A packet id is used once a key (OpenVPN wire protocol,
/// P_DATA_V2).
pub fn seal_packet<C: Aead>(
    cipher: &C,
    implicit: [u8; 8],
    kid: u8,
    peer: u32,
    id: u32,
    inner: &[u8],
    out: &mut [u8],
) -> usize
    requires kid { kid < 8 }
    requires peer { peer < 2 ^ 24 }
    requires fits { length inner.now + 24 ≤ length out.old }
    requires short { length inner.now ≤ 65512 }
    ensures count { result ≡ length inner.now + 24 }
    ensures written { take result out.new ≡ packet (C.sealed cipher.now) implicit kid peer id inner.now }
    ensures rest { drop result out.new ≡ drop result out.old }
{
    let head = write_data_head(kid, peer, id);
    let end = OVERHEAD + inner.len();
    out[..8].copy_from_slice(&head);
    let text = &mut out[OVERHEAD..end];
    text.copy_from_slice(inner);
    let tag = cipher.seal(nonce_of(implicit, id), &head, text);
    out[8..OVERHEAD].copy_from_slice(&tag);
    end
}

/// Opens a data packet in place, and answers its packet id: the bytes from 24 on are then the inner
/// packet, and those in front of them stay. `NotSealed` comes exactly where the datagram is no data packet with this key id, or is
/// not authentic; it is unchanged then (OpenVPN wire protocol, P_DATA_V2).
pub fn open_packet<C: Aead>(
    cipher: &C,
    implicit: [u8; 8],
    kid: u8,
    datagram: &mut [u8],
) -> Result<u32, NotSealed>
    requires kid { kid < 8 }
    requires short { length datagram.old ≤ 65536 }
    ensures opened { IfOk result (λ id. Opens (C.sealed cipher.now) implicit kid datagram.old id (drop 24 datagram.new)) }
    ensures refused { IfErr result (λ _. (id : ℕ) (inner : List ℕ) → ¬ Opens (C.sealed cipher.now) implicit kid datagram.old id inner) }
    ensures exact { opening (C.sealed cipher.now) implicit kid datagram.old ≡ opened result (drop 24 datagram.new) }
    ensures front { OnOk result (take 24 datagram.new ≡ take 24 datagram.old) }
    ensures unchanged { IfErr result (λ _. datagram.new ≡ datagram.old) }
{
    let Some(head) = read_head(datagram, kid) else {
        return Err(NotSealed);
    };
    let additional = write_data_head(kid, head.peer, head.id);
    let nonce = nonce_of(implicit, head.id);
    match cipher.unseal(nonce, &additional, head.tag, &mut datagram[OVERHEAD..]) {
        Ok(()) => Ok(head.id),
        Err(NotSealed) => Err(NotSealed),
    }
}

/// A datagram opens to one packet id and inner packet at most.
pub fn opens_once<C: Aead>(cipher: &C)
    ensures { (implicit : List ℕ) (kid : ℕ) (datagram : List ℕ) (i j : ℕ) (p q : List ℕ)
        → Opens (C.sealed cipher.now) implicit kid datagram i p
        → Opens (C.sealed cipher.now) implicit kid datagram j q
        → (i ≡ j) × (p ≡ q) }
{}

/// A packet that was sealed opens, to its packet id and its inner packet, and has its peer id.
pub fn opens_what_was_sealed<C: Aead>(cipher: &C)
    ensures { (implicit : List ℕ) (kid peer id : ℕ) (inner : List ℕ) → peer < 2 ^ 24 → id < 2 ^ 32
        → Opens (C.sealed cipher.now) implicit kid (packet (C.sealed cipher.now) implicit kid peer id inner) id inner
        × (peer_in (packet (C.sealed cipher.now) implicit kid peer id inner) ≡ peer) }
{}

/// The search for what a datagram of bytes opens to finds the packet id and the inner packet to which
/// it opens, and finds nothing exactly where it opens to none. An inner packet is a list of bytes.
pub fn opening_is_what_opens<C: Aead>(cipher: &C)
    ensures some { (implicit : List ℕ) (kid : ℕ) (datagram : List ℕ) (id : ℕ) (inner : List ℕ) → IsBytes datagram
        → (opening (C.sealed cipher.now) implicit kid datagram ≡ Some (id, inner))
        ↔ (Opens (C.sealed cipher.now) implicit kid datagram id inner × IsBytes inner) }
    ensures none { (implicit : List ℕ) (kid : ℕ) (datagram : List ℕ) → IsBytes datagram
        → (opening (C.sealed cipher.now) implicit kid datagram ≡ None)
        ↔ ((id : ℕ) (inner : List ℕ) → IsBytes inner → ¬ Opens (C.sealed cipher.now) implicit kid datagram id inner) }
{}
