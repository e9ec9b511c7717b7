//! What of a data packet is not sealed.

ghost use Rattle.std.specs.Prelude.{◌≡◌, ◌^◌, ◌≤◌, ◌<◌, ◌++◌, length, take, drop, MatchOption, IfSome};
ghost use Rattle.std.specs.Int.{w32, to_be_bytes};
ghost use Rattle.opcode_codec.specs.DataPacket.{DataForm, IsData, data_packet};
ghost use Rattle.sealed_packet.specs.internal.Head.{data_form_of};
ghost use Rattle.sealed_packet.specs.SealedPacket.{nonce};

use opcode_codec::{Packet, read_packet};

/// The fields of a data packet that are not sealed, but for its key id.
#[derive(Clone, Copy)]
pub(crate) struct Head {
    pub(crate) peer: u32,
    pub(crate) id: u32,
    pub(crate) tag: [u8; 16],
}

/// The head of a data packet with this key id.
pub(crate) fn read_head(datagram: &[u8], kid: u8) -> Option<Head>
    ensures exact { MatchOption result
        ((f : DataForm) → IsData f → f.kid ≡ kid → ¬ (datagram.now ≡ data_packet f))
        (λ h. IsData (data_form_of kid h (drop 24 datagram.now)) × (datagram.now ≡ data_packet (data_form_of kid h (drop 24 datagram.now)))) }
    ensures long { IfSome result (λ _. 24 ≤ length datagram.now) }
{
    match read_packet(datagram) {
        Ok(Packet::Inner(view)) if view.kid == kid => Some(Head {
            peer: view.peer,
            id: view.id,
            tag: view.tag,
        }),
        _ => None,
    }
}

/// The nonce of a packet id and the implicit bytes of a key.
pub(crate) fn nonce_of(implicit: [u8; 8], id: u32) -> [u8; 12]
    ensures { result ≡ nonce implicit id }
{
    let mut nonce = [0u8; 12];
    nonce[..4].copy_from_slice(&id.to_be_bytes());
    nonce[4..].copy_from_slice(&implicit);
    nonce
}
