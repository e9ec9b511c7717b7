//! Datagrams: wrapped control packets and data packets.

ghost use Rattle.std.specs.Prelude.{◌≡◌, ◌+◌, ◌-◌, ◌*◌, ◌^◌, ◌<◌, ◌≤◌, ◌↔◌, ℕ, [], length, take, drop, None, Ok, IfOk, IsErrOf};
ghost use Rattle.opcode_codec.specs.FirstByte.{opcode_of};
ghost use Rattle.opcode_codec.specs.DataPacket.{DataForm, IsData, data_form, data_of, data_head, data_packet};
ghost use Rattle.opcode_codec.specs.Packet.{WrappedForm, IsWrapped, wrapped_packet, packet_of, seen, BeginsWith, IsCut, IsSpelled, data_packet_form, wrapped_packet_form};

use crate::fields::{array_of, number_at};
use crate::opcodes::{Opcode, first_byte, opcode_of};
use vpn_base::{Malformed, Sid};

/// A data packet, seen in its datagram (OpenVPN 2.6, src/openvpn/crypto.c, openvpn_encrypt_aead).
#[derive(Clone, Copy, Debug, PartialEq, Eq)]
pub struct DataView<'a> {
    /// The key id, below 8.
    pub kid: u8,
    /// The peer id, below 2^24; 0xFFFFFF is none.
    pub peer: u32,
    /// The packet id.
    pub id: u32,
    /// The tag of the sealing.
    pub tag: [u8; 16],
    /// The sealed bytes.
    pub sealed: &'a [u8],
}

/// A packet, seen in its datagram.
#[derive(Clone, Copy, Debug, PartialEq, Eq)]
pub enum Packet<'a> {
    /// A wrapped control packet: its opcode, its key id below 8 and the sender's session id.
    Wrapped {
        /// The opcode, which is not DATA_V2.
        op: Opcode,
        /// The key id, below 8.
        kid: u8,
        /// The session id of its sender.
        sid: Sid,
    },
    /// A data packet.
    Inner(DataView<'a>),
}

/// The fewest bytes of a wrapped control packet: first byte, session id, wrap id, time and tag.
const SHORTEST_WRAPPED: usize = 49;

/// The fewest bytes of a data packet: first byte, peer id, packet id and tag.
const SHORTEST_DATA: usize = 24;

fn read_data(kid: u8, d: &[u8]) -> DataView<'_>
    requires { 24 ≤ length d.now }
    ensures { data_form result ≡ data_of kid (drop 1 d.now) }
{
    DataView {
        kid,
        peer: u32::from_be_bytes([0, d[1], d[2], d[3]]),
        id: number_at(d, 4),
        tag: array_of(&d[8..24]),
        sealed: &d[24..],
    }
}

#[tactic(auto, unfolding(crate::specs::Packet::packet_of))]
fn read_any(d: &[u8]) -> Result<Packet<'_>, Malformed>
    ensures { seen result ≡ packet_of d.now }
{
    let [first, ..] = d else {
        return Err(Malformed::Empty);
    };
    let first = *first;
    let kid = first % 8;
    match opcode_of(first) {
        None => Err(Malformed::Opcode { first }),
        Some(Opcode::DataV2) => {
            if d.len() < SHORTEST_DATA {
                return Err(Malformed::Short);
            }
            Ok(Packet::Inner(read_data(kid, d)))
        }
        Some(op) => {
            if d.len() < SHORTEST_WRAPPED {
                return Err(Malformed::Short);
            }
            Ok(Packet::Wrapped {
                op,
                kid,
                sid: Sid(array_of(&d[1..9])),
            })
        }
    }
}

/// The packet that the datagram is (OpenVPN 2.6, src/openvpn/ssl_pkt.h and ssl_pkt.c).
/// Empty comes exactly for no bytes, Opcode exactly for an opcode that is not served, and Short exactly
/// below 49 bytes for a control packet and below 24 for a data packet. No other error comes.
pub fn read_packet(d: &[u8]) -> Result<Packet<'_>, Malformed>
    ensures exact { seen result ≡ packet_of d.now }

    // What is read is spelled so.
    ensures found { IfOk result (λ p. IsSpelled p d.now) }

    // What is spelled so is read.
    ensures only_data { (f : DataForm) → IsData f → d.now ≡ data_packet f → seen result ≡ Ok (data_packet_form f) }
    ensures only_wrapped { (w : WrappedForm) → IsWrapped w → d.now ≡ wrapped_packet w → seen result ≡ Ok (wrapped_packet_form w) }

    ensures empty { IsErrOf result Malformed.Empty ↔ (d.now ≡ []) }
    ensures opcode { (first : ℕ) → IsErrOf result (Malformed.Opcode first) ↔ (BeginsWith first d.now × (opcode_of first ≡ None)) }
    ensures short { IsErrOf result Malformed.Short ↔ IsCut d.now }
{
    read_any(d)
}

/// The first 8 bytes of a data packet, which are its additional data: first byte, peer id and packet
/// id (OpenVPN 2.6, src/openvpn/crypto.c, openvpn_encrypt_aead).
#[tactic(auto, unfolding(crate::specs::DataPacket::data_head))]
pub fn write_data_head(kid: u8, peer: u32, id: u32) -> [u8; 8]
    requires kid { kid < 8 }
    requires peer { peer < 2 ^ 24 }
    ensures { result ≡ data_head kid peer id }
{
    let [_, high, middle, low] = peer.to_be_bytes();
    let [a, b, c, d] = id.to_be_bytes();
    [
        first_byte(Opcode::DataV2, kid),
        high,
        middle,
        low,
        a,
        b,
        c,
        d,
    ]
}
