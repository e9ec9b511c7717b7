//! Opcodes, and the first byte of a packet.

ghost use Rattle.std.specs.Prelude.{◌≡◌, ◌<◌};
ghost use Rattle.opcode_codec.specs.FirstByte.{code, opcode_of, first_byte};

/// What kind of packet it is (OpenVPN 2.6, src/openvpn/ssl_pkt.h).
#[derive(Clone, Copy, Debug, PartialEq, Eq)]
pub enum Opcode {
    /// SOFT_RESET_V1: new keys within a session.
    SoftReset = 3,
    /// CONTROL_V1: text of the TLS channel.
    Control = 4,
    /// ACK_V1: acknowledgements alone.
    Ack = 5,
    /// HARD_RESET_CLIENT_V2: a client begins a session.
    ClientReset = 7,
    /// HARD_RESET_SERVER_V2: a server begins a session.
    ServerReset = 8,
    /// DATA_V2: a sealed inner packet.
    DataV2 = 9,
}

pub(crate) fn opcode_of(first: u8) -> Option<Opcode>
    ensures { result ≡ opcode_of first }
{
    match first / 8 {
        3 => Some(Opcode::SoftReset),
        4 => Some(Opcode::Control),
        5 => Some(Opcode::Ack),
        7 => Some(Opcode::ClientReset),
        8 => Some(Opcode::ServerReset),
        9 => Some(Opcode::DataV2),
        _ => None,
    }
}

/// The first byte of a packet of this opcode and key id.
pub fn first_byte(op: Opcode, kid: u8) -> u8
    requires { kid < 8 }
    ensures { result ≡ first_byte op kid }
{
    op as u8 * 8 + kid
}
