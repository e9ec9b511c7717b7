//! What stands in front of a wrapped packet's tag, unencrypted.

ghost use Rattle.std.specs.Prelude.{◌≡◌, ◌≤◌, length, take};
ghost use Rattle.tls_crypt.specs.Wrapped.{header};

use crate::bytes::array_at;
use vpn_base::{Sid, write_at};

// The bytes of a header.
pub(crate) const HEADER_LEN: usize = 17;

/// The header of a wrapped control packet: what stands in front of the tag, unencrypted.
#[derive(Clone, Copy, Debug, PartialEq, Eq)]
pub struct Header {
    /// The first byte, with opcode and key id.
    pub first: u8,
    /// The sender's session id.
    pub sid: Sid,
    /// The wrap id.
    pub id: u32,
    /// The time, in seconds since 1970.
    pub time: u32,
}

// The bytes of the header with these parts.
pub(crate) fn header_of(first: u8, sid: Sid, id: u32, time: u32) -> [u8; HEADER_LEN]
    ensures { result ≡ header first sid.0 id time }
{
    let mut bytes = [0; HEADER_LEN];
    write_at(&mut bytes, 0, &[first]);
    write_at(&mut bytes, 1, &sid.0);
    write_at(&mut bytes, 9, &id.to_be_bytes());
    write_at(&mut bytes, 13, &time.to_be_bytes());
    bytes
}

// The header at the front of a datagram.
pub(crate) fn header_at(datagram: &[u8]) -> Header
    requires { 17 ≤ length datagram.now }
    ensures { header result.first result.sid.0 result.id result.time ≡ take 17 datagram.now }
{
    Header {
        first: datagram[0],
        sid: Sid(array_at(datagram, 1)),
        id: u32::from_be_bytes(array_at(datagram, 9)),
        time: u32::from_be_bytes(array_at(datagram, 13)),
    }
}
