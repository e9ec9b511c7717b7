//! A frame and its bytes.

ghost use Rattle.std.specs.Prelude.{◌≡◌, ◌≤◌, List, ℕ, ◌++◌, length, IfOk, IsTrue};
ghost use Rattle.byteorder.specs.Endian.{big_bytes};
ghost use Rattle.socket_frames.specs.Frames.{Whole, front, is_read, spelling};

use byteorder::{BigEndian, ByteOrder};
use std::alloc::Global;
use vpn_base::{Bytes, NoMemory};

// The bytes of a frame in front of its body: the length of what follows it, the kind and the connection.
pub(crate) const HEAD: usize = 13;

/// What is wrong with a frame.
#[derive(Clone, Copy, Debug, PartialEq, Eq)]
pub enum FrameFault {
    /// Its length is above 65,536.
    TooLong,
    /// Its length is below 9, which is that of an empty body.
    TooShort,
    /// Its kind is none of those that are read, 1 to 6.
    BadKind,
}

/// A frame.
#[derive(Drop)]
pub struct Frame {
    /// What it says: of those that are read 1 is text of the TLS engine, 2 plain text, 3 that the other end was
    /// checked, with its name, 4 that the connection has ended, 5 a packet of the device, 6 that the device
    /// takes a packet.
    pub kind: u8,
    /// The engine connection, 0 where it speaks of the device.
    pub conn: u64,
    /// What it carries.
    pub body: Bytes,
}

/// The bytes of a frame, whose body has at most 65,527 bytes. A kind that is read is read again, whatever
/// follows.
pub fn write_frame(alloc: Global, kind: u8, conn: u64, body: &[u8]) -> Result<Bytes, NoMemory>
    requires { length body.now ≤ 65527 }
    ensures bytes { IfOk result (λ b. b ≡ spelling (record { kind = kind; conn = conn; body = body.now })) }
    ensures again { IfOk result (λ b. IsTrue (is_read kind) → (rest : List ℕ) → front (b ++ rest) ≡ Whole (record { kind = kind; conn = conn; body = body.now }) rest) }
{
    let bytes = spell(alloc, kind, conn, body)?;
    Ok(bytes)
}

#[tactic(auto, unfolding(crate::specs::Frames::spelling))]
fn spell(alloc: Global, kind: u8, conn: u64, body: &[u8]) -> Result<Bytes, NoMemory>
    requires { length body.now ≤ 65527 }
    ensures { IfOk result (λ b. b ≡ spelling (record { kind = kind; conn = conn; body = body.now })) }
{
    let mut bytes = Vec::with_capacity(alloc, HEAD + body.len())?;
    bytes.extend_from_slice(&length_bytes(9 + body.len() as u32))?;
    bytes.push(kind)?;
    bytes.extend_from_slice(&conn_bytes(conn))?;
    bytes.extend_from_slice(body)?;
    Ok(Bytes::of(bytes))
}

fn length_bytes(length: u32) -> [u8; 4]
    ensures { result ≡ big_bytes 4 length }
{
    let mut bytes = [0; 4];
    BigEndian::write_u32(&mut bytes, length);
    bytes
}

fn conn_bytes(conn: u64) -> [u8; 8]
    ensures { result ≡ big_bytes 8 conn }
{
    let mut bytes = [0; 8];
    BigEndian::write_u64(&mut bytes, conn);
    bytes
}
