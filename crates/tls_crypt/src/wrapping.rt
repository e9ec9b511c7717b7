//! Wrapping of control packets, whatever the keys.

ghost use Rattle.std.specs.Prelude.{◌≡◌, ◌≤◌, ◌<◌, ◌+◌, ◌↔◌, ℕ, List, length, take, drop, IfOk, IsErrOf, OnOk, OnErr};
ghost use Rattle.tls_crypt.specs.Packets.{IsFramed, IsOneToOne, IsWrappedByNone, Wrapping};
ghost use Rattle.tls_crypt.specs.Unwrapping.{FindsWhatUnwraps, unwrapped_in_place, unwrapping};

use crate::header::Header;
use vpn_base::Sid;

/// Why a datagram can't be unwrapped.
#[derive(Clone, Copy, Debug, PartialEq, Eq)]
pub enum Unwrap {
    /// It has fewer than 49 bytes.
    Short,
    /// No packet wraps to it under the key.
    NotWrapped,
}

/// An unwrapped control packet, whose plain text lies in the datagram.
#[derive(Clone, Copy, Debug)]
pub struct Opened<'a> {
    /// The first byte, with opcode and key id.
    pub first: u8,
    /// The sender's session id.
    pub sid: Sid,
    /// The wrap id.
    pub id: u32,
    /// The time, in seconds since 1970.
    pub time: u32,
    /// The plain text.
    pub plain: &'a [u8],
}

/// Wrapping of control packets at one end, and unwrapping of what the other end wrapped.
pub trait Wrap {
    /// The datagram to which this end wraps a first byte, a session id, a wrap id, a time and a plain
    /// text.
    ghost wrapped: { Self → Wrapping };

    /// The datagram to which the other end wraps them.
    ghost unwrapped: { Self → Wrapping };

    /// Writes the wrapped datagram to the front of `out`, and answers its length in bytes, which is 49
    /// more than that of the plain text. The rest of `out` stays.
    fn wrap(&self, first: u8, sid: Sid, id: u32, time: u32, plain: &[u8], out: &mut [u8]) -> usize
        requires plain { length plain.now ≤ 65000 }
        requires room { length plain.now + 49 ≤ length out.old }
        ensures len { result ≡ length plain.now + 49 }
        ensures written { take result out.new ≡ wrapped self.now first sid.0 id time plain.now }
        ensures rest { drop result out.new ≡ drop result out.old };

    /// Unwraps a datagram in place: the plain text then stands behind its first 49 bytes, which stay.
    ///
    /// `Short` comes exactly below 49 bytes, and `NotWrapped` exactly where no packet wraps to the
    /// datagram at the other end. The datagram is unchanged then.
    fn unwrap_in_place(&self, datagram: &mut [u8]) -> Result<Header, Unwrap>
        ensures opened { IfOk result (λ h.
            datagram.old ≡ unwrapped self.now h.first h.sid.0 h.id h.time (drop 49 datagram.new)) }
        ensures refused { IsErrOf result Unwrap.NotWrapped → IsWrappedByNone (unwrapped self.now) datagram.old }
        ensures exact { unwrapping (unwrapped self.now) datagram.old ≡ unwrapped_in_place result (drop 49 datagram.new) }
        ensures short { IsErrOf result Unwrap.Short ↔ (length datagram.old < 49) }
        ensures long { OnOk result (49 ≤ length datagram.old) }
        ensures front { OnOk result (take 49 datagram.new ≡ take 49 datagram.old) }
        ensures unchanged { OnErr result (datagram.new ≡ datagram.old) };

    /// Where the header stands, and how long a datagram is, at this end.
    ghost wrapped_framed: { (w : Self) → IsFramed (wrapped w) };

    /// The same at the other end.
    ghost unwrapped_framed: { (w : Self) → IsFramed (unwrapped w) };

    /// No two packets wrap to one datagram at this end.
    ghost wrapped_once: { (w : Self) → IsOneToOne (wrapped w) };

    /// No two packets wrap to one datagram at the other end.
    ghost unwrapped_once: { (w : Self) → IsOneToOne (unwrapped w) };
}

/// The search for the packet that wraps to a datagram finds exactly that, of what either end wraps.
pub fn unwrapping_is_what_unwraps<W: Wrap>(wrap: &W)
    ensures here { FindsWhatUnwraps (W.wrapped wrap.now) }
    ensures there { FindsWhatUnwraps (W.unwrapped wrap.now) }
{}
