//! Datagrams that are unwrapped where they lie.

use crate::half::OVERHEAD;
use crate::header::Header;
use crate::wrapping::{Opened, Unwrap, Wrap};

/// A received datagram, which is unwrapped in place.
#[derive(Drop)]
pub struct Datagram<'a> {
    /// Its bytes.
    pub bytes: &'a mut [u8],
}

impl Datagram<'_> {
    ghost use Rattle.std.specs.Prelude.{◌≡◌, ◌≤◌, ◌<◌, ◌↔◌, length, drop, IfOk, IsErrOf};
    ghost use Rattle.std.specs.Borrow.{sem};
    ghost use Rattle.tls_crypt.specs.Lending.{IsKept};
    ghost use Rattle.tls_crypt.specs.Packets.{IsWrappedByNone};
    ghost use Rattle.tls_crypt.specs.Unwrapping.{unwrapped_view, unwrapping};

    /// Unwraps the datagram, and answers the packet, whose plain text stays in the datagram.
    ///
    /// `Short` comes exactly below 49 bytes, and `NotWrapped` exactly where no packet wraps to the
    /// datagram at the other end. The datagram is unchanged then.
    pub fn unwrap<W: Wrap>(&mut self, wrap: &W) -> Result<Opened<'_>, Unwrap>
        ensures* kept { sem 𝓛 (IsKept self.entry result) }
        ensures opened { IfOk result (λ o.
            self.old.bytes.now ≡ W.unwrapped wrap.now o.first o.sid.0 o.id o.time o.plain.now) }
        ensures refused { IsErrOf result Unwrap.NotWrapped → IsWrappedByNone (W.unwrapped wrap.now) self.old.bytes.now }
        ensures exact { unwrapping (W.unwrapped wrap.now) self.old.bytes.now ≡ unwrapped_view result }
        ensures short { IsErrOf result Unwrap.Short ↔ (length self.old.bytes.now < 49) }
    {
        match wrap.unwrap_in_place(self.bytes) {
            Ok(header) => Ok(self.opened(header)),
            Err(fault) => Err(fault),
        }
    }

    // The packet with this header, whose plain text stands in the datagram.
    fn opened(&self, header: Header) -> Opened<'_>
        requires { 49 ≤ length self.now.bytes.now }
        ensures header { (result.first ≡ header.first) × (result.sid ≡ header.sid) × (result.id ≡ header.id) × (result.time ≡ header.time) }
        ensures plain { result.plain.now ≡ drop 49 self.now.bytes.now }
    {
        let Header {
            first,
            sid,
            id,
            time,
        } = header;
        Opened {
            first,
            sid,
            id,
            time,
            plain: &self.bytes[OVERHEAD..],
        }
    }
}
