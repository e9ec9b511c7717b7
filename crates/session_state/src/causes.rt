//! Why a client's session ends.

ghost use Rattle.std.specs.Prelude.{◌≡◌};
ghost use Rattle.peer_table.specs.Peer.{cause_of};

use control_link::LinkEnd;
use vpn_base::Cause;

/// Why the client ends with a link's end.
pub fn cause_of(end: LinkEnd) -> Cause
    ensures { result ≡ cause_of end }
{
    match end {
        LinkEnd::TextFull => Cause::TextFull,
        LinkEnd::WrapSpent => Cause::WrapSpent,
    }
}
