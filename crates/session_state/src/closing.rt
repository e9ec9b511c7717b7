//! The end of a client's session.

ghost use Rattle.std.specs.Prelude.{◌≡◌, ◌≤◌, ◌+◌, ◌++◌, length, IsOk, OnOk, OnErr, slice_get};
ghost use Rattle.vpn_links.specs.Actions.{Holds};
ghost use Rattle.peer_table.specs.Exchange.{closing};
ghost use Rattle.peer_table.specs.Outboxes.{HasRoom, Uses, actions_of};
ghost use Rattle.peer_table.specs.Peer.{Peer};
ghost use Rattle.peer_table.specs.Time.{closings};
ghost use Rattle.session_state.specs.Standing.{PeerStands};
ghost use Rattle.session_state.specs.internal.OpenOnes.{closings_among};

use crate::numbers::{MOST_OPEN, OpenNumbers};
use crate::session::SessionState;
use tls_crypt::Wrap;
use vpn_base::NoMemory;
use vpn_links::{Effect, Outbox};

impl<W: Wrap + Drop> SessionState<W> {
    /// Closes the engine connection of each open key session, in order. At most three are open.
    pub fn close_all(&self, out: &mut Outbox) -> Result<(), NoMemory>
        ensures closed { OnOk result ((p : Peer) → PeerStands W.wrapped self.now p →
            Holds out.new (out.old.effects ++ actions_of p.role (closings p.sessions)) out.old.staged) }
        ensures kept { OnErr result (Holds out.new out.old.effects out.old.staged) }
        ensures fits { HasRoom out.old 3 0 → IsOk result }
        ensures uses { Uses out.old out.new 3 0 }
    {
        match out.reserve(MOST_OPEN, 0) {
            Ok(()) => {}
            Err(NoMemory) => return Err(NoMemory),
        }
        let numbers = OpenNumbers::of(&self.slots);
        self.close_each(numbers.as_slice(), out);
        Ok(())
    }

    // Closes the connections of the sessions of these numbers, for which there is room.
    fn close_each(&self, numbers: &[u64], out: &mut Outbox)
        requires { length numbers.now ≤ out.old.spare_effects }
        ensures closed { (p : Peer) → PeerStands W.wrapped self.now p →
            Holds out.new (out.old.effects ++ actions_of p.role (closings_among (slice_get p.sessions) numbers.now)) out.old.staged }
        ensures uses { Uses out.old out.new (length numbers.now) 0 }
    {
        match numbers {
            [] => {}
            [number, rest @ ..] => {
                self.close_at(*number, out);
                self.close_each(rest, out);
            }
        }
    }

    // Closes the connection of the session of this number, for which there is room.
    fn close_at(&self, number: u64, out: &mut Outbox)
        requires { 1 ≤ out.old.spare_effects }
        ensures closed { (p : Peer) → PeerStands W.wrapped self.now p →
            Holds out.new (out.old.effects ++ actions_of p.role (closing (slice_get p.sessions number))) out.old.staged }
        ensures uses { Uses out.old out.new 1 0 }
    {
        let conn = match self.slots.at(number) {
            None => return,
            Some(seen) => seen.conn,
        };
        let added = out.add(&Effect::EngineClose { conn });
        prove!(added.is_ok());
        let _ = added;
    }
}
