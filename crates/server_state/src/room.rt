//! How many clients may come, and by which peer ids.

ghost use Rattle.std.specs.Prelude.{◌≡◌};
ghost use Rattle.client_table.specs.Tables.{admitted_by, entries_of};
ghost use Rattle.client_table.specs.PeerIds as keys;
ghost use Rattle.server_table.specs.Lookups.{free_peer_id, is_full};
ghost use Rattle.server_table.specs.Table.{Table};
ghost use Rattle.server_state.specs.declared.client.ClientState.{ClientState};
ghost use Rattle.server_state.specs.declared.state.ServerCore.{ServerCore};
ghost use Rattle.server_state.specs.Core.{CoreStands};

use crate::client::ClientState;
use crate::state::ServerCore;
use peer_table::ClientSession;

impl<S: ClientSession> ServerCore<S> {
    /// Whether as many clients are here as may be.
    #[tactic(auto, using(crate::proofs::Counted::full_is))]
    pub fn is_full(&self) -> bool
        ensures { (t : Table) → CoreStands S.stands self.now t → result ≡ is_full t }
    {
        !self.clients.has_room()
    }
}

/// The peer id that the table of clients gives is the one that the table for which the core stands gives.
pub fn peer_ids_are_given_alike<S: ClientSession>()
    ensures { (core : ServerCore S) (t : Table) → CoreStands S.stands core t → keys.free_peer_id (entries_of core.clients) ≡ free_peer_id t }
{
    client_table::peer_ids_are_the_least_free::<ClientState<S>>();
}
