//! How clients are found.

ghost use Rattle.std.specs.Prelude.{◌≡◌, List, option_map};
ghost use Rattle.server_table.specs.Lookups.{by_peer_id, by_session, established_named};
ghost use Rattle.server_table.specs.Table.{Table};
ghost use Rattle.server_state.specs.Core.{CoreStands};

use crate::state::ServerCore;
use peer_table::ClientSession;
use vpn_base::{Addr, Cid, Sid};

impl<S: ClientSession> ServerCore<S> {
    /// The client with this peer id.
    #[tactic(auto, using(crate::proofs::Found::peer_id_is))]
    pub fn by_peer_id(&self, peer_id: u32) -> Option<Cid>
        ensures { (t : Table) → CoreStands S.stands self.now t → option_map (λ cid. cid.0) result ≡ by_peer_id t peer_id }
    {
        self.clients.by_peer(peer_id)
    }

    /// The client at this address with this session id.
    #[tactic(auto, using(crate::proofs::Found::session_is))]
    pub fn by_session(&self, from: Addr, sid: Sid) -> Option<Cid>
        ensures { (t : Table) → CoreStands S.stands self.now t → option_map (λ cid. cid.0) result ≡ by_session t from sid }
    {
        self.clients.by_session(from, sid)
    }

    /// The established client of this name.
    #[tactic(auto, using(crate::proofs::Found::name_is))]
    pub fn established_named(&self, name: &[u8]) -> Option<Cid>
        ensures { (t : Table) → CoreStands S.stands self.now t → option_map (λ cid. cid.0) result ≡ established_named t name.now }
    {
        self.clients.established_named(name)
    }
}
