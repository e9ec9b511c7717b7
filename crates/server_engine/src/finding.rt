//! Which client has an engine connection.

ghost use Rattle.std.specs.Prelude.{◌≡◌, ◌<◌, option_map, length};
ghost use Rattle.client_table.specs.Tables.{entries_of};
ghost use Rattle.peer_table.specs.EngineAnswers.{open_with};
ghost use Rattle.server_table.specs.Lookups.{by_connection};
ghost use Rattle.server_table.specs.Table.{Table};
ghost use Rattle.server_state.specs.Core.{CoreStands};

use peer_table::ClientSession;
use server_state::ServerCore;
use vpn_base::{Cid, Conn};

/// The client with an open key session that has this connection.
pub fn by_connection<S: ClientSession>(core: &ServerCore<S>, conn: Conn) -> Option<Cid>
    ensures { (t : Table) → CoreStands S.stands core.now t → option_map (λ cid. cid.0) result ≡ by_connection t conn }
{
    for i in 0..core.clients.count() {
        if core.clients.look_at(i).session.has_conn(conn) {
            return Some(core.clients.key_at(i).number);
        }
    }
    None
}
