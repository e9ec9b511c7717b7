//! Time passes for the session of a client.

ghost use Rattle.std.specs.Prelude.{◌≡◌, ◌≤◌, ◌<◌, ◌+◌, ◌-◌, ◌^◌, ℕ, is_some};
ghost use Rattle.peer_table.specs.Outboxes.{GoesOnUnlessOver, Leaves, Uses};
ghost use Rattle.peer_table.specs.Time.{ticked, ticking};
ghost use Rattle.server_table.specs.Table.{Client};
ghost use Rattle.server_table.specs.Time.{is_idle};
ghost use Rattle.server_state.specs.Core.{StateStands};
ghost use Rattle.server_time.specs.Turns.{IsReadyAs, MayTick};

use crate::keepalive::is_idle;
use peer_table::{ClientSession, Turn};
use server_state::ClientState;
use vpn_base::{Addr, Conn, Moment};
use vpn_links::Outbox;

/// Time passes for a client.
pub fn tick_client<S: ClientSession>(
    client: &mut ClientState<S>,
    keepalive: Option<(u32, u32)>,
    next_conn: Conn,
    to: Addr,
    now: Moment,
    out: &mut Outbox,
) -> Turn
    requires few { S.count client.old.session < 2 ^ 64 - 1 }
    requires goes_on { S.goes_on client.old.session }
    requires later { S.since client.old.session ≤ now.0 }
    requires ready { MayTick S.is_ready client.old out.old }
    ensures left { (x : Client) → StateStands S.stands client.old x →
        Leaves S.stands client.new.session out.old out.new to (ticked (ticking now.0 next_conn (is_some x.established) (is_idle keepalive now.0 x)) x.session) }
    ensures answer { (x : Client) → StateStands S.stands client.old x →
        result ≡ (ticked (ticking now.0 next_conn (is_some x.established) (is_idle keepalive now.0 x)) x.session).answer }
    ensures others { client.new ≡ record client.old { session = client.new.session } }
    ensures goes_on { GoesOnUnlessOver (S.goes_on client.new.session) result }
    ensures uses { (effects bytes : ℕ) → IsReadyAs S.is_ready client.old effects bytes → Uses out.old out.new effects bytes }
    ensures count { S.count client.new.session ≤ S.count client.old.session + 1 }
    ensures since { S.since client.new.session ≤ now.0 }
{
    let idle = is_idle(keepalive, client.heard, now);
    match client.session.on_tick(next_conn, client.established.is_some(), idle, to, now, out) {
        Ok(turn) => turn,
        Err(_) => unreachable!(),
    }
}
