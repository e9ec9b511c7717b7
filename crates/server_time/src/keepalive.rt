//! What `keepalive` says of a moment.

ghost use Rattle.std.specs.Prelude.{◌≡◌, ◌≤◌, ◌^◌, is_some};
ghost use Rattle.peer_table.specs.KeySessions as sessions;
ghost use Rattle.server_table.specs.Table.{Client};
ghost use Rattle.server_table.specs.Time as definitions;

use vpn_base::Moment;

// Whether so many seconds have passed since a moment.
fn has_passed(seconds: u64, since: Moment, now: Moment) -> bool
    requires { seconds ≤ 2 ^ 33 }
    ensures { result ≡ sessions.has_passed seconds since.0 now.0 }
{
    since.0 <= now.0 && 1000 * seconds <= now.0 - since.0
}

/// Whether nothing fresh has come for twice the restart time of a client that was heard at a moment.
pub fn is_idle(keepalive: Option<(u32, u32)>, heard: Moment, now: Moment) -> bool
    ensures { (x : Client) → heard.0 ≡ x.heard → result ≡ definitions.is_idle keepalive now.0 x }
{
    match keepalive {
        None => false,
        Some((_, restart)) => has_passed(2 * restart as u64, heard, now),
    }
}

/// Whether a ping is due to a client, established or not, to which a packet was sealed at a moment.
pub fn ping_is_due(
    keepalive: Option<(u32, u32)>,
    established: bool,
    sealed_at: Moment,
    now: Moment,
) -> bool
    ensures { (x : Client) → established ≡ is_some x.established → sealed_at.0 ≡ x.sealed_at → result ≡ definitions.ping_is_due keepalive now.0 x }
{
    match keepalive {
        None => false,
        Some((interval, _)) => established && has_passed(interval as u64, sealed_at, now),
    }
}
