//! The hosts that were learned, the latest first, each with its client.

ghost use Rattle.std.specs.Prelude.{◌≡◌, ◌<◌, ◌≤◌, true, length, min, vec_capacity, IsOk, OnOk};
ghost use Rattle.route_table.specs.Owner.{owner, is_owned_by};
ghost use Rattle.route_table.specs.Learned.{is_learned, kept_hosts, learnt, other_hosts};

use crate::rows::{is_owner, owner_among};
use std::marker::Brand;
use std::sync::ledger::{Blank, Ledger};
use vpn_base::{Cid, Ip4, NoMemory, Prefix, Steps};

// How many hosts are kept.
const MOST_HOSTS: usize = 256;

fn is_owned_uncounted<L: Ledger>(blank: Blank, rows: &[(Prefix, Cid)], host: (Ip4, Cid)) -> bool
    requires name { blank.name ≡ L.name }
    requires parts { blank.parts ≡ L.parts }
    requires some { 0 < L.parts }
    ensures { result ≡ is_owned_by host.1 (owner rows.now host.0) }
{
    let mut steps = Steps::<L>::from_blank(blank);
    is_owner(host.1, owner_among(rows, host.0, &mut steps))
}

fn is_owned(rows: &[(Prefix, Cid)], host: (Ip4, Cid)) -> bool
    ensures { result ≡ is_owned_by host.1 (owner rows.now host.0) }
{
    is_owned_uncounted::<Brand>(Blank::new(1), rows, host)
}

/// Leaves out each host whose owner is not its client.
pub(crate) fn judge_again(hosts: &mut Vec<(Ip4, Cid)>, rows: &[(Prefix, Cid)])
    ensures { hosts.new.items ≡ kept_hosts rows.now hosts.old.items }
{
    hosts.retain(|host| is_owned(rows, *host));
}

fn has_host(hosts: &[(Ip4, Cid)], a: Ip4) -> bool
    ensures { result ≡ is_learned hosts.now a }
{
    hosts.iter().any(|host| host.0.0 == a.0)
}

fn keep_other_hosts(hosts: &mut Vec<(Ip4, Cid)>, a: Ip4)
    ensures items { hosts.new.items ≡ other_hosts a hosts.old.items }
    ensures capacity { vec_capacity hosts.new ≡ vec_capacity hosts.old }
{
    hosts.retain(|host| host.0.0 != a.0);
}

/// Takes room for one host more, unless the address is there or the list is full.
pub(crate) fn make_room(hosts: &mut Vec<(Ip4, Cid)>, a: Ip4) -> Result<(), NoMemory>
    ensures same { hosts.new.items ≡ hosts.old.items }
    ensures room { OnOk result (min (length (other_hosts a hosts.old.items)) 255 < vec_capacity hosts.new) }
    ensures there { is_learned hosts.old.items a ≡ true → IsOk result }
    ensures full { 256 ≤ length hosts.old.items → IsOk result }
{
    if hosts.len() >= MOST_HOSTS {
        return Ok(());
    }
    if has_host(hosts, a) {
        return Ok(());
    }
    hosts.reserve(1)?;
    Ok(())
}

/// Puts a host in front, in place of its earlier entry or of what is too much.
pub(crate) fn put_in_front(hosts: &mut Vec<(Ip4, Cid)>, a: Ip4, cid: Cid)
    requires { min (length (other_hosts a hosts.old.items)) 255 < vec_capacity hosts.old }
    ensures { hosts.new.items ≡ learnt a cid hosts.old.items }
{
    keep_other_hosts(hosts, a);
    hosts.truncate(MOST_HOSTS - 1);
    let inserted = hosts.insert(0, (a, cid));
    prove!(inserted.is_ok());
    let _ = inserted;
}
