//! Rows of prefixes with the clients that they were added for, in the order of adding.

ghost use Rattle.std.specs.Prelude.{◌≡◌, ◌+◌, ◌≤◌, ◌<◌, [], ◌∷◌, ◌++◌, length, vec_len, vec_capacity, OnOk, OnErr, IsOk};
ghost use Rattle.route_table.specs.Owner.{owner, is_owned_by, without};
ghost use Rattle.route_table.specs.Learned.{rows_of};
ghost use Rattle.route_table.specs.internal.Walk.{longer};

use std::sync::ledger::Ledger;
use vpn_base::{Cid, Ip4, NoMemory, Prefix, RouteList, Steps};

/// Whether an owner was found and is this client.
pub fn is_owner(cid: Cid, found: Option<Cid>) -> bool
    ensures { result ≡ is_owned_by cid found }
{
    match found {
        None => false,
        Some(found) => found.0 == cid.0,
    }
}

// Of the best row so far and a later one that contains the address too, the one that counts.
fn longer_of(best: Option<(Prefix, Cid)>, row: (Prefix, Cid)) -> Option<(Prefix, Cid)>
    ensures { result ≡ longer best row }
{
    match best {
        None => Some(row),
        Some(best) => {
            if row.0.len() < best.0.len() {
                Some(best)
            } else {
                Some(row)
            }
        }
    }
}

#[tactic(auto, unfolding(crate::specs::Owner::owner))]
pub(crate) fn owner_among<L: Ledger>(
    rows: &[(Prefix, Cid)],
    a: Ip4,
    steps: &mut Steps<L>,
) -> Option<Cid>
    ensures found { result ≡ owner rows.now a }
    ensures cost { steps.new ≤ steps.old + length rows.now }
{
    let mut best = None;
    for row in rows {
        steps.tick();
        if row.0.contains(a) {
            best = longer_of(best, *row);
        }
    }
    match best {
        None => None,
        Some((_, cid)) => Some(cid),
    }
}

pub(crate) fn keep_others(rows: &mut Vec<(Prefix, Cid)>, cid: Cid)
    ensures items { rows.new.items ≡ without rows.old.items cid }
    ensures fewer { vec_len rows.new ≤ vec_len rows.old }
    ensures capacity { vec_capacity rows.new ≡ vec_capacity rows.old }
{
    rows.retain(|row| row.1.0 != cid.0);
}

fn put(rows: &mut Vec<(Prefix, Cid)>, row: (Prefix, Cid))
    requires { vec_len rows.old < vec_capacity rows.old }
    ensures items { rows.new.items ≡ rows.old.items ++ row ∷ [] }
    ensures len { vec_len rows.new ≡ vec_len rows.old + 1 }
    ensures capacity { vec_capacity rows.old ≤ vec_capacity rows.new }
{
    let pushed = rows.push(row);
    prove!(pushed.is_ok());
    let _ = pushed;
}

fn put_own(rows: &mut Vec<(Prefix, Cid)>, own: &[Prefix], cid: Cid)
    requires { vec_len rows.old + length own.now ≤ vec_capacity rows.old }
    ensures items { rows.new.items ≡ rows.old.items ++ rows_of cid own.now }
    ensures capacity { vec_capacity rows.old ≤ vec_capacity rows.new }
{
    for prefix in own {
        put(rows, (*prefix, cid));
    }
}

fn put_rest(rows: &mut Vec<(Prefix, Cid)>, rest: &RouteList, cid: Cid)
    requires { vec_len rows.old + length rest.now ≤ vec_capacity rows.old }
    ensures { rows.new.items ≡ rows.old.items ++ rows_of cid rest.now }
{
    for i in 0..rest.count() {
        if let Some(prefix) = rest.item(i) {
            put(rows, (prefix, cid));
        }
    }
}

// All of them or none: the room for all is taken first.
pub(crate) fn put_all(
    rows: &mut Vec<(Prefix, Cid)>,
    own: &[Prefix],
    rest: &RouteList,
    cid: Cid,
) -> Result<(), NoMemory>
    ensures ok { OnOk result (rows.new.items ≡ rows.old.items ++ rows_of cid (own.now ++ rest.now)) }
    ensures err { OnErr result (rows.new.items ≡ rows.old.items) }
    ensures fits { vec_len rows.old + length own.now + length rest.now ≤ vec_capacity rows.old → IsOk result }
{
    let Some(more) = own.len().checked_add(rest.count()) else {
        return Err(NoMemory);
    };
    rows.reserve(more)?;
    put_own(rows, own, cid);
    put_rest(rows, rest, cid);
    Ok(())
}
