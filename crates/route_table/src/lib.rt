//! Which client owns an address: the longest prefix that contains it. And the hosts that were learned
//! from the packets of clients.
#![tactic(auto)]

ghost use Rattle.std.specs.Prelude.{◌≡◌, ◌+◌, ◌≤◌, ◌<◌, [], ◌∷◌, ◌++◌, length, true, IsOk, IfOk, OnOk, OnErr, IfSome, slice_get};
ghost use Rattle.route_table.specs.Owner.{owner};
ghost use Rattle.route_table.specs.Learned.{is_learned, rows_of, table_empty, table_of, with_host, with_rows, without_client};

mod hosts;
mod rows;

use hosts::{judge_again, make_room, put_in_front};
pub use rows::is_owner;
use rows::{keep_others, owner_among, put_all};
use std::alloc::Global;
use std::marker::Model;
use std::sync::ledger::Ledger;
use vpn_base::{Cid, Ip4, NoMemory, Prefix, RouteList, Steps};

/// Prefixes with the clients that own them, and hosts that were learned from clients. Contracts see
/// the list of rows in the order in which they were added, the list of hosts, the latest first, and
/// for how many more rows there is room.
#[derive(Drop)]
pub struct RouteTable {
    rows: Vec<(Prefix, Cid)>,
    hosts: Vec<(Ip4, Cid)>,
}

impl Model for RouteTable {
    ghost use Rattle.std.specs.Prelude.{◌-◌, vec_len, vec_capacity};
    ghost use Rattle.route_table.specs.Learned.{Contents};
    ghost use Rattle.route_table.specs.internal.Sound.{IsSound};

    ghost Value = { Contents };

    ghost view = { λ t. record { rows = t.rows.items; learned = t.hosts.items; spare_rows = vec_capacity t.rows - vec_len t.rows } };

    ghost invariant = { λ t. IsSound t.rows.items t.hosts.items };
}

impl RouteTable {
    /// A table with no rows and no hosts. It always answers Ok.
    pub fn new(alloc: Global) -> Result<RouteTable, NoMemory>
        ensures ok { IsOk result }
        ensures empty { IfOk result (λ t. table_of t ≡ table_empty) }
    {
        Ok(RouteTable {
            rows: Vec::new(alloc),
            hosts: Vec::new(alloc),
        })
    }

    /// Makes room for at least so many more rows. It takes no memory where that room is there.
    pub fn reserve(&mut self, rows: usize) -> Result<(), NoMemory>
        ensures same { table_of self.new ≡ table_of self.old }
        ensures ok { OnOk result (rows ≤ self.new.spare_rows) }
        ensures fits { rows ≤ self.old.spare_rows → IsOk result }
        ensures grows { self.old.spare_rows ≤ self.new.spare_rows }
    {
        self.rows.reserve(rows)?;
        Ok(())
    }

    /// Adds a row at the end. A learned host that another client owns now is gone. After want of memory
    /// the table is as before.
    pub fn add(&mut self, prefix: Prefix, cid: Cid) -> Result<(), NoMemory>
        ensures ok { OnOk result (table_of self.new ≡ with_rows ((prefix, cid) ∷ []) (table_of self.old)) }
        ensures err { OnErr result (table_of self.new ≡ table_of self.old) }
    {
        self.rows.push((prefix, cid))?;
        judge_again(&mut self.hosts, &self.rows);
        Ok(())
    }

    /// Adds a client's rows at the end: those of `own` and then those of `rest`, all or none. A learned
    /// host that it owns in place of another client is gone. After want of memory, which does not come
    /// where there is room for all of them, the table is as before.
    pub fn add_all(&mut self, own: &[Prefix], rest: &RouteList, cid: Cid) -> Result<(), NoMemory>
        ensures ok { OnOk result (table_of self.new ≡ with_rows (rows_of cid (own.now ++ rest.now)) (table_of self.old)) }
        ensures err { OnErr result (table_of self.new ≡ table_of self.old) }
        ensures fits { length own.now + length rest.now ≤ self.old.spare_rows → IsOk result }
    {
        put_all(&mut self.rows, own, rest, cid)?;
        judge_again(&mut self.hosts, &self.rows);
        Ok(())
    }

    /// Takes out the rows of this client and the hosts that nobody owns any more or another one does.
    /// The others keep their order.
    pub fn drop_client(&mut self, cid: Cid)
        ensures dropped { table_of self.new ≡ without_client cid (table_of self.old) }
        ensures grows { self.old.spare_rows ≤ self.new.spare_rows }
    {
        keep_others(&mut self.rows, cid);
        judge_again(&mut self.hosts, &self.rows);
    }

    /// The client of the longest prefix that contains the address, of equally long ones the one
    /// added last. It is None exactly where no row contains the address. It takes at most one step
    /// a row.
    pub fn owner<L: Ledger>(&self, a: Ip4, steps: &mut Steps<L>) -> Option<Cid>
        ensures found { result ≡ owner self.now.rows a }
        ensures cost { steps.new ≤ steps.old + length self.now.rows }
    {
        owner_among(&self.rows, a, steps)
    }

    /// Puts a host in front of those that were learned, and cuts them at 256. The client owns it. Want of
    /// memory leaves the table as before, and comes only where the host is not there and fewer than 256
    /// are.
    pub fn learn(&mut self, host: Ip4, cid: Cid) -> Result<(), NoMemory>
        requires { owner self.old.rows host ≡ Some cid }
        ensures ok { OnOk result (table_of self.new ≡ with_host host cid (table_of self.old)) }
        ensures err { OnErr result (table_of self.new ≡ table_of self.old) }
        ensures there { is_learned self.old.learned host ≡ true → IsOk result }
        ensures full { 256 ≤ length self.old.learned → IsOk result }
    {
        make_room(&mut self.hosts, host)?;
        put_in_front(&mut self.hosts, host, cid);
        Ok(())
    }

    /// The row at this place, from 0 in the order of adding. It is None exactly past the end.
    pub fn row(&self, i: usize) -> Option<(Prefix, Cid)>
        ensures { result ≡ slice_get self.now.rows i }
    {
        self.rows.get(i).copied()
    }

    /// The learned host at this place, from 0 for the latest, with its client, which owns it. It is None
    /// exactly past the end, and there are at most 256.
    pub fn learned(&self, i: usize) -> Option<(Ip4, Cid)>
        ensures item { result ≡ slice_get self.now.learned i }
        ensures owned { IfSome result (λ host. owner self.now.rows host.0 ≡ Some host.1) }
        ensures few { IfSome result (λ _. i < 256) }
    {
        self.hosts.get(i).copied()
    }
}
