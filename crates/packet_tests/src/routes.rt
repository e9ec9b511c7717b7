//! Rows and learned hosts, and who owns an address by them.

ghost use Rattle.std.specs.Prelude.{◌≡◌, ◌<◌};
ghost use Rattle.route_table.specs.Owner.{owner};

use route_table::RouteTable;
use std::marker::Brand;
use std::sync::ledger::{Blank, Ledger};
use std::test::Fail;
use vpn_base::{Cid, Ip4, NoMemory, Prefix, RouteList, Steps};

fn owner_of<L: Ledger>(blank: Blank, table: &RouteTable, a: Ip4) -> Option<Cid>
    requires name { blank.name ≡ L.name }
    requires parts { blank.parts ≡ L.parts }
    requires some { 0 < L.parts }
    ensures { result ≡ owner table.now.rows a }
{
    let mut steps = Steps::<L>::from_blank(blank);
    table.owner(a, &mut steps)
}

fn owner_in(table: &RouteTable, a: Ip4) -> Option<Cid>
    ensures { result ≡ owner table.now.rows a }
{
    owner_of::<Brand>(Blank::new(1), table, a)
}

// Learns an address from the client that owns it.
fn learn(table: &mut RouteTable, a: Ip4) -> Result<(), NoMemory> {
    match owner_in(table, a) {
        Some(cid) => table.learn(a, cid),
        None => Ok(()),
    }
}

#[test]
fn the_longest_and_latest_row_owns(rt: HostRuntime) -> Result<(), Fail> {
    let wide = Prefix::new(Ip4(0x0A00_0000), 8).ok_or("a prefix")?;
    let narrow = Prefix::new(Ip4(0x0A09_0000), 16).ok_or("a prefix")?;
    let mut table = RouteTable::new(rt.alloc())?;
    table.add(narrow, Cid(1))?;
    table.add(narrow, Cid(2))?;
    table.add(wide, Cid(3))?;
    assert_eq!(rt; owner_in(&table, Ip4(0x0A09_0007)), Some(Cid(2)));
    assert_eq!(rt; owner_in(&table, Ip4(0x0AFF_FFFF)), Some(Cid(3)));
    assert_eq!(rt; owner_in(&table, Ip4(0x0B00_0000)), None);
    table.drop_client(Cid(2));
    assert_eq!(rt; owner_in(&table, Ip4(0x0A09_0007)), Some(Cid(1)));
    assert_eq!(rt; table.row(1).map(|row| row.1), Some(Cid(3)));
    assert_eq!(rt; table.row(2).is_none(), true);
    Ok(())
}

#[test]
fn hosts_are_learned(rt: HostRuntime) -> Result<(), Fail> {
    let wide = Prefix::new(Ip4(0x0A00_0000), 8).ok_or("a prefix")?;
    let host = Prefix::new(Ip4(0x0A00_0002), 32).ok_or("a prefix")?;
    let mut rest = RouteList::new(rt.alloc());
    rest.add(wide)?;
    let mut table = RouteTable::new(rt.alloc())?;
    table.reserve(2)?;
    table.add_all(&[host], &rest, Cid(1))?;
    assert_eq!(rt; table.row(1).map(|row| row.1), Some(Cid(1)));
    learn(&mut table, Ip4(0x0A00_0002))?;
    learn(&mut table, Ip4(0x0A00_0003))?;
    learn(&mut table, Ip4(0x0A00_0002))?;
    assert_eq!(rt; table.learned(0), Some((Ip4(0x0A00_0002), Cid(1))));
    assert_eq!(rt; table.learned(1), Some((Ip4(0x0A00_0003), Cid(1))));
    assert_eq!(rt; table.learned(2), None);
    table.add(host, Cid(2))?;
    assert_eq!(rt; table.learned(0), Some((Ip4(0x0A00_0003), Cid(1))));
    table.drop_client(Cid(1));
    assert_eq!(rt; table.learned(0), None);
    Ok(())
}
