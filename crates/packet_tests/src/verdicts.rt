//! Verdicts on inner packets, each with the packet and the rows that it comes of.

ghost use Rattle.std.specs.Prelude.{◌≡◌, ◌<◌};

use inner_verdict::{Verdict, verdict_on};
use route_table::RouteTable;
use std::marker::Brand;
use std::sync::ledger::{Blank, Ledger};
use std::test::Fail;
use vpn_base::{Cid, Ip4, Prefix, Steps};

fn judge<L: Ledger>(
    blank: Blank,
    table: &RouteTable,
    between: bool,
    sender: Option<Cid>,
    packet: &[u8],
) -> Verdict
    requires name { blank.name ≡ L.name }
    requires parts { blank.parts ≡ L.parts }
    requires some { 0 < L.parts }
{
    let mut steps = Steps::<L>::from_blank(blank);
    let subnet = Prefix::new(Ip4(0x0A08_0000), 24);
    verdict_on(table, subnet, between, sender, packet, &mut steps)
}

// The verdict on a packet of 20 bytes.
fn verdict_between(
    table: &RouteTable,
    between: bool,
    sender: Option<Cid>,
    source: u8,
    destination: u8,
) -> Verdict {
    let packet = [
        0x45,
        0,
        0,
        20,
        0,
        0,
        0,
        0,
        0,
        0,
        0,
        0,
        10,
        8,
        0,
        source,
        10,
        8,
        0,
        destination,
    ];
    judge::<Brand>(Blank::new(1), table, between, sender, &packet)
}

#[test]
fn verdicts_in_their_order(rt: HostRuntime) -> Result<(), Fail> {
    let one = Some(Cid(1));
    let two = Some(Cid(2));
    let mut table = RouteTable::new(rt.alloc())?;
    table.add(Prefix::new(Ip4(0x0A08_0002), 32).ok_or("a prefix")?, Cid(1))?;
    table.add(Prefix::new(Ip4(0x0A08_0004), 30).ok_or("a prefix")?, Cid(2))?;
    assert_eq!(rt;
        judge::<Brand>(Blank::new(1), &table, false, one, &[]),
        Verdict::NotIp
    );
    assert_eq!(rt;
        verdict_between(&table, true, one, 2, 255),
        Verdict::Multicast
    );
    assert_eq!(rt;
        verdict_between(&table, true, one, 5, 1),
        Verdict::BadSource { owner: two }
    );
    assert_eq!(rt;
        verdict_between(&table, true, one, 2, 7),
        Verdict::ToClient(Cid(2))
    );
    assert_eq!(rt;
        verdict_between(&table, false, one, 2, 7),
        Verdict::ToDevice
    );
    assert_eq!(rt;
        verdict_between(&table, false, None, 1, 8),
        Verdict::NoRoute
    );
    Ok(())
}
