//! Addresses that are taken, given back, and run out.

use address_pool::{Pool, PoolEmpty, give_addresses};
use std::test::Fail;
use vpn_base::{Ip4, Or};

fn taken(pool: &mut Pool) -> Option<Ip4> {
    match pool.take() {
        Ok(a) => Some(a),
        Err(_) => None,
    }
}

#[test]
fn takings_are_counted(rt: HostRuntime) -> Result<(), Fail> {
    let mut pool = Pool::new(rt.alloc(), Ip4(2), Ip4(3));
    pool.take_exact(Ip4(2))?;
    pool.take_exact(Ip4(2))?;
    pool.give_back(Ip4(2));
    assert_eq!(rt; taken(&mut pool), Some(Ip4(3)));
    assert_eq!(rt; taken(&mut pool), None);
    pool.give_back(Ip4(2));
    assert_eq!(rt; taken(&mut pool), Some(Ip4(2)));
    match pool.take_beside(Ip4(3)) {
        Ok(a) => assert_eq!(rt; a, Ip4(3)),
        Err(_) => panic!(rt; "an address is given up"),
    }
    match pool.take_beside(Ip4(3)) {
        Err(Or::Why(PoolEmpty)) => {}
        _ => panic!(rt; "it was taken again"),
    }
    Ok(())
}

#[test]
fn five_clients_and_no_more(rt: HostRuntime) {
    let first = Ip4(0x0A08_0002);
    let last = Ip4(0x0A08_0006);
    match give_addresses(rt.alloc(), first, last, &[None; 5]) {
        Ok(addresses) => {
            let wanted = [
                first,
                Ip4(0x0A08_0003),
                Ip4(0x0A08_0004),
                Ip4(0x0A08_0005),
                last,
            ];
            assert_eq!(rt; addresses.as_slice(), wanted.as_slice());
        }
        Err(_) => panic!(rt; "no addresses"),
    }
    match give_addresses(rt.alloc(), first, last, &[None; 6]) {
        Err(Or::Why(PoolEmpty)) => {}
        _ => panic!(rt; "an address past the range"),
    }
}
