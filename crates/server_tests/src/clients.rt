//! Clients that come, move, get names and leave.

use client_table::{ClientTable, Full};
use std::test::Fail;
use vpn_base::{Addr, Cid, Ip4, Or, Sid, Text};

const HERE: Addr = Addr {
    ip: Ip4(0x0A00_0001),
    port: 1194,
};

const THERE: Addr = Addr {
    ip: Ip4(0x0A00_0002),
    port: 1194,
};

// Admits a client with a session id of this byte and this value.
fn admit(table: &mut ClientTable<u8>, from: Addr, byte: u8) -> Result<Cid, (u8, Or<Full>)> {
    if table.next_number() == Cid(u64::MAX) {
        return Err((byte, Or::Memory));
    }
    table.admit(from, Sid([byte; 8]), byte)
}

#[test]
fn clients_come_and_go(rt: HostRuntime) -> Result<(), Fail> {
    let mut table = ClientTable::new(rt.alloc(), 2);
    assert!(rt; table.has_room());
    assert_eq!(rt; table.next_number(), Cid(0));
    table.reserve()?;
    assert_eq!(rt; admit(&mut table, HERE, 7), Ok(Cid(0)));
    assert_eq!(rt; admit(&mut table, HERE, 8), Ok(Cid(1)));
    assert_eq!(rt; table.count(), 2);
    assert_eq!(rt; admit(&mut table, THERE, 9), Err((9, Or::Why(Full))));
    assert_eq!(rt; table.by_peer(1), Some(Cid(1)));
    assert_eq!(rt; table.by_peer(2), None);
    assert_eq!(rt; table.remove(Cid(0)), Some(7));
    assert_eq!(rt; table.remove(Cid(0)), None);
    assert_eq!(rt; table.place(Cid(1)), Some(0));
    assert_eq!(rt; admit(&mut table, HERE, 9), Ok(Cid(2)));
    assert_eq!(rt; table.key(Cid(2)).map(|key| key.peer_id), Some(0));
    assert_eq!(rt; table.next_from(Cid(0)), Some(Cid(1)));
    assert_eq!(rt; table.next_from(Cid(3)), None);
    Ok(())
}

#[test]
fn clients_move_and_have_names(rt: HostRuntime) -> Result<(), Fail> {
    let mut table = ClientTable::new(rt.alloc(), 3);
    let _ = admit(&mut table, HERE, 7);
    let _ = admit(&mut table, THERE, 7);
    let _ = admit(&mut table, HERE, 8);
    assert!(rt; !table.move_to(Cid(0), THERE));
    assert!(rt; !table.move_to(Cid(3), THERE));
    assert!(rt; table.move_to(Cid(2), THERE));
    assert_eq!(rt; table.by_session(THERE, Sid([8; 8])), Some(Cid(2)));
    assert_eq!(rt; table.by_session(HERE, Sid([8; 8])), None);
    assert_eq!(rt; table.by_session(HERE, Sid([7; 8])), Some(Cid(0)));
    assert_eq!(rt; table.established_named(b"alice"), None);
    table.establish(Cid(1), Text::copy(rt.alloc(), b"alice")?);
    table.establish(Cid(2), Text::copy(rt.alloc(), b"alice")?);
    assert_eq!(rt; table.established_named(b"alice"), Some(Cid(1)));
    if let Some(i) = table.place(Cid(2)) {
        *table.value_at(i) = 80;
    }
    assert_eq!(rt; table.get(Cid(2)).copied(), Some(80));
    assert_eq!(rt; table.get(Cid(1)).copied(), Some(7));
    Ok(())
}
