//! Packets in orders that were worked out by hand.

use reliable_recv::{Got, RecvSide, read_all, reads_a_prefix, reads_in_order, reads_packets};
use std::process::Abort;
use std::test::Fail;
use vpn_base::{Bytes, NoMemory};

fn put(rt: &impl Abort, side: &mut RecvSide, id: u32, payload: &[u8]) -> Result<Got, NoMemory> {
    assert!(rt; side.acks_waiting() < 8);
    side.put(id, payload)
}

fn read(rt: &impl Abort, side: &mut RecvSide, wanted: &[u8]) {
    match side.next_in_order() {
        None => assert!(rt; false, "not read: {wanted:?}"),
        Some(payload) => assert!(rt; payload.as_slice() == wanted, "{wanted:?}"),
    }
}

#[test]
fn payloads_are_read_in_order(rt: HostRuntime) -> Result<(), Fail> {
    let mut side = RecvSide::new(rt.alloc())?;
    side.reserve(3)?;
    assert_eq!(rt; put(&rt, &mut side, 1, b"one")?, Got::New);
    assert_eq!(rt; put(&rt, &mut side, 2, b"two")?, Got::New);
    assert!(rt; side.next_in_order().is_none());
    assert_eq!(rt; put(&rt, &mut side, 0, b"")?, Got::New);
    read(&rt, &mut side, b"");
    read(&rt, &mut side, b"one");
    read(&rt, &mut side, b"two");
    assert_eq!(rt; side.read_count(), 3);
    // A payload that was read comes again, and is to be acknowledged again.
    assert_eq!(rt; put(&rt, &mut side, 1, b"one")?, Got::Repeat);
    let acks = side.take_acks(8);
    let ids = acks.ids;
    assert_eq!(rt; acks.count, 4);
    assert_eq!(rt; ids, [1, 2, 0, 1, 0, 0, 0, 0]);
    Ok(())
}

#[test]
fn the_window_is_twelve(rt: HostRuntime) -> Result<(), Fail> {
    let mut side = RecvSide::new(rt.alloc())?;
    assert_eq!(rt; put(&rt, &mut side, 12, b"")?, Got::Ahead);
    assert_eq!(rt; put(&rt, &mut side, 11, b"")?, Got::New);
    Ok(())
}

#[test]
fn whole_runs_are_read(rt: HostRuntime) -> Result<(), Fail> {
    let alloc = rt.alloc();
    let arrivals = [
        (2, Bytes::copy(alloc, b"cd")?),
        (0, Bytes::copy(alloc, b"no text")?),
        (14, Bytes::copy(alloc, b"dropped")?),
        (1, Bytes::copy(alloc, b"ab")?),
    ];
    let text = read_all(alloc, &arrivals)?;
    assert!(rt; text.as_slice() == b"abcd".as_slice());
    reads_a_prefix();
    reads_in_order();
    reads_packets();
    Ok(())
}
