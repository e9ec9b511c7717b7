//! Sendings at moments that were worked out by hand.

use reliable_send::{SendSide, SendingEvent, TextFull, run_sending};
use std::test::Fail;
use vpn_base::{Bytes, Moment, Or};

#[test]
fn a_piece_is_sent_again_until_it_is_acknowledged(rt: HostRuntime) -> Result<(), Fail> {
    let mut events = vec![in rt.alloc(); SendingEvent::Send(Moment(0))]?;
    for second in 1..183u64 {
        events.push(SendingEvent::Tick(Moment(1000 * second)))?;
    }
    let log = run_sending(rt.alloc(), 2, &events)?;
    let wanted = [
        (Moment(0), 0),
        (Moment(2_000), 0),
        (Moment(6_000), 0),
        (Moment(14_000), 0),
        (Moment(30_000), 0),
        (Moment(62_000), 0),
        (Moment(122_000), 0),
        (Moment(182_000), 0),
    ];
    assert_eq!(rt; log.as_slice(), wanted.as_slice());
    Ok(())
}

#[test]
fn six_pieces_are_in_flight(rt: HostRuntime) -> Result<(), Fail> {
    let text = Bytes::of(vec![in rt.alloc(); 7; 5_501]?);
    let events = [
        SendingEvent::Offer(text),
        SendingEvent::Started,
        SendingEvent::Send(Moment(0)),
        SendingEvent::Acked(3),
        SendingEvent::Send(Moment(1)),
        SendingEvent::Acked(0),
        SendingEvent::Send(Moment(2)),
    ];
    let log = run_sending(rt.alloc(), 60, &events)?;
    let wanted = [
        (Moment(0), 0),
        (Moment(0), 1),
        (Moment(0), 2),
        (Moment(0), 3),
        (Moment(0), 4),
        (Moment(0), 5),
        (Moment(2), 6),
    ];
    assert_eq!(rt; log.as_slice(), wanted.as_slice());
    Ok(())
}

#[test]
fn a_side_takes_65536_bytes(rt: HostRuntime) -> Result<(), Fail> {
    let mut side = SendSide::new(rt.alloc(), 2)?;
    let most = vec![in rt.alloc(); 7; 65_536]?;
    side.reserve(65_536)?;
    assert_eq!(rt; side.offer(&most), Ok(()));
    assert_eq!(rt; side.offer(b"x"), Err(Or::Why(TextFull)));
    Ok(())
}

#[test]
fn pieces_are_lent_in_order(rt: HostRuntime) -> Result<(), Fail> {
    let mut side = SendSide::new(rt.alloc(), 2)?;
    side.offer(b"text")?;
    side.peer_started();
    assert_eq!(rt; side.ready(), 2);
    side.count_sent(0, Moment(0));
    side.count_sent(1, Moment(500));
    assert!(rt; side.next_piece().is_none());
    side.acked(0);
    assert_eq!(rt; side.due_count(Moment(2_500)), 1);
    assert_eq!(rt;
        side.next_due(Moment(2_500))
            .map(|piece| (piece.id, piece.bytes)),
        Some((1, b"text".as_slice()))
    );
    Ok(())
}
