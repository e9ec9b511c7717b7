//! Packet ids in orders that were worked out by hand.

use packet_ids::{LongWindow, SendIds, Spent, Window, judge_ids, judge_wrap_ids};
use std::test::Fail;
use vpn_base::{Freshness, Moment};

#[test]
fn ids_are_given_out_once(rt: HostRuntime) {
    let mut ids = SendIds::at(0xFFFFFFFE);
    assert_eq!(rt; ids.next(), Ok(0xFFFFFFFF));
    assert_eq!(rt; ids.next(), Err(Spent));
    assert_eq!(rt; ids.last(), 0xFFFFFFFF);
    assert_eq!(rt; SendIds::at(0).next(), Ok(1));
}

#[test]
fn ids_are_judged(rt: HostRuntime) -> Result<(), Fail> {
    let m = Moment(0);
    let arrivals = [
        (1, m),
        (100, m),
        (37, m),
        (36, m),
        (100, m),
        (1, m),
        (0, m),
        (102, m),
        (100, m),
    ];
    let answers = judge_ids(rt.alloc(), 64, 15, &arrivals)?;
    let wanted = [
        Freshness::Fresh,
        Freshness::Fresh,
        Freshness::Fresh,
        Freshness::Old,
        Freshness::Seen,
        Freshness::Old,
        Freshness::Zero,
        Freshness::Fresh,
        Freshness::Seen,
    ];
    assert_eq!(rt; answers.as_slice(), wanted.as_slice());
    let arrivals = [(5, m), (4, Moment(15_000)), (3, Moment(15_001))];
    let answers = judge_ids(rt.alloc(), 64, 15, &arrivals)?;
    let wanted = [Freshness::Fresh, Freshness::Fresh, Freshness::Late];
    assert_eq!(rt; answers.as_slice(), wanted.as_slice());
    // 9 has the place of 1, which the jump to 10 has passed
    let answers = judge_ids(rt.alloc(), 4, 0, &[(1, m), (10, m), (9, m), (9, m)])?;
    let wanted = [
        Freshness::Fresh,
        Freshness::Fresh,
        Freshness::Fresh,
        Freshness::Seen,
    ];
    assert_eq!(rt; answers.as_slice(), wanted.as_slice());
    Ok(())
}

#[test]
fn pairs_are_judged(rt: HostRuntime) -> Result<(), Fail> {
    let m = Moment(0);
    let arrivals = [
        (7, 2, m),
        (6, 9, m),
        (7, 2, m),
        (8, 1, m),
        (8, 0, m),
        (8, 2, Moment(16_000)),
        (8, 1, Moment(16_000)),
    ];
    let answers = judge_wrap_ids(rt.alloc(), 64, 15, &arrivals)?;
    let wanted = [
        Freshness::Fresh,
        Freshness::Old,
        Freshness::Seen,
        Freshness::Fresh,
        Freshness::Zero,
        Freshness::Fresh,
        Freshness::Seen,
    ];
    assert_eq!(rt; answers.as_slice(), wanted.as_slice());
    Ok(())
}

#[test]
fn windows_are_kept(rt: HostRuntime) -> Result<(), Fail> {
    let mut window = Window::new(rt.alloc(), 1, 0)?;
    assert_eq!(rt; window.greatest(), 0);
    if matches!(window.test(7, Moment(9)), Freshness::Fresh) {
        window.accept(7, Moment(9));
    }
    assert_eq!(rt; window.greatest(), 7);
    assert_eq!(rt; window.test(7, Moment(9)), Freshness::Seen);
    let mut pairs = LongWindow::new(rt.alloc(), 1, 0)?;
    if matches!(pairs.test(0, 1, Moment(0)), Freshness::Fresh) {
        pairs.accept(0, 1, Moment(0));
    }
    assert_eq!(rt; pairs.test(0, 1, Moment(0)), Freshness::Seen);
    assert_eq!(rt; pairs.test(1, 1, Moment(0)), Freshness::Fresh);
    Ok(())
}
