//! Measures how long a packet id takes to be judged and accepted, by windows of two widths.
//!
//! With no word it prints how many ids of each order were fresh. With the word `time` it prints the
//! nanoseconds an id, in the best of many short rounds.
#![tactic(auto)]

use packet_ids::Window;
use std::alloc::Global;
use std::rt::Clock;
use std::time::Instant;
use std::{env, io};
use vpn_base::{Freshness, Moment, NoMemory};

const ROUNDS: u32 = 100;

// A million ids in all.
const IDS_A_ROUND: u32 = 10_000;

const SECONDS: u32 = 15;

// How late each tenth id is.
const LATE: u32 = 8;

#[derive(Clone, Copy)]
enum Order {
    InOrder,
    TenthLate,
}

fn accept(window: &mut Window, id: u32) -> bool {
    match window.test(id, Moment(0)) {
        Freshness::Fresh => {
            window.accept(id, Moment(0));
            true
        }
        Freshness::Zero | Freshness::Old | Freshness::Seen | Freshness::Late => false,
    }
}

// How many of the ids behind this one are fresh, one after the other.
fn accept_in_order(window: &mut Window, behind: u32) -> u32 {
    let mut fresh: u32 = 0;
    for i in 1..=IDS_A_ROUND {
        if accept(window, behind.wrapping_add(i)) {
            fresh = fresh.wrapping_add(1);
        }
    }
    fresh
}

// The same, where each tenth id comes after the eight that follow it.
fn accept_tenth_late(window: &mut Window, behind: u32) -> u32 {
    let mut fresh: u32 = 0;
    for i in 1..=IDS_A_ROUND {
        let id = behind.wrapping_add(i);
        if id % 10 != 0 && accept(window, id) {
            fresh = fresh.wrapping_add(1);
        }
        if id % 10 == LATE && accept(window, id.saturating_sub(LATE)) {
            fresh = fresh.wrapping_add(1);
        }
    }
    fresh
}

fn accept_round(window: &mut Window, order: Order, round: u32) -> u32 {
    let behind = round.wrapping_mul(IDS_A_ROUND);
    match order {
        Order::InOrder => accept_in_order(window, behind),
        Order::TenthLate => accept_tenth_late(window, behind),
    }
}

fn window_of(alloc: Global, width: u32) -> io::Result<Window> {
    if width == 0 {
        return Err(io::Error::from(io::ErrorKind::InvalidInput));
    }
    match Window::new(alloc, width, SECONDS) {
        Ok(window) => Ok(window),
        Err(NoMemory) => Err(io::Error::from(io::ErrorKind::OutOfMemory)),
    }
}

fn count_fresh(alloc: Global, width: u32, order: Order) -> io::Result<u32> {
    let mut window = window_of(alloc, width)?;
    let mut fresh: u32 = 0;
    for round in 0..ROUNDS {
        fresh = fresh.wrapping_add(accept_round(&mut window, order, round));
    }
    Ok(fresh)
}

// The nanoseconds of the best round.
fn least_nanos(rt: &(impl Clock + AllocGlobal), width: u32, order: Order) -> io::Result<u64> {
    let mut window = window_of(rt.alloc(), width)?;
    let mut least = u64::MAX;
    for round in 0..ROUNDS {
        let start = Instant::now(rt)?;
        let _fresh = accept_round(&mut window, order, round);
        let nanos = u64::try_from(start.elapsed(rt)?.as_nanos()).unwrap_or(u64::MAX);
        least = least.min(nanos);
    }
    Ok(least)
}

fn print_one(
    rt: &(impl Clock + AllocGlobal + Print),
    is_timed: bool,
    name: &str,
    width: u32,
    order: Order,
) -> io::Result<()> {
    if is_timed {
        let nanos = least_nanos(rt, width, order)?;
        let whole = nanos / u64::from(IDS_A_ROUND);
        let hundredths = nanos % u64::from(IDS_A_ROUND) / 100;
        println!(rt; "{name} {width} {whole}.{hundredths:02}")
    } else {
        println!(rt; "{name} {width} {}", count_fresh(rt.alloc(), width, order)?)
    }
}

fn main(rt: HostRuntime) -> io::Result<()> {
    let mut words = env::args(&rt)?;
    let _program = words.next();
    let is_timed = match words.next() {
        Some(word) => word.as_str() == "time",
        None => false,
    };
    for width in [64, 1024] {
        print_one(&rt, is_timed, "in-order", width, Order::InOrder)?;
        print_one(&rt, is_timed, "tenth-late", width, Order::TenthLate)?;
    }
    Ok(())
}
