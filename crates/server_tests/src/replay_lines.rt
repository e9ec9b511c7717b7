//! Schedules replayed from files in memory into sinks in memory.

use replay_links::{ReplayEnd, ReplayLinks};
use schedule_text::{TextKind, draw};
use std::alloc::Global;
use std::test::Fail;
use vpn_base::{Bytes, Draw, MemFiles, MemSink, Moment, NoMemory, Or, Text};
use vpn_links::{Effect, Event, Kind, LinkFault, Links};

// Links over one file, `s`, and a sink of so much room, each with the call that fails, if there is one.
fn links(
    alloc: Global,
    text: &[u8],
    room: usize,
    file_fails: Option<u64>,
    sink_fails: Option<u64>,
) -> Result<ReplayLinks<MemFiles, MemSink>, NoMemory> {
    let mut held = Vec::new(alloc);
    held.push((Text::copy(alloc, b"s")?, Bytes::copy(alloc, text)?))?;
    let files = MemFiles::new(held, calls(alloc, file_fails)?);
    let out = MemSink::new(alloc, room, calls(alloc, sink_fails)?)?;
    Ok(ReplayLinks::new(alloc, files, Text::copy(alloc, b"s")?, out))
}

fn calls(alloc: Global, call: Option<u64>) -> Result<Vec<u64>, NoMemory> {
    let mut calls = Vec::new(alloc);
    if let Some(call) = call {
        calls.push(call)?;
    }
    Ok(calls)
}

// How many events come, up to a Halt or a refusal, with the answer that ended them.
fn count<L: Links>(links: &mut L) -> (u64, Result<Moment, Or<LinkFault>>) {
    let mut event = Event {
        now: Moment(0),
        draw: Draw([0; 120]),
        kind: Kind::Tick,
    };
    for n in 0..9u64 {
        if let Err(fault) = links.next(&mut event) {
            return (n, Err(fault));
        }
        if let Kind::Halt = event.kind {
            return (n, Ok(event.now));
        }
    }
    (9, Ok(event.now))
}

// A text, how many events come before its Halt or its refused line, and the line with its fault.
const TEXTS: [(&[u8], u64, Option<(u64, TextKind)>); 17] = [
    (b"vpn-schedule 1\nend\n", 0, None),
    (b"vpn-schedule 1\r\nat 5 tick\r\n# end\r\nend\r\n", 1, None),
    (
        b"\n# a\nvpn-schedule 1\n\nseed 1\nat 5 tick\nat 5 line\nend",
        2,
        None,
    ),
    (b"vpn-schedule 1\nat 5 tick\nend\nnothing", 1, None),
    (
        b"vpn-schedule 1\nat 5 tick\nat 5 tick\nat 5 tick",
        3,
        Some((4, TextKind::NoEnd)),
    ),
    (b"", 0, Some((0, TextKind::NoEnd))),
    (b"\n#\n", 0, Some((2, TextKind::NoEnd))),
    (b"vpn-schedule 2\n", 0, Some((1, TextKind::Header))),
    (b"\nend\n", 0, Some((2, TextKind::Header))),
    (
        b"vpn-schedule 1\nvpn-schedule 1\n",
        0,
        Some((2, TextKind::Words)),
    ),
    (
        b"vpn-schedule 1\nat 5 tick\nvpn-schedule 1\n",
        1,
        Some((3, TextKind::Words)),
    ),
    (
        b"vpn-schedule 1\nat 5 tick\nseed x\n",
        1,
        Some((3, TextKind::Words)),
    ),
    (b"vpn-schedule 1\nseed x\n", 0, Some((2, TextKind::Number))),
    (
        b"vpn-schedule 1\nseed 1\nseed 1\n",
        0,
        Some((3, TextKind::Words)),
    ),
    (
        b"vpn-schedule 1\nat 5 tick\nat 5 devicein a\nend",
        1,
        Some((3, TextKind::Digits)),
    ),
    (
        b"vpn-schedule 1\nat 5 datagram 1.2.3 00\nend",
        0,
        Some((2, TextKind::Address)),
    ),
    (b"vpn-schedule 1\nat 5 halt\nwrong\nend", 0, None),
];

#[test]
fn schedules_are_read_to_their_end_or_fault(rt: HostRuntime) -> Result<(), Fail> {
    let alloc = rt.alloc();
    for (text, wanted, fault) in TEXTS.as_slice() {
        let mut links = links(alloc, text, 0, None, None)?;
        let (events, answer) = count(&mut links);
        assert_eq!(rt; events, *wanted);
        match fault {
            None => {
                assert!(rt; answer.is_ok());
                assert_eq!(rt; links.ended(), None);
            }
            Some((line, kind)) => {
                assert_eq!(rt; answer, Err(Or::Why(LinkFault::Schedule)));
                assert_eq!(rt;
                    links.ended(),
                    Some(ReplayEnd::Refused {
                        line: *line,
                        kind: *kind
                    })
                );
            }
        }
    }
    Ok(())
}

#[test]
fn events_bring_their_draws_and_the_end_its_moment(rt: HostRuntime) -> Result<(), Fail> {
    let alloc = rt.alloc();
    let text = b"vpn-schedule 1\nseed 7\nat 3 tick\nat 8 tick\nend";
    let mut links = links(alloc, text, 0, None, None)?;
    let mut event = Event {
        now: Moment(0),
        draw: Draw([0; 120]),
        kind: Kind::Halt,
    };
    for (number, now) in [(0u32, 3u64), (1, 8), (2, 8)].as_slice() {
        assert!(rt; links.next(&mut event).is_ok());
        assert_eq!(rt; event.now, Moment(*now));
        assert!(rt; event.draw == draw(u64::from(*number), 7));
    }
    assert!(rt; matches!(event.kind, Kind::Halt));
    assert_eq!(rt; count(&mut links), (0, Ok(Moment(8))));
    Ok(())
}

#[test]
fn files_fail(rt: HostRuntime) -> Result<(), Fail> {
    let alloc = rt.alloc();
    let text = b"vpn-schedule 1\nat 5 tick\nend";
    for call in [0, 1].as_slice() {
        let mut links = links(alloc, text, 0, Some(*call), None)?;
        assert_eq!(rt; count(&mut links), (0, Err(Or::Why(LinkFault::Input))));
        assert_eq!(rt; links.ended(), Some(ReplayEnd::Failed));
        assert_eq!(rt; count(&mut links), (1, Ok(Moment(5))));
    }
    let files = MemFiles::new(Vec::new(alloc), Vec::new(alloc));
    let out = MemSink::new(alloc, 0, Vec::new(alloc))?;
    let mut links = ReplayLinks::new(alloc, files, Text::copy(alloc, b"s")?, out);
    assert_eq!(rt; count(&mut links), (0, Err(Or::Why(LinkFault::Input))));
    assert_eq!(rt; links.ended(), Some(ReplayEnd::Missing));
    Ok(())
}

// What the sink holds after two effects of the second event, and the answers.
fn give_two(
    alloc: Global,
    room: usize,
    fails: Option<u64>,
) -> Result<(MemSink, bool, bool), NoMemory> {
    let text = b"vpn-schedule 1\nat 5 tick\nend";
    let mut links = links(alloc, text, room, None, fails)?;
    let early = links.give(&Effect::Stop).is_ok();
    let (events, _) = count(&mut links);
    let first = links.give(&Effect::Say { bytes: b"a" }).is_ok();
    let second = links.give(&Effect::Stop).is_ok();
    let (_, out) = links.parts();
    Ok((out, early && events == 1 && first, second))
}

#[test]
fn lines_are_written_until_the_sink_fails(rt: HostRuntime) -> Result<(), Fail> {
    let alloc = rt.alloc();
    let (out, first, second) = give_two(alloc, 100, None)?;
    assert!(rt; first && second && out.held() == b"1 say a\n1 stop\n".as_slice());
    let (out, first, second) = give_two(alloc, 100, Some(0))?;
    assert!(rt; !first && !second && out.held() == b"".as_slice());
    let (out, first, second) = give_two(alloc, 100, Some(1))?;
    assert!(rt; first && !second && out.held() == b"1 say a\n".as_slice());
    let (out, first, second) = give_two(alloc, 3, None)?;
    assert!(rt; !first && !second && out.held() == b"1 s".as_slice());
    Ok(())
}
