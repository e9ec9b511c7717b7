//! Lines of schedules read and written, and random bytes that another tool computed.

ghost use Rattle.std.specs.Prelude.{◌+◌, ◌≤◌, length};

use schedule_text::{
    LONGEST_BYTES, LONGEST_LINE, Line, TextKind, draw, read_event_line, write_effect_line,
};
use std::alloc::Global;
use std::test::Fail;
use vpn_base::{
    Addr, Bytes, Cause, Cid, Conn, Freshness, Ip4, Malformed, Moment, NoMemory, Or, Prefix, Role,
    RouteList, Sid, Text, TextList,
};
use vpn_links::{Effect, Event, FileAnswer, Kind, Note};

const PEER: Addr = Addr {
    ip: Ip4(0xC000_0207),
    port: 40_000,
};

// What a line comes to, in a word or two: its kind, or its fault.
fn told(alloc: Global, line: &[u8]) -> &'static str {
    match read_event_line(alloc, line, 7, 1) {
        Ok(Line::Blank) => "blank",
        Ok(Line::Header) => "header",
        Ok(Line::Seed(u64::MAX)) => "greatest seed",
        Ok(Line::Seed(_)) => "seed",
        Ok(Line::End) => "end",
        Ok(Line::Step(event)) => told_event(&event),
        Err(Or::Memory) => "memory",
        Err(Or::Why(kind)) => told_fault(kind),
    }
}

fn told_fault(kind: TextKind) -> &'static str {
    match kind {
        TextKind::Words => "words",
        TextKind::Number => "number",
        TextKind::Address => "address",
        TextKind::Digits => "digits",
        TextKind::Long => "long",
        _ => "another fault",
    }
}

fn told_event(event: &Event) -> &'static str {
    if event.now != Moment(5) || event.draw != draw(7, 1) {
        return "another moment or draw";
    }
    match &event.kind {
        Kind::Datagram { from, bytes } if *from == PEER => told_bytes(bytes, "datagram"),
        Kind::EngineText { conn, bytes } if *conn == Conn(3) => told_bytes(bytes, "enginetext"),
        Kind::EnginePlain { conn, bytes } if *conn == Conn(3) => told_bytes(bytes, "engineplain"),
        Kind::EngineUp { conn, name } if *conn == Conn(3) => told_text(name.as_slice(), "engineup"),
        Kind::EngineDown { conn } if *conn == Conn(3) => "enginedown",
        Kind::DeviceIn { bytes } => told_bytes(bytes, "devicein"),
        Kind::DeviceReady => "deviceready",
        Kind::File { cid, answer } if *cid == Cid(9) => told_answer(answer),
        Kind::Line { bytes } => told_text(bytes.as_slice(), "line"),
        Kind::Tick => "tick",
        Kind::Halt => "halt",
        _ => "another event",
    }
}

fn told_answer(answer: &FileAnswer) -> &'static str {
    match answer {
        FileAnswer::Held(bytes) => told_bytes(bytes, "held"),
        FileAnswer::Missing => "missing",
        FileAnswer::Failed => "failed",
    }
}

fn told_bytes(bytes: &Bytes, word: &'static str) -> &'static str {
    match bytes.as_slice() {
        [] => "no bytes",
        [0xAB, 0x0C] => word,
        _ => "other bytes",
    }
}

fn told_text(text: &[u8], word: &'static str) -> &'static str {
    match text {
        b"" => "no text",
        b"a b" => word,
        _ => "other text",
    }
}

const LINES: [(&[u8], &str); 64] = [
    (b"", "blank"),
    (b"# at", "blank"),
    (b"vpn-schedule 1", "header"),
    (b"vpn-schedule 2", "words"),
    (b"vpn-schedule", "words"),
    (b"seed 0", "seed"),
    (b"seed 18446744073709551615", "greatest seed"),
    (b"seed 18446744073709551616", "number"),
    (b"seed", "words"),
    (b"seed 1 2", "words"),
    (b"end", "end"),
    (b"end ", "words"),
    (b"stop", "words"),
    (b"at", "words"),
    (b"at 5", "words"),
    (b"at x nothing", "words"),
    (b"at 4503599627370497 tick", "number"),
    (b"at 5 datagram 192.0.2.7:40000 aB0c", "datagram"),
    (b"at 5 datagram 192.0.2.7:40000 -", "no bytes"),
    (b"at 5 datagram 192.0.2.7:40000", "words"),
    (b"at 5 datagram 192.0.2.7:40000 ab 0c", "words"),
    (b"at 05 datagram 192.0.2.7 a", "number"),
    (b"at 5 datagram 192.0.2.7:65536 a", "address"),
    (b"at 5 datagram 192.0.2.7:40000 a", "digits"),
    (b"at 5 enginetext 3 ab0c", "enginetext"),
    (b"at 5 enginetext 3", "words"),
    (b"at 5 enginetext x a", "number"),
    (b"at 5 enginetext 3 a", "digits"),
    (b"at 5 engineplain 3 ab0c", "engineplain"),
    (b"at 5 engineplain 3", "words"),
    (b"at 5 engineplain x a", "number"),
    (b"at 5 engineplain 3 ", "digits"),
    (b"at 5 engineup 3 a b", "engineup"),
    (b"at 5 engineup 3", "no text"),
    (b"at 5 engineup 3 ", "no text"),
    (b"at 5 engineup", "words"),
    (b"at 5 engineup a", "number"),
    (b"at 5 enginedown 3", "enginedown"),
    (b"at 5 enginedown 3 3", "words"),
    (b"at 5 enginedown x", "number"),
    (b"at 5 devicein ab0c", "devicein"),
    (b"at 5 devicein", "words"),
    (b"at x devicein a", "number"),
    (b"at 5 devicein a", "digits"),
    (b"at 5 deviceready", "deviceready"),
    (b"at 5 deviceready ", "words"),
    (b"at 5 file 9 held ab0c", "held"),
    (b"at 5 file 9 held", "words"),
    (b"at 5 file x held a", "number"),
    (b"at 5 file 9 held a", "digits"),
    (b"at 5 file 9 missing", "missing"),
    (b"at 5 file 9 missing x", "words"),
    (b"at 5 file x missing", "number"),
    (b"at 5 file 9 failed", "failed"),
    (b"at 5 file 9 failed x", "words"),
    (b"at 5 file 9", "words"),
    (b"at 5 file x found", "words"),
    (b"at 5 line a b", "line"),
    (b"at 5 line", "no text"),
    (b"at 5 line ", "no text"),
    (b"at 5 tick", "tick"),
    (b"at 5 tick 6", "words"),
    (b"at 5 halt", "halt"),
    (b"at 5 halt 6", "words"),
];

#[test]
fn each_line_is_read(rt: HostRuntime) -> Result<(), Fail> {
    let alloc = rt.alloc();
    for (line, wanted) in LINES.as_slice() {
        assert_eq!(rt; told(alloc, line), *wanted);
    }
    Ok(())
}

// The line with so many digits behind it.
fn with_digits(alloc: Global, line: &[u8], digits: usize) -> Result<Vec<u8>, NoMemory> {
    let mut text = Vec::from_slice(alloc, line)?;
    let zeros = vec![in alloc; b'0'; digits]?;
    text.extend_from_slice(&zeros)?;
    Ok(text)
}

#[test]
fn a_long_word_comes_first(rt: HostRuntime) -> Result<(), Fail> {
    let alloc = rt.alloc();
    let longest = with_digits(alloc, b"at 5 datagram 192.0.2.7:40000 ", LONGEST_BYTES)?;
    assert_eq!(rt; told(alloc, &longest), "other bytes");
    let mut long = with_digits(alloc, b"at x file x held ", LONGEST_BYTES + 1)?;
    long.extend_from_slice(b" more")?;
    assert_eq!(rt; told(alloc, &long), "long");
    let comment = with_digits(alloc, b"#", LONGEST_LINE)?;
    assert_eq!(rt; told(alloc, &comment), "long");
    Ok(())
}

fn is_line(alloc: Global, e: &Effect<'_>, wanted: &str) -> Result<bool, NoMemory> {
    let line = write_effect_line(alloc, 12, e)?;
    Ok(line.as_slice() == wanted.as_bytes())
}

const CONN: Conn = Conn(3);

const BYTES: &[u8] = b"\xAB\x0C";

const EFFECTS: [(Effect<'static>, &str); 11] = [
    (
        Effect::Wire {
            to: PEER,
            bytes: BYTES,
        },
        "12 wire 192.0.2.7:40000 ab0c\n",
    ),
    (
        Effect::EngineOpen {
            conn: CONN,
            role: Role::Server,
        },
        "12 engineopen 3 server\n",
    ),
    (
        Effect::EngineOpen {
            conn: CONN,
            role: Role::Client,
        },
        "12 engineopen 3 client\n",
    ),
    (
        Effect::EnginePut {
            conn: CONN,
            bytes: b"",
        },
        "12 engineput 3 -\n",
    ),
    (
        Effect::EngineWrite {
            conn: CONN,
            bytes: BYTES,
        },
        "12 enginewrite 3 ab0c\n",
    ),
    (Effect::EngineClose { conn: CONN }, "12 engineclose 3\n"),
    (Effect::Device { bytes: BYTES }, "12 device ab0c\n"),
    (
        Effect::Ask {
            cid: CID,
            name: b"alice",
        },
        "12 ask 9 alice\n",
    ),
    (Effect::Say { bytes: b"a b" }, "12 say a b\n"),
    (Effect::Report(Note::NoMemory), "12 report no-memory\n"),
    (Effect::Stop, "12 stop\n"),
];

#[test]
fn each_effect_is_written(rt: HostRuntime) -> Result<(), Fail> {
    let alloc = rt.alloc();
    for (effect, wanted) in EFFECTS.as_slice() {
        assert!(rt; is_line(alloc, effect, wanted)?);
    }
    let mut routes = RouteList::new(alloc);
    if let Some(route) = Prefix::new(Ip4(0x0A09_0000), 16) {
        routes.add(route)?;
    }
    let mut rest = TextList::new(alloc);
    rest.add(Text::copy(alloc, b"dhcp")?)?;
    rest.add(Text::copy(alloc, b"")?)?;
    for (gateway, wanted) in [
        (
            None,
            "12 configure 10.8.0.2/24 none 10.9.0.0/16 64686370 -\n",
        ),
        (
            Some(Ip4(1)),
            "12 configure 10.8.0.2/24 0.0.0.1 10.9.0.0/16 64686370 -\n",
        ),
    ]
    .as_slice()
    {
        let setup = Effect::Configure {
            address: Ip4(0x0A08_0002),
            len: 24,
            gateway: *gateway,
            routes: &routes,
            rest: &rest,
        };
        assert!(rt; is_line(alloc, &setup, wanted)?);
    }
    Ok(())
}

const CID: Cid = Cid(9);

const NOTES: [(Note, &str); 27] = [
    (
        Note::Malformed {
            kind: Malformed::NoRemote,
            first: Some(0x0F),
        },
        "malformed no-remote 0f",
    ),
    (
        Note::Malformed {
            kind: Malformed::Empty,
            first: None,
        },
        "malformed empty -",
    ),
    (Note::NotWrapped, "not-wrapped"),
    (Note::Replayed { time: 1, id: 2 }, "replayed 1 2"),
    (Note::UnknownPeer { peer: 1 }, "unknown-peer 1"),
    (
        Note::UnknownSession {
            sid: Sid([0, 1, 2, 3, 4, 5, 6, 0xFF]),
        },
        "unknown-session 00010203040506ff",
    ),
    (Note::UnknownConn { conn: CONN }, "unknown-conn 3"),
    (Note::Full { most: 1 }, "full 1"),
    (Note::BadKey { cid: CID, kid: 7 }, "bad-key 9 7"),
    (Note::NotSealed { cid: CID }, "not-sealed 9"),
    (
        Note::Stale {
            cid: CID,
            kind: Freshness::Old,
            id: 1,
            greatest: 2,
        },
        "stale 9 old 1 2",
    ),
    (Note::Ping { cid: CID }, "ping 9"),
    (Note::NotIp { from: Some(CID) }, "not-ip 9"),
    (Note::TooLong { from: None }, "too-long device"),
    (Note::Multicast { from: Some(CID) }, "multicast 9"),
    (
        Note::BadSource {
            cid: CID,
            owner: None,
        },
        "bad-source 9 none",
    ),
    (
        Note::BadSource {
            cid: CID,
            owner: Some(Cid(8)),
        },
        "bad-source 9 8",
    ),
    (Note::NoRoute, "no-route"),
    (Note::KeySpent { cid: CID }, "key-spent 9"),
    (Note::QueueFull { cid: CID }, "queue-full 9"),
    (
        Note::Moved { cid: CID, to: PEER },
        "moved 9 192.0.2.7:40000",
    ),
    (
        Note::NotLearned {
            cid: CID,
            host: Ip4(1),
        },
        "not-learned 9 0.0.0.1",
    ),
    (Note::Ignored { cid: CID }, "ignored 9"),
    (Note::Unasked { cid: CID }, "unasked 9"),
    (Note::NotUp, "not-up"),
    (
        Note::Ended {
            cid: CID,
            cause: Cause::PoolEmpty,
        },
        "ended 9 pool-empty",
    ),
    (
        Note::Ended {
            cid: CID,
            cause: Cause::BadMessage { place: 4 },
        },
        "ended 9 bad-message 4",
    ),
];

#[test]
fn each_note_is_written(rt: HostRuntime) -> Result<(), Fail> {
    let alloc = rt.alloc();
    for (note, wanted) in NOTES.as_slice() {
        let line = format!(in alloc; "12 report {wanted}\n")?;
        assert!(rt; is_line(alloc, &Effect::Report(*note), &line)?);
    }
    Ok(())
}

// The number of an event, the seed, and the first and last eight bytes of the draw, the low byte first.
const DRAWS: [(u32, u64, u64, u64); 9] = [
    (0, 0, 0x903d_f1a0_ade0_b876, 0x45fb_0a51_281f_ed31),
    (1, 0, 0xe16c_2663_e6a0_092d, 0x5618_cd6d_fff8_2c1f),
    (1_000_000, 0, 0x086b_74c6_0246_974b, 0x6600_883f_59e1_839e),
    (0, 1, 0x9311_ece1_7c0a_d3c5, 0x206b_f760_85b4_1c8f),
    (1, 1, 0xa434_7c14_802c_c026, 0xfe94_8865_d70b_a529),
    (1_000_000, 1, 0x45b3_5179_a860_be00, 0xbb02_812b_3a3e_93b6),
    (0, u64::MAX, 0xeb41_53da_6bee_a23f, 0x2ed2_1113_3530_d412),
    (1, u64::MAX, 0x9e77_a3d4_2a4a_0684, 0xf9d1_d85a_a672_91d1),
    (
        1_000_000,
        u64::MAX,
        0x272a_9761_dafd_37f1,
        0x443d_bed6_168f_9ee2,
    ),
];

fn eight(bytes: &[u8], at: usize) -> [u8; 8]
    requires { at + 8 ≤ length bytes.now }
{
    let mut eight = [0u8; 8];
    eight.copy_from_slice(&bytes[at..at + 8]);
    eight
}

#[test]
fn draws_are_those_of_another_tool(rt: HostRuntime) -> Result<(), Fail> {
    for (number, seed, first, last) in DRAWS.as_slice() {
        let bytes = draw(u64::from(*number), *seed).0;
        assert_eq!(rt; u64::from_le_bytes(eight(&bytes, 0)), *first);
        assert_eq!(rt; u64::from_le_bytes(eight(&bytes, 112)), *last);
    }
    Ok(())
}
