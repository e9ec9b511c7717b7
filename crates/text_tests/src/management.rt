//! Commands of the management interface, and the lines that answer them.

use mgmt_lines::{
    Command, FixedLine, StatusRow, address_killed, address_not_found, count_line,
    lines_have_no_control, load_line, name_killed, name_not_found, own_count_line, queued_line,
    read_command, reads_commands_again, seconds_of, status_client, status_route, time_line,
};
use std::alloc::Global;
use std::test::Fail;
use vpn_base::{Addr, Cid, Ip4, Moment, Or, Prefix, Text};

// A command or a fault in a word, with the word or the number that it has.
fn told(alloc: Global, line: &[u8]) -> Result<Text, Fail> {
    let mut text = Vec::new(alloc);
    match read_command(alloc, line) {
        Ok(Command::Help) => text.extend_from_slice(b"help")?,
        Ok(Command::Version) => text.extend_from_slice(b"version")?,
        Ok(Command::Status) => text.extend_from_slice(b"status")?,
        Ok(Command::LoadStats) => text.extend_from_slice(b"load")?,
        Ok(Command::KillName(name)) => {
            text.extend_from_slice(b"name ")?;
            text.extend_from_slice(name.as_slice())?;
        }
        Ok(Command::KillAddr(a)) => {
            return Ok(address_not_found(alloc, a)?);
        }
        Ok(Command::ClientKill(cid)) => {
            return Ok(count_line(alloc, cid, 0, 0)?);
        }
        Ok(Command::Bytecount(n)) => {
            return Ok(queued_line(alloc, u64::from(n))?);
        }
        Ok(Command::Terminate) => text.extend_from_slice(b"stop")?,
        Ok(Command::Blank) => {}
        Err(Or::Why(fault)) => text.extend_from_slice(fault.text())?,
        Err(Or::Memory) => text.extend_from_slice(b"memory")?,
    }
    Ok(Text::of(text))
}

const UNKNOWN: &[u8] = b"ERROR: unknown command";

const ARGUMENTS: &[u8] = b"ERROR: bad arguments";

const TOO_LONG: &[u8] = b"ERROR: command too long";

// Lines, each with what is told of it.
const LINES: [(&[u8], &[u8]); 43] = [
    (b"", b""),
    (b" \t", b""),
    (b"# kill alice", b""),
    (b"help", b"help"),
    (b"help me", ARGUMENTS),
    (b"Help", UNKNOWN),
    (b"version", b"version"),
    (b"version 2", ARGUMENTS),
    (b"status", b"status"),
    (b"status 2", b"status"),
    (b"status 1", ARGUMENTS),
    (b"status 2 2", ARGUMENTS),
    (b"load-stats", b"load"),
    (b"load-stats 1", ARGUMENTS),
    (b"kill nobody", b"name nobody"),
    (b"\"kill\" 'a b'\\;", b"name a b;"),
    (b"kill ''", b"name "),
    (b"kill", ARGUMENTS),
    (b"kill a b", ARGUMENTS),
    (
        b"kill 192.0.2.7:40000",
        b"ERROR: client at address 192.0.2.7:40000 not found",
    ),
    (
        b"kill 0.0.0.0:0",
        b"ERROR: client at address 0.0.0.0:0 not found",
    ),
    (
        b"kill 255.255.255.255:65535",
        b"ERROR: client at address 255.255.255.255:65535 not found",
    ),
    (b"kill 192.0.2.7:65536", b"name 192.0.2.7:65536"),
    (b"kill 192.0.2.7:040", b"name 192.0.2.7:040"),
    (b"kill 192.0.2.7", b"name 192.0.2.7"),
    (b"kill 192.0.2.7:1:2", b"name 192.0.2.7:1:2"),
    (b"client-kill 0", b">BYTECOUNT_CLI:0,0,0"),
    (
        b"client-kill 18446744073709551615",
        b">BYTECOUNT_CLI:18446744073709551615,0,0",
    ),
    (b"client-kill 18446744073709551616", ARGUMENTS),
    (b"client-kill 01", ARGUMENTS),
    (b"client-kill", ARGUMENTS),
    (b"client-kill 1 2", ARGUMENTS),
    (b"bytecount 0", b"GLOBAL_STATS,queued,0"),
    (b"bytecount 86400", b"GLOBAL_STATS,queued,86400"),
    (b"bytecount 86401", ARGUMENTS),
    (b"bytecount -1", ARGUMENTS),
    (b"bytecount", ARGUMENTS),
    (b"signal SIGTERM", b"stop"),
    (b"signal SIGUSR1", ARGUMENTS),
    (b"signal", ARGUMENTS),
    (b"status \"2", UNKNOWN),
    (b"status 2\\", UNKNOWN),
    (b"status\r", UNKNOWN),
];

#[test]
fn commands_read(rt: HostRuntime) -> Result<(), Fail> {
    let alloc = rt.alloc();
    for (line, want) in &LINES {
        let got = told(alloc, line)?;
        assert_eq!(rt; got.as_slice(), *want);
    }
    Ok(())
}

#[test]
fn lines_of_256_bytes(rt: HostRuntime) -> Result<(), Fail> {
    let alloc = rt.alloc();
    let mut line = vec![in alloc; b' '; 252]?;
    line.extend_from_slice(b"help")?;
    assert_eq!(rt; told(alloc, &line)?.as_slice(), b"help".as_slice());
    line.push(b' ')?;
    assert_eq!(rt; told(alloc, &line)?.as_slice(), TOO_LONG);
    Ok(())
}

#[test]
fn lines_of_a_status(rt: HostRuntime) -> Result<(), Fail> {
    let alloc = rt.alloc();
    let real = Addr {
        ip: Ip4(0xC000_0207),
        port: 40_000,
    };
    let row = StatusRow {
        cid: Cid(0),
        name: Text::copy(alloc, b"alice")?,
        real,
        address: Ip4(0x0A08_0002),
        bytes_in: 84,
        bytes_out: 0,
        since: 0,
        peer: 0,
    };
    let client = status_client(alloc, &row)?;
    assert_eq!(rt;
        client.as_slice(),
        b"CLIENT_LIST,alice,192.0.2.7:40000,10.8.0.2,84,0,0,0,0".as_slice()
    );
    let routes: [(u32, u8, bool, &[u8]); 3] = [
        (
            0x0A09_0005,
            32,
            true,
            b"ROUTING_TABLE,10.9.0.5C,alice,192.0.2.7:40000",
        ),
        (
            0x0A08_0002,
            32,
            false,
            b"ROUTING_TABLE,10.8.0.2,alice,192.0.2.7:40000",
        ),
        (
            0x0A09_0000,
            16,
            false,
            b"ROUTING_TABLE,10.9.0.0/16,alice,192.0.2.7:40000",
        ),
    ];
    for (net, len, learned, want) in &routes {
        match Prefix::new(Ip4(*net), *len) {
            Some(p) => {
                let route = status_route(alloc, p, *learned, &row.name, real)?;
                assert_eq!(rt; route.as_slice(), *want);
            }
            None => panic!(rt; "a network"),
        }
    }
    let time = time_line(alloc, Moment(7_999))?;
    assert_eq!(rt; time.as_slice(), b"TIME,7".as_slice());
    assert_eq!(rt; seconds_of(Moment(999)), 0);
    let queued = queued_line(alloc, 0)?;
    assert_eq!(rt; queued.as_slice(), b"GLOBAL_STATS,queued,0".as_slice());
    Ok(())
}

#[test]
fn lines_with_counts(rt: HostRuntime) -> Result<(), Fail> {
    let alloc = rt.alloc();
    let load = load_line(alloc, 1, 84, 0)?;
    let want = b"SUCCESS: nclients=1,bytesin=84,bytesout=0";
    assert_eq!(rt; load.as_slice(), want.as_slice());
    let count = count_line(alloc, Cid(0), 84, 0)?;
    assert_eq!(rt; count.as_slice(), b">BYTECOUNT_CLI:0,84,0".as_slice());
    let own = own_count_line(alloc, 84, u64::MAX)?;
    assert_eq!(rt;
        own.as_slice(),
        b">BYTECOUNT:84,18446744073709551615".as_slice()
    );
    Ok(())
}

#[test]
fn answers_to_kills(rt: HostRuntime) -> Result<(), Fail> {
    let alloc = rt.alloc();
    let real = Addr {
        ip: Ip4(0xC000_0207),
        port: 40_000,
    };
    let named = name_killed(alloc, b"alice", 2)?;
    let want = b"SUCCESS: common name 'alice' found, 2 client(s) killed";
    assert_eq!(rt; named.as_slice(), want.as_slice());
    let not_named = name_not_found(alloc, b"nobody")?;
    let want = b"ERROR: common name 'nobody' not found";
    assert_eq!(rt; not_named.as_slice(), want.as_slice());
    let there = address_killed(alloc, real, 1)?;
    let want = b"SUCCESS: 1 client(s) at address 192.0.2.7:40000 killed";
    assert_eq!(rt; there.as_slice(), want.as_slice());
    let not_there = address_not_found(alloc, real)?;
    let want = b"ERROR: client at address 192.0.2.7:40000 not found";
    assert_eq!(rt; not_there.as_slice(), want.as_slice());
    Ok(())
}

// The lines that are always the same.
const FIXED: [(FixedLine, &[u8]); 11] = [
    (
        FixedLine::Commands,
        b"Commands: bytecount client-kill help kill load-stats signal status version",
    ),
    (FixedLine::Version, b"OpenVPN Version: vpn profile 2.6"),
    (FixedLine::Title, b"TITLE,vpn"),
    (
        FixedLine::ClientHeader,
        b"HEADER,CLIENT_LIST,Name,Real,Virtual,In,Out,Since,Cid,Peer",
    ),
    (
        FixedLine::RouteHeader,
        b"HEADER,ROUTING_TABLE,Prefix,Name,Real",
    ),
    (FixedLine::End, b"END"),
    (
        FixedLine::ClientKilled,
        b"SUCCESS: client-kill command succeeded",
    ),
    (
        FixedLine::ClientNotKilled,
        b"ERROR: client-kill command failed",
    ),
    (
        FixedLine::IntervalChanged,
        b"SUCCESS: bytecount interval changed",
    ),
    (FixedLine::SignalThrown, b"SUCCESS: signal SIGTERM thrown"),
    (FixedLine::NotOnClient, b"ERROR: not available on a client"),
];

#[test]
fn lines_without_numbers(rt: HostRuntime) {
    for (line, want) in &FIXED {
        assert_eq!(rt; line.text(), *want);
    }
    lines_have_no_control();
    reads_commands_again();
}
