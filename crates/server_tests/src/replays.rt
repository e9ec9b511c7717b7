//! A server's configuration, replayed from files in memory into a sink in memory.

use ovpn_config::read_config;
use replay_links::ReplayEnd;
use schedule_text::TextKind;
use server_replay::{Replayed, replay};
use std::alloc::Global;
use std::test::Fail;
use tls_crypt::StaticKey;
use vpn_base::{Bytes, MemFiles, MemSink, NoMemory, Role, Text};
use vpn_links::LinkFault;
use vpn_node::Outcome;

const SERVER_FILE: &[u8; 158] =
    b"dev tun\nproto udp\nport 1194\nserver 10.8.0.0 255.255.255.0\ntopology subnet\n\
keepalive 10 120\ntls-crypt ta.key\nca ca.crt\ncert s.crt\nkey s.key\npersist-key\n\
verb 3\n";

// What a schedule comes to whose file is `s`, under this name and with a sink of so much room.
fn played(
    alloc: Global,
    schedule: &[u8],
    name: &[u8],
    room: usize,
) -> Result<Option<Replayed<MemFiles, MemSink>>, NoMemory> {
    let mut held = Vec::new(alloc);
    held.push((Text::copy(alloc, b"s")?, Bytes::copy(alloc, schedule)?))?;
    let files = MemFiles::new(held, Vec::new(alloc));
    let out = MemSink::new(alloc, room, Vec::new(alloc))?;
    let name = Text::copy(alloc, name)?;
    let Ok(settings) = read_config(alloc, SERVER_FILE) else {
        return Ok(None);
    };
    let key = StaticKey([7; 256]);
    match settings.role {
        Role::Server => Ok(Some(replay(alloc, settings, key, files, name, out))),
        Role::Client => Ok(None),
    }
}

#[test]
fn an_end_alone_stops_the_server(rt: HostRuntime) -> Result<(), Fail> {
    match played(rt.alloc(), b"vpn-schedule 1\nend\n", b"s", 100)? {
        Some(replayed) => {
            assert_eq!(rt; replayed.ran.outcome, Outcome::Stopped);
            assert_eq!(rt;
                (replayed.ran.events, replayed.ran.lost, replayed.ran.refused),
                (1, 0, 0)
            );
            assert_eq!(rt; replayed.ended, None);
            assert!(rt; !replayed.is_cut && replayed.out.held() == b"0 stop\n".as_slice());
        }
        None => assert!(rt; false),
    }
    Ok(())
}

#[test]
fn a_line_is_refused(rt: HostRuntime) -> Result<(), Fail> {
    match played(rt.alloc(), b"vpn-schedule 1\nat 5 tick\nhalt\n", b"s", 100)? {
        Some(replayed) => {
            assert_eq!(rt; replayed.ran.outcome, Outcome::Fault(LinkFault::Schedule));
            assert_eq!(rt; replayed.ran.events, 1);
            assert_eq!(rt;
                replayed.ended,
                Some(ReplayEnd::Refused {
                    line: 3,
                    kind: TextKind::Words
                })
            );
            assert!(rt; replayed.out.held() == b"".as_slice());
        }
        None => assert!(rt; false),
    }
    Ok(())
}

#[test]
fn there_is_no_schedule(rt: HostRuntime) -> Result<(), Fail> {
    match played(rt.alloc(), b"vpn-schedule 1\nend\n", b"t", 100)? {
        Some(replayed) => {
            assert_eq!(rt; replayed.ran.outcome, Outcome::Fault(LinkFault::Input));
            assert_eq!(rt; replayed.ended, Some(ReplayEnd::Missing));
        }
        None => assert!(rt; false),
    }
    Ok(())
}

#[test]
fn the_output_fails(rt: HostRuntime) -> Result<(), Fail> {
    match played(rt.alloc(), b"vpn-schedule 1\nend\n", b"s", 3)? {
        Some(replayed) => {
            assert_eq!(rt; replayed.ran.outcome, Outcome::Fault(LinkFault::Output));
            assert!(rt; replayed.is_cut && replayed.out.held() == b"0 s".as_slice());
        }
        None => assert!(rt; false),
    }
    Ok(())
}
