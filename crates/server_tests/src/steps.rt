//! Steps of a server, event by event.

ghost use Rattle.vpn_links.specs.Rounds.{IsOfLine};

use crate::stories::{
    FILES, FIRST_CLIENT, FULL, KEY, POOL, QUEUE, RENEGOTIATIONS, SERVER, Story, TRANSITION,
};
use ovpn_config::read_config;
use peer_session::PeerSession;
use schedule_text::{Line, draw, read_event_line, write_effect_line};
use server_core::Server;
use server_state::ServerCore;
use std::alloc::Global;
use std::test::Fail;
use tls_crypt::{StaticKey, Wrapper, read_static_key};
use vpn_base::{Addr, Conn, Ip4, Moment, NoMemory, Place, Role, Sid};
use vpn_links::{Event, Kind, Machine, Outbox};

type Core = ServerCore<PeerSession<Wrapper>>;

// A server to which nothing has come, or None where the configuration or the key is refused.
fn begun(alloc: Global, configuration: &[u8]) -> Result<Option<Server<Core>>, NoMemory> {
    let (Ok(settings), Ok(key)) = (read_config(alloc, configuration), read_static_key(KEY)) else {
        return Ok(None);
    };
    match settings.role {
        Role::Server => Ok(Some(Server::make(alloc, settings, key)?)),
        Role::Client => Ok(None),
    }
}

// Takes one event, and appends what the server does, one effect a line.
fn take(
    alloc: Global,
    server: &mut Server<Core>,
    number: u64,
    event: &Event,
    text: &mut Vec<u8>,
) -> Result<(), NoMemory>
    requires { IsOfLine event.now.kind }
{
    let mut out = Outbox::make(alloc)?;
    server.step(event, &mut out)?;
    for i in 0..out.count() {
        if let Some(effect) = out.effect(i) {
            let line = write_effect_line(alloc, number, &effect)?;
            text.extend_from_slice(line.as_slice())?;
        }
    }
    Ok(())
}

// The most events of a schedule.
const MOST: u64 = 1000;

// What the first so many events of a schedule do to a server, its end among them, or None where a line is refused.
fn served(
    alloc: Global,
    server: &mut Server<Core>,
    schedule: &[u8],
    most: u64,
) -> Result<Option<Vec<u8>>, NoMemory> {
    let mut text = Vec::new(alloc);
    let mut number = 0;
    let mut now = Moment(0);
    for line in schedule.split(|b| *b == b'\n') {
        if number >= most || number >= MOST {
            break;
        }
        let event = match read_event_line(alloc, line, number, 0) {
            Ok(Line::Step(event)) => event,
            Ok(Line::End) => Event {
                now,
                draw: draw(number, 0),
                kind: Kind::Halt,
            },
            Ok(_) => continue,
            Err(_) => return Ok(None),
        };
        take(alloc, server, number, &event, &mut text)?;
        now = event.now;
        number += 1;
    }
    Ok(Some(text))
}

fn is_told(alloc: Global, story: &Story<'_>) -> Result<bool, NoMemory> {
    let Some(mut server) = begun(alloc, story.configuration)? else {
        return Ok(false);
    };
    match served(alloc, &mut server, story.schedule, MOST)? {
        Some(text) => match story.transcript.strip_prefix(text.as_slice()) {
            Some(rest) => Ok(rest.starts_with(b"done ")),
            None => Ok(false),
        },
        None => Ok(false),
    }
}

#[test]
fn stories_are_told(rt: HostRuntime) -> Result<(), Fail> {
    let stories = [
        &FIRST_CLIENT,
        &FULL,
        &POOL,
        &RENEGOTIATIONS,
        &TRANSITION,
        &QUEUE,
        &FILES,
    ];
    for (i, story) in stories.iter().enumerate() {
        assert!(rt; is_told(rt.alloc(), story)?, "story {i}");
    }
    Ok(())
}

const CLIENT: Addr = Addr {
    ip: Ip4(0xc000_0207),
    port: 40000,
};

// The key session of the first client.
const FIRST: Place = Place {
    conn: Conn(0),
    own: Sid([0x76, 0xb8, 0xe0, 0xad, 0xa0, 0xf1, 0x3d, 0x90]),
    peer: Some(Sid([0xc4, 0x1a, 0x4e, 0x27, 0x81, 0xdd, 0x52, 0xe1])),
    number: 0,
};

// A server to which so many events of the first client have come.
fn after(alloc: Global, events: u64) -> Result<Option<Server<Core>>, NoMemory> {
    let Some(mut server) = begun(alloc, SERVER)? else {
        return Ok(None);
    };
    match served(alloc, &mut server, FIRST_CLIENT.schedule, events)? {
        Some(_) => Ok(Some(server)),
        None => Ok(None),
    }
}

fn last_taken_after(alloc: Global, events: u64) -> Result<Option<Place>, NoMemory> {
    match after(alloc, events)? {
        Some(server) => Ok(server.last_taken()),
        None => Ok(None),
    }
}

#[test]
fn a_datagram_is_taken_by_a_key_session(rt: HostRuntime) -> Result<(), Fail> {
    assert!(rt; last_taken_after(rt.alloc(), 1)? == Some(FIRST));
    assert!(rt; last_taken_after(rt.alloc(), 2)? == None);
    assert!(rt; last_taken_after(rt.alloc(), 6)? == Some(FIRST));
    Ok(())
}

fn sent_by_after(alloc: Global, events: u64, packet: &[u8]) -> Result<Option<Place>, NoMemory> {
    match after(alloc, events)? {
        Some(server) => Ok(server.sent_by(CLIENT, packet)),
        None => Ok(None),
    }
}

#[test]
fn a_data_packet_tells_its_sender(rt: HostRuntime) -> Result<(), Fail> {
    // of key id 0 for peer id 0
    let mut packet = [0; 40];
    packet[0] = 0x48;
    assert!(rt; sent_by_after(rt.alloc(), 4, &packet)? == Some(FIRST));
    assert!(rt; sent_by_after(rt.alloc(), 0, &packet)? == None);
    Ok(())
}

// What a server does to which time alone has come.
fn ticked(alloc: Global) -> Result<Option<Vec<u8>>, NoMemory> {
    let Some(mut server) = begun(alloc, SERVER)? else {
        return Ok(None);
    };
    let event = Event {
        now: Moment(86_400_000),
        draw: draw(0, 0),
        kind: Kind::Tick,
    };
    let mut text = Vec::new(alloc);
    take(alloc, &mut server, 0, &event, &mut text)?;
    Ok(Some(text))
}

#[test]
fn time_alone_does_nothing(rt: HostRuntime) -> Result<(), Fail> {
    match ticked(rt.alloc())? {
        Some(text) => assert!(rt; text.is_empty()),
        None => assert!(rt; false),
    }
    Ok(())
}
