//! What an engine, a peer and the packets of openssl bring to the channels of one key session.

use control_link::{Envelope, LinkEnd};
use hmac_kit::KeyBlock;
use key_method2::{Km2ViewRead, Source};
use opcode_codec::{Opcode, read_control};
use peer_lines::{SessionBlank, SessionChannels, channels_stand_on, links_go_on};
use std::alloc::Global;
use std::test::Fail;
use tls_crypt::{StaticKey, Wrapper};
use vpn_base::{Addr, Cipher, Conn, Ip4, Moment, NoMemory, Or, Role, Sid, Timers};
use vpn_links::{ControlText, Effect, Outbox};

const PEER: Addr = Addr {
    ip: Ip4(0xC000_0207),
    port: 1194,
};

const TIMERS: Timers = Timers {
    reneg: 3_600,
    tran: 3_600,
    hand: 60,
    timeout: 2,
    win: 64,
    win_secs: 15,
};

const SOURCE: Source = Source {
    pre: None,
    random1: [1; 32],
    random2: [2; 32],
};

// A packet from 10.8.0.2 to 10.8.0.1.
const INNER: [u8; 20] = [
    0x45, 0x00, 0x00, 0x14, 0x00, 0x00, 0x00, 0x00, 0x40, 0x00, 0x00, 0x00, 0x0a, 0x08, 0x00, 0x02,
    0x0a, 0x08, 0x00, 0x01,
];

// What openssl makes of it under the first packet id and the keys of the block of the bytes 0 to 255 with AES-128, for key
// id 3 and peer id 5, at each end.
const OF_CLIENT: [u8; 44] = [
    0x4b, 0x00, 0x00, 0x05, 0x00, 0x00, 0x00, 0x01, 0x93, 0xc2, 0x04, 0x3f, 0x80, 0x62, 0x7e, 0x1d,
    0x9c, 0x6b, 0x1b, 0xd9, 0xd7, 0x1e, 0xab, 0xbd, 0x97, 0x03, 0xfc, 0xf3, 0xdc, 0xd3, 0x3a, 0x90,
    0xc2, 0xdd, 0x29, 0xad, 0x12, 0xbf, 0x7a, 0xaf, 0xce, 0x1f, 0x4a, 0x0b,
];

const OF_SERVER: [u8; 44] = [
    0x4b, 0x00, 0x00, 0x05, 0x00, 0x00, 0x00, 0x01, 0x39, 0x95, 0x8b, 0x93, 0x65, 0x5b, 0x96, 0x9b,
    0x28, 0x99, 0x23, 0x16, 0x74, 0xf3, 0x88, 0x5d, 0x83, 0x0b, 0x4d, 0x14, 0xe1, 0x74, 0x10, 0x3c,
    0x4c, 0xd8, 0x26, 0x86, 0x4a, 0x9d, 0x8e, 0x9b, 0x2e, 0x29, 0x58, 0xee,
];

// The block of the bytes 0 to 255.
fn keys() -> KeyBlock {
    let mut block = [0u8; 256];
    for i in 0..256usize {
        block[i] = i as u8;
    }
    KeyBlock(block)
}

fn begun(alloc: Global) -> Result<SessionChannels, NoMemory> {
    let blank = SessionBlank::make(alloc, &TIMERS)?;
    Ok(SessionChannels::begin(alloc, blank, Conn(7), 3, Opcode::SoftReset))
}

// Packets that come, each with its opcode.
const CAME: [(Opcode, &[u8]); 2] = [
    (Opcode::Control, b"\0\0\0\0\x01hi"),
    (Opcode::SoftReset, b"\0\0\0\0\0"),
];

fn come(
    channels: &mut SessionChannels,
    env: &mut Envelope<Wrapper>,
    out: &mut Outbox,
) -> Result<(), Or<LinkEnd>> {
    for (op, plain) in CAME.iter() {
        if let Ok(view) = read_control(plain, *op) {
            channels.on_packet(&view, env, Sid([1; 8]), PEER, Moment(0), out)?;
        }
    }
    channels.send_ready(env, Sid([1; 8]), PEER, Moment(0), out)?;
    channels.say(b"yes", env, Sid([1; 8]), PEER, Moment(0), out)?;
    channels.tick(env, Sid([1; 8]), PEER, Moment(0), out)
}

#[test]
fn control_text_is_put(rt: HostRuntime) -> Result<(), Fail> {
    let alloc = rt.alloc();
    let mut channels = begun(alloc)?;
    channels.reserve(100, 100, 100)?;
    let wrapper = Wrapper::new(&StaticKey([0x5A; 256]), Role::Server);
    let mut env = Envelope::new(alloc, wrapper, Sid([2; 8]), 1_700_000_000, 64, 15)?;
    let mut out = Outbox::make(alloc)?;
    assert_eq!(rt; channels.packet_room(2), Some(7_224));
    // Text that came before the reset waits for it.
    assert_eq!(rt; come(&mut channels, &mut env, &mut out), Ok(()));
    assert_eq!(rt; (out.count(), out.staged()), (1, 3));
    assert_eq!(rt; (channels.conn(), channels.read_count()), (Conn(7), 2));
    Ok(())
}

// With keys, and a push request behind the message.
fn keyed(alloc: Global, out: &mut Outbox) -> Result<SessionChannels, NoMemory> {
    let mut channels = begun(alloc)?;
    channels.put_plain(b"\0\0\0\0\x02PUSH_REQUEST\0")?;
    channels.exchange(
        &keys(),
        Cipher::Aes128Gcm,
        Role::Server,
        3,
        5,
        &SOURCE,
        5,
        out,
    )?;
    Ok(channels)
}

#[test]
fn plain_text_is_read(rt: HostRuntime) -> Result<(), Fail> {
    let waiting = begun(rt.alloc())?;
    assert!(rt; matches!(waiting.message(Role::Client), Km2ViewRead::More));
    let mut out = Outbox::make(rt.alloc())?;
    let mut channels = keyed(rt.alloc(), &mut out)?;
    assert!(rt; channels.next_message() == Some(b"PUSH_REQUEST".as_slice()));
    channels.pass_message();
    assert_eq!(rt; channels.unread(), 0);
    assert!(rt; channels.has_data());
    Ok(())
}

#[test]
fn keys_are_used(rt: HostRuntime) -> Result<(), Fail> {
    let mut out = Outbox::make(rt.alloc())?;
    let mut channels = keyed(rt.alloc(), &mut out)?;
    out.reserve(1, 1_524)?;
    assert_eq!(rt; channels.seal(Role::Server, &INNER, PEER, &mut out), Ok(()));
    let mut datagram = OF_CLIENT;
    assert_eq!(rt;
        channels.unseal(Role::Server, &mut datagram, Moment(0)),
        Ok(20)
    );
    channels.close(&mut out)?;
    channels_stand_on();
    links_go_on();
    assert!(rt; wire(out.effect(1)) == OF_SERVER.as_slice());
    assert_eq!(rt; out.count(), 3);
    Ok(())
}

// The bytes of an effect that sends to the other end.
fn wire<'a>(effect: Option<Effect<'a>>) -> &'a [u8] {
    match effect {
        Some(Effect::Wire { to: PEER, bytes }) => bytes,
        _ => &[],
    }
}
