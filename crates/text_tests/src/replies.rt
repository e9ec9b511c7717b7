//! The reply of a server with a ping time, and the lines of its clients.

use ccd_files::{Ccd, read_ccd};
use ovpn_config::{Settings, read_config};
use server_texts::{
    DISCONNECT_BYTES, ReplyAhead, establishing_room, replies_are_planned, say_disconnect,
    say_establishing,
};
use std::alloc::Global;
use std::test::Fail;
use vpn_base::{Cid, Cipher, Conn, Ip4, NoMemory};
use vpn_links::{Effect, Outbox};

const SERVER_FILE: &[u8] =
    b"server 10.8.0.0 255.255.255.0\ndev tun\ntopology subnet\ntls-crypt ta.key\nkeepalive 10 120\n";

const CLIENT_FILE: &[u8] = b"iroute 10.9.0.0 255.255.0.0\n";

const ADDRESS: Ip4 = Ip4(0x0A08_0002);

fn settings(alloc: Global) -> Result<Settings, NoMemory> {
    match read_config(alloc, SERVER_FILE) {
        Ok(settings) => Ok(settings),
        Err(_) => Err(NoMemory),
    }
}

fn client_file(alloc: Global) -> Result<Ccd, NoMemory> {
    match read_ccd(alloc, CLIENT_FILE) {
        Ok(file) => Ok(file),
        Err(_) => Err(NoMemory),
    }
}

fn is_write(effect: Option<Effect<'_>>, conn: Conn, wanted: &[u8]) -> bool {
    match effect {
        Some(Effect::EngineWrite { conn: to, bytes }) => to == conn && bytes == wanted,
        _ => false,
    }
}

fn is_line(effect: Option<Effect<'_>>, wanted: &[u8]) -> bool {
    match effect {
        Some(Effect::Say { bytes }) => bytes == wanted,
        _ => false,
    }
}

#[test]
fn the_reply_to_the_first_client(rt: HostRuntime) -> Result<(), Fail> {
    let alloc = rt.alloc();
    replies_are_planned();
    let mut out = Outbox::make(alloc)?;
    let ahead = ReplyAhead::make(
        alloc,
        &settings(alloc)?,
        &client_file(alloc)?,
        ADDRESS,
        24,
        0,
    )?;
    let (effects, bytes) = ahead.room();
    out.reserve(effects, bytes)?;
    ahead.write(Conn(7), Cipher::Aes256Gcm, &mut out);
    assert_eq!(rt; out.count(), 1);
    assert!(rt;
        is_write(
            out.effect(0),
            Conn(7),
            b"PUSH_REPLY,route-gateway 10.8.0.1,topology subnet,ping 10,ping-restart 120,ifconfig 10.8.0.2 255.255.255.0,peer-id 0,cipher AES-256-GCM\0"
        )
    );
    Ok(())
}

#[test]
fn the_lines_of_clients(rt: HostRuntime) -> Result<(), Fail> {
    let alloc = rt.alloc();
    let mut out = Outbox::make(alloc)?;
    let file = client_file(alloc)?;
    let (effects, bytes) = establishing_room(&file)?;
    out.reserve(effects, bytes)?;
    say_establishing(Cid(0), &file, ADDRESS, &mut out);
    out.reserve(1, DISCONNECT_BYTES)?;
    say_disconnect(Cid(0), false, &mut out);
    out.reserve(1, DISCONNECT_BYTES)?;
    say_disconnect(Cid(u64::MAX), true, &mut out);
    assert_eq!(rt; out.count(), 4);
    assert!(rt; is_line(out.effect(0), b">CLIENT:ESTABLISHED,0"));
    assert!(rt; is_line(out.effect(1), b">CLIENT:ADDRESS,0,10.8.0.2,1"));
    assert!(rt; is_line(out.effect(2), b">CLIENT:ADDRESS,0,10.9.0.0/16,0"));
    assert!(rt; is_line(out.effect(3), b">CLIENT:DISCONNECT,18446744073709551615"));
    Ok(())
}
