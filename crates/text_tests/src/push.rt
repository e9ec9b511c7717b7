//! Push replies in one part and in several, collected again, and refused.

use push_options::{Collector, PushPlan, collects_a_reply, plan, reply};
use std::alloc::Global;
use std::test::Fail;
use vpn_base::{Cipher, Ip4, NoMemory, Or, Policy, Text, TextList};

fn list_of(alloc: Global, texts: &[&[u8]]) -> Result<TextList, NoMemory> {
    let mut list = TextList::new(alloc);
    for text in texts {
        list.add(Text::copy(alloc, text)?)?;
    }
    Ok(list)
}

fn is_part(parts: &TextList, i: usize, want: &[u8]) -> bool {
    match parts.item(i) {
        Some(part) => part.as_slice() == want,
        None => false,
    }
}

#[test]
fn a_plan_in_one_part(rt: HostRuntime) -> Result<(), Fail> {
    let alloc = rt.alloc();
    let pushes = list_of(alloc, &[b"route 10.1.0.0 255.255.0.0"])?;
    let own = list_of(alloc, &[b"ping 5"])?;
    let told = PushPlan {
        pushes: &pushes,
        reset: false,
        gateway: Ip4(0x0A08_0001),
        keepalive: Some((10, 60)),
        own: &own,
        address: Ip4(0x0A08_0009),
        len: 24,
        peer: 0xFFFFFE,
        cipher: Cipher::Aes256Gcm,
    };
    let parts = reply(alloc, &plan(alloc, &told)?)?;
    assert_eq!(rt; parts.count(), 1);
    assert!(rt;
        is_part(
            &parts,
            0,
            b"PUSH_REPLY,route 10.1.0.0 255.255.0.0,route-gateway 10.8.0.1,topology subnet,ping 10,ping-restart 60,ping 5,ifconfig 10.8.0.9 255.255.255.0,peer-id 16777214,cipher AES-256-GCM"
        )
    );
    Ok(())
}

#[test]
fn two_parts(rt: HostRuntime) -> Result<(), Fail> {
    let alloc = rt.alloc();
    let mut options = TextList::new(alloc);
    options.add(Text::of(vec![in alloc; b'a'; 1_020]?))?;
    let parts = reply(alloc, &options)?;
    assert_eq!(rt; parts.count(), 2);
    assert!(rt; is_part(&parts, 0, b"PUSH_REPLY,push-continuation 2"));
    Ok(())
}

#[test]
fn a_reply_collected(rt: HostRuntime) {
    collects_a_reply();
    let ours = Policy::Fixed(Cipher::Aes256Gcm);
    let mut collector = Collector::new(rt.alloc());
    let part =
        b"PUSH_REPLY,route 10.9.0.0,dhcp-option DNS 10.8.0.1,ping 10,ping-restart 120,push-continuation 2";
    match collector.feed(rt.alloc(), part, &ours) {
        Ok(None) => {}
        _ => assert!(rt; false),
    }
    let part =
        b"PUSH_REPLY,ifconfig 10.8.0.2 255.255.255.0,peer-id 0,cipher AES-256-GCM,push-continuation 1";
    match collector.feed(rt.alloc(), part, &ours) {
        Ok(Some(pushed)) => {
            assert_eq!(rt; pushed.address, Ip4(0x0A08_0002));
            assert_eq!(rt; pushed.len, 24);
            assert_eq!(rt; pushed.routes.count(), 1);
            assert_eq!(rt; pushed.ping, 10);
            assert_eq!(rt; pushed.ping_restart, 120);
            assert_eq!(rt; pushed.peer, 0);
            assert!(rt; is_part(&pushed.rest, 0, b"dhcp-option DNS 10.8.0.1"));
        }
        _ => assert!(rt; false),
    }
}

// Whether a whole reply is refused for this option.
fn is_refused(alloc: Global, part: &[u8], option: &[u8]) -> bool {
    let mut collector = Collector::new(alloc);
    match collector.feed(alloc, part, &Policy::Fixed(Cipher::Aes256Gcm)) {
        Err(Or::Why(fault)) => fault.option.as_slice() == option,
        _ => false,
    }
}

#[test]
fn replies_refused(rt: HostRuntime) {
    assert!(rt;
        is_refused(
            rt.alloc(),
            b"PUSH_REPLY,peer-id 0,cipher AES-256-GCM",
            b"ifconfig"
        )
    );
    assert!(rt; is_refused(rt.alloc(), b"PUSH_REPLY,peer-id 0,comp-lzo no", b"comp-lzo"));
}
