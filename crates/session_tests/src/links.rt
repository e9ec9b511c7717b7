//! A run that was worked out by hand, with datagrams that openssl made, and calls on their happy path.

use control_link::{
    ControlLink, Envelope, LinkEvent, LinkSetup, judge_wraps, reads_a_front, reads_what_is_given,
    run_link,
};
use opcode_codec::Opcode;
use std::alloc::Global;
use std::test::Fail;
use tls_crypt::{StaticKey, Wrapper};
use vpn_base::{Addr, Bytes, Conn, Freshness, Ip4, Moment, NoMemory, Role, Sid};
use vpn_links::{ControlText, Effect, Outbox};

const PEER: Addr = Addr {
    ip: Ip4(0xC000_0207),
    port: 1194,
};

const SETUP: LinkSetup = LinkSetup {
    conn: Conn(0),
    kid: 0,
    first: Opcode::ServerReset,
    timeout_secs: 2,
    own: Sid([2; 8]),
    time: 1_700_000_000,
    remote: Sid([1; 8]),
    to: PEER,
};

// What openssl makes of the four packets below under this key: HMAC-SHA-256 of header and plain text,
// and the plain text under AES-256 in counter mode from the first half of that tag.
const STAGED: [&[u8]; 4] = [
    &[
        0x40, 0x02, 0x02, 0x02, 0x02, 0x02, 0x02, 0x02, 0x02, 0x00, 0x00, 0x00, 0x01, 0x65, 0x53,
        0xf1, 0x00, 0xda, 0xb8, 0x2b, 0x58, 0xbf, 0x96, 0x2e, 0xc5, 0x74, 0x8a, 0x8f, 0x1c, 0x04,
        0xe5, 0xa2, 0x6a, 0x34, 0x96, 0x68, 0xa8, 0x4d, 0xf3, 0x23, 0x70, 0x9d, 0xa7, 0xc1, 0x4d,
        0xcc, 0x90, 0x42, 0xfb, 0xa8, 0xbc, 0xb5, 0xbf, 0xa2,
    ],
    &[
        0x28, 0x02, 0x02, 0x02, 0x02, 0x02, 0x02, 0x02, 0x02, 0x00, 0x00, 0x00, 0x02, 0x65, 0x53,
        0xf1, 0x00, 0x5f, 0xfd, 0xf0, 0xd4, 0x8a, 0x7e, 0x14, 0x04, 0xbc, 0xaa, 0xde, 0x6f, 0xe2,
        0x31, 0x2f, 0xb8, 0x32, 0x8c, 0xeb, 0x54, 0x6a, 0xe1, 0xdf, 0xea, 0x53, 0x05, 0x0c, 0x7a,
        0x11, 0x9c, 0xb6, 0x4a, 0xa4, 0xc6, 0x73, 0xd5, 0x4c, 0xfa, 0x1d, 0x0b, 0x03, 0xc8, 0x90,
        0xba, 0xdc,
    ],
    &[
        0x20, 0x02, 0x02, 0x02, 0x02, 0x02, 0x02, 0x02, 0x02, 0x00, 0x00, 0x00, 0x03, 0x65, 0x53,
        0xf1, 0x00, 0xe1, 0x6d, 0xa1, 0x52, 0xa2, 0xc9, 0x9e, 0xde, 0x98, 0x8c, 0x57, 0x70, 0x14,
        0xdd, 0xb4, 0x1c, 0x66, 0xc5, 0x2c, 0xb4, 0x01, 0x91, 0x66, 0xa8, 0xbc, 0x3c, 0x2b, 0xc1,
        0xad, 0x6c, 0x3e, 0xb5, 0x41, 0xf1, 0xe4, 0x90, 0x07, 0x28, 0xe3, 0xe2, 0x70, 0x7a, 0xb2,
        0xfb, 0x17, 0x22, 0xf2, 0x7c, 0x72, 0x19, 0x9d, 0x96,
    ],
    &[
        0x40, 0x02, 0x02, 0x02, 0x02, 0x02, 0x02, 0x02, 0x02, 0x00, 0x00, 0x00, 0x04, 0x65, 0x53,
        0xf1, 0x00, 0x37, 0x2b, 0x05, 0xe2, 0xef, 0xeb, 0x7a, 0xc8, 0x50, 0x5f, 0x07, 0x16, 0x0b,
        0x27, 0x5b, 0x81, 0xc9, 0x41, 0xd8, 0xb5, 0x23, 0xaf, 0x8f, 0xe8, 0x5d, 0x6d, 0x85, 0x33,
        0xe1, 0xca, 0xe2, 0x3f, 0x30, 0x48, 0x2e, 0x85, 0x25,
    ],
];

fn packet(alloc: Global, op: Opcode, plain: &[u8]) -> Result<LinkEvent, NoMemory> {
    Ok(LinkEvent::Packet {
        op,
        plain: Bytes::copy(alloc, plain)?,
    })
}

fn say(alloc: Global, text: &[u8]) -> Result<LinkEvent, NoMemory> {
    Ok(LinkEvent::Say {
        bytes: Bytes::copy(alloc, text)?,
    })
}

fn wrapper() -> Wrapper {
    Wrapper::new(&StaticKey([0x5A; 256]), Role::Server)
}

// The bytes of an effect that sends to the other end.
fn wire<'a>(effect: Option<Effect<'a>>) -> &'a [u8] {
    match effect {
        Some(Effect::Wire { to: PEER, bytes }) => bytes,
        _ => &[],
    }
}

#[test]
fn a_whole_run_is_staged_and_read(rt: HostRuntime) -> Result<(), Fail> {
    let alloc = rt.alloc();
    // The second packet is no plain text, and the text is read once the reset is here.
    let events = [
        (say(alloc, b"yes")?, Moment(0)),
        (
            packet(alloc, Opcode::Control, b"\0\0\0\0\x01hi")?,
            Moment(1),
        ),
        (packet(alloc, Opcode::Control, b"x")?, Moment(2)),
        (packet(alloc, Opcode::ClientReset, &[0; 5])?, Moment(3)),
        (LinkEvent::Tick, Moment(2_000)),
    ];
    let mut run = run_link(alloc, wrapper(), &SETUP, &events)?;
    assert!(rt; run.text.as_slice() == b"hi".as_slice());
    run.outbox.settle();
    // The reset, an acknowledgement, the answer's piece with the next one, and the reset again.
    assert_eq!(rt; run.outbox.count(), STAGED.len());
    for (i, wanted) in STAGED.iter().enumerate() {
        assert!(rt; wire(run.outbox.effect(i)) == *wanted, "{i}");
    }
    Ok(())
}

// What a link tells of its texts.
fn told<T: ControlText>(link: &T) -> (Conn, u64) {
    (link.conn(), link.read_count())
}

#[test]
fn memory_is_taken_ahead(rt: HostRuntime) -> Result<(), Fail> {
    let alloc = rt.alloc();
    let mut link = ControlLink::new(alloc, Conn(7), 1, Opcode::SoftReset, 2)?;
    link.reserve_payload(1_250)?;
    link.reserve_text(1_101)?;
    let mut env = Envelope::new(alloc, wrapper(), Sid([2; 8]), 1_700_000_000, 64, 15)?;
    let mut out = Outbox::make(alloc)?;
    link.send_ready(&mut env, Sid([1; 8]), PEER, Moment(0), &mut out)?;
    assert_eq!(rt; out.staged(), 1);
    assert_eq!(rt; told(&link), (Conn(7), 0));
    reads_a_front();
    reads_what_is_given();
    Ok(())
}

#[test]
fn wraps_are_judged_by_all_that_were_accepted(rt: HostRuntime) -> Result<(), Fail> {
    let wraps = [
        (5, 1, Moment(0)),
        (5, 1, Moment(1)),
        (4, 2, Moment(2)),
        (6, 1, Moment(3)),
    ];
    let answers = judge_wraps(rt.alloc(), wrapper(), Sid([2; 8]), 64, 15, &wraps)?;
    let wanted = [
        Freshness::Fresh,
        Freshness::Seen,
        Freshness::Old,
        Freshness::Fresh,
    ];
    assert!(rt; answers.as_slice() == wanted.as_slice());
    Ok(())
}
