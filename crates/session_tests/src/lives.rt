//! Runs over the other end of acceptance/other_end.py: the static key of the stories, and Alice's session id and resets in
//! its story of renegotiations. Each key exchange has the client's source in the message below, and the draw of key session n
//! is a letter over and over, from A on; what is sealed is computed of them by that program's own key derivation.

use peer_table::{Refused, SessionFault, Turn};
use session_runs::{SessionAnswer, SessionEvent, SessionSetup, run_session};
use std::alloc::Global;
use std::test::Fail;
use tls_crypt::StaticKey;
use vpn_base::{
    Addr, Bytes, Cause, Cipher, Conn, Draw, Freshness, Ip4, Moment, NoMemory, Policy, Role, Sid,
    Text, Timers,
};
use vpn_links::{Effect, Kind, Outbox};

const ALICE: Addr = Addr {
    ip: Ip4(0xC000_0207),
    port: 40_000,
};

const SETUP: SessionSetup = SessionSetup {
    own: Sid([0x76, 0xb8, 0xe0, 0xad, 0xa0, 0xf1, 0x3d, 0x90]),
    timers: Timers {
        reneg: 3_600,
        tran: 3_600,
        hand: 60,
        timeout: 2,
        win: 64,
        win_secs: 15,
    },
    conn: Conn(0),
    began: Moment(0),
    to: ALICE,
};

const POLICY: Policy = Policy::Choose {
    first: Cipher::Aes256Gcm,
    second: Some(Cipher::Aes128Gcm),
};

const KEY: StaticKey = StaticKey([
    0xdd, 0x24, 0xcd, 0x42, 0xc9, 0x51, 0x42, 0x11, 0x5a, 0x19, 0x91, 0x8d, 0x33, 0x6b, 0x58, 0x11,
    0x52, 0x89, 0xfc, 0x44, 0x2a, 0xc8, 0xd5, 0x45, 0x2d, 0x83, 0x10, 0x72, 0x7c, 0xf2, 0x0c, 0x06,
    0x90, 0x77, 0x9b, 0x57, 0xab, 0x59, 0x42, 0xd6, 0xfb, 0x6e, 0xea, 0x90, 0x26, 0x8d, 0xa8, 0xbb,
    0xea, 0xf0, 0x9b, 0x1f, 0x16, 0xb7, 0x4e, 0x6b, 0xb9, 0xde, 0x43, 0x17, 0x6f, 0x58, 0x68, 0xc1,
    0x74, 0x3d, 0xba, 0xba, 0x7e, 0x76, 0x9e, 0x18, 0xee, 0xb3, 0xf2, 0xc4, 0x98, 0xa2, 0xcb, 0x83,
    0x59, 0x74, 0xe9, 0x92, 0xe8, 0xf4, 0x6c, 0x3c, 0x85, 0x42, 0xc0, 0x21, 0xfd, 0xed, 0x89, 0xe4,
    0x86, 0x1e, 0x29, 0xbf, 0x3c, 0x62, 0xb9, 0x69, 0xe4, 0xff, 0x70, 0xd6, 0xcf, 0xea, 0x94, 0x63,
    0xb8, 0x5d, 0xee, 0xdc, 0xd3, 0xa5, 0x15, 0x7f, 0xca, 0x63, 0xca, 0xe1, 0x14, 0x14, 0x1e, 0x61,
    0x53, 0x8e, 0x8b, 0x80, 0x4e, 0xaa, 0x00, 0x29, 0x28, 0x23, 0x4e, 0x85, 0x5d, 0x8f, 0x3f, 0x9a,
    0x00, 0xde, 0x26, 0x1d, 0x1b, 0x73, 0xea, 0x9a, 0xfa, 0xba, 0x3e, 0xf2, 0xf7, 0x86, 0xcf, 0xde,
    0xbb, 0x5c, 0x54, 0x26, 0x34, 0x1f, 0xef, 0x42, 0x24, 0x8c, 0xea, 0x88, 0xde, 0xfe, 0x7b, 0x27,
    0xf6, 0x44, 0xa6, 0x2a, 0x92, 0x95, 0x6c, 0x37, 0x6a, 0x72, 0x71, 0x54, 0x48, 0x1b, 0xce, 0xf1,
    0x9d, 0x14, 0x74, 0xff, 0x6b, 0xe9, 0xea, 0x7a, 0x64, 0x6d, 0x2c, 0xa3, 0x34, 0xaf, 0x5f, 0x23,
    0xcf, 0x09, 0x17, 0xb6, 0x99, 0x9d, 0x6a, 0xbe, 0x91, 0xdd, 0xc5, 0x81, 0xd6, 0xd1, 0x8d, 0xdc,
    0x86, 0x20, 0xfb, 0x8c, 0x37, 0x11, 0x19, 0xcf, 0xc1, 0xf3, 0xd9, 0xc6, 0xb2, 0x08, 0xb9, 0xd6,
    0xe0, 0x88, 0x6e, 0x37, 0xe0, 0x00, 0x07, 0x7a, 0x64, 0x27, 0x91, 0x80, 0xf1, 0xa3, 0x91, 0x81,
]);

// The resets of Alice: that of her session, and nine that renegotiate.
const RESETS: [&[u8]; 10] = [
    b"\x38\xc4\x1a\x4e\x27\x81\xdd\x52\xe1\x00\x00\x00\x01\x00\x00\x00\x01\xef\x3b\x5a\xe3\x36\x47\x7c\x7d\x96\xdb\xe3\x98\x3b\xa6\xbf\x84\xcf\x99\xb9\x73\x83\xf2\x07\x44\xa5\x0c\x03\x05\x12\xc7\xe7\x75\xb9\x73\x82\xc1\x6a",
    b"\x19\xc4\x1a\x4e\x27\x81\xdd\x52\xe1\x00\x00\x00\x02\x00\x00\x00\x01\x22\x63\x27\x95\x00\xe4\x3b\x3e\xb4\x66\x74\x1a\x3d\x16\xc9\xc8\x6e\x2f\xe0\x03\x72\xa3\x80\x58\x70\x34\xc7\xca\xf8\xdc\x57\x54\x50\x81\x00\x36\x68",
    b"\x1a\xc4\x1a\x4e\x27\x81\xdd\x52\xe1\x00\x00\x00\x03\x00\x00\x00\x01\xbf\x32\x4c\x41\xfc\xf0\x0f\x6b\xaa\xa1\x35\x0b\x5e\x5d\x2c\xc9\x99\x22\x62\x00\x00\x68\x77\x33\x87\x29\x68\xb3\x89\xc8\x76\xc3\x3c\xb5\x15\xe6\xf4",
    b"\x1b\xc4\x1a\x4e\x27\x81\xdd\x52\xe1\x00\x00\x00\x04\x00\x00\x00\x01\x5c\xfd\xbf\xc4\xdd\xd2\x2b\xb6\xe4\xa7\xcb\x8c\x25\x42\x5b\x54\x79\x75\x6d\x81\xf1\x3d\x37\x71\xb7\xe4\xb7\xc2\x6c\xf5\x3e\x77\xbc\xce\x03\xd1\x5f",
    b"\x1c\xc4\x1a\x4e\x27\x81\xdd\x52\xe1\x00\x00\x00\x05\x00\x00\x00\x01\x0d\x4d\xe9\x87\x6b\xfd\x84\x2a\xe4\xad\xfd\x08\x9e\x2a\x5c\x4b\xdf\xd2\x20\x6b\x82\x1e\xa0\xa7\x63\xe0\x2c\xa5\x26\xa7\x7f\x41\xe9\x02\xff\x09\x59",
    b"\x1d\xc4\x1a\x4e\x27\x81\xdd\x52\xe1\x00\x00\x00\x06\x00\x00\x00\x01\x1b\x25\xe7\x8f\x0c\x4b\x35\x18\xb4\xe8\x27\xed\xf6\x6a\x6e\x2d\xcc\x9a\x7f\x80\xe1\x3b\x4d\x88\xc2\xbc\xc8\x52\xc7\x8d\x1a\x19\xcb\x6e\x73\xfe\x3e",
    b"\x1e\xc4\x1a\x4e\x27\x81\xdd\x52\xe1\x00\x00\x00\x07\x00\x00\x00\x01\x33\x25\x75\x48\x22\xe2\x0b\xaf\x4b\xe3\x63\xec\x01\x8a\x97\xb1\x25\x77\xe8\x2c\xb9\xcb\xf3\x39\x1a\x01\x63\xef\x73\x37\x23\x14\xac\x87\xa1\x8e\xc4",
    b"\x1f\xc4\x1a\x4e\x27\x81\xdd\x52\xe1\x00\x00\x00\x08\x00\x00\x00\x01\xfd\x99\xf3\x7f\xaa\xf7\xd2\x43\xe7\xc8\x72\x5f\xf2\x67\x89\xcb\xd7\x64\xe1\x2a\x5f\x69\x2e\x33\x81\x9e\x5d\xae\x90\x7b\x78\x88\x50\xd9\xfe\x51\xe5",
    b"\x19\xc4\x1a\x4e\x27\x81\xdd\x52\xe1\x00\x00\x00\x09\x00\x00\x00\x01\xe1\x36\x2d\x13\x0a\x88\xe0\xf3\x33\x9f\x3d\xb0\x6c\x7e\xe6\x12\xca\x83\x65\x09\x63\x12\x85\x2a\xcc\x0c\xc3\x85\xad\xb3\x01\x61\x62\x51\x58\xdb\x85",
    b"\x1a\xc4\x1a\x4e\x27\x81\xdd\x52\xe1\x00\x00\x00\x0a\x00\x00\x00\x01\x99\x11\x71\x5d\x57\xeb\xfb\x6d\x82\x89\x2c\x4d\x60\x89\x61\x45\x27\x85\xb0\x94\x67\x29\x01\x72\xab\x69\x2b\x2b\xfc\x2a\xd6\x7e\xc2\x3a\x1d\x7a\x54",
];

// Her key exchange message, and what the server writes in sessions 0 and 1.
const MESSAGE: &[u8] =
    b"\0\0\0\0\x02ppppppppppppppppppppppppppppppppppppppppppppppppqqqqqqqqqqqqqqqqqqqqqqqqqqqqqqqqrrrrrrrrrrrrrrrrrrrrrrrrrrrrrrrr\0\x10V4,dev-type tun\0\0\0\0\0\0JIV_VER=2.6.0\nIV_PLAT=linux\nIV_PROTO=2\nIV_CIPHERS=AES-256-GCM:AES-128-GCM\n\0";

const REPLY_0: &[u8] =
    b"\0\0\0\0\x02AAAAAAAAAAAAAAAAAAAAAAAAAAAAAAAAAAAAAAAAAAAAAAAAAAAAAAAAAAAAAAAA\0\x10V4,dev-type tun\0\0\0\0\0\0\0";

const REPLY_1: &[u8] =
    b"\0\0\0\0\x02BBBBBBBBBBBBBBBBBBBBBBBBBBBBBBBBBBBBBBBBBBBBBBBBBBBBBBBBBBBBBBBB\0\x10V4,dev-type tun\0\0\0\0\0\0\0";

// A packet for the server, one for Alice, and a ping.
const INNER: &[u8] =
    b"\x45\x00\x00\x14\x00\x00\x00\x00\x40\x00\x00\x00\x0a\x08\x00\x02\x0a\x08\x00\x01";

const BACK: &[u8] =
    b"\x45\x00\x00\x14\x00\x00\x00\x00\x40\x00\x00\x00\x0a\x08\x00\x01\x0a\x08\x00\x02";

const PING: &[u8] = b"\x2a\x18\x7b\xf3\x64\x1e\xb4\xcb\x07\xed\x2d\x0a\x98\x1f\xc7\x48";

// A ping and two packets of Alice under the keys of session 0, one under those of session 1, and the server's packet.
const PINGED: &[u8] =
    b"\x48\x00\x00\x05\x00\x00\x00\x01\x0f\x62\xe6\xb4\xc9\x5a\xf4\xe9\x99\xe1\x49\xe7\xb0\x69\x52\x05\x9e\xd8\xaf\x0a\x83\xe0\x22\x35\x20\xec\x9a\x1c\x34\x7f\x82\xfd";

const SECOND: &[u8] =
    b"\x48\x00\x00\x05\x00\x00\x00\x02\xd6\x1c\x42\xf8\x91\x8d\x78\x46\x58\x24\x57\x5b\x42\x42\xdb\x9a\x50\x7b\x64\xe2\x37\xa2\x32\xa1\xab\x0d\x50\xd7\x33\x6f\x8c\xbc\x9a\x58\x59\x49";

const THIRD: &[u8] =
    b"\x48\x00\x00\x05\x00\x00\x00\x03\x32\xf6\x4d\x76\x64\x27\xe5\x95\x0b\x45\x0b\x02\xee\x8d\xf6\x22\x34\xa6\x0c\x06\xf6\xd1\x5a\xc4\xb3\xc0\x80\x22\x7a\x7f\x06\xee\x29\xec\x57\xbc";

const RENEWED: &[u8] =
    b"\x49\x00\x00\x05\x00\x00\x00\x01\xfb\x01\x7a\xb8\xd6\x80\x62\xf8\x43\x89\x39\x57\x34\x98\xdc\xf9\x97\xbc\xae\xfd\xe6\xf8\x38\x7c\xd4\x91\x26\x04\x14\xf5\x41\x9d\x79\x69\x6b\x00";

const ANSWERED: &[u8] =
    b"\x48\x00\x00\x05\x00\x00\x00\x01\xc4\xc3\x16\x6a\x68\x8a\xd5\x06\x74\xc2\x0b\x35\xa6\xd2\xaf\xfa\x87\x31\xcc\x74\x30\x96\xc4\x76\x1a\xbe\xe0\x55\x0e\x65\x64\x0e\xb3\xe1\xc5\xf8";

// The server's resets of sessions 0 and 1, which acknowledge hers.
const SERVER_RESET_0: &[u8] =
    b"\x40\x76\xb8\xe0\xad\xa0\xf1\x3d\x90\x00\x00\x00\x01\x00\x00\x00\x00\x53\x95\x95\xa3\x2f\x74\xc4\x9c\x27\x27\x2b\x86\xb3\xe1\x3e\xd0\x92\xac\x4b\x84\xcd\x14\xb9\x77\x52\xce\x55\xa2\x89\x39\x43\xed\x21\x16\x19\xad\xcc\x64\xec\x34\x38\x5c\x49\x06\x53\xb8\x04\xb5\x4c";

const SERVER_RESET_1: &[u8] =
    b"\x19\x76\xb8\xe0\xad\xa0\xf1\x3d\x90\x00\x00\x00\x02\x00\x00\x00\x00\x58\x18\x3f\x31\x4f\xf5\x5d\x45\xe5\x1f\xe9\xc8\xc9\x60\xb5\xe8\x67\x7b\xc0\x98\x2b\x1a\xc9\x75\x09\xf0\xb1\xf1\x08\x57\x94\x11\x81\xf8\x77\xae\x56\x29\xdc\x96\x85\xc3\xe8\x87\xc2\xc1\x62\x80\x5a";

// Events, and what they are to answer.
#[derive(Drop)]
struct Script {
    alloc: Global,
    events: Vec<(Moment, SessionEvent)>,
    wanted: Vec<SessionAnswer>,
}

impl Script {
    fn add(&mut self, at: u64, event: SessionEvent, answer: SessionAnswer) -> Result<(), NoMemory> {
        self.events.push((Moment(at), event))?;
        self.wanted.push(answer)?;
        Ok(())
    }

    // A control packet that begins the key session on this connection.
    fn reset(&mut self, at: u64, conn: u64, bytes: &[u8]) -> Result<(), NoMemory> {
        let datagram = Bytes::copy(self.alloc, bytes)?;
        let event = SessionEvent::Control {
            to: ALICE,
            datagram,
            next_conn: Conn(conn),
            established: conn > 0,
        };
        self.add(at, event, SessionAnswer::Turn(Turn::Going))
    }

    // The engine knows Alice.
    fn name(&mut self, at: u64, conn: Conn, turn: Turn) -> Result<(), NoMemory> {
        let name = Text::copy(self.alloc, b"alice")?;
        let kind = Kind::EngineUp { conn, name };
        self.add(at, SessionEvent::Engine { kind }, SessionAnswer::Turn(turn))
    }

    // The engine has plain text of Alice.
    fn plain(&mut self, at: u64, conn: Conn, bytes: &[u8], turn: Turn) -> Result<(), NoMemory> {
        let bytes = Bytes::copy(self.alloc, bytes)?;
        let kind = Kind::EnginePlain { conn, bytes };
        self.add(at, SessionEvent::Engine { kind }, SessionAnswer::Turn(turn))
    }

    // The key session on this connection is named and gets keys, with a draw of this letter.
    fn exchange(&mut self, at: u64, conn: Conn, letter: u8, turn: Turn) -> Result<(), NoMemory> {
        self.name(at, conn, turn)?;
        self.plain(at, conn, MESSAGE, Turn::Exchange)?;
        let event = SessionEvent::Exchange {
            policy: POLICY,
            peer_id: 5,
            draw: Draw([letter; 120]),
        };
        self.add(at, event, SessionAnswer::Turn(Turn::Going))
    }

    fn unseal(&mut self, at: u64, bytes: &[u8], answer: SessionAnswer) -> Result<(), NoMemory> {
        let datagram = Bytes::copy(self.alloc, bytes)?;
        self.add(at, SessionEvent::Unseal { datagram }, answer)
    }

    fn opens(&mut self, at: u64, bytes: &[u8], inner: &[u8]) -> Result<(), NoMemory> {
        let inner = Bytes::copy(self.alloc, inner)?;
        self.unseal(at, bytes, SessionAnswer::Inner(inner))
    }

    fn seals(&mut self, at: u64) -> Result<(), NoMemory> {
        let inner = Bytes::copy(self.alloc, BACK)?;
        self.add(at, SessionEvent::Seal { inner }, SessionAnswer::Sealed)
    }

    fn tick(&mut self, at: u64, turn: Turn) -> Result<(), NoMemory> {
        let event = SessionEvent::Tick {
            next_conn: Conn(2),
            established: true,
            idle: false,
        };
        self.add(at, event, SessionAnswer::Turn(turn))
    }
}

fn no_events(alloc: Global) -> Script {
    Script {
        alloc,
        events: Vec::new(alloc),
        wanted: Vec::new(alloc),
    }
}

fn is_as(answer: &SessionAnswer, wanted: &SessionAnswer) -> bool {
    match (answer, wanted) {
        (SessionAnswer::Nothing, SessionAnswer::Nothing) => true,
        (SessionAnswer::Turn(a), SessionAnswer::Turn(b)) => *a == *b,
        (SessionAnswer::Refused(a), SessionAnswer::Refused(b)) => *a == *b,
        (SessionAnswer::Message(a), SessionAnswer::Message(b)) => a.as_slice() == b.as_slice(),
        (SessionAnswer::NoMessage, SessionAnswer::NoMessage) => true,
        (SessionAnswer::Sealed, SessionAnswer::Sealed) => true,
        (SessionAnswer::Spent, SessionAnswer::Spent) => true,
        (SessionAnswer::Inner(a), SessionAnswer::Inner(b)) => a.as_slice() == b.as_slice(),
        (SessionAnswer::Fault(a), SessionAnswer::Fault(b)) => *a == *b,
        _ => false,
    }
}

// The first answer that is not as it is to be, counted from 0; the count of all where there is none.
fn agreed(answers: &[SessionAnswer], wanted: &[SessionAnswer]) -> usize {
    for (i, (a, b)) in answers.iter().zip(wanted.iter()).enumerate() {
        if !is_as(a, b) {
            return i;
        }
    }
    answers.len()
}

// What a run is to do to the outside.
enum Done {
    Wire(&'static [u8]),
    Open(u64),
    Write(u64, &'static [u8]),
    Close(u64),
}

fn does(effect: Option<Effect<'_>>, wanted: &Done) -> bool {
    match (effect, wanted) {
        (Some(Effect::Wire { to, bytes }), Done::Wire(wire)) => to == ALICE && bytes == *wire,
        (Some(Effect::EngineOpen { conn, role }), Done::Open(n)) => {
            conn == Conn(*n) && role == Role::Server
        }
        (Some(Effect::EngineWrite { conn, bytes }), Done::Write(n, text)) => {
            conn == Conn(*n) && bytes == *text
        }
        (Some(Effect::EngineClose { conn }), Done::Close(n)) => conn == Conn(*n),
        _ => false,
    }
}

// The effects of a whole life, with the first datagrams that are staged behind them.
const DONE: [Done; 9] = [
    Done::Open(0),
    Done::Write(0, REPLY_0),
    Done::Wire(ANSWERED),
    Done::Open(1),
    Done::Write(1, REPLY_1),
    Done::Close(0),
    Done::Open(2),
    Done::Wire(SERVER_RESET_0),
    Done::Wire(SERVER_RESET_1),
];

// Alice comes, says who she is, sends a message and packets, and gets one.
fn session_zero(run: &mut Script) -> Result<(), NoMemory> {
    run.reset(0, 0, RESETS[0])?;
    run.exchange(1_000, Conn(0), b'A', Turn::Named)?;
    run.plain(1_500, Conn(0), b"PUSH_REQUEST\0", Turn::Going)?;
    let request = Bytes::copy(run.alloc, b"PUSH_REQUEST")?;
    run.add(
        1_500,
        SessionEvent::Message,
        SessionAnswer::Message(request),
    )?;
    run.add(1_500, SessionEvent::Message, SessionAnswer::NoMessage)?;
    run.opens(2_000, PINGED, PING)?;
    let stale = SessionFault::Stale {
        kind: Freshness::Seen,
        id: 1,
        greatest: 1,
    };
    run.unseal(2_000, PINGED, SessionAnswer::Fault(stale))?;
    run.seals(2_000)
}

// She renegotiates at 10,000. Her older key is taken for 3,600 seconds from then on, after which the server renegotiates, and
// the client ends as that does not finish.
fn later_sessions(run: &mut Script) -> Result<(), NoMemory> {
    run.reset(10_000, 1, RESETS[1])?;
    run.exchange(11_000, Conn(1), b'B', Turn::Going)?;
    run.opens(12_000, RENEWED, INNER)?;
    run.opens(3_609_999, SECOND, INNER)?;
    let bad_key = SessionAnswer::Fault(SessionFault::BadKey { kid: 0 });
    run.unseal(3_610_000, THIRD, bad_key)?;
    run.tick(3_610_000, Turn::Going)?;
    run.tick(3_669_999, Turn::Going)?;
    run.tick(3_670_000, Turn::Over(Cause::HandWindow))
}

#[test]
fn a_client_comes_renegotiates_and_ends(rt: HostRuntime) -> Result<(), Fail> {
    let alloc = rt.alloc();
    let mut run = no_events(alloc);
    session_zero(&mut run)?;
    later_sessions(&mut run)?;
    // A moment before the latest counts as the latest, and behind the end nothing is answered.
    run.events.push((Moment(0), SessionEvent::Message))?;
    let mut out = Outbox::make(alloc)?;
    let answers = run_session(alloc, &SETUP, &KEY, &run.events, &mut out)?;
    assert_eq!(rt; agreed(&answers, &run.wanted), run.wanted.len());
    assert_eq!(rt; answers.len(), run.wanted.len());
    out.settle();
    for (i, wanted) in DONE.iter().enumerate() {
        assert!(rt; does(out.effect(i), wanted), "{i}");
    }
    Ok(())
}

// Ten key sessions, each with a packet for Alice; her first packet of session 1 comes again in session 8, which has its key id.
fn ten_sessions(run: &mut Script) -> Result<(), NoMemory> {
    for n in 0..10u64 {
        let at = 1_000 * n;
        let letter = b'A' + n as u8;
        let turn = if n == 0 { Turn::Named } else { Turn::Going };
        run.reset(at, n, RESETS[n as usize])?;
        run.exchange(at, Conn(n), letter, turn)?;
        run.seals(at)?;
        if n == 1 {
            run.opens(at, RENEWED, INNER)?;
        }
        if n == 8 {
            run.unseal(at, RENEWED, SessionAnswer::Fault(SessionFault::NotSealed))?;
        }
    }
    Ok(())
}

// The first bytes of the datagrams among the effects: DATA_V2, and the key id in the last three bits.
fn heads(alloc: Global, out: &Outbox) -> Result<Vec<u8>, NoMemory> {
    let mut heads = Vec::new(alloc);
    for i in 0..out.count() {
        if let Some(
            Effect::Wire {
                bytes: [head, ..],
                ..
            },
        ) = out.effect(i)
        {
            heads.push(*head)?;
        }
    }
    Ok(heads)
}

#[test]
fn nine_renegotiations_give_new_keys_each(rt: HostRuntime) -> Result<(), Fail> {
    let alloc = rt.alloc();
    let mut run = no_events(alloc);
    ten_sessions(&mut run)?;
    // The last reset comes again: its wrap was accepted.
    let event = SessionEvent::Control {
        to: ALICE,
        datagram: Bytes::copy(alloc, RESETS[9])?,
        next_conn: Conn(10),
        established: true,
    };
    let replayed = Refused::Replayed { time: 1, id: 10 };
    run.add(10_000, event, SessionAnswer::Refused(replayed))?;
    let mut out = Outbox::make(alloc)?;
    let answers = run_session(alloc, &SETUP, &KEY, &run.events, &mut out)?;
    assert_eq!(rt; agreed(&answers, &run.wanted), run.wanted.len());
    let kids = [0x48, 0x49, 0x4a, 0x4b, 0x4c, 0x4d, 0x4e, 0x4f, 0x49, 0x4a];
    assert!(rt; heads(alloc, &out)?.as_slice() == kids.as_slice());
    Ok(())
}
