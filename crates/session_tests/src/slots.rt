//! Renegotiations in order, names and key exchanges that are refused, and each call on its happy path.

ghost use Rattle.std.specs.Prelude.{◌≡◌, IfOk, IsSome};
ghost use Rattle.key_sessions.specs.Slots.{IsWhole, newest_number, newest_stage};
ghost use Rattle.key_sessions.specs.declared.slot.Stage.TheVariants as stages;

use key_method2::{Km2, Source};
use key_sessions::{
    BareText, KeySession, Keyed, NameFault, Named, NoCipher, Opening, SessionSeen, SlotAnswer,
    SlotEvent, SlotSetup, Slots, Stage, run_slots, sessions_are_changed_one_by_one,
};
use std::alloc::Global;
use std::test::Fail;
use vpn_base::{Bytes, Cipher, Conn, Moment, NoMemory, Or, Policy, Sid, Text, Timers};
use vpn_links::ControlText;

const SETUP: SlotSetup = SlotSetup {
    timers: Timers {
        reneg: 3_600,
        tran: 3_600,
        hand: 60,
        timeout: 2,
        win: 64,
        win_secs: 15,
    },
    policy: POLICY,
    peer_id: 0,
    conn: Conn(0),
    began: Moment(0),
    client_sid: CLIENT_SID,
    server_sid: SERVER_SID,
};

const POLICY: Policy = Policy::Choose {
    first: Cipher::Aes256Gcm,
    second: Some(Cipher::Aes128Gcm),
};

const CLIENT_SID: Sid = Sid([1, 2, 3, 4, 5, 6, 7, 8]);

const SERVER_SID: Sid = Sid([0x81, 0x82, 0x83, 0x84, 0x85, 0x86, 0x87, 0x88]);

// What an independent program derives of the sources below and these session ids, first and last bytes.
const BLOCK_FRONT: [u8; 16] = [
    0x3b, 0x35, 0x9c, 0x9e, 0xe0, 0x42, 0xee, 0xfa, 0x31, 0xa2, 0xcf, 0x2f, 0x47, 0x1c, 0x2d, 0x7a,
];

const BLOCK_BACK: [u8; 16] = [
    0xd1, 0xc8, 0xf4, 0x9a, 0xb4, 0x1a, 0x03, 0x24, 0x87, 0x45, 0x6a, 0xa5, 0xb3, 0x9d, 0x74, 0x4c,
];

fn message(alloc: Global, source: Source, info: &[u8]) -> Result<Km2, NoMemory>
    ensures { IfOk result (λ m. m.source ≡ source) }
{
    Ok(Km2 {
        source,
        options: Text::copy(alloc, b"")?,
        user: Text::copy(alloc, b"")?,
        pass: Text::copy(alloc, b"")?,
        info: Text::copy(alloc, info)?,
    })
}

// The pre-master secret is the bytes 0 to 47.
fn pre_master() -> [u8; 48] {
    let mut pre = [0; 48];
    for (at, byte) in pre.iter_mut().enumerate() {
        *byte = at as u8;
    }
    pre
}

fn of_client(alloc: Global, info: &[u8]) -> Result<Km2, NoMemory>
    ensures { IfOk result (λ m. IsSome m.source.pre) }
{
    let source = Source {
        pre: Some(pre_master()),
        random1: [0xc1; 32],
        random2: [0xc2; 32],
    };
    message(alloc, source, info)
}

fn of_server(alloc: Global) -> Result<Km2, NoMemory> {
    let source = Source {
        pre: None,
        random1: [0x51; 32],
        random2: [0x52; 32],
    };
    message(alloc, source, b"")
}

// Events, with their moments and what they are to answer.
#[derive(Drop)]
struct Script {
    events: Vec<(SlotEvent, Moment)>,
    wanted: Vec<SlotAnswer>,
}

impl Script {
    fn add(&mut self, event: SlotEvent, at: u64, answer: SlotAnswer) -> Result<(), NoMemory> {
        self.events.push((event, Moment(at)))?;
        self.wanted.push(answer)?;
        Ok(())
    }

    fn name(
        &mut self,
        alloc: Global,
        name: &[u8],
        at: u64,
        answer: SlotAnswer,
    ) -> Result<(), NoMemory> {
        let name = Bytes::copy(alloc, name)?;
        self.add(SlotEvent::Name { name }, at, answer)
    }

    fn exchange(&mut self, alloc: Global, at: u64, answer: SlotAnswer) -> Result<(), NoMemory> {
        let client = of_client(alloc, b"IV_CIPHERS=AES-128-GCM\n")?;
        let server = of_server(alloc)?;
        self.add(SlotEvent::Exchange { client, server }, at, answer)
    }

    // Session n is named, gets keys and may be used; the one two before it is closed then.
    fn negotiate(&mut self, alloc: Global, n: u64, at: u64, kid: u8) -> Result<(), NoMemory> {
        self.name(alloc, b"al ice", at, SlotAnswer::Nothing)?;
        self.exchange(alloc, at, closing(n))?;
        self.add(SlotEvent::Look { kid }, at, SlotAnswer::Usable(n))
    }
}

fn closing(n: u64) -> SlotAnswer {
    if n < 2 {
        SlotAnswer::Nothing
    } else {
        SlotAnswer::Closed(Conn(n - 2))
    }
}

// Ten sessions, each of which begins a second after the one before it.
fn ten_sessions(alloc: Global, script: &mut Script) -> Result<(), NoMemory> {
    let kids = [0, 1, 2, 3, 4, 5, 6, 7, 1, 2];
    for n in 0..10u64 {
        let at = 1_000 * n;
        if n > 0 {
            script.add(SlotEvent::Begin { conn: Conn(n) }, at, SlotAnswer::Nothing)?;
        }
        script.negotiate(alloc, n, at, kids[n as usize])?;
    }
    Ok(())
}

// Session 9 began at 9,000 with key id 2; session 8, with key id 1, may be used for 3,600 seconds more.
fn transition(script: &mut Script) -> Result<(), NoMemory> {
    script.add(SlotEvent::Look { kid: 1 }, 3_608_999, SlotAnswer::Usable(8))?;
    script.add(SlotEvent::Retire, 3_608_999, SlotAnswer::Nothing)?;
    script.add(SlotEvent::Look { kid: 1 }, 3_609_000, SlotAnswer::Nothing)?;
    script.add(SlotEvent::Look { kid: 2 }, 3_609_000, SlotAnswer::Usable(9))?;
    script.add(SlotEvent::Retire, 3_609_000, SlotAnswer::Closed(Conn(8)))?;
    script.add(SlotEvent::Retire, 3_609_000, SlotAnswer::Nothing)
}

// A later session's name has to be that of a file, and then the same.
fn bad_names(alloc: Global, script: &mut Script) -> Result<(), NoMemory> {
    let at = 3_609_000;
    script.add(SlotEvent::Begin { conn: Conn(10) }, at, SlotAnswer::Nothing)?;
    script.name(alloc, b"..", at, SlotAnswer::BadName(NameFault::BadName))?;
    script.name(
        alloc,
        b"bob",
        at,
        SlotAnswer::BadName(NameFault::NameChanged),
    )
}

#[test]
fn nine_renegotiations(rt: HostRuntime) -> Result<(), Fail> {
    let alloc = rt.alloc();
    let mut script = Script {
        events: Vec::new(alloc),
        wanted: Vec::new(alloc),
    };
    ten_sessions(alloc, &mut script)?;
    transition(&mut script)?;
    bad_names(alloc, &mut script)?;
    let answers = run_slots(alloc, &SETUP, &script.events)?;
    assert!(rt; answers.as_slice() == script.wanted.as_slice());
    Ok(())
}

fn begun() -> KeySession<BareText, Opening>
    ensures { result.number ≡ 0 }
{
    KeySession::begin(BareText { conn: Conn(7) }, 0, Moment(5))
}

// Why a name is refused, if it is. The session is handed back then.
fn fault_of(name: &[u8], known: Option<&[u8]>) -> Option<NameFault> {
    match begun().named(name, known) {
        Err((session, Or::Why(fault))) if session.number() == 0 && session.began() == Moment(5) => {
            Some(fault)
        }
        _ => None,
    }
}

fn is_kept_as(name: &[u8], kept: &[u8]) -> bool {
    match begun().named(name, None) {
        Ok(session) => session.name() == kept,
        Err(_) => false,
    }
}

// The engine connection that a session's text tells.
fn conn_of_text() -> Conn {
    let mut session = begun();
    session.text().conn()
}

#[test]
fn names_are_judged(rt: HostRuntime) {
    let long = [b'a'; 65];
    assert_eq!(rt; conn_of_text(), Conn(7));
    assert!(rt; is_kept_as(b"al ice", b"al_ice"));
    assert!(rt; is_kept_as(&long[1..], &long[1..]));
    assert!(rt; fault_of(b"al/ice", Some(b"al_ice")) == None);
    assert!(rt; fault_of(b"", None) == Some(NameFault::BadName));
    assert!(rt; fault_of(b"..", Some(b"alice")) == Some(NameFault::BadName));
    assert!(rt; fault_of(&long, None) == Some(NameFault::BadName));
    assert!(rt; fault_of(b"alice", Some(b"bob")) == Some(NameFault::NameChanged));
}

fn named() -> Option<KeySession<BareText, Named>> {
    match begun().named(b"alice", None) {
        Ok(named) => Some(named),
        Err(_) => None,
    }
}

// The session with keys, where the client offers a cipher; else it is handed back with its name.
fn keyed(alloc: Global, info: &[u8]) -> Result<Option<KeySession<BareText, Keyed>>, NoMemory> {
    let client = of_client(alloc, info)?;
    let server = of_server(alloc)?;
    match named() {
        None => Ok(None),
        Some(named) => match named.keyed(&client, &server, &POLICY, CLIENT_SID, SERVER_SID) {
            Ok(keyed) => Ok(Some(keyed)),
            Err((named, NoCipher)) => {
                let _ = named;
                Ok(None)
            }
        },
    }
}

fn has_keys(session: &KeySession<BareText, Keyed>) -> bool {
    let keys = session.keys();
    keys.0.starts_with(&BLOCK_FRONT) && keys.0.ends_with(&BLOCK_BACK)
}

#[test]
fn a_session_gets_keys(rt: HostRuntime) -> Result<(), Fail> {
    let alloc = rt.alloc();
    assert!(rt; keyed(alloc, b"IV_CIPHERS=BF-CBC\n")?.is_none());
    match keyed(alloc, b"IV_CIPHERS=AES-128-GCM\n")? {
        Some(session) => {
            assert!(rt; has_keys(&session));
            assert!(rt; session.cipher() == Cipher::Aes128Gcm);
            assert!(rt; session.name() == b"alice".as_slice());
        }
        None => assert!(rt; false),
    }
    Ok(())
}

// Slots whose session 0 has keys.
fn keyed_slots(alloc: Global) -> Result<Slots<BareText>, NoMemory>
    ensures whole { IfOk result (λ slots. IsWhole slots) }
    ensures stage { IfOk result (λ slots. newest_stage slots ≡ stages.Keyed) }
    ensures number { IfOk result (λ slots. newest_number slots ≡ 0) }
{
    let client = of_client(alloc, b"")?.source;
    let server = of_server(alloc)?.source;
    let mut slots = Slots::new(alloc, begun());
    match slots.name_newest(b"alice", None) {
        Ok(()) => {}
        Err(_) => return Err(NoMemory),
    }
    let info = b"IV_CIPHERS=AES-256-GCM\n";
    match slots.exchange(&client, info, &server, &POLICY, CLIENT_SID, SERVER_SID) {
        Ok(_) => Ok(slots),
        Err(NoCipher) => Err(NoMemory),
    }
}

// What is told of session 0, which is alone, on connection 7, begun at 5, and has keys.
fn tells(slots: &Slots<BareText>) -> bool {
    let now = Moment(6);
    let cipher = Some(Cipher::Aes256Gcm);
    slots.open_at(0) == Some((0, 0, Conn(7)))
        && slots.open_at(1) == None
        && slots.open_with(Conn(7)) == Some(0)
        && slots.open_with_kid(0) == Some(0)
        && slots.newest_usable() == Some(0)
        && slots.retiring() == None
        && slots.retired(now, 0) == None
        && slots.live(0, now, 0) == Some(0)
        && slots.is_open(0)
        && slots.cipher() == cipher
        && slots.keys(0).is_some()
        && slots.keys_at(1).is_none()
}

fn shows(slots: &Slots<BareText>) -> bool {
    let seen = SessionSeen {
        number: 0,
        kid: 0,
        conn: Conn(7),
        began: Moment(5),
        stage: Stage::Keyed,
        is_open: true,
    };
    slots.at(0) == Some(seen)
        && slots.at(1) == None
        && slots.text_from(0) == Some(0)
        && slots.text_from(1) == None
}

#[test]
fn slots_tell_of_their_sessions(rt: HostRuntime) -> Result<(), Fail> {
    let alloc = rt.alloc();
    let mut slots = keyed_slots(alloc)?;
    assert!(rt; tells(&slots));
    assert!(rt; shows(&slots));
    match slots.take_text(0) {
        Some(text) => slots.put_text(0, text),
        None => {
            assert!(rt; false);
            return Ok(());
        }
    }
    slots.reserve()?;
    let next = KeySession::begin(BareText { conn: Conn(8) }, 1, Moment(9));
    assert!(rt; slots.begin_next(next).is_ok());
    assert!(rt; slots.open_at(1) == Some((1, 1, Conn(8))));
    assert!(rt; slots.name().is_none());
    sessions_are_changed_one_by_one();
    Ok(())
}
