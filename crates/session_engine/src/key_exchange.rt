//! The key exchange of the newest key session.

ghost use Rattle.std.specs.Prelude.{◌≡◌, ◌≤◌, ◌<◌, ◌+◌, ◌^◌, [], ◌∷◌, ◌++◌, ℕ, List, Option, length, take, drop, Some, false, true, IfOk, IfSome, IsOk, IsSome, MatchResult, option_map, slice_get};
ghost use Rattle.vpn_base.specs.declared.address.Addr.{Addr};
ghost use Rattle.vpn_base.specs.declared.names.Role.{Role};
ghost use Rattle.vpn_links.specs.Actions.{Holds};
ghost use Rattle.key_method2.specs.declared.message.Km2.{Km2};
ghost use Rattle.key_method2.specs.declared.message.Source.{Source};
ghost use Rattle.key_method2.specs.Messages.{server_message};
ghost use Rattle.key_method2.specs.Reading.{reading};
ghost use Rattle.key_sessions.specs.declared.slot.Stage.TheVariants as stages;
ghost use Rattle.key_sessions.specs.Changes.{exchanged_in, newest_keyed, one_closed};
ghost use Rattle.key_sessions.specs.Sessions.{keys_made};
ghost use Rattle.key_sessions.specs.Slots.{IsWhole, SlotsStand, newest_number, newest_stage};
ghost use Rattle.peer_table.specs.EngineAnswers.{prepared_message, whole_of};
ghost use Rattle.peer_table.specs.Exchange.{asks_with, block_of, closing, exchanged, exchanged_with, server_source};
ghost use Rattle.peer_table.specs.KeySessions.{Keyed, Keys, Named, Session, has_keys, kid_of, newest, newest_usable};
ghost use Rattle.peer_table.specs.Outboxes.{GoesOnUnlessOver, HasRoom, LeavesUnless, Uses, actions_of};
ghost use Rattle.peer_table.specs.Peer.{Peer, Writes, other};
ghost use Rattle.peer_table.specs.Places.{changed_at};
ghost use Rattle.peer_lines.specs.Calls.{with_read};
ghost use Rattle.peer_lines.specs.Standing.{StandsFor};
ghost use Rattle.session_state.specs.Standing.{GoesOn, PeerStands, count, since};
ghost use Rattle.session_engine.specs.internal.Exchanges.{IsTextOf, prepared_as};

use hmac_kit::KeyBlock;
use key_method2::{Source, asks_push};
use key_sessions::{NoCipher, Slots, Stage, cipher_chosen, kid_of, sessions_are_open_without_keys};
use peer_lines::{SessionChannels, channels_stand_on};
use peer_table::Turn;
use session_state::SessionState;
use tls_crypt::Wrap;
use vpn_base::{Cause, Cipher, Draw, NoMemory, Policy, Role, Sid};
use vpn_links::Outbox;

/// What an exchange takes of the other end's message.
#[derive(Clone, Copy)]
pub(crate) struct Prepared {
    // the other end's key source
    pub(crate) source: Source,
    // how many bytes its message takes
    pub(crate) used: usize,
    // the cipher, where it offers one
    pub(crate) cipher: Option<Cipher>,
    // whether the client asks then to be established without a push request
    pub(crate) asks_push: bool,
}

// 32 bytes of a draw, from this place on.
fn random_at(draw: &Draw, at: usize) -> [u8; 32]
    requires { at + 32 ≤ 120 }
    ensures { result ≡ take 32 (drop at draw.now.0) }
{
    let mut random = [0; 32];
    random.copy_from_slice(&draw.0[at..at + 32]);
    random
}

// The server's key source in a draw.
fn server_source(draw: &Draw) -> Source
    ensures { result ≡ server_source draw.now }
{
    Source {
        pre: None,
        random1: random_at(draw, 8),
        random2: random_at(draw, 40),
    }
}

// The source with a pre-master secret. That of a server has none, which counts as an empty one, and an empty key is the
// same to HMAC as one of zeros.
fn with_pre(source: &Source) -> Source
    ensures pre { IsSome result.pre }
    ensures block { (own : Source) (client_sid server_sid : List ℕ) →
        block_of result own client_sid server_sid ≡ block_of source.now own client_sid server_sid }
{
    match source.pre {
        Some(_) => *source,
        None => Source {
            pre: Some([0; 48]),
            random1: source.random1,
            random2: source.random2,
        },
    }
}

// Of a session without keys nothing was read, as what belongs to it tells.
fn nothing_is_read_before_keys(slots: &Slots<SessionChannels>, number: u64)
    requires { IsWhole slots.now }
    ensures { (ss : List Session) (s : Session) → SlotsStand StandsFor slots.now ss → slice_get ss number ≡ Some s → has_keys s ≡ false → s.read ≡ 0 }
{
    channels_stand_on();
    sessions_are_open_without_keys(slots);
    let _ = slots.text(number);
}

// The newest session, which has a name, gets the keys of these sources and session ids. The text of the session
// that is one too many then is given, and that session closed.
fn make_keys(
    slots: &mut Slots<SessionChannels>,
    client: &Source,
    own: &Source,
    cipher: Cipher,
    client_sid: Sid,
    server_sid: Sid,
) -> Option<SessionChannels>
    requires named { newest_stage slots.old ≡ stages.Named }
    requires whole { IsWhole slots.old }
    ensures made { (peer_id : ℕ) (ss : List Session) → SlotsStand StandsFor slots.old ss →
        SlotsStand StandsFor slots.new (exchanged_in (keys_made client.now own.now client_sid server_sid cipher peer_id) ss) }
    ensures given { (peer_id : ℕ) (ss : List Session) → SlotsStand StandsFor slots.old ss →
        IsTextOf result (one_closed (newest_keyed (keys_made client.now own.now client_sid server_sid cipher peer_id) ss)) }
    ensures whole { IsWhole slots.new }
    ensures number { newest_number slots.new ≡ newest_number slots.old }
{
    let client = with_pre(client);
    let policy = Policy::Fixed(cipher);
    match slots.exchange(&client, b"", own, &policy, client_sid, server_sid) {
        Ok(closed) => closed,
        // A cipher that is fixed is always chosen.
        Err(NoCipher) => None,
    }
}

// Writes the server's message in the session of this number under these keys.
fn write_under(
    slots: &mut Slots<SessionChannels>,
    number: u64,
    keys: &KeyBlock,
    cipher: Cipher,
    role: Role,
    peer_id: u32,
    own: &Source,
    used: usize,
    out: &mut Outbox,
)
    requires peer_id { peer_id < 2 ^ 24 }
    requires whole { IsWhole slots.old }
    requires room { HasRoom out.old 1 93 }
    ensures written { (ss : List Session) (s : Session) → SlotsStand StandsFor slots.old ss → slice_get ss number ≡ Some s → s.is_open ≡ true →
        s.stage ≡ Keyed (record { block = keys.now.0; cipher = cipher; peer_id = peer_id }) → s.read ≡ 0 → s.link.kid ≡ kid_of number → used ≤ length s.plain →
        SlotsStand StandsFor slots.new (changed_at number (with_read used) ss)
        × ((end : Role) → Holds out.new (out.old.effects ++ actions_of end (Writes s.link.conn (server_message own.now) ∷ [])) out.old.staged) }
    ensures whole { IsWhole slots.new }
    ensures number { newest_number slots.new ≡ newest_number slots.old }
    ensures uses { Uses out.old out.new 1 93 }
{
    match slots.take_text(number) {
        None => {}
        Some(mut text) => {
            let written = text.exchange(
                keys,
                cipher,
                role,
                kid_of(number),
                peer_id,
                own,
                used,
                out,
            );
            prove!(written.is_ok());
            let _ = written;
            slots.put_text(number, text);
        }
    }
}

// Writes the server's message in the session of this number, which has keys.
fn write_in(
    slots: &mut Slots<SessionChannels>,
    number: u64,
    role: Role,
    peer_id: u32,
    own: &Source,
    used: usize,
    out: &mut Outbox,
)
    requires peer_id { peer_id < 2 ^ 24 }
    requires whole { IsWhole slots.old }
    requires room { HasRoom out.old 1 93 }
    ensures written { (ss : List Session) (s : Session) (keys : Keys) → SlotsStand StandsFor slots.old ss → slice_get ss number ≡ Some s → s.is_open ≡ true →
        s.stage ≡ Keyed keys → keys.peer_id ≡ peer_id → s.read ≡ 0 → s.link.kid ≡ kid_of number → used ≤ length s.plain →
        SlotsStand StandsFor slots.new (changed_at number (with_read used) ss)
        × ((end : Role) → Holds out.new (out.old.effects ++ actions_of end (Writes s.link.conn (server_message own.now) ∷ [])) out.old.staged) }
    ensures whole { IsWhole slots.new }
    ensures number { newest_number slots.new ≡ newest_number slots.old }
    ensures uses { Uses out.old out.new 1 93 }
{
    match slots.keys_at(number) {
        None => {}
        Some((keys, cipher)) => {
            let block = *keys;
            write_under(slots, number, &block, cipher, role, peer_id, own, used, out);
        }
    }
}

// Writes the server's message in the last session with keys, whose data channel is there then.
fn write_message(
    slots: &mut Slots<SessionChannels>,
    role: Role,
    peer_id: u32,
    own: &Source,
    used: usize,
    out: &mut Outbox,
)
    requires peer_id { peer_id < 2 ^ 24 }
    requires whole { IsWhole slots.old }
    requires room { HasRoom out.old 1 93 }
    ensures written { (ss : List Session) (n : ℕ) (s : Session) (keys : Keys) → SlotsStand StandsFor slots.old ss → newest_usable ss ≡ Some n → slice_get ss n ≡ Some s →
        s.stage ≡ Keyed keys → keys.peer_id ≡ peer_id → s.read ≡ 0 → s.link.kid ≡ kid_of n → used ≤ length s.plain →
        SlotsStand StandsFor slots.new (changed_at n (with_read used) ss)
        × ((end : Role) → Holds out.new (out.old.effects ++ actions_of end (Writes s.link.conn (server_message own.now) ∷ [])) out.old.staged) }
    ensures whole { IsWhole slots.new }
    ensures number { newest_number slots.new ≡ newest_number slots.old }
    ensures uses { Uses out.old out.new 1 93 }
{
    match slots.newest_usable() {
        None => {}
        Some(number) => write_in(slots, number, role, peer_id, own, used, out),
    }
}

// Closes the connection of a session that was closed, if there is one.
fn close_given(given: Option<SessionChannels>, out: &mut Outbox)
    requires { 1 ≤ out.old.spare_effects }
    ensures closed { (o : Option Session) (end : Role) → IsTextOf given o → Holds out.new (out.old.effects ++ actions_of end (closing o)) out.old.staged }
    ensures uses { Uses out.old out.new 1 0 }
{
    match given {
        None => {}
        Some(text) => {
            let closed = text.close(out);
            prove!(closed.is_ok());
            let _ = closed;
        }
    }
}

/// Makes the key exchange of the newest key session, and does nothing where it is not prepared. What is
/// sealed under its keys carries this peer id. The server's key source is taken from the draw. The client is over
/// where it offers no cipher of the policy. Memory can only be wanted for the outbox: 2 effects and 93 bytes.
pub fn exchange<W: Wrap + Drop>(
    session: &mut SessionState<W>,
    policy: &Policy,
    peer_id: u32,
    draw: &Draw,
    out: &mut Outbox,
) -> Result<Turn, NoMemory>
    requires peer_id { peer_id < 2 ^ 24 }
    requires goes_on { GoesOn session.old }
    ensures left { (p : Peer) (to : Addr) → PeerStands W.wrapped session.old p →
        LeavesUnless result (PeerStands W.wrapped) session.new out.old out.new to p (exchanged policy.now peer_id draw.now p) }
    ensures answer { IfOk result (λ turn. (p : Peer) → PeerStands W.wrapped session.old p → turn ≡ (exchanged policy.now peer_id draw.now p).answer) }
    ensures goes_on { MatchResult result (GoesOnUnlessOver (GoesOn session.new)) (λ _. GoesOn session.new) }
    ensures fits { HasRoom out.old 2 93 → IsOk result }
    ensures uses { Uses out.old out.new 2 93 }
    ensures count { count session.new ≡ count session.old }
    ensures since { since session.new ≡ since session.old }
{
    match look(session, policy) {
        None => Ok(Turn::Going),
        Some(prepared) => match prepared.cipher {
            None => Ok(Turn::Over(Cause::NoCipher)),
            Some(cipher) => {
                let own = server_source(draw);
                match exchange_with(session, &prepared, cipher, peer_id, &own, out) {
                    Ok(()) => Ok(Turn::Going),
                    Err(NoMemory) => Err(NoMemory),
                }
            }
        },
    }
}

// What an exchange takes of the message by which the newest session is prepared.
fn look<W: Wrap + Drop>(session: &SessionState<W>, policy: &Policy) -> Option<Prepared>
    ensures looked { (p : Peer) → PeerStands W.wrapped session.now p → result ≡ option_map (prepared_as policy.now p) (prepared_message p) }
    ensures named { IfSome result (λ _. newest_stage session.now.slots ≡ stages.Named) }
{
    let newest = session.slots.newest();
    match newest.stage {
        Stage::Opening => None,
        Stage::Named => look_in(session, newest.number, policy),
        Stage::Keyed => None,
    }
}

// The same of the session of this number, which has a name and no keys.
fn look_in<W: Wrap + Drop>(
    session: &SessionState<W>,
    number: u64,
    policy: &Policy,
) -> Option<Prepared>
    ensures { (p : Peer) (s : Session) → PeerStands W.wrapped session.now p → slice_get p.sessions number ≡ Some s → s.stage ≡ Named → newest p.sessions ≡ number →
        result ≡ option_map (prepared_as policy.now p) (whole_of (reading (other p.role) s.plain)) }
{
    match session.whole_message(number) {
        None => None,
        Some((view, used)) => Some(Prepared {
            source: view.source,
            used,
            cipher: cipher_chosen(policy, view.info),
            asks_push: asks_with(session, number, view.info),
        }),
    }
}

// Whether the client asks to be established without a push request, once this peer info came in the session of
// this number.
#[tactic(auto, using(crate::proofs::ExchangeSteps::asks_later), unfolding(session_state::specs::Standing::PeerStands))]
fn asks_with<W: Wrap + Drop>(session: &SessionState<W>, number: u64, info: &[u8]) -> bool
    ensures { (p : Peer) → PeerStands W.wrapped session.now p → result ≡ asks_with number info.now p }
{
    if number == 0 {
        asks_push(info)
    } else {
        session.asks_push
    }
}

// The key exchange of the newest session by what was taken of the other end's message, under this cipher.
fn exchange_with<W: Wrap + Drop>(
    session: &mut SessionState<W>,
    prepared: &Prepared,
    cipher: Cipher,
    peer_id: u32,
    own: &Source,
    out: &mut Outbox,
) -> Result<(), NoMemory>
    requires named { newest_stage session.old.slots ≡ stages.Named }
    requires peer_id { peer_id < 2 ^ 24 }
    requires goes_on { GoesOn session.old }
    ensures left { (policy : Policy) (p : Peer) (message : Km2 × ℕ) (to : Addr) → PeerStands W.wrapped session.old p → prepared_message p ≡ Some message →
        prepared.now ≡ prepared_as policy p message →
        LeavesUnless result (PeerStands W.wrapped) session.new out.old out.new to p (exchanged_with peer_id p own.now message.0 message.1 (Some cipher)) }
    ensures goes_on { GoesOn session.new }
    ensures fits { HasRoom out.old 2 93 → IsOk result }
    ensures uses { Uses out.old out.new 2 93 }
    ensures count { count session.new ≡ count session.old }
    ensures since { since session.new ≡ since session.old }
{
    match out.reserve(2, 93) {
        Ok(()) => {}
        Err(NoMemory) => return Err(NoMemory),
    }
    nothing_is_read_before_keys(&session.slots, session.slots.newest().number);
    let remote = session.remote.unwrap_or(Sid([0; 8]));
    let closed = make_keys(
        &mut session.slots,
        &prepared.source,
        own,
        cipher,
        remote,
        session.own,
    );
    write_message(
        &mut session.slots,
        session.role,
        peer_id,
        own,
        prepared.used,
        out,
    );
    close_given(closed, out);
    session.asks_push = prepared.asks_push;
    Ok(())
}
