//! The TLS engine has text for the other end.

ghost use Rattle.std.specs.Prelude.{◌≡◌, ℕ, Some, true, length, slice_get, IfOk, IsOk, MatchResult};
ghost use Rattle.control_link.specs.Calls.{said};
ghost use Rattle.peer_table.specs.EngineAnswers.{text_came};
ghost use Rattle.peer_table.specs.KeySessions.{Session};
ghost use Rattle.peer_table.specs.Outboxes.{GoesOnUnlessOver, HasRoom, LeavesUnless, Uses};
ghost use Rattle.peer_table.specs.Peer.{Peer, answered, gone_on, remote_of, turn_of};
ghost use Rattle.peer_table.specs.declared.outcomes.Turn.TheVariants.{Going};
ghost use Rattle.session_state.specs.Ready.{TakesText};
ghost use Rattle.session_state.specs.Standing.{GoesOn, PeerStands, count, since};
ghost use Rattle.session_engine.specs.internal.Turns.{turn_told, is_over};

use crate::turns::turn_after;
use control_link::LinkEnd;
use peer_table::Turn;
use session_state::{SessionState, cause_of};
use tls_crypt::Wrap;
use vpn_base::{Addr, Moment, NoMemory, Or};
use vpn_links::Outbox;

// What an answer of a link comes to: the client ends where the link has ended.
fn turn_told(answer: Result<(), Or<LinkEnd>>) -> Result<Turn, NoMemory>
    ensures { result ≡ turn_told answer }
{
    match answer {
        Ok(()) => Ok(Turn::Going),
        Err(Or::Memory) => Err(NoMemory),
        Err(Or::Why(end)) => Ok(Turn::Over(cause_of(end))),
    }
}

// Whether the client has ended.
fn is_over(turn: &Result<Turn, NoMemory>) -> bool
    ensures { result ≡ is_over turn.now }
{
    matches!(turn, Ok(Turn::Over(_)))
}

// The session of this number offers the text and sends what may be sent.
fn say_at<W: Wrap + Drop>(
    session: &mut SessionState<W>,
    number: u64,
    bytes: &[u8],
    to: Addr,
    now: Moment,
    out: &mut Outbox,
) -> Result<Turn, NoMemory>
    requires { GoesOn session.old }
    ensures left { (p : Peer) (s : Session) → PeerStands W.wrapped session.old p → slice_get p.sessions number ≡ Some s → s.is_open ≡ true →
        LeavesUnless result (PeerStands W.wrapped) session.new out.old out.new to p
        (gone_on number (said s.link p.envelope bytes.now (remote_of p) now.0) (answered p Going)) }
    ensures answer { IfOk result (λ turn. (p : Peer) (s : Session) → PeerStands W.wrapped session.old p → slice_get p.sessions number ≡ Some s →
        s.is_open ≡ true → turn ≡ turn_of (said s.link p.envelope bytes.now (remote_of p) now.0).end) }
    ensures goes_on { MatchResult result (GoesOnUnlessOver (GoesOn session.new)) (λ _. GoesOn session.new) }
    ensures fits { (effects room : ℕ) → TakesText session.old (length bytes.now) effects room → HasRoom out.old 6 7200 → IsOk result }
    ensures uses { Uses out.old out.new 6 7200 }
    ensures count { count session.new ≡ count session.old }
    ensures since { since session.new ≡ since session.old }
{
    let remote = session.remote_sent();
    match session.slots.take_text(number) {
        None => Ok(Turn::Going),
        Some(mut text) => {
            let said = text.say(bytes, &mut session.envelope, remote, to, now, out);
            session.slots.put_text(number, text);
            let turn = turn_told(said);
            session.is_over = is_over(&turn);
            turn
        }
    }
}

// The engine has text for the other end, in the session of this number.
pub(crate) fn text_at<W: Wrap + Drop>(
    session: &mut SessionState<W>,
    number: u64,
    bytes: &[u8],
    to: Addr,
    now: Moment,
    out: &mut Outbox,
) -> Result<Turn, NoMemory>
    requires { GoesOn session.old }
    ensures left { (p : Peer) (s : Session) → PeerStands W.wrapped session.old p → slice_get p.sessions number ≡ Some s → s.is_open ≡ true →
        LeavesUnless result (PeerStands W.wrapped) session.new out.old out.new to p (text_came number bytes.now now.0 p) }
    ensures answer { IfOk result (λ turn. (p : Peer) (s : Session) → PeerStands W.wrapped session.old p → slice_get p.sessions number ≡ Some s →
        s.is_open ≡ true → turn ≡ (text_came number bytes.now now.0 p).answer) }
    ensures goes_on { MatchResult result (GoesOnUnlessOver (GoesOn session.new)) (λ _. GoesOn session.new) }
    ensures fits { (effects room : ℕ) → TakesText session.old (length bytes.now) effects room → HasRoom out.old 6 7200 → IsOk result }
    ensures uses { Uses out.old out.new 6 7200 }
    ensures count { count session.new ≡ count session.old }
    ensures since { since session.new ≡ since session.old }
{
    match say_at(session, number, bytes, to, now, out) {
        Ok(turn) => Ok(turn_after(session, turn, false)),
        Err(NoMemory) => Err(NoMemory),
    }
}
