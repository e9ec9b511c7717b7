//! The TLS engine answers on a connection.

ghost use Rattle.std.specs.Prelude.{◌≡◌, ℕ, Some, true, slice_get, IfOk, IsOk, MatchResult};
ghost use Rattle.peer_table.specs.EngineAnswers.{answer_in, conn_in, engine_came, session_on};
ghost use Rattle.peer_table.specs.KeySessions.{Session};
ghost use Rattle.peer_table.specs.Outboxes.{GoesOnUnlessOver, HasRoom, LeavesUnless, Uses};
ghost use Rattle.peer_table.specs.Peer.{Peer};
ghost use Rattle.session_state.specs.Ready.{IsReady};
ghost use Rattle.session_state.specs.Standing.{GoesOn, PeerStands, count, since};

use crate::named::name_at;
use crate::plain::plain_at;
use crate::said::text_at;
use peer_table::Turn;
use session_state::SessionState;
use tls_crypt::Wrap;
use vpn_base::{Addr, Conn, Moment, NoMemory};
use vpn_links::{Kind, Outbox};

// The connection of an engine answer.
fn conn_in(kind: &Kind) -> Option<Conn>
    ensures { result ≡ conn_in kind.now }
{
    match kind {
        Kind::EngineText { conn, .. } => Some(*conn),
        Kind::EnginePlain { conn, .. } => Some(*conn),
        Kind::EngineUp { conn, .. } => Some(*conn),
        Kind::EngineDown { conn } => Some(*conn),
        _ => None,
    }
}

/// The engine has answered on a connection. An answer for no open one does nothing, and neither does one
/// that says that the connection is down: the owner ends the client then.
pub fn on_engine<W: Wrap + Drop>(
    session: &mut SessionState<W>,
    kind: &Kind,
    to: Addr,
    now: Moment,
    out: &mut Outbox,
) -> Result<Turn, NoMemory>
    requires { GoesOn session.old }
    ensures left { (p : Peer) → PeerStands W.wrapped session.old p →
        LeavesUnless result (PeerStands W.wrapped) session.new out.old out.new to p (engine_came kind.now now.0 p) }
    ensures answer { IfOk result (λ turn. (p : Peer) → PeerStands W.wrapped session.old p → turn ≡ (engine_came kind.now now.0 p).answer) }
    ensures goes_on { MatchResult result (GoesOnUnlessOver (GoesOn session.new)) (λ _. GoesOn session.new) }
    ensures fits { (effects room : ℕ) → IsReady session.old kind.now effects room → HasRoom out.old effects room → IsOk result }
    ensures uses { (effects room : ℕ) → IsReady session.old kind.now effects room →
        HasRoom out.old effects room → HasRoom out.new 2 93 × Uses out.old out.new effects room }
    ensures count { count session.new ≡ count session.old }
    ensures since { since session.new ≡ since session.old }
{
    match session_on(session, kind) {
        None => Ok(Turn::Going),
        Some(number) => answer_in(session, kind, number, to, now, out),
    }
}

// The open session that an engine answer is for.
#[tactic(auto, unfolding(session_state::specs::Standing::PeerStands))]
fn session_on<W: Wrap + Drop>(session: &SessionState<W>, kind: &Kind) -> Option<u64>
    ensures { (p : Peer) → PeerStands W.wrapped session.now p → result ≡ session_on (conn_in kind.now) p }
{
    match conn_in(kind) {
        None => None,
        Some(conn) => session.slots.open_with(conn),
    }
}

// It comes in the session of this number.
fn answer_in<W: Wrap + Drop>(
    session: &mut SessionState<W>,
    kind: &Kind,
    number: u64,
    to: Addr,
    now: Moment,
    out: &mut Outbox,
) -> Result<Turn, NoMemory>
    requires { GoesOn session.old }
    ensures left { (p : Peer) (s : Session) → PeerStands W.wrapped session.old p → slice_get p.sessions number ≡ Some s → s.is_open ≡ true →
        LeavesUnless result (PeerStands W.wrapped) session.new out.old out.new to p (answer_in kind.now number now.0 p) }
    ensures answer { IfOk result (λ turn. (p : Peer) (s : Session) → PeerStands W.wrapped session.old p → slice_get p.sessions number ≡ Some s →
        s.is_open ≡ true → turn ≡ (answer_in kind.now number now.0 p).answer) }
    ensures goes_on { MatchResult result (GoesOnUnlessOver (GoesOn session.new)) (λ _. GoesOn session.new) }
    ensures fits { (effects room : ℕ) → IsReady session.old kind.now effects room → HasRoom out.old effects room → IsOk result }
    ensures uses { (effects room : ℕ) → IsReady session.old kind.now effects room →
        HasRoom out.old effects room → HasRoom out.new 2 93 × Uses out.old out.new effects room }
    ensures count { count session.new ≡ count session.old }
    ensures since { since session.new ≡ since session.old }
{
    match kind {
        Kind::EngineText { bytes, .. } => text_at(session, number, bytes.as_slice(), to, now, out),
        Kind::EnginePlain { bytes, .. } => plain_at(session, number, bytes.as_slice()),
        Kind::EngineUp { name, .. } => Ok(name_at(session, number, name.as_slice())),
        _ => Ok(Turn::Going),
    }
}
