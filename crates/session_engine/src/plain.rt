//! The TLS engine has plain text of the other end.

ghost use Rattle.std.specs.Prelude.{◌≡◌, Some, true, length, slice_get, IfOk, IsOk, MatchResult, OnOk, OnErr};
ghost use Rattle.peer_table.specs.EngineAnswers.{plain_came, with_plain};
ghost use Rattle.peer_table.specs.KeySessions.{Session};
ghost use Rattle.peer_table.specs.Outboxes.{GoesOnUnlessOver};
ghost use Rattle.peer_table.specs.Peer.{Peer};
ghost use Rattle.session_state.specs.Ready.{TakesPlain};
ghost use Rattle.session_state.specs.Standing.{GoesOn, PeerStands, count, since};
ghost use Rattle.session_engine.specs.internal.Turns.{LeavesQuietly};

use crate::turns::judge;
use peer_table::Turn;
use session_state::SessionState;
use tls_crypt::Wrap;
use vpn_base::NoMemory;

// It stands behind the plain text of the session of this number so far.
fn put_plain_at<W: Wrap + Drop>(
    session: &mut SessionState<W>,
    number: u64,
    bytes: &[u8],
) -> Result<(), NoMemory>
    requires { GoesOn session.old }
    ensures put { OnOk result ((p : Peer) (s : Session) → PeerStands W.wrapped session.old p → slice_get p.sessions number ≡ Some s → s.is_open ≡ true →
        PeerStands W.wrapped session.new (with_plain number bytes.now p)) }
    ensures same { OnErr result ((p : Peer) (s : Session) → PeerStands W.wrapped session.old p → slice_get p.sessions number ≡ Some s → s.is_open ≡ true →
        PeerStands W.wrapped session.new p) }
    ensures goes_on { GoesOn session.new }
    ensures fits { TakesPlain session.old (length bytes.now) → IsOk result }
    ensures count { count session.new ≡ count session.old }
    ensures since { since session.new ≡ since session.old }
{
    match session.slots.take_text(number) {
        None => Ok(()),
        Some(mut text) => {
            let put = text.put_plain(bytes);
            session.slots.put_text(number, text);
            put
        }
    }
}

// Plain text has come, in the session of this number.
pub(crate) fn plain_at<W: Wrap + Drop>(
    session: &mut SessionState<W>,
    number: u64,
    bytes: &[u8],
) -> Result<Turn, NoMemory>
    requires { GoesOn session.old }
    ensures left { OnOk result ((p : Peer) (s : Session) → PeerStands W.wrapped session.old p → slice_get p.sessions number ≡ Some s → s.is_open ≡ true →
        LeavesQuietly (PeerStands W.wrapped) session.new (plain_came number bytes.now p)) }
    ensures same { OnErr result ((p : Peer) (s : Session) → PeerStands W.wrapped session.old p → slice_get p.sessions number ≡ Some s → s.is_open ≡ true →
        PeerStands W.wrapped session.new p) }
    ensures answer { IfOk result (λ turn. (p : Peer) (s : Session) → PeerStands W.wrapped session.old p → slice_get p.sessions number ≡ Some s →
        s.is_open ≡ true → turn ≡ (plain_came number bytes.now p).answer) }
    ensures goes_on { MatchResult result (GoesOnUnlessOver (GoesOn session.new)) (λ _. GoesOn session.new) }
    ensures fits { TakesPlain session.old (length bytes.now) → IsOk result }
    ensures count { count session.new ≡ count session.old }
    ensures since { since session.new ≡ since session.old }
{
    match put_plain_at(session, number, bytes) {
        Ok(()) => Ok(judge(session, number, false)),
        Err(NoMemory) => Err(NoMemory),
    }
}
