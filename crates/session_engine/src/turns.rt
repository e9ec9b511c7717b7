//! What the owner of a client is to do behind an answer of the TLS engine.

ghost use Rattle.std.specs.Prelude.{◌≡◌, Some, None, slice_get};
ghost use Rattle.key_method2.specs.Reading.{reading};
ghost use Rattle.peer_table.specs.EngineAnswers.{bad_at, bad_of, judged_at, next_turn, prepared_message};
ghost use Rattle.peer_table.specs.KeySessions.{Named, Session};
ghost use Rattle.peer_table.specs.Outboxes.{GoesOnUnlessOver};
ghost use Rattle.peer_table.specs.Peer.{Peer, first_over, other};
ghost use Rattle.session_state.specs.Standing.{GoesOn, PeerStands};

use key_method2::Km2ViewRead;
use key_sessions::{Stage, sessions_are_open_without_keys};
use peer_table::Turn;
use session_state::{SessionState, other};
use tls_crypt::Wrap;
use vpn_base::Cause;

// To look for the client's file where the call gave the client its name.
fn named_or_going(gave_name: bool) -> Turn
    ensures { result ≡ next_turn None gave_name }
{
    if gave_name { Turn::Named } else { Turn::Going }
}

// The exchange where the newest session is prepared for it, else to look for the client's file where the call
// gave the client its name.
fn next_turn<W: Wrap + Drop>(session: &SessionState<W>, gave_name: bool) -> Turn
    ensures turn { (p : Peer) → PeerStands W.wrapped session.now p → result ≡ next_turn (prepared_message p) gave_name }
    ensures goes_on { GoesOn session.now → GoesOnUnlessOver (GoesOn session.now) result }
{
    match session.prepared() {
        Some(_) => Turn::Exchange,
        None => named_or_going(gave_name),
    }
}

// The same behind what the call came to so far.
pub(crate) fn turn_after<W: Wrap + Drop>(
    session: &SessionState<W>,
    so_far: Turn,
    gave_name: bool,
) -> Turn
    ensures turn { (p : Peer) → PeerStands W.wrapped session.now p → result ≡ first_over so_far (next_turn (prepared_message p) gave_name) }
    ensures goes_on { GoesOnUnlessOver (GoesOn session.now) so_far → GoesOnUnlessOver (GoesOn session.now) result }
{
    match so_far {
        Turn::Over(cause) => Turn::Over(cause),
        _ => next_turn(session, gave_name),
    }
}

// What comes of a session's plain text and of its name: a message that is bad ends the client.
pub(crate) fn judge<W: Wrap + Drop>(session: &SessionState<W>, number: u64, gave_name: bool) -> Turn
    ensures turn { (p : Peer) → PeerStands W.wrapped session.now p → result ≡ (judged_at number gave_name p).answer }
    ensures goes_on { GoesOn session.now → GoesOnUnlessOver (GoesOn session.now) result }
{
    turn_after(session, bad_at(session, number), gave_name)
}

// The end of the client where the message in the session of this number is bad, once the name is known and until
// there are keys.
fn bad_at<W: Wrap + Drop>(session: &SessionState<W>, number: u64) -> Turn
    ensures turn { (p : Peer) → PeerStands W.wrapped session.now p → result ≡ bad_at p (slice_get p.sessions number) }
    ensures goes_on { GoesOn session.now → GoesOnUnlessOver (GoesOn session.now) result }
{
    match session.slots.at(number) {
        None => Turn::Going,
        Some(seen) => match seen.stage {
            Stage::Opening => Turn::Going,
            Stage::Named => bad_message(session, number),
            Stage::Keyed => Turn::Going,
        },
    }
}

// The same where the session has a name and no keys.
fn bad_message<W: Wrap + Drop>(session: &SessionState<W>, number: u64) -> Turn
    ensures turn { (p : Peer) (s : Session) → PeerStands W.wrapped session.now p → slice_get p.sessions number ≡ Some s → s.stage ≡ Named →
        result ≡ bad_of (reading (other p.role) s.plain) }
    ensures goes_on { GoesOn session.now → GoesOnUnlessOver (GoesOn session.now) result }
{
    sessions_are_open_without_keys(&session.slots);
    match session.slots.text(number) {
        None => Turn::Going,
        Some(text) => match text.message(other(session.role)) {
            Km2ViewRead::Whole { .. } => Turn::Going,
            Km2ViewRead::More => Turn::Going,
            Km2ViewRead::Bad { place, .. } => Turn::Over(Cause::BadMessage { place }),
        },
    }
}
