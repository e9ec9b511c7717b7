//! The TLS engine has checked the other end, and gives its common name.

ghost use Rattle.std.specs.Prelude.{◌≡◌, ◌≢◌, ◌≤◌, ℕ, List, Some, None, true, length, slice_get, MatchResult, OnOk, OnErr};
ghost use Rattle.std.specs.Option.{option_copied};
ghost use Rattle.vpn_base.specs.declared.errors.Or.TheVariants.{Memory, Why};
ghost use Rattle.key_sessions.specs.Changes.{newest_named};
ghost use Rattle.key_sessions.specs.Names.{name_fault};
ghost use Rattle.key_sessions.specs.Slots.{IsWhole, SlotsStand, newest_name, newest_number, newest_stage};
ghost use Rattle.key_sessions.specs.declared.slot.Stage.TheVariants as stages;
ghost use Rattle.peer_lines.specs.Standing.{StandsFor};
ghost use Rattle.peer_table.specs.EngineAnswers.{kept_name, name_came, name_judged, with_named};
ghost use Rattle.peer_table.specs.KeySessions.{Session, newest};
ghost use Rattle.peer_table.specs.Outboxes.{GoesOnUnlessOver};
ghost use Rattle.peer_table.specs.Peer.{Peer};
ghost use Rattle.session_state.specs.Standing.{GoesOn, PeerStands, count, since};
ghost use Rattle.session_engine.specs.internal.Turns.{LeavesQuietly, cause_named, is_opening};

use crate::turns::judge;
use key_sessions::{NameFault, Slots, Stage, sessions_are_open_without_keys};
use peer_lines::SessionChannels;
use peer_table::Turn;
use session_state::{ClientName, SessionState};
use tls_crypt::Wrap;
use vpn_base::{Cause, Or};

// Why the client ends with a name that is refused.
fn cause_of(fault: NameFault) -> Cause
    ensures { result ≡ cause_named fault }
{
    match fault {
        NameFault::BadName => Cause::BadName,
        NameFault::NameChanged => Cause::NameChanged,
    }
}

// Why a name was refused, which takes no memory.
fn fault_in(refused: Or<NameFault>) -> NameFault
    requires { refused ≢ Memory }
    ensures { refused ≡ Why result }
{
    match refused {
        Or::Why(fault) => fault,
        Or::Memory => unreachable!(),
    }
}

// The bytes of a name that may be known.
fn known(name: &Option<ClientName>) -> Option<&[u8]>
    ensures { option_copied result ≡ name.now }
{
    match name {
        None => None,
        Some(name) => Some(name.as_slice()),
    }
}

// A copy of the name of the newest session.
fn newest_name(slots: &Slots<SessionChannels>) -> Option<ClientName>
    requires short { (name : List ℕ) → newest_name slots.now ≡ Some name → length name ≤ 64 }
    ensures copy { result ≡ newest_name slots.now }
{
    match slots.name() {
        None => None,
        Some(name) => Some(ClientName::of(name)),
    }
}

// The newest session has a name, unless it is refused.
fn name_newest(
    slots: &mut Slots<SessionChannels>,
    name: &[u8],
    known: Option<&[u8]>,
) -> Result<(), NameFault>
    requires stage { newest_stage slots.old ≡ stages.Opening }
    ensures named { OnOk result ((ss : List Session) → SlotsStand StandsFor slots.old ss → SlotsStand StandsFor slots.new (newest_named ss)) }
    ensures judged { MatchResult result (λ _. name_fault (kept_name name.now) (option_copied known.entry) ≡ None)
        (λ fault. name_fault (kept_name name.now) (option_copied known.entry) ≡ Some fault) }
    ensures name { OnOk result (newest_name slots.new ≡ Some (kept_name name.now)) }
    ensures kept { OnErr result (slots.new ≡ slots.old) }
    ensures whole { IsWhole slots.old → IsWhole slots.new }
    ensures number { newest_number slots.new ≡ newest_number slots.old }
{
    match slots.name_newest(name, known) {
        Ok(()) => Ok(()),
        Err(refused) => Err(fault_in(refused)),
    }
}

// The name becomes that of the newest session and of the client, unless it is refused.
fn take_name<W: Wrap + Drop>(session: &mut SessionState<W>, name: &[u8]) -> Result<(), NameFault>
    requires stage { newest_stage session.old.slots ≡ stages.Opening }
    requires goes_on { GoesOn session.old }
    ensures named { OnOk result ((p : Peer) → PeerStands W.wrapped session.old p →
        PeerStands W.wrapped session.new (with_named (newest p.sessions) (record p { name = Some (kept_name name.now) }))) }
    ensures kept { OnErr result ((p : Peer) → PeerStands W.wrapped session.old p → PeerStands W.wrapped session.new p) }
    ensures judged { MatchResult result (λ _. name_fault (kept_name name.now) session.old.name ≡ None)
        (λ fault. name_fault (kept_name name.now) session.old.name ≡ Some fault) }
    ensures goes_on { GoesOn session.new }
    ensures count { count session.new ≡ count session.old }
    ensures since { since session.new ≡ since session.old }
{
    match name_newest(&mut session.slots, name, known(&session.name)) {
        Ok(()) => {
            session.name = newest_name(&session.slots);
            Ok(())
        }
        Err(fault) => Err(fault),
    }
}

// Whether this is the number of the newest session, and it has no name yet.
fn is_opening<W: Wrap + Drop>(session: &SessionState<W>, number: u64) -> bool
    ensures opening { (p : Peer) (s : Session) → PeerStands W.wrapped session.now p → slice_get p.sessions number ≡ Some s → result ≡ is_opening s.stage }
    ensures stage { result ≡ true → newest_stage session.now.slots ≡ stages.Opening }
    ensures number { (p : Peer) → PeerStands W.wrapped session.now p → result ≡ true → newest p.sessions ≡ number }
{
    sessions_are_open_without_keys(&session.slots);
    let newest = session.slots.newest();
    if number != newest.number {
        return false;
    }
    match newest.stage {
        Stage::Opening => true,
        Stage::Named => false,
        Stage::Keyed => false,
    }
}

// The name has come in the newest session, of this number, which has none yet.
fn name_opening<W: Wrap + Drop>(session: &mut SessionState<W>, number: u64, name: &[u8]) -> Turn
    requires stage { newest_stage session.old.slots ≡ stages.Opening }
    requires goes_on { GoesOn session.old }
    ensures left { (p : Peer) → PeerStands W.wrapped session.old p → newest p.sessions ≡ number →
        LeavesQuietly (PeerStands W.wrapped) session.new (name_judged number (kept_name name.now) p) }
    ensures answer { (p : Peer) → PeerStands W.wrapped session.old p → newest p.sessions ≡ number → result ≡ (name_judged number (kept_name name.now) p).answer }
    ensures goes_on { GoesOnUnlessOver (GoesOn session.new) result }
    ensures count { count session.new ≡ count session.old }
    ensures since { since session.new ≡ since session.old }
{
    let gave_name = session.name.is_none();
    match take_name(session, name) {
        Ok(()) => judge(session, number, gave_name),
        Err(fault) => Turn::Over(cause_of(fault)),
    }
}

// The name has come, in the session of this number. A second name in one session means nothing.
pub(crate) fn name_at<W: Wrap + Drop>(
    session: &mut SessionState<W>,
    number: u64,
    name: &[u8],
) -> Turn
    requires { GoesOn session.old }
    ensures left { (p : Peer) (s : Session) → PeerStands W.wrapped session.old p → slice_get p.sessions number ≡ Some s →
        LeavesQuietly (PeerStands W.wrapped) session.new (name_came number name.now p) }
    ensures answer { (p : Peer) (s : Session) → PeerStands W.wrapped session.old p → slice_get p.sessions number ≡ Some s →
        result ≡ (name_came number name.now p).answer }
    ensures goes_on { GoesOnUnlessOver (GoesOn session.new) result }
    ensures count { count session.new ≡ count session.old }
    ensures since { since session.new ≡ since session.old }
{
    if is_opening(session, number) {
        name_opening(session, number, name)
    } else {
        Turn::Ignored
    }
}
