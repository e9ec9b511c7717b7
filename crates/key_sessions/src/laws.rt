//! Laws on the sessions for which slots stand, and on lists of sessions that are changed one at a time.

ghost use Rattle.std.specs.Prelude.{◌≡◌, ◌≢◌, ℕ, List, Some, true, false, is_some, slice_get};
ghost use Rattle.peer_table.specs.KeySessions.{Session, has_keys};
ghost use Rattle.peer_table.specs.Orderly.{IsOrderly};
ghost use Rattle.peer_table.specs.Places.{changed_at};
ghost use Rattle.key_sessions.specs.Changes.{one_closed, one_too_many};
ghost use Rattle.key_sessions.specs.Slots.{SlotsStand};

use crate::slots::Slots;
use crate::text::SessionText;

/// Two changes of one session are one change; a change reaches the session at its place and no other; and
/// a session that is one too many is there.
#[tactic(auto, using(crate::proofs::Orders::changed_twice, crate::proofs::Orders::changed_there, crate::proofs::Orders::changed_elsewhere, crate::proofs::Exchanged::one_is_there))]
pub fn sessions_are_changed_one_by_one()
    ensures twice { (n : ℕ) (f : Session → Session) (g : Session → Session) (ss : List Session) →
        changed_at n f (changed_at n g ss) ≡ changed_at n (λ s. f (g s)) ss }
    ensures there { (n : ℕ) (f : Session → Session) (ss : List Session) (s : Session) → slice_get ss n ≡ Some s →
        slice_get (changed_at n f ss) n ≡ Some (f s) }
    ensures elsewhere { (n : ℕ) (f : Session → Session) (ss : List Session) (m : ℕ) → m ≢ n →
        slice_get (changed_at n f ss) m ≡ slice_get ss m }
    ensures too_many { (ss : List Session) → is_some (one_closed ss) ≡ is_some (one_too_many ss) }
{}

/// The sessions are orderly, and one that has no keys is open.
pub fn sessions_are_open_without_keys<T: SessionText>(slots: &Slots<T>)
    ensures orderly { (ss : List Session) → SlotsStand T.stands_for slots.now ss → IsOrderly ss }
    ensures open { (ss : List Session) (n : ℕ) (s : Session) → SlotsStand T.stands_for slots.now ss → slice_get ss n ≡ Some s →
        has_keys s ≡ false → s.is_open ≡ true }
{}
