//! What is due at a moment.

ghost use Rattle.std.specs.Prelude.{◌≡◌, Bool, true, not, ◌&&◌, ◌||◌, ◌==◌, ◌*◌, ◌^◌, Some, nat_le, slice_get};
ghost use Rattle.vpn_base.specs.declared.names.Conn.{Conn};
ghost use Rattle.key_sessions.specs.Slots.{newest_stage};
ghost use Rattle.key_sessions.specs.declared.slot.Stage.TheVariants as stages;
ghost use Rattle.peer_table.specs.ControlPackets.{newest_is_finished};
ghost use Rattle.peer_table.specs.KeySessions.{Session, has_passed};
ghost use Rattle.peer_table.specs.Peer.{Peer};
ghost use Rattle.peer_table.specs.Time.{is_late, renews, ticking};
ghost use Rattle.session_state.specs.Standing.{PeerStands};
ghost use Rattle.session_state.specs.internal.Finished.{is_finished_seen, is_keyed_stage};

use crate::session::SessionState;
use key_sessions::{Newest, Stage};
use tls_crypt::Wrap;
use vpn_base::Moment;

// Whether so many seconds have passed since a moment.
fn has_passed(seconds: u32, since: Moment, now: Moment) -> bool
    ensures { result ≡ has_passed seconds since.0 now.0 }
{
    match since.0.checked_add(1000 * u64::from(seconds)) {
        None => false,
        Some(end) => end <= now.0,
    }
}

// Whether a session has keys.
fn is_keyed(stage: Stage) -> bool
    ensures { result ≡ is_keyed_stage stage }
{
    match stage {
        Stage::Opening => false,
        Stage::Named => false,
        Stage::Keyed => true,
    }
}

// Whether the newest session is finished.
fn is_finished(established: bool, newest: Newest) -> bool
    ensures { result ≡ is_finished_seen established newest }
{
    if newest.number == 0 {
        is_keyed(newest.stage) && established
    } else {
        is_keyed(newest.stage)
    }
}

// Whether keys that are held since a moment are to be renewed by their time.
fn is_old(seconds: u32, since: Moment, now: Moment) -> bool
    ensures { result ≡ (not (seconds == 0) && has_passed seconds since.0 now.0) }
{
    seconds != 0 && has_passed(seconds, since, now)
}

// Whether keys were held, or used, for so long that new ones are due.
fn is_worn(by_time: bool, keyed: bool, sealed: u32) -> bool
    ensures { result ≡ (by_time || (keyed && nat_le (255 * 2 ^ 24) sealed)) }
{
    by_time || (keyed && sealed >= 4_278_190_080)
}

// Whether the next session is due.
fn is_due(finished: bool, established: bool, worn: bool) -> bool
    ensures { result ≡ (finished && established && worn) }
{
    finished && established && worn
}

impl<W: Wrap + Drop> SessionState<W> {
    /// Whether the newest session is finished, for which it has to have keys.
    pub fn newest_is_finished(&self, established: bool) -> bool
        ensures finished { (p : Peer) → PeerStands W.wrapped self.now p → result ≡ newest_is_finished established p.sessions }
        ensures keyed { result ≡ true → newest_stage self.now.slots ≡ stages.Keyed }
    {
        is_finished(established, self.slots.newest())
    }

    /// Whether the newest session had its time to finish and did not.
    pub fn is_late(&self, established: bool, now: Moment) -> bool
        ensures { (p : Peer) (next_conn : Conn) (idle : Bool) → PeerStands W.wrapped self.now p →
            result ≡ is_late p (ticking now.0 next_conn established idle) }
    {
        let newest = self.slots.newest();
        !is_finished(established, newest) && has_passed(self.timers.hand, newest.began, now)
    }

    /// Whether the next session is to begin.
    pub fn renews(&self, established: bool, now: Moment) -> bool
        ensures renews { (p : Peer) (next_conn : Conn) (idle : Bool) → PeerStands W.wrapped self.now p →
            result ≡ renews p (ticking now.0 next_conn established idle) }
        ensures keyed { result ≡ true → newest_stage self.now.slots ≡ stages.Keyed }
    {
        let newest = self.slots.newest();
        let keyed = is_keyed(newest.stage);
        let by_time = is_old(self.timers.reneg, newest.began, now);
        let sealed = self.sealed_at(newest.number);
        is_due(
            is_finished(established, newest),
            established,
            is_worn(by_time, keyed, sealed),
        )
    }

    // The last packet id that was sealed under the keys of the session of this number, while it is open.
    fn sealed_at(&self, number: u64) -> u32
        ensures { (p : Peer) (s : Session) → PeerStands W.wrapped self.now p → slice_get p.sessions number ≡ Some s → s.is_open ≡ true → result ≡ s.sealed }
    {
        match self.slots.text(number) {
            None => 0,
            Some(text) => text.last_sealed(),
        }
    }
}
