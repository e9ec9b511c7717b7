//! Sessions that are looked for among all slots.

ghost use Rattle.std.specs.Prelude.{◌≡◌, ◌&&◌, ◌==◌, slice_get};
ghost use Rattle.peer_table.specs.Exchange.{oldest_of};
ghost use Rattle.key_sessions.specs.declared.slot.Which.TheVariants as which;
ghost use Rattle.peer_table.specs.KeySessions.{kid_of, with_kid};
ghost use Rattle.peer_table.specs.Places.{places_from};
ghost use Rattle.key_sessions.specs.Slots.{all_slots};
ghost use Rattle.key_sessions.specs.internal.Numbers.{counted_down, picks, picks_at};

use crate::session::kid_of;
use crate::slot::Which;
use crate::slots::Slots;

impl<T> Slots<T> {
    // Whether the session of a number is looked for.
    fn picks_at(&self, which: Which, number: u64) -> bool
        ensures { result ≡ picks_at which (slice_get (all_slots self.now) number) }
    {
        match self.slot(number) {
            None => false,
            Some(slot) => which.picks(slot),
        }
    }

    // Whether the session of a number is looked for, and has this key id.
    fn has_kid(&self, which: Which, number: u64, kid: u8) -> bool
        ensures { result ≡ (picks_at which (slice_get (all_slots self.now) number) && (kid_of number == kid)) }
    {
        self.picks_at(which, number) && kid_of(number) == kid
    }

    // The number of the i-th session that is looked for, in order, counted from 0.
    #[tactic(auto, using(crate::proofs::Walks::found, crate::proofs::Walks::counted, crate::proofs::Walks::at_last))]
    pub(crate) fn nth(&self, which: Which, i: usize) -> Option<u64>
        ensures { result ≡ slice_get (places_from (picks which) 0 (all_slots self.now)) i }
    {
        let mut left = i;
        let newest = self.newest_number();
        for number in 0..newest {
            match count_down(self.picks_at(which, number), left) {
                None => return Some(number),
                Some(rest) => left = rest,
            }
        }
        match count_down(self.picks_at(which, newest), left) {
            None => Some(newest),
            Some(_) => None,
        }
    }

    // The oldest open session with keys, where three or more are open.
    #[tactic(auto, using(crate::proofs::Walks::oldest, crate::proofs::Walks::no_oldest))]
    pub(crate) fn one_too_many(&self) -> Option<u64>
        ensures { result ≡ oldest_of (places_from (picks which.OpenKeyed) 0 (all_slots self.now)) }
    {
        match self.nth(Which::OpenKeyed, 2) {
            None => None,
            Some(_) => self.nth(Which::OpenKeyed, 0),
        }
    }

    // The first session that is looked for and has this key id.
    #[tactic(auto, using(crate::proofs::Walks::kid_found, crate::proofs::Walks::kid_passed, crate::proofs::Walks::kid_at_last))]
    pub(crate) fn first_with_kid(&self, which: Which, kid: u8) -> Option<u64>
        ensures { result ≡ with_kid kid (places_from (picks which) 0 (all_slots self.now)) }
    {
        let newest = self.newest_number();
        for number in 0..newest {
            if self.has_kid(which, number, kid) {
                return Some(number);
            }
        }
        if self.has_kid(which, newest, kid) {
            Some(newest)
        } else {
            None
        }
    }
}

// How many are left to be passed behind one that is looked for or not; None where it is the one that is wanted.
fn count_down(picks: bool, left: usize) -> Option<usize>
    ensures { result ≡ counted_down picks left }
{
    if !picks {
        Some(left)
    } else if left == 0 {
        None
    } else {
        Some(left - 1)
    }
}
