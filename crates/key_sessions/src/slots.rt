//! The key sessions of one client, in slots.

ghost use Rattle.std.specs.Prelude.{◌≡◌, ◌≤◌, ◌+◌, [], ◌∷◌, ◌++◌, List, length, slice_get, slice_set, Some, None};
ghost use Rattle.std.specs.Option.{option_copied};
ghost use Rattle.peer_table.specs.KeySessions.{Session};
ghost use Rattle.key_sessions.specs.Sessions.{OpeningStands};
ghost use Rattle.key_sessions.specs.Slots.{IsWhole, all_slots, SlotsStand, newest_number, newest_stage, room};
ghost use Rattle.key_sessions.specs.internal.Numbers.{had_keys, number_before, number_if};
ghost use Rattle.key_sessions.specs.internal.Steps.{applied, given_at, keyed_stage};
ghost use Rattle.key_sessions.specs.declared.slot.Slot.{Slot};
ghost use Rattle.key_sessions.specs.declared.slot.Stage.TheVariants as stages;

use crate::session::{KeySession, Opening};
use crate::slot::{Change, Slot, SlotStage, slot_of};
use hmac_kit::KeyBlock;
use crate::text::SessionText;
use std::alloc::Global;
use std::mem;
use vpn_base::Cipher;

/// All key sessions of one client: the newest, and the list of all before it. A closed one loses its text
/// and keeps its number.
#[derive(Drop)]
pub struct Slots<T> {
    pub(crate) earlier: Vec<Slot<T>>,
    pub(crate) newest: Slot<T>,
}

impl<T: SessionText> Slots<T> {
    /// The slots of a client whose session 0 has just begun. It takes no memory.
    #[tactic(auto, unfolding(crate::specs::Sessions::OpeningStands, crate::specs::Slots::SlotsStand, crate::specs::Slots::newest_stage, crate::specs::Slots::newest_number, crate::specs::Slots::IsWhole))]
    pub fn new(alloc: Global, first: KeySession<T, Opening>) -> Slots<T>
        requires { first.number ≡ 0 }
        ensures stands { (s : Session) → OpeningStands T.stands_for first s → SlotsStand T.stands_for result (s ∷ []) }
        ensures stage { newest_stage result ≡ stages.Opening }
        ensures number { newest_number result ≡ 0 }
        ensures whole { IsWhole result }
    {
        Slots {
            earlier: Vec::new(alloc),
            newest: slot_of(first),
        }
    }
}

impl<T> Slots<T> {
    // The number of the newest session.
    #[tactic(auto, unfolding(crate::specs::Slots::newest_number))]
    pub(crate) fn newest_number(&self) -> u64
        ensures number { result ≡ newest_number self.now }
        ensures length { result ≡ length self.now.earlier.items }
    {
        self.earlier.len() as u64
    }

    // The slot of a number, if there is one.
    #[tactic(auto, using(crate::proofs::Each::at_end, crate::proofs::Each::before_end, crate::proofs::Each::past_end))]
    pub(crate) fn slot(&self, number: u64) -> Option<&Slot<T>>
        ensures { option_copied result ≡ slice_get (all_slots self.now) number }
    {
        let newest = self.newest_number();
        if number < newest {
            Some(&self.earlier[number as usize])
        } else if number == newest {
            Some(&self.newest)
        } else {
            None
        }
    }

    // The number of the last session that has keys, or had them.
    pub(crate) fn last_keyed(&self) -> Option<u64>
        ensures { result ≡ number_if (had_keys self.now.newest.stage) (length self.now.earlier.items) }
    {
        let newest = self.newest_number();
        if self.newest.stage.had_keys() {
            Some(newest)
        } else {
            number_before(newest)
        }
    }
}

impl<T: Drop> Slots<T> {
    // The newest session has keys.
    pub(crate) fn set_keys(&mut self, keys: KeyBlock, cipher: Cipher)
        ensures earlier { self.new.earlier ≡ self.old.earlier }
        ensures newest { self.new.newest ≡ record self.old.newest { stage = keyed_stage keys cipher self.old.newest.stage } }
    {
        let stage = mem::replace(&mut self.newest.stage, SlotStage::Opening(Opening));
        self.newest.stage = stage.keyed(keys, cipher);
    }

    // One more slot, behind all others.
    #[tactic(auto, unfolding(crate::specs::Slots::room))]
    pub(crate) fn push(&mut self, slot: Slot<T>)
        requires { 1 ≤ room self.old }
        ensures slots { all_slots self.new ≡ all_slots self.old ++ slot ∷ [] }
        ensures newest { self.new.newest ≡ slot }
        ensures count { length self.new.earlier.items ≡ length self.old.earlier.items + 1 }
    {
        let before = mem::replace(&mut self.newest, slot);
        let pushed = self.earlier.push(before);
        prove!(pushed.is_ok());
        let _ = pushed;
    }

    // Makes a change in the slot of a number, if there is one, and gives the text that was there.
    #[tactic(auto, using(crate::proofs::Sets::set_end, crate::proofs::Each::at_end, crate::proofs::Each::before_end, crate::proofs::Each::past_end, crate::proofs::Sets::same_seen), unfolding(crate::specs::Slots::room, crate::specs::Slots::newest_stage))]
    pub(crate) fn change(&mut self, number: u64, change: Change<T>) -> Option<T>
        ensures text { result ≡ given_at change (slice_get (all_slots self.old) number) }
        ensures slot { (slot : Slot T) → slice_get (all_slots self.old) number ≡ Some slot →
            all_slots self.new ≡ slice_set (all_slots self.old) number (applied change slot) }
        ensures none { slice_get (all_slots self.old) number ≡ None → self.new ≡ self.old }
        ensures count { length self.new.earlier.items ≡ length self.old.earlier.items }
        ensures stage { newest_stage self.new ≡ newest_stage self.old }
        ensures room { room self.new ≡ room self.old }
    {
        let newest = self.newest_number();
        if number < newest {
            self.earlier[number as usize].change(change)
        } else if number == newest {
            self.newest.change(change)
        } else {
            None
        }
    }
}

// The number before.
pub(crate) fn number_before(number: u64) -> Option<u64>
    ensures { result ≡ number_before number }
{
    if number == 0 { None } else { Some(number - 1) }
}
