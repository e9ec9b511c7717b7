//! Room in the texts of a client's open key sessions.

ghost use Rattle.std.specs.Prelude.{◌≡◌, ◌≤◌, ◌<◌, ◌+◌, ◌*◌, ◌-◌, ◌^◌, true, is_some, IfNone, IfSome, OnOk};
ghost use Rattle.key_sessions.specs.Slots.{room, text_at};
ghost use Rattle.peer_table.specs.Peer.{Peer};
ghost use Rattle.session_state.specs.Standing.{GoesOn, PeerStands, count, since};
ghost use Rattle.session_state.specs.internal.Rooms.{EachFrom, HasRooms, KeptTexts, SendsWithin};

use crate::session::SessionState;
use tls_crypt::Wrap;
use vpn_base::NoMemory;

/// For how many bytes an outbox has to have room after a payload of so many that nothing else was held before. None comes
/// where that is no number of bytes.
pub fn least_bytes(payload: usize) -> Option<usize>
    ensures room { IfSome result (λ n. n ≡ 7200 + 12 * payload) }
    ensures none { IfNone result (2 ^ 64 ≤ 7200 + 12 * payload) }
{
    match payload.checked_mul(12) {
        None => None,
        Some(texts) => texts.checked_add(7_200),
    }
}

impl<W: Wrap + Drop> SessionState<W> {
    // Takes room in each text from this number on: for a payload, for text for the other end and for plain text, each
    // of so many bytes.
    #[tactic(auto, unfolding(crate::specs::Standing::count))]
    pub(crate) fn reserve_from(
        &mut self,
        from: u64,
        payload: usize,
        said: usize,
        plain: usize,
    ) -> Result<(), NoMemory>
        requires few { count self.old < 2 ^ 64 - 1 }
        requires goes_on { GoesOn self.old }
        ensures same { (p : Peer) → PeerStands W.wrapped self.old p → PeerStands W.wrapped self.new p }
        ensures goes_on { GoesOn self.new }
        ensures rooms { OnOk result (EachFrom from (HasRooms payload said plain) self.new.slots) }
        ensures kept { KeptTexts self.old.slots self.new.slots }
        ensures room { room self.new.slots ≡ room self.old.slots }
        ensures blank { self.new.blank ≡ self.old.blank }
        ensures count { count self.new ≡ count self.old }
        ensures since { since self.new ≡ since self.old }
    {
        match self.slots.text_from(from) {
            None => Ok(()),
            Some(number) => match self.reserve_at(number, payload, said, plain) {
                Ok(()) => self.reserve_from(number + 1, payload, said, plain),
                Err(NoMemory) => Err(NoMemory),
            },
        }
    }

    // Takes this room in the text of the session of this number.
    fn reserve_at(
        &mut self,
        number: u64,
        payload: usize,
        said: usize,
        plain: usize,
    ) -> Result<(), NoMemory>
        requires there { is_some (text_at self.old.slots number) ≡ true }
        requires goes_on { GoesOn self.old }
        ensures same { (p : Peer) → PeerStands W.wrapped self.old p → PeerStands W.wrapped self.new p }
        ensures goes_on { GoesOn self.new }
        ensures rooms { OnOk result (IfSome (text_at self.new.slots number) (HasRooms payload said plain)) }
        ensures kept { KeptTexts self.old.slots self.new.slots }
        ensures room { room self.new.slots ≡ room self.old.slots }
        ensures blank { self.new.blank ≡ self.old.blank }
        ensures count { count self.new ≡ count self.old }
        ensures since { since self.new ≡ since self.old }
    {
        match self.slots.take_text(number) {
            None => Ok(()),
            Some(mut text) => {
                let reserved = text.reserve(payload, said, plain);
                self.slots.put_text(number, text);
                reserved
            }
        }
    }

    // For how many bytes an outbox has to have room, so that a control packet with a payload of so many bytes takes no
    // memory in any of the texts from this number on, nor in a new one. None comes where that is no number of bytes.
    #[tactic(auto, unfolding(crate::specs::Standing::count))]
    pub(crate) fn bytes_from(&self, from: u64, payload: usize) -> Option<usize>
        requires { count self.now < 2 ^ 64 - 1 }
        ensures each { IfSome result (λ bytes. EachFrom from (SendsWithin payload bytes) self.now.slots) }
        ensures least { IfSome result (λ bytes. 7200 + 12 * payload ≤ bytes) }
    {
        match self.slots.text_from(from) {
            None => least_bytes(payload),
            Some(number) => match self.bytes_at(number, payload) {
                None => None,
                Some(here) => match self.bytes_from(number + 1, payload) {
                    None => None,
                    Some(rest) => Some(here.max(rest)),
                },
            },
        }
    }

    // The same for the text of the session of this number alone.
    fn bytes_at(&self, number: u64, payload: usize) -> Option<usize>
        ensures { IfSome result (λ bytes. IfSome (text_at self.now.slots number) (SendsWithin payload bytes)) }
    {
        match self.slots.text(number) {
            None => Some(0),
            Some(text) => text.packet_room(payload),
        }
    }
}
