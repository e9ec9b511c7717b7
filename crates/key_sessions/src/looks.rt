//! What the slots tell of their sessions.

ghost use Rattle.std.specs.Prelude.{◌≡◌, ◌≤◌, ◌==◌, ℕ, true, List, Some, None, IfSome, IfNone, is_some, option_map, slice_get, if◌then◌else◌};
ghost use Rattle.std.specs.Option.{option_copied};
ghost use Rattle.vpn_base.specs.declared.names.Timers.{Timers};
ghost use Rattle.peer_table.specs.EngineAnswers.{open_with};
ghost use Rattle.peer_table.specs.Exchange.{cipher_in, cipher_of};
ghost use Rattle.peer_table.specs.KeySessions.{Session, has_passed, in_transition, kid_of, live_with, newest_usable, open_numbers, retiring, session_at, usable_of, usable_with, with_kid};
ghost use Rattle.peer_table.specs.Peer.{Peer};
ghost use Rattle.peer_table.specs.Time.{is_open_session, retired, retired_if};
ghost use Rattle.key_sessions.specs.Looks.{began_of, keyed_with, keys_of_some, listed, listed_at, newest_seen, seen_as, seen_at};
ghost use Rattle.key_sessions.specs.Slots.{IsWhole, LastIsOpen, NoText, SlotStands, SlotsStand, newest_name, newest_number, newest_stage, text_at};
ghost use Rattle.key_sessions.specs.internal.Numbers.{number_before_that};

use crate::session::kid_of;
use crate::slot::{Newest, SessionSeen, Slot, Which};
use crate::slots::{Slots, number_before};
use crate::text::SessionText;
use hmac_kit::KeyBlock;
use peer_table::at_most_three_are_open;
use vpn_base::{Cipher, Conn, Moment};

impl<T: SessionText> Slots<T> {
    /// The other end's name in the newest session, as it is kept; None exactly before it is known there.
    #[tactic(auto, unfolding(crate::specs::Slots::newest_name))]
    pub fn name(&self) -> Option<&[u8]>
        ensures { option_copied result ≡ newest_name self.now }
    {
        self.newest.stage.name()
    }

    /// The last session that has keys; None exactly before the first key exchange.
    #[tactic(auto, using(crate::proofs::Usable::newest_usable_is, crate::proofs::Usable::last_is_open))]
    pub fn newest_usable(&self) -> Option<u64>
        ensures number { (ss : List Session) → SlotsStand T.stands_for self.now ss → result ≡ newest_usable ss }
        ensures is_open { (ss : List Session) → SlotsStand T.stands_for self.now ss → LastIsOpen ss }
    {
        self.last_keyed()
    }

    /// The one before the last among the sessions that have or had keys, if there is one.
    #[tactic(auto, using(crate::proofs::Usable::retiring_is))]
    pub fn retiring(&self) -> Option<u64>
        ensures { (ss : List Session) → SlotsStand T.stands_for self.now ss → result ≡ retiring ss }
    {
        match self.last_keyed() {
            None => None,
            Some(last) => number_before(last),
        }
    }

    /// The session of a number, if there is one.
    #[tactic(auto, unfolding(crate::specs::Looks::seen_at))]
    pub fn at(&self, number: u64) -> Option<SessionSeen>
        ensures { (ss : List Session) → SlotsStand T.stands_for self.now ss → result ≡ seen_at ss number }
    {
        match self.slot(number) {
            None => None,
            Some(slot) => Some(see(number, slot)),
        }
    }

    /// The newest session.
    #[tactic(auto, unfolding(crate::specs::Looks::newest_seen, crate::specs::Slots::newest_stage))]
    pub fn newest(&self) -> Newest
        ensures seen { (ss : List Session) → SlotsStand T.stands_for self.now ss → newest_seen ss ≡ Some result }
        ensures stage { result.stage ≡ newest_stage self.now }
        ensures number { result.number ≡ newest_number self.now }
    {
        Newest {
            stage: self.newest.stage.seen(),
            number: self.newest_number(),
            began: self.newest.began,
        }
    }

    /// The session with this key id that may be used at this moment, where the one before the last with keys
    /// may be until so many seconds after the last one began. None exactly where there is none.
    #[tactic(auto, using(crate::proofs::Usable::usable_with_is))]
    pub fn usable(&self, kid: u8, now: Moment, tran: u32) -> Option<u64>
        ensures { (timers : Timers) (ss : List Session) → SlotsStand T.stands_for self.now ss → timers.tran ≡ tran →
            result ≡ usable_with timers now.0 ss kid }
    {
        with_kid(
            kid,
            self.newest_usable(),
            self.retiring(),
            self.in_transition(now, tran),
        )
    }

    /// The live session with this key id, the newest one or a usable one; None exactly where there is none.
    #[tactic(auto, using(crate::proofs::Usable::live_with_is))]
    pub fn live(&self, kid: u8, now: Moment, tran: u32) -> Option<u64>
        ensures { (timers : Timers) (ss : List Session) → SlotsStand T.stands_for self.now ss → timers.tran ≡ tran →
            result ≡ live_with timers now.0 ss kid }
    {
        newest_or(kid, self.newest_number(), self.usable(kid, now, tran))
    }

    /// The i-th open session in order of number, counted from 0: its number, key id and connection. None
    /// exactly past the end; at most three are open.
    #[tactic(auto, using(crate::proofs::Listed::listed_is, crate::proofs::Listed::few_listed))]
    pub fn open_at(&self, i: usize) -> Option<(u64, u8, Conn)>
        ensures listed { (ss : List Session) → SlotsStand T.stands_for self.now ss → result ≡ listed ss i }
        ensures few { (ss : List Session) → SlotsStand T.stands_for self.now ss → 3 ≤ i → result ≡ None }
    {
        at_most_three_are_open();
        match self.nth(Which::Open, i) {
            None => None,
            Some(number) => self.listed(number),
        }
    }

    // The session of a number as it is listed.
    fn listed(&self, number: u64) -> Option<(u64, u8, Conn)>
        ensures { (ss : List Session) → SlotsStand T.stands_for self.now ss → result ≡ listed_at ss (Some number) }
    {
        match self.slot(number) {
            None => None,
            Some(slot) => Some((number, kid_of(number), slot.conn)),
        }
    }

    /// The open session on this engine connection, if there is one.
    #[tactic(auto, using(crate::proofs::Listed::open_with_is))]
    pub fn open_with(&self, conn: Conn) -> Option<u64>
        ensures { (p : Peer) → SlotsStand T.stands_for self.now p.sessions → result ≡ open_with conn p }
    {
        self.nth(Which::On(conn), 0)
    }

    /// The open session with this key id, if there is one.
    #[tactic(auto, using(crate::proofs::Listed::open_kid_is))]
    pub fn open_with_kid(&self, kid: u8) -> Option<u64>
        ensures { (ss : List Session) → SlotsStand T.stands_for self.now ss → result ≡ with_kid kid (open_numbers ss) }
    {
        self.first_with_kid(Which::Open, kid)
    }

    /// The keys of the open session with this key id; None exactly where no open session with keys has it.
    #[tactic(auto, using(crate::proofs::Listed::keyed_kid_is))]
    pub fn keys(&self, kid: u8) -> Option<(&KeyBlock, Cipher)>
        ensures { (ss : List Session) → SlotsStand T.stands_for self.now ss →
            option_map (λ r. (r.0.now.0, r.1)) result ≡ keys_of_some (session_at ss (keyed_with ss kid)) }
    {
        match self.first_with_kid(Which::OpenKeyed, kid) {
            None => None,
            Some(number) => self.keys_at(number),
        }
    }

    /// The keys of the session of this number; None exactly where it is not open or has no keys.
    pub fn keys_at(&self, number: u64) -> Option<(&KeyBlock, Cipher)>
        ensures { (ss : List Session) → SlotsStand T.stands_for self.now ss →
            option_map (λ r. (r.0.now.0, r.1)) result ≡ keys_of_some (slice_get ss number) }
    {
        match self.slot(number) {
            None => None,
            Some(slot) => slot.stage.keys(),
        }
    }

    /// The cipher of the newest keys; None exactly before the first key exchange.
    #[tactic(auto, using(crate::proofs::Usable::cipher_of_is, crate::proofs::Usable::cipher_before))]
    pub fn cipher(&self) -> Option<Cipher>
        ensures { (p : Peer) → SlotsStand T.stands_for self.now p.sessions → result ≡ cipher_of p }
    {
        match self.newest_usable() {
            None => None,
            Some(number) => self.cipher_at(number),
        }
    }

    // The cipher of the keys of a session, if it has or had keys.
    fn cipher_at(&self, number: u64) -> Option<Cipher>
        ensures { (ss : List Session) → SlotsStand T.stands_for self.now ss → result ≡ cipher_in (slice_get ss number) }
    {
        match self.slot(number) {
            None => None,
            Some(slot) => slot.stage.cipher(),
        }
    }

    /// The session that is to be closed now: the one before the last with keys, where it is open and may no
    /// longer be used.
    #[tactic(auto, using(crate::proofs::Usable::retired_is))]
    pub fn retired(&self, now: Moment, tran: u32) -> Option<u64>
        ensures { (p : Peer) → SlotsStand T.stands_for self.now p.sessions → p.timers.tran ≡ tran → result ≡ retired p now.0 }
    {
        let retiring = self.retiring();
        retired_if(
            retiring,
            self.is_open_at(retiring),
            self.in_transition(now, tran),
        )
    }

    // Whether a session that may be there is open.
    fn is_open_at(&self, number: Option<u64>) -> bool
        ensures { (ss : List Session) → SlotsStand T.stands_for self.now ss → result ≡ is_open_session (session_at ss number) }
    {
        match number {
            None => false,
            Some(number) => self.is_open(number),
        }
    }

    /// Whether there is an open session of this number.
    pub fn is_open(&self, number: u64) -> bool
        ensures { (ss : List Session) → SlotsStand T.stands_for self.now ss → result ≡ is_open_session (slice_get ss number) }
    {
        match self.slot(number) {
            None => false,
            Some(slot) => slot.stage.is_open(),
        }
    }

    /// The text of the session of this number. None exactly where there is no open session of it, or where the
    /// text is out.
    #[tactic(auto, unfolding(crate::specs::Slots::text_at))]
    pub fn text(&self, number: u64) -> Option<&T>
        ensures some { IsWhole self.now → (ss : List Session) → SlotsStand T.stands_for self.now ss → is_some result ≡ is_open_session (slice_get ss number) }
        ensures text { IfSome result (λ text. (ss : List Session) (s : Session) → SlotsStand T.stands_for self.now ss →
            slice_get ss number ≡ Some s → T.stands_for text.now s) }
        ensures here { option_copied result ≡ text_at self.now number }
    {
        match self.slot(number) {
            None => None,
            Some(slot) => slot.text.as_ref(),
        }
    }

    /// The first number, from this one on, of a session whose text is there. It looks at each number once.
    #[tactic(auto, using(crate::proofs::Texts::none_further, crate::proofs::Texts::none_past), unfolding(crate::specs::Slots::newest_number))]
    pub fn text_from(&self, from: u64) -> Option<u64>
        ensures there { IfSome result (λ n. is_some (text_at self.now n) ≡ true) }
        ensures further { IfSome result (λ n. from ≤ n) }
        ensures within { IfSome result (λ n. n ≤ newest_number self.now) }
        ensures first { IfSome result (λ n. NoText self.now from n) }
        ensures none { IfNone result ((n : ℕ) → from ≤ n → text_at self.now n ≡ None) }
    {
        let newest = self.newest_number();
        for number in from..newest {
            if self.has_text(number) {
                return Some(number);
            }
        }
        if from <= newest && self.has_text(newest) {
            Some(newest)
        } else {
            None
        }
    }

    // Whether the text of the session of this number is there.
    #[tactic(auto, unfolding(crate::specs::Slots::text_at))]
    fn has_text(&self, number: u64) -> bool
        ensures { result ≡ is_some (text_at self.now number) }
    {
        match self.slot(number) {
            None => false,
            Some(slot) => slot.text.is_some(),
        }
    }

    // When the session of a number began.
    fn began(&self, number: u64) -> Option<Moment>
        ensures { (ss : List Session) → SlotsStand T.stands_for self.now ss → result ≡ began_of (slice_get ss number) }
    {
        match self.slot(number) {
            None => None,
            Some(slot) => Some(slot.began),
        }
    }

    // Whether the one before the last with keys may still be used.
    #[tactic(auto, using(crate::proofs::Usable::transition_before, crate::proofs::Usable::transition_since, crate::proofs::Usable::transition_without))]
    fn in_transition(&self, now: Moment, tran: u32) -> bool
        ensures { (timers : Timers) (ss : List Session) → SlotsStand T.stands_for self.now ss → timers.tran ≡ tran →
            result ≡ in_transition timers now.0 ss }
    {
        match self.newest_usable() {
            None => true,
            Some(last) => match self.began(last) {
                None => true,
                Some(since) => !has_passed(tran, since, now),
            },
        }
    }
}

// Whether so many seconds have passed since a moment.
fn has_passed(seconds: u32, since: Moment, now: Moment) -> bool
    ensures { result ≡ has_passed seconds since.0 now.0 }
{
    match since.0.checked_add(1000 * u64::from(seconds)) {
        None => false,
        Some(end) => end <= now.0,
    }
}

// A session of this number as it is seen.
#[tactic(auto, using(crate::proofs::Usable::same_stage))]
fn see<T: SessionText>(number: u64, slot: &Slot<T>) -> SessionSeen
    ensures { (s : Session) → SlotStands T.stands_for slot.now s → result ≡ seen_as number s }
{
    SessionSeen {
        number,
        kid: kid_of(number),
        conn: slot.conn,
        began: slot.began,
        stage: slot.stage.seen(),
        is_open: slot.stage.is_open(),
    }
}

// The newest session where it has this key id, else a usable one that may have it.
fn newest_or(kid: u8, newest: u64, usable: Option<u64>) -> Option<u64>
    ensures { result ≡ (if kid_of newest == kid then Some newest else usable) }
{
    if kid_of(newest) == kid {
        Some(newest)
    } else {
        usable
    }
}

// Of the last session with keys, and the one before it where it may still be used, the first with this key id.
fn with_kid(kid: u8, last: Option<u64>, older: Option<u64>, still: bool) -> Option<u64>
    ensures { result ≡ with_kid kid (usable_of last older still) }
{
    let Some(last) = last else {
        return None;
    };
    if kid_of(last) == kid {
        return Some(last);
    }
    match older {
        Some(older) if still && kid_of(older) == kid => Some(older),
        _ => None,
    }
}

// The one before the last with keys, where it is open and may no longer be used.
fn retired_if(retiring: Option<u64>, is_open: bool, usable: bool) -> Option<u64>
    ensures { result ≡ retired_if retiring is_open usable }
{
    match retiring {
        Some(number) if is_open && !usable => Some(number),
        _ => None,
    }
}
