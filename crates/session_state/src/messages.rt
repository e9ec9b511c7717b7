//! Plain text of the other end that was not read: messages, and what an exchange needs.

ghost use Rattle.std.specs.Prelude.{◌≡◌, ◌≤◌, ◌^◌, Some, IfSome, IfNone, true, option_map, slice_get};
ghost use Rattle.key_method2.specs.Views.{message_seen as km2_seen};
ghost use Rattle.peer_table.specs.EngineAnswers.{prepared_message, whole_of};
ghost use Rattle.peer_table.specs.Exchange.{after_message, all_unread, cipher_ahead, has_message, message_read, most_unread, next_message, waiting_in, waiting_message};
ghost use Rattle.peer_table.specs.KeySessions.{Named, Session};
ghost use Rattle.peer_table.specs.Outboxes.{message_seen};
ghost use Rattle.peer_table.specs.Peer.{Peer, other};
ghost use Rattle.peer_table.specs.Places.{changed_at};
ghost use Rattle.key_method2.specs.Reading.{reading};
ghost use Rattle.session_state.specs.Standing.{GoesOn, PeerStands, count, since};
ghost use Rattle.session_state.specs.internal.OpenOnes.{nul_in, unread_among, unread_in, unread_sum, waiting_among, waits_in};

use crate::numbers::OpenNumbers;
use crate::session::SessionState;
use key_method2::{Km2View, Km2ViewRead};
use key_sessions::{Stage, cipher_chosen, sessions_are_open_without_keys};
use peer_lines::channels_stand_on;
use peer_table::Message;
use tls_crypt::Wrap;
use vpn_base::{Cipher, Policy, Role};

/// The role of the other end.
pub fn other(role: Role) -> Role
    ensures { result ≡ other role }
{
    match role {
        Role::Server => Role::Client,
        Role::Client => Role::Server,
    }
}

impl<W: Wrap + Drop> SessionState<W> {
    /// The greatest number of plain text bytes that an open key session has not read.
    pub fn unread(&self) -> usize
        ensures { (p : Peer) → PeerStands W.wrapped self.now p → result ≡ most_unread p.sessions }
    {
        let numbers = OpenNumbers::of(&self.slots);
        self.unread_among(numbers.as_slice())
    }

    // The greatest number of them in the sessions of these numbers.
    fn unread_among(&self, numbers: &[u64]) -> usize
        ensures { (p : Peer) → PeerStands W.wrapped self.now p → result ≡ unread_among (slice_get p.sessions) numbers.now }
    {
        match numbers {
            [] => 0,
            [number, rest @ ..] => {
                let here = self.unread_at(*number);
                here.max(self.unread_among(rest))
            }
        }
    }

    /// The number of plain text bytes that all open key sessions together have not read; None where no `usize`
    /// says it.
    pub fn unread_in_all(&self) -> Option<usize>
        ensures some { IfSome result (λ count. (p : Peer) → PeerStands W.wrapped self.now p → count ≡ all_unread p.sessions) }
        ensures none { IfNone result ((p : Peer) → PeerStands W.wrapped self.now p → 2 ^ 64 ≤ all_unread p.sessions) }
    {
        let numbers = OpenNumbers::of(&self.slots);
        self.unread_sum(numbers.as_slice())
    }

    // The number of them in the sessions of these numbers together.
    fn unread_sum(&self, numbers: &[u64]) -> Option<usize>
        ensures some { IfSome result (λ count. (p : Peer) → PeerStands W.wrapped self.now p → count ≡ unread_sum (slice_get p.sessions) numbers.now) }
        ensures none { IfNone result ((p : Peer) → PeerStands W.wrapped self.now p → 2 ^ 64 ≤ unread_sum (slice_get p.sessions) numbers.now) }
    {
        match numbers {
            [] => Some(0),
            [number, rest @ ..] => {
                let here = self.unread_at(*number);
                match self.unread_sum(rest) {
                    None => None,
                    Some(behind) => here.checked_add(behind),
                }
            }
        }
    }

    // How many of them there are in the session of this number.
    fn unread_at(&self, number: u64) -> usize
        ensures { (p : Peer) → PeerStands W.wrapped self.now p → result ≡ unread_in (slice_get p.sessions number) }
    {
        match self.slots.text(number) {
            None => 0,
            Some(text) => text.unread(),
        }
    }

    /// The next message behind a key exchange, if one waits.
    pub fn next_message(&self) -> Option<Message<'_>>
        ensures { (p : Peer) → PeerStands W.wrapped self.now p → option_map message_seen result ≡ next_message p }
    {
        match self.waiting_in() {
            None => None,
            Some(number) => self.message_at(number),
        }
    }

    /// Passes the next message, if one waits. It takes no memory.
    pub fn pass_message(&mut self)
        requires { GoesOn self.old }
        ensures passed { (p : Peer) → PeerStands W.wrapped self.old p → PeerStands W.wrapped self.new (after_message p) }
        ensures goes_on { GoesOn self.new }
        ensures count { count self.new ≡ count self.old }
        ensures since { since self.new ≡ since self.old }
    {
        match self.waiting_in() {
            None => {}
            Some(number) => self.pass_at(number),
        }
    }

    // The first session in which a message waits.
    fn waiting_in(&self) -> Option<u64>
        ensures { (p : Peer) → PeerStands W.wrapped self.now p → result ≡ waiting_in p }
    {
        let numbers = OpenNumbers::of(&self.slots);
        self.waiting_among(numbers.as_slice())
    }

    // The first of these numbers at which a message waits.
    fn waiting_among(&self, numbers: &[u64]) -> Option<u64>
        ensures { (p : Peer) → PeerStands W.wrapped self.now p → result ≡ waiting_among (slice_get p.sessions) numbers.now }
    {
        match numbers {
            [] => None,
            [number, rest @ ..] => {
                if self.waits_at(*number) {
                    Some(*number)
                } else {
                    self.waiting_among(rest)
                }
            }
        }
    }

    // Whether a message waits in the session of this number.
    fn waits_at(&self, number: u64) -> bool
        ensures { (p : Peer) → PeerStands W.wrapped self.now p → result ≡ waits_in (slice_get p.sessions number) }
    {
        match self.slots.keys_at(number) {
            None => false,
            Some(_) => self.has_nul(number),
        }
    }

    // Whether a NUL stands in what was not read of the session of this number, where it is open.
    fn has_nul(&self, number: u64) -> bool
        ensures { (p : Peer) → PeerStands W.wrapped self.now p → result ≡ nul_in (slice_get p.sessions number) }
    {
        match self.slots.text(number) {
            None => false,
            Some(text) => text.next_message().is_some(),
        }
    }

    // The message that waits in the session of this number.
    fn message_at(&self, number: u64) -> Option<Message<'_>>
        ensures { (p : Peer) (s : Session) → PeerStands W.wrapped self.now p → slice_get p.sessions number ≡ Some s → has_message s ≡ true →
            option_map message_seen result ≡ Some (waiting_message s) }
    {
        match self.slots.text(number) {
            None => None,
            Some(text) => match text.next_message() {
                None => None,
                Some(bytes) => Some(Message {
                    conn: text.conn(),
                    bytes,
                }),
            },
        }
    }

    // Passes the message that waits in the session of this number.
    fn pass_at(&mut self, number: u64)
        requires { GoesOn self.old }
        ensures passed { (p : Peer) (s : Session) → PeerStands W.wrapped self.old p → slice_get p.sessions number ≡ Some s → has_message s ≡ true →
            PeerStands W.wrapped self.new (record p { sessions = changed_at number message_read p.sessions }) }
        ensures goes_on { GoesOn self.new }
        ensures count { count self.new ≡ count self.old }
        ensures since { since self.new ≡ since self.old }
    {
        channels_stand_on();
        match self.slots.take_text(number) {
            None => {}
            Some(mut text) => {
                text.pass_message();
                self.slots.put_text(number, text);
            }
        }
    }

    /// The cipher that an exchange would choose now; None where no key session is prepared or none is offered.
    pub fn cipher_ahead(&self, policy: &Policy) -> Option<Cipher>
        ensures { (p : Peer) → PeerStands W.wrapped self.now p → result ≡ cipher_ahead policy.now p }
    {
        match self.prepared() {
            None => None,
            Some((view, _)) => cipher_chosen(policy, view.info),
        }
    }

    /// The key exchange message of the other end by which the newest session is prepared, and how many bytes it takes.
    pub fn prepared(&self) -> Option<(Km2View<'_>, usize)>
        ensures { (p : Peer) → PeerStands W.wrapped self.now p → option_map (λ m. (km2_seen m.0, m.1)) result ≡ prepared_message p }
    {
        let newest = self.slots.newest();
        match newest.stage {
            Stage::Opening => None,
            Stage::Named => self.whole_message(newest.number),
            Stage::Keyed => None,
        }
    }

    /// The key exchange message in the plain text of the session of this number, which has a name and no keys.
    pub fn whole_message(&self, number: u64) -> Option<(Km2View<'_>, usize)>
        ensures { (p : Peer) (s : Session) → PeerStands W.wrapped self.now p → slice_get p.sessions number ≡ Some s → s.stage ≡ Named →
            option_map (λ m. (km2_seen m.0, m.1)) result ≡ whole_of (reading (other p.role) s.plain) }
    {
        sessions_are_open_without_keys(&self.slots);
        match self.slots.text(number) {
            None => None,
            Some(text) => match text.message(other(self.role)) {
                Km2ViewRead::Whole { view, used } => Some((view, used)),
                Km2ViewRead::More => None,
                Km2ViewRead::Bad { .. } => None,
            },
        }
    }
}
