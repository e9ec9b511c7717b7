//! What is kept of one key session beside the others of its client.

ghost use Rattle.std.specs.Prelude.{◌≡◌, Some, option_map};
ghost use Rattle.std.specs.Option.{option_copied};
ghost use Rattle.peer_table.specs.KeySessions.{Session};
ghost use Rattle.peer_table.specs.Exchange.{cipher_in};
ghost use Rattle.peer_table.specs.KeySessions as sessions;
ghost use Rattle.key_sessions.specs.Sessions.{OpeningStands, keys_shown};
ghost use Rattle.key_sessions.specs.Slots.{HasText, IsStage, SlotStands, is_keyed_stage, is_open_stage, name_of, stage_seen};
ghost use Rattle.key_sessions.specs.internal.Numbers.{had_keys, picks};
ghost use Rattle.key_sessions.specs.internal.Steps.{applied, closed_slot, closed_text, given, keyed_stage, text_if};
ghost use Rattle.key_sessions.specs.declared.slot.SlotStage.TheVariants as kept;

use hmac_kit::KeyBlock;
use crate::session::{KeySession, Keyed, Named, Opening};
use crate::text::{SessionText, conn_of};
use std::mem;
use vpn_base::{Cipher, Conn, Moment};

/// How far the negotiation of a key session has come.
#[derive(Clone, Copy, Debug, PartialEq, Eq)]
pub enum Stage {
    /// It began.
    Opening,
    /// The other end's name is known.
    Named,
    /// It has keys, or had them.
    Keyed,
}

/// The newest key session of a client.
#[derive(Clone, Copy, Debug, PartialEq, Eq)]
pub struct Newest {
    /// How far its negotiation has come.
    pub stage: Stage,
    /// Its number, from 0.
    pub number: u64,
    /// When it began.
    pub began: Moment,
}

/// A key session as it is seen beside the others of its client.
#[derive(Clone, Copy, Debug, PartialEq, Eq)]
pub struct SessionSeen {
    /// Its number, from 0.
    pub number: u64,
    /// Its key id.
    pub kid: u8,
    /// Its engine connection.
    pub conn: Conn,
    /// When it began.
    pub began: Moment,
    /// How far its negotiation has come.
    pub stage: Stage,
    /// Whether it is open.
    pub is_open: bool,
}

/// The stage of a session in its slot. Of the keys of one that is closed only the cipher is kept.
#[derive(Drop)]
pub(crate) enum SlotStage {
    Opening(Opening),
    Named(Named),
    Keyed(Keyed),
    Closed(Cipher),
}

/// What is kept of one session. Its text is there while it is open, or is out for a while.
#[derive(Drop)]
pub(crate) struct Slot<T> {
    pub(crate) text: Option<T>,
    pub(crate) conn: Conn,
    pub(crate) began: Moment,
    pub(crate) stage: SlotStage,
}

// A change of one slot.
#[derive(Drop)]
pub(crate) enum Change<T> {
    // Its text is taken out.
    Take,
    // A text is put there if it is open, on this engine connection.
    Put(T, Conn),
    // Its session is closed.
    Close,
}

// A text that is put where the session is open.
fn text_if<T: Drop>(text: T, is_open: bool) -> Option<T>
    ensures { result ≡ text_if text is_open }
{
    if is_open { Some(text) } else { None }
}

impl<T: Drop> Slot<T> {
    // Makes a change, and gives the text that was there.
    pub(crate) fn change(&mut self, change: Change<T>) -> Option<T>
        ensures text { result ≡ given change self.old }
        ensures slot { self.new ≡ applied change self.old }
    {
        match change {
            Change::Take => mem::replace(&mut self.text, None),
            Change::Put(text, conn) => {
                self.conn = conn;
                let text = text_if(text, self.stage.is_open());
                mem::replace(&mut self.text, text)
            }
            Change::Close => self.close(),
        }
    }

    // Closes the session where it has keys, and gives its text.
    fn close(&mut self) -> Option<T>
        ensures text { result ≡ closed_text self.old self.old.stage }
        ensures slot { self.new ≡ closed_slot self.old self.old.stage }
    {
        match &self.stage {
            SlotStage::Keyed(keyed) => {
                let cipher = keyed.cipher();
                self.stage = SlotStage::Closed(cipher);
                mem::replace(&mut self.text, None)
            }
            _ => None,
        }
    }
}

// Which sessions are looked for.
#[derive(Clone, Copy)]
pub(crate) enum Which {
    // The open ones.
    Open,
    // Of these the ones with keys.
    OpenKeyed,
    // The open one on this engine connection.
    On(Conn),
}

impl Which {
    // Whether a slot is looked for.
    pub(crate) fn picks<T>(self, slot: &Slot<T>) -> bool
        ensures { result ≡ picks self slot.now }
    {
        match self {
            Which::Open => slot.stage.is_open(),
            Which::OpenKeyed => slot.stage.is_keyed(),
            Which::On(conn) => slot.stage.is_open() && slot.conn.0 == conn.0,
        }
    }
}

impl SlotStage {
    // A session with a name has keys.
    pub(crate) fn keyed(self, keys: KeyBlock, cipher: Cipher) -> SlotStage
        ensures { result ≡ keyed_stage keys cipher self }
    {
        match self {
            SlotStage::Named(named) => SlotStage::Keyed(named.keyed(keys, cipher)),
            other => other,
        }
    }

    // Whether the session is open.
    pub(crate) fn is_open(&self) -> bool
        ensures { result ≡ is_open_stage self.now }
    {
        match self {
            SlotStage::Opening(_) => true,
            SlotStage::Named(_) => true,
            SlotStage::Keyed(_) => true,
            SlotStage::Closed(_) => false,
        }
    }

    // Whether it is open and has keys.
    pub(crate) fn is_keyed(&self) -> bool
        ensures { result ≡ is_keyed_stage self.now }
    {
        match self {
            SlotStage::Opening(_) => false,
            SlotStage::Named(_) => false,
            SlotStage::Keyed(_) => true,
            SlotStage::Closed(_) => false,
        }
    }

    // Whether it has keys, or had them.
    pub(crate) fn had_keys(&self) -> bool
        ensures { result ≡ had_keys self.now }
    {
        match self {
            SlotStage::Opening(_) => false,
            SlotStage::Named(_) => false,
            SlotStage::Keyed(_) => true,
            SlotStage::Closed(_) => true,
        }
    }

    // The cipher of the keys that it has, or had.
    pub(crate) fn cipher(&self) -> Option<Cipher>
        ensures { (s : Session) → IsStage self.now s.stage → result ≡ cipher_in (Some s) }
    {
        match self {
            SlotStage::Opening(_) => None,
            SlotStage::Named(_) => None,
            SlotStage::Keyed(keyed) => Some(keyed.cipher()),
            SlotStage::Closed(cipher) => Some(*cipher),
        }
    }

    // The keys of one that is open and has keys.
    pub(crate) fn keys(&self) -> Option<(&KeyBlock, Cipher)>
        ensures { (s : Session) → IsStage self.now s.stage → is_open_stage self.now ≡ s.is_open →
            option_map (λ r. (r.0.now.0, r.1)) result ≡ keys_shown s }
    {
        match self {
            SlotStage::Opening(_) => None,
            SlotStage::Named(_) => None,
            SlotStage::Keyed(keyed) => Some((keyed.keys(), keyed.cipher())),
            SlotStage::Closed(_) => None,
        }
    }

    // The name, while it is open.
    pub(crate) fn name(&self) -> Option<&[u8]>
        ensures { option_copied result ≡ name_of self.now }
    {
        match self {
            SlotStage::Opening(_) => None,
            SlotStage::Named(named) => Some(named.name()),
            SlotStage::Keyed(keyed) => Some(keyed.name()),
            SlotStage::Closed(_) => None,
        }
    }

    // How far it has come.
    pub(crate) fn seen(&self) -> Stage
        ensures { result ≡ stage_seen self.now }
    {
        match self {
            SlotStage::Opening(_) => Stage::Opening,
            SlotStage::Named(_) => Stage::Named,
            SlotStage::Keyed(_) => Stage::Keyed,
            SlotStage::Closed(_) => Stage::Keyed,
        }
    }
}

// The slot of a session that begins.
#[tactic(auto, unfolding(crate::specs::Sessions::OpeningStands))]
pub(crate) fn slot_of<T: SessionText>(first: KeySession<T, Opening>) -> Slot<T>
    ensures stands { (s : Session) → OpeningStands T.stands_for first s → SlotStands T.stands_for result s }
    ensures stage { result.stage ≡ kept.Opening first.stage }
    ensures text { HasText (is_open_stage result.stage) result.text }
{
    let conn = conn_of(&first.text);
    Slot {
        text: Some(first.text),
        conn,
        began: first.began,
        stage: SlotStage::Opening(first.stage),
    }
}
