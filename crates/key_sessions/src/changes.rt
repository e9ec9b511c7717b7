//! What changes the sessions of a client.

ghost use Rattle.std.specs.Prelude.{◌≡◌, ◌≢◌, ◌+◌, ◌≤◌, ◌++◌, ◌∷◌, [], ℕ, List, is_ok, IsSome, IfOk, IfErr, IfSome, IfNone, IsOk, OnOk, OnErr, Some, None, MatchResult, is_some, slice_get};
ghost use Rattle.std.specs.Option.{option_copied};
ghost use Rattle.vpn_base.specs.declared.errors.Or.TheVariants.{Memory, Why};
ghost use Rattle.peer_table.specs.EngineAnswers.{kept_name};
ghost use Rattle.key_sessions.specs.Names.{name_fault};
ghost use Rattle.key_sessions.specs.declared.name.NameFault.{NameFault};
ghost use Rattle.peer_table.specs.KeySessions.{Session, session_at};
ghost use Rattle.vpn_base.specs.declared.names.Cipher.{Cipher};
ghost use Rattle.peer_table.specs.Exchange.{chosen};
ghost use Rattle.peer_table.specs.Peer.{Peer};
ghost use Rattle.peer_table.specs.Places.{changed_at};
ghost use Rattle.peer_table.specs.Time.{is_open_session, retired};
ghost use Rattle.key_sessions.specs.Changes.{KeepsPlace, closed_in, exchanged_in, newest_keyed, newest_named, one_closed, one_too_many};
ghost use Rattle.key_sessions.specs.Sessions.{OpeningStands, keys_made};
ghost use Rattle.key_sessions.specs.Slots.{IsWhole, IsWholeBut, SlotsStand, newest_name, newest_number, newest_stage, room, text_at};
ghost use Rattle.key_sessions.specs.declared.slot.Stage.TheVariants as stages;

use crate::name::{NameFault, judge_name};
use crate::session::{KeySession, Named, NoCipher, Opening, cipher_chosen, make_block};
use crate::slot::{Change, SlotStage, slot_of};
use crate::slots::Slots;
use crate::text::{SessionText, conn_of};
use key_method2::{Km2, Source};
use vpn_base::{Moment, NoMemory, Or, Policy, Sid};

impl<T: SessionText> Slots<T> {
    /// Takes the room for one more session.
    #[tactic(auto, unfolding(crate::specs::Slots::SlotsStand, crate::specs::Slots::IsWhole, crate::specs::Slots::newest_stage, crate::specs::Slots::newest_number, crate::specs::Slots::room, crate::specs::Slots::text_at))]
    pub fn reserve(&mut self) -> Result<(), NoMemory>
        ensures stands { (ss : List Session) → SlotsStand T.stands_for self.old ss → SlotsStand T.stands_for self.new ss }
        ensures ok { OnOk result (1 ≤ room self.new) }
        ensures fits { 1 ≤ room self.old → IsOk result }
        ensures grows { room self.old ≤ room self.new }
        ensures whole { IsWhole self.old → IsWhole self.new }
        ensures stage { newest_stage self.new ≡ newest_stage self.old }
        ensures number { newest_number self.new ≡ newest_number self.old }
        ensures texts { (n : ℕ) → text_at self.new n ≡ text_at self.old n }
    {
        self.earlier.reserve(1)?;
        Ok(())
    }

    /// The next session begins, which has to have the next number; the newest one has to have keys. It takes
    /// no memory where there is room for one more. At want of memory the session is handed back.
    #[tactic(auto, unfolding(crate::specs::Slots::newest_stage, crate::specs::Slots::newest_number, crate::specs::Slots::room))]
    pub fn begin_next(
        &mut self,
        next: KeySession<T, Opening>,
    ) -> Result<(), (KeySession<T, Opening>, NoMemory)>
        requires keyed { newest_stage self.old ≡ stages.Keyed }
        requires number { next.number ≡ newest_number self.old + 1 }
        ensures begun { OnOk result ((ss : List Session) (s : Session) → SlotsStand T.stands_for self.old ss → OpeningStands T.stands_for next s →
            SlotsStand T.stands_for self.new (ss ++ s ∷ [])) }
        ensures whole { IsWhole self.old → IsWhole self.new }
        ensures stage { OnOk result (newest_stage self.new ≡ stages.Opening) }
        ensures number { OnOk result (newest_number self.new ≡ newest_number self.old + 1) }
        ensures kept { OnErr result ((ss : List Session) → SlotsStand T.stands_for self.old ss → SlotsStand T.stands_for self.new ss) }
        ensures same { OnErr result ((newest_stage self.new ≡ newest_stage self.old) × (newest_number self.new ≡ newest_number self.old)) }
        ensures returned { IfErr result (λ refused. refused.0 ≡ next) }
        ensures fits { 1 ≤ room self.old → IsOk result }
    {
        match self.reserve() {
            Ok(()) => {}
            Err(fault) => return Err((next, fault)),
        }
        self.push(slot_of(next));
        Ok(())
    }

    /// Takes the text of an open session out of the slots, until `put_text` puts it back. None comes exactly
    /// where there is no open session of this number.
    #[tactic(auto, unfolding(crate::specs::Slots::newest_number, crate::specs::Slots::text_at))]
    pub fn take_text(&mut self, number: u64) -> Option<T>
        requires { IsWhole self.old }
        ensures some { (ss : List Session) → SlotsStand T.stands_for self.old ss → is_some result ≡ is_open_session (slice_get ss number) }
        ensures text { IfSome result (λ text. (ss : List Session) (s : Session) → SlotsStand T.stands_for self.old ss →
            slice_get ss number ≡ Some s → T.stands_for text s) }
        ensures stands { (ss : List Session) → SlotsStand T.stands_for self.old ss → SlotsStand T.stands_for self.new ss }
        ensures whole { IsWholeBut number self.new }
        ensures none { IfNone result (IsWhole self.new) }
        ensures stage { newest_stage self.new ≡ newest_stage self.old }
        ensures number { newest_number self.new ≡ newest_number self.old }
        ensures room { room self.new ≡ room self.old }
        ensures taken { result ≡ text_at self.old number }
        ensures others { (n : ℕ) → n ≢ number → text_at self.new n ≡ text_at self.old n }
    {
        self.change(number, Change::Take)
    }

    /// Puts a text back, for what has become of the session of this number meanwhile: any change of it that
    /// leaves alone its beginning, its stage and whether it is open.
    #[tactic(auto, unfolding(crate::specs::Slots::newest_number, crate::specs::Slots::text_at))]
    pub fn put_text(&mut self, number: u64, text: T)
        requires { IsWholeBut number self.old }
        ensures stands { (ss : List Session) (change : Session → Session) → SlotsStand T.stands_for self.old ss →
            ((s : Session) → slice_get ss number ≡ Some s → KeepsPlace change s) →
            ((s : Session) → slice_get ss number ≡ Some s → T.stands_for text (change s)) →
            SlotsStand T.stands_for self.new (changed_at number change ss) }
        ensures whole { IsWhole self.new }
        ensures stage { newest_stage self.new ≡ newest_stage self.old }
        ensures number { newest_number self.new ≡ newest_number self.old }
        ensures room { room self.new ≡ room self.old }
        ensures put { IfSome (text_at self.new number) (λ here. here ≡ text) }
        ensures others { (n : ℕ) → n ≢ number → text_at self.new n ≡ text_at self.old n }
    {
        let conn = conn_of(&text);
        let _ = self.change(number, Change::Put(text, conn));
    }

    /// Closes the session before the last with keys, and gives its text, exactly where that session is open and
    /// may no longer be used.
    #[tactic(auto, unfolding(crate::specs::Slots::newest_number))]
    pub fn close_retired(&mut self, now: Moment, tran: u32) -> Option<T>
        requires { IsWhole self.old }
        ensures some { (p : Peer) → SlotsStand T.stands_for self.old p.sessions → p.timers.tran ≡ tran → is_some result ≡ is_some (retired p now.0) }
        ensures text { IfSome result (λ text. (p : Peer) (s : Session) → SlotsStand T.stands_for self.old p.sessions → p.timers.tran ≡ tran →
            session_at p.sessions (retired p now.0) ≡ Some s → T.stands_for text s) }
        ensures stands { (p : Peer) → SlotsStand T.stands_for self.old p.sessions → p.timers.tran ≡ tran →
            SlotsStand T.stands_for self.new (closed_in (retired p now.0) p.sessions) }
        ensures whole { IsWhole self.new }
        ensures stage { newest_stage self.new ≡ newest_stage self.old }
        ensures number { newest_number self.new ≡ newest_number self.old }
        ensures room { room self.new ≡ room self.old }
    {
        match self.retired(now, tran) {
            None => None,
            Some(number) => self.change(number, Change::Close),
        }
    }

    /// The other end's name of the newest session is known, which has to be at its beginning. The name, as it
    /// is kept, is judged as `KeySession::named` judges it, and nothing changes where it is refused. It takes
    /// no memory.
    #[tactic(auto, unfolding(crate::specs::Slots::newest_name, crate::specs::Slots::newest_number, crate::specs::Slots::newest_stage, crate::specs::Slots::room))]
    pub fn name_newest(&mut self, name: &[u8], known: Option<&[u8]>) -> Result<(), Or<NameFault>>
        requires { newest_stage self.old ≡ stages.Opening }
        ensures named { OnOk result ((ss : List Session) → SlotsStand T.stands_for self.old ss → SlotsStand T.stands_for self.new (newest_named ss)) }
        ensures judged { MatchResult result (λ _. name_fault (kept_name name.now) (option_copied known.entry) ≡ None)
            (λ refused. (fault : NameFault) → refused ≡ Why fault → name_fault (kept_name name.now) (option_copied known.entry) ≡ Some fault) }
        ensures name { OnOk result (newest_name self.new ≡ Some (kept_name name.now)) }
        ensures refused { IfErr result (λ refused. refused ≢ Memory) }
        ensures kept { OnErr result (self.new ≡ self.old) }
        ensures stage { OnOk result (newest_stage self.new ≡ stages.Named) }
        ensures whole { IsWhole self.old → IsWhole self.new }
        ensures number { newest_number self.new ≡ newest_number self.old }
        ensures room { room self.new ≡ room self.old }
    {
        match judge_name(name, known) {
            Ok(name) => {
                self.newest.stage = SlotStage::Named(Named::of(name));
                Ok(())
            }
            Err(fault) => Err(Or::Why(fault)),
        }
    }

    /// The newest session has keys, which has to have a name and no keys yet: the key exchange of these two
    /// messages, as `KeySession::keyed` makes it. Where three open sessions have keys then, the oldest is closed
    /// and its text given. NoCipher comes exactly where the client's peer info offers no cipher of the policy;
    /// nothing changes then. It takes no memory.
    pub fn key_newest(
        &mut self,
        client: &Km2,
        server: &Km2,
        policy: &Policy,
        client_sid: Sid,
        server_sid: Sid,
    ) -> Result<Option<T>, NoCipher>
        requires stage { newest_stage self.old ≡ stages.Named }
        requires pre { IsSome client.now.source.pre }
        requires whole { IsWhole self.old }
        ensures exchanged { OnOk result ((peer_id : ℕ) (cipher : Cipher) (ss : List Session) → chosen policy.now client.now.info ≡ Some cipher →
            SlotsStand T.stands_for self.old ss →
            SlotsStand T.stands_for self.new (exchanged_in (keys_made client.now.source server.now.source client_sid server_sid cipher peer_id) ss)) }
        ensures some { IfOk result (λ text. (peer_id : ℕ) (cipher : Cipher) (ss : List Session) → chosen policy.now client.now.info ≡ Some cipher →
            SlotsStand T.stands_for self.old ss →
            is_some text ≡ is_some (one_too_many (newest_keyed (keys_made client.now.source server.now.source client_sid server_sid cipher peer_id) ss))) }
        ensures there { IfOk result (λ text. (peer_id : ℕ) (cipher : Cipher) (ss : List Session) → chosen policy.now client.now.info ≡ Some cipher →
            SlotsStand T.stands_for self.old ss →
            is_some text ≡ is_some (one_closed (newest_keyed (keys_made client.now.source server.now.source client_sid server_sid cipher peer_id) ss))) }
        ensures text { IfOk result (λ given. IfSome given (λ text. (peer_id : ℕ) (cipher : Cipher) (ss : List Session) (s : Session) →
            chosen policy.now client.now.info ≡ Some cipher → SlotsStand T.stands_for self.old ss →
            one_closed (newest_keyed (keys_made client.now.source server.now.source client_sid server_sid cipher peer_id) ss) ≡ Some s → T.stands_for text s)) }
        ensures judged { is_ok result ≡ is_some (chosen policy.now client.now.info) }
        ensures kept { OnErr result (self.new ≡ self.old) }
        ensures stage { OnOk result (newest_stage self.new ≡ stages.Keyed) }
        ensures whole { IsWhole self.new }
        ensures number { newest_number self.new ≡ newest_number self.old }
        ensures room { room self.new ≡ room self.old }
    {
        self.exchange(
            &client.source,
            client.info.as_slice(),
            &server.source,
            policy,
            client_sid,
            server_sid,
        )
    }

    /// The same from the parts of the messages that count: the source and the peer info of the client, and the
    /// server's source.
    #[tactic(auto, unfolding(crate::specs::Slots::newest_number, crate::specs::Slots::newest_stage, crate::specs::Slots::room))]
    pub fn exchange(
        &mut self,
        client: &Source,
        info: &[u8],
        server: &Source,
        policy: &Policy,
        client_sid: Sid,
        server_sid: Sid,
    ) -> Result<Option<T>, NoCipher>
        requires stage { newest_stage self.old ≡ stages.Named }
        requires pre { IsSome client.now.pre }
        requires whole { IsWhole self.old }
        ensures exchanged { OnOk result ((peer_id : ℕ) (cipher : Cipher) (ss : List Session) → chosen policy.now info.now ≡ Some cipher →
            SlotsStand T.stands_for self.old ss →
            SlotsStand T.stands_for self.new (exchanged_in (keys_made client.now server.now client_sid server_sid cipher peer_id) ss)) }
        ensures some { IfOk result (λ text. (peer_id : ℕ) (cipher : Cipher) (ss : List Session) → chosen policy.now info.now ≡ Some cipher →
            SlotsStand T.stands_for self.old ss →
            is_some text ≡ is_some (one_too_many (newest_keyed (keys_made client.now server.now client_sid server_sid cipher peer_id) ss))) }
        ensures there { IfOk result (λ text. (peer_id : ℕ) (cipher : Cipher) (ss : List Session) → chosen policy.now info.now ≡ Some cipher →
            SlotsStand T.stands_for self.old ss →
            is_some text ≡ is_some (one_closed (newest_keyed (keys_made client.now server.now client_sid server_sid cipher peer_id) ss))) }
        ensures text { IfOk result (λ given. IfSome given (λ text. (peer_id : ℕ) (cipher : Cipher) (ss : List Session) (s : Session) →
            chosen policy.now info.now ≡ Some cipher → SlotsStand T.stands_for self.old ss →
            one_closed (newest_keyed (keys_made client.now server.now client_sid server_sid cipher peer_id) ss) ≡ Some s → T.stands_for text s)) }
        ensures judged { is_ok result ≡ is_some (chosen policy.now info.now) }
        ensures kept { OnErr result (self.new ≡ self.old) }
        ensures stage { OnOk result (newest_stage self.new ≡ stages.Keyed) }
        ensures whole { IsWhole self.new }
        ensures number { newest_number self.new ≡ newest_number self.old }
        ensures room { room self.new ≡ room self.old }
    {
        match cipher_chosen(policy, info) {
            None => Err(NoCipher),
            Some(cipher) => {
                let keys = make_block(client, server, client_sid, server_sid);
                self.set_keys(keys, cipher);
                match self.one_too_many() {
                    None => Ok(None),
                    Some(number) => Ok(self.change(number, Change::Close)),
                }
            }
        }
    }
}
