//! A client's session, as a core knows it.

ghost use Rattle.std.specs.Prelude.{◌≡◌, ◌≤◌, ◌<◌, ◌+◌, ◌-◌, ◌^◌, ℕ, List, length, take, IfOk, IfSome, IfNone, IsOk, is_ok, is_some, Bool, MatchResult, OnOk, OnErr, ◌++◌};
ghost use Rattle.std.specs.Option.{option_map, option_copied};
ghost use Rattle.vpn_base.specs.declared.address.Addr.{Addr};
ghost use Rattle.vpn_base.specs.declared.names.Cid.{Cid};
ghost use Rattle.vpn_links.specs.Actions.{Holds};
ghost use Rattle.vpn_links.specs.declared.events.FileAnswer.{FileAnswer};
ghost use Rattle.vpn_links.specs.declared.events.Kind.{Kind};
ghost use Rattle.vpn_links.specs.declared.events.Kind.TheVariants.{Datagram, File};
ghost use Rattle.tls_crypt.specs.Wrapped.{half, keys_of, wrapped, written_half};
ghost use Rattle.peer_table.specs.Peer.{Peer, began};
ghost use Rattle.peer_table.specs.ControlPackets.{control_came};
ghost use Rattle.peer_table.specs.DataPackets.{data_came, sealed_to};
ghost use Rattle.peer_table.specs.EngineAnswers.{engine_came, open_with};
ghost use Rattle.peer_table.specs.Exchange.{NothingReadBefore, after_message, all_unread, first_conn, cipher_ahead, cipher_of, exchanged, most_unread, next_message};
ghost use Rattle.peer_table.specs.KeySessions.{live_with, usable_with};
ghost use Rattle.peer_table.specs.Naming.{number_of, place, place_numbered};
ghost use Rattle.peer_table.specs.Outboxes.{GoesOnAfter, GoesOnUnlessOver, HasRoom, Uses, IsUnchanged, Leaves, LeavesSealed, LeavesUnless, TellsOpened, actions_of, incoming, message_seen};
ghost use Rattle.peer_table.specs.Time.{closings, ticked, ticking};
ghost use Rattle.peer_table.specs.Unnamed.{NameComesFirst};

use crate::outcomes::{Message, Refused, SessionFault, Turn};
use opcode_codec::ControlView;
use packet_ids::Spent;
use std::alloc::Global;
use tls_crypt::{Opened, StaticKey};
use vpn_base::{Addr, Cipher, Conn, Draw, Moment, NoMemory, Place, Policy, Role, Sid, Timers};
use vpn_links::{Kind, Outbox};

/// The session of one client with all its key sessions. Each call leaves it and the outbox as one function
/// over everything that the client ever said has it, and answers that function's answer; at want of memory
/// nothing has changed. `ready` takes the memory for an event, before the first call that belongs to it.
pub trait ClientSession {
    /// The client for which it stands.
    ghost stands: { Self → Peer → Type 0 };

    /// How many key sessions it ever had.
    ghost count: { Self → ℕ };

    /// It did not end: after a turn that is over, only calls that look follow.
    ghost goes_on: { Self → Type 0 };

    /// The latest moment at which time passed for it, in milliseconds; it is told none before.
    ghost since: { Self → ℕ };

    /// It has the memory for this event beside an outbox with room for so many effects and bytes.
    ghost is_ready: { Self → Kind → Bool → ℕ → ℕ → Type 0 };

    /// It has the memory for a key exchange.
    ghost may_exchange: { Self → Type 0 };

    /// An answer for a client's file may make a key exchange, and does nothing else here.
    ghost ready_for_file: { (s : Self) (cid : Cid) (answer : FileAnswer) (established : Bool) (effects bytes : ℕ) →
        is_ready s (File cid answer) established effects bytes → may_exchange s };

    /// Nothing is read of a key session's plain text before its key exchange.
    ghost nothing_read_before: { (s : Self) (p : Peer) → stands s p → NothingReadBefore p.sessions };

    /// Until the client's name is known, no key session is beyond its first stage: none is prepared for its key
    /// exchange, and none has keys.
    ghost name_comes_first: { (s : Self) (p : Peer) → stands s p → NameComesFirst p };

    /// A session whose key session 0 begins on this connection, which is opened, at this moment in milliseconds.
    /// The own session id, the timers and the half of the static key for this role are those of its packets.
    fn begin(
        alloc: Global,
        role: Role,
        key: &StaticKey,
        own: Sid,
        timers: Timers,
        conn: Conn,
        now: Moment,
        to: Addr,
        out: &mut Outbox,
    ) -> Result<Self, NoMemory>
        requires window { 1 ≤ timers.win }
        requires some_timeout { 1 ≤ timers.timeout }
        requires short_timeout { timers.timeout ≤ 60 }
        ensures made { IfOk result (λ s. Leaves stands s out.old out.new to
            (began role (wrapped (keys_of (half key.now.0 (written_half role)))) own timers conn now.0)) }
        ensures kept { OnErr result (Holds out.new out.old.effects out.old.staged) }
        ensures goes_on { IfOk result (λ s. goes_on s) }
        ensures uses { Uses out.old out.new 2 1200 }
        ensures first { IfOk result (λ s. count s ≡ 1) }
        ensures since { IfOk result (λ s. since s ≤ now.0) };

    /// Takes the memory that the calls for an event of a client, established or not, may need beside the outbox,
    /// and answers for how many effects and bytes the outbox has to have room.
    fn ready(&mut self, kind: &Kind, established: bool) -> Result<(usize, usize), NoMemory>
        requires few { count self.old < 2 ^ 64 - 1 }
        requires goes_on { goes_on self.old }
        ensures same { (p : Peer) → stands self.old p → stands self.new p }
        ensures goes_on { goes_on self.new }
        ensures ready { IfOk result (λ room. is_ready self.new kind.now established room.0 room.1) }
        ensures count { count self.new ≡ count self.old }
        ensures since { since self.new ≡ since self.old };

    /// A control packet has come. Refused are a wrap that was accepted before, and a packet that belongs to no
    /// live key session and begins none. The effects tell whether the next engine connection was opened.
    fn on_control(
        &mut self,
        opened: &Opened<'_>,
        view: &ControlView<'_>,
        to: Addr,
        next_conn: Conn,
        established: bool,
        now: Moment,
        out: &mut Outbox,
    ) -> Result<Result<Turn, Refused>, NoMemory>
        requires acks { view.now.acks.count ≤ 8 }
        requires few { count self.old < 2 ^ 64 - 1 }
        requires goes_on { goes_on self.old }
        requires later { since self.old ≤ now.0 }
        ensures left { (p : Peer) → stands self.old p →
            LeavesUnless result stands self.new out.old out.new to p (control_came p (incoming opened.now view.now next_conn established now)) }
        ensures answer { IfOk result (λ answer. (p : Peer) → stands self.old p →
            answer ≡ (control_came p (incoming opened.now view.now next_conn established now)).answer) }
        ensures goes_on { MatchResult result (GoesOnAfter (goes_on self.new)) (λ _. goes_on self.new) }
        ensures fits { (from : Addr) (bytes : List ℕ) (effects room : ℕ) → is_ready self.old (Datagram from bytes) established effects room →
            length view.now.payload.now ≤ length bytes → HasRoom out.old effects room → IsOk result }
        ensures uses { (from : Addr) (bytes : List ℕ) (effects room : ℕ) → is_ready self.old (Datagram from bytes) established effects room →
            length view.now.payload.now ≤ length bytes → Uses out.old out.new effects room }
        ensures count { count self.new ≤ count self.old + 1 }
        ensures since { since self.new ≤ now.0 }
        ensures since_stays { since self.new ≡ since self.old };

    /// The engine has answered on a connection. An answer for no open one does nothing, and neither does one
    /// that says that the connection is down: the owner ends the client then.
    fn on_engine(
        &mut self,
        kind: &Kind,
        to: Addr,
        now: Moment,
        out: &mut Outbox,
    ) -> Result<Turn, NoMemory>
        requires { goes_on self.old }
        ensures left { (p : Peer) → stands self.old p → LeavesUnless result stands self.new out.old out.new to p (engine_came kind.now now.0 p) }
        ensures answer { IfOk result (λ turn. (p : Peer) → stands self.old p → turn ≡ (engine_came kind.now now.0 p).answer) }
        ensures goes_on { MatchResult result (GoesOnUnlessOver (goes_on self.new)) (λ _. goes_on self.new) }
        ensures fits { (established : Bool) (effects room : ℕ) → is_ready self.old kind.now established effects room → HasRoom out.old effects room → IsOk result }
        ensures exchange { (established : Bool) (effects room : ℕ) → is_ready self.old kind.now established effects room → may_exchange self.new }
        ensures uses { (established : Bool) (effects room : ℕ) → is_ready self.old kind.now established effects room →
            HasRoom out.old effects room → HasRoom out.new 2 93 × Uses out.old out.new effects room }
        ensures count { count self.new ≡ count self.old }
        ensures since { since self.new ≡ since self.old };

    /// Makes the key exchange of the newest key session, and does nothing where it is not prepared. What is
    /// sealed under its keys carries this peer id. The server's key source is taken from the draw.
    fn exchange(
        &mut self,
        policy: &Policy,
        peer_id: u32,
        draw: &Draw,
        to: Addr,
        now: Moment,
        out: &mut Outbox,
    ) -> Result<Turn, NoMemory>
        requires peer_id { peer_id < 2 ^ 24 }
        requires goes_on { goes_on self.old }
        ensures left { (p : Peer) → stands self.old p →
            LeavesUnless result stands self.new out.old out.new to p (exchanged policy.now peer_id draw.now p) }
        ensures answer { IfOk result (λ turn. (p : Peer) → stands self.old p → turn ≡ (exchanged policy.now peer_id draw.now p).answer) }
        ensures goes_on { MatchResult result (GoesOnUnlessOver (goes_on self.new)) (λ _. goes_on self.new) }
        ensures fits { may_exchange self.old → HasRoom out.old 2 93 → IsOk result }
        ensures uses { Uses out.old out.new 2 93 }
        ensures count { count self.new ≡ count self.old }
        ensures since { since self.new ≡ since self.old };

    /// The next message behind a key exchange, if one waits.
    fn next_message(&self) -> Option<Message<'_>>
        ensures { (p : Peer) → stands self.now p → option_map message_seen result ≡ next_message p };

    /// Passes the next message, if one waits. It takes no memory.
    fn pass_message(&mut self)
        requires { goes_on self.old }
        ensures passed { (p : Peer) → stands self.old p → stands self.new (after_message p) }
        ensures goes_on { goes_on self.new }
        ensures count { count self.new ≡ count self.old }
        ensures since { since self.new ≡ since self.old };

    /// Time has passed. `idle` says that nothing fresh came of the client for too long.
    fn on_tick(
        &mut self,
        next_conn: Conn,
        established: bool,
        idle: bool,
        to: Addr,
        now: Moment,
        out: &mut Outbox,
    ) -> Result<Turn, NoMemory>
        requires few { count self.old < 2 ^ 64 - 1 }
        requires goes_on { goes_on self.old }
        requires later { since self.old ≤ now.0 }
        ensures left { (p : Peer) → stands self.old p →
            LeavesUnless result stands self.new out.old out.new to p (ticked (ticking now.0 next_conn established idle) p) }
        ensures answer { IfOk result (λ turn. (p : Peer) → stands self.old p → turn ≡ (ticked (ticking now.0 next_conn established idle) p).answer) }
        ensures goes_on { MatchResult result (GoesOnUnlessOver (goes_on self.new)) (λ _. goes_on self.new) }
        ensures fits { (effects room : ℕ) → is_ready self.old Kind.Tick established effects room → HasRoom out.old effects room → IsOk result }
        ensures uses { (effects room : ℕ) → is_ready self.old Kind.Tick established effects room → Uses out.old out.new effects room }
        ensures count { count self.new ≤ count self.old + 1 }
        ensures since { since self.new ≤ now.0 }
        ensures since_kept { OnErr result (since self.new ≡ since self.old) };

    /// Seals an inner packet of at most 1,500 bytes under the newest usable keys, as an effect. `Spent` comes
    /// exactly where the last packet id was used, or where there are no keys. It takes no memory.
    fn seal_to(&mut self, inner: &[u8], to: Addr, out: &mut Outbox) -> Result<(), Spent>
        requires short { length inner.now ≤ 1500 }
        requires room { HasRoom out.old 1 1524 }
        requires goes_on { goes_on self.old }
        ensures left { (p : Peer) → stands self.old p → LeavesSealed stands self.new out.old out.new to (sealed_to inner.now p) }
        ensures answer { (p : Peer) → stands self.old p → is_ok result ≡ is_ok (sealed_to inner.now p).answer }
        ensures goes_on { goes_on self.new }
        ensures uses { Uses out.old out.new 1 1524 }
        ensures count { count self.new ≡ count self.old }
        ensures since { since self.new ≡ since self.old };

    /// Opens a data packet in place, and answers the length of its inner packet, which then stands behind the
    /// first 24 bytes. The bytes are unchanged where nothing opens. It takes no memory.
    fn unseal(&mut self, datagram: &mut [u8], now: Moment) -> Result<usize, SessionFault>
        requires short { length datagram.old ≤ 65536 }
        requires goes_on { goes_on self.old }
        requires later { since self.old ≤ now.0 }
        ensures left { (p : Peer) → stands self.old p → stands self.new (data_came datagram.old now p).peer }
        ensures answer { (p : Peer) → stands self.old p → TellsOpened result datagram.new (data_came datagram.old now p).answer }
        ensures unchanged { IsUnchanged result datagram.old datagram.new }
        ensures goes_on { goes_on self.new }
        ensures front { take 24 datagram.new ≡ take 24 datagram.old }
        ensures length { length datagram.new ≡ length datagram.old }
        ensures count { count self.new ≡ count self.old }
        ensures since { since self.new ≤ now.0 }
        ensures since_stays { since self.new ≡ since self.old };

    /// The client's common name; None exactly before it is known.
    fn name(&self) -> Option<&[u8]>
        ensures { (p : Peer) → stands self.now p → option_copied result ≡ p.name };

    /// The client's own session id; None exactly before its first control packet was taken.
    fn remote(&self) -> Option<Sid>
        ensures { (p : Peer) → stands self.now p → result ≡ p.remote };

    /// Whether the client asked to be established without a push request. It is false before the exchange.
    fn asks_push(&self) -> bool
        ensures { (p : Peer) → stands self.now p → result ≡ p.asks_push };

    /// The cipher of its keys; None exactly before the first exchange.
    fn cipher(&self) -> Option<Cipher>
        ensures { (p : Peer) → stands self.now p → result ≡ cipher_of p };

    /// The cipher that an exchange would choose now; None where no key session is prepared or none is offered.
    fn cipher_ahead(&self, policy: &Policy) -> Option<Cipher>
        ensures { (p : Peer) → stands self.now p → result ≡ cipher_ahead policy.now p };

    /// Whether an open key session has this engine connection.
    fn has_conn(&self, conn: Conn) -> bool
        ensures { (p : Peer) → stands self.now p → result ≡ is_some (open_with conn p) };

    /// The engine connection of key session 0.
    fn first_conn(&self) -> Option<Conn>
        ensures { (p : Peer) → stands self.now p → result ≡ first_conn p };

    /// The open key session with this key id, if there is one.
    fn place(&self, kid: u8) -> Option<Place>
        ensures { (p : Peer) → stands self.now p → result ≡ place kid p };

    /// The key session of this number, if there is one.
    fn place_numbered(&self, number: u64) -> Option<Place>
        ensures { (p : Peer) → stands self.now p → result ≡ place_numbered number p };

    /// The greatest number of plain text bytes that an open key session has not read.
    fn unread(&self) -> usize
        ensures { (p : Peer) → stands self.now p → result ≡ most_unread p.sessions };

    /// The number of plain text bytes that all open key sessions together have not read; None where no `usize`
    /// says it.
    fn unread_in_all(&self) -> Option<usize>
        ensures some { IfSome result (λ count. (p : Peer) → stands self.now p → count ≡ all_unread p.sessions) }
        ensures none { IfNone result ((p : Peer) → stands self.now p → 2 ^ 64 ≤ all_unread p.sessions) };

    /// The number of the usable key session with this key id, to which a data packet goes, if there is one.
    fn data_session(&self, kid: u8, now: Moment) -> Option<u64>
        ensures { (p : Peer) → stands self.now p → result ≡ usable_with p.timers now.0 p.sessions kid };

    /// The number of the live key session with this key id, to which a control packet goes, or of the next one
    /// where no live one has it.
    fn control_session(&self, kid: u8, now: Moment) -> u64
        requires few { count self.now < 2 ^ 64 - 1 }
        ensures { (p : Peer) → stands self.now p → result ≡ number_of p (live_with p.timers now.0 p.sessions kid) };

    /// Closes the engine connection of each open key session, in order. At most three are open.
    fn close_all(&self, out: &mut Outbox) -> Result<(), NoMemory>
        ensures closed { OnOk result ((p : Peer) → stands self.now p →
            Holds out.new (out.old.effects ++ actions_of p.role (closings p.sessions)) out.old.staged) }
        ensures kept { OnErr result (Holds out.new out.old.effects out.old.staged) }
        ensures fits { HasRoom out.old 3 0 → IsOk result }
        ensures uses { Uses out.old out.new 3 0 };
}
