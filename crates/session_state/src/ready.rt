//! Memory that is taken ahead.

ghost use Rattle.std.specs.Prelude.{◌≡◌, ◌≤◌, ◌<◌, ◌-◌, ◌^◌, ℕ, true, is_some, IfOk, IsOk, OnOk};
ghost use Rattle.vpn_base.specs.declared.names.Timers.{Timers};
ghost use Rattle.key_sessions.specs.Slots.{newest_stage, text_at};
ghost use Rattle.peer_table.specs.Peer.{Peer};
ghost use Rattle.session_state.specs.Ready.{BlankTakes, IsReady, MayBegin, TakesControl, TakesPlain, TakesText, TakesTick};
ghost use Rattle.session_state.specs.Standing.{BlankIsFor, GoesOn, PeerStands, count, since};

use crate::session::SessionState;
use peer_lines::SessionBlank;
use tls_crypt::Wrap;
use vpn_base::NoMemory;
use vpn_links::Kind;

// For how many effects and bytes an outbox has to have room: for a key exchange, for text of the engine before one, and
// for a tick.
const EXCHANGE: (usize, usize) = (2, 93);

const TEXT: (usize, usize) = (8, 7_293);

const TICK: (usize, usize) = (26, 28_800);

// For how many effects of a control packet.
const PACKET_EFFECTS: usize = 19;

// Takes the room for a payload of so many bytes in the memory of a next key session.
fn reserve_in_blank(blank: &mut Option<SessionBlank>, payload: usize) -> Result<(), NoMemory>
    requires { is_some blank.old ≡ true }
    ensures there { is_some blank.new ≡ true }
    ensures takes { OnOk result (BlankTakes payload blank.new) }
    ensures fits { (bytes : ℕ) → BlankTakes bytes blank.old → payload ≤ bytes → IsOk result }
    ensures same { (timers : Timers) → BlankIsFor blank.old timers → BlankIsFor blank.new timers }
{
    match blank {
        None => Ok(()),
        Some(blank) => blank.reserve_payload(payload),
    }
}

impl<W: Wrap + Drop> SessionState<W> {
    /// Takes the memory that the calls for an event may need beside the outbox, and answers for how many effects and
    /// bytes the outbox has to have room. At want of memory the session stands for the same client as before.
    #[tactic(auto, unfolding(crate::specs::Ready::IsReady))]
    pub fn ready(&mut self, kind: &Kind) -> Result<(usize, usize), NoMemory>
        requires few { count self.old < 2 ^ 64 - 1 }
        requires goes_on { GoesOn self.old }
        ensures same { (p : Peer) → PeerStands W.wrapped self.old p → PeerStands W.wrapped self.new p }
        ensures goes_on { GoesOn self.new }
        ensures ready { IfOk result (λ room. IsReady self.new kind.now room.0 room.1) }
        ensures count { count self.new ≡ count self.old }
        ensures since { since self.new ≡ since self.old }
    {
        match kind {
            Kind::Datagram { from: _, bytes } => self.ready_for_packet(bytes.as_slice().len()),
            Kind::EngineText { conn: _, bytes } => self.ready_for_text(bytes.as_slice().len()),
            Kind::EnginePlain { conn: _, bytes } => self.ready_for_plain(bytes.as_slice().len()),
            Kind::EngineUp { conn: _, name: _ } => Ok(EXCHANGE),
            Kind::EngineDown { conn: _ } => Ok(EXCHANGE),
            Kind::DeviceIn { bytes: _ } => Ok(EXCHANGE),
            Kind::DeviceReady => Ok(EXCHANGE),
            Kind::File { cid: _, answer: _ } => Ok(EXCHANGE),
            Kind::Line { bytes: _ } => Ok(EXCHANGE),
            Kind::Tick => self.ready_for_tick(),
            Kind::Halt => Ok(EXCHANGE),
        }
    }

    // Takes the memory for a control packet of at most so many bytes.
    fn ready_for_packet(&mut self, payload: usize) -> Result<(usize, usize), NoMemory>
        requires few { count self.old < 2 ^ 64 - 1 }
        requires goes_on { GoesOn self.old }
        ensures same { (p : Peer) → PeerStands W.wrapped self.old p → PeerStands W.wrapped self.new p }
        ensures goes_on { GoesOn self.new }
        ensures takes { IfOk result (λ room. TakesControl self.new payload room.0 room.1) }
        ensures count { count self.new ≡ count self.old }
        ensures since { since self.new ≡ since self.old }
    {
        match self.make_next_for(payload) {
            Ok(()) => {}
            Err(NoMemory) => return Err(NoMemory),
        }
        match self.reserve_from(0, payload, 0, 0) {
            Ok(()) => {}
            Err(NoMemory) => return Err(NoMemory),
        }
        match self.bytes_from(0, payload) {
            None => Err(NoMemory),
            Some(bytes) => Ok((PACKET_EFFECTS, bytes)),
        }
    }

    // Takes the memory for text of so many bytes for the other end.
    fn ready_for_text(&mut self, said: usize) -> Result<(usize, usize), NoMemory>
        requires few { count self.old < 2 ^ 64 - 1 }
        requires goes_on { GoesOn self.old }
        ensures same { (p : Peer) → PeerStands W.wrapped self.old p → PeerStands W.wrapped self.new p }
        ensures goes_on { GoesOn self.new }
        ensures takes { IfOk result (λ room. TakesText self.new said room.0 room.1) }
        ensures count { count self.new ≡ count self.old }
        ensures since { since self.new ≡ since self.old }
    {
        match self.reserve_from(0, 0, said, 0) {
            Ok(()) => Ok(TEXT),
            Err(NoMemory) => Err(NoMemory),
        }
    }

    // Takes the memory for plain text of so many bytes.
    fn ready_for_plain(&mut self, plain: usize) -> Result<(usize, usize), NoMemory>
        requires few { count self.old < 2 ^ 64 - 1 }
        requires goes_on { GoesOn self.old }
        ensures same { (p : Peer) → PeerStands W.wrapped self.old p → PeerStands W.wrapped self.new p }
        ensures goes_on { GoesOn self.new }
        ensures takes { IfOk result (λ room. TakesPlain self.new plain) }
        ensures room { IfOk result (λ room. (2 ≤ room.0) × (93 ≤ room.1)) }
        ensures count { count self.new ≡ count self.old }
        ensures since { since self.new ≡ since self.old }
    {
        match self.reserve_from(0, 0, 0, plain) {
            Ok(()) => Ok(EXCHANGE),
            Err(NoMemory) => Err(NoMemory),
        }
    }

    // Takes the memory for time to pass.
    fn ready_for_tick(&mut self) -> Result<(usize, usize), NoMemory>
        requires goes_on { GoesOn self.old }
        ensures same { (p : Peer) → PeerStands W.wrapped self.old p → PeerStands W.wrapped self.new p }
        ensures goes_on { GoesOn self.new }
        ensures takes { IfOk result (λ room. TakesTick self.new room.0 room.1) }
        ensures count { count self.new ≡ count self.old }
        ensures since { since self.new ≡ since self.old }
    {
        match self.make_next() {
            Ok(()) => Ok(TICK),
            Err(NoMemory) => Err(NoMemory),
        }
    }

    /// Takes the memory of a next key session, with room for a payload of so many bytes.
    pub fn make_next_for(&mut self, payload: usize) -> Result<(), NoMemory>
        requires goes_on { GoesOn self.old }
        ensures same { (p : Peer) → PeerStands W.wrapped self.old p → PeerStands W.wrapped self.new p }
        ensures goes_on { GoesOn self.new }
        ensures made { OnOk result (MayBegin self.new) }
        ensures takes { OnOk result (BlankTakes payload self.new.blank) }
        ensures fits { (bytes : ℕ) → MayBegin self.old → BlankTakes bytes self.old.blank → payload ≤ bytes → IsOk result }
        ensures stage { newest_stage self.new.slots ≡ newest_stage self.old.slots }
        ensures count { count self.new ≡ count self.old }
        ensures since { since self.new ≡ since self.old }
    {
        match self.make_next() {
            Ok(()) => self.widen_next(payload),
            Err(NoMemory) => Err(NoMemory),
        }
    }

    // Takes the room for a payload of so many bytes in the memory of a next key session.
    #[tactic(auto, unfolding(crate::specs::Standing::PeerStands, crate::specs::Standing::GoesOn, crate::specs::Standing::count))]
    fn widen_next(&mut self, payload: usize) -> Result<(), NoMemory>
        requires goes_on { GoesOn self.old }
        requires next { MayBegin self.old }
        ensures same { (p : Peer) → PeerStands W.wrapped self.old p → PeerStands W.wrapped self.new p }
        ensures goes_on { GoesOn self.new }
        ensures made { MayBegin self.new }
        ensures takes { OnOk result (BlankTakes payload self.new.blank) }
        ensures fits { (bytes : ℕ) → BlankTakes bytes self.old.blank → payload ≤ bytes → IsOk result }
        ensures slots { self.new.slots ≡ self.old.slots }
        ensures count { count self.new ≡ count self.old }
        ensures since { since self.new ≡ since self.old }
    {
        reserve_in_blank(&mut self.blank, payload)
    }

    /// Takes the memory of a next key session, where it is not there.
    pub fn make_next(&mut self) -> Result<(), NoMemory>
        requires goes_on { GoesOn self.old }
        ensures same { (p : Peer) → PeerStands W.wrapped self.old p → PeerStands W.wrapped self.new p }
        ensures goes_on { GoesOn self.new }
        ensures made { OnOk result (MayBegin self.new) }
        ensures fits { MayBegin self.old → IsOk result }
        ensures count { count self.new ≡ count self.old }
        ensures since { since self.new ≡ since self.old }
        ensures texts { (n : ℕ) → text_at self.new.slots n ≡ text_at self.old.slots n }
        ensures stage { newest_stage self.new.slots ≡ newest_stage self.old.slots }
        ensures blank { is_some self.old.blank ≡ true → self.new.blank ≡ self.old.blank }
    {
        match self.make_blank() {
            Ok(()) => {}
            Err(NoMemory) => return Err(NoMemory),
        }
        match self.slots.reserve() {
            Ok(()) => Ok(()),
            Err(NoMemory) => Err(NoMemory),
        }
    }

    // Takes the memory of what belongs to it.
    #[tactic(auto, unfolding(crate::specs::Standing::PeerStands, crate::specs::Standing::GoesOn, crate::specs::Standing::count))]
    fn make_blank(&mut self) -> Result<(), NoMemory>
        requires goes_on { GoesOn self.old }
        ensures same { (p : Peer) → PeerStands W.wrapped self.old p → PeerStands W.wrapped self.new p }
        ensures goes_on { GoesOn self.new }
        ensures made { OnOk result (is_some self.new.blank ≡ true) }
        ensures fits { is_some self.old.blank ≡ true → IsOk result }
        ensures count { count self.new ≡ count self.old }
        ensures since { since self.new ≡ since self.old }
        ensures slots { self.new.slots ≡ self.old.slots }
        ensures blank { is_some self.old.blank ≡ true → self.new.blank ≡ self.old.blank }
    {
        if self.blank.is_some() {
            return Ok(());
        }
        match SessionBlank::make(self.alloc, &self.timers) {
            Ok(blank) => {
                self.blank = Some(blank);
                Ok(())
            }
            Err(NoMemory) => Err(NoMemory),
        }
    }
}
