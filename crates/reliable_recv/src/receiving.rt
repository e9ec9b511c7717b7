//! The receiving side of one key session.

ghost use Rattle.std.specs.Prelude.{◌≡◌, ◌≢◌, ◌==◌, ℕ, ◌+◌, ◌^◌, ◌<◌, ◌≤◌, min, [], ◌∷◌, ◌++◌, List, length, take, drop, slice_index_or, is_some, IsSome, IsOk, IfOk, OnOk, OnErr, OnSome, IfNone, None, vec_len, vec_capacity};
ghost use Rattle.std.specs.List.{list_any, position};
ghost use Rattle.std.specs.VecDeque.{deque_len, deque_capacity};
ghost use Rattle.vpn_base.specs.Acks.{acked, AreAcks};
ghost use Rattle.reliable_recv.specs.Receiving.{Arrival, Receiving, begun, payload_of, got, put_into, next_payload, after_next, acks_of, after_acks};
ghost use Rattle.reliable_recv.specs.Sides.{Stands};
ghost use Rattle.reliable_recv.specs.internal.Sound.{AreOnce};

use std::alloc::Global;
use std::collections::VecDeque;
use std::marker::Model;
use std::mem;
use vpn_base::{Acks, Bytes, NoMemory};

/// What comes of a control packet, by its packet id.
#[derive(Clone, Copy, Debug, PartialEq, Eq)]
pub enum Got {
    /// It is the first of its id.
    New,
    /// A packet of its id was taken before.
    Repeat,
    /// Its id lies too far ahead of what was read.
    Ahead,
}

/// The receiving side of one key session's control packets (OpenVPN network protocol, reliability layer
/// of the control channel): their payloads, to be read in the order of their ids from 0 on, and the ids
/// that wait to be acknowledged. It forgets what was read; its contract is over everything that was
/// ever taken. Beside that contracts see how many bytes of the next payload there is room for.
#[derive(Drop)]
pub struct RecvSide {
    held: Vec<(u32, Bytes)>,
    read: u64,
    waiting: VecDeque<u32>,
    spare: Vec<u8>,
}

impl Model for RecvSide {
    ghost use Rattle.std.specs.Prelude.{vec_capacity};
    ghost use Rattle.std.specs.VecDeque.{deque_len, deque_capacity};
    ghost use Rattle.reliable_recv.specs.Sides.{Side};
    ghost use Rattle.reliable_recv.specs.internal.Sound.{IsSound};

    ghost Value = { Side };

    ghost view = { λ s. record {
      kept = record { taken = s.held.items; read = s.read; waiting = s.waiting.items };
      spare = vec_capacity s.spare;
    } };

    ghost invariant = { λ s. IsSound s.held.items s.read (deque_len s.waiting) (deque_capacity s.waiting) (vec_capacity s.held) s.spare.items };
}

/// How far ahead of what was read a packet id may lie.
const WINDOW: u64 = 12;

/// How many payloads are held at most.
const MOST_HELD: usize = 12;

/// How many ids may wait to be acknowledged, as many as one packet acknowledges.
const MOST_WAITING: usize = 8;

fn is_held(held: &[(u32, Bytes)], id: u32) -> bool
    ensures { result ≡ list_any (λ a. a.0 == id) held.now }
{
    held.iter().any(|packet| packet.0 == id)
}

fn judge(read: u64, held: &[(u32, Bytes)], id: u32) -> Got
    requires { read ≤ 2 ^ 32 }
    ensures { (waiting : List ℕ) → result ≡ got (record { taken = held.now; read = read; waiting = waiting }) id }
{
    if u64::from(id) >= read + WINDOW {
        return Got::Ahead;
    }
    if u64::from(id) < read || is_held(held, id) {
        return Got::Repeat;
    }
    Got::New
}

// A copy of a payload, in the spare room where that is large enough.
fn copy_into(spare: &mut Vec<u8>, payload: &[u8]) -> Result<Bytes, NoMemory>
    requires { spare.old.items ≡ [] }
    ensures ok { IfOk result (λ bytes. bytes ≡ payload.now) }
    ensures err { OnErr result (spare.new ≡ spare.old) }
    ensures fits { length payload.now ≤ vec_capacity spare.old → IsOk result }
    ensures empty { spare.new.items ≡ [] }
{
    let alloc = *spare.allocator();
    if spare.capacity() < payload.len() {
        return Bytes::copy(alloc, payload);
    }
    let mut bytes = mem::replace(spare, Vec::new(alloc));
    let filled = bytes.extend_from_slice(payload);
    prove!(filled.is_ok());
    let _ = filled;
    Ok(Bytes::of(bytes))
}

fn place_of(held: &[(u32, Bytes)], id: u64) -> Option<usize>
    ensures place { result ≡ position (λ a. a.0 == id) held.now }
    ensures small { OnSome result (id < 2 ^ 32) }
{
    held.iter().position(|packet| u64::from(packet.0) == id)
}

// Takes the payload of this id out.
fn take_out(held: &mut Vec<(u32, Bytes)>, id: u64) -> Option<Bytes>
    ensures payload { result ≡ payload_of held.old.items id }
    ensures others { (other : ℕ) → other ≢ id → payload_of held.new.items other ≡ payload_of held.old.items other }
    ensures small { OnSome result (id < 2 ^ 32) }
    ensures none { IfNone result (held.new.items ≡ held.old.items) }
    ensures once { AreOnce held.old.items → AreOnce held.new.items × (payload_of held.new.items id ≡ None) }
    ensures capacity { vec_capacity held.new ≡ vec_capacity held.old }
{
    let place = place_of(held, id)?;
    let (_, payload) = held.remove(place);
    Some(payload)
}

fn take_first(waiting: &mut VecDeque<u32>) -> u32
    requires { 0 < deque_len waiting.old }
    ensures first { (d : ℕ) → result ≡ slice_index_or waiting.old.items 0 d }
    ensures rest { waiting.new.items ≡ drop 1 waiting.old.items }
    ensures capacity { deque_capacity waiting.new ≡ deque_capacity waiting.old }
{
    match waiting.pop_front() {
        Some(id) => id,
        None => unreachable!(),
    }
}

// Gives out so many ids, the oldest first, at most 8.
fn take_ids(waiting: &mut VecDeque<u32>, most: u8) -> Acks
    ensures given { acked result ≡ take (min most 8) waiting.old.items }
    ensures acks { AreAcks result }
    ensures rest { waiting.new.items ≡ drop (min most 8) waiting.old.items }
    ensures count { length waiting.new.items + result.count ≡ length waiting.old.items }
    ensures capacity { deque_capacity waiting.new ≡ deque_capacity waiting.old }
{
    let count = usize::from(most.min(8)).min(waiting.len());
    let mut ids = [0; 8];
    for k in 0..count {
        ids[k] = take_first(waiting);
    }
    Acks {
        count: count as u8,
        ids,
    }
}

impl RecvSide {
    /// A side to which nothing came yet. The room for the packets that are held and for the ids that wait
    /// is taken here.
    pub fn new(alloc: Global) -> Result<RecvSide, NoMemory>
        ensures stands { IfOk result (λ s. Stands s begun) }
        ensures fresh { IfOk result (λ s. s.kept ≡ begun) }
    {
        let held = Vec::with_capacity(alloc, MOST_HELD)?;
        let waiting = VecDeque::with_capacity(alloc, MOST_WAITING)?;
        Ok(RecvSide {
            held,
            read: 0,
            waiting,
            spare: Vec::new(alloc),
        })
    }

    /// Takes the room for the next payload, of at most so many bytes. It is Ok where that room is there.
    #[tactic(auto, unfolding(crate::specs::Sides::Stands))]
    pub fn reserve(&mut self, bytes: usize) -> Result<(), NoMemory>
        ensures same { self.new.kept ≡ self.old.kept }
        ensures stands { (h : Receiving) → Stands self.old h → Stands self.new h }
        ensures ok { OnOk result (bytes ≤ self.new.spare) }
        ensures grows { self.old.spare ≤ self.new.spare }
        ensures fits { bytes ≤ self.old.spare → IsOk result }
    {
        self.spare.reserve(bytes)?;
        Ok(())
    }

    /// Takes a packet of this id. With r payloads read, it is Ahead exactly where the id is at least
    /// r + 12, and dropped then; Repeat exactly where the id is below r or a packet of it is held; else
    /// New. A new or repeated packet's id waits to be acknowledged. No more than 12 payloads are held.
    /// It takes no memory where the payload fits the room that `reserve` took, and that room is used up
    /// by a new packet alone. After want of memory the side is as before.
    pub fn put(&mut self, id: u32, payload: &[u8]) -> Result<Got, NoMemory>
        requires { length self.old.kept.waiting < 8 }
        ensures same { IfOk result (λ g. g ≡ got self.old.kept id) }
        ensures exact { IfOk result (λ g. (h : Receiving) → Stands self.old h → g ≡ got h id) }
        ensures ok { OnOk result ((h : Receiving) → Stands self.old h → Stands self.new (put_into h id payload.now)) }
        ensures waiting { OnOk result (self.new.kept.waiting ≡ (put_into self.old.kept id payload.now).waiting) }
        ensures one_more { length self.new.kept.waiting ≤ length self.old.kept.waiting + 1 }
        ensures read { self.new.kept.read ≡ self.old.kept.read }
        ensures few { length self.new.kept.taken ≤ 12 }
        ensures err { OnErr result (self.new ≡ self.old) }
        ensures fits { length payload.now ≤ self.old.spare → IsOk result }
        ensures spare { IfOk result (λ g. g ≢ Got.New → self.old.spare ≤ self.new.spare) }
    {
        match judge(self.read, &self.held, id) {
            Got::Ahead => Ok(Got::Ahead),
            Got::Repeat => {
                self.waiting.push_back_reserved(id);
                Ok(Got::Repeat)
            }
            Got::New => {
                let bytes = copy_into(&mut self.spare, payload)?;
                self.held.push_reserved((id, bytes));
                self.waiting.push_back_reserved(id);
                Ok(Got::New)
            }
        }
    }

    /// Reads the payload whose id is the number of those that were read. It is None exactly where that
    /// payload is not held. It takes no memory.
    pub fn next_in_order(&mut self) -> Option<Bytes>
        ensures same { result ≡ next_payload self.old.kept }
        ensures exact { (h : Receiving) → Stands self.old h → result ≡ next_payload h }
        ensures stands { (h : Receiving) → Stands self.old h → Stands self.new (after_next h) }
        ensures none { IfNone result (self.new ≡ self.old) }
        ensures waiting { self.new.kept.waiting ≡ self.old.kept.waiting }
        ensures read { self.new.kept.read ≡ (after_next self.old.kept).read }
        ensures bound { self.new.kept.read ≤ 2 ^ 32 }
        ensures few { length self.new.kept.taken ≤ 12 }
        ensures spare { self.old.spare ≤ self.new.spare }
    {
        let payload = take_out(&mut self.held, self.read)?;
        self.read += 1;
        Some(payload)
    }

    /// Gives out so many of the ids that wait to be acknowledged, the oldest first, at most 8. It takes no
    /// memory.
    pub fn take_acks(&mut self, most: u8) -> Acks
        ensures given { acked result ≡ acks_of self.old.kept most }
        ensures acks { AreAcks result }
        ensures exact { (h : Receiving) → Stands self.old h → acked result ≡ acks_of h most }
        ensures new { self.new.kept ≡ after_acks self.old.kept most }
        ensures count { length self.new.kept.waiting + result.count ≡ length self.old.kept.waiting }
        ensures stands { (h : Receiving) → Stands self.old h → Stands self.new (after_acks h most) }
        ensures spare { self.old.spare ≤ self.new.spare }
    {
        take_ids(&mut self.waiting, most)
    }

    /// How many ids wait to be acknowledged.
    #[tactic(auto, unfolding(crate::specs::Sides::Stands))]
    pub fn acks_waiting(&self) -> u8
        ensures same { result ≡ length self.now.kept.waiting }
        ensures exact { (h : Receiving) → Stands self.now h → result ≡ length h.waiting }
    {
        self.waiting.len() as u8
    }

    /// How many payloads were read.
    #[tactic(auto, unfolding(crate::specs::Sides::Stands))]
    pub fn read_count(&self) -> u64
        ensures same { result ≡ self.now.kept.read }
        ensures exact { (h : Receiving) → Stands self.now h → result ≡ h.read }
    {
        self.read
    }
}
