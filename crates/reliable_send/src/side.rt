//! The sending side.

ghost use Rattle.std.specs.Prelude.{◌≡◌, ℕ, ◌+◌, ◌≤◌, List, length, true, false, IsOk, IfOk, IfErr, OnOk, OnErr, IfSome};
ghost use Rattle.vpn_base.specs.Answers.{IfWhy};
ghost use Rattle.reliable_send.specs.Sending.{Sending, Numbered, begun, peer_started, cut, piece_count, is_full, offered, acked, ready, due, sent};
ghost use Rattle.reliable_send.specs.Sides.{IsNotMemory, Stands, counted, first_id, first_of, seen_piece};

use crate::pieces::{
    KeptPiece, Piece, Room, Wanted, add_pieces, count_cut, count_found, count_pieces,
    count_waiting, count_where, drop_acknowledged, find_first, fresh, make_room, mark_at, window,
};
use std::alloc::Global;
use std::marker::Model;
use vpn_base::{Bytes, Moment, NoMemory, Or};

/// The most bytes that wait or are not acknowledged.
const MOST_WAITING: usize = 65_536;

/// How many ids there are.
const IDS: u64 = 1 << 32;

/// More than 65,536 bytes would wait or not be acknowledged, or an id would pass 0xFFFFFFFF.
#[derive(Clone, Copy, Debug, PartialEq, Eq)]
pub struct TextFull;

/// The sending side of a key session's reliable layer (OpenVPN network protocol, reliability layer of
/// the control channel). It forgets pieces that are acknowledged with all before them; its contract is
/// over every piece that was ever offered. Beside that contracts see how many more pieces there is room
/// for.
#[derive(Drop)]
pub struct SendSide {
    timeout: u32,
    started: bool,
    first: u64,
    pieces: Vec<KeptPiece>,
    spare: Vec<Room>,
}

impl Model for SendSide {
    ghost use Rattle.std.specs.Prelude.{◌-◌, min, vec_len, vec_capacity};
    ghost use Rattle.reliable_send.specs.Sides.{Side};
    ghost use Rattle.reliable_send.specs.internal.Sound.{IsSound};

    ghost Value = { Side };

    ghost view = { λ s. record {
      kept = record { timeout = s.timeout; started = s.started; first = s.first; pieces = s.pieces.items };
      spare = min (vec_len s.spare) (vec_capacity s.pieces - vec_len s.pieces);
    } };

    ghost invariant = { λ s. IsSound s.timeout s.first s.pieces.items };
}

impl SendSide {
    /// A side with piece 0 alone, which has no bytes, and with this many seconds from the first sending
    /// of a piece to the next.
    pub fn new(alloc: Global, timeout_secs: u32) -> Result<SendSide, NoMemory>
        requires some { 1 ≤ timeout_secs }
        requires most { timeout_secs ≤ 60 }
        ensures stands { IfOk result (λ s. Stands s (begun timeout_secs)) }
    {
        let mut pieces = Vec::new(alloc);
        pieces.push(fresh(Bytes::of(Vec::new(alloc))))?;
        Ok(SendSide {
            timeout: timeout_secs,
            started: false,
            first: 0,
            pieces,
            spare: Vec::new(alloc),
        })
    }

    /// Takes the room for an offer of at most so many bytes. It is Ok where that room is there.
    pub fn reserve(&mut self, bytes: usize) -> Result<(), NoMemory>
        ensures same { self.new.kept ≡ self.old.kept }
        ensures stands { (h : Sending) → Stands self.old h → Stands self.new h }
        ensures ok { OnOk result (piece_count bytes ≤ self.new.spare) }
        ensures enough { OnOk result ((text : List ℕ) → length text ≤ bytes → length (cut text) ≤ self.new.spare) }
        ensures grows { self.old.spare ≤ self.new.spare }
        ensures fits { piece_count bytes ≤ self.old.spare → IsOk result }
    {
        make_room(&mut self.pieces, &mut self.spare, count_pieces(bytes))
    }

    /// The peer's packet 0 is here, so that pieces behind piece 0 may be sent.
    pub fn peer_started(&mut self)
        ensures stands { (h : Sending) → Stands self.old h → Stands self.new (peer_started h) }
        ensures spare { self.old.spare ≤ self.new.spare }
    {
        self.started = true;
    }

    /// Adds bytes in pieces of 1,100, the last one of what is left. TextFull comes exactly where more
    /// than 65,536 bytes would wait or not be acknowledged, or an id would pass 0xFFFFFFFF. It takes no
    /// memory where there is room for the pieces.
    pub fn offer(&mut self, bytes: &[u8]) -> Result<(), Or<TextFull>>
        ensures ok { OnOk result ((h : Sending) → Stands self.old h
            → (is_full h bytes.now ≡ false) × Stands self.new (offered h bytes.now)) }
        ensures full { IfErr result (λ e. IfWhy e (λ _. (h : Sending) → Stands self.old h
            → is_full h bytes.now ≡ true)) }
        ensures err { OnErr result (self.new.kept ≡ self.old.kept) }
        ensures unchanged { OnErr result ((h : Sending) → Stands self.old h → Stands self.new h) }
        ensures fits { length (cut bytes.now) ≤ self.old.spare → IsNotMemory result }
        ensures spare { self.old.spare ≤ self.new.spare + length (cut bytes.now) }
        ensures untouched { OnErr result (self.old.spare ≤ self.new.spare) }
    {
        if MOST_WAITING < count_waiting(&self.pieces) + bytes.len() {
            return Err(Or::Why(TextFull));
        }
        let count = count_cut(bytes);
        if IDS < self.first + self.pieces.len() as u64 + count as u64 {
            return Err(Or::Why(TextFull));
        }
        make_room(&mut self.pieces, &mut self.spare, count)?;
        add_pieces(&mut self.pieces, &mut self.spare, bytes);
        Ok(())
    }

    /// A piece was acknowledged. One that was not sent, or was never offered, changes nothing.
    pub fn acked(&mut self, id: u32)
        ensures stands { (h : Sending) → Stands self.old h → Stands self.new (acked h id) }
        ensures spare { self.old.spare ≤ self.new.spare }
    {
        let Some(place) = u64::from(id).checked_sub(self.first) else {
            return;
        };
        mark_at(&mut self.pieces, place);
        self.first += drop_acknowledged(&mut self.pieces);
    }

    /// How many pieces may be sent now for the first time: at most 6 are in flight, and all but piece 0
    /// wait for the peer's packet 0.
    pub fn ready(&self) -> u32
        ensures few { result ≤ 6 }
        ensures exact { (h : Sending) → Stands self.now h → result ≡ length (ready h) }
    {
        count_found(
            Wanted::Unsent(self.started),
            self.first,
            window(&self.pieces),
        )
    }

    /// The first piece that may be sent now, and None exactly where there is none. `count_sent` counts it.
    pub fn next_piece(&self) -> Option<Piece<'_>>
        ensures exact { (h : Sending) → Stands self.now h → seen_piece result ≡ first_of (ready h) }
        ensures small { IfSome result (λ p. length p.bytes.now ≤ 1100) }
    {
        find_first(
            Wanted::Unsent(self.started),
            self.first,
            window(&self.pieces),
        )
    }

    /// How many pieces are due at this moment: sent, not acknowledged, and with the interval behind
    /// their last sending over.
    pub fn due_count(&self, now: Moment) -> u32
        ensures few { result ≤ 6 }
        ensures exact { (h : Sending) → Stands self.now h → result ≡ length (due h now.0) }
    {
        count_found(Wanted::Due(now), self.first, window(&self.pieces))
    }

    /// The first piece that is due at this moment, and None exactly where there is none. `count_sent`
    /// counts it.
    pub fn next_due(&self, now: Moment) -> Option<Piece<'_>>
        ensures exact { (h : Sending) → Stands self.now h → seen_piece result ≡ first_of (due h now.0) }
        ensures small { IfSome result (λ p. length p.bytes.now ≤ 1100) }
    {
        find_first(Wanted::Due(now), self.first, window(&self.pieces))
    }

    /// Counts a piece as sent at this moment, for the first time or again. Nothing changes where it may
    /// not be sent now and is not due.
    pub fn count_sent(&mut self, id: u32, now: Moment)
        ensures exact { (h : Sending) → Stands self.old h → Stands self.new (counted h id now.0) }
        ensures next { (h : Sending) → Stands self.old h → first_id (ready h) ≡ Some id → Stands self.new (sent h id now.0) }
        ensures again { (h : Sending) → Stands self.old h → first_id (due h now.0) ≡ Some id → Stands self.new (sent h id now.0) }
        ensures spare { self.old.spare ≤ self.new.spare }
    {
        count_where(
            &mut self.pieces,
            self.first,
            self.started,
            self.timeout,
            id,
            now,
        );
    }
}
