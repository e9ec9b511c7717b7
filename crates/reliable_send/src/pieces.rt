//! The pieces that a sending side keeps, and the walks over them.

ghost use Rattle.std.specs.Prelude.{◌≡◌, ◌||◌, ◌+◌, ◌^◌, ◌<◌, ◌≤◌, [], ◌++◌, length, take, drop, map, All, IsOk, OnOk, IfSome, vec_len, vec_capacity};
ghost use Rattle.reliable_send.specs.Sending.{cut, piece_count, unsent};
ghost use Rattle.reliable_send.specs.declared.pieces.Wanted.TheVariants.{Unsent, Due};
ghost use Rattle.reliable_send.specs.Sides.{first_of, is_among, seen, seen_piece};
ghost use Rattle.reliable_send.specs.internal.Sound.{IsSmall, waiting};
ghost use Rattle.reliable_send.specs.internal.Walks.{alter, count_one, counted_pieces, fits, found, has_passed, leading, mark, next_interval};

use std::alloc::Global;
use vpn_base::{Bytes, Moment, NoMemory};

/// The most bytes of a piece.
const MOST_BYTES: usize = 1100;

/// How many pieces may be in flight.
const WINDOW: usize = 6;

/// The longest interval between two sendings of a piece, in milliseconds.
const LONGEST: u64 = 60_000;

/// A piece to be sent, with its id.
#[derive(Clone, Copy, Debug)]
pub struct Piece<'a> {
    /// The id, in order of the text from 0 on.
    pub id: u32,
    /// At most 1,100 bytes of the text; none in piece 0.
    pub bytes: &'a [u8],
}

/// A piece that is kept, with its last sending.
#[derive(Drop)]
pub struct KeptPiece {
    /// At most 1,100 bytes of the text.
    pub bytes: Bytes,
    /// When it was last sent.
    pub last: Option<Moment>,
    /// Milliseconds from the last sending to the next; 0 before the first.
    pub interval: u64,
    /// Whether the peer has acknowledged it.
    pub acknowledged: bool,
}

/// Which pieces are looked for.
#[derive(Clone, Copy)]
pub enum Wanted {
    /// Those that may be sent for the first time, where the peer's packet 0 is here or is not.
    Unsent(bool),
    /// Those that are due at a moment.
    Due(Moment),
}

/// A piece that was not sent yet.
pub fn fresh(bytes: Bytes) -> KeptPiece
    ensures { result ≡ seen 0 (unsent bytes) }
{
    KeptPiece {
        bytes,
        last: None,
        interval: 0,
        acknowledged: false,
    }
}

/// Empty room for the bytes of one piece.
#[derive(Drop)]
pub struct Room {
    bytes: Vec<u8>,
    ghost empty: { bytes.items ≡ [] },
    ghost large: { 1100 ≤ vec_capacity bytes },
}

impl Room {
    fn make(alloc: Global) -> Result<Room, NoMemory> {
        Ok(Room {
            bytes: Vec::with_capacity(alloc, MOST_BYTES)?,
        })
    }

    // The room with the bytes of a piece in it.
    fn filled(self, piece: &[u8]) -> Bytes
        requires { length piece.now ≤ 1100 }
        ensures { result ≡ piece.now }
    {
        let mut bytes = self.bytes;
        let added = bytes.extend_from_slice(piece);
        prove!(added.is_ok());
        let _ = added;
        Bytes::of(bytes)
    }
}

/// Makes room for so many more pieces: for their bytes, and for themselves in the list of pieces.
pub fn make_room(
    pieces: &mut Vec<KeptPiece>,
    spare: &mut Vec<Room>,
    count: usize,
) -> Result<(), NoMemory>
    ensures same { pieces.new.items ≡ pieces.old.items }
    ensures len { vec_len pieces.new ≡ vec_len pieces.old }
    ensures ok { OnOk result ((count ≤ vec_len spare.new) × (vec_len pieces.new + count ≤ vec_capacity pieces.new)) }
    ensures grows { (vec_len spare.old ≤ vec_len spare.new) × (vec_capacity pieces.old ≤ vec_capacity pieces.new) }
    ensures fits { count ≤ vec_len spare.old → vec_len pieces.old + count ≤ vec_capacity pieces.old → IsOk result }
{
    pieces.reserve(count)?;
    while spare.len() < count {
        spare.push(Room::make(*spare.allocator())?)?;
    }
    Ok(())
}

/// Adds the pieces that bytes are cut into, in room that is spare.
pub fn add_pieces(pieces: &mut Vec<KeptPiece>, spare: &mut Vec<Room>, bytes: &[u8])
    requires places { vec_len pieces.old + length (cut bytes.now) ≤ vec_capacity pieces.old }
    requires rooms { length (cut bytes.now) ≤ vec_len spare.old }
    ensures added { pieces.new.items ≡ pieces.old.items ++ map (λ b. seen 0 (unsent b)) (cut bytes.now) }
    ensures capacity { vec_capacity pieces.new ≡ vec_capacity pieces.old }
    ensures len { vec_len pieces.new ≡ vec_len pieces.old + length (cut bytes.now) }
    ensures rooms { vec_len spare.new + length (cut bytes.now) ≡ vec_len spare.old }
{
    let mut rest = bytes;
    while !rest.is_empty() {
        let size = rest.len().min(MOST_BYTES);
        let room = spare.take_last();
        pieces.push_reserved(fresh(room.filled(&rest[..size])));
        rest = &rest[size..];
    }
}

/// How many pieces so many bytes are.
pub fn count_pieces(bytes: usize) -> usize
    ensures { result ≡ piece_count bytes }
{
    bytes.div_ceil(MOST_BYTES)
}

/// How many pieces bytes are cut into.
pub fn count_cut(bytes: &[u8]) -> usize
    ensures { result ≡ length (cut bytes.now) }
{
    count_pieces(bytes.len())
}

/// The pieces that may be in flight.
pub fn window(pieces: &[KeptPiece]) -> &[KeptPiece]
    ensures { result.now ≡ take 6 pieces.now }
{
    &pieces[..pieces.len().min(WINDOW)]
}

fn is_past(last: Option<Moment>, interval: u64, now: Moment) -> bool
    ensures { result ≡ has_passed last interval now }
{
    match last {
        None => false,
        Some(last) => last.0 <= now.0 && interval <= now.0 - last.0,
    }
}

fn is_wanted(wanted: Wanted, id: u64, piece: &KeptPiece) -> bool
    ensures { result ≡ fits wanted id piece.now }
{
    match wanted {
        Wanted::Unsent(started) => piece.last.is_none() && (id == 0 || started),
        Wanted::Due(now) => !piece.acknowledged && is_past(piece.last, piece.interval, now),
    }
}

/// How many pieces of a window, the first of which has this id, are looked for.
pub fn count_found(wanted: Wanted, first: u64, pieces: &[KeptPiece]) -> u32
    requires few { length pieces.now ≤ 6 }
    requires ids_fit { first + length pieces.now ≤ 2 ^ 32 }
    ensures few { result ≤ 6 }
    ensures exact { result ≡ length (found wanted first pieces.now) }
{
    let mut count = 0;
    for (i, piece) in pieces.iter().enumerate() {
        if is_wanted(wanted, first + i as u64, piece) {
            count += 1;
        }
    }
    count
}

/// The first piece of a window, the first of which has this id, that is looked for.
pub fn find_first(wanted: Wanted, first: u64, pieces: &[KeptPiece]) -> Option<Piece<'_>>
    requires ids_fit { first + length pieces.now ≤ 2 ^ 32 }
    requires small { All IsSmall pieces.now }
    ensures exact { seen_piece result ≡ first_of (found wanted first pieces.now) }
    ensures small { IfSome result (λ p. length p.bytes.now ≤ 1100) }
{
    for (i, piece) in pieces.iter().enumerate() {
        let id = first + i as u64;
        if is_wanted(wanted, id, piece) {
            return Some(Piece {
                id: id as u32,
                bytes: piece.bytes.as_slice(),
            });
        }
    }
    None
}

fn interval_after(timeout: u32, last: Option<Moment>, interval: u64) -> u64
    ensures { result ≡ next_interval timeout last interval }
{
    match last {
        None => 1000 * u64::from(timeout),
        Some(_) => interval.saturating_mul(2).min(LONGEST),
    }
}

// The piece of this id is in the window, and may be sent or is due.
fn goes_out(pieces: &[KeptPiece], first: u64, started: bool, id: u64, now: Moment) -> bool
    ensures { result ≡ (is_among id (found (Unsent started) first pieces.now) || is_among id (found (Due now) first pieces.now)) }
{
    if id < first || pieces.len() as u64 <= id - first {
        return false;
    }
    let piece = &pieces[(id - first) as usize];
    is_wanted(Wanted::Unsent(started), id, piece) || is_wanted(Wanted::Due(now), id, piece)
}

/// Counts the piece of this id as sent once more, where it may be sent or is due.
pub fn count_where(
    pieces: &mut Vec<KeptPiece>,
    first: u64,
    started: bool,
    timeout: u32,
    id: u32,
    now: Moment,
)
    ensures counted { pieces.new.items ≡ counted_pieces started first timeout id now pieces.old.items }
    ensures room { (vec_len pieces.new ≡ vec_len pieces.old) × (vec_capacity pieces.new ≡ vec_capacity pieces.old) }
{
    let id = u64::from(id);
    if goes_out(window(pieces), first, started, id, now) {
        count_at(pieces, (id - first) as usize, timeout, now);
    }
}

// Counts the piece at a place as sent once more.
fn count_at(pieces: &mut Vec<KeptPiece>, place: usize, timeout: u32, now: Moment)
    requires { place < length pieces.old.items }
    ensures counted { pieces.new.items ≡ alter (count_one timeout now) place pieces.old.items }
    ensures room { (vec_len pieces.new ≡ vec_len pieces.old) × (vec_capacity pieces.new ≡ vec_capacity pieces.old) }
{
    let piece = &mut pieces[place];
    piece.interval = interval_after(timeout, piece.last, piece.interval);
    piece.last = Some(now);
}

/// Marks the piece at a place as acknowledged, if there is one and it was sent.
pub fn mark_at(pieces: &mut Vec<KeptPiece>, place: u64)
    ensures marked { pieces.new.items ≡ alter mark place pieces.old.items }
    ensures room { (vec_len pieces.new ≡ vec_len pieces.old) × (vec_capacity pieces.new ≡ vec_capacity pieces.old) }
{
    if place < pieces.len() as u64 {
        let piece = &mut pieces[place as usize];
        if piece.last.is_some() {
            piece.acknowledged = true;
        }
    }
}

/// Drops the acknowledged pieces in front of the first that is not acknowledged, and counts them.
pub fn drop_acknowledged(pieces: &mut Vec<KeptPiece>) -> u64
    ensures count { result ≡ leading pieces.old.items }
    ensures rest { pieces.new.items ≡ drop (leading pieces.old.items) pieces.old.items }
    ensures room { (vec_len pieces.new ≤ vec_len pieces.old) × (vec_capacity pieces.new ≡ vec_capacity pieces.old) }
{
    let mut count = 0;
    while !pieces.is_empty() && pieces[0].acknowledged {
        let _ = pieces.remove(0);
        count += 1;
    }
    count
}

/// How many bytes of the pieces are not acknowledged.
pub fn count_waiting(pieces: &[KeptPiece]) -> usize
    requires { waiting pieces.now ≤ 65536 }
    ensures { result ≡ waiting pieces.now }
{
    let mut count = 0;
    for piece in pieces {
        if !piece.acknowledged {
            count += piece.bytes.as_slice().len();
        }
    }
    count
}
