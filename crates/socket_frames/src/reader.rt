//! A reader that takes a stream in pieces.

ghost use Rattle.std.specs.Prelude.{◌≡◌, ◌<◌, ◌≤◌, ◌+◌, List, ℕ, ◌++◌, length, drop, IfOk, IfSome, OnOk, OnErr, Some, false};
ghost use Rattle.std.specs.List.{concat};
ghost use Rattle.vpn_base.specs.Answers.{Answers};
ghost use Rattle.socket_frames.specs.Frames.{Begins, Whole, front, held, reading};
ghost use Rattle.socket_frames.specs.Streams.{Stands, Stream, after_next, fed_more, next_of, stream_begun};
ghost use Rattle.socket_frames.specs.internal.Search.{IsRead, found};
ghost use Rattle.socket_frames.specs.declared.frames.FrameFault.{FrameFault};

use crate::frames::{Frame, FrameFault, HEAD};
use byteorder::{BigEndian, ByteOrder};
use std::alloc::Global;
use std::marker::Model;
use vpn_base::{Bytes, NoMemory, Or};

const LONGEST: usize = 65_536;

const SHORTEST: usize = 9;

/// A reader of frames. Contracts see the bytes that it keeps, those behind the frames that it gave.
#[derive(Drop)]
pub struct FrameReader {
    alloc: Global,
    bytes: Vec<u8>,
    start: usize,
}

impl Model for FrameReader {
    ghost use Rattle.std.specs.Prelude.{ℕ, List, ◌≤◌, length, drop};

    ghost Value = { List ℕ };

    ghost view = { λ r. drop r.start r.bytes.items };

    ghost invariant = { λ r. r.start ≤ length r.bytes.items };
}

impl FrameReader {
    /// A reader at the beginning of a stream.
    pub fn new(alloc: Global) -> FrameReader
        ensures { Stands result stream_begun }
    {
        FrameReader {
            alloc,
            bytes: Vec::new(alloc),
            start: 0,
        }
    }

    /// Takes the next piece of the stream. After want of memory the reader is as before.
    pub fn feed(&mut self, piece: &[u8]) -> Result<(), NoMemory>
        ensures ok { OnOk result ((s : Stream) → Stands self.old s → Stands self.new (fed_more s piece.now)) }
        ensures err { OnErr result ((s : Stream) → Stands self.old s → Stands self.new s) }
    {
        compact(self.alloc, &mut self.bytes, &mut self.start)?;
        self.bytes.extend_from_slice(piece)?;
        Ok(())
    }

    /// The next frame of the stream, which is None where it is not whole yet and nothing is wrong with it so
    /// far. A fault comes as soon as the field is whole that is wrong: the length, which is judged first, or
    /// the kind. The same fault comes from then on. After want of memory the reader is as before.
    pub fn next_frame(&mut self) -> Result<Option<Frame>, Or<FrameFault>>
        ensures answer { (s : Stream) → Stands self.old s → Answers result (next_of s) }
        ensures stands { (s : Stream) → Stands self.old s → Stands self.new (after_next result s) }
        ensures shorter { IfOk result (λ o. IfSome o (λ _. length self.new < length self.old)) }
    {
        let left = behind(&self.bytes, self.start);
        match whole_at(left) {
            Err(fault) => Err(Or::Why(fault)),
            Ok(None) => Ok(None),
            Ok(Some(size)) => {
                let frame = copy_frame(self.alloc, left, size)?;
                self.start += HEAD + size;
                Ok(Some(frame))
            }
        }
    }
}

fn behind(bytes: &[u8], start: usize) -> &[u8]
    requires { start ≤ length bytes.now }
    ensures { result.now ≡ drop start bytes.now }
{
    &bytes[start..]
}

// Lets go of what stands before the start.
fn compact(alloc: Global, bytes: &mut Vec<u8>, start: &mut usize) -> Result<(), NoMemory>
    requires { start.old ≤ length bytes.old.items }
    ensures ok { OnOk result ((bytes.new.items ≡ drop start.old bytes.old.items) × (start.new ≡ 0)) }
    ensures err { OnErr result ((bytes.new.items ≡ bytes.old.items) × (start.new ≡ start.old)) }
{
    if *start == 0 {
        return Ok(());
    }
    let left = Vec::from_slice(alloc, &bytes[*start..])?;
    *bytes = left;
    *start = 0;
    Ok(())
}

// Whether a whole frame stands at the front, and the size of its body.
#[tactic(auto, unfolding(crate::specs::Frames::front))]
fn whole_at(bytes: &[u8]) -> Result<Option<usize>, FrameFault>
    ensures same { front bytes.now ≡ found bytes.now result }
    ensures within { IfOk result (λ o. IfSome o (λ size. 13 + size ≤ length bytes.now)) }
{
    if bytes.len() < 4 {
        return Ok(None);
    }
    let length = BigEndian::read_u32(bytes) as usize;
    if length > LONGEST {
        return Err(FrameFault::TooLong);
    }
    if length < SHORTEST {
        return Err(FrameFault::TooShort);
    }
    if bytes.len() < 5 {
        return Ok(None);
    }
    if bytes[4] < 1 || bytes[4] > 6 {
        return Err(FrameFault::BadKind);
    }
    let size = length - SHORTEST;
    if bytes.len() < HEAD + size {
        return Ok(None);
    }
    Ok(Some(size))
}

// The frame at the front, whose body has this size.
fn copy_frame(alloc: Global, bytes: &[u8], size: usize) -> Result<Frame, NoMemory>
    requires { 13 + size ≤ length bytes.now }
    ensures { IfOk result (λ f. held bytes.now size false ≡ Whole f (drop (13 + size) bytes.now)) }
{
    let body = Bytes::copy(alloc, &bytes[HEAD..HEAD + size])?;
    Ok(Frame {
        kind: bytes[4],
        conn: BigEndian::read_u64(&bytes[5..]),
        body,
    })
}

/// What is read of a stream.
#[derive(Drop)]
pub struct Frames {
    /// Its frames, in their order.
    pub frames: Vec<Frame>,
    /// The fault at which they end, if there is one.
    pub fault: Option<FrameFault>,
}

/// What is read of a stream that comes in these pieces. It is what is read of the whole, wherever the stream
/// was cut.
pub fn read_frames(alloc: Global, pieces: &[Bytes]) -> Result<Frames, NoMemory>
    ensures frames { IfOk result (λ r. r.frames.items ≡ (reading (concat pieces.now)).frames) }
    ensures fault { IfOk result (λ r. r.fault ≡ (reading (concat pieces.now)).fault) }
{
    let mut reader = FrameReader::new(alloc);
    let mut frames = Vec::new(alloc);
    let mut fault = None;
    for piece in pieces {
        reader.feed(piece.as_slice())?;
        fault = take_whole(&mut reader, &mut frames)?;
    }
    Ok(Frames { frames, fault })
}

// Takes every frame that is whole, and answers the fault behind them, if there is one.
fn take_whole(
    reader: &mut FrameReader,
    frames: &mut Vec<Frame>,
) -> Result<Option<FrameFault>, NoMemory>
    ensures { IfOk result (λ fault. (fed : List ℕ) → Stands reader.old (record { fed = fed; given = frames.old.items }) → IsRead reader.new fed frames.new.items fault) }
{
    loop {
        match reader.next_frame() {
            Ok(Some(frame)) => frames.push(frame)?,
            Ok(None) => return Ok(None),
            Err(refused) => {
                let fault = fault_of(refused)?;
                return Ok(Some(fault));
            }
        }
    }
}

fn fault_of(refused: Or<FrameFault>) -> Result<FrameFault, NoMemory>
    ensures { IfOk result (λ fault. refused ≡ Or.Why fault) }
{
    match refused {
        Or::Memory => Err(NoMemory),
        Or::Why(fault) => Ok(fault),
    }
}

/// What was read of a stream stays as more of it comes: frames may follow, and after a fault nothing does.
pub fn what_is_read_stays()
    ensures frames { (bytes more : List ℕ) → Begins (reading bytes).frames (reading (bytes ++ more)).frames }
    ensures fault { (bytes more : List ℕ) (k : FrameFault) → (reading bytes).fault ≡ Some k → reading (bytes ++ more) ≡ reading bytes }
{}
