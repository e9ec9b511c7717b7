//! Frames in pieces, and what is wrong with some.

use socket_frames::{FrameFault, FrameReader, read_frames, write_frame};
use std::alloc::Global;
use std::test::Fail;
use vpn_base::{Bytes, NoMemory};

const FRAME: [u8; 18] = [
    0, 0, 0, 14, 1, 0, 0, 0, 0, 0, 0, 0, 7, b'h', b'e', b'l', b'l', b'o',
];

#[test]
fn a_frame_comes_in_pieces(rt: HostRuntime) -> Result<(), Fail> {
    let alloc = rt.alloc();
    let bytes = write_frame(alloc, 1, 7, b"hello")?;
    assert_eq!(rt; bytes.as_slice(), FRAME.as_slice());
    let mut reader = FrameReader::new(alloc);
    reader.feed(&FRAME[..17])?;
    assert!(rt; reader.next_frame()?.is_none());
    reader.feed(&FRAME[17..])?;
    let frame = reader.next_frame()?.ok_or("whole")?;
    assert_eq!(rt; frame.kind, 1);
    assert_eq!(rt; frame.conn, 7);
    assert_eq!(rt; frame.body.as_slice(), b"hello".as_slice());
    Ok(())
}

fn read(alloc: Global, rest: &[u8]) -> Result<(usize, Option<FrameFault>), NoMemory> {
    let mut pieces = Vec::new(alloc);
    pieces.push(Bytes::copy(alloc, &FRAME)?)?;
    pieces.push(Bytes::copy(alloc, rest)?)?;
    let read = read_frames(alloc, &pieces)?;
    Ok((read.frames.len(), read.fault))
}

#[test]
fn a_fault_comes_with_its_field(rt: HostRuntime) -> Result<(), Fail> {
    let alloc = rt.alloc();
    assert_eq!(rt; read(alloc, &[0, 1, 0, 1])?, (1, Some(FrameFault::TooLong)));
    assert_eq!(rt;
        read(alloc, &[0, 0, 0, 8])?,
        (1, Some(FrameFault::TooShort))
    );
    assert_eq!(rt;
        read(alloc, &[0, 0, 0, 9, 99])?,
        (1, Some(FrameFault::BadKind))
    );
    assert_eq!(rt; read(alloc, &[0, 1, 0, 0, 6])?, (1, None));
    Ok(())
}
