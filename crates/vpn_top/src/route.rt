//! The command `route`: what a route file prints.

ghost use Rattle.std.specs.Prelude.{◌≡◌, ◌+◌, ◌<◌, ◌≤◌, ◌^◌, ℕ, List, [], Option, length};
ghost use Rattle.vpn_base.specs.Files.{Holding};
ghost use Rattle.vpn_top.specs.internal.Going.{Going, IsEnd, IsNext, Settled};
ghost use Rattle.vpn_top.specs.internal.Ends.{Ended, Turned, Went, fault_of};

use crate::refusal::Refusal;
use crate::writing::write_all;
use route_file::{RouteFault, RouteReader};
use std::alloc::Global;
use vpn_base::{FileFault, Files, Or, Sink};

/// How many bytes of the file are taken at a time.
const PIECE: usize = 65_536;

// What a turn came to.
#[derive(Drop)]
pub(crate) enum Turn {
    // So many bytes more were read, and what their lines print was written: the reader goes on.
    More(RouteReader, usize),
    // The run has ended, by a refusal or by none.
    End(Option<Refusal>),
}

// Writes the last text of the output, with the fault that the file has.
fn settle<S: Sink>(text: &[u8], fault: Option<RouteFault>, out: &mut S) -> Option<Refusal>
    ensures ended { (holding : Holding) (before : Option (List ℕ)) (files_before files_after : ℕ) →
        Settled holding before (S.contents out.old) text.now (fault_of fault) →
        Ended result holding before (S.contents out.new)
        (record { files_before = files_before; files_after = files_after; out_before = S.faults out.old; out_after = S.faults out.new }) }
    ensures never_falls { S.faults out.old ≤ S.faults out.new }
{
    match write_all(out, text) {
        Ok(()) => match fault {
            None => None,
            Some(fault) => Some(Refusal::Line(fault)),
        },
        Err(_) => Some(Refusal::Output),
    }
}

// Reads the last line, at the end of the file, and writes what it prints.
fn finish<S: Sink>(alloc: Global, reader: RouteReader, out: &mut S) -> Option<Refusal>
    ensures ended { (holding : Holding) (before : Option (List ℕ)) (at files_before files_after : ℕ) →
        IsEnd holding at → Going holding before (S.contents out.old) at reader →
        Ended result holding before (S.contents out.new)
        (record { files_before = files_before; files_after = files_after; out_before = S.faults out.old; out_after = S.faults out.new }) }
    ensures never_falls { S.faults out.old ≤ S.faults out.new }
{
    match reader.finish(alloc) {
        Ok(text) => settle(text.as_bytes(), None, out),
        Err(Or::Why(refused)) => settle(refused.printed.as_bytes(), Some(refused.fault), out),
        Err(Or::Memory) => Some(Refusal::NoMemory),
    }
}

// Reads a piece of the file, and writes what its lines print.
fn read_piece<S: Sink>(alloc: Global, piece: &[u8], reader: RouteReader, out: &mut S) -> Turn
    ensures turned { (holding : Holding) (before : Option (List ℕ)) (at files_before files_after : ℕ) →
        IsNext holding at piece.now → Going holding before (S.contents out.old) at reader →
        Turned result holding before (S.contents out.new) at
        (record { files_before = files_before; files_after = files_after; out_before = S.faults out.old; out_after = S.faults out.new }) }
    ensures more { Went result (λ next n. (n ≡ length piece.now)
        × (next.bytes + length next.kept ≡ reader.bytes + length reader.kept + n)
        × (next.bytes + length next.kept ≤ 2 ^ 40)) }
    ensures never_falls { S.faults out.old ≤ S.faults out.new }
{
    match reader.feed(alloc, piece) {
        Ok(mut reader) => match write_all(out, reader.printed()) {
            Ok(()) => {
                reader.clear_printed();
                Turn::More(reader, piece.len())
            }
            Err(_) => Turn::End(Some(Refusal::Output)),
        },
        Err(Or::Why(refused)) => Turn::End(settle(
            refused.printed.as_bytes(),
            Some(refused.fault),
            out,
        )),
        Err(Or::Memory) => Turn::End(Some(Refusal::NoMemory)),
    }
}

// Takes the next piece of the file, reads it, and writes what its lines print.
fn take_turn<F: Files, S: Sink>(
    alloc: Global,
    name: &[u8],
    files: &mut F,
    out: &mut S,
    reader: RouteReader,
    at: u64,
    buffer: &mut [u8],
) -> Turn
    requires { 0 < length buffer.old }
    ensures turned { (before : Option (List ℕ)) → Going (F.holds files.old name.now) before (S.contents out.old) at reader →
        Turned result (F.holds files.old name.now) before (S.contents out.new) at
        (record { files_before = F.faults files.old; files_after = F.faults files.new; out_before = S.faults out.old; out_after = S.faults out.new }) }
    ensures more { Went result (λ next n. (0 < n)
        × (next.bytes + length next.kept ≡ reader.bytes + length reader.kept + n)
        × (next.bytes + length next.kept ≤ 2 ^ 40)) }
    ensures kept { (other : List ℕ) → F.holds files.new other ≡ F.holds files.old other }
    ensures files_never_fall { F.faults files.old ≤ F.faults files.new }
    ensures out_never_falls { S.faults out.old ≤ S.faults out.new }
{
    match files.take(name, at, buffer) {
        Ok(0) => Turn::End(finish(alloc, reader, out)),
        Ok(n) => read_piece(alloc, &buffer[..n], reader, out),
        Err(FileFault::Missing) => Turn::End(Some(Refusal::Missing)),
        Err(FileFault::Failed) => Turn::End(Some(Refusal::Unreadable)),
    }
}

fn route_pieces<F: Files, S: Sink>(
    alloc: Global,
    name: &[u8],
    files: &mut F,
    out: &mut S,
    buffer: &mut [u8],
) -> Option<Refusal>
    requires { 0 < length buffer.old }
    ensures ended { Ended result (F.holds files.old name.now) (S.contents out.old) (S.contents out.new)
        (record { files_before = F.faults files.old; files_after = F.faults files.new; out_before = S.faults out.old; out_after = S.faults out.new }) }
    ensures kept { (other : List ℕ) → F.holds files.new other ≡ F.holds files.old other }
    ensures files_never_fall { F.faults files.old ≤ F.faults files.new }
    ensures out_never_falls { S.faults out.old ≤ S.faults out.new }
{
    let mut reader = RouteReader::new(alloc);
    let mut at: u64 = 0;
    loop {
        match take_turn(alloc, name, files, out, reader, at, buffer) {
            Turn::More(next, n) => {
                reader = next;
                at += n as u64;
            }
            Turn::End(refusal) => return refusal,
        }
    }
}

/// Reads the route file of this name and writes what it prints. The refusal says why it was not
/// read to its end, or not written.
pub(crate) fn route<F: Files, S: Sink>(
    alloc: Global,
    name: &[u8],
    files: &mut F,
    out: &mut S,
) -> Option<Refusal>
    ensures ended { Ended result (F.holds files.old name.now) (S.contents out.old) (S.contents out.new)
        (record { files_before = F.faults files.old; files_after = F.faults files.new; out_before = S.faults out.old; out_after = S.faults out.new }) }
    ensures kept { (other : List ℕ) → F.holds files.new other ≡ F.holds files.old other }
    ensures files_never_fall { F.faults files.old ≤ F.faults files.new }
    ensures out_never_falls { S.faults out.old ≤ S.faults out.new }
{
    let Ok(mut buffer) = vec![in alloc; 0u8; PIECE] else {
        return Some(Refusal::NoMemory);
    };
    route_pieces(alloc, name, files, out, &mut buffer)
}
