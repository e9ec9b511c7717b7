//! A schedule, read from its file.

ghost use Rattle.std.specs.Prelude.{◌≡◌, ◌<◌, ◌≤◌, ◌+◌, ◌^◌, ℕ, List, [], length, OnOk, IfOk, IfErr};
ghost use Rattle.vpn_base.specs.Answers.{IfWhy, Rose};
ghost use Rattle.vpn_base.specs.Files.{Absent, IsMissing};
ghost use Rattle.vpn_base.specs.declared.outside.FileFault.{FileFault};
ghost use Rattle.replay_links.specs.Fronts.{IsAll, IsFrontOf, ReadFrom};

use crate::reading::LONGEST_FILE;
use std::alloc::Global;
use vpn_base::{FileFault, Files, Or};

// How many bytes of the file are taken at a time.
const PIECE: usize = 65_536;

// How many bytes of the file are read: one more than it may have.
const MOST: usize = 1 + LONGEST_FILE as usize;

// Takes the next piece of the file, and adds it to those before it. It answers how many bytes it has.
fn read_piece<F: Files>(
    name: &[u8],
    files: &mut F,
    text: &mut Vec<u8>,
    buffer: &mut [u8],
) -> Result<usize, Or<FileFault>>
    requires { 0 < length buffer.old }
    ensures front { OnOk result (ReadFrom (F.holds files.old name.now) text.old.items → ReadFrom (F.holds files.old name.now) text.new.items) }
    ensures end { IfOk result (λ n. n ≡ 0 → ReadFrom (F.holds files.old name.now) text.old.items → IsAll (F.holds files.old name.now) text.new.items) }
    ensures more { IfOk result (λ n. length text.new.items ≡ length text.old.items + n) }
    ensures missing { IfErr result (λ e. IfWhy e (λ k. k ≡ FileFault.Missing → IsMissing (F.holds files.old name.now))) }
    ensures failed { IfErr result (λ e. IfWhy e (λ k. k ≡ FileFault.Failed → Rose (F.faults files.old) (F.faults files.new))) }
    ensures there { IfErr result (λ e. IfWhy e (λ k. k ≡ FileFault.Failed → ¬ (F.holds files.old name.now ≡ Absent))) }
    ensures kept { (n : List ℕ) → F.holds files.new n ≡ F.holds files.old n }
    ensures never_falls { F.faults files.old ≤ F.faults files.new }
{
    let at = text.as_slice().len() as u64;
    let n = match files.take(name, at, buffer) {
        Ok(n) => n,
        Err(fault) => return Err(Or::Why(fault)),
    };
    let Ok(()) = text.extend_from_slice(&buffer[..n]) else {
        return Err(Or::Memory);
    };
    Ok(n)
}

fn read_pieces<F: Files>(
    name: &[u8],
    files: &mut F,
    text: &mut Vec<u8>,
    buffer: &mut [u8],
) -> Result<(), Or<FileFault>>
    requires some { 0 < length buffer.old }
    requires none { text.old.items ≡ [] }
    ensures front { OnOk result (IsFrontOf (F.holds files.old name.now) text.new.items) }
    ensures missing { IfErr result (λ e. IfWhy e (λ k. k ≡ FileFault.Missing → IsMissing (F.holds files.old name.now))) }
    ensures failed { IfErr result (λ e. IfWhy e (λ k. k ≡ FileFault.Failed → Rose (F.faults files.old) (F.faults files.new))) }
    ensures there { IfErr result (λ e. IfWhy e (λ k. k ≡ FileFault.Failed → ¬ (F.holds files.old name.now ≡ Absent))) }
    ensures kept { (n : List ℕ) → F.holds files.new n ≡ F.holds files.old n }
    ensures never_falls { F.faults files.old ≤ F.faults files.new }
{
    while text.as_slice().len() < MOST {
        match read_piece(name, files, text, buffer) {
            Ok(0) => return Ok(()),
            Ok(_) => {}
            Err(fault) => return Err(fault),
        }
    }
    text.truncate(MOST);
    Ok(())
}

/// Reads a file to its end, or up to the byte that makes it too long.
pub(crate) fn read_file<F: Files>(
    alloc: Global,
    name: &[u8],
    files: &mut F,
) -> Result<Vec<u8>, Or<FileFault>>
    ensures front { IfOk result (λ text. IsFrontOf (F.holds files.old name.now) text.items) }
    ensures missing { IfErr result (λ e. IfWhy e (λ k. k ≡ FileFault.Missing → IsMissing (F.holds files.old name.now))) }
    ensures failed { IfErr result (λ e. IfWhy e (λ k. k ≡ FileFault.Failed → Rose (F.faults files.old) (F.faults files.new))) }
    ensures there { IfErr result (λ e. IfWhy e (λ k. k ≡ FileFault.Failed → ¬ (F.holds files.old name.now ≡ Absent))) }
    ensures kept { (n : List ℕ) → F.holds files.new n ≡ F.holds files.old n }
    ensures never_falls { F.faults files.old ≤ F.faults files.new }
{
    let Ok(mut buffer) = vec![in alloc; 0u8; PIECE] else {
        return Err(Or::Memory);
    };
    let mut text = Vec::new(alloc);
    match read_pieces(name, files, &mut text, &mut buffer) {
        Ok(()) => Ok(text),
        Err(fault) => Err(fault),
    }
}
