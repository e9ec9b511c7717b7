//! The front of a file, read into a buffer.

ghost use Rattle.std.specs.Prelude.{◌≡◌, ◌<◌, ◌≤◌, ℕ, List, length, take, IfOk, IfErr};
ghost use Rattle.vpn_base.specs.Answers.{Rose};
ghost use Rattle.vpn_base.specs.Files.{Absent, IsMissing};
ghost use Rattle.vpn_top.specs.Configuration.{IsFrontOf};

use vpn_base::{FileFault, Files};

/// Reads a file from its beginning until it ends or the buffer is full, and answers how many bytes
/// were read.
pub(crate) fn read_front<F: Files>(
    name: &[u8],
    files: &mut F,
    buffer: &mut [u8],
) -> Result<usize, FileFault>
    requires { 0 < length buffer.old }
    ensures within { IfOk result (λ n. n ≤ length buffer.new) }
    ensures front { IfOk result (λ n. IsFrontOf (length buffer.old) (F.holds files.old name.now) (take n buffer.new)) }
    ensures missing { IfErr result (λ e. e ≡ FileFault.Missing → IsMissing (F.holds files.old name.now)) }
    ensures failed { IfErr result (λ e. e ≡ FileFault.Failed → (¬ (F.holds files.old name.now ≡ Absent)) × Rose (F.faults files.old) (F.faults files.new)) }
    ensures kept { (n : List ℕ) → F.holds files.new n ≡ F.holds files.old n }
    ensures never_falls { F.faults files.old ≤ F.faults files.new }
{
    let mut at = 0;
    while at < buffer.len() {
        match files.take(name, at as u64, &mut buffer[at..]) {
            Ok(0) => return Ok(at),
            Ok(n) => at += n,
            Err(fault) => return Err(fault),
        }
    }
    Ok(at)
}
