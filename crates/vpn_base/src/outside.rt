//! Files and sinks outside the program, with what a call of them can be relied on for.

ghost use Rattle.std.specs.Prelude.{◌≡◌, ℕ, ◌<◌, ◌≤◌, List, length, take, Option, IfOk, IfErr, OnErr, Ok, Err};
ghost use Rattle.vpn_base.specs.Answers.{Rose};
ghost use Rattle.vpn_base.specs.Files.{Holding, Absent, Copied, IsMissing};
ghost use Rattle.vpn_base.specs.Sink.{appended};

/// Why bytes of a file were not given.
#[derive(Clone, Copy, Debug, PartialEq, Eq)]
pub enum FileFault {
    /// There is no file of that name.
    Missing,
    /// It could not be read.
    Failed,
}

/// Files by their names.
pub trait Files {
    /// What each name holds, where that is told.
    ghost holds: { Self → List ℕ → Holding };

    /// How often a file could not be read.
    ghost faults: { Self → ℕ };

    /// Copies bytes of a file, from the place `at` on, and answers how many. 0 comes for a buffer
    /// that has room only at the end of the file. It changes nothing of what is held.
    fn take(&mut self, name: &[u8], at: u64, into: &mut [u8]) -> Result<usize, FileFault>
        ensures within { IfOk result (λ n. n ≤ length into.old) }
        ensures copied { IfOk result (λ n. Copied (holds self.old name.now) at n into.new) }
        ensures missing { IfErr result (λ e. e ≡ FileFault.Missing → IsMissing (holds self.old name.now)) }
        ensures absent { holds self.old name.now ≡ Absent → result ≡ Err FileFault.Missing }
        ensures failed { IfErr result (λ e. e ≡ FileFault.Failed → Rose (faults self.old) (faults self.new)) }
        ensures kept { (n : List ℕ) → holds self.new n ≡ holds self.old n }
        ensures never_falls { faults self.old ≤ faults self.new };
}

/// A sink took nothing of what was written to it.
#[derive(Clone, Copy, Debug, PartialEq, Eq)]
pub struct Failed;

/// Where bytes are written to.
pub trait Sink {
    /// What it holds, where that is told.
    ghost contents: { Self → Option (List ℕ) };

    /// How often a write failed.
    ghost faults: { Self → ℕ };

    /// Writes bytes from the front of the piece, and answers how many: at least one, if there are
    /// any.
    fn write(&mut self, piece: &[u8]) -> Result<usize, Failed>
        ensures within { IfOk result (λ n. n ≤ length piece.now) }
        ensures some { IfOk result (λ n. 0 < length piece.now → 0 < n) }
        ensures written { IfOk result (λ n. contents self.new ≡ appended (contents self.old) (take n piece.now)) }
        ensures unchanged { OnErr result (contents self.new ≡ contents self.old) }
        ensures failed { OnErr result (Rose (faults self.old) (faults self.new)) }
        ensures never_falls { faults self.old ≤ faults self.new };
}
