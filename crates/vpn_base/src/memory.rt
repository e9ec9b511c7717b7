//! Files and sinks in memory, which tell everything and fail at the calls that they are told to.

ghost use Rattle.std.specs.Prelude.{◌≡◌, ℕ, ◌<◌, ◌≤◌, ◌+◌, ◌^◌, List, [], ◌∷◌, ◌++◌, length, take, drop, Some, Option, IfOk, IfErr, OnErr, Ok, Err};
ghost use Rattle.std.specs.Option.{option_copied, option_map_or};
ghost use Rattle.vpn_base.specs.Answers.{Rose};
ghost use Rattle.vpn_base.specs.Files.{Holding, Absent, Held, Copied, IsMissing};
ghost use Rattle.vpn_base.specs.Sink.{appended};
ghost use Rattle.vpn_base.specs.Memory.{holding, given, answer_of, placed, after_take, accepted, after_write, counted, is_failing};

use crate::bytes::{Bytes, Text};
use crate::errors::NoMemory;
use crate::outside::{Failed, FileFault, Files, Sink};
use std::alloc::Global;
use std::marker::Model;

/// Files in memory.
#[derive(Drop)]
pub struct MemFiles {
    held: Vec<(Text, Bytes)>,
    failing: Vec<u64>,
    calls: u64,
    faults: u64,
}

impl Model for MemFiles {
    ghost use Rattle.vpn_base.specs.Memory.{FileStore};

    ghost Value = { FileStore };

    ghost view = { λ m. record { held = m.held.items; failing = m.failing.items; calls = m.calls; faults = m.faults } };
}

impl MemFiles {
    /// Files with these names, which fail at the calls of these numbers, counted from 0. Of equal
    /// names the first one counts.
    pub fn new(held: Vec<(Text, Bytes)>, failing: Vec<u64>) -> MemFiles
        ensures { result ≡ record { held = held.items; failing = failing.items; calls = 0; faults = 0 } }
    {
        MemFiles {
            held,
            failing,
            calls: 0,
            faults: 0,
        }
    }
}

fn count_up(count: u64) -> u64
    ensures { result ≡ counted count }
{
    count.saturating_add(1)
}

fn is_among(numbers: &[u64], number: u64) -> bool
    ensures { result ≡ is_failing numbers.now number }
{
    numbers.iter().any(|k| *k == number)
}

fn find<'a>(held: &'a [(Text, Bytes)], name: &[u8]) -> Option<&'a Bytes>
    ensures { holding held.now name.now ≡ option_map_or (λ bytes. Held bytes) (option_copied result) Absent }
{
    for (known, bytes) in held {
        if known.as_slice() == name {
            return Some(bytes);
        }
    }
    None
}

// Copies from the place `at` on as much as there is room for, and answers how much.
fn copy_from(bytes: &[u8], at: u64, into: &mut [u8]) -> usize
    ensures count { result ≡ length (take (length into.old) (drop at bytes.now)) }
    ensures copied { into.new ≡ take (length into.old) (drop at bytes.now) ++ drop result into.old }
{
    if at >= bytes.len() as u64 {
        return 0;
    }
    let rest = &bytes[at as usize..];
    let n = rest.len().min(into.len());
    into[..n].copy_from_slice(&rest[..n]);
    n
}

impl Files for MemFiles {
    ghost holds = { λ m name. holding m.held name };

    ghost faults = { λ m. m.faults };

    fn take(&mut self, name: &[u8], at: u64, into: &mut [u8]) -> Result<usize, FileFault>
        ensures within { IfOk result (λ n. n ≤ length into.old) }
        ensures copied { IfOk result (λ n. Copied (holding self.old.held name.now) at n into.new) }
        ensures missing { IfErr result (λ e. e ≡ FileFault.Missing → IsMissing (holding self.old.held name.now)) }
        ensures absent { holding self.old.held name.now ≡ Absent → result ≡ Err FileFault.Missing }
        ensures failed { IfErr result (λ e. e ≡ FileFault.Failed → Rose self.old.faults self.new.faults) }
        ensures kept { (n : List ℕ) → holding self.new.held n ≡ holding self.old.held n }
        ensures never_falls { self.old.faults ≤ self.new.faults }

        ensures answer { result ≡ answer_of (given self.old name.now at (length into.old)) }
        ensures buffer { into.new ≡ placed (given self.old name.now at (length into.old)) into.old }
        ensures after { self.new ≡ after_take self.old (given self.old name.now at (length into.old)) }
    {
        let fails = is_among(&self.failing, self.calls);
        self.calls = count_up(self.calls);
        match find(&self.held, name) {
            None => Err(FileFault::Missing),
            Some(bytes) => {
                if fails {
                    self.faults = count_up(self.faults);
                    Err(FileFault::Failed)
                } else {
                    Ok(copy_from(bytes.as_slice(), at, into))
                }
            }
        }
    }
}

/// A sink in memory, with room for so many bytes.
#[derive(Drop)]
pub struct MemSink {
    held: Vec<u8>,
    room: usize,
    failing: Vec<u64>,
    calls: u64,
    faults: u64,
}

impl Model for MemSink {
    ghost use Rattle.std.specs.Prelude.{◌≤◌, vec_len, vec_capacity};
    ghost use Rattle.vpn_base.specs.Memory.{SinkStore};

    ghost Value = { SinkStore };

    ghost view = { λ m. record { held = m.held.items; room = m.room; failing = m.failing.items; calls = m.calls; faults = m.faults } };

    ghost invariant = { λ m. (vec_len m.held ≤ m.room) × (m.room ≤ vec_capacity m.held) };
}

impl MemSink {
    /// A sink with room for so many bytes, which fails at the calls of these numbers, counted
    /// from 0. The room is taken now.
    pub fn new(alloc: Global, room: usize, failing: Vec<u64>) -> Result<MemSink, NoMemory>
        ensures { IfOk result (λ s. s ≡ record { held = []; room = room; failing = failing.items; calls = 0; faults = 0 }) }
    {
        Ok(MemSink {
            held: Vec::with_capacity(alloc, room)?,
            room,
            failing,
            calls: 0,
            faults: 0,
        })
    }

    /// What was written.
    pub fn held(&self) -> &[u8]
        ensures { result.now ≡ self.now.held }
    {
        self.held.as_slice()
    }
}

impl Sink for MemSink {
    ghost contents = { λ m. Some m.held };

    ghost faults = { λ m. m.faults };

    fn write(&mut self, piece: &[u8]) -> Result<usize, Failed>
        ensures within { IfOk result (λ n. n ≤ length piece.now) }
        ensures some { IfOk result (λ n. 0 < length piece.now → 0 < n) }
        ensures written { IfOk result (λ n. Some self.new.held ≡ appended (Some self.old.held) (take n piece.now)) }
        ensures unchanged { OnErr result (Some self.new.held ≡ Some self.old.held) }
        ensures failed { OnErr result (Rose self.old.faults self.new.faults) }
        ensures never_falls { self.old.faults ≤ self.new.faults }

        ensures answer { result ≡ accepted self.old piece.now }
        ensures after { self.new ≡ after_write self.old piece.now }
    {
        let left = self.room - self.held.len();
        let fails = left == 0 || is_among(&self.failing, self.calls);
        self.calls = count_up(self.calls);
        if fails {
            self.faults = count_up(self.faults);
            return Err(Failed);
        }
        let n = piece.len().min(left);
        let added = self.held.extend_from_slice(&piece[..n]);
        prove!(added.is_ok());
        let _ = added;
        Ok(n)
    }
}
