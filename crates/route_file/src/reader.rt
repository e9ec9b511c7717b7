//! The reader of a route file that comes in pieces.

ghost use Rattle.std.specs.Prelude.{◌≡◌, ◌+◌, ◌≤◌, ◌^◌, ◌<◌, [], ◌∷◌, ◌++◌, List, ℕ, length, Some, None, OnOk, IfOk, IfErr, MatchOption};
ghost use Rattle.std.specs.String.{string_bytes};
ghost use Rattle.route_file.specs.Output.{empty_table, printed_before, routes};
ghost use Rattle.route_file.specs.Progress.{outcome_with, Ends, Refuses};
ghost use Rattle.route_file.specs.internal.Within.{Faults, IsOneLine};

use crate::state::{LONGEST_FILE, RouteFault, State};
use schedule_text::{LONGEST_LINE, TextKind};
use std::alloc::Global;
use std::marker::Model;
use vpn_base::{Or, split_once};

/// A faulty line of a route file, and what was printed before it and not taken yet.
#[derive(Drop)]
pub struct Refused {
    /// What was printed.
    pub printed: String,
    /// The line and its fault.
    pub fault: RouteFault,
}

/// Reads a route file in pieces of any size, and holds what its lines have printed. Contracts see
/// how far it has come.
#[derive(Drop)]
pub struct RouteReader {
    state: State,
    kept: Vec<u8>,
}

impl Model for RouteReader {
    ghost use Rattle.route_file.specs.Progress.{Progress};
    ghost use Rattle.route_file.specs.internal.Within.{IsWithin};

    ghost Value = { Progress };

    ghost use Rattle.route_file.specs.internal.State.{progress_of};

    ghost view = { λ r. progress_of r.state r.kept.items };

    ghost invariant = { λ r. IsWithin (progress_of r.state r.kept.items) };
}

// The first line of a text without its line feed, and what stands behind that.
fn next_line(text: &[u8]) -> Option<(&[u8], &[u8])>
    ensures { MatchOption result
        (IsOneLine text.now)
        (λ parts. IsOneLine parts.0.now × (text.now ≡ parts.0.now ++ 10 ∷ parts.1.now)) }
{
    match split_once(text, b'\n') {
        None => None,
        Some((line, rest)) => Some((line, rest)),
    }
}

impl RouteReader {
    /// Nothing was read yet.
    pub fn new(alloc: Global) -> RouteReader
        ensures exact { result ≡ record { printed = []; table = empty_table; count = 0; bytes = 0; kept = [] } }
        ensures begun { (text : List ℕ) → outcome_with result text ≡ routes text }
    {
        RouteReader {
            state: State::new(alloc),
            kept: Vec::new(alloc),
        }
    }

    /// What the lines so far have printed since it was cleared.
    pub fn printed(&self) -> &[u8]
        ensures same { result.now ≡ self.now.printed }
        ensures first { (rest : List ℕ) → outcome_with self.now rest
            ≡ printed_before self.now.printed (outcome_with (record self.now { printed = [] }) rest) }
    {
        self.state.text.as_bytes()
    }

    /// Forgets what was printed.
    pub fn clear_printed(&mut self)
        ensures cleared { self.new ≡ record self.old { printed = [] } }
        ensures left { (rest : List ℕ) → outcome_with self.old rest ≡ printed_before self.old.printed (outcome_with self.new rest) }
    {
        self.state.text.clear();
    }

    // Takes the line that ends here: what was kept and this, without the line feed.
    fn end_line(&mut self, alloc: Global, end: &[u8]) -> Result<(), Or<RouteFault>>
        requires { IsOneLine end.now }
        ensures ok { OnOk result ((more : List ℕ) → outcome_with self.old (end.now ++ 10 ∷ more) ≡ outcome_with self.new more) }
        ensures fed { OnOk result (self.new.bytes + length self.new.kept ≡ self.old.bytes + length self.old.kept + length end.now + 1) }
        ensures refused { IfErr result (λ e. Faults e (λ line kind. (more : List ℕ) →
            Ends (outcome_with self.old (end.now ++ 10 ∷ more)) self.new.printed (Some (line, kind)))) }
    {
        let Ok(()) = self.kept.extend_from_slice(end) else {
            return Err(Or::Memory);
        };
        let taken = self.state.take_line(alloc, self.kept.as_slice(), true);
        self.kept.clear();
        taken
    }

    // Keeps the front of a line whose end has not come. It is refused as soon as the line or the
    // file can only be too long.
    fn keep(&mut self, front: &[u8]) -> Result<(), Or<RouteFault>>
        requires { IsOneLine front.now }
        ensures ok { OnOk result ((more : List ℕ) → outcome_with self.old (front.now ++ more) ≡ outcome_with self.new more) }
        ensures fed { OnOk result (self.new.bytes + length self.new.kept ≡ self.old.bytes + length self.old.kept + length front.now) }
        ensures small { OnOk result (self.new.bytes + length self.new.kept ≤ 2 ^ 40) }
        ensures refused { IfErr result (λ e. Faults e (λ line kind. (more : List ℕ) →
            Ends (outcome_with self.old (front.now ++ more)) self.new.printed (Some (line, kind)))) }
    {
        let long = self.kept.len() + front.len() > LONGEST_LINE + 1;
        let past = (self.kept.len() + front.len()) as u64 > LONGEST_FILE - self.state.bytes;
        if long || past {
            return Err(self.state.fault(TextKind::Long));
        }
        let Ok(()) = self.kept.extend_from_slice(front) else {
            return Err(Or::Memory);
        };
        Ok(())
    }

    // Reads the next piece of the file in place.
    fn read(&mut self, alloc: Global, piece: &[u8]) -> Result<(), Or<RouteFault>>
        ensures ok { OnOk result ((more : List ℕ) → outcome_with self.old (piece.now ++ more) ≡ outcome_with self.new more) }
        ensures fed { OnOk result (self.new.bytes + length self.new.kept ≡ self.old.bytes + length self.old.kept + length piece.now) }
        ensures small { OnOk result (self.new.bytes + length self.new.kept ≤ 2 ^ 40) }
        ensures refused { IfErr result (λ e. Faults e (λ line kind. (more : List ℕ) →
            Ends (outcome_with self.old (piece.now ++ more)) self.new.printed (Some (line, kind)))) }
    {
        let mut rest = piece;
        while let Some((line, behind)) = next_line(rest) {
            match self.end_line(alloc, line) {
                Ok(()) => rest = behind,
                Err(e) => return Err(e),
            }
        }
        self.keep(rest)
    }

    // Reads the last line in place, where no line feed ends it.
    fn read_last(&mut self, alloc: Global) -> Result<(), Or<RouteFault>>
        ensures ok { OnOk result (Ends (outcome_with self.old []) self.new.printed None) }
        ensures refused { IfErr result (λ e. Faults e (λ line kind.
            Ends (outcome_with self.old []) self.new.printed (Some (line, kind)))) }
    {
        if self.kept.is_empty() {
            return Ok(());
        }
        let taken = self.state.take_line(alloc, self.kept.as_slice(), false);
        self.kept.clear();
        taken
    }

    // What its lines have printed since it was cleared, which is all that is left of it.
    fn into_printed(self) -> String
        ensures { string_bytes result ≡ self.printed }
    {
        self.state.text
    }

    /// Reads the next piece of the file: each line that ends in it is judged and prints what it
    /// prints. The first faulty line is refused, with what was printed before it; after that and
    /// after want of memory there is no reader any more.
    pub fn feed(mut self, alloc: Global, piece: &[u8]) -> Result<RouteReader, Or<Refused>>
        ensures ok { IfOk result (λ reader. (more : List ℕ) → outcome_with self (piece.now ++ more) ≡ outcome_with reader more) }
        ensures fed { IfOk result (λ reader. reader.bytes + length reader.kept ≡ self.bytes + length self.kept + length piece.now) }
        ensures small { IfOk result (λ reader. reader.bytes + length reader.kept ≤ 2 ^ 40) }
        ensures refused { IfErr result (λ e. Refuses e (λ text line kind. (more : List ℕ) →
            Ends (outcome_with self (piece.now ++ more)) text (Some (line, kind)))) }
    {
        match self.read(alloc, piece) {
            Ok(()) => Ok(self),
            Err(Or::Memory) => Err(Or::Memory),
            Err(Or::Why(fault)) => Err(Or::Why(Refused {
                printed: self.into_printed(),
                fault,
            })),
        }
    }

    /// Reads the last line, where no line feed ends it, and answers what was printed and not taken
    /// yet: the file is then read whole. A faulty line is refused, with what was printed before it.
    pub fn finish(mut self, alloc: Global) -> Result<String, Or<Refused>>
        ensures ok { IfOk result (λ text. Ends (outcome_with self []) (string_bytes text) None) }
        ensures refused { IfErr result (λ e. Refuses e (λ text line kind.
            Ends (outcome_with self []) text (Some (line, kind)))) }
    {
        match self.read_last(alloc) {
            Ok(()) => Ok(self.into_printed()),
            Err(Or::Memory) => Err(Or::Memory),
            Err(Or::Why(fault)) => Err(Or::Why(Refused {
                printed: self.into_printed(),
                fault,
            })),
        }
    }
}
