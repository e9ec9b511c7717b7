//! Reading a schedule, line by line.

ghost use Rattle.std.specs.Prelude.{◌≡◌, ◌+◌, ◌<◌, ◌≤◌, ◌^◌, false, None, Result, IfOk};
ghost use Rattle.vpn_base.specs.Answers.{Answers};
ghost use Rattle.schedule_text.specs.Words.{words_of};
ghost use Rattle.schedule_text.specs.EventLine.{IsInBounds};
ghost use Rattle.replay_links.specs.Schedule.{at_events, at_first, at_seed, judged, names_seed, passed};
ghost use Rattle.replay_links.specs.internal.Taking.{taken_of};

use schedule_text::{Line, TextKind, draw, read_event_line};
use std::alloc::Global;
use vpn_base::{Moment, Or, split_once};
use vpn_links::{Event, Kind};

/// The longest schedule, in bytes, with the ends of its lines.
pub const LONGEST_FILE: u64 = 1 << 40;

/// A line that is refused, counted from 1, and its fault.
#[derive(Clone, Copy, Debug, PartialEq, Eq)]
pub struct LineFault {
    /// The number of the line. NoEnd has that of the last line, and 0 where there is no line.
    pub line: u64,
    /// Its fault.
    pub kind: TextKind,
}

// Where the next line stands that is not blank.
#[derive(Clone, Copy)]
pub(crate) enum Place {
    // At the beginning.
    First,
    // Behind the line that names the format.
    Seed,
    // Behind that.
    Events,
}

// What is known of the lines that were read.
#[derive(Clone, Copy)]
pub(crate) struct Reading {
    pub(crate) place: Place,
    pub(crate) seed: u64,
    // How many events they spelled.
    pub(crate) number: u64,
    // How many lines there were, and how many bytes they had, with their ends.
    pub(crate) line: u64,
    pub(crate) bytes: u64,
    // The moment of the last event.
    pub(crate) last: Moment,
}

// What a line that is right comes to.
#[derive(Drop)]
pub(crate) struct Taken {
    pub(crate) reading: Reading,
    pub(crate) event: Option<Event>,
    pub(crate) ends: bool,
}

fn names_seed(line: &[u8]) -> bool
    ensures { result ≡ names_seed (words_of line.now) }
{
    match split_once(line, b' ') {
        None => line == b"seed".as_slice(),
        Some((word, _)) => word == b"seed".as_slice(),
    }
}

type Read = Result<Line, Or<TextKind>>;

fn at_first(line: Read) -> Read
    ensures exact { (wanted : Result Line TextKind) → Answers line wanted → Answers result (at_first wanted) }
    ensures bounded { IfOk line IsInBounds → IfOk result IsInBounds }
{
    match line {
        Ok(Line::Blank) => Ok(Line::Blank),
        Ok(Line::Header) => Ok(Line::Header),
        Ok(_) => Err(Or::Why(TextKind::Header)),
        Err(Or::Memory) => Err(Or::Memory),
        Err(Or::Why(TextKind::Long)) => Err(Or::Why(TextKind::Long)),
        Err(Or::Why(_)) => Err(Or::Why(TextKind::Header)),
    }
}

fn at_seed(line: Read) -> Read
    ensures exact { (wanted : Result Line TextKind) → Answers line wanted → Answers result (at_seed wanted) }
    ensures bounded { IfOk line IsInBounds → IfOk result IsInBounds }
{
    match line {
        Ok(Line::Header) => Err(Or::Why(TextKind::Words)),
        Ok(line) => Ok(line),
        Err(e) => Err(e),
    }
}

fn at_events(is_seed: bool, line: Read) -> Read
    ensures exact { (wanted : Result Line TextKind) → Answers line wanted → Answers result (at_events is_seed wanted) }
    ensures bounded { IfOk line IsInBounds → IfOk result IsInBounds }
{
    if !is_seed {
        return at_seed(line);
    }
    match line {
        Ok(_) => Err(Or::Why(TextKind::Words)),
        Err(Or::Memory) => Err(Or::Memory),
        Err(Or::Why(TextKind::Long)) => Err(Or::Why(TextKind::Long)),
        Err(Or::Why(_)) => Err(Or::Why(TextKind::Words)),
    }
}

// The line of this size that has this content, where it stands.
pub(crate) fn judge(alloc: Global, reading: &Reading, size: u64, text: &[u8]) -> Read
    requires small { reading.now.bytes + size < 2 ^ 63 }
    requires few { reading.now.number ≤ reading.now.bytes }
    ensures exact { Answers result (judged reading.now size text.now) }
    ensures bounded { IfOk result IsInBounds }
{
    if reading.bytes + size > LONGEST_FILE {
        return Err(Or::Why(TextKind::Long));
    }
    let line = read_event_line(alloc, text, reading.number, reading.seed);
    match reading.place {
        Place::First => at_first(line),
        Place::Seed => at_seed(line),
        Place::Events => at_events(names_seed(text), line),
    }
}

fn pass(reading: &Reading, size: u64) -> Reading
    requires { (reading.now.bytes + size < 2 ^ 63) × (reading.now.line ≤ reading.now.bytes) }
    ensures { result ≡ passed reading.now size }
{
    Reading {
        place: reading.place,
        seed: reading.seed,
        number: reading.number,
        line: reading.line + 1,
        bytes: reading.bytes + size,
        last: reading.last,
    }
}

// A line that spells no event.
fn without_event(reading: Reading) -> Taken
    ensures { result ≡ record { reading = reading; event = None; ends = false } }
{
    Taken {
        reading,
        event: None,
        ends: false,
    }
}

// What is known behind a line that is right, and its event.
pub(crate) fn take(reading: &Reading, size: u64, line: Line) -> Taken
    requires small { reading.now.bytes + size < 2 ^ 63 }
    requires few { (reading.now.number ≤ reading.now.bytes) × (reading.now.line ≤ reading.now.bytes) }
    ensures { result ≡ taken_of reading.now size line }
{
    let mut next = pass(reading, size);
    match line {
        Line::Blank => without_event(next),
        Line::Header => {
            next.place = Place::Seed;
            without_event(next)
        }
        Line::Seed(seed) => {
            next.place = Place::Events;
            next.seed = seed;
            without_event(next)
        }
        Line::Step(event) => {
            next.place = Place::Events;
            next.number += 1;
            next.last = event.now;
            Taken {
                reading: next,
                event: Some(event),
                ends: false,
            }
        }
        Line::End => Taken {
            reading: next,
            event: Some(Event {
                now: reading.last,
                draw: draw(reading.number, reading.seed),
                kind: Kind::Halt,
            }),
            ends: true,
        },
    }
}
