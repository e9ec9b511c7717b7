//! Reading the lines of a schedule.

ghost use Rattle.std.specs.Prelude.{◌≡◌, ◌<◌, ◌^◌, ◌==◌, IfOk, Result};
ghost use Rattle.std.specs.Option.{option_copied};
ghost use Rattle.vpn_base.specs.Answers.{Answers};
ghost use Rattle.vpn_base.specs.WordCount.{are_none, one_of};
ghost use Rattle.vpn_links.specs.Rounds.{IsOfLine};
ghost use Rattle.schedule_text.specs.Draws.{draw_of};
ghost use Rattle.schedule_text.specs.EventLine.{IsInBounds, at_line, end_line, event_line, header_line, schedule_command, seed_line, timed};
ghost use Rattle.schedule_text.specs.internal.Arguments.{arguments_of};

use crate::draws::draw;
use crate::event_line::{LATEST_MOMENT, Line};
use crate::event_words::{is_end, read_kind};
use crate::kind::TextKind;
use crate::route_line::LONGEST_LINE;
use crate::words::{next_word, one_word};
use std::alloc::Global;
use vpn_base::{Moment, Or, read_number, split_once};
use vpn_links::{Event, Kind};

type Read = Result<Line, Or<TextKind>>;

// The event of a moment and of what comes, if both are there.
fn timed(ms: Option<u64>, kind: Result<Kind, Or<TextKind>>, number: u64, seed: u64) -> Read
    requires { number < 2 ^ 63 }
    ensures exact { (wanted : Result Kind TextKind) → Answers kind wanted → Answers result (timed ms wanted (draw_of seed number)) }
    ensures bounded { IfOk kind IsOfLine → IfOk result IsInBounds }
{
    match kind {
        Err(Or::Memory) => Err(Or::Memory),
        Err(Or::Why(TextKind::Long)) => Err(Or::Why(TextKind::Long)),
        Err(Or::Why(TextKind::Words)) => Err(Or::Why(TextKind::Words)),
        Err(Or::Why(e)) => match ms {
            None => Err(Or::Why(TextKind::Number)),
            Some(_) => Err(Or::Why(e)),
        },
        Ok(kind) => match ms {
            None => Err(Or::Why(TextKind::Number)),
            Some(ms) => Ok(Line::Step(Event {
                now: Moment(ms),
                draw: draw(number, seed),
                kind,
            })),
        },
    }
}

fn read_at(alloc: Global, arguments: Option<&[u8]>, number: u64, seed: u64) -> Read
    requires { number < 2 ^ 63 }
    ensures exact { Answers result (at_line (arguments_of (option_copied arguments.entry)) (draw_of seed number)) }
    ensures bounded { IfOk result IsInBounds }
{
    let Some((ms, rest)) = next_word(arguments) else {
        return Err(Or::Why(TextKind::Words));
    };
    let Some((word, rest)) = next_word(rest) else {
        return Err(Or::Why(TextKind::Words));
    };
    let kind = read_kind(alloc, word, rest);
    timed(read_number(ms, LATEST_MOMENT), kind, number, seed)
}

fn read_end(arguments: Option<&[u8]>) -> Read
    ensures exact { Answers result (end_line (are_none (arguments_of (option_copied arguments.entry)))) }
    ensures bounded { IfOk result IsInBounds }
{
    if is_end(arguments) {
        Ok(Line::End)
    } else {
        Err(Or::Why(TextKind::Words))
    }
}

fn read_header(arguments: Option<&[u8]>) -> Read
    ensures exact { Answers result (header_line (one_of (arguments_of (option_copied arguments.entry)))) }
    ensures bounded { IfOk result IsInBounds }
{
    let Some(word) = one_word(arguments) else {
        return Err(Or::Why(TextKind::Words));
    };
    if word == b"1".as_slice() {
        Ok(Line::Header)
    } else {
        Err(Or::Why(TextKind::Words))
    }
}

fn read_seed(arguments: Option<&[u8]>) -> Read
    ensures exact { Answers result (seed_line (one_of (arguments_of (option_copied arguments.entry)))) }
    ensures bounded { IfOk result IsInBounds }
{
    let Some(word) = one_word(arguments) else {
        return Err(Or::Why(TextKind::Words));
    };
    let Some(n) = read_number(word, u64::MAX) else {
        return Err(Or::Why(TextKind::Number));
    };
    Ok(Line::Seed(n))
}

#[tactic(auto, unfolding(crate::specs::EventLine::schedule_command))]
fn read_command(
    alloc: Global,
    word: &[u8],
    arguments: Option<&[u8]>,
    number: u64,
    seed: u64,
) -> Read
    requires { number < 2 ^ 63 }
    ensures exact { Answers result (schedule_command word.now (arguments_of (option_copied arguments.entry)) (draw_of seed number)) }
    ensures bounded { IfOk result IsInBounds }
{
    if word == b"at".as_slice() {
        return read_at(alloc, arguments, number, seed);
    }
    if word == b"end".as_slice() {
        return read_end(arguments);
    }
    if word == b"vpn-schedule".as_slice() {
        return read_header(arguments);
    }
    if word == b"seed".as_slice() {
        return read_seed(arguments);
    }
    Err(Or::Why(TextKind::Words))
}

/// The line of a schedule that a text without its end spells. `number` is that of the event which the line may
/// spell, from 0, and its random bytes come of it and of the seed. A refusal is the first fault of the line in
/// the order of `TextKind`'s page: Long above 140,000 bytes, and where a HEX word has more than 131,072
/// characters, then Words, Number, Address, Digits.
#[tactic(auto, unfolding(crate::specs::EventLine::event_line))]
pub fn read_event_line(
    alloc: Global,
    line: &[u8],
    number: u64,
    seed: u64,
) -> Result<Line, Or<TextKind>>
    requires { number < 2 ^ 63 }
    ensures exact { Answers result (event_line line.now number seed) }

    // A datagram has at most 65,536 bytes.
    ensures bounded { IfOk result IsInBounds }
{
    if line.len() > LONGEST_LINE {
        return Err(Or::Why(TextKind::Long));
    }
    if line.is_empty() || line[0] == b'#' {
        return Ok(Line::Blank);
    }
    match split_once(line, b' ') {
        None => read_command(alloc, line, None, number, seed),
        Some((word, arguments)) => read_command(alloc, word, Some(arguments), number, seed),
    }
}
