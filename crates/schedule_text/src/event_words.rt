//! What comes at an event, as the words of a schedule line spell it.

ghost use Rattle.std.specs.Prelude.{◌≡◌, ◌==◌, ◌≤◌, ◌+◌, length, IfOk, MatchResult, Ok, Err};
ghost use Rattle.std.specs.Option.{option_copied};
ghost use Rattle.vpn_base.specs.Answers.{Answers};
ghost use Rattle.vpn_base.specs.WordCount.{are_none, one_of};
ghost use Rattle.vpn_links.specs.Rounds.{IsOfLine};
ghost use Rattle.vpn_links.specs.declared.events.Kind.TheVariants as events;
ghost use Rattle.schedule_text.specs.EventLine.{answer_line, bytes_from, bytes_if, datagram_line, device_in_of, engine_down_line, engine_plain_of, engine_text_of, engine_up_line, file_line, held_of, kind_line, last_bytes, numbered_line, plain_answer, plain_line, rest_of, wide_of};
ghost use Rattle.schedule_text.specs.internal.Arguments.{arguments_of};

use crate::event_line::LONGEST_BYTES;
use crate::kind::TextKind;
use crate::words::{next_word, one_word, read_bytes};
use address_text::read_addr;
use std::alloc::Global;
use vpn_base::{Bytes, Cid, Conn, NoMemory, Or, Text, read_number};
use vpn_links::{FileAnswer, Kind};

type Read = Result<Kind, Or<TextKind>>;

fn read_wide(word: &[u8]) -> Option<u64>
    ensures { result ≡ wide_of word.now }
{
    read_number(word, u64::MAX)
}

// Whether no words are left.
pub(crate) fn is_end(rest: Option<&[u8]>) -> bool
    ensures { result ≡ are_none (arguments_of (option_copied rest.entry)) }
{
    match next_word(rest) {
        None => true,
        Some(_) => false,
    }
}

// The rest of a line, which may be nothing.
fn rest(rest: Option<&[u8]>) -> &[u8]
    ensures { result.now ≡ rest_of (arguments_of (option_copied rest.entry)) }
{
    match rest {
        None => &[],
        Some(text) => text,
    }
}

// The HEX word that stands last.
fn last_word(rest: Option<&[u8]>) -> Result<&[u8], TextKind>
    ensures same { MatchResult result
        (λ word. last_bytes (arguments_of (option_copied rest.entry)) ≡ Ok word.now)
        (λ e. last_bytes (arguments_of (option_copied rest.entry)) ≡ Err e) }
    ensures short { IfOk result (λ word. length word.now ≤ 131072) }
{
    let Some((word, more)) = next_word(rest) else {
        return Err(TextKind::Words);
    };
    if word.len() > LONGEST_BYTES {
        return Err(TextKind::Long);
    }
    if is_end(more) {
        Ok(word)
    } else {
        Err(TextKind::Words)
    }
}

fn read_datagram(alloc: Global, arguments: Option<&[u8]>) -> Read
    ensures exact { Answers result (datagram_line (arguments_of (option_copied arguments.entry))) }
    ensures bounded { IfOk result IsOfLine }
{
    let Some((from, rest)) = next_word(arguments) else {
        return Err(Or::Why(TextKind::Words));
    };
    let word = match last_word(rest) {
        Ok(word) => word,
        Err(e) => return Err(Or::Why(e)),
    };
    let Some(from) = read_addr(from) else {
        return Err(Or::Why(TextKind::Address));
    };
    let Ok(bytes) = read_bytes(alloc, word) else {
        return Err(Or::Memory);
    };
    let Some(bytes) = bytes else {
        return Err(Or::Why(TextKind::Digits));
    };
    Ok(Kind::Datagram { from, bytes })
}

// A number and bytes.
fn read_numbered(alloc: Global, arguments: Option<&[u8]>) -> Result<(u64, Bytes), Or<TextKind>>
    ensures { Answers result (numbered_line (arguments_of (option_copied arguments.entry))) }
{
    let Some((n, rest)) = next_word(arguments) else {
        return Err(Or::Why(TextKind::Words));
    };
    let word = match last_word(rest) {
        Ok(word) => word,
        Err(e) => return Err(Or::Why(e)),
    };
    let Some(n) = read_wide(n) else {
        return Err(Or::Why(TextKind::Number));
    };
    let Ok(bytes) = read_bytes(alloc, word) else {
        return Err(Or::Memory);
    };
    let Some(bytes) = bytes else {
        return Err(Or::Why(TextKind::Digits));
    };
    Ok((n, bytes))
}

fn read_engine_text(alloc: Global, arguments: Option<&[u8]>) -> Read
    ensures exact { Answers result (engine_text_of (numbered_line (arguments_of (option_copied arguments.entry)))) }
    ensures bounded { IfOk result IsOfLine }
{
    match read_numbered(alloc, arguments) {
        Ok((n, bytes)) => Ok(Kind::EngineText {
            conn: Conn(n),
            bytes,
        }),
        Err(e) => Err(e),
    }
}

fn read_engine_plain(alloc: Global, arguments: Option<&[u8]>) -> Read
    ensures exact { Answers result (engine_plain_of (numbered_line (arguments_of (option_copied arguments.entry)))) }
    ensures bounded { IfOk result IsOfLine }
{
    match read_numbered(alloc, arguments) {
        Ok((n, bytes)) => Ok(Kind::EnginePlain {
            conn: Conn(n),
            bytes,
        }),
        Err(e) => Err(e),
    }
}

fn read_engine_up(alloc: Global, arguments: Option<&[u8]>) -> Read
    ensures exact { Answers result (engine_up_line (arguments_of (option_copied arguments.entry))) }
    ensures bounded { IfOk result IsOfLine }
{
    let Some((n, more)) = next_word(arguments) else {
        return Err(Or::Why(TextKind::Words));
    };
    let Some(n) = read_wide(n) else {
        return Err(Or::Why(TextKind::Number));
    };
    let Ok(name) = Text::copy(alloc, rest(more)) else {
        return Err(Or::Memory);
    };
    Ok(Kind::EngineUp {
        conn: Conn(n),
        name,
    })
}

fn read_engine_down(arguments: Option<&[u8]>) -> Read
    ensures exact { Answers result (engine_down_line (one_of (arguments_of (option_copied arguments.entry)))) }
    ensures bounded { IfOk result IsOfLine }
{
    let Some(n) = one_word(arguments) else {
        return Err(Or::Why(TextKind::Words));
    };
    let Some(n) = read_wide(n) else {
        return Err(Or::Why(TextKind::Number));
    };
    Ok(Kind::EngineDown { conn: Conn(n) })
}

fn read_device_in(alloc: Global, arguments: Option<&[u8]>) -> Read
    ensures exact { Answers result (device_in_of (bytes_from (last_bytes (arguments_of (option_copied arguments.entry))))) }
    ensures bounded { IfOk result IsOfLine }
{
    let word = match last_word(arguments) {
        Ok(word) => word,
        Err(e) => return Err(Or::Why(e)),
    };
    let Ok(bytes) = read_bytes(alloc, word) else {
        return Err(Or::Memory);
    };
    let Some(bytes) = bytes else {
        return Err(Or::Why(TextKind::Digits));
    };
    Ok(Kind::DeviceIn { bytes })
}

fn read_held(alloc: Global, n: Option<u64>, more: Option<&[u8]>) -> Read
    ensures exact { Answers result (held_of n (last_bytes (arguments_of (option_copied more.entry))) (bytes_if (last_bytes (arguments_of (option_copied more.entry))))) }
    ensures bounded { IfOk result IsOfLine }
{
    let word = match last_word(more) {
        Ok(word) => word,
        Err(e) => return Err(Or::Why(e)),
    };
    let Some(n) = n else {
        return Err(Or::Why(TextKind::Number));
    };
    let Ok(bytes) = read_bytes(alloc, word) else {
        return Err(Or::Memory);
    };
    let Some(bytes) = bytes else {
        return Err(Or::Why(TextKind::Digits));
    };
    Ok(Kind::File {
        cid: Cid(n),
        answer: FileAnswer::Held(bytes),
    })
}

// An answer of one word.
fn read_answer(n: Option<u64>, answer: FileAnswer, more: Option<&[u8]>) -> Read
    ensures exact { Answers result (plain_answer n answer (are_none (arguments_of (option_copied more.entry)))) }
    ensures bounded { IfOk result IsOfLine }
{
    if !is_end(more) {
        return Err(Or::Why(TextKind::Words));
    }
    let Some(n) = n else {
        return Err(Or::Why(TextKind::Number));
    };
    Ok(Kind::File {
        cid: Cid(n),
        answer,
    })
}

fn read_file(alloc: Global, arguments: Option<&[u8]>) -> Read
    ensures exact { Answers result (file_line (arguments_of (option_copied arguments.entry))) }
    ensures bounded { IfOk result IsOfLine }
{
    let Some((n, rest)) = next_word(arguments) else {
        return Err(Or::Why(TextKind::Words));
    };
    let Some((word, more)) = next_word(rest) else {
        return Err(Or::Why(TextKind::Words));
    };
    let n = read_wide(n);
    if word == b"held".as_slice() {
        return read_held(alloc, n, more);
    }
    if word == b"missing".as_slice() {
        return read_answer(n, FileAnswer::Missing, more);
    }
    if word == b"failed".as_slice() {
        return read_answer(n, FileAnswer::Failed, more);
    }
    Err(Or::Why(TextKind::Words))
}

fn read_line(alloc: Global, arguments: Option<&[u8]>) -> Result<Kind, NoMemory>
    ensures { IfOk result (λ k. k ≡ events.Line (rest_of (arguments_of (option_copied arguments.entry)))) }
{
    let bytes = Bytes::copy(alloc, rest(arguments))?;
    Ok(Kind::Line { bytes })
}

// An event of one word.
fn read_plain(kind: Kind, arguments: Option<&[u8]>) -> Read
    ensures exact { Answers result (plain_line kind (are_none (arguments_of (option_copied arguments.entry)))) }
    ensures bounded { IsOfLine kind → IfOk result IsOfLine }
{
    if is_end(arguments) {
        Ok(kind)
    } else {
        Err(Or::Why(TextKind::Words))
    }
}

/// What comes, by the word that names it.
#[tactic(auto, unfolding(crate::specs::EventLine::kind_line))]
pub(crate) fn read_kind(alloc: Global, word: &[u8], arguments: Option<&[u8]>) -> Read
    ensures exact { Answers result (kind_line word.now (arguments_of (option_copied arguments.entry))) }
    ensures bounded { IfOk result IsOfLine }
{
    if word == b"datagram".as_slice() {
        return read_datagram(alloc, arguments);
    }
    if word == b"enginetext".as_slice() {
        return read_engine_text(alloc, arguments);
    }
    if word == b"engineplain".as_slice() {
        return read_engine_plain(alloc, arguments);
    }
    if word == b"engineup".as_slice() {
        return read_engine_up(alloc, arguments);
    }
    if word == b"enginedown".as_slice() {
        return read_engine_down(arguments);
    }
    if word == b"devicein".as_slice() {
        return read_device_in(alloc, arguments);
    }
    if word == b"deviceready".as_slice() {
        return read_plain(Kind::DeviceReady, arguments);
    }
    if word == b"file".as_slice() {
        return read_file(alloc, arguments);
    }
    if word == b"line".as_slice() {
        return match read_line(alloc, arguments) {
            Ok(kind) => Ok(kind),
            Err(NoMemory) => Err(Or::Memory),
        };
    }
    if word == b"tick".as_slice() {
        return read_plain(Kind::Tick, arguments);
    }
    if word == b"halt".as_slice() {
        return read_plain(Kind::Halt, arguments);
    }
    Err(Or::Why(TextKind::Words))
}
