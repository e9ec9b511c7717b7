//! Reading the lines of a route file.

ghost use Rattle.std.specs.Prelude.{◌≡◌, IfOk};
ghost use Rattle.std.specs.Option.{option_copied};
ghost use Rattle.vpn_base.specs.Answers.{Answers};
ghost use Rattle.vpn_base.specs.WordCount.{are_none, one_of, two_of};
ghost use Rattle.schedule_text.specs.internal.Arguments.{arguments_of};
ghost use Rattle.schedule_text.specs.SealLines.{IsBounded};
ghost use Rattle.schedule_text.specs.RouteLine.{add_line, between_line, command_line, device_line, from_line, leave_line, owner_line, route_line, subnet_line};

use crate::kind::TextKind;
use crate::route_line::{LONGEST_LINE, RouteLine};
use crate::seal_lines::{read_key, read_seal, read_unseal};
use crate::words::{one_word, read_bytes, read_prefix, two_words};
use std::alloc::Global;
use vpn_base::{Cid, Or, read_ip4, read_number, split_once};

type Read = Result<RouteLine, Or<TextKind>>;

fn read_subnet(arguments: Option<&[u8]>) -> Read
    ensures { Answers result (subnet_line (one_of (arguments_of (option_copied arguments.entry)))) }
{
    let Some(word) = one_word(arguments) else {
        return Err(Or::Why(TextKind::Words));
    };
    let Some(network) = read_prefix(word) else {
        return Err(Or::Why(TextKind::Address));
    };
    Ok(RouteLine::Subnet(network))
}

fn read_between(arguments: Option<&[u8]>) -> Read
    ensures { Answers result (between_line (are_none (arguments_of (option_copied arguments.entry)))) }
{
    match arguments {
        None => Ok(RouteLine::Between),
        Some(_) => Err(Or::Why(TextKind::Words)),
    }
}

fn read_add(arguments: Option<&[u8]>) -> Read
    ensures { Answers result (add_line (two_of (arguments_of (option_copied arguments.entry)))) }
{
    let Some((network, cid)) = two_words(arguments) else {
        return Err(Or::Why(TextKind::Words));
    };
    let Some(cid) = read_number(cid, u64::MAX) else {
        return Err(Or::Why(TextKind::Number));
    };
    let Some(network) = read_prefix(network) else {
        return Err(Or::Why(TextKind::Address));
    };
    Ok(RouteLine::Add(network, Cid(cid)))
}

fn read_leave(arguments: Option<&[u8]>) -> Read
    ensures { Answers result (leave_line (one_of (arguments_of (option_copied arguments.entry)))) }
{
    let Some(cid) = one_word(arguments) else {
        return Err(Or::Why(TextKind::Words));
    };
    let Some(cid) = read_number(cid, u64::MAX) else {
        return Err(Or::Why(TextKind::Number));
    };
    Ok(RouteLine::Leave(Cid(cid)))
}

fn read_owner(arguments: Option<&[u8]>) -> Read
    ensures { Answers result (owner_line (one_of (arguments_of (option_copied arguments.entry)))) }
{
    let Some(address) = one_word(arguments) else {
        return Err(Or::Why(TextKind::Words));
    };
    let Some(address) = read_ip4(address) else {
        return Err(Or::Why(TextKind::Address));
    };
    Ok(RouteLine::Owner(address))
}

fn read_from(alloc: Global, arguments: Option<&[u8]>) -> Read
    ensures { Answers result (from_line (two_of (arguments_of (option_copied arguments.entry)))) }
{
    let Some((cid, packet)) = two_words(arguments) else {
        return Err(Or::Why(TextKind::Words));
    };
    let Some(cid) = read_number(cid, u64::MAX) else {
        return Err(Or::Why(TextKind::Number));
    };
    let Ok(packet) = read_bytes(alloc, packet) else {
        return Err(Or::Memory);
    };
    let Some(packet) = packet else {
        return Err(Or::Why(TextKind::Digits));
    };
    Ok(RouteLine::From(Cid(cid), packet))
}

fn read_device(alloc: Global, arguments: Option<&[u8]>) -> Read
    ensures { Answers result (device_line (one_of (arguments_of (option_copied arguments.entry)))) }
{
    let Some(packet) = one_word(arguments) else {
        return Err(Or::Why(TextKind::Words));
    };
    let Ok(packet) = read_bytes(alloc, packet) else {
        return Err(Or::Memory);
    };
    let Some(packet) = packet else {
        return Err(Or::Why(TextKind::Digits));
    };
    Ok(RouteLine::Device(packet))
}

#[tactic(auto, unfolding(crate::specs::RouteLine::command_line))]
fn read_command(alloc: Global, command: &[u8], arguments: Option<&[u8]>) -> Read
    ensures exact { Answers result (command_line command.now (arguments_of (option_copied arguments.entry))) }
    ensures bounded { IfOk result IsBounded }
{
    if command == b"from".as_slice() {
        return read_from(alloc, arguments);
    }
    if command == b"device".as_slice() {
        return read_device(alloc, arguments);
    }
    if command == b"add".as_slice() {
        return read_add(arguments);
    }
    if command == b"owner".as_slice() {
        return read_owner(arguments);
    }
    if command == b"leave".as_slice() {
        return read_leave(arguments);
    }
    if command == b"subnet".as_slice() {
        return read_subnet(arguments);
    }
    if command == b"client-to-client".as_slice() {
        return read_between(arguments);
    }
    if command == b"key".as_slice() {
        return read_key(alloc, arguments);
    }
    if command == b"seal".as_slice() {
        return read_seal(alloc, arguments);
    }
    if command == b"unseal".as_slice() {
        return read_unseal(alloc, arguments);
    }
    Err(Or::Why(TextKind::Words))
}

/// The line of a route file that a text without its end spells. A refusal is the first fault of
/// the line in the order of `TextKind`'s page: Long above 140,000 bytes, and where the HEX word of
/// `seal` has more than 3,000 characters or that of `unseal` more than 3,048, then Words, Number,
/// Address, Digits.
#[tactic(auto, unfolding(crate::specs::RouteLine::route_line))]
pub fn read_route_line(alloc: Global, line: &[u8]) -> Result<RouteLine, Or<TextKind>>
    ensures exact { Answers result (route_line line.now) }

    // The fields of a key, and of what is sealed and opened, are in range.
    ensures bounded { IfOk result IsBounded }
{
    if line.len() > LONGEST_LINE {
        return Err(Or::Why(TextKind::Long));
    }
    if line.is_empty() || line[0] == b'#' {
        return Ok(RouteLine::Blank);
    }
    match split_once(line, b' ') {
        None => read_command(alloc, line, None),
        Some((command, arguments)) => read_command(alloc, command, Some(arguments)),
    }
}
