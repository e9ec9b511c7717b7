//! Commands read.

ghost use Rattle.std.specs.Prelude.{◌≡◌, ◌∷◌, [], ◌==◌, None, IfOk, MatchOption};
ghost use Rattle.vpn_base.specs.Answers.{Answers};
ghost use Rattle.address_text.specs.AddressText.{addr_of};
ghost use Rattle.mgmt_lines.specs.Commands.{name_of, alone, status_in, kill_of, kill_in, client_kill_in, bytecount_in, signal_in, command_of, command_in, command};

use address_text::read_addr;
use std::alloc::Global;
use vpn_base::{Addr, Cid, NoMemory, Or, Text, read_number};
use vpn_text::read_line;

// The greatest length of a line, in bytes.
const LONGEST_LINE: usize = 256;

// The greatest interval of byte counts, in seconds.
const LONGEST_INTERVAL: u64 = 86_400;

/// What an operator asks of the console.
#[derive(Debug, Drop)]
pub enum Command {
    /// The list of the commands.
    Help,
    /// The version of the program.
    Version,
    /// The clients and the routes.
    Status,
    /// How many clients there are, and all bytes so far.
    LoadStats,
    /// An end of the clients with this common name.
    KillName(Text),
    /// An end of the clients at this address.
    KillAddr(Addr),
    /// An end of the client with this number.
    ClientKill(Cid),
    /// Byte counts of each client every so many seconds, 0 to 86,400; 0 turns them off.
    Bytecount(u32),
    /// An end of the program.
    Terminate,
    /// Nothing: the line has no word.
    Blank,
}

/// Why a line is no command.
#[derive(Clone, Copy, Debug, PartialEq, Eq)]
pub enum CommandFault {
    /// Its first word names no command, or it can't be divided into words.
    Unknown,
    /// The words behind a command's name are not as it wants them.
    Arguments,
    /// It has more than 256 bytes.
    TooLong,
}

// What a line's first word names.
#[derive(Clone, Copy)]
enum Name {
    Help,
    Version,
    Status,
    LoadStats,
    Kill,
    ClientKill,
    Bytecount,
    Signal,
    Other,
}

#[tactic(auto, unfolding(crate::specs::Commands::name_of))]
fn name_of(word: &[u8]) -> Name
    ensures { result ≡ name_of word.now }
{
    if word == b"help".as_slice() {
        return Name::Help;
    }
    if word == b"version".as_slice() {
        return Name::Version;
    }
    if word == b"status".as_slice() {
        return Name::Status;
    }
    if word == b"load-stats".as_slice() {
        return Name::LoadStats;
    }
    if word == b"kill".as_slice() {
        return Name::Kill;
    }
    if word == b"client-kill".as_slice() {
        return Name::ClientKill;
    }
    if word == b"bytecount".as_slice() {
        return Name::Bytecount;
    }
    if word == b"signal".as_slice() {
        return Name::Signal;
    }
    Name::Other
}

fn alone(command: Command, words: &[Text]) -> Result<Command, CommandFault>
    ensures { result ≡ alone command words.now }
{
    match words {
        [] => Ok(command),
        _ => Err(CommandFault::Arguments),
    }
}

fn status_in(words: &[Text]) -> Result<Command, CommandFault>
    ensures { result ≡ status_in words.now }
{
    match words {
        [] => Ok(Command::Status),
        [version] => {
            if version.as_slice() != b"2".as_slice() {
                return Err(CommandFault::Arguments);
            }
            Ok(Command::Status)
        }
        _ => Err(CommandFault::Arguments),
    }
}

fn kill_of(alloc: Global, word: &[u8]) -> Result<Command, NoMemory>
    ensures { IfOk result (λ command. command ≡ kill_of word.now (addr_of word.now)) }
{
    match read_addr(word) {
        Some(addr) => Ok(Command::KillAddr(addr)),
        None => Ok(Command::KillName(Text::copy(alloc, word)?)),
    }
}

fn kill_in(alloc: Global, words: &[Text]) -> Result<Command, Or<CommandFault>>
    ensures { Answers result (kill_in words.now) }
{
    match words {
        [word] => match kill_of(alloc, word.as_slice()) {
            Ok(command) => Ok(command),
            Err(NoMemory) => Err(Or::Memory),
        },
        _ => Err(Or::Why(CommandFault::Arguments)),
    }
}

fn client_kill_in(words: &[Text]) -> Result<Command, CommandFault>
    ensures { result ≡ client_kill_in words.now }
{
    match words {
        [cid] => match read_number(cid.as_slice(), u64::MAX) {
            Some(n) => Ok(Command::ClientKill(Cid(n))),
            None => Err(CommandFault::Arguments),
        },
        _ => Err(CommandFault::Arguments),
    }
}

fn bytecount_in(words: &[Text]) -> Result<Command, CommandFault>
    ensures { result ≡ bytecount_in words.now }
{
    match words {
        [interval] => match read_number(interval.as_slice(), LONGEST_INTERVAL) {
            Some(n) => Ok(Command::Bytecount(n as u32)),
            None => Err(CommandFault::Arguments),
        },
        _ => Err(CommandFault::Arguments),
    }
}

fn signal_in(words: &[Text]) -> Result<Command, CommandFault>
    ensures { result ≡ signal_in words.now }
{
    match words {
        [signal] => {
            if signal.as_slice() != b"SIGTERM".as_slice() {
                return Err(CommandFault::Arguments);
            }
            Ok(Command::Terminate)
        }
        _ => Err(CommandFault::Arguments),
    }
}

fn or_why(answer: Result<Command, CommandFault>) -> Result<Command, Or<CommandFault>>
    ensures { Answers result answer }
{
    match answer {
        Ok(command) => Ok(command),
        Err(fault) => Err(Or::Why(fault)),
    }
}

// The command of this name with these arguments.
fn command_of(alloc: Global, name: Name, words: &[Text]) -> Result<Command, Or<CommandFault>>
    ensures { Answers result (command_of name words.now) }
{
    match name {
        Name::Help => or_why(alone(Command::Help, words)),
        Name::Version => or_why(alone(Command::Version, words)),
        Name::Status => or_why(status_in(words)),
        Name::LoadStats => or_why(alone(Command::LoadStats, words)),
        Name::Kill => kill_in(alloc, words),
        Name::ClientKill => or_why(client_kill_in(words)),
        Name::Bytecount => or_why(bytecount_in(words)),
        Name::Signal => or_why(signal_in(words)),
        Name::Other => Err(Or::Why(CommandFault::Unknown)),
    }
}

fn command_in(alloc: Global, words: &[Text]) -> Result<Command, Or<CommandFault>>
    ensures { Answers result (command_in words.now) }
{
    match words {
        [] => Ok(Command::Blank),
        [word, words @ ..] => command_of(alloc, name_of(word.as_slice()), words),
    }
}

/// The command of a line without its end, whose words are those of `vpn_text::read_line`: `help`,
/// `version`, `status` or `status 2`, `load-stats`, `kill IP:PORT`, `kill NAME` for any other word,
/// `client-kill CID`, `bytecount N` with at most 86,400 seconds, and `signal SIGTERM`. A line with
/// no word is `Blank`.
///
/// The fault is `TooLong` exactly for more than 256 bytes; else `Unknown` for a line with an open
/// quote, a backslash at its end or a control byte, and for any other first word; and `Arguments`
/// for a command with words of another number or form behind it.
#[tactic(auto, unfolding(crate::specs::Commands::command))]
pub fn read_command(alloc: Global, line: &[u8]) -> Result<Command, Or<CommandFault>>
    ensures { Answers result (command line.now) }
{
    if line.len() > LONGEST_LINE {
        return Err(Or::Why(CommandFault::TooLong));
    }
    match read_line(alloc, line) {
        Ok(words) => command_in(alloc, words.as_slice()),
        Err(Or::Memory) => Err(Or::Memory),
        Err(Or::Why(_)) => Err(Or::Why(CommandFault::Unknown)),
    }
}
