//! Why a command was not carried out, and what is said of it.

ghost use Rattle.std.specs.Prelude.{◌≡◌, ◌++◌, codes, decimal, IfOk, OnOk};

use itoa::Buffer;
use route_file::RouteFault;
use schedule_text::TextKind;
use std::alloc::Global;
use tls_crypt::{KeyFault, KeyKind};
use vpn_base::NoMemory;
use vpn_text::ConfigKind;

/// Why a command was not carried out.
#[derive(Clone, Copy, Debug, PartialEq, Eq)]
pub enum Refusal {
    /// The words are those of no command.
    Usage,
    /// A line of the route file is faulty.
    Line(RouteFault),
    /// A line of the configuration is faulty, or lacks something.
    Config {
        /// The line, from 1, or 0 where a file with no line lacks something.
        line: u32,
        /// What is wrong.
        kind: ConfigKind,
    },
    /// The text of the static key is faulty.
    Key(KeyFault),
    /// The configuration is a client's.
    NotServer,
    /// A line of the schedule is faulty, or its end is missing.
    Schedule {
        /// The line, from 1, or 0 where a file with no line has no end.
        line: u64,
        /// What is wrong.
        kind: TextKind,
    },
    /// The server took as many events as it may, and was not stopped.
    TurnsSpent,
    /// There is no file of that name.
    Missing,
    /// The file could not be read.
    Unreadable,
    /// The output could not be written.
    Output,
    /// There was not enough memory.
    NoMemory,
}

impl Refusal {
    ghost use Rattle.vpn_top.specs.Messages.{status_of};

    /// The exit status of the program for it.
    pub(crate) fn status(self) -> u8
        ensures { result ≡ status_of self }
    {
        match self {
            Refusal::Usage => 1,
            Refusal::Line(_) | Refusal::Config { .. } | Refusal::Key(_) | Refusal::NotServer => 2,
            Refusal::Missing | Refusal::Unreadable => 3,
            Refusal::Schedule { .. } => 5,
            Refusal::Output => 6,
            Refusal::TurnsSpent => 7,
            Refusal::NoMemory => 8,
        }
    }
}

// Adds a number in decimal digits.
fn add_number(line: &mut Vec<u8>, number: u64) -> Result<(), NoMemory>
    ensures { OnOk result (line.new.items ≡ line.old.items ++ decimal number) }
{
    let mut buffer = Buffer::new();
    line.extend_from_slice(buffer.format(number).as_bytes())?;
    Ok(())
}

fn add(line: &mut Vec<u8>, text: &[u8]) -> Result<(), NoMemory>
    ensures { OnOk result (line.new.items ≡ line.old.items ++ text.now) }
{
    line.extend_from_slice(text)?;
    Ok(())
}

impl Refusal {
    ghost use Rattle.vpn_top.specs.Messages.{config_kind_text, key_kind_text, kind_text, refusal_line, refusal_text, word_text};

    fn kind_name(kind: TextKind) -> &'static [u8]
        ensures { result.now ≡ kind_text kind }
    {
        match kind {
            TextKind::Header => b"header",
            TextKind::Words => b"words",
            TextKind::Number => b"number",
            TextKind::Address => b"address",
            TextKind::Digits => b"digits",
            TextKind::Long => b"long",
            TextKind::NoEnd => b"no-end",
        }
    }

    fn config_kind_name(kind: ConfigKind) -> &'static [u8]
        ensures { result.now ≡ config_kind_text kind }
    {
        match kind {
            ConfigKind::Quote => b"quote",
            ConfigKind::Escape => b"escape",
            ConfigKind::Control => b"control",
            ConfigKind::Long => b"long",
            ConfigKind::Unknown => b"unknown",
            ConfigKind::Refused => b"refused",
            ConfigKind::Arguments => b"arguments",
            ConfigKind::Repeated => b"repeated",
            ConfigKind::Block => b"block",
            ConfigKind::Side => b"side",
            ConfigKind::Missing => b"missing",
        }
    }

    fn key_kind_name(kind: KeyKind) -> &'static [u8]
        ensures { result.now ≡ key_kind_text kind }
    {
        match kind {
            KeyKind::NoBegin => b"no-begin",
            KeyKind::Digits => b"digits",
            KeyKind::NoEnd => b"no-end",
        }
    }

    // Adds a space and the word, if there is one.
    fn add_word(line: &mut Vec<u8>, word: &[u8]) -> Result<(), NoMemory>
        ensures { OnOk result (line.new.items ≡ line.old.items ++ word_text word.now) }
    {
        if word.is_empty() {
            return Ok(());
        }
        add(line, b" ")?;
        add(line, word)?;
        Ok(())
    }

    // Adds what tells it, without the end of the line.
    fn add_text(self, line: &mut Vec<u8>, subject: &[u8]) -> Result<(), NoMemory>
        ensures { OnOk result (line.new.items ≡ line.old.items ++ refusal_text subject.now self) }
    {
        match self {
            Refusal::Usage => add(line, b"usage: vpn route|check|replay|server|client|lab")?,
            Refusal::Line(fault) => {
                add(line, b"line ")?;
                add_number(line, fault.line)?;
                add(line, b": ")?;
                add(line, Refusal::kind_name(fault.kind))?;
            }
            Refusal::Config { line: number, kind } => {
                add(line, b"line ")?;
                add_number(line, u64::from(number))?;
                add(line, b": ")?;
                add(line, Refusal::config_kind_name(kind))?;
                Refusal::add_word(line, subject)?;
            }
            Refusal::Key(fault) => {
                add(line, b"key line ")?;
                add_number(line, u64::from(fault.line))?;
                add(line, b": ")?;
                add(line, Refusal::key_kind_name(fault.kind))?;
            }
            Refusal::NotServer => add(line, b"not a server file")?,
            Refusal::Schedule { line: number, kind } => {
                add(line, b"line ")?;
                add_number(line, number)?;
                add(line, b": ")?;
                add(line, Refusal::kind_name(kind))?;
            }
            Refusal::TurnsSpent => add(line, b"turns spent")?,
            Refusal::Missing => {
                add(line, b"missing ")?;
                add(line, subject)?;
            }
            Refusal::Unreadable => {
                add(line, b"unreadable ")?;
                add(line, subject)?;
            }
            Refusal::Output => add(line, b"output")?,
            Refusal::NoMemory => add(line, b"no memory")?,
        }
        Ok(())
    }

    /// The line that tells it. The subject is the name of the file, or the word of the faulty line.
    pub(crate) fn line(self, alloc: Global, subject: &[u8]) -> Result<Vec<u8>, NoMemory>
        ensures { IfOk result (λ line. line.items ≡ refusal_line subject.now self) }
    {
        let mut line = Vec::new(alloc);
        self.add_text(&mut line, subject)?;
        add(&mut line, b"\n")?;
        Ok(line)
    }
}
