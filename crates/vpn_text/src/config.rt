//! Faults of configuration files and of client files, and the lines of both.

ghost use Rattle.std.specs.Prelude.{◌≡◌, ◌<◌, ◌^◌, length};
ghost use Rattle.vpn_base.specs.Answers.{Answers};
ghost use Rattle.vpn_text.specs.ConfigLine.{kind_of, config_words, is_long, is_over};

use crate::words::{LineFault, LineKind, read_line};
use std::alloc::Global;
use vpn_base::{Or, Text, TextList};

// The greatest length of a line without its end, in bytes.
const LONGEST_LINE: usize = 1_024;

// The greatest size of a file, in bytes.
const LONGEST_FILE: usize = 65_536;

/// What is wrong with a file of directives.
#[derive(Clone, Copy, Debug, PartialEq, Eq)]
pub enum ConfigKind {
    /// A quote is not closed in the line.
    Quote,
    /// A backslash stands at the end of the line.
    Escape,
    /// The line has a control byte.
    Control,
    /// The line has more than 1,024 bytes, or the file has more than 65,536 with this one.
    Long,
    /// The first word of the line names no directive.
    Unknown,
    /// The directive is known and not served.
    Refused,
    /// The directive's other words are not as it wants them.
    Arguments,
    /// The directive stood before, and may stand once.
    Repeated,
    /// The block that begins in the line has no end.
    Block,
    /// The directive is one of the other side.
    Side,
    /// A directive that is required is missing.
    Missing,
}

/// Where a file of directives is wrong, and how.
#[derive(Debug, Drop)]
pub struct ConfigFault {
    /// The number of the line, from 1, or 0 where a file with no line lacks something.
    pub line: u32,
    /// What is wrong there.
    pub kind: ConfigKind,
    /// The first word of the line, or the name of the block or of the directive that is missing. It
    /// is empty for `Quote`, `Escape`, `Control` and `Long`.
    pub word: Text,
}

fn kind_of(kind: LineKind) -> ConfigKind
    ensures { result ≡ kind_of kind }
{
    match kind {
        LineKind::Quote => ConfigKind::Quote,
        LineKind::Escape => ConfigKind::Escape,
        LineKind::Control => ConfigKind::Control,
    }
}

/// Whether a line without its end is too long: it has more than 1,024 bytes.
pub fn is_long(line: &[u8]) -> bool
    ensures { result ≡ is_long line.now }
{
    line.len() > LONGEST_LINE
}

/// Whether a file that has so many bytes up to the end of a line is too long with it: they are
/// more than 65,536.
pub fn is_over(reached: usize) -> bool
    ensures { result ≡ is_over reached }
{
    reached > LONGEST_FILE
}

/// The words of the line of this number; `passes` says that the file has more than 65,536 bytes
/// with this line and its end. `Long` comes exactly for such a line and for one of more than 1,024
/// bytes, then `Control`, `Quote` and `Escape` as `read_line` has them, each with no word.
#[tactic(auto, unfolding(crate::specs::ConfigLine::config_words))]
pub fn read_config_line(
    alloc: Global,
    number: u32,
    line: &[u8],
    passes: bool,
) -> Result<TextList, Or<ConfigFault>>
    ensures { Answers result (config_words number line.now passes) }
{
    if is_long(line) || passes {
        return Err(Or::Why(ConfigFault {
            line: number,
            kind: ConfigKind::Long,
            word: Text::of(Vec::new(alloc)),
        }));
    }
    match read_line(alloc, line) {
        Ok(words) => Ok(words),
        Err(Or::Memory) => Err(Or::Memory),
        Err(Or::Why(fault)) => Err(Or::Why(ConfigFault {
            line: number,
            kind: kind_of(fault.kind),
            word: Text::of(Vec::new(alloc)),
        })),
    }
}
