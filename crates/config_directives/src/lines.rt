//! The lines of a file, read into directives.

ghost use Rattle.std.specs.Prelude.{◌≡◌, ◌≤◌, ◌-◌, ◌||◌, List, [], bytes_eq, if◌then◌else◌, IsSome, length, option_and_then, false, None, Some, Ok, Err, IfOk, IfErr, OnOk, option_map};
ghost use Rattle.std.specs.Option.{option_copied};
ghost use Rattle.vpn_base.specs.Answers.{IfWhy};
ghost use Rattle.vpn_base.specs.Lines.{Line, lines_of};
ghost use Rattle.vpn_text.specs.ConfigLine.{is_over};
ghost use Rattle.config_directives.specs.Blocks.{block_end};
ghost use Rattle.config_directives.specs.Entries.{begun_by, block_behind, block_name, entries, has_control, inside_kind, item_on, line_entries, line_with, until_end};
ghost use Rattle.config_directives.specs.Judging.{judged};
ghost use Rattle.config_directives.specs.internal.Steps.{Adds, Stops};

use crate::item::{Directive, Item};
use crate::judging::kind_of;
use std::alloc::Global;
use vpn_base::{Bytes, NoMemory, Or, Text, TextList, next_line};
use vpn_text::{ConfigFault, ConfigKind, is_control, is_long, is_over, read_config_line};

/// The directives of a file, in their order.
#[derive(Drop)]
pub struct FileDirectives {
    /// The directives.
    pub directives: Vec<Directive>,
    /// How many lines the file has.
    pub last: u32,
}

// NAME of a word <NAME>.
#[tactic(auto, unfolding(crate::specs::Entries::block_name))]
fn block_name(word: &[u8]) -> Option<&[u8]>
    ensures { option_copied result ≡ block_name word.now }
{
    let len = word.len();
    if len > 2 && word[0] == b'<' && word[1] != b'/' && word[len - 1] == b'>' {
        Some(&word[1..len - 1])
    } else {
        None
    }
}

// The name of the block that a line of these words begins.
fn begun_by(words: &TextList) -> Option<&[u8]>
    ensures { option_copied result ≡ begun_by words.now }
{
    if words.count() != 1 {
        return None;
    }
    match words.item(0) {
        None => None,
        Some(word) => block_name(word.as_slice()),
    }
}

// The line that ends the block of a name.
fn block_end(alloc: Global, name: &[u8]) -> Result<Text, NoMemory>
    ensures { IfOk result (λ line. line ≡ block_end name.now) }
{
    let mut line = Vec::new(alloc);
    line.extend_from_slice(b"</")?;
    line.extend_from_slice(name)?;
    line.extend_from_slice(b">")?;
    Ok(Text::of(line))
}

// Whether a block is read no further than a line: it is the last one, or the file is too long with the
// bytes up to its end.
fn ends_block(last: &[u8], line: &[u8], reached: usize) -> bool
    ensures { result ≡ is_over reached || bytes_eq line.now last.now }
{
    is_over(reached) || line == last
}

// The lines in front of the first that is this one, each ended by a line feed. The text stands at the
// end of a file of so many bytes; where that is too long, what is given from the line on in which it
// becomes so does not matter.
fn until_end(
    alloc: Global,
    last: &[u8],
    size: usize,
    text: &[u8],
) -> Result<Option<Bytes>, NoMemory>
    requires { length text.now ≤ size }
    ensures { IfOk result (λ bytes. bytes ≡ until_end last.now (size - length text.now) (lines_of text.now)) }
{
    let mut bytes = Vec::new(alloc);
    let mut rest = text;
    'lines: while let Some((line, behind)) = next_line(rest) {
        if ends_block(last, line, size - behind.len()) {
            return Ok(Some(Bytes::of(bytes)));
        }
        bytes.extend_from_slice(line)?;
        bytes.push(b'\n')?;
        rest = behind;
    }
    Ok(None)
}

// What a line begins: the directive, and the line that ends its block where it has one.
#[derive(Drop)]
struct Begun {
    item: Item,
    block: Option<Text>,
}

// What these words begin in a file of so many bytes.
fn begin(alloc: Global, words: TextList, size: usize, behind: &[u8]) -> Result<Begun, NoMemory>
    requires { length behind.now ≤ size }
    ensures item { IfOk result (λ begun. begun.item ≡ item_on words (size - length behind.now) (lines_of behind.now)) }
    ensures block { IfOk result (λ begun. begun.block ≡ option_map block_end (begun_by words)) }
{
    match begun_by(&words) {
        None => Ok(Begun {
            item: Item::Words(words),
            block: None,
        }),
        Some(name) => {
            let end = block_end(alloc, name)?;
            let bytes = until_end(alloc, end.as_slice(), size, behind)?;
            let name = Text::copy(alloc, name)?;
            Ok(Begun {
                item: Item::Block { name, bytes },
                block: Some(end),
            })
        }
    }
}

fn has_control(line: &[u8]) -> bool
    ensures { result ≡ has_control line.now }
{
    line.iter().any(|byte| is_control(*byte))
}

fn line_fault(alloc: Global, line: u32, kind: ConfigKind) -> ConfigFault
    ensures { result ≡ record { line = line; kind = kind; word = [] } }
{
    ConfigFault {
        line,
        kind,
        word: Text::of(Vec::new(alloc)),
    }
}

// What was read so far: the directives, and the line that ends the block around the next line.
#[derive(Drop)]
struct Reader {
    directives: Vec<Directive>,
    block: Option<Text>,
}

impl Reader {
    // Takes a line outside a block, of a file of so many bytes; what stands behind the line is lent as
    // well, since a block that begins here is looked at to its end.
    fn take_outside(
        &mut self,
        alloc: Global,
        number: u32,
        line: &[u8],
        size: usize,
        behind: &[u8],
    ) -> Result<(), Or<ConfigFault>>
        requires outside { self.old.block ≡ None }
        requires within { length behind.now ≤ size }
        ensures adds { OnOk result (Adds self.old.directives.items
            (line_entries None (line_with number line.now (size - length behind.now)) (lines_of behind.now)) self.new.directives.items) }
        ensures block { OnOk result (self.new.block ≡ block_behind None (line_with number line.now (size - length behind.now))) }
        ensures short { OnOk result (is_over (size - length behind.now) ≡ false) }
        ensures stops { IfErr result (λ e. IfWhy e (Stops self.old.directives.items
            (line_entries None (line_with number line.now (size - length behind.now)) (lines_of behind.now)))) }
    {
        let over = is_over(size - behind.len());
        let words = match read_config_line(alloc, number, line, over) {
            Ok(words) => words,
            Err(e) => return Err(e),
        };
        if words.count() == 0 {
            return Ok(());
        }
        let begun = begin(alloc, words, size, behind)?;
        let Begun { item, block } = begun;
        if let Some(kind) = kind_of(&self.directives, &item) {
            let word = Text::copy(alloc, item.name())?;
            return Err(Or::Why(ConfigFault {
                line: number,
                kind,
                word,
            }));
        }
        self.directives.push(Directive { line: number, item })?;
        self.block = block;
        Ok(())
    }
}

// What is wrong with a line within a block.
fn judge_inside(line: &[u8], over: bool) -> Option<ConfigKind>
    ensures { result ≡ inside_kind line.now over }
{
    if is_long(line) || over {
        Some(ConfigKind::Long)
    } else if has_control(line) {
        Some(ConfigKind::Control)
    } else {
        None
    }
}

impl Reader {
    // Takes a line within a block, up to whose end the file has so many bytes.
    fn take_inside(
        &mut self,
        alloc: Global,
        number: u32,
        line: &[u8],
        reached: usize,
    ) -> Result<(), Or<ConfigFault>>
        requires { IsSome self.old.block }
        ensures adds { OnOk result ((lines : List Line) → Adds self.old.directives.items
            (line_entries self.old.block (line_with number line.now reached) lines) self.new.directives.items) }
        ensures block { OnOk result (self.new.block ≡ block_behind self.old.block (line_with number line.now reached)) }
        ensures short { OnOk result (is_over reached ≡ false) }
        ensures stops { IfErr result (λ e. IfWhy e (λ fault. (lines : List Line) → Stops self.old.directives.items
            (line_entries self.old.block (line_with number line.now reached) lines) fault)) }
    {
        if let Some(kind) = judge_inside(line, is_over(reached)) {
            return Err(Or::Why(line_fault(alloc, number, kind)));
        }
        self.leave_block(line);
        Ok(())
    }

    // Leaves the block if the line ends it.
    fn leave_block(&mut self, line: &[u8])
        ensures directives { self.new.directives.items ≡ self.old.directives.items }
        ensures block { self.new.block ≡ option_and_then (λ last. if bytes_eq line.now last then None else Some last) self.old.block }
    {
        let ends = match &self.block {
            None => false,
            Some(last) => line == last.as_slice(),
        };
        if ends {
            self.block = None;
        }
    }

    // Takes the next line of a file of so many bytes.
    fn take(
        &mut self,
        alloc: Global,
        number: u32,
        line: &[u8],
        size: usize,
        behind: &[u8],
    ) -> Result<(), Or<ConfigFault>>
        requires { length behind.now ≤ size }
        ensures adds { OnOk result (Adds self.old.directives.items
            (line_entries self.old.block (line_with number line.now (size - length behind.now)) (lines_of behind.now)) self.new.directives.items) }
        ensures block { OnOk result (self.new.block ≡ block_behind self.old.block (line_with number line.now (size - length behind.now))) }
        ensures short { OnOk result (is_over (size - length behind.now) ≡ false) }
        ensures stops { IfErr result (λ e. IfWhy e (Stops self.old.directives.items
            (line_entries self.old.block (line_with number line.now (size - length behind.now)) (lines_of behind.now)))) }
    {
        if self.block.is_none() {
            self.take_outside(alloc, number, line, size, behind)
        } else {
            self.take_inside(alloc, number, line, size - behind.len())
        }
    }
}

/// The directives of a file, each judged by itself and beside those before it. A refusal is the
/// first line with a fault, of those that a line or a directive has of itself: `Long`, `Control`,
/// `Quote`, `Escape`, `Unknown`, `Refused`, `Arguments`, `Repeated` and `Block`, which are judged in
/// this order within a line; in a block only the first two are, and a block that is open where the
/// file passes 65,536 bytes is no `Block`.
pub fn read_directives(alloc: Global, text: &[u8]) -> Result<FileDirectives, Or<ConfigFault>>
    ensures ok { IfOk result (λ file. judged [] (entries None 0 0 (lines_of text.now)) ≡ Ok file.directives.items) }
    ensures last { IfOk result (λ file. file.last ≡ length (lines_of text.now)) }
    ensures why { IfErr result (λ e. IfWhy e (λ fault. judged [] (entries None 0 0 (lines_of text.now)) ≡ Err fault)) }
{
    let mut reader = Reader {
        directives: Vec::new(alloc),
        block: None,
    };
    let mut rest = text;
    let mut number = 0;
    'lines: while let Some((line, behind)) = next_line(rest) {
        match reader.take(alloc, number + 1, line, text.len(), behind) {
            Ok(()) => {}
            Err(e) => return Err(e),
        }
        number += 1;
        rest = behind;
    }
    Ok(FileDirectives {
        directives: reader.directives,
        last: number,
    })
}
