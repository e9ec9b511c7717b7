//! The words of a line.

ghost use Rattle.std.specs.Prelude.{◌≡◌, ◌<◌, ◌+◌, ◌^◌, OnOk, length, position};
ghost use Rattle.vpn_base.specs.Answers.{Answers};
ghost use Rattle.vpn_text.specs.Words.{is_control, is_blank, begins_comment, turn_inside, turn_of, read_on, unread, words_of, line_words};

use std::alloc::Global;
use std::marker::Model;
use std::mem;
use vpn_base::{NoMemory, Or, Text, TextList};

/// What is wrong with a line.
#[derive(Clone, Copy, Debug, PartialEq, Eq)]
pub enum LineKind {
    /// A quote is not closed.
    Quote,
    /// A backslash stands at the end.
    Escape,
    /// It has a byte below 0x20 that is no tab, or the byte 0x7F.
    Control,
}

/// Where a line is wrong, and how.
#[derive(Clone, Copy, Debug, PartialEq, Eq)]
pub struct LineFault {
    /// The place of the control byte, of the quote or of the backslash, counted from 0.
    pub place: u32,
    /// What is wrong there.
    pub kind: LineKind,
}

// Where the reader of a line stands.
#[derive(Clone, Copy)]
enum Standing {
    // Between words.
    Between,
    // In a word, outside quotes.
    Inside,
    // Behind a backslash at this place, outside quotes.
    Escaped(u32),
    // In single quotes that opened at this place.
    Single(u32),
    // In double quotes that opened at this place.
    Double(u32),
    // Behind a backslash in double quotes that opened at this place.
    DoubleEscaped(u32),
    // In a comment.
    Comment,
}

// What a byte does.
#[derive(Clone, Copy)]
enum Turn {
    // It is read, and the reader stands here then.
    Move(Standing),
    // It is also the next byte of the word.
    Keep(Standing),
    // It closes the word.
    Close,
}

/// Whether the byte divides words: a space or a tab.
pub fn is_blank(byte: u8) -> bool
    ensures { result ≡ is_blank byte }
{
    byte == b' ' || byte == b'\t'
}

fn begins_comment(byte: u8) -> bool
    ensures { result ≡ begins_comment byte }
{
    byte == b'#' || byte == b';'
}

/// Whether no line may have the byte: it is below 0x20 and no tab, or 0x7F.
pub fn is_control(byte: u8) -> bool
    ensures { result ≡ is_control byte }
{
    (byte < b' ' && byte != b'\t') || byte == 0x7F
}

fn turn_inside(place: u32, byte: u8) -> Turn
    ensures { result ≡ turn_inside place byte }
{
    if is_blank(byte) {
        return Turn::Close;
    }
    if byte == b'\'' {
        return Turn::Move(Standing::Single(place));
    }
    if byte == b'"' {
        return Turn::Move(Standing::Double(place));
    }
    if byte == b'\\' {
        return Turn::Move(Standing::Escaped(place));
    }
    Turn::Keep(Standing::Inside)
}

fn turn_between(place: u32, byte: u8) -> Turn
    ensures { result ≡ turn_of Standing.Between place byte }
{
    if is_blank(byte) {
        return Turn::Move(Standing::Between);
    }
    if begins_comment(byte) {
        return Turn::Move(Standing::Comment);
    }
    turn_inside(place, byte)
}

fn turn_in_double_quotes(opened: u32, byte: u8) -> Turn
    ensures { result ≡ turn_of (Standing.Double opened) 0 byte }
{
    if byte == b'"' {
        return Turn::Move(Standing::Inside);
    }
    if byte == b'\\' {
        return Turn::Move(Standing::DoubleEscaped(opened));
    }
    Turn::Keep(Standing::Double(opened))
}

// What the byte at this place does.
fn turn_of(standing: Standing, place: u32, byte: u8) -> Turn
    ensures { result ≡ turn_of standing place byte }
{
    match standing {
        Standing::Between => turn_between(place, byte),
        Standing::Inside => turn_inside(place, byte),
        Standing::Escaped(_) => Turn::Keep(Standing::Inside),
        Standing::Single(opened) => {
            if byte == b'\'' {
                return Turn::Move(Standing::Inside);
            }
            Turn::Keep(Standing::Single(opened))
        }
        Standing::Double(opened) => turn_in_double_quotes(opened, byte),
        Standing::DoubleEscaped(opened) => Turn::Keep(Standing::Double(opened)),
        Standing::Comment => Turn::Move(Standing::Comment),
    }
}

// The reader of a line, which contracts see as how far it was read.
#[derive(Drop)]
struct Reader {
    standing: Standing,
    word: Vec<u8>,
    words: TextList,
    place: u32,
}

impl Model for Reader {
    ghost use Rattle.vpn_text.specs.Words.{Reading};

    ghost Value = { Reading };

    ghost view = { λ r. record { standing = r.standing; word = r.word.items; words = r.words; place = r.place } };
}

impl Reader {
    ghost use Rattle.vpn_text.specs.Words.{Reading, turn_of, turned, unread, words_of};

    fn new(alloc: Global) -> Reader
        ensures { result ≡ unread }
    {
        Reader {
            standing: Standing::Between,
            word: Vec::new(alloc),
            words: TextList::new(alloc),
            place: 0,
        }
    }

    // Reads the next byte.
    fn take(&mut self, alloc: Global, byte: u8) -> Result<(), NoMemory>
        requires { self.old.place + 1 < 2 ^ 32 }
        ensures { OnOk result (self.new ≡ turned self.old (turn_of self.old.standing self.old.place byte) byte) }
    {
        match turn_of(self.standing, self.place, byte) {
            Turn::Move(standing) => {
                self.standing = standing;
                self.place += 1;
                Ok(())
            }
            Turn::Keep(standing) => {
                self.word.push(byte)?;
                self.standing = standing;
                self.place += 1;
                Ok(())
            }
            Turn::Close => {
                let word = mem::replace(&mut self.word, Vec::new(alloc));
                self.words.add(Text::of(word))?;
                self.standing = Standing::Between;
                self.place += 1;
                Ok(())
            }
        }
    }

    // The words, at the end of the line.
    fn finish(self) -> Result<TextList, Or<LineFault>>
        ensures { Answers result (words_of self) }
    {
        let Reader {
            standing,
            word,
            mut words,
            place: _,
        } = self;
        match standing {
            Standing::Between | Standing::Comment => Ok(words),
            Standing::Inside => match words.add(Text::of(word)) {
                Ok(()) => Ok(words),
                Err(NoMemory) => Err(Or::Memory),
            },
            Standing::Escaped(place) => Err(Or::Why(LineFault {
                place,
                kind: LineKind::Escape,
            })),
            Standing::Single(place) | Standing::Double(place) | Standing::DoubleEscaped(place) => {
                Err(Or::Why(LineFault {
                    place,
                    kind: LineKind::Quote,
                }))
            }
        }
    }
}

// The place of the first control byte, if there is one.
fn first_control(line: &[u8]) -> Option<usize>
    ensures { result ≡ position is_control line.now }
{
    line.iter().position(|byte| is_control(*byte))
}

// The words of a line with no control byte.
fn read_plain(alloc: Global, line: &[u8]) -> Result<TextList, Or<LineFault>>
    requires { length line.now < 2 ^ 32 }
    ensures { Answers result (words_of (read_on unread line.now)) }
{
    let mut reader = Reader::new(alloc);
    for byte in line {
        match reader.take(alloc, *byte) {
            Ok(()) => {}
            Err(NoMemory) => return Err(Or::Memory),
        }
    }
    reader.finish()
}

/// The words of a line, which spaces and tabs divide. `#` or `;` at the start of a word begins a
/// comment. A quote that no backslash takes opens wherever it stands, and what it holds is part of
/// the word, which goes on after the closing quote. In single quotes everything is literal; in
/// double quotes and outside quotes a backslash takes the next byte literally.
///
/// Of the faults `Control` comes first, for a control byte anywhere in the line, comments included;
/// then `Quote` for a quote that is not closed, and `Escape` for a backslash at the end.
#[tactic(auto, unfolding(crate::specs::Words::line_words))]
pub fn read_line(alloc: Global, line: &[u8]) -> Result<TextList, Or<LineFault>>
    requires { length line.now < 2 ^ 32 }
    ensures { Answers result (line_words line.now) }
{
    match first_control(line) {
        Some(place) => Err(Or::Why(LineFault {
            place: place as u32,
            kind: LineKind::Control,
        })),
        None => read_plain(alloc, line),
    }
}
