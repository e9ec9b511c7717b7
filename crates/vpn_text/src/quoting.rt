//! Words written into a line, and texts that may be pushed.

ghost use Rattle.std.specs.Prelude.{◌≡◌, ℕ, ◌<◌, ◌==◌, ◌++◌, not, true, List, IfOk, OnOk, OnErr, Ok, length, map};
ghost use Rattle.std.specs.List.{list_all, list_any, join_with_byte};
ghost use Rattle.vpn_text.specs.Words.{is_control, line_words};
ghost use Rattle.vpn_text.specs.Quoted.{is_special, needs_quotes, escaped, quoted, may_be_pushed};

use std::alloc::Global;
use vpn_base::NoMemory;

// The greatest length of an option that is pushed, in bytes.
const LONGEST_PUSH: usize = 255;

fn is_special(byte: u8) -> bool
    ensures { result ≡ is_special byte }
{
    byte == b' '
        || byte == b'\t'
        || byte == b'\''
        || byte == b'"'
        || byte == b'\\'
        || byte == b'#'
        || byte == b';'
}

fn has_special(word: &[u8]) -> bool
    ensures { result ≡ list_any is_special word.now }
{
    word.iter().any(|byte| is_special(*byte))
}

fn needs_quotes(word: &[u8]) -> bool
    ensures { result ≡ needs_quotes word.now }
{
    word.is_empty() || has_special(word)
}

// Adds a word with its escapes.
fn add_escaped(out: &mut Vec<u8>, word: &[u8]) -> Result<(), NoMemory>
    ensures { OnOk result (out.new.items ≡ out.old.items ++ escaped word.now) }
{
    for byte in word {
        if *byte == b'"' || *byte == b'\\' {
            out.push(b'\\')?;
        }
        out.push(*byte)?;
    }
    Ok(())
}

// The text of a word.
#[tactic(auto, unfolding(crate::specs::Quoted::quoted))]
fn quoted_text(alloc: Global, word: &[u8]) -> Result<Vec<u8>, NoMemory>
    ensures { IfOk result (λ v. v.items ≡ quoted word.now) }
{
    if !needs_quotes(word) {
        return Ok(Vec::from_slice(alloc, word)?);
    }
    let mut text = Vec::new(alloc);
    text.push(b'"')?;
    add_escaped(&mut text, word)?;
    text.push(b'"')?;
    Ok(text)
}

/// Appends a word as a line has it: in double quotes, with a backslash before each `"` and `\`,
/// where the word is empty or has a space, a tab, a quote of either kind, a backslash, `#` or `;`,
/// and else as it stands. After want of memory the text is as before.
pub fn write_word(out: &mut Vec<u8>, word: &[u8]) -> Result<(), NoMemory>
    ensures ok { OnOk result (out.new.items ≡ out.old.items ++ quoted word.now) }
    ensures err { OnErr result (out.new.items ≡ out.old.items) }
{
    let text = quoted_text(*out.allocator(), word)?;
    out.extend_from_slice(&text)?;
    Ok(())
}

fn has_no_comma(text: &[u8]) -> bool
    ensures { result ≡ list_all (λ c. not (c == 44)) text.now }
{
    text.iter().all(|byte| *byte != b',')
}

/// Whether a text can be an option of a push reply: at most 255 bytes, and no comma.
#[tactic(auto, unfolding(crate::specs::Quoted::may_be_pushed))]
pub fn is_push_text(text: &[u8]) -> bool
    ensures { result ≡ may_be_pushed text.now }
{
    if text.len() > LONGEST_PUSH {
        return false;
    }
    has_no_comma(text)
}

/// Words without control bytes, written one after another with a space between them, are read as
/// those words.
pub fn reads_words_again()
    ensures { (words : List (List ℕ)) → list_all (λ word. list_all (λ c. not (is_control c)) word) words ≡ true
        → line_words (join_with_byte 32 (map quoted words)) ≡ Ok words }
{}
