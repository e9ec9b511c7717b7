//! Directives, written.

ghost use Rattle.std.specs.Prelude.{◌≡◌, ◌∷◌, ◌++◌, drop, IfOk, OnOk};
ghost use Rattle.vpn_text.specs.Quoted.{quoted};
ghost use Rattle.config_directives.specs.Items.{arguments_of};
ghost use Rattle.ovpn_config.specs.Spelling.{block_text, item_text, words_text};

use config_directives::Item;
use std::alloc::Global;
use vpn_base::{NoMemory, Text, TextList};
use vpn_text::write_word;

// Adds a word behind a space.
fn add_word(text: &mut Vec<u8>, word: &[u8]) -> Result<(), NoMemory>
    ensures { OnOk result (text.new.items ≡ text.old.items ++ 32 ∷ quoted word.now) }
{
    text.push(b' ')?;
    write_word(text, word)
}

// The words from a place on, in quotes where they need them, with a space between each two.
fn words_from(alloc: Global, words: &TextList, from: usize) -> Result<Vec<u8>, NoMemory>
    ensures { IfOk result (λ text. text.items ≡ words_text (drop from words.now)) }
{
    let mut text = Vec::new(alloc);
    let count = words.count();
    if from >= count {
        return Ok(text);
    }
    let Some(first) = words.item(from) else {
        return Ok(text);
    };
    write_word(&mut text, first.as_slice())?;
    'words: for i in from + 1..count {
        let Some(word) = words.item(i) else {
            return Ok(text);
        };
        add_word(&mut text, word.as_slice())?;
    }
    Ok(text)
}

/// A block with its two outer lines, all of its lines joined by line feeds.
pub fn block_text(alloc: Global, name: &[u8], bytes: &[u8]) -> Result<Vec<u8>, NoMemory>
    ensures { IfOk result (λ text. text.items ≡ block_text name.now bytes.now) }
{
    let mut text = Vec::new(alloc);
    text.extend_from_slice(b"<")?;
    text.extend_from_slice(name)?;
    text.extend_from_slice(b">")?;
    text.push(b'\n')?;
    text.extend_from_slice(bytes)?;
    text.extend_from_slice(b"</")?;
    text.extend_from_slice(name)?;
    text.extend_from_slice(b">")?;
    Ok(text)
}

/// A directive: its words, or its whole block.
pub fn item_text(alloc: Global, item: &Item) -> Result<Text, NoMemory>
    ensures { IfOk result (λ text. text ≡ item_text item.now) }
{
    let text = match item {
        Item::Words(words) => words_from(alloc, words, 0)?,
        Item::Block { name, bytes } => match bytes {
            None => block_text(alloc, name.as_slice(), &[])?,
            Some(bytes) => block_text(alloc, name.as_slice(), bytes.as_slice())?,
        },
    };
    Ok(Text::of(text))
}

/// The words behind the name of a directive.
pub fn arguments_text(alloc: Global, item: &Item) -> Result<Text, NoMemory>
    ensures { IfOk result (λ text. text ≡ words_text (arguments_of item.now)) }
{
    match item {
        Item::Words(words) => Ok(Text::of(words_from(alloc, words, 1)?)),
        Item::Block { .. } => Ok(Text::of(Vec::new(alloc))),
    }
}
