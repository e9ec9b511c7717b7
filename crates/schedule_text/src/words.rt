//! The words of a line, and the values that they spell.

ghost use Rattle.std.specs.Prelude.{◌≡◌, ◌==◌, [], ◌∷◌, Some, None, MatchOption, IfOk, IfSome, ◌*◌, ◌≤◌, length};
ghost use Rattle.std.specs.List.{slice_split};
ghost use Rattle.std.specs.Option.{option_copied};
ghost use Rattle.vpn_base.specs.WordCount.{one_of, two_of};
ghost use Rattle.schedule_text.specs.Words.{words_of, network_of, bytes_of};
ghost use Rattle.schedule_text.specs.internal.Arguments.{arguments_of};

use hex::FromHexError;
use std::alloc::Global;
use vpn_base::{Bytes, NoMemory, Prefix, read_ip4, read_number, split_once};

// The two parts of a text around a byte that stands in it once.
pub(crate) fn two_parts(text: &[u8], byte: u8) -> Option<(&[u8], &[u8])>
    ensures { MatchOption result
        (two_of (slice_split (λ c. c == byte) text.now) ≡ None)
        (λ parts. two_of (slice_split (λ c. c == byte) text.now) ≡ Some (parts.0.now, parts.1.now)) }
{
    match split_once(text, byte) {
        None => None,
        Some((first, rest)) => match split_once(rest, byte) {
            None => Some((first, rest)),
            Some(_) => None,
        },
    }
}

/// The first word of a text, and the text of the words behind it, if there are any.
pub(crate) fn next_word(text: Option<&[u8]>) -> Option<(&[u8], Option<&[u8]>)>
    ensures { MatchOption result
        (arguments_of (option_copied text.entry) ≡ [])
        (λ parts. arguments_of (option_copied text.entry) ≡ parts.0.now ∷ arguments_of (option_copied parts.1)) }
{
    match text {
        None => None,
        Some(text) => match split_once(text, b' ') {
            None => Some((text, None)),
            Some((first, rest)) => Some((first, Some(rest))),
        },
    }
}

/// The one word of a text, if it has one and no more.
pub(crate) fn one_word(text: Option<&[u8]>) -> Option<&[u8]>
    ensures { MatchOption result
        (one_of (arguments_of (option_copied text.entry)) ≡ None)
        (λ word. one_of (arguments_of (option_copied text.entry)) ≡ Some word.now) }
{
    match text {
        None => None,
        Some(text) => match split_once(text, b' ') {
            None => Some(text),
            Some(_) => None,
        },
    }
}

/// The two words of a text, if it has two and no more.
pub(crate) fn two_words(text: Option<&[u8]>) -> Option<(&[u8], &[u8])>
    ensures { MatchOption result
        (two_of (arguments_of (option_copied text.entry)) ≡ None)
        (λ words. two_of (arguments_of (option_copied text.entry)) ≡ Some (words.0.now, words.1.now)) }
{
    match text {
        None => None,
        Some(text) => two_parts(text, b' '),
    }
}

/// The prefix that a word spells, as `10.8.0.0/24`.
#[tactic(auto, unfolding(crate::specs::Words::network_of))]
pub(crate) fn read_prefix(word: &[u8]) -> Option<Prefix>
    ensures { result ≡ network_of word.now }
{
    let (net, len) = two_parts(word, b'/')?;
    let net = read_ip4(net)?;
    let len = read_number(len, 32)?;
    Prefix::new(net, len as u8)
}

/// The bytes that a word spells: `-` for none, or an even number of hexadecimal digits of either
/// case.
#[tactic(auto, unfolding(crate::specs::Words::bytes_of))]
pub(crate) fn read_bytes(alloc: Global, word: &[u8]) -> Result<Option<Bytes>, NoMemory>
    ensures same { IfOk result (λ bytes. bytes ≡ bytes_of word.now) }
    ensures short { IfOk result (λ bytes. IfSome bytes (λ b. 2 * length b ≤ length word.now)) }
{
    if word.is_empty() {
        return Ok(None);
    }
    if word == b"-".as_slice() {
        return Ok(Some(Bytes::of(Vec::new(alloc))));
    }
    match hex::decode(alloc, word) {
        Ok(bytes) => Ok(Some(Bytes::of(bytes))),
        Err(FromHexError::OutOfMemory) => Err(NoMemory),
        Err(_) => Ok(None),
    }
}
