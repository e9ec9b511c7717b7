//! The peer info: lines NAME=value, each ended by a line feed.

ghost use Rattle.std.specs.Prelude.{◌≡◌, find};
ghost use Rattle.std.specs.Option.{option_copied};
ghost use Rattle.key_method2.specs.Info.{value_in, value_of, is_named, offers, asks_push, has_bit_2, spells_bit_2};

use vpn_base::{Cipher, read_number, split_once};

/// The bit of IV_PROTO by which a client asks to be established at once (OpenVPN's ssl.h,
/// IV_PROTO_REQUEST_PUSH).
const REQUEST_PUSH: u64 = 4;

// The value of a line that begins with the name and an equals sign.
fn value_in_line<'a>(line: &'a [u8], name: &[u8]) -> Option<&'a [u8]>
    ensures { option_copied result ≡ value_in name.now line.now }
{
    if !line.starts_with(name) {
        return None;
    }
    match &line[name.len()..] {
        [b'=', value @ ..] => Some(value),
        _ => None,
    }
}

/// The value in the first line `NAME=value` that has the name; None exactly where no line has it.
/// Lines are ended by line feeds; what stands behind the last one is a line too.
#[tactic(auto, unfolding(crate::specs::Info::value_of))]
pub fn info_value<'a>(info: &'a [u8], name: &[u8]) -> Option<&'a [u8]>
    ensures { option_copied result ≡ value_of info.now name.now }
{
    let mut rest = info;
    while let Some((line, after)) = split_once(rest, b'\n') {
        let value = value_in_line(line, name);
        if value.is_some() {
            return value;
        }
        rest = after;
    }
    value_in_line(rest, name)
}

// Whether a name is one of those that are joined by colons.
fn is_one_of(names: &[u8], name: &[u8]) -> bool
    ensures { result ≡ is_named name.now names.now }
{
    let mut rest = names;
    while let Some((piece, after)) = split_once(rest, b':') {
        if piece == name {
            return true;
        }
        rest = after;
    }
    rest == name
}

/// The first of our ciphers that the peer info names in the colon-joined list `IV_CIPHERS`; None exactly
/// where it names none of them.
#[tactic(auto, unfolding(crate::specs::Info::offers))]
pub fn choose_cipher(ours: &[Cipher], info: &[u8]) -> Option<Cipher>
    ensures { result ≡ find (offers info.now) ours.now }
{
    match info_value(info, b"IV_CIPHERS") {
        None => None,
        Some(names) => ours
            .iter()
            .copied()
            .find(|cipher| is_one_of(names, cipher.name())),
    }
}

/// Whether the peer info asks to be established at once: `IV_PROTO` is a decimal number below 2^64, with
/// no leading zero, whose bit of value 4 is set.
#[tactic(auto, unfolding(crate::specs::Info::asks_push))]
pub fn asks_push(info: &[u8]) -> bool
    ensures { result ≡ asks_push info.now }
{
    match info_value(info, b"IV_PROTO") {
        None => false,
        Some(text) => match read_number(text, u64::MAX) {
            None => false,
            Some(number) => number & REQUEST_PUSH != 0,
        },
    }
}
