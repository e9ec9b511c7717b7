//! The options of a push reply, as a client reads them.

ghost use Rattle.std.specs.Prelude.{◌≡◌, ◌≤◌, [], ◌++◌, IfOk, IfSome, OnOk};
ghost use Rattle.push_options.specs.Received.{address_in, cipher_in, gateway_in, if_any, if_own, is_own, is_same, is_subnet, mark_in, name_of, number_in, received, received_as, route_in, words_in};
ghost use Rattle.push_options.specs.internal.Masked.{IsMasked};

use std::alloc::Global;
use std::mem;
use vpn_base::{Cipher, Ip4, NoMemory, Policy, Prefix, Text, TextList, read_ip4, read_number};
use vpn_text::{is_blank, read_cipher, read_mask, read_network};

// What the first word of an option names.
#[derive(Clone, Copy)]
pub(crate) enum Name {
    Address,
    Peer,
    Cipher,
    Topology,
    Gateway,
    Route,
    Ping,
    PingRestart,
    Continuation,
    Refused,
    Other,
}

// What an option says.
#[derive(Clone, Copy)]
pub(crate) enum Meaning {
    // `ifconfig`, with an address and the length of its mask.
    Address(Ip4, u8),
    // `peer-id`.
    Peer(u32),
    // `cipher`.
    Cipher(Cipher),
    // `route-gateway`.
    Gateway(Ip4),
    // `route`.
    Route(Prefix),
    // `ping`, in seconds.
    Ping(u32),
    // `ping-restart`, in seconds.
    PingRestart(u32),
    // `push-continuation`: whether more parts follow.
    Continuation(bool),
    // `topology subnet`, which says nothing new.
    Nothing,
    // An option of another name.
    Unread,
}

#[tactic(auto, unfolding(crate::specs::Received::name_of))]
fn name_of(word: &[u8]) -> Name
    ensures { result ≡ name_of word.now }
{
    if word == b"ifconfig".as_slice() {
        return Name::Address;
    }
    if word == b"peer-id".as_slice() {
        return Name::Peer;
    }
    if word == b"cipher".as_slice() {
        return Name::Cipher;
    }
    if word == b"topology".as_slice() {
        return Name::Topology;
    }
    if word == b"route-gateway".as_slice() {
        return Name::Gateway;
    }
    if word == b"route".as_slice() {
        return Name::Route;
    }
    if word == b"ping".as_slice() {
        return Name::Ping;
    }
    if word == b"ping-restart".as_slice() {
        return Name::PingRestart;
    }
    if word == b"push-continuation".as_slice() {
        return Name::Continuation;
    }
    if word == b"compress".as_slice() {
        return Name::Refused;
    }
    if word == b"comp-lzo".as_slice() {
        return Name::Refused;
    }
    Name::Other
}

fn number_in(words: &[Text], most: u32) -> Option<u32>
    ensures { result ≡ number_in most words.now }
{
    match words {
        [word] => match read_number(word.as_slice(), u64::from(most)) {
            None => None,
            Some(n) => Some(n as u32),
        },
        _ => None,
    }
}

fn address_in(words: &[Text]) -> Option<(Ip4, u8)>
    ensures same { result ≡ address_in words.now }
    ensures within { IfSome result (λ t. t.1 ≤ 32) }
{
    match words {
        [ip, mask] => match (read_ip4(ip.as_slice()), read_mask(mask.as_slice())) {
            (Some(a), Some(len)) => Some((a, len)),
            _ => None,
        },
        _ => None,
    }
}

fn is_same(one: Cipher, other: Cipher) -> bool
    ensures { result ≡ is_same one other }
{
    match (one, other) {
        (Cipher::Aes128Gcm, Cipher::Aes128Gcm) => true,
        (Cipher::Aes128Gcm, Cipher::Aes256Gcm) => false,
        (Cipher::Aes256Gcm, Cipher::Aes128Gcm) => false,
        (Cipher::Aes256Gcm, Cipher::Aes256Gcm) => true,
    }
}

fn is_own(ours: Policy, cipher: Cipher) -> bool
    ensures { result ≡ is_own ours cipher }
{
    match ours {
        Policy::Fixed(only) => is_same(only, cipher),
        Policy::Choose {
            first,
            second: None,
        } => is_same(first, cipher),
        Policy::Choose {
            first,
            second: Some(second),
        } => is_same(first, cipher) || is_same(second, cipher),
    }
}

fn if_own(ours: Policy, cipher: Option<Cipher>) -> Option<Cipher>
    ensures { result ≡ if_own ours cipher }
{
    match cipher {
        None => None,
        Some(cipher) => {
            if is_own(ours, cipher) {
                Some(cipher)
            } else {
                None
            }
        }
    }
}

fn cipher_in(ours: Policy, words: &[Text]) -> Option<Cipher>
    ensures { result ≡ cipher_in ours words.now }
{
    match words {
        [word] => if_own(ours, read_cipher(word.as_slice())),
        _ => None,
    }
}

fn is_subnet(words: &[Text]) -> bool
    ensures { result ≡ is_subnet words.now }
{
    match words {
        [word] => word.as_slice() == b"subnet".as_slice(),
        _ => false,
    }
}

fn gateway_in(words: &[Text]) -> Option<Ip4>
    ensures { result ≡ gateway_in words.now }
{
    match words {
        [word] => read_ip4(word.as_slice()),
        _ => None,
    }
}

#[tactic(auto, unfolding(crate::specs::Received::host_mask))]
fn route_in(words: &[Text]) -> Option<Prefix>
    ensures { result ≡ route_in words.now }
{
    match words {
        [net] => read_network(net.as_slice(), b"255.255.255.255"),
        [net, mask] | [net, mask, _] | [net, mask, _, _] => {
            read_network(net.as_slice(), mask.as_slice())
        }
        _ => None,
    }
}

fn mark_in(words: &[Text]) -> Option<bool>
    ensures { result ≡ mark_in words.now }
{
    match words {
        [word] => {
            if word.as_slice() == b"1".as_slice() {
                Some(false)
            } else if word.as_slice() == b"2".as_slice() {
                Some(true)
            } else {
                None
            }
        }
        _ => None,
    }
}

fn received_as(ours: Policy, name: Name, words: &[Text]) -> Option<Meaning>
    ensures same { result ≡ received_as ours name words.now }
    ensures masked { IfSome result IsMasked }
{
    match name {
        Name::Address => {
            let (a, len) = address_in(words)?;
            Some(Meaning::Address(a, len))
        }
        Name::Peer => Some(Meaning::Peer(number_in(words, 0xFF_FFFE)?)),
        Name::Cipher => Some(Meaning::Cipher(cipher_in(ours, words)?)),
        Name::Topology => {
            if is_subnet(words) {
                Some(Meaning::Nothing)
            } else {
                None
            }
        }
        Name::Gateway => Some(Meaning::Gateway(gateway_in(words)?)),
        Name::Route => Some(Meaning::Route(route_in(words)?)),
        Name::Ping => Some(Meaning::Ping(number_in(words, u32::MAX)?)),
        Name::PingRestart => Some(Meaning::PingRestart(number_in(words, u32::MAX)?)),
        Name::Continuation => Some(Meaning::Continuation(mark_in(words)?)),
        Name::Refused => None,
        Name::Other => Some(Meaning::Unread),
    }
}

// What an option of these words says; None where it is refused.
pub(crate) fn received(ours: Policy, words: &[Text]) -> Option<Meaning>
    ensures same { result ≡ received ours words.now }
    ensures masked { IfSome result IsMasked }
{
    match words {
        [] => Some(Meaning::Unread),
        [name, words @ ..] => received_as(ours, name_of(name.as_slice()), words),
    }
}

// Adds a word, if it has a byte, and begins the next one.
fn end_word(alloc: Global, words: &mut TextList, word: &mut Vec<u8>) -> Result<(), NoMemory>
    ensures words { OnOk result (words.new ≡ words.old ++ if_any word.old.items) }
    ensures word { OnOk result (word.new.items ≡ []) }
{
    if word.is_empty() {
        return Ok(());
    }
    let ended = mem::replace(word, Vec::new(alloc));
    words.add(Text::of(ended))
}

// The words of an option.
pub(crate) fn words_in(alloc: Global, option: &[u8]) -> Result<TextList, NoMemory>
    ensures { IfOk result (λ words. words ≡ words_in option.now) }
{
    let mut words = TextList::new(alloc);
    let mut word = Vec::new(alloc);
    for byte in option {
        if is_blank(*byte) {
            end_word(alloc, &mut words, &mut word)?;
        } else {
            word.push(*byte)?;
        }
    }
    end_word(alloc, &mut words, &mut word)?;
    Ok(words)
}
