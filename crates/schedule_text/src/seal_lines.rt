//! Reading the lines that name keys, and those that seal and open data packets.

ghost use Rattle.std.specs.Prelude.{◌≡◌, ◌<◌, ◌≤◌, ◌^◌, length, IfOk, IfSome};
ghost use Rattle.std.specs.Option.{option_copied};
ghost use Rattle.vpn_base.specs.Answers.{Answers};
ghost use Rattle.vpn_base.specs.WordCount.{are_none};
ghost use Rattle.schedule_text.specs.Words.{bytes_of};
ghost use Rattle.schedule_text.specs.internal.Arguments.{arguments_of};
ghost use Rattle.schedule_text.specs.SealLines.{IsBounded, cipher_of, key_id_of, key_length, key_line, key_of, packet_id_of, peer_of, seal_line, seal_of, sized, unseal_line, unseal_of};

use crate::kind::TextKind;
use crate::route_line::{GREATEST_PEER, LONGEST_SEAL, LONGEST_UNSEAL, RouteLine};
use crate::words::{next_word, read_bytes, two_words};
use std::alloc::Global;
use vpn_base::{Bytes, Cid, Cipher, NoMemory, Or, read_number};

type Read = Result<RouteLine, Or<TextKind>>;

fn read_peer(word: &[u8]) -> Option<u64>
    ensures same { result ≡ peer_of word.now }
    ensures below { IfSome result (λ cid. cid < 2 ^ 24) }
{
    read_number(word, GREATEST_PEER)
}

fn read_key_id(word: &[u8]) -> Option<u8>
    ensures same { result ≡ key_id_of word.now }
    ensures below { IfSome result (λ kid. kid < 8) }
{
    match read_number(word, 7) {
        None => None,
        Some(kid) => Some(kid as u8),
    }
}

fn read_packet_id(word: &[u8]) -> Option<u32>
    ensures { result ≡ packet_id_of word.now }
{
    match read_number(word, u32::MAX as u64) {
        None => None,
        Some(0) => None,
        Some(id) => Some(id as u32),
    }
}

fn read_cipher(word: &[u8]) -> Option<Cipher>
    ensures { result ≡ cipher_of word.now }
{
    if word == b"AES-128-GCM".as_slice() {
        return Some(Cipher::Aes128Gcm);
    }
    if word == b"AES-256-GCM".as_slice() {
        return Some(Cipher::Aes256Gcm);
    }
    None
}

// How many bytes the cipher's key has.
fn length_of(cipher: Cipher) -> usize
    ensures { result ≡ key_length cipher }
{
    match cipher {
        Cipher::Aes128Gcm => 16,
        Cipher::Aes256Gcm => 32,
    }
}

// The bytes that a word spells, if there are exactly so many.
fn read_sized(alloc: Global, word: &[u8], count: usize) -> Result<Option<Bytes>, NoMemory>
    ensures same { IfOk result (λ bytes. bytes ≡ sized count (bytes_of word.now)) }
    ensures length { IfOk result (λ bytes. IfSome bytes (λ b. length b ≡ count)) }
{
    let Some(bytes) = read_bytes(alloc, word)? else {
        return Ok(None);
    };
    if bytes.as_slice().len() == count {
        Ok(Some(bytes))
    } else {
        Ok(None)
    }
}

// The eight bytes that a word spells, if it spells eight.
fn read_implicit(alloc: Global, word: &[u8]) -> Result<Option<[u8; 8]>, NoMemory>
    ensures { IfOk result (λ iv. iv ≡ sized 8 (bytes_of word.now)) }
{
    let Some(bytes) = read_sized(alloc, word, 8)? else {
        return Ok(None);
    };
    let mut iv = [0u8; 8];
    iv.copy_from_slice(bytes.as_slice());
    Ok(Some(iv))
}

// Whether no words are left.
fn is_end(rest: Option<&[u8]>) -> bool
    ensures { result ≡ are_none (arguments_of (option_copied rest.entry)) }
{
    match rest {
        None => true,
        Some(_) => false,
    }
}

fn read_seal_words(alloc: Global, cid: &[u8], kid: &[u8], id: &[u8], inner: &[u8]) -> Read
    requires { length inner.now ≤ 3000 }
    ensures exact { Answers result (seal_of (peer_of cid.now) (key_id_of kid.now) (packet_id_of id.now) (bytes_of inner.now)) }
    ensures bounded { IfOk result IsBounded }
{
    let Some(cid) = read_peer(cid) else {
        return Err(Or::Why(TextKind::Number));
    };
    let Some(kid) = read_key_id(kid) else {
        return Err(Or::Why(TextKind::Number));
    };
    let Some(id) = read_packet_id(id) else {
        return Err(Or::Why(TextKind::Number));
    };
    let Ok(inner) = read_bytes(alloc, inner) else {
        return Err(Or::Memory);
    };
    let Some(inner) = inner else {
        return Err(Or::Why(TextKind::Digits));
    };
    let cid = Cid(cid);
    Ok(RouteLine::Seal {
        cid,
        kid,
        id,
        inner,
    })
}

fn read_unseal_words(alloc: Global, cid: &[u8], kid: &[u8], datagram: &[u8]) -> Read
    requires { length datagram.now ≤ 3048 }
    ensures exact { Answers result (unseal_of (peer_of cid.now) (key_id_of kid.now) (bytes_of datagram.now)) }
    ensures bounded { IfOk result IsBounded }
{
    let Some(cid) = read_peer(cid) else {
        return Err(Or::Why(TextKind::Number));
    };
    let Some(kid) = read_key_id(kid) else {
        return Err(Or::Why(TextKind::Number));
    };
    let Ok(datagram) = read_bytes(alloc, datagram) else {
        return Err(Or::Memory);
    };
    let Some(datagram) = datagram else {
        return Err(Or::Why(TextKind::Digits));
    };
    let cid = Cid(cid);
    Ok(RouteLine::Unseal { cid, kid, datagram })
}

fn read_key_words(
    alloc: Global,
    cid: &[u8],
    kid: &[u8],
    cipher: Cipher,
    key: &[u8],
    iv: &[u8],
) -> Read
    ensures exact { Answers result (key_of (peer_of cid.now) (key_id_of kid.now) cipher
        (sized (key_length cipher) (bytes_of key.now)) (sized 8 (bytes_of iv.now))) }
    ensures bounded { IfOk result IsBounded }
{
    let Some(cid) = read_peer(cid) else {
        return Err(Or::Why(TextKind::Number));
    };
    let Some(kid) = read_key_id(kid) else {
        return Err(Or::Why(TextKind::Number));
    };
    let Ok(key) = read_sized(alloc, key, length_of(cipher)) else {
        return Err(Or::Memory);
    };
    let Some(key) = key else {
        return Err(Or::Why(TextKind::Digits));
    };
    let Ok(iv) = read_implicit(alloc, iv) else {
        return Err(Or::Memory);
    };
    let Some(iv) = iv else {
        return Err(Or::Why(TextKind::Digits));
    };
    let cid = Cid(cid);
    Ok(RouteLine::Key {
        cid,
        kid,
        cipher,
        key,
        iv,
    })
}

/// The line of the words behind `key`.
#[tactic(auto, unfolding(crate::specs::SealLines::key_line))]
pub(crate) fn read_key(alloc: Global, arguments: Option<&[u8]>) -> Read
    ensures exact { Answers result (key_line (arguments_of (option_copied arguments.entry))) }
    ensures bounded { IfOk result IsBounded }
{
    let Some((cid, rest)) = next_word(arguments) else {
        return Err(Or::Why(TextKind::Words));
    };
    let Some((kid, rest)) = next_word(rest) else {
        return Err(Or::Why(TextKind::Words));
    };
    let Some((cipher, rest)) = next_word(rest) else {
        return Err(Or::Why(TextKind::Words));
    };
    let Some((key, iv)) = two_words(rest) else {
        return Err(Or::Why(TextKind::Words));
    };
    let Some(cipher) = read_cipher(cipher) else {
        return Err(Or::Why(TextKind::Words));
    };
    read_key_words(alloc, cid, kid, cipher, key, iv)
}

/// The line of the words behind `seal`.
#[tactic(auto, unfolding(crate::specs::SealLines::seal_line))]
pub(crate) fn read_seal(alloc: Global, arguments: Option<&[u8]>) -> Read
    ensures exact { Answers result (seal_line (arguments_of (option_copied arguments.entry))) }
    ensures bounded { IfOk result IsBounded }
{
    let Some((cid, rest)) = next_word(arguments) else {
        return Err(Or::Why(TextKind::Words));
    };
    let Some((kid, rest)) = next_word(rest) else {
        return Err(Or::Why(TextKind::Words));
    };
    let Some((id, rest)) = next_word(rest) else {
        return Err(Or::Why(TextKind::Words));
    };
    let Some((inner, rest)) = next_word(rest) else {
        return Err(Or::Why(TextKind::Words));
    };
    if inner.len() > LONGEST_SEAL {
        return Err(Or::Why(TextKind::Long));
    }
    if !is_end(rest) {
        return Err(Or::Why(TextKind::Words));
    }
    read_seal_words(alloc, cid, kid, id, inner)
}

/// The line of the words behind `unseal`.
#[tactic(auto, unfolding(crate::specs::SealLines::unseal_line))]
pub(crate) fn read_unseal(alloc: Global, arguments: Option<&[u8]>) -> Read
    ensures exact { Answers result (unseal_line (arguments_of (option_copied arguments.entry))) }
    ensures bounded { IfOk result IsBounded }
{
    let Some((cid, rest)) = next_word(arguments) else {
        return Err(Or::Why(TextKind::Words));
    };
    let Some((kid, rest)) = next_word(rest) else {
        return Err(Or::Why(TextKind::Words));
    };
    let Some((datagram, rest)) = next_word(rest) else {
        return Err(Or::Why(TextKind::Words));
    };
    if datagram.len() > LONGEST_UNSEAL {
        return Err(Or::Why(TextKind::Long));
    }
    if !is_end(rest) {
        return Err(Or::Why(TextKind::Words));
    }
    read_unseal_words(alloc, cid, kid, datagram)
}
