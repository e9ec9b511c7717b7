//! Reading a key exchange message from the front of a plain text.

ghost use Rattle.std.specs.Prelude.{◌≡◌, ℕ, ◌+◌, ◌-◌, ◌≤◌, ◌<◌, ◌↔◌, ◌^◌, List, ◌++◌, length, take, drop, IfOk, IfErr};
ghost use Rattle.key_method2.specs.Message.{HasAllTexts, EndsEarly, opening};
ghost use Rattle.key_method2.specs.Judging.{IsFound, IsCut, IsWrongAt, kind_at};
ghost use Rattle.key_method2.specs.Reading.{first_difference, opened, source_at, text_at, text_from, text_if_any, parts_at, reading};
ghost use Rattle.key_method2.specs.Views.{message_seen, read_seen};
ghost use Rattle.key_method2.specs.internal.Returned.{Gives, StopsBy, EndsBy};

use crate::message::{Km2, Km2Bad, Km2Read, Km2View, Km2ViewRead, Source};
use crate::stop::Stop;
use std::alloc::Global;
use vpn_base::{NoMemory, Role};

// Four zero bytes, and the byte that names key method 2.
const OPENING: [u8; 5] = [0, 0, 0, 0, 2];

// How far the opening stands at the front.
fn opening_of(bytes: &[u8]) -> Result<usize, Stop>
    ensures gives { Gives (λ x. x) result (opened (first_difference opening bytes.now)) }
    ensures short { IfErr result (StopsBy 4) }
{
    for place in 0..OPENING.len().min(bytes.len()) {
        if bytes[place] != OPENING[place] {
            return Err(Stop::Wrong(place));
        }
    }
    Ok(OPENING.len())
}

// So many bytes from a place on.
fn array_at<const N: usize>(bytes: &[u8], at: usize) -> [u8; N]
    requires { at + N ≤ length bytes.now }
    ensures { result ≡ take N (drop at bytes.now) }
{
    let mut array = [0; N];
    array.copy_from_slice(&bytes[at..at + N]);
    array
}

// The key source behind the opening, and where it ends.
#[tactic(auto, unfolding(crate::specs::Reading::source_at))]
fn source_of(bytes: &[u8], from: Role) -> Result<(Source, usize), Stop>
    ensures gives { Gives (λ x. x) result (source_at from bytes.now) }
    ensures inside { EndsBy (length bytes.now) result }
    ensures short { EndsBy 117 result }
{
    match from {
        Role::Server => {
            if bytes.len() < 69 {
                return Err(Stop::Cut);
            }
            let source = Source {
                pre: None,
                random1: array_at(bytes, 5),
                random2: array_at(bytes, 37),
            };
            Ok((source, 69))
        }
        Role::Client => {
            if bytes.len() < 117 {
                return Err(Stop::Cut);
            }
            let source = Source {
                pre: Some(array_at(bytes, 5)),
                random1: array_at(bytes, 53),
                random2: array_at(bytes, 85),
            };
            Ok((source, 117))
        }
    }
}

// The text at the front, and how many bytes it takes.
#[tactic(auto, unfolding(crate::specs::Reading::text_at))]
fn text_of(bytes: &[u8]) -> Result<(&[u8], usize), Stop>
    ensures gives { Gives (λ x. (x.0.now, x.1)) result (text_at bytes.now) }
    ensures inside { EndsBy (length bytes.now) result }
    ensures short { EndsBy 65537 result }
{
    if bytes.len() < 2 {
        return Err(Stop::Cut);
    }
    let (front, rest) = bytes.split_at(2);
    let size = u16::from_be_bytes([front[0], front[1]]) as usize;
    if size == 0 {
        return Ok((&[], 2));
    }
    if rest.len() < size {
        return Err(Stop::Cut);
    }
    if rest[size - 1] != 0 {
        return Err(Stop::Wrong(size + 1));
    }
    Ok((&rest[..size - 1], size + 2))
}

// The text that begins at a place, and where it ends.
#[tactic(auto, unfolding(crate::specs::Reading::text_from))]
fn text_at_place(bytes: &[u8], at: usize) -> Result<(&[u8], usize), Stop>
    requires { at ≤ length bytes.now }
    ensures gives { Gives (λ x. (x.0.now, x.1)) result (text_from at bytes.now) }
    ensures inside { EndsBy (length bytes.now) result }
    ensures short { EndsBy (at + 65537) result }
{
    match text_of(&bytes[at..]) {
        Ok((text, size)) => Ok((text, at + size)),
        Err(Stop::Cut) => Err(Stop::Cut),
        Err(Stop::Wrong(place)) => Err(Stop::Wrong(at + place)),
    }
}

// The same where the message may end before it.
#[tactic(auto, unfolding(crate::specs::Reading::text_if_any))]
fn next_text(bytes: &[u8], at: usize) -> Result<(&[u8], usize), Stop>
    requires { at ≤ length bytes.now }
    ensures gives { Gives (λ x. (x.0.now, x.1)) result (text_if_any at bytes.now) }
    ensures inside { EndsBy (length bytes.now) result }
    ensures short { EndsBy (at + 65537) result }
{
    if at == bytes.len() {
        return Ok((&[], at));
    }
    text_at_place(bytes, at)
}

// The message at the front, and where it ends.
#[tactic(auto, unfolding(crate::specs::Reading::parts_at, crate::specs::Reading::texts_if_any))]
fn parts_of(bytes: &[u8], from: Role) -> Result<(Km2View<'_>, usize), Stop>
    ensures gives { Gives (λ x. (message_seen x.0, x.1)) result (parts_at from bytes.now) }
    ensures short { EndsBy 262265 result }
{
    opening_of(bytes)?;
    let (source, at) = source_of(bytes, from)?;
    let (options, at) = text_at_place(bytes, at)?;
    let (user, at) = next_text(bytes, at)?;
    let (pass, at) = next_text(bytes, at)?;
    let (info, at) = next_text(bytes, at)?;
    let view = Km2View {
        source,
        options,
        user,
        pass,
        info,
    };
    Ok((view, at))
}

// What is wrong at a place.
fn kind_of(place: usize) -> Km2Bad
    ensures { result ≡ kind_at place }
{
    if place < 4 {
        Km2Bad::Zeros
    } else if place == 4 {
        Km2Bad::Method
    } else {
        Km2Bad::TextEnd
    }
}

// What stands at the front, where it lies.
#[tactic(auto, unfolding(crate::specs::Reading::reading))]
fn look(bytes: &[u8], from: Role) -> Km2ViewRead<'_>
    ensures { read_seen result ≡ reading from bytes.now }
{
    match parts_of(bytes, from) {
        Ok((view, used)) => Km2ViewRead::Whole { view, used },
        Err(Stop::Cut) => Km2ViewRead::More,
        Err(Stop::Wrong(place)) => Km2ViewRead::Bad {
            place: place as u32,
            kind: kind_of(place),
        },
    }
}

// What stands at the front, with texts of its own.
fn read(alloc: Global, bytes: &[u8], from: Role) -> Result<Km2Read, NoMemory>
    ensures { IfOk result (λ read. read ≡ reading from bytes.now) }
{
    match look(bytes, from) {
        Km2ViewRead::Whole { view, used } => Ok(Km2Read::Whole {
            message: view.copy(alloc)?,
            used,
        }),
        Km2ViewRead::More => Ok(Km2Read::More),
        Km2ViewRead::Bad { place, kind } => Ok(Km2Read::Bad { place, kind }),
    }
}

/// Finds the key exchange message of one end at the front of a plain text, whose texts stay where they lie. It takes no
/// memory.
///
/// `Whole` where the message with all four texts stands at the front, or else where all the bytes are one that ends
/// behind its options, user name or password. `More` where the bytes are less than that and a message begins with
/// them. `Bad` at the first byte that no message has in its place.
pub fn read_km2_view(bytes: &[u8], from: Role) -> Km2ViewRead<'_>
    // What is found is a message.
    ensures found { (message : Km2) (used : ℕ) → read_seen result ≡ Km2Read.Whole message used → IsFound from bytes.now message used }

    // A message with all four texts at the front is found, whatever follows it.
    ensures all_texts { (front rest : List ℕ) (message : Km2) → bytes.now ≡ front ++ rest
        → HasAllTexts from front message → read_seen result ≡ Km2Read.Whole message (length front) }

    // All the bytes are found where they are a message that ends early.
    ensures early { (message : Km2) → EndsEarly from bytes.now message → read_seen result ≡ Km2Read.Whole message (length bytes.now) }

    // More has to come exactly where the bytes are less than a message.
    ensures more { (read_seen result ≡ Km2Read.More) ↔ IsCut from bytes.now }

    // The place and the kind are those of the first byte that no message has there.
    ensures bad { (place : ℕ) (kind : Km2Bad) → (read_seen result ≡ Km2Read.Bad place kind) ↔ IsWrongAt from bytes.now place kind }

    // All of this as one function of the bytes.
    ensures exact { read_seen result ≡ reading from bytes.now }
{
    look(bytes, from)
}

/// Reads the key exchange message of one end from the front of a plain text, as `read_km2_view` finds it, with texts of
/// its own.
pub fn read_km2(alloc: Global, bytes: &[u8], from: Role) -> Result<Km2Read, NoMemory>
    // What is found is a message.
    ensures found { IfOk result (λ read. (message : Km2) (used : ℕ) → read ≡ Km2Read.Whole message used → IsFound from bytes.now message used) }

    // A message with all four texts at the front is found, whatever follows it.
    ensures all_texts { IfOk result (λ read. (front rest : List ℕ) (message : Km2) → bytes.now ≡ front ++ rest
        → HasAllTexts from front message → read ≡ Km2Read.Whole message (length front)) }

    // All the bytes are found where they are a message that ends early.
    ensures early { IfOk result (λ read. (message : Km2) → EndsEarly from bytes.now message → read ≡ Km2Read.Whole message (length bytes.now)) }

    // More has to come exactly where the bytes are less than a message.
    ensures more { IfOk result (λ read. (read ≡ Km2Read.More) ↔ IsCut from bytes.now) }

    // The place and the kind are those of the first byte that no message has there.
    ensures bad { IfOk result (λ read. (place : ℕ) (kind : Km2Bad) → (read ≡ Km2Read.Bad place kind) ↔ IsWrongAt from bytes.now place kind) }

    // All of this as one function of the bytes.
    ensures exact { IfOk result (λ read. read ≡ reading from bytes.now) }
{
    read(alloc, bytes, from)
}
