//! Writing a key exchange message.

ghost use Rattle.std.specs.Prelude.{◌≡◌, ◌+◌, ◌≤◌, ◌++◌, List, take, length, OnOk, IfOk};
ghost use Rattle.key_method2.specs.Message.{HasAllTexts, IsSource, source_bytes};
ghost use Rattle.vpn_base.specs.declared.names.Cipher.{Cipher};
ghost use Rattle.vpn_base.specs.declared.names.Role.TheVariants.{Server, Client};
ghost use Rattle.key_method2.specs.declared.message.Source.{Source};
ghost use Rattle.key_method2.specs.Messages.{server_km2, server_message, client_km2, client_message};
ghost use Rattle.key_method2.specs.Spelling.{role_of, field_of, message_bytes};

use crate::message::{Km2, Source};
use std::alloc::{AllocError, Global};
use vpn_base::{Bytes, NoMemory};

// Adds the key source at the end.
fn put_source(out: &mut Vec<u8>, source: &Source) -> Result<(), AllocError>
    ensures spelled { OnOk result (out.new.items ≡ out.old.items ++ source_bytes source.now) }
    ensures is_source { OnOk result (IsSource (role_of source.now) source.now) }
{
    if let Some(pre) = &source.pre {
        out.extend_from_slice(pre)?;
    }
    out.extend_from_slice(&source.random1)?;
    out.extend_from_slice(&source.random2)?;
    Ok(())
}

// Adds a text at the end: its size with the zero byte, the text and the zero byte, or size 0 for no text.
fn put_text(out: &mut Vec<u8>, text: &[u8]) -> Result<(), AllocError>
    requires { length text.now ≤ 65534 }
    ensures { OnOk result (out.new.items ≡ out.old.items ++ field_of text.now) }
{
    if text.is_empty() {
        out.extend_from_slice(&[0, 0])?;
        return Ok(());
    }
    let size = (text.len() + 1) as u16;
    out.extend_from_slice(&size.to_be_bytes())?;
    out.extend_from_slice(text)?;
    out.push(0)?;
    Ok(())
}

// The bytes of a message.
#[tactic(auto, unfolding(crate::specs::Spelling::message_bytes))]
fn spelled(alloc: Global, message: &Km2) -> Result<Vec<u8>, AllocError>
    requires options { length message.now.options ≤ 65534 }
    requires user { length message.now.user ≤ 65534 }
    requires pass { length message.now.pass ≤ 65534 }
    requires info { length message.now.info ≤ 65534 }
    ensures spelled { IfOk result (λ bytes. bytes.items ≡ message_bytes message.now) }
    ensures is_source { OnOk result (IsSource (role_of message.now.source) message.now.source) }
{
    let mut out = Vec::new(alloc);
    out.extend_from_slice(&[0, 0, 0, 0, 2])?;
    put_source(&mut out, &message.source)?;
    put_text(&mut out, message.options.as_slice())?;
    put_text(&mut out, message.user.as_slice())?;
    put_text(&mut out, message.pass.as_slice())?;
    put_text(&mut out, message.info.as_slice())?;
    Ok(out)
}

/// The bytes of a key exchange message with all four texts, each of at most 65,534 bytes; an empty one gets the size 0.
/// A text should have no zero byte, which other programs take for its end.
pub fn write_km2(alloc: Global, message: &Km2) -> Result<Bytes, NoMemory>
    requires options { length message.now.options ≤ 65534 }
    requires user { length message.now.user ≤ 65534 }
    requires pass { length message.now.pass ≤ 65534 }
    requires info { length message.now.info ≤ 65534 }
    ensures spelled { IfOk result (λ bytes. bytes ≡ message_bytes message.now) }

    // So `read_km2` reads it again, whatever follows it.
    ensures is_message { IfOk result (λ bytes. HasAllTexts (role_of message.now.source) bytes message.now) }
{
    Ok(Bytes::of(spelled(alloc, message)?))
}

// Writes a part of a message behind those before it.
fn write_part(out: &mut [u8; 93], at: usize, part: &[u8])
    requires { at + length part.now ≤ 93 }
    ensures { take (at + length part.now) out.new ≡ take at out.old ++ part.now }
{
    out[at..at + part.len()].copy_from_slice(part);
}

/// The server's key exchange message of this key source, of which it sends the two randoms: with the options
/// `V4,dev-type tun`, and no user name, password or peer info. It is what `write_km2` writes of that message, and
/// takes no memory.
pub fn server_message(source: &Source) -> [u8; 93]
    ensures spelled { result ≡ server_message source.now }
    ensures is_message { HasAllTexts Server result (server_km2 source.now) }
{
    let mut out = [0; 93];
    write_part(&mut out, 0, &[0, 0, 0, 0, 2]);
    write_part(&mut out, 5, &source.random1);
    write_part(&mut out, 37, &source.random2);
    write_part(&mut out, 69, b"\x00\x10V4,dev-type tun\x00");
    write_part(&mut out, 87, &[0; 6]);
    out
}

/// What `client_message` of the definitions spells is a message of a client, which `read_km2` reads, with any
/// key source of a client and up to 5,000 ciphers.
pub fn client_message_is_read()
    ensures { (source : Source) (ciphers : List Cipher) → IsSource Client source → length ciphers ≤ 5000
        → HasAllTexts Client (client_message source ciphers) (client_km2 source ciphers) }
{}
