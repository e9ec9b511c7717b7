//! What the lines of a route file print.

ghost use Rattle.std.specs.Prelude.{◌≡◌, ◌<◌, ◌≤◌, ◌^◌, ◌∷◌, [], ◌++◌, codes, length, OnOk};
ghost use Rattle.std.specs.String.{string_bytes};
ghost use Rattle.std.specs.Fmt.{decimal};
ghost use Rattle.std.specs.Option.{option_copied};
ghost use Rattle.route_file.specs.Output.{client_text, verdict_text};
ghost use Rattle.route_file.specs.Seals.{bytes_text, opened_text, seal_text, unseal_text};

use crate::keys::Key;
use inner_verdict::Verdict;
use opcode_codec::{Packet, read_packet};
use std::alloc::Global;
use std::fmt::Write;
use vpn_base::{Bytes, Cid, NoMemory};

// Appends a client's number, or `none`.
fn print_client(text: &mut String, cid: Option<Cid>) -> Result<(), NoMemory>
    ensures { OnOk result (string_bytes text.new ≡ string_bytes text.old ++ client_text cid) }
{
    match cid {
        None => text.push_str("none")?,
        Some(cid) => print_number(text, cid.0)?,
    }
    Ok(())
}

fn print_number(text: &mut String, number: u64) -> Result<(), NoMemory>
    ensures { OnOk result (string_bytes text.new ≡ string_bytes text.old ++ decimal number) }
{
    match write!(text, "{number}") {
        Ok(()) => Ok(()),
        Err(_) => Err(NoMemory),
    }
}

/// Appends `owner CID` or `owner none`, and a line feed.
pub(crate) fn print_owner(text: &mut String, cid: Option<Cid>) -> Result<(), NoMemory>
    ensures { OnOk result (string_bytes text.new ≡ string_bytes text.old ++ (codes "owner " ++ client_text cid ++ 10 ∷ [])) }
{
    text.push_str("owner ")?;
    print_client(text, cid)?;
    text.push_str("\n")?;
    Ok(())
}

/// Appends a verdict and a line feed.
pub(crate) fn print_verdict(text: &mut String, verdict: Verdict) -> Result<(), NoMemory>
    ensures { OnOk result (string_bytes text.new ≡ string_bytes text.old ++ (verdict_text verdict ++ 10 ∷ [])) }
{
    match verdict {
        Verdict::NotIp => text.push_str("drop not-ip\n")?,
        Verdict::TooLong => text.push_str("drop too-long\n")?,
        Verdict::Multicast => text.push_str("drop multicast\n")?,
        Verdict::BadSource { owner } => {
            text.push_str("drop bad-source ")?;
            print_client(text, owner)?;
            text.push_str("\n")?;
        }
        Verdict::ToClient(target) => {
            text.push_str("to ")?;
            print_number(text, target.0)?;
            text.push_str("\n")?;
        }
        Verdict::ToDevice => text.push_str("device\n")?,
        Verdict::NoRoute => text.push_str("drop no-route\n")?,
    }
    Ok(())
}

// Appends bytes as hexadecimal digits in small letters, `-` for none.
fn print_bytes(alloc: Global, text: &mut String, bytes: &[u8]) -> Result<(), NoMemory>
    ensures { OnOk result (string_bytes text.new ≡ string_bytes text.old ++ bytes_text bytes.now) }
{
    if bytes.is_empty() {
        text.push_str("-")?;
        return Ok(());
    }
    let digits = hex::encode(alloc, bytes)?;
    text.push_str(digits.as_str())?;
    Ok(())
}

/// Appends what a `seal` line prints: `sealed HEX` or `no-key`, and a line feed.
pub(crate) fn print_sealed(
    alloc: Global,
    text: &mut String,
    key: Option<&Key>,
    cid: Cid,
    kid: u8,
    id: u32,
    inner: &[u8],
) -> Result<(), NoMemory>
    requires cid { cid.0 < 2 ^ 24 }
    requires kid { kid < 8 }
    requires short { length inner.now ≤ 1500 }
    ensures { OnOk result (string_bytes text.new ≡ string_bytes text.old
        ++ (seal_text (option_copied key.entry) cid.0 kid id inner.now ++ 10 ∷ [])) }
{
    let Some(key) = key else {
        text.push_str("no-key\n")?;
        return Ok(());
    };
    let packet = key.seal(alloc, kid, cid.0 as u32, id, inner)?;
    text.push_str("sealed ")?;
    print_bytes(alloc, text, packet.as_slice())?;
    text.push_str("\n")?;
    Ok(())
}

// Appends `opened ID HEX` or `not-sealed`.
fn print_opened(
    alloc: Global,
    text: &mut String,
    found: Option<(u32, Bytes)>,
) -> Result<(), NoMemory>
    ensures { OnOk result (string_bytes text.new ≡ string_bytes text.old ++ (opened_text found ++ 10 ∷ [])) }
{
    match found {
        None => text.push_str("not-sealed\n")?,
        Some((id, inner)) => {
            text.push_str("opened ")?;
            print_number(text, id as u64)?;
            text.push_str(" ")?;
            print_bytes(alloc, text, inner.as_slice())?;
            text.push_str("\n")?;
        }
    }
    Ok(())
}

/// Appends what an `unseal` line prints: `opened ID HEX`, `malformed`, `not-sealed` or `no-key`,
/// and a line feed.
pub(crate) fn print_unsealed(
    alloc: Global,
    text: &mut String,
    key: Option<&Key>,
    cid: Cid,
    kid: u8,
    datagram: &[u8],
) -> Result<(), NoMemory>
    requires kid { kid < 8 }
    requires short { length datagram.now ≤ 1524 }
    ensures { OnOk result (string_bytes text.new ≡ string_bytes text.old
        ++ (unseal_text (option_copied key.entry) cid.0 kid datagram.now ++ 10 ∷ [])) }
{
    let Some(key) = key else {
        text.push_str("no-key\n")?;
        return Ok(());
    };
    let Ok(Packet::Inner(view)) = read_packet(datagram) else {
        text.push_str("malformed\n")?;
        return Ok(());
    };
    let found = key.open(alloc, kid, cid, view.peer, datagram)?;
    print_opened(alloc, text, found)
}
