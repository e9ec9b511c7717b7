//! Writing the lines of effects.

ghost use Rattle.std.specs.Prelude.{◌≡◌, ◌∷◌, ◌++◌, [], map, OnOk, IfOk};
ghost use Rattle.std.specs.Fmt.{decimal};
ghost use Rattle.vpn_links.specs.Actions.{action};
ghost use Rattle.address_text.specs.AddressText.{addr_text};
ghost use Rattle.schedule_text.specs.EffectLine.{block_text, effect_fields, effect_line, effect_word, gateway_word, role_word, route_text};
ghost use Rattle.schedule_text.specs.NoteText.{behind, hex_text};

use crate::note_text::put_note;
use crate::pieces::{
    put, put_addr, put_block, put_decimal, put_hex, put_host, put_number, put_word,
};
use std::alloc::Global;
use vpn_base::{Addr, Bytes, Ip4, NoMemory, Role, RouteList, TextList};
use vpn_links::Effect;

fn role_word(role: Role) -> &'static [u8]
    ensures { result.now ≡ role_word role }
{
    match role {
        Role::Server => b"server",
        Role::Client => b"client",
    }
}

fn effect_word(e: &Effect<'_>) -> &'static [u8]
    ensures { result.now ≡ effect_word (action e.now) }
{
    match e {
        Effect::Wire { .. } => b"wire",
        Effect::EngineOpen { .. } => b"engineopen",
        Effect::EnginePut { .. } => b"engineput",
        Effect::EngineWrite { .. } => b"enginewrite",
        Effect::EngineClose { .. } => b"engineclose",
        Effect::Device { .. } => b"device",
        Effect::Configure { .. } => b"configure",
        Effect::Ask { .. } => b"ask",
        Effect::Say { .. } => b"say",
        Effect::Report(_) => b"report",
        Effect::Stop => b"stop",
    }
}

fn put_gateway(line: &mut Vec<u8>, gateway: Option<Ip4>) -> Result<(), NoMemory>
    ensures { OnOk result (line.new.items ≡ line.old.items ++ 32 ∷ gateway_word gateway) }
{
    match gateway {
        None => put_word(line, b"none"),
        Some(a) => put_host(line, a),
    }
}

fn put_routes(line: &mut Vec<u8>, routes: &RouteList) -> Result<(), NoMemory>
    ensures { OnOk result (line.new.items ≡ line.old.items ++ behind (map route_text routes.now)) }
{
    for i in 0..routes.count() {
        let Some(route) = routes.item(i) else {
            unreachable!();
        };
        put_block(line, route.net(), route.len())?;
    }
    Ok(())
}

fn put_texts(alloc: Global, line: &mut Vec<u8>, texts: &TextList) -> Result<(), NoMemory>
    ensures { OnOk result (line.new.items ≡ line.old.items ++ behind (map hex_text texts.now)) }
{
    for i in 0..texts.count() {
        let Some(text) = texts.item(i) else {
            unreachable!();
        };
        put_hex(alloc, line, text.as_slice())?;
    }
    Ok(())
}

fn put_setup(
    alloc: Global,
    line: &mut Vec<u8>,
    address: Ip4,
    len: u8,
    gateway: Option<Ip4>,
    routes: &RouteList,
    rest: &TextList,
) -> Result<(), NoMemory>
    ensures { OnOk result (line.new.items ≡ line.old.items
        ++ behind (block_text address len ∷ gateway_word gateway ∷ (map route_text routes.now ++ map hex_text rest.now))) }
{
    put_block(line, address, len)?;
    put_gateway(line, gateway)?;
    put_routes(line, routes)?;
    put_texts(alloc, line, rest)?;
    Ok(())
}

// A number, and bytes in hexadecimal.
fn put_bytes(alloc: Global, line: &mut Vec<u8>, n: u64, bytes: &[u8]) -> Result<(), NoMemory>
    ensures { OnOk result (line.new.items ≡ line.old.items ++ behind (decimal n ∷ hex_text bytes.now ∷ [])) }
{
    put_number(line, n)?;
    put_hex(alloc, line, bytes)
}

// A number, and a word.
fn put_named(line: &mut Vec<u8>, n: u64, word: &[u8]) -> Result<(), NoMemory>
    ensures { OnOk result (line.new.items ≡ line.old.items ++ behind (decimal n ∷ word.now ∷ [])) }
{
    put_number(line, n)?;
    put_word(line, word)
}

// An address, and bytes in hexadecimal.
fn put_wire(alloc: Global, line: &mut Vec<u8>, to: Addr, bytes: &[u8]) -> Result<(), NoMemory>
    ensures { OnOk result (line.new.items ≡ line.old.items ++ behind (addr_text to ∷ hex_text bytes.now ∷ [])) }
{
    put_addr(line, to)?;
    put_hex(alloc, line, bytes)
}

fn put_fields(alloc: Global, line: &mut Vec<u8>, e: &Effect<'_>) -> Result<(), NoMemory>
    ensures { OnOk result (line.new.items ≡ line.old.items ++ behind (effect_fields (action e.now))) }
{
    match e {
        Effect::Wire { to, bytes } => put_wire(alloc, line, *to, bytes),
        Effect::EngineOpen { conn, role } => put_named(line, conn.0, role_word(*role)),
        Effect::EnginePut { conn, bytes } => put_bytes(alloc, line, conn.0, bytes),
        Effect::EngineWrite { conn, bytes } => put_bytes(alloc, line, conn.0, bytes),
        Effect::EngineClose { conn } => put_number(line, conn.0),
        Effect::Device { bytes } => put_hex(alloc, line, bytes),
        Effect::Configure {
            address,
            len,
            gateway,
            routes,
            rest,
        } => put_setup(alloc, line, *address, *len, *gateway, routes, rest),
        Effect::Ask { cid, name } => put_named(line, cid.0, name),
        Effect::Say { bytes } => put_word(line, bytes),
        Effect::Report(note) => put_note(alloc, line, *note),
        Effect::Stop => Ok(()),
    }
}

/// The line of an effect of the event of this number, with its line feed: the number, the word that names the
/// effect, and what it says beside.
#[tactic(auto, unfolding(crate::specs::EffectLine::effect_line))]
pub fn write_effect_line(alloc: Global, number: u64, e: &Effect<'_>) -> Result<Bytes, NoMemory>
    ensures { IfOk result (λ line. line ≡ effect_line number (action e.now)) }
{
    let mut line = Vec::new(alloc);
    put_decimal(&mut line, number)?;
    put_word(&mut line, effect_word(e))?;
    put_fields(alloc, &mut line, e)?;
    put(&mut line, b"\n")?;
    Ok(Bytes::of(line))
}
