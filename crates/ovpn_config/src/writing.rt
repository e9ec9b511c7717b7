//! The canonical text of settings.

ghost use Rattle.std.specs.Prelude.{◌≡◌, ℕ, List, Ok, [], ◌∷◌, ◌++◌, codes, decimal, map, flat_map, IfOk, OnOk};
ghost use Rattle.vpn_base.specs.Address.{ip4_text};
ghost use Rattle.config_directives.specs.Table.{table};
ghost use Rattle.ovpn_config.specs.Spelling.{words_text};
ghost use Rattle.ovpn_config.specs.Printed.{cipher_names, if_there, key_text, printed, remote_text, switched, with_network, with_number, with_numbers, with_word};
ghost use Rattle.ovpn_config.specs.Canonical.{KeepsLimits, canonical, lines_with, written};
ghost use Rattle.ovpn_config.specs.Reading.{settings};

use crate::laws::reads_config_again;
use crate::reading::is_for_other;
use crate::settings::{KeyPlace, Settings};
use crate::spelling::block_text;
use config_directives::{Keyword, table};
use itoa::Buffer;
use std::alloc::Global;
use vpn_base::{
    Addr, Bytes, Cipher, Ip4, NoMemory, Policy, Prefix, RouteList, Text, TextList, write_ip4,
};
use vpn_text::{write_mask, write_word};

// Adds a text of whole lines, and the end of the last one.
fn add_text(out: &mut Vec<u8>, text: &[u8]) -> Result<(), NoMemory>
    ensures { OnOk result (out.new.items ≡ out.old.items ++ lines_with (text.now ∷ [])) }
{
    out.extend_from_slice(text)?;
    out.push(b'\n')?;
    Ok(())
}

// Adds a directive without arguments.
fn add_name(out: &mut Vec<u8>, name: &[u8]) -> Result<(), NoMemory>
    ensures { OnOk result (out.new.items ≡ out.old.items ++ lines_with (words_text (name.now ∷ []) ∷ [])) }
{
    write_word(out, name)?;
    out.push(b'\n')?;
    Ok(())
}

// Adds a directive with one argument.
fn add_word(out: &mut Vec<u8>, name: &[u8], word: &[u8]) -> Result<(), NoMemory>
    ensures { OnOk result (out.new.items ≡ out.old.items ++ lines_with (with_word name.now word.now ∷ [])) }
{
    write_word(out, name)?;
    out.push(b' ')?;
    write_word(out, word)?;
    out.push(b'\n')?;
    Ok(())
}

// Adds a directive with two arguments.
fn add_words(out: &mut Vec<u8>, name: &[u8], one: &[u8], two: &[u8]) -> Result<(), NoMemory>
    ensures { OnOk result (out.new.items ≡ out.old.items ++ lines_with (words_text (name.now ∷ one.now ∷ two.now ∷ []) ∷ [])) }
{
    write_word(out, name)?;
    out.push(b' ')?;
    write_word(out, one)?;
    out.push(b' ')?;
    write_word(out, two)?;
    out.push(b'\n')?;
    Ok(())
}

fn add_number(out: &mut Vec<u8>, name: &[u8], n: u32) -> Result<(), NoMemory>
    ensures { OnOk result (out.new.items ≡ out.old.items ++ lines_with (with_number name.now n)) }
{
    let mut buffer = Buffer::new();
    add_word(out, name, buffer.format(n).as_bytes())
}

fn add_numbers(out: &mut Vec<u8>, name: &[u8], one: u32, two: u32) -> Result<(), NoMemory>
    ensures { OnOk result (out.new.items ≡ out.old.items ++ lines_with (with_numbers name.now (one, two) ∷ [])) }
{
    let mut first = Buffer::new();
    let mut second = Buffer::new();
    let one = first.format(one).as_bytes();
    add_words(out, name, one, second.format(two).as_bytes())
}

fn add_network(out: &mut Vec<u8>, name: &[u8], network: Prefix) -> Result<(), NoMemory>
    ensures { OnOk result (out.new.items ≡ out.old.items ++ lines_with (with_network name.now network ∷ [])) }
{
    let mut net = [0; 15];
    let mut mask = [0; 15];
    let net_len = write_ip4(network.net(), &mut net);
    let mask_len = write_mask(network.len(), &mut mask);
    add_words(out, name, &net[..net_len], &mask[..mask_len])
}

fn add_network_if_there(
    out: &mut Vec<u8>,
    name: &[u8],
    network: Option<Prefix>,
) -> Result<(), NoMemory>
    ensures { OnOk result (out.new.items ≡ out.old.items ++ lines_with (if_there (with_network name.now) network)) }
{
    match network {
        None => Ok(()),
        Some(network) => add_network(out, name, network),
    }
}

fn add_local(out: &mut Vec<u8>, local: Option<Ip4>) -> Result<(), NoMemory>
    ensures { OnOk result (out.new.items ≡ out.old.items ++ lines_with (if_there (λ a. with_word (codes "local") (ip4_text a)) local)) }
{
    let Some(a) = local else {
        return Ok(());
    };
    let mut text = [0; 15];
    let len = write_ip4(a, &mut text);
    add_word(out, b"local", &text[..len])
}

fn add_remote(out: &mut Vec<u8>, remote: Option<Addr>) -> Result<(), NoMemory>
    ensures { OnOk result (out.new.items ≡ out.old.items ++ lines_with (if_there remote_text remote)) }
{
    let Some(to) = remote else {
        return Ok(());
    };
    let mut text = [0; 15];
    let len = write_ip4(to.ip, &mut text);
    let mut buffer = Buffer::new();
    add_words(
        out,
        b"remote",
        &text[..len],
        buffer.format(to.port).as_bytes(),
    )
}

fn add_key(alloc: Global, out: &mut Vec<u8>, key: &KeyPlace) -> Result<(), NoMemory>
    ensures { OnOk result (out.new.items ≡ out.old.items ++ lines_with (key_text key.now ∷ [])) }
{
    match key {
        KeyPlace::Named(name) => add_word(out, b"tls-crypt", name.as_slice()),
        KeyPlace::Inline(bytes) => {
            let text = block_text(alloc, b"tls-crypt", bytes.as_slice())?;
            add_text(out, &text)
        }
    }
}

fn add_keepalive(out: &mut Vec<u8>, times: Option<(u32, u32)>) -> Result<(), NoMemory>
    ensures { OnOk result (out.new.items ≡ out.old.items ++ lines_with (if_there (with_numbers (codes "keepalive")) times)) }
{
    match times {
        None => Ok(()),
        Some((ping, restart)) => add_numbers(out, b"keepalive", ping, restart),
    }
}

fn add_folder(out: &mut Vec<u8>, folder: &Option<Text>) -> Result<(), NoMemory>
    ensures { OnOk result (out.new.items ≡ out.old.items ++ lines_with (if_there (with_word (codes "client-config-dir")) folder.now)) }
{
    match folder {
        None => Ok(()),
        Some(name) => add_word(out, b"client-config-dir", name.as_slice()),
    }
}

fn add_switch(out: &mut Vec<u8>, name: &[u8], on: bool) -> Result<(), NoMemory>
    ensures { OnOk result (out.new.items ≡ out.old.items ++ lines_with (switched name.now on)) }
{
    if on { add_name(out, name) } else { Ok(()) }
}

fn add_pushes(out: &mut Vec<u8>, pushes: &TextList) -> Result<(), NoMemory>
    ensures { OnOk result (out.new.items ≡ out.old.items ++ lines_with (map (with_word (codes "push")) pushes.now)) }
{
    'pushes: for i in 0..pushes.count() {
        let Some(text) = pushes.item(i) else {
            return Ok(());
        };
        add_word(out, b"push", text.as_slice())?;
    }
    Ok(())
}

fn add_routes(out: &mut Vec<u8>, routes: &RouteList) -> Result<(), NoMemory>
    ensures { OnOk result (out.new.items ≡ out.old.items ++ lines_with (map (with_network (codes "route")) routes.now)) }
{
    'routes: for i in 0..routes.count() {
        let Some(network) = routes.item(i) else {
            return Ok(());
        };
        add_network(out, b"route", network)?;
    }
    Ok(())
}

// The names of ciphers, joined by colons.
fn cipher_names(policy: Policy) -> &'static [u8]
    ensures { result.now ≡ cipher_names policy }
{
    match policy {
        Policy::Fixed(Cipher::Aes128Gcm) => b"AES-128-GCM",
        Policy::Fixed(Cipher::Aes256Gcm) => b"AES-256-GCM",
        Policy::Choose {
            first: Cipher::Aes128Gcm,
            second: None,
        } => b"AES-128-GCM",
        Policy::Choose {
            first: Cipher::Aes256Gcm,
            second: None,
        } => b"AES-256-GCM",
        Policy::Choose {
            first: Cipher::Aes128Gcm,
            second: Some(Cipher::Aes128Gcm),
        } => b"AES-128-GCM:AES-128-GCM",
        Policy::Choose {
            first: Cipher::Aes128Gcm,
            second: Some(Cipher::Aes256Gcm),
        } => b"AES-128-GCM:AES-256-GCM",
        Policy::Choose {
            first: Cipher::Aes256Gcm,
            second: Some(Cipher::Aes128Gcm),
        } => b"AES-256-GCM:AES-128-GCM",
        Policy::Choose {
            first: Cipher::Aes256Gcm,
            second: Some(Cipher::Aes256Gcm),
        } => b"AES-256-GCM:AES-256-GCM",
    }
}

fn add_console(out: &mut Vec<u8>, console: &Option<Text>) -> Result<(), NoMemory>
    ensures { OnOk result (out.new.items ≡ out.old.items ++ lines_with (if_there (λ place. codes "management " ++ place) console.now)) }
{
    let Some(place) = console else {
        return Ok(());
    };
    out.extend_from_slice(b"management ")?;
    out.extend_from_slice(place.as_slice())?;
    out.push(b'\n')?;
    Ok(())
}

// Adds a directive of the table.
fn add_keyword(
    alloc: Global,
    out: &mut Vec<u8>,
    s: &Settings,
    keyword: Keyword,
) -> Result<(), NoMemory>
    ensures { OnOk result (out.new.items ≡ out.old.items ++ lines_with (printed keyword s.now)) }
{
    match keyword {
        Keyword::Server => add_network_if_there(out, b"server", s.net),
        Keyword::Client => add_name(out, b"client"),
        Keyword::Dev => add_word(out, b"dev", s.dev.as_slice()),
        Keyword::Topology => add_word(out, b"topology", b"subnet"),
        Keyword::Proto => add_word(out, b"proto", b"udp"),
        Keyword::Port => add_number(out, b"port", u32::from(s.port)),
        Keyword::Local => add_local(out, s.local),
        Keyword::Remote => add_remote(out, s.remote),
        Keyword::TlsCrypt => add_key(alloc, out, &s.key),
        Keyword::Keepalive => add_keepalive(out, s.keepalive),
        Keyword::ClientConfigDir => add_folder(out, &s.ccd),
        Keyword::CcdExclusive => add_switch(out, b"ccd-exclusive", s.exclusive),
        Keyword::ClientToClient => add_switch(out, b"client-to-client", s.between),
        Keyword::DuplicateCn => add_switch(out, b"duplicate-cn", s.duplicate),
        Keyword::MaxClients => add_number(out, b"max-clients", s.max_clients),
        Keyword::Push => add_pushes(out, &s.pushes),
        Keyword::Route => add_routes(out, &s.routes),
        Keyword::DataCiphers => add_word(out, b"data-ciphers", cipher_names(s.ciphers)),
        Keyword::RenegSec => add_number(out, b"reneg-sec", s.timers.reneg),
        Keyword::TranWindow => add_number(out, b"tran-window", s.timers.tran),
        Keyword::HandWindow => add_number(out, b"hand-window", s.timers.hand),
        Keyword::TlsTimeout => add_number(out, b"tls-timeout", s.timers.timeout),
        Keyword::ReplayWindow => {
            add_numbers(out, b"replay-window", s.timers.win, s.timers.win_secs)
        }
        Keyword::Management => add_console(out, &s.console),
    }
}

// Adds a directive of the table, if it is not for the other side.
fn add_on_side(
    alloc: Global,
    out: &mut Vec<u8>,
    s: &Settings,
    keyword: Keyword,
) -> Result<(), NoMemory>
    ensures { OnOk result (out.new.items ≡ out.old.items ++ written s.now keyword) }
{
    if is_for_other(s.role, keyword) {
        Ok(())
    } else {
        add_keyword(alloc, out, s, keyword)
    }
}

fn add_table(alloc: Global, out: &mut Vec<u8>, s: &Settings) -> Result<(), NoMemory>
    ensures { OnOk result (out.new.items ≡ out.old.items ++ flat_map (written s.now) table) }
{
    'keywords: for keyword in table() {
        add_on_side(alloc, out, s, keyword)?;
    }
    Ok(())
}

fn add_engine(out: &mut Vec<u8>, engine: &TextList) -> Result<(), NoMemory>
    ensures { OnOk result (out.new.items ≡ out.old.items ++ lines_with engine.now) }
{
    'engine: for i in 0..engine.count() {
        let Some(text) = engine.item(i) else {
            return Ok(());
        };
        add_text(out, text.as_slice())?;
    }
    Ok(())
}

/// The canonical text of settings: the directives of their side in the order of the table, then
/// what is for the TLS engine. The directives with a default stand with their value, a switch
/// where it is on, and of the others those that are there.
#[tactic(auto, unfolding(crate::specs::Canonical::canonical))]
pub fn write_config(alloc: Global, s: &Settings) -> Result<Bytes, NoMemory>
    ensures written { IfOk result (λ text. text ≡ canonical s.now) }

    // What is written of the settings of a file is read as them again.
    ensures again { (text : List ℕ) → settings text ≡ Ok s.now → KeepsLimits (canonical s.now)
        → settings (canonical s.now) ≡ Ok s.now }
{
    reads_config_again();
    let mut out = Vec::new(alloc);
    add_table(alloc, &mut out, s)?;
    add_engine(&mut out, &s.engine)?;
    Ok(Bytes::of(out))
}
