//! The arguments of each directive.

ghost use Rattle.std.specs.Prelude.{◌≡◌, ◌≤◌, List, IfSome};
ghost use Rattle.std.specs.Option.{option_copied};
ghost use Rattle.std.specs.List.{cons_option};
ghost use Rattle.config_directives.specs.Items.{arguments_of};
ghost use Rattle.config_directives.specs.Arguments.{cipher_policy, ciphers_in, default_window, device_name, is_console, is_other, is_place, is_subnet, is_udp, is_word, keepalive_times, local_address, number_in, one_number, policy_of, port_of, push_text, remote_at, remote_end, replay_window, route_network, server_network, width_of};
ghost use Rattle.config_directives.specs.internal.Ciphers.{with_more};
ghost use Rattle.vpn_base.specs.declared.names.Cipher.{Cipher};

use crate::item::Item;
use crate::numbers::NumberDirective;
use vpn_base::{Cipher, Ip4, Policy, Prefix, read_ip4, read_number, split_once};
use vpn_text::{is_push_text, read_cipher, read_network};

// Whether exactly this word stands behind the name.
fn is_word(item: &Item, word: &[u8]) -> bool
    ensures { result ≡ is_word word.now (arguments_of item.now) }
{
    match item.one() {
        None => false,
        Some(one) => one == word,
    }
}

// The decimal number that a word spells, if it is from `low` to `high`.
fn number_in(word: &[u8], low: u64, high: u64) -> Option<u64>
    ensures same { result ≡ number_in low high word.now }
    ensures within { IfSome result (λ n. n ≤ high) }
{
    match read_number(word, high) {
        None => None,
        Some(n) => { if low <= n { Some(n) } else { None } }
    }
}

// The one number behind the name, if it is from `low` to `high`.
pub(crate) fn one_number(item: &Item, low: u64, high: u64) -> Option<u64>
    ensures same { result ≡ one_number low high (arguments_of item.now) }
    ensures within { IfSome result (λ n. n ≤ high) }
{
    match item.one() {
        None => None,
        Some(word) => number_in(word, low, high),
    }
}

fn port_of(word: &[u8]) -> Option<u16>
    ensures { result ≡ port_of word.now }
{
    let range = NumberDirective::Port.range();
    match number_in(word, u64::from(range.low), u64::from(range.high)) {
        None => None,
        Some(port) => Some(port as u16),
    }
}

/// `server NET MASK`: a network whose mask has 8 to 30 ones.
pub fn server_network(item: &Item) -> Option<Prefix>
    ensures { result ≡ server_network (arguments_of item.now) }
{
    let (net, mask) = item.two()?;
    let network = read_network(net, mask)?;
    let len = network.len();
    if 8 <= len && len <= 30 {
        Some(network)
    } else {
        None
    }
}

/// `dev NAME`: it begins with `tun`.
pub fn device_name(item: &Item) -> Option<&[u8]>
    ensures { option_copied result ≡ device_name (arguments_of item.now) }
{
    let name = item.one()?;
    if name.starts_with(b"tun") {
        Some(name)
    } else {
        None
    }
}

/// `topology subnet`.
pub fn is_subnet(item: &Item) -> bool
    ensures { result ≡ is_subnet (arguments_of item.now) }
{
    is_word(item, b"subnet")
}

/// `proto udp` or `proto udp4`.
pub fn is_udp(item: &Item) -> bool
    ensures { result ≡ is_udp (arguments_of item.now) }
{
    is_word(item, b"udp") || is_word(item, b"udp4")
}

/// `local IP`.
pub fn local_address(item: &Item) -> Option<Ip4>
    ensures { result ≡ local_address (arguments_of item.now) }
{
    match item.one() {
        None => None,
        Some(word) => read_ip4(word),
    }
}

fn remote_at(ip: &[u8], port: &[u8]) -> Option<(Ip4, Option<u16>)>
    ensures { result ≡ remote_at ip.now port.now }
{
    let ip = read_ip4(ip)?;
    let port = port_of(port)?;
    Some((ip, Some(port)))
}

/// `remote IP [PORT [udp]]`: the address, and the port if there is one.
pub fn remote_end(item: &Item) -> Option<(Ip4, Option<u16>)>
    ensures { result ≡ remote_end (arguments_of item.now) }
{
    if let Some(ip) = item.one() {
        return match read_ip4(ip) {
            None => None,
            Some(ip) => Some((ip, None)),
        };
    }
    if let Some((ip, port)) = item.two() {
        return remote_at(ip, port);
    }
    match item.three() {
        None => None,
        Some((ip, port, proto)) => {
            if proto == b"udp".as_slice() {
                remote_at(ip, port)
            } else {
                None
            }
        }
    }
}

/// `keepalive N M`: N is 1 to 3,600 seconds, and M from twice that to 7,200.
pub fn keepalive_times(item: &Item) -> Option<(u32, u32)>
    ensures { result ≡ keepalive_times (arguments_of item.now) }
{
    let (ping, restart) = item.two()?;
    let ping = number_in(ping, 1, 3_600)?;
    let restart = number_in(restart, 2 * ping, 7_200)?;
    Some((ping as u32, restart as u32))
}

/// `push TEXT`: at most 255 bytes, and no comma.
pub fn push_text(item: &Item) -> Option<&[u8]>
    ensures { option_copied result ≡ push_text (arguments_of item.now) }
{
    let text = item.one()?;
    if is_push_text(text) { Some(text) } else { None }
}

/// `route NET [MASK]`: without a mask it is one address.
pub fn route_network(item: &Item) -> Option<Prefix>
    ensures { result ≡ route_network (arguments_of item.now) }
{
    match item.one() {
        Some(net) => read_network(net, b"255.255.255.255"),
        None => {
            let (net, mask) = item.two()?;
            read_network(net, mask)
        }
    }
}

fn is_other(one: Cipher, two: Cipher) -> bool
    ensures { result ≡ is_other one two }
{
    match (one, two) {
        (Cipher::Aes128Gcm, Cipher::Aes128Gcm) => false,
        (Cipher::Aes128Gcm, Cipher::Aes256Gcm) => true,
        (Cipher::Aes256Gcm, Cipher::Aes128Gcm) => true,
        (Cipher::Aes256Gcm, Cipher::Aes256Gcm) => false,
    }
}

// A policy with the cipher of one more name.
fn add_cipher(policy: Option<Policy>, cipher: Option<Cipher>) -> Option<Policy>
    ensures { (more : List Cipher) → with_more result more ≡ with_more policy (cons_option cipher more) }
{
    let Some(cipher) = cipher else {
        return policy;
    };
    match policy {
        None => Some(Policy::Choose {
            first: cipher,
            second: None,
        }),
        Some(
            Policy::Choose {
                first,
                second: None,
            },
        ) => Some(Policy::Choose {
            first,
            second: if is_other(first, cipher) {
                Some(cipher)
            } else {
                None
            },
        }),
        Some(
            Policy::Choose {
                first,
                second: Some(second),
            },
        ) => Some(Policy::Choose {
            first,
            second: Some(second),
        }),
        Some(Policy::Fixed(only)) => Some(Policy::Fixed(only)),
    }
}

// The policy of the ciphers that are named between colons.
fn policy_of(names: &[u8]) -> Option<Policy>
    ensures { result ≡ policy_of (ciphers_in names.now) }
{
    let mut policy = None;
    let mut rest = names;
    while let Some((name, after)) = split_once(rest, b':') {
        policy = add_cipher(policy, read_cipher(name));
        rest = after;
    }
    add_cipher(policy, read_cipher(rest))
}

/// `data-ciphers LIST`: of the names between colons `AES-256-GCM` and `AES-128-GCM` count, once
/// each at their first place, and at least one has to.
pub fn cipher_policy(item: &Item) -> Option<Policy>
    ensures { result ≡ cipher_policy (arguments_of item.now) }
{
    match item.one() {
        None => None,
        Some(names) => policy_of(names),
    }
}

/// The width of the window against replayed packets, in packet ids, and its seconds, where
/// nothing is said of them.
pub fn default_window() -> (u32, u32)
    ensures { result ≡ default_window }
{
    (64, 15)
}

fn width_of(word: &[u8]) -> Option<u32>
    ensures { result ≡ width_of word.now }
{
    match number_in(word, 1, 1_024) {
        None => None,
        Some(width) => Some(width as u32),
    }
}

/// `replay-window N [T]`: N is 1 to 1,024 packet ids, and T 0 to 600 seconds, without it the
/// default.
pub fn replay_window(item: &Item) -> Option<(u32, u32)>
    ensures { result ≡ replay_window (arguments_of item.now) }
{
    match item.one() {
        Some(width) => {
            let width = width_of(width)?;
            Some((width, default_window().1))
        }
        None => {
            let (width, seconds) = item.two()?;
            let width = width_of(width)?;
            let seconds = number_in(seconds, 0, 600)?;
            Some((width, seconds as u32))
        }
    }
}

// Whether these are a place for the management console.
fn is_place(place: &[u8], port: &[u8]) -> bool
    ensures { result ≡ is_place (place.now, port.now) }
{
    if port == b"unix".as_slice() {
        return true;
    }
    match read_ip4(place) {
        None => false,
        Some(_) => port_of(port).is_some(),
    }
}

/// `management PATH unix` or `management IP PORT`.
pub fn is_console(item: &Item) -> bool
    ensures { result ≡ is_console (arguments_of item.now) }
{
    match item.two() {
        None => false,
        Some((place, port)) => is_place(place, port),
    }
}
