//! What the directives of a file set.

ghost use Rattle.std.specs.Prelude.{◌≡◌, ◌≤◌, ◌++◌, codes, IfOk, OnOk, filter_map, option_and_then, option_map, option_to_list, unwrap_or};
ghost use Rattle.std.specs.Option.{option_copied};
ghost use Rattle.config_directives.specs.Items.{given, is_given, items_of};
ghost use Rattle.vpn_base.specs.WordCount.{one_of};
ghost use Rattle.config_directives.specs.Arguments.{cipher_policy, keepalive_times, local_address, server_network};
ghost use Rattle.config_directives.specs.Numbers.{range_of};
ghost use Rattle.ovpn_config.specs.Spelling.{words_text};
ghost use Rattle.ovpn_config.specs.Values.{default_policy, end_with, engine_in, key_given, number_given, place_of, port_given, push_in, remote_given, route_in, settings_of, timers_given, window_given, word_given};

use crate::settings::{KeyPlace, Settings};
use crate::spelling::{arguments_text, item_text};
use config_directives::{
    Directive, Item, NumberDirective, cipher_policy, default_window, first_named, is_for_engine,
    is_given, keepalive_times, local_address, push_text, remote_end, replay_window, route_network,
    server_network,
};
use std::alloc::Global;
use vpn_base::{
    Addr, Bytes, Cipher, Ip4, NoMemory, Policy, Prefix, Role, RouteList, Text, TextList, Timers,
};

// A copy of a text that may be there.
fn copy_if_there(alloc: Global, text: Option<&[u8]>) -> Result<Option<Text>, NoMemory>
    ensures { IfOk result (λ copy. copy ≡ option_copied text.entry) }
{
    match text {
        None => Ok(None),
        Some(text) => Ok(Some(Text::copy(alloc, text)?)),
    }
}

// The one argument of the first directive of a name.
fn one_given<'a>(directives: &'a [Directive], name: &[u8]) -> Option<&'a [u8]>
    ensures { option_copied result ≡ option_and_then one_of (given name.now (items_of directives.now)) }
{
    match first_named(directives, name) {
        None => None,
        Some(item) => item.one(),
    }
}

// The same, or no bytes.
fn word_given(alloc: Global, directives: &[Directive], name: &[u8]) -> Result<Text, NoMemory>
    ensures { IfOk result (λ text. text ≡ word_given name.now (items_of directives.now)) }
{
    match one_given(directives, name) {
        None => Ok(Text::of(Vec::new(alloc))),
        Some(word) => Text::copy(alloc, word),
    }
}

// The number of the first such directive, or the one that counts where there is none.
fn number_given(directives: &[Directive], number: NumberDirective) -> u32
    ensures same { result ≡ number_given number (items_of directives.now) }
    ensures within { result ≤ (range_of number).high }
{
    let given = match first_named(directives, number.name()) {
        None => None,
        Some(item) => number.read(item),
    };
    match given {
        None => number.range().otherwise,
        Some(n) => n,
    }
}

fn port_given(directives: &[Directive]) -> u16
    ensures { result ≡ port_given (items_of directives.now) }
{
    number_given(directives, NumberDirective::Port) as u16
}

fn local_given(directives: &[Directive]) -> Option<Ip4>
    ensures { result ≡ option_and_then local_address (given (codes "local") (items_of directives.now)) }
{
    match first_named(directives, b"local") {
        None => None,
        Some(item) => local_address(item),
    }
}

fn remote_given(directives: &[Directive]) -> Option<Addr>
    ensures { result ≡ remote_given (items_of directives.now) }
{
    let item = first_named(directives, b"remote")?;
    let (ip, port) = remote_end(item)?;
    match port {
        None => Some(Addr {
            ip,
            port: port_given(directives),
        }),
        Some(port) => Some(Addr { ip, port }),
    }
}

fn network_given(directives: &[Directive]) -> Option<Prefix>
    ensures { result ≡ option_and_then server_network (given (codes "server") (items_of directives.now)) }
{
    match first_named(directives, b"server") {
        None => None,
        Some(item) => server_network(item),
    }
}

fn keepalive_given(directives: &[Directive]) -> Option<(u32, u32)>
    ensures { result ≡ option_and_then keepalive_times (given (codes "keepalive") (items_of directives.now)) }
{
    match first_named(directives, b"keepalive") {
        None => None,
        Some(item) => keepalive_times(item),
    }
}

fn policy_given(directives: &[Directive]) -> Policy
    ensures { result ≡ unwrap_or (option_and_then cipher_policy (given (codes "data-ciphers") (items_of directives.now))) default_policy }
{
    let both = Policy::Choose {
        first: Cipher::Aes256Gcm,
        second: Some(Cipher::Aes128Gcm),
    };
    match first_named(directives, b"data-ciphers") {
        None => both,
        Some(item) => match cipher_policy(item) {
            None => both,
            Some(policy) => policy,
        },
    }
}

fn window_given(directives: &[Directive]) -> (u32, u32)
    ensures { result ≡ window_given (items_of directives.now) }
{
    match first_named(directives, b"replay-window") {
        None => default_window(),
        Some(item) => match replay_window(item) {
            None => default_window(),
            Some(window) => window,
        },
    }
}

#[tactic(auto, unfolding(crate::specs::Values::timers_given))]
fn timers_given(directives: &[Directive]) -> Timers
    ensures { result ≡ timers_given (items_of directives.now) }
{
    let (win, win_secs) = window_given(directives);
    Timers {
        reneg: number_given(directives, NumberDirective::RenegSec),
        tran: number_given(directives, NumberDirective::TranWindow),
        hand: number_given(directives, NumberDirective::HandWindow),
        timeout: number_given(directives, NumberDirective::TlsTimeout),
        win,
        win_secs,
    }
}

// The text of a `push`.
fn push_in(item: &Item) -> Option<&[u8]>
    ensures { option_copied result ≡ push_in item.now }
{
    if item.name() == b"push".as_slice() {
        push_text(item)
    } else {
        None
    }
}

// Adds a text that may be there.
fn add_if_there(list: &mut TextList, text: Option<Text>) -> Result<(), NoMemory>
    ensures { OnOk result (list.new ≡ list.old ++ option_to_list text) }
{
    match text {
        None => Ok(()),
        Some(text) => list.add(text),
    }
}

fn pushes_given(alloc: Global, directives: &[Directive]) -> Result<TextList, NoMemory>
    ensures { IfOk result (λ list. list ≡ filter_map push_in (items_of directives.now)) }
{
    let mut list = TextList::new(alloc);
    'directives: for directive in directives {
        let text = copy_if_there(alloc, push_in(&directive.item))?;
        add_if_there(&mut list, text)?;
    }
    Ok(list)
}

// The network of a `route`.
fn route_in(item: &Item) -> Option<Prefix>
    ensures { result ≡ route_in item.now }
{
    if item.name() == b"route".as_slice() {
        route_network(item)
    } else {
        None
    }
}

fn add_route_if_there(list: &mut RouteList, network: Option<Prefix>) -> Result<(), NoMemory>
    ensures { OnOk result (list.new ≡ list.old ++ option_to_list network) }
{
    match network {
        None => Ok(()),
        Some(network) => list.add(network),
    }
}

fn routes_given(alloc: Global, directives: &[Directive]) -> Result<RouteList, NoMemory>
    ensures { IfOk result (λ list. list ≡ filter_map route_in (items_of directives.now)) }
{
    let mut list = RouteList::new(alloc);
    'directives: for directive in directives {
        add_route_if_there(&mut list, route_in(&directive.item))?;
    }
    Ok(list)
}

// What is passed to the TLS engine of a directive.
fn engine_in(alloc: Global, item: &Item) -> Result<Option<Text>, NoMemory>
    ensures { IfOk result (λ text. text ≡ engine_in item.now) }
{
    if is_for_engine(item.name()) {
        Ok(Some(item_text(alloc, item)?))
    } else {
        Ok(None)
    }
}

fn engine_given(alloc: Global, directives: &[Directive]) -> Result<TextList, NoMemory>
    ensures { IfOk result (λ list. list ≡ filter_map engine_in (items_of directives.now)) }
{
    let mut list = TextList::new(alloc);
    'directives: for directive in directives {
        let text = engine_in(alloc, &directive.item)?;
        add_if_there(&mut list, text)?;
    }
    Ok(list)
}

// Where the key of a `tls-crypt` is.
fn place_of(alloc: Global, item: &Item) -> Result<KeyPlace, NoMemory>
    ensures { IfOk result (λ place. place ≡ place_of item.now) }
{
    match item {
        Item::Words(_) => match item.one() {
            None => Ok(KeyPlace::Named(Text::of(Vec::new(alloc)))),
            Some(name) => Ok(KeyPlace::Named(Text::copy(alloc, name)?)),
        },
        Item::Block { bytes, .. } => match bytes {
            None => Ok(KeyPlace::Inline(Bytes::of(Vec::new(alloc)))),
            Some(bytes) => Ok(KeyPlace::Inline(Bytes::copy(alloc, bytes.as_slice())?)),
        },
    }
}

fn key_given(alloc: Global, directives: &[Directive]) -> Result<KeyPlace, NoMemory>
    ensures { IfOk result (λ place. place ≡ key_given (items_of directives.now)) }
{
    match first_named(directives, b"tls-crypt") {
        None => Ok(KeyPlace::Named(Text::of(Vec::new(alloc)))),
        Some(item) => place_of(alloc, item),
    }
}

fn console_given(alloc: Global, directives: &[Directive]) -> Result<Option<Text>, NoMemory>
    ensures { IfOk result (λ text. text ≡ option_map words_text (given (codes "management") (items_of directives.now))) }
{
    match first_named(directives, b"management") {
        None => Ok(None),
        Some(item) => Ok(Some(arguments_text(alloc, item)?)),
    }
}

/// What the directives of a file of this side set, each field by the directive of its name.
#[tactic(auto, unfolding(crate::specs::Values::settings_of))]
pub fn settings_of(
    alloc: Global,
    role: Role,
    directives: &[Directive],
) -> Result<Settings, NoMemory>
    ensures { IfOk result (λ settings. settings ≡ settings_of role (items_of directives.now)) }
{
    let dev = word_given(alloc, directives, b"dev")?;
    let ccd = copy_if_there(alloc, one_given(directives, b"client-config-dir"))?;
    let pushes = pushes_given(alloc, directives)?;
    let routes = routes_given(alloc, directives)?;
    let key = key_given(alloc, directives)?;
    let console = console_given(alloc, directives)?;
    let engine = engine_given(alloc, directives)?;
    Ok(Settings {
        role,
        dev,
        local: local_given(directives),
        port: port_given(directives),
        remote: remote_given(directives),
        net: network_given(directives),
        keepalive: keepalive_given(directives),
        ccd,
        exclusive: is_given(directives, b"ccd-exclusive"),
        between: is_given(directives, b"client-to-client"),
        duplicate: is_given(directives, b"duplicate-cn"),
        max_clients: number_given(directives, NumberDirective::MaxClients),
        pushes,
        routes,
        ciphers: policy_given(directives),
        timers: timers_given(directives),
        key,
        console,
        engine,
    })
}
