//! The directives of a client's file.

ghost use Rattle.std.specs.Prelude.{◌≡◌};
ghost use Rattle.vpn_base.specs.Answers.{Answers};
ghost use Rattle.ccd_files.specs.Directives.{name_of, address_in, iroute_from, iroute_in, push_in, alone, directive_of};
ghost use Rattle.vpn_text.specs.Mask.{masked_network};

use std::alloc::Global;
use vpn_base::{Ip4, Or, Prefix, Text, read_ip4};
use vpn_text::{ConfigKind, is_push_text, read_mask, read_network};

// What a line's first word names.
#[derive(Clone, Copy)]
pub(crate) enum Name {
    Address,
    Iroute,
    Push,
    Reset,
    Disable,
    Other,
}

// A directive with its arguments.
#[derive(Drop)]
pub(crate) enum Directive {
    // `ifconfig-push`, with an address and the length of its mask.
    Address(Ip4, u8),
    // `iroute`.
    Iroute(Prefix),
    // `push`.
    Push(Text),
    // `push-reset`.
    Reset,
    // `disable`.
    Disable,
}

#[tactic(auto, unfolding(crate::specs::Directives::name_of))]
pub(crate) fn name_of(word: &[u8]) -> Name
    ensures { result ≡ name_of word.now }
{
    if word == b"ifconfig-push".as_slice() {
        return Name::Address;
    }
    if word == b"iroute".as_slice() {
        return Name::Iroute;
    }
    if word == b"push".as_slice() {
        return Name::Push;
    }
    if word == b"push-reset".as_slice() {
        return Name::Reset;
    }
    if word == b"disable".as_slice() {
        return Name::Disable;
    }
    Name::Other
}

fn address_in(words: &[Text]) -> Result<Directive, ConfigKind>
    ensures { result ≡ address_in words.now }
{
    match words {
        [ip, mask] => match (read_ip4(ip.as_slice()), read_mask(mask.as_slice())) {
            (Some(a), Some(len)) => Ok(Directive::Address(a, len)),
            _ => Err(ConfigKind::Arguments),
        },
        _ => Err(ConfigKind::Arguments),
    }
}

fn iroute_from(net: &[u8], mask: &[u8]) -> Result<Directive, ConfigKind>
    ensures { result ≡ iroute_from (masked_network net.now mask.now) }
{
    match read_network(net, mask) {
        Some(prefix) => Ok(Directive::Iroute(prefix)),
        None => Err(ConfigKind::Arguments),
    }
}

#[tactic(auto, unfolding(crate::specs::Directives::host_mask))]
fn iroute_in(words: &[Text]) -> Result<Directive, ConfigKind>
    ensures { result ≡ iroute_in words.now }
{
    match words {
        [net] => iroute_from(net.as_slice(), b"255.255.255.255"),
        [net, mask] => iroute_from(net.as_slice(), mask.as_slice()),
        _ => Err(ConfigKind::Arguments),
    }
}

fn push_in(alloc: Global, words: &[Text]) -> Result<Directive, Or<ConfigKind>>
    ensures { Answers result (push_in words.now) }
{
    match words {
        [text] => {
            if !is_push_text(text.as_slice()) {
                return Err(Or::Why(ConfigKind::Arguments));
            }
            match Text::copy(alloc, text.as_slice()) {
                Ok(text) => Ok(Directive::Push(text)),
                Err(_) => Err(Or::Memory),
            }
        }
        _ => Err(Or::Why(ConfigKind::Arguments)),
    }
}

fn or_why(answer: Result<Directive, ConfigKind>) -> Result<Directive, Or<ConfigKind>>
    ensures { Answers result answer }
{
    match answer {
        Ok(directive) => Ok(directive),
        Err(kind) => Err(Or::Why(kind)),
    }
}

fn alone(directive: Directive, words: &[Text]) -> Result<Directive, ConfigKind>
    ensures { result ≡ alone directive words.now }
{
    match words {
        [] => Ok(directive),
        _ => Err(ConfigKind::Arguments),
    }
}

// The directive of this name with these arguments.
pub(crate) fn directive_of(
    alloc: Global,
    name: Name,
    words: &[Text],
) -> Result<Directive, Or<ConfigKind>>
    ensures { Answers result (directive_of name words.now) }
{
    match name {
        Name::Address => or_why(address_in(words)),
        Name::Iroute => or_why(iroute_in(words)),
        Name::Push => push_in(alloc, words),
        Name::Reset => or_why(alone(Directive::Reset, words)),
        Name::Disable => or_why(alone(Directive::Disable, words)),
        Name::Other => Err(Or::Why(ConfigKind::Unknown)),
    }
}
