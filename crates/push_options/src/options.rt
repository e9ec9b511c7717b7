//! The options of a push reply, in their order.

ghost use Rattle.std.specs.Prelude.{◌≡◌, ◌≤◌, ◌∷◌, [], ◌++◌, codes, IfOk, OnOk, if◌then◌else◌};
ghost use Rattle.std.specs.Fmt.{decimal};
ghost use Rattle.vpn_base.specs.Address.{ip4_text};
ghost use Rattle.vpn_base.specs.CipherName.{cipher_name};
ghost use Rattle.vpn_text.specs.Mask.{mask_text};
ghost use Rattle.push_options.specs.Options.{planned, ping_options, shared_options, own_options, options_of};

use itoa::Buffer;
use std::alloc::Global;
use vpn_base::{Cipher, Ip4, NoMemory, Text, TextList, write_ip4};
use vpn_text::write_mask;

/// What a server pushes to a client.
#[derive(Clone, Copy)]
pub struct PushPlan<'a> {
    /// The texts that the configuration pushes to all.
    pub pushes: &'a TextList,
    /// Whether the client gets nothing of what all get.
    pub reset: bool,
    /// The server's own address in the tunnel.
    pub gateway: Ip4,
    /// The seconds after which an end sends a ping and after which it gives the other one up.
    pub keepalive: Option<(u32, u32)>,
    /// The texts that the client's file pushes.
    pub own: &'a TextList,
    /// The client's address.
    pub address: Ip4,
    /// The length of its mask, at most 32.
    pub len: u8,
    /// Its peer id.
    pub peer: u32,
    /// The cipher of its data packets.
    pub cipher: Cipher,
}

// A name with a number behind it.
fn number_option(alloc: Global, name: &[u8], number: u32) -> Result<Text, NoMemory>
    ensures { IfOk result (λ t. t ≡ name.now ++ decimal number) }
{
    let mut buffer = Buffer::new();
    let mut text = Vec::from_slice(alloc, name)?;
    text.extend_from_slice(buffer.format(number).as_bytes())?;
    Ok(Text::of(text))
}

fn add_address(text: &mut Vec<u8>, a: Ip4) -> Result<(), NoMemory>
    ensures { OnOk result (text.new.items ≡ text.old.items ++ ip4_text a) }
{
    let mut buffer = [0; 15];
    let len = write_ip4(a, &mut buffer);
    text.extend_from_slice(&buffer[..len])?;
    Ok(())
}

fn add_mask(text: &mut Vec<u8>, len: u8) -> Result<(), NoMemory>
    requires { len ≤ 32 }
    ensures { OnOk result (text.new.items ≡ text.old.items ++ mask_text len) }
{
    let mut buffer = [0; 15];
    let end = write_mask(len, &mut buffer);
    text.extend_from_slice(&buffer[..end])?;
    Ok(())
}

fn gateway_option(alloc: Global, a: Ip4) -> Result<Text, NoMemory>
    ensures { IfOk result (λ t. t ≡ codes "route-gateway " ++ ip4_text a) }
{
    let mut text = Vec::from_slice(alloc, b"route-gateway ")?;
    add_address(&mut text, a)?;
    Ok(Text::of(text))
}

fn address_option(alloc: Global, a: Ip4, len: u8) -> Result<Text, NoMemory>
    requires { len ≤ 32 }
    ensures { IfOk result (λ t. t ≡ codes "ifconfig " ++ ip4_text a ++ codes " " ++ mask_text len) }
{
    let mut text = Vec::from_slice(alloc, b"ifconfig ")?;
    add_address(&mut text, a)?;
    text.push(b' ')?;
    add_mask(&mut text, len)?;
    Ok(Text::of(text))
}

fn cipher_option(alloc: Global, cipher: Cipher) -> Result<Text, NoMemory>
    ensures { IfOk result (λ t. t ≡ codes "cipher " ++ cipher_name cipher) }
{
    let mut text = Vec::from_slice(alloc, b"cipher ")?;
    text.extend_from_slice(cipher.name())?;
    Ok(Text::of(text))
}

fn add_all(alloc: Global, list: &mut TextList, texts: &[Text]) -> Result<(), NoMemory>
    ensures { OnOk result (list.new ≡ list.old ++ texts.now) }
{
    for text in texts {
        list.add(Text::copy(alloc, text.as_slice())?)?;
    }
    Ok(())
}

fn add_times(alloc: Global, list: &mut TextList, ping: u32, restart: u32) -> Result<(), NoMemory>
    ensures { OnOk result (list.new ≡ list.old ++ ping_options (Some (ping, restart))) }
{
    list.add(number_option(alloc, b"ping ", ping)?)?;
    list.add(number_option(alloc, b"ping-restart ", restart)?)?;
    Ok(())
}

fn add_pings(
    alloc: Global,
    list: &mut TextList,
    keepalive: Option<(u32, u32)>,
) -> Result<(), NoMemory>
    ensures { OnOk result (list.new ≡ list.old ++ ping_options keepalive) }
{
    match keepalive {
        None => Ok(()),
        Some((ping, restart)) => add_times(alloc, list, ping, restart),
    }
}

fn add_network(alloc: Global, list: &mut TextList, gateway: Ip4) -> Result<(), NoMemory>
    ensures { OnOk result (list.new ≡ list.old ++ (codes "route-gateway " ++ ip4_text gateway) ∷ codes "topology subnet" ∷ []) }
{
    list.add(gateway_option(alloc, gateway)?)?;
    list.add(Text::copy(alloc, b"topology subnet")?)?;
    Ok(())
}

fn add_shared(alloc: Global, list: &mut TextList, p: &PushPlan<'_>) -> Result<(), NoMemory>
    ensures { OnOk result (list.new ≡ list.old ++ shared_options (planned p.now)) }
{
    add_all(alloc, list, p.pushes.as_slice())?;
    add_network(alloc, list, p.gateway)?;
    add_pings(alloc, list, p.keepalive)?;
    Ok(())
}

fn add_unless_reset(alloc: Global, list: &mut TextList, p: &PushPlan<'_>) -> Result<(), NoMemory>
    ensures { OnOk result (list.new ≡ list.old ++ (if p.now.reset then [] else shared_options (planned p.now))) }
{
    if p.reset {
        return Ok(());
    }
    add_shared(alloc, list, p)
}

fn add_own(alloc: Global, list: &mut TextList, p: &PushPlan<'_>) -> Result<(), NoMemory>
    requires { p.now.len ≤ 32 }
    ensures { OnOk result (list.new ≡ list.old ++ own_options (planned p.now)) }
{
    add_all(alloc, list, p.own.as_slice())?;
    list.add(address_option(alloc, p.address, p.len)?)?;
    list.add(number_option(alloc, b"peer-id ", p.peer)?)?;
    list.add(cipher_option(alloc, p.cipher)?)
}

/// The options of the reply, in their order: the configuration's texts, `route-gateway IP`,
/// `topology subnet`, and with `keepalive` `ping N` and `ping-restart M`, all of these only where
/// the client's file does not reset them; then the file's texts, `ifconfig IP MASK`, `peer-id N`
/// and `cipher NAME`.
#[tactic(auto, unfolding(crate::specs::Options::options_of))]
pub fn plan(alloc: Global, p: &PushPlan<'_>) -> Result<TextList, NoMemory>
    requires { p.now.len ≤ 32 }
    ensures { IfOk result (λ l. l ≡ options_of (planned p.now)) }
{
    let mut list = TextList::new(alloc);
    add_unless_reset(alloc, &mut list, p)?;
    add_own(alloc, &mut list, p)?;
    Ok(list)
}
