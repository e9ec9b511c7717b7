//! Texts with numbers and names in them.

ghost use Rattle.std.specs.Prelude.{◌≡◌, ◌∷◌, [], ◌++◌, codes, IfOk, OnOk};
ghost use Rattle.std.specs.Fmt.{decimal};
ghost use Rattle.vpn_base.specs.Address.{ip4_text};
ghost use Rattle.address_text.specs.AddressText.{addr_text};
ghost use Rattle.mgmt_lines.specs.Texts.{network_text, mark, seconds, time_text, client_text, route_text, queued_text, load_text, count_text, own_count_text, name_killed_text, name_not_found_text, address_killed_text, address_not_found_text};

use address_text::write_addr;
use itoa::Buffer;
use std::alloc::Global;
use vpn_base::{Addr, Cid, Ip4, Moment, NoMemory, Prefix, Text, write_ip4};

/// What a status says of a client.
#[derive(Debug, Drop)]
pub struct StatusRow {
    /// Its number.
    pub cid: Cid,
    /// Its common name.
    pub name: Text,
    /// The address that its packets come from.
    pub real: Addr,
    /// Its address in the tunnel.
    pub address: Ip4,
    /// The bytes of the data packets that came from it.
    pub bytes_in: u64,
    /// The bytes of the data packets that went to it.
    pub bytes_out: u64,
    /// When it was established, in whole seconds.
    pub since: u64,
    /// Its peer id.
    pub peer: u32,
}

fn add_number(text: &mut Vec<u8>, n: u64) -> Result<(), NoMemory>
    ensures { OnOk result (text.new.items ≡ text.old.items ++ decimal n) }
{
    let mut buffer = Buffer::new();
    text.extend_from_slice(buffer.format(n).as_bytes())?;
    Ok(())
}

fn add_ip4(text: &mut Vec<u8>, a: Ip4) -> Result<(), NoMemory>
    ensures { OnOk result (text.new.items ≡ text.old.items ++ ip4_text a) }
{
    let mut buffer = [0; 15];
    let len = write_ip4(a, &mut buffer);
    text.extend_from_slice(&buffer[..len])?;
    Ok(())
}

#[tactic(auto, unfolding(crate::specs::Texts::network_text))]
fn add_network(text: &mut Vec<u8>, p: Prefix) -> Result<(), NoMemory>
    ensures { OnOk result (text.new.items ≡ text.old.items ++ network_text p) }
{
    add_ip4(text, p.net())?;
    if p.len() == 32 {
        return Ok(());
    }
    text.push(b'/')?;
    add_number(text, u64::from(p.len()))?;
    Ok(())
}

fn add_mark(text: &mut Vec<u8>, learned: bool) -> Result<(), NoMemory>
    ensures { OnOk result (text.new.items ≡ text.old.items ++ mark learned) }
{
    if learned {
        text.push(b'C')?;
    }
    Ok(())
}

// Adds a comma and a number.
fn add_field(text: &mut Vec<u8>, n: u64) -> Result<(), NoMemory>
    ensures { OnOk result (text.new.items ≡ text.old.items ++ 44 ∷ decimal n) }
{
    text.push(b',')?;
    add_number(text, n)?;
    Ok(())
}

// Adds a comma, a name, another comma and an address with its port.
fn add_owner(text: &mut Vec<u8>, name: &[u8], real: Addr) -> Result<(), NoMemory>
    ensures { OnOk result (text.new.items ≡ text.old.items ++ 44 ∷ (name.now ++ 44 ∷ addr_text real)) }
{
    text.push(b',')?;
    text.extend_from_slice(name)?;
    text.push(b',')?;
    write_addr(text, real)?;
    Ok(())
}

// Adds the counts of bytes and all that follows them.
fn add_counts(text: &mut Vec<u8>, r: &StatusRow) -> Result<(), NoMemory>
    ensures { OnOk result (text.new.items ≡ text.old.items ++ 44 ∷ (decimal r.now.bytes_in ++ 44 ∷ (decimal r.now.bytes_out
        ++ 44 ∷ (decimal r.now.since ++ 44 ∷ (decimal r.now.cid.0 ++ 44 ∷ decimal r.now.peer))))) }
{
    add_field(text, r.bytes_in)?;
    add_field(text, r.bytes_out)?;
    add_field(text, r.since)?;
    add_field(text, r.cid.0)?;
    add_field(text, u64::from(r.peer))?;
    Ok(())
}

/// The whole seconds of a moment, as a status has them.
pub fn seconds_of(m: Moment) -> u64
    ensures { result ≡ seconds m }
{
    m.0 / 1000
}

/// The line of a status with its time: `TIME,SECONDS`.
#[tactic(auto, unfolding(crate::specs::Texts::time_text))]
pub fn time_line(alloc: Global, m: Moment) -> Result<Text, NoMemory>
    ensures { IfOk result (λ t. t ≡ time_text m) }
{
    let mut text = Vec::from_slice(alloc, b"TIME")?;
    add_field(&mut text, seconds_of(m))?;
    Ok(Text::of(text))
}

/// The line of a status with a client: `CLIENT_LIST,NAME,IP:PORT,ADDRESS,IN,OUT,SINCE,CID,PEER`.
#[tactic(auto, unfolding(crate::specs::Texts::client_text))]
pub fn status_client(alloc: Global, r: &StatusRow) -> Result<Text, NoMemory>
    ensures { IfOk result (λ t. t ≡ client_text r.now) }
{
    let mut text = Vec::from_slice(alloc, b"CLIENT_LIST")?;
    add_owner(&mut text, r.name.as_slice(), r.real)?;
    text.push(b',')?;
    add_ip4(&mut text, r.address)?;
    add_counts(&mut text, r)?;
    Ok(Text::of(text))
}

/// The line of a status with a route and its owner: `ROUTING_TABLE,NET/LEN,NAME,IP:PORT`, without
/// the length where it is 32, and with a `C` behind it where it was learned.
#[tactic(auto, unfolding(crate::specs::Texts::route_text))]
pub fn status_route(
    alloc: Global,
    p: Prefix,
    learned: bool,
    name: &Text,
    real: Addr,
) -> Result<Text, NoMemory>
    ensures { IfOk result (λ t. t ≡ route_text p learned name.now real) }
{
    let mut text = Vec::from_slice(alloc, b"ROUTING_TABLE,")?;
    add_network(&mut text, p)?;
    add_mark(&mut text, learned)?;
    add_owner(&mut text, name.as_slice(), real)?;
    Ok(Text::of(text))
}

/// The line of a status with the number of packets that wait for the device:
/// `GLOBAL_STATS,queued,N`.
#[tactic(auto, unfolding(crate::specs::Texts::queued_text))]
pub fn queued_line(alloc: Global, queued: u64) -> Result<Text, NoMemory>
    ensures { IfOk result (λ t. t ≡ queued_text queued) }
{
    let mut text = Vec::from_slice(alloc, b"GLOBAL_STATS,queued")?;
    add_field(&mut text, queued)?;
    Ok(Text::of(text))
}

/// The number of clients and all bytes so far: `SUCCESS: nclients=N,bytesin=N,bytesout=N`.
#[tactic(auto, unfolding(crate::specs::Texts::load_text))]
pub fn load_line(
    alloc: Global,
    clients: u64,
    bytes_in: u64,
    bytes_out: u64,
) -> Result<Text, NoMemory>
    ensures { IfOk result (λ t. t ≡ load_text clients bytes_in bytes_out) }
{
    let mut text = Vec::from_slice(alloc, b"SUCCESS: nclients=")?;
    add_number(&mut text, clients)?;
    text.extend_from_slice(b",bytesin=")?;
    add_number(&mut text, bytes_in)?;
    text.extend_from_slice(b",bytesout=")?;
    add_number(&mut text, bytes_out)?;
    Ok(Text::of(text))
}

/// The bytes of a client: `>BYTECOUNT_CLI:CID,IN,OUT`.
#[tactic(auto, unfolding(crate::specs::Texts::count_text))]
pub fn count_line(alloc: Global, cid: Cid, bytes_in: u64, bytes_out: u64) -> Result<Text, NoMemory>
    ensures { IfOk result (λ t. t ≡ count_text cid bytes_in bytes_out) }
{
    let mut text = Vec::from_slice(alloc, b">BYTECOUNT_CLI:")?;
    add_number(&mut text, cid.0)?;
    add_field(&mut text, bytes_in)?;
    add_field(&mut text, bytes_out)?;
    Ok(Text::of(text))
}

/// The bytes of the client that this program is: `>BYTECOUNT:IN,OUT`.
#[tactic(auto, unfolding(crate::specs::Texts::own_count_text))]
pub fn own_count_line(alloc: Global, bytes_in: u64, bytes_out: u64) -> Result<Text, NoMemory>
    ensures { IfOk result (λ t. t ≡ own_count_text bytes_in bytes_out) }
{
    let mut text = Vec::from_slice(alloc, b">BYTECOUNT:")?;
    add_number(&mut text, bytes_in)?;
    add_field(&mut text, bytes_out)?;
    Ok(Text::of(text))
}

/// So many clients of a name were ended: `SUCCESS: common name 'NAME' found, N client(s) killed`.
#[tactic(auto, unfolding(crate::specs::Texts::name_killed_text))]
pub fn name_killed(alloc: Global, name: &[u8], count: u64) -> Result<Text, NoMemory>
    ensures { IfOk result (λ t. t ≡ name_killed_text name.now count) }
{
    let mut text = Vec::from_slice(alloc, b"SUCCESS: common name '")?;
    text.extend_from_slice(name)?;
    text.extend_from_slice(b"' found, ")?;
    add_number(&mut text, count)?;
    text.extend_from_slice(b" client(s) killed")?;
    Ok(Text::of(text))
}

/// No client has the name: `ERROR: common name 'NAME' not found`.
#[tactic(auto, unfolding(crate::specs::Texts::name_not_found_text))]
pub fn name_not_found(alloc: Global, name: &[u8]) -> Result<Text, NoMemory>
    ensures { IfOk result (λ t. t ≡ name_not_found_text name.now) }
{
    let mut text = Vec::from_slice(alloc, b"ERROR: common name '")?;
    text.extend_from_slice(name)?;
    text.extend_from_slice(b"' not found")?;
    Ok(Text::of(text))
}

/// So many clients at an address were ended: `SUCCESS: N client(s) at address IP:PORT killed`.
#[tactic(auto, unfolding(crate::specs::Texts::address_killed_text))]
pub fn address_killed(alloc: Global, a: Addr, count: u64) -> Result<Text, NoMemory>
    ensures { IfOk result (λ t. t ≡ address_killed_text a count) }
{
    let mut text = Vec::from_slice(alloc, b"SUCCESS: ")?;
    add_number(&mut text, count)?;
    text.extend_from_slice(b" client(s) at address ")?;
    write_addr(&mut text, a)?;
    text.extend_from_slice(b" killed")?;
    Ok(Text::of(text))
}

/// No client is at the address: `ERROR: client at address IP:PORT not found`.
#[tactic(auto, unfolding(crate::specs::Texts::address_not_found_text))]
pub fn address_not_found(alloc: Global, a: Addr) -> Result<Text, NoMemory>
    ensures { IfOk result (λ t. t ≡ address_not_found_text a) }
{
    let mut text = Vec::from_slice(alloc, b"ERROR: client at address ")?;
    write_addr(&mut text, a)?;
    text.extend_from_slice(b" not found")?;
    Ok(Text::of(text))
}
