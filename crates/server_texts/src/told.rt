//! What a manager is told of a client. It takes no memory: each line is put together in an array.

ghost use Rattle.std.specs.Prelude.{◌≡◌, ◌≤◌, ◌+◌, ◌*◌, is_some, ◌∷◌, [], ◌++◌, length, map, codes, Option, IfOk};
ghost use Rattle.std.specs.Fmt.{decimal};
ghost use Rattle.vpn_links.specs.Actions.{Holds, Say};
ghost use Rattle.peer_table.specs.Outboxes.{HasRoom, Uses};
ghost use Rattle.server_table.specs.Endings.{disconnect_line};
ghost use Rattle.server_table.specs.Establishing.{address_line, ccd_in, established_line, establishing_lines, network_line};
ghost use Rattle.server_table.specs.Table.{Client, Established};
ghost use Rattle.server_texts.specs.Told.{address_bytes, disconnect_bytes, established_bytes, lines_bytes, lines_effects, network_bytes};

use crate::line::Line;
use crate::put::put;
use ccd_files::Ccd;
use vpn_base::{Cid, Ip4, NoMemory, Prefix, RouteList};
use vpn_links::{Effect, Outbox};

/// The most bytes that an outbox takes of [`say_disconnect`], beside one effect.
pub const DISCONNECT_BYTES: usize = 39;

// The most bytes of the two lines of a client with its address, and of each line with a network of its file.
const FIRST_BYTES: usize = 94;

const NETWORK_BYTES: usize = 58;

// `>CLIENT:ESTABLISHED,N`
fn established(cid: Cid) -> Line
    ensures text { Say result ≡ established_line cid.0 }
    ensures short { length result ≤ established_bytes }
{
    let mut line = Line::new();
    line.add(b">CLIENT:ESTABLISHED,");
    line.add_number(cid.0);
    line
}

// `>CLIENT:ADDRESS,N,`
fn begin_address(cid: Cid) -> Line
    ensures text { result ≡ codes ">CLIENT:ADDRESS," ++ decimal cid.0 ++ codes "," }
    ensures short { length result ≤ 37 }
{
    let mut line = Line::new();
    line.add(b">CLIENT:ADDRESS,");
    line.add_number(cid.0);
    line.add(b",");
    line
}

// `>CLIENT:ADDRESS,N,A,1`
fn own_address(cid: Cid, a: Ip4) -> Line
    ensures text { Say result ≡ address_line cid.0 a }
    ensures short { length result ≤ address_bytes }
{
    let mut line = begin_address(cid);
    line.add_ip4(a);
    line.add(b",1");
    line
}

// `>CLIENT:ADDRESS,N,NET/LEN,0`
fn network_behind(cid: Cid, network: Prefix) -> Line
    ensures text { Say result ≡ network_line cid.0 network }
    ensures short { length result ≤ network_bytes }
{
    let mut line = begin_address(cid);
    line.add_ip4(network.net());
    line.add(b"/");
    line.add_len(network.len());
    line.add(b",0");
    line
}

// `>CLIENT:DISCONNECT,N`
fn disconnected(cid: Cid) -> Line
    ensures text { result ≡ codes ">CLIENT:DISCONNECT," ++ decimal cid.0 }
    ensures short { length result ≤ disconnect_bytes }
{
    let mut line = Line::new();
    line.add(b">CLIENT:DISCONNECT,");
    line.add_number(cid.0);
    line
}

// Says a line.
fn say(line: &Line, out: &mut Outbox)
    requires { HasRoom out.old 1 (length line.now) }
    ensures said { Holds out.new (out.old.effects ++ Say line.now ∷ []) out.old.staged }
    ensures uses { Uses out.old out.new 1 (length line.now) }
{
    put(
        out,
        &Effect::Say {
            bytes: line.as_slice(),
        },
    );
}

// Says that a client is established, and its address.
fn say_first(cid: Cid, address: Ip4, out: &mut Outbox)
    requires { HasRoom out.old 2 (established_bytes + address_bytes) }
    ensures said { Holds out.new (out.old.effects ++ established_line cid.0 ∷ address_line cid.0 address ∷ []) out.old.staged }
    ensures uses { Uses out.old out.new 2 (established_bytes + address_bytes) }
{
    say(&established(cid), out);
    say(&own_address(cid, address), out);
}

// Says a network of its file.
fn say_network(cid: Cid, network: Prefix, out: &mut Outbox)
    requires { HasRoom out.old 1 network_bytes }
    ensures said { Holds out.new (out.old.effects ++ network_line cid.0 network ∷ []) out.old.staged }
    ensures uses { Uses out.old out.new 1 network_bytes }
{
    say(&network_behind(cid, network), out);
}

// Says these networks of its file, in order.
fn say_networks(cid: Cid, networks: &RouteList, out: &mut Outbox)
    requires { HasRoom out.old (length networks.now) (network_bytes * length networks.now) }
    ensures said { Holds out.new (out.old.effects ++ map (network_line cid.0) networks.now) out.old.staged }
    ensures uses { Uses out.old out.new (length networks.now) (network_bytes * length networks.now) }
{
    'networks: for i in 0..networks.count() {
        let Some(network) = networks.item(i) else {
            return;
        };
        say_network(cid, network, out);
    }
}

/// How many effects, and at most how many bytes, an outbox takes of [`say_establishing`] for a client of this
/// file. Want of memory is only where they pass every number, which no list in memory is long enough for.
pub fn establishing_room(file: &Ccd) -> Result<(usize, usize), NoMemory>
    ensures effects { IfOk result (λ r. r.0 ≡ lines_effects file.now) }
    ensures bytes { IfOk result (λ r. r.1 ≡ lines_bytes file.now) }
{
    let networks = file.iroutes.count();
    let Some(effects) = networks.checked_add(2) else {
        return Err(NoMemory);
    };
    let Some(more) = networks.checked_mul(NETWORK_BYTES) else {
        return Err(NoMemory);
    };
    let Some(bytes) = more.checked_add(FIRST_BYTES) else {
        return Err(NoMemory);
    };
    Ok((effects, bytes))
}

/// Tells a manager of a client that is established: `>CLIENT:ESTABLISHED,N`, `>CLIENT:ADDRESS,N,A,1` with its
/// address in the tunnel, and `>CLIENT:ADDRESS,N,NET/LEN,0` for each network of its file, in order.
pub fn say_establishing(cid: Cid, file: &Ccd, address: Ip4, out: &mut Outbox)
    requires { HasRoom out.old (lines_effects file.now) (lines_bytes file.now) }
    ensures said { (x : Client) → ccd_in x.file ≡ file.now → Holds out.new (out.old.effects ++ establishing_lines cid.0 x address) out.old.staged }
    ensures uses { Uses out.old out.new (lines_effects file.now) (lines_bytes file.now) }
{
    say_first(cid, address, out);
    say_networks(cid, &file.iroutes, out);
}

/// Tells a manager that a client has ended, `>CLIENT:DISCONNECT,N`, where it was established. Else it does
/// nothing.
pub fn say_disconnect(cid: Cid, was_established: bool, out: &mut Outbox)
    requires { HasRoom out.old 1 disconnect_bytes }
    ensures said { (e : Option Established) → is_some e ≡ was_established → Holds out.new (out.old.effects ++ disconnect_line cid.0 e) out.old.staged }
    ensures uses { Uses out.old out.new 1 disconnect_bytes }
{
    if was_established {
        say(&disconnected(cid), out);
    }
}
