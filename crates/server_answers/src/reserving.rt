//! The room that an outbox takes of a key exchange with what follows it.

ghost use Rattle.std.specs.Prelude.{◌≡◌, ◌+◌, ◌*◌, ◌/◌, IfOk, OnOk};
ghost use Rattle.vpn_links.specs.Actions.{Holds};
ghost use Rattle.peer_table.specs.Outboxes.{HasRoom};
ghost use Rattle.server_answers.specs.internal.Following.{exchange_bytes, exchange_effects, follow_bytes, follow_effects};

use server_establishing::Prepared;
use vpn_base::NoMemory;
use vpn_links::Outbox;

// A sum; no memory has more room than a usize can say.
fn sum(first: usize, last: usize) -> Result<usize, NoMemory>
    ensures { IfOk result (λ n. n ≡ first + last) }
{
    match first.checked_add(last) {
        None => Err(NoMemory),
        Some(n) => Ok(n),
    }
}

// A product.
fn product(first: usize, last: usize) -> Result<usize, NoMemory>
    ensures { IfOk result (λ n. n ≡ first * last) }
{
    match first.checked_mul(last) {
        None => Err(NoMemory),
        Some(n) => Ok(n),
    }
}

// How much so many requests take, of which each takes so much, with what stands beside them.
fn repeated(each: usize, requests: usize, beside: usize) -> Result<usize, NoMemory>
    ensures { IfOk result (λ n. n ≡ each + (each * requests + beside)) }
{
    let requested = product(each, requests)?;
    let all = sum(requested, beside)?;
    sum(each, all)
}

// How many effects and bytes a key exchange takes, with what follows it.
fn exchange_room(prepared: &Prepared, left: usize) -> Result<(usize, usize), NoMemory>
    ensures effects { IfOk result (λ r. r.0 ≡ exchange_effects prepared.now left) }
    ensures bytes { IfOk result (λ r. r.1 ≡ exchange_bytes prepared.now left) }
{
    let (effects, bytes) = match prepared.room() {
        Ok(room) => room,
        Err(NoMemory) => return Err(NoMemory),
    };
    let requests = left / 13;
    let effects = sum(7, repeated(effects, requests, left)?)?;
    let bytes = sum(132, repeated(bytes, requests, 0)?)?;
    Ok((effects, bytes))
}

/// Makes room for a key exchange with what follows it, and for an ending. What the outbox has stays.
pub(crate) fn reserve_exchange(
    out: &mut Outbox,
    prepared: &Prepared,
    left: usize,
) -> Result<(), NoMemory>
    ensures same { Holds out.new out.old.effects out.old.staged }
    ensures ok { OnOk result (HasRoom out.new (5 + exchange_effects prepared.now left) (39 + exchange_bytes prepared.now left)) }
{
    let (effects, bytes) = exchange_room(prepared, left)?;
    let effects = sum(5, effects)?;
    let bytes = sum(39, bytes)?;
    out.reserve(effects, bytes)
}

/// Makes so much room, and room for all that may follow an answer of the engine. What the outbox has stays.
pub(crate) fn reserve_all(
    out: &mut Outbox,
    room: (usize, usize),
    prepared: &Prepared,
    left: usize,
    longest: usize,
) -> Result<(), NoMemory>
    ensures same { Holds out.new out.old.effects out.old.staged }
    ensures ok { OnOk result (HasRoom out.new (room.0 + follow_effects prepared.now left) (room.1 + follow_bytes prepared.now left longest)) }
{
    let (effects, bytes) = exchange_room(prepared, left)?;
    let effects = sum(room.0, sum(6, effects)?)?;
    let bytes = sum(room.1, sum(sum(longest, 39)?, bytes)?)?;
    out.reserve(effects, bytes)
}

/// Makes so much room, and room for an ending. What the outbox has stays.
pub(crate) fn reserve_ending(out: &mut Outbox, room: (usize, usize)) -> Result<(), NoMemory>
    ensures same { Holds out.new out.old.effects out.old.staged }
    ensures ok { OnOk result (HasRoom out.new (room.0 + 5) (room.1 + 39)) }
{
    let effects = sum(room.0, 5)?;
    let bytes = sum(room.1, 39)?;
    out.reserve(effects, bytes)
}
