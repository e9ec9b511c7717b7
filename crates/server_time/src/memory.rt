//! The memory that a server takes before time passes for its clients.

ghost use Rattle.std.specs.Prelude.{◌≡◌, ◌<◌, ◌≤◌, ◌+◌, ◌-◌, ◌^◌, IfOk, OnOk, Some, drop, length, option_map, slice_get};
ghost use Rattle.std.specs.List.{AllByRecursion};
ghost use Rattle.vpn_links.specs.Actions.{Holds};
ghost use Rattle.client_table.specs.Tables.{entries_of};
ghost use Rattle.server_table.specs.Table.{Client};
ghost use Rattle.server_state.specs.declared.client.ClientState.{ClientState};
ghost use Rattle.server_state.specs.Core.{GoesOn, StateStands};
ghost use Rattle.server_time.specs.Memory.{AreReady, HasMemory, StaysSame};
ghost use Rattle.server_time.specs.Turns.{IsReadyAs};

use peer_table::ClientSession;
use server_state::{ClientState, ServerCore};
use vpn_base::NoMemory;
use vpn_links::{Kind, Outbox};

// The session of a client takes the memory.
fn ready_client<S: ClientSession>(client: &mut ClientState<S>) -> Result<(usize, usize), NoMemory>
    requires few { S.count client.old.session < 2 ^ 64 - 1 }
    requires goes_on { S.goes_on client.old.session }
    ensures same { (x : Client) → StateStands S.stands client.old x → StateStands S.stands client.new x }
    ensures file { client.new.file ≡ client.old.file }
    ensures goes_on { S.goes_on client.new.session }
    ensures count { S.count client.new.session ≡ S.count client.old.session }
    ensures since { S.since client.new.session ≡ S.since client.old.session }
    ensures ready { IfOk result (λ room. IsReadyAs S.is_ready client.new room.0 room.1) }
{
    let established = client.established.is_some();
    client.session.ready(&Kind::Tick, established)
}

// The session of the client at this place takes the memory.
fn ready_at<S: ClientSession>(
    core: &mut ServerCore<S>,
    i: usize,
) -> Result<(usize, usize), NoMemory>
    requires within { i < length (entries_of core.old.clients) }
    requires sessions { AllByRecursion (GoesOn S.goes_on S.count S.since (2 ^ 63) core.old.moment.0) (entries_of core.old.clients) }
    ensures stays { StaysSame S.stands S.goes_on S.count S.since core.old core.new }
    ensures behind { drop (i + 1) (entries_of core.new.clients) ≡ drop (i + 1) (entries_of core.old.clients) }
    ensures ready { IfOk result (λ room. (v : ClientState S) → option_map (λ e. e.value) (slice_get (entries_of core.new.clients) i) ≡ Some v →
        IsReadyAs S.is_ready v room.0 room.1) }
{
    client_table::lending_sets_the_value::<ClientState<S>>();
    server_state::places_tell_of_clients::<S>();
    ready_client(core.clients.value_at(i))
}

// The sum of three numbers. No memory has more room than a usize can say.
fn sum(so_far: usize, more: usize, most: usize) -> Result<usize, NoMemory>
    ensures { IfOk result (λ n. n ≡ so_far + more + most) }
{
    let Some(first) = so_far.checked_add(more) else {
        return Err(NoMemory);
    };
    let Some(all) = first.checked_add(most) else {
        return Err(NoMemory);
    };
    Ok(all)
}

// The sessions of all clients take the memory, from the last to the first, and it is answered for how many effects
// and bytes the outbox has to have room, with an ending and a ping of each.
fn ready_all<S: ClientSession>(core: &mut ServerCore<S>) -> Result<(usize, usize), NoMemory>
    requires sessions { AllByRecursion (GoesOn S.goes_on S.count S.since (2 ^ 63) core.old.moment.0) (entries_of core.old.clients) }
    ensures stays { StaysSame S.stands S.goes_on S.count S.since core.old core.new }
    ensures ready { IfOk result (λ room. AreReady S.is_ready (entries_of core.new.clients) room.0 room.1) }
{
    let mut effects = 0;
    let mut bytes = 0;
    let mut left = core.clients.count();
    while 0 < left {
        left -= 1;
        let (more_effects, more_bytes) = ready_at(core, left)?;
        effects = sum(effects, more_effects, 7)?;
        bytes = sum(bytes, more_bytes, 1563)?;
    }
    Ok((effects, bytes))
}

/// Takes all memory that may be needed where time passes. After want of memory the core stands for the same.
pub fn take_memory<S: ClientSession>(
    core: &mut ServerCore<S>,
    out: &mut Outbox,
) -> Result<(), NoMemory>
    requires sessions { AllByRecursion (GoesOn S.goes_on S.count S.since (2 ^ 63) core.old.moment.0) (entries_of core.old.clients) }
    ensures stays { StaysSame S.stands S.goes_on S.count S.since core.old core.new }
    ensures outbox { Holds out.new out.old.effects out.old.staged }
    ensures ready { OnOk result (HasMemory S.is_ready core.new out.new) }
{
    let (effects, bytes) = ready_all(core)?;
    out.reserve(effects, bytes)
}
