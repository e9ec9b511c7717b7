//! The server over an outside.

ghost use Rattle.std.specs.Prelude.{◌≡◌, ℕ, ◌≤◌, ◌^◌, [], List, None};
ghost use Rattle.ovpn_config.specs.Bounds.{IsBounded};
ghost use Rattle.vpn_base.specs.Answers.{IfWhy, Rose};
ghost use Rattle.vpn_base.specs.declared.names.Role.TheVariants as roles;
ghost use Rattle.vpn_links.specs.Faults.{Starting};
ghost use Rattle.vpn_links.specs.Rounds.{Round};
ghost use Rattle.vpn_links.specs.declared.links.LinkFault.{LinkFault};
ghost use Rattle.vpn_node.specs.Running.{Ends, RunOver};
ghost use Rattle.server_table.specs.Table.{Table, table_begun};
ghost use Rattle.server_replay.specs.internal.Serving.{Counted, Served, with_start};

use ovpn_config::Settings;
use peer_table::ClientSession;
use server_core::{EventCore, Server};
use server_state::ServerCore;
use std::alloc::Global;
use tls_crypt::StaticKey;
use vpn_base::{NoMemory, Or, Role, RouteList, Text, TextList};
use vpn_links::{LinkFault, Links, Machine, Plan};
use vpn_node::{Node, Outcome, Ran};

// The most events of a run.
const TURNS: u64 = 1 << 48;

// A plan of nothing, for links that are not started with anything.
fn make_plan(alloc: Global) -> Result<Plan, NoMemory> {
    Ok(Plan {
        role: Role::Server,
        local: None,
        port: 0,
        remote: None,
        dev: Text::copy(alloc, b"")?,
        address: None,
        routes: RouteList::new(alloc),
        engine: TextList::new(alloc),
        console: None,
        ccd: None,
    })
}

// What a run comes to whose start was refused.
fn outcome_of<L: Links>(fault: Or<LinkFault>) -> Outcome
    requires may { IfWhy fault (L.may_fail Starting) }
    ensures ended { Ends (with_start L.may_fail) result (2 ^ 48) [] [] None }
    ensures counted { (before now : LinkFault → ℕ) → IfWhy fault (λ k. Rose (before k) (now k)) → Counted result before now }
{
    match fault {
        Or::Memory => Outcome::Memory,
        Or::Why(fault) => Outcome::Fault(fault),
    }
}

// A run to which no event came.
fn never_ran(outcome: Outcome) -> Ran
    ensures { result ≡ record { outcome = outcome; events = 0; lost = 0; refused = 0 } }
{
    Ran {
        outcome,
        events: 0,
        lost: 0,
        refused: 0,
    }
}

// Runs a core over links that were not started yet, and hands both back.
fn run_over<M: Machine, L: Links>(alloc: Global, machine: M, links: L, plan: &Plan) -> (M, L, Ran)
    ensures run { (t : M.Table) → M.stands machine t →
        RunOver (with_start L.may_fail) M.next M.effects M.may_lack (M.stands result.0) (L.stands links) (L.stands result.1) t (2 ^ 48) result.2 }
    ensures failed { Counted result.2.outcome (L.faults links) (L.faults result.1) }
    ensures never_falls { (k : LinkFault) → L.faults links k ≤ L.faults result.1 k }
    ensures origin { L.origin_of result.1 ≡ L.origin_of links }
{
    match Node::new(machine, links).start(plan) {
        Ok(node) => {
            let (node, ran) = node.run(alloc, TURNS);
            let (machine, links) = node.parts();
            (machine, links, ran)
        }
        Err((node, fault)) => {
            let (machine, links) = node.parts();
            (machine, links, never_ran(outcome_of::<L>(fault)))
        }
    }
}

// What a run comes to that finds no memory for its server.
fn never_served<L: Links>(links: L) -> (L, Ran)
    ensures run { (t : Table) → Served (with_start L.may_fail) t (L.stands links) (L.stands result.0) result.1 }
    ensures failed { Counted result.1.outcome (L.faults links) (L.faults result.0) }
    ensures never_falls { (k : LinkFault) → L.faults links k ≤ L.faults result.0 k }
    ensures origin { L.origin_of result.0 ≡ L.origin_of links }
{
    (links, never_ran(Outcome::Memory))
}

// Runs a server over links.
fn serve_by<C: EventCore + Drop, L: Links>(
    alloc: Global,
    server: Server<C>,
    links: L,
    plan: &Plan,
) -> (L, Ran)
    ensures run { (t : Table) → C.stands server t → Served (with_start L.may_fail) t (L.stands links) (L.stands result.0) result.1 }
    ensures failed { Counted result.1.outcome (L.faults links) (L.faults result.0) }
    ensures never_falls { (k : LinkFault) → L.faults links k ≤ L.faults result.0 k }
    ensures origin { L.origin_of result.0 ≡ L.origin_of links }
{
    let (_, links, ran) = run_over(alloc, server, links, plan);
    (links, ran)
}

// Runs a server of this configuration and static key, to which nothing has come, over links.
pub(crate) fn serve<S: ClientSession + Drop, L: Links>(
    alloc: Global,
    settings: Settings,
    key: StaticKey,
    links: L,
) -> (L, Ran)
    requires bounded { IsBounded settings }
    requires server { settings.role ≡ roles.Server }
    ensures run { Served (with_start L.may_fail) (table_begun settings key.0) (L.stands links) (L.stands result.0) result.1 }
    ensures failed { Counted result.1.outcome (L.faults links) (L.faults result.0) }
    ensures never_falls { (k : LinkFault) → L.faults links k ≤ L.faults result.0 k }
    ensures origin { L.origin_of result.0 ≡ L.origin_of links }
{
    let Ok(plan) = make_plan(alloc) else {
        return never_served(links);
    };
    let Ok(server) = Server::<ServerCore<S>>::make(alloc, settings, key) else {
        return never_served(links);
    };
    serve_by(alloc, server, links, &plan)
}
