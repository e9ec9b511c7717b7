//! A core with its outside, before a run, in it and after it.

ghost use Rattle.std.specs.Prelude.{◌≡◌, ◌≤◌, List, None, IfOk, IfErr};
ghost use Rattle.vpn_base.specs.Answers.{Rose, IfWhy};
ghost use Rattle.vpn_links.specs.Faults.{Starting};
ghost use Rattle.vpn_links.specs.Rounds.{Round};
ghost use Rattle.vpn_links.specs.Starts.{started_with};
ghost use Rattle.vpn_links.specs.declared.links.LinkFault.{LinkFault};

use crate::outcome::Ran;
use crate::run::run;
use std::alloc::Global;
use std::marker::Model;
use vpn_base::Or;
use vpn_links::{LinkFault, Links, Machine, Plan};

/// The outside was not started yet.
#[derive(Drop)]
pub struct Closed;

/// The outside was started.
#[derive(Drop)]
pub struct Serving;

/// The run is over.
#[derive(Drop)]
pub struct Ended;

/// A core and its outside. Contracts see the two, whatever the state.
pub struct Node<M, L, State> {
    machine: M,
    links: L,
    state: State,
}

impl<M, L, State> Model for Node<M, L, State> {
    ghost use Rattle.vpn_node.specs.Parts.{Parts};

    ghost Value = { Parts M L };

    ghost view = { λ n. record { machine = n.machine; links = n.links } };
}

impl<M: Machine, L: Links> Node<M, L, Closed> {
    /// A core with an outside that was not started.
    pub fn new(machine: M, links: L) -> Node<M, L, Closed>
        ensures { result ≡ record { machine = machine; links = links } }
    {
        Node {
            machine,
            links,
            state: Closed,
        }
    }

    /// The core and its outside.
    pub fn parts(self) -> (M, L)
        ensures { (result.0 ≡ self.machine) × (result.1 ≡ self.links) }
    {
        let Node {
            machine,
            links,
            state: _,
        } = self;
        (machine, links)
    }

    /// Starts the outside with a plan. Where it refuses, the node is handed back with the core as it was, beside
    /// the reason.
    pub fn start(
        self,
        plan: &Plan,
    ) -> Result<Node<M, L, Serving>, (Node<M, L, Closed>, Or<LinkFault>)>
        ensures machine { IfOk result (λ n. n.machine ≡ self.machine) }
        ensures machine_kept { IfErr result (λ e. e.0.machine ≡ self.machine) }
        ensures started { IfOk result (λ n. L.started n.links ≡ started_with (L.started self.links) plan.now) }
        ensures refused { IfErr result (λ e. L.started e.0.links ≡ L.started self.links) }
        ensures rounds { IfOk result (λ n. (l : List Round) → L.stands self.links None l → L.stands n.links None l) }
        ensures rounds_kept { IfErr result (λ e. (l : List Round) → L.stands self.links None l → L.stands e.0.links None l) }
        ensures failed { IfErr result (λ e. IfWhy e.1 (λ k. Rose (L.faults self.links k) (L.faults e.0.links k))) }
        ensures may { IfErr result (λ e. IfWhy e.1 (L.may_fail Starting)) }
        ensures never_falls { IfOk result (λ n. (k : LinkFault) → L.faults self.links k ≤ L.faults n.links k) }
        ensures never_falls_refused { IfErr result (λ e. (k : LinkFault) → L.faults self.links k ≤ L.faults e.0.links k) }
        ensures origin { IfOk result (λ n. L.origin_of n.links ≡ L.origin_of self.links) }
        ensures origin_refused { IfErr result (λ e. L.origin_of e.0.links ≡ L.origin_of self.links) }
    {
        let Node {
            machine,
            mut links,
            state: _,
        } = self;
        match links.start(plan) {
            Ok(()) => Ok(Node {
                machine,
                links,
                state: Serving,
            }),
            Err(fault) => Err((
                Node {
                    machine,
                    links,
                    state: Closed,
                },
                fault,
            )),
        }
    }
}

impl<M: Machine, L: Links> Node<M, L, Serving> {
    ghost use Rattle.vpn_node.specs.Running.{Caused, RunOver};

    /// Takes events, at most `turns` of them, until the effects of one hold Stop, and gives the effects of each.
    /// A datagram that is lost on the line is counted, and the run goes on. An event for which the core finds no
    /// memory is reported and counted in its place, and so is a host that was not learned.
    pub fn run(self, alloc: Global, turns: u64) -> (Node<M, L, Ended>, Ran)
        // For each table that the core stands for: the events of the run with what lacked at them, the effects that
        // were given of each, the one of which only a part was taken, and the counts.
        ensures run { (t : M.Table) → M.stands self.machine t →
            RunOver L.may_fail M.next M.effects M.may_lack (M.stands result.0.machine) (L.stands self.links) (L.stands result.0.links) t turns result.1 }
        ensures failed { Caused result.1.outcome (L.faults self.links) (L.faults result.0.links) }
        ensures never_falls { (k : LinkFault) → L.faults self.links k ≤ L.faults result.0.links k }
        ensures started { L.started result.0.links ≡ L.started self.links }
        ensures origin { L.origin_of result.0.links ≡ L.origin_of self.links }
    {
        let Node {
            mut machine,
            mut links,
            state: _,
        } = self;
        let ran = run(alloc, &mut machine, &mut links, turns);
        (
            Node {
                machine,
                links,
                state: Ended,
            },
            ran,
        )
    }
}

impl<M: Machine, L: Links> Node<M, L, Ended> {
    /// The core and its outside.
    pub fn parts(self) -> (M, L)
        ensures { (result.0 ≡ self.machine) × (result.1 ≡ self.links) }
    {
        let Node {
            machine,
            links,
            state: _,
        } = self;
        (machine, links)
    }
}
