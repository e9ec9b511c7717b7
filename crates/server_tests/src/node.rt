//! Cores of three kinds, run against links in memory.

ghost use Rattle.std.specs.Prelude.{◌≡◌, [], ◌∷◌};
ghost use Rattle.vpn_links.specs.Rounds.{IsOfLine};
ghost use Rattle.vpn_links.specs.declared.events.Kind.TheVariants.{Tick};
ghost use Rattle.vpn_links.specs.Actions.{Stop, Wire};

use std::alloc::Global;
use std::test::Fail;
use vpn_base::{Addr, Draw, Ip4, Moment, NoMemory, Or, Role, RouteList, Text, TextList};
use vpn_links::{Effect, Event, Kind, LinkFault, Links, Machine, MemLinks, Outbox, Plan};
use vpn_node::{Node, Outcome, Ran};

const PEER: Addr = Addr {
    ip: Ip4(0xC000_0207),
    port: 40_000,
};

// A core that stops at every event.
#[derive(Drop)]
struct Stopping;

impl Machine for Stopping {
    ghost Table = { Unit {0} };

    ghost stands = { λ _ _. Unit {0} };

    ghost next = { λ _ t _. t };

    ghost effects = { λ _ _ _. Stop ∷ [] };

    ghost may_lack = { λ _ _ _. ⊥ };

    fn step(&mut self, event: &Event, out: &mut Outbox) -> Result<(), NoMemory> {
        let _ = event;
        out.add(&Effect::Stop)
    }
}

// A core that sends an empty datagram at every event.
#[derive(Drop)]
struct Sending;

impl Machine for Sending {
    ghost use Rattle.server_tests.specs.declared.node.TheConstants.{PEER};

    ghost Table = { Unit {0} };

    ghost stands = { λ _ _. Unit {0} };

    ghost next = { λ _ t _. t };

    ghost effects = { λ _ _ _. Wire PEER [] ∷ [] };

    ghost may_lack = { λ _ _ _. ⊥ };

    fn step(&mut self, event: &Event, out: &mut Outbox) -> Result<(), NoMemory> {
        let _ = event;
        out.add(&Effect::Wire {
            to: PEER,
            bytes: b"",
        })
    }
}

// A core that never finds memory.
#[derive(Drop)]
struct Lacking;

impl Machine for Lacking {
    ghost Table = { Unit {0} };

    ghost stands = { λ _ _. Unit {0} };

    ghost next = { λ _ t _. t };

    ghost effects = { λ _ _ _. [] };

    ghost may_lack = { λ _ _ _. Unit {0} };

    fn step(&mut self, event: &Event, out: &mut Outbox) -> Result<(), NoMemory> {
        let _ = event;
        out.cut(out.count(), 0);
        Err(NoMemory)
    }
}

fn plan(alloc: Global) -> Result<Plan, NoMemory> {
    Ok(Plan {
        role: Role::Server,
        local: None,
        port: 1194,
        remote: None,
        dev: Text::copy(alloc, b"tun")?,
        address: None,
        routes: RouteList::new(alloc),
        engine: TextList::new(alloc),
        console: None,
        ccd: None,
    })
}

fn tick(at: u64) -> Event
    ensures { result.kind ≡ Tick }
{
    Event {
        now: Moment(at),
        draw: Draw([0; 120]),
        kind: Kind::Tick,
    }
}

// Links with five ticks, of which one call fails.
fn ticks(alloc: Global, call: u64, fault: LinkFault) -> Result<MemLinks, NoMemory> {
    let events = Vec::from_array(alloc, [tick(0), tick(1), tick(2), tick(3), tick(4)])?;
    let mut failing = Vec::new(alloc);
    failing.push((call, fault))?;
    Ok(MemLinks::new(alloc, events, failing)?)
}

// A run after a start that may be refused, with the links after it.
fn drive<M: Machine + Drop, L: Links + Drop>(
    alloc: Global,
    machine: M,
    links: L,
    turns: u64,
) -> Result<(Result<Ran, Or<LinkFault>>, L), NoMemory> {
    let plan = plan(alloc)?;
    match Node::new(machine, links).start(&plan) {
        Ok(node) => {
            let (node, ran) = node.run(alloc, turns);
            Ok((Ok(ran), node.parts().1))
        }
        Err((node, fault)) => Ok((Err(fault), node.parts().1)),
    }
}

#[test]
fn a_refused_start_and_a_core_that_stops(rt: HostRuntime) -> Result<(), Fail> {
    let alloc = rt.alloc();
    let links = ticks(alloc, 0, LinkFault::Engine)?;
    let (refused, links) = drive(alloc, Stopping, links, 5)?;
    assert!(rt; matches!(refused, Err(Or::Why(LinkFault::Engine))));
    let (ran, links) = drive(alloc, Stopping, links, 5)?;
    assert_eq!(rt;
        ran,
        Ok(Ran {
            outcome: Outcome::Stopped,
            events: 1,
            lost: 0,
            refused: 0
        })
    );
    assert!(rt; matches!(links.effect_given(0, 0), Some((Effect::Stop, false))));
    Ok(())
}

#[test]
fn a_lost_datagram_and_a_fault(rt: HostRuntime) -> Result<(), Fail> {
    let alloc = rt.alloc();
    let (ran, links) = drive(alloc, Sending, ticks(alloc, 2, LinkFault::Wire)?, 3)?;
    assert_eq!(rt;
        ran,
        Ok(Ran {
            outcome: Outcome::TurnsSpent,
            events: 3,
            lost: 1,
            refused: 0
        })
    );
    assert!(rt; matches!(links.effect_given(0, 0), Some((Effect::Wire { .. }, true))));
    assert!(rt; matches!(links.effect_given(2, 0), Some((Effect::Wire { .. }, false))));
    let (ran, links) = drive(alloc, Sending, ticks(alloc, 4, LinkFault::Device)?, 3)?;
    assert_eq!(rt;
        ran,
        Ok(Ran {
            outcome: Outcome::Fault(LinkFault::Device),
            events: 2,
            lost: 0,
            refused: 0
        })
    );
    assert_eq!(rt; links.events_given(), 2);
    Ok(())
}

#[test]
fn want_of_memory_is_reported(rt: HostRuntime) -> Result<(), Fail> {
    let alloc = rt.alloc();
    let (ran, links) = drive(alloc, Lacking, ticks(alloc, 9, LinkFault::Random)?, 2)?;
    assert_eq!(rt;
        ran,
        Ok(Ran {
            outcome: Outcome::TurnsSpent,
            events: 2,
            lost: 0,
            refused: 2
        })
    );
    assert!(rt; matches!(links.effect_given(1, 0), Some((Effect::Report(_), false))));
    Ok(())
}
