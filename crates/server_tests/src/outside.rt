//! An outbox that is filled and settled, links in memory that fail where they are told, and the least core.

ghost use Rattle.std.specs.Prelude.{[], ◌∷◌};
ghost use Rattle.vpn_links.specs.Actions.{Stop};

use std::alloc::Global;
use std::test::Fail;
use vpn_base::{Addr, Bytes, Draw, Ip4, Moment, NoMemory, Or, Role, RouteList, Text, TextList};
use vpn_links::{Effect, Event, Kind, LinkFault, Links, Machine, MemLinks, Outbox, Plan};

const PEER: Addr = Addr {
    ip: Ip4(0xC000_0207),
    port: 40_000,
};

fn is_wire(effect: Option<Effect<'_>>, wanted: &[u8]) -> bool {
    match effect {
        Some(Effect::Wire { to, bytes }) => to == PEER && bytes == wanted,
        _ => false,
    }
}

#[test]
fn datagrams_stand_behind_the_effects(rt: HostRuntime) -> Result<(), Fail> {
    let alloc = rt.alloc();
    let mut outbox = Outbox::make(alloc)?;
    outbox.stage(PEER, b"datagram")?;
    outbox.add(&Effect::Say { bytes: b"hello" })?;
    outbox.reserve(1, 0)?;
    outbox.add_configure(
        Ip4(0x0A08_0002),
        24,
        None,
        RouteList::new(alloc),
        TextList::new(alloc),
    );
    assert_eq!(rt; outbox.staged(), 1);
    outbox.cut(2, 1);
    outbox.settle();
    assert_eq!(rt; outbox.count(), 3);
    assert!(rt; is_wire(outbox.effect(2), b"datagram"));
    outbox.clear();
    assert_eq!(rt; outbox.count(), 0);
    Ok(())
}

fn plan(alloc: Global) -> Result<Plan, NoMemory> {
    Ok(Plan {
        role: Role::Server,
        local: None,
        port: 1194,
        remote: None,
        dev: Text::copy(alloc, b"tun")?,
        address: None,
        routes: RouteList::new(alloc),
        engine: TextList::new(alloc),
        console: None,
        ccd: None,
    })
}

// A start that the engine fails, one that goes, an event, a datagram that is lost, and an effect.
fn drive<L: Links>(links: &mut L, plan: &Plan, event: &mut Event) -> bool {
    let wire = Effect::Wire {
        to: PEER,
        bytes: b"reply",
    };
    matches!(links.start(plan), Err(Or::Why(LinkFault::Engine)))
        && links.start(plan).is_ok()
        && links.next(event).is_ok()
        && matches!(links.give(&wire), Err(Or::Why(LinkFault::Wire)))
        && links.give(&Effect::Stop).is_ok()
}

#[test]
fn links_in_memory_fail_where_they_are_told(rt: HostRuntime) -> Result<(), Fail> {
    let alloc = rt.alloc();
    let mut events = Vec::new(alloc);
    events.push(Event {
        now: Moment(5),
        draw: Draw([7; 120]),
        kind: Kind::Line {
            bytes: Bytes::copy(alloc, b"status")?,
        },
    })?;
    let mut failing = Vec::new(alloc);
    failing.push((0, LinkFault::Engine))?;
    failing.push((2, LinkFault::Wire))?;
    failing.push((3, LinkFault::Wire))?;
    let mut links = MemLinks::new(alloc, events, failing)?;
    let plan = plan(alloc)?;
    let mut event = Event {
        now: Moment(0),
        draw: Draw([0; 120]),
        kind: Kind::Tick,
    };
    assert!(rt; drive(&mut links, &plan, &mut event));
    assert!(rt; matches!(event.kind, Kind::Line { .. }));
    assert_eq!(rt; links.events_given(), 1);
    assert!(rt; matches!(links.effect_given(0, 0), Some((Effect::Wire { .. }, true))));
    assert!(rt; matches!(links.effect_given(0, 1), Some((Effect::Stop, false))));
    assert!(rt; links.next(&mut event).is_ok());
    assert!(rt; matches!(event.kind, Kind::Halt));
    assert_eq!(rt; event.now, Moment(5));
    Ok(())
}

// A core that stops at every event.
struct Stopping;

impl Machine for Stopping {
    ghost Table = { Unit {0} };

    ghost stands = { λ _ _. Unit {0} };

    ghost next = { λ _ t _. t };

    ghost effects = { λ _ _ _. Stop ∷ [] };

    ghost may_lack = { λ _ _ _. ⊥ };

    fn step(&mut self, event: &Event, out: &mut Outbox) -> Result<(), NoMemory> {
        let _ = event;
        out.add(&Effect::Stop)
    }
}
