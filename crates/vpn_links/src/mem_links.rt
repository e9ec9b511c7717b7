//! Links in memory, which tell everything and fail at the calls that they are told to.

ghost use Rattle.std.specs.Prelude.{◌≡◌, ℕ, ◌≤◌, ◌<◌, List, [], ◌∷◌, ◌++◌, All, length, option_map, Option, None, Some, IfSome, true, false, IfOk, IfErr, OnOk, OnErr, Err, IsTrue, slice_get, vec_len, vec_capacity};
ghost use Rattle.std.specs.List.{AllByRecursion};
ghost use Rattle.vpn_base.specs.Answers.{Rose, IfWhy};
ghost use Rattle.vpn_base.specs.Memory.{counted};
ghost use Rattle.vpn_base.specs.declared.errors.Or.{Or};
ghost use Rattle.vpn_links.specs.Actions.{Holds, action, is_wire};
ghost use Rattle.vpn_links.specs.LinkStore.{FailsBy, after_effect, after_next, after_start, called, count_of, effect_of, event_at, fault_at, fault_of, given_last, halt_after, last_moment, may_answer, place_of, risen, rounds_of, started_of, store_begun, unless_memory};
ghost use Rattle.vpn_links.specs.Rounds.{Given, IsOfLine, Round, after_give, came};
ghost use Rattle.vpn_links.specs.Starts.{started_with};
ghost use Rattle.vpn_links.specs.declared.links.LinkFault.{LinkFault};

use crate::effects::Effect;
use crate::events::{Event, Kind};
use crate::links::{LinkFault, Links, Plan};
use crate::outbox::Outbox;
use std::alloc::Global;
use std::marker::Model;
use vpn_base::{Draw, Moment, NoMemory, Or};

// The effects that were given after one event, each with whether it was lost.
#[derive(Drop)]
struct Effects {
    kept: Outbox,
    lost: Vec<bool>,
}

impl Model for Effects {
    ghost use Rattle.std.specs.Prelude.{◌≡◌, List, [], length};
    ghost use Rattle.vpn_links.specs.Rounds.{Given};
    ghost use Rattle.vpn_links.specs.internal.Marks.{marked};

    ghost Value = { List Given };

    ghost view = { λ e. marked e.kept.effects e.lost.items };

    ghost invariant = { λ e. (length e.kept.effects ≡ length e.lost.items) × (e.kept.staged ≡ []) };
}

impl Effects {
    fn new(alloc: Global) -> Result<Effects, NoMemory>
        ensures { IfOk result (λ e. e ≡ []) }
    {
        let kept = Outbox::make(alloc)?;
        Ok(Effects {
            kept,
            lost: Vec::new(alloc),
        })
    }

    // Keeps one more effect. After want of memory nothing has changed.
    fn keep(&mut self, alloc: Global, e: &Effect<'_>, is_lost: bool) -> Result<(), NoMemory>
        ensures ok { OnOk result (self.new ≡ self.old ++ record { action = action e.now; is_lost = is_lost } ∷ []) }
        ensures err { OnErr result (self.new ≡ self.old) }
    {
        self.lost.reserve(1)?;
        add(alloc, &mut self.kept, e)?;
        mark(&mut self.lost, is_lost);
        Ok(())
    }

    fn get(&self, i: usize) -> Option<(Effect<'_>, bool)>
        ensures { option_map (λ x. record { action = action x.0; is_lost = x.1 }) result ≡ slice_get self.now i }
    {
        match self.kept.effect(i) {
            None => None,
            Some(effect) => Some((effect, self.lost[i])),
        }
    }
}

// Adds any effect, of a configuration with lists of its own.
fn add(alloc: Global, out: &mut Outbox, e: &Effect<'_>) -> Result<(), NoMemory>
    ensures ok { OnOk result (Holds out.new (out.old.effects ++ action e.now ∷ []) out.old.staged) }
    ensures err { OnErr result (Holds out.new out.old.effects out.old.staged) }
{
    match e {
        Effect::Configure {
            address,
            len,
            gateway,
            routes,
            rest,
        } => {
            let routes = routes.copy(alloc)?;
            let rest = rest.copy(alloc)?;
            out.reserve(1, 0)?;
            out.add_configure(*address, *len, *gateway, routes, rest);
            Ok(())
        }
        _ => out.add(e),
    }
}

fn mark(lost: &mut Vec<bool>, is_lost: bool)
    requires { vec_len lost.old < vec_capacity lost.old }
    ensures { lost.new.items ≡ lost.old.items ++ is_lost ∷ [] }
{
    let pushed = lost.push(is_lost);
    prove!(pushed.is_ok());
    let _ = pushed;
}

// How often each part failed.
fn count_up(faults: &mut [u64], fault: LinkFault)
    requires { length faults.old ≡ 8 }
    ensures { faults.new ≡ risen faults.old fault }
{
    let place = place(fault);
    faults[place] = faults[place].saturating_add(1);
}

fn place(fault: LinkFault) -> usize
    ensures same { result ≡ place_of fault }
    ensures within { result < 8 }
{
    match fault {
        LinkFault::Wire => 0,
        LinkFault::Engine => 1,
        LinkFault::Device => 2,
        LinkFault::Console => 3,
        LinkFault::Random => 4,
        LinkFault::Input => 5,
        LinkFault::Output => 6,
        LinkFault::Schedule => 7,
    }
}

fn may_answer(of_line: bool, fault: LinkFault) -> bool
    ensures { result ≡ may_answer of_line fault }
{
    match fault {
        LinkFault::Wire => of_line,
        _ => true,
    }
}

fn fault_of(failing: &[(u64, LinkFault)], call: u64, of_line: bool) -> Option<LinkFault>
    ensures first { result ≡ fault_at failing.now call of_line }
    ensures answerable { IfSome result (λ k. IsTrue (may_answer of_line k)) }
{
    for (number, fault) in failing {
        if *number == call && may_answer(of_line, *fault) {
            return Some(*fault);
        }
    }
    None
}

// What comes behind the last event.
fn halt_after(events: &[Event]) -> Event
    ensures { result ≡ halt_after events.now }
{
    Event {
        now: last_moment(events),
        draw: Draw([0; 120]),
        kind: Kind::Halt,
    }
}

fn last_moment(events: &[Event]) -> Moment
    ensures { result ≡ last_moment events.now }
{
    match events.last() {
        None => Moment(0),
        Some(e) => e.now,
    }
}

// A copy of the event of this number.
fn event_at(alloc: Global, events: &[Event], n: usize) -> Result<Event, NoMemory>
    ensures { IfOk result (λ e. e ≡ event_at events.now n) }
{
    match events.get(n) {
        None => Ok(halt_after(events)),
        Some(e) => e.copy(alloc),
    }
}

fn is_wire(e: &Effect<'_>) -> bool
    ensures { result ≡ is_wire (action e.now) }
{
    match e {
        Effect::Wire { .. } => true,
        _ => false,
    }
}

/// Links in memory. Contracts see the events that are to come, the calls that are to fail, and everything that
/// the calls have left.
#[derive(Drop)]
pub struct MemLinks {
    alloc: Global,
    events: Vec<Event>,
    failing: Vec<(u64, LinkFault)>,
    calls: u64,
    faults: [u64; 8],
    plan: Option<Plan>,
    effects: Vec<Effects>,
}

impl Model for MemLinks {
    ghost use Rattle.std.specs.List.{AllByRecursion};
    ghost use Rattle.vpn_links.specs.Rounds.{IsOfLine};
    ghost use Rattle.vpn_links.specs.LinkStore.{LinkStore};

    ghost Value = { LinkStore };

    ghost view = { λ m. record { events = m.events.items; failing = m.failing.items; calls = m.calls; faults = m.faults; plan = m.plan; effects = m.effects.items } };

    ghost invariant = { λ m. AllByRecursion (λ e. IsOfLine e.kind) m.events.items };
}

impl MemLinks {
    /// Links that give these events, which fail at the calls of these numbers, counted from 0 over all three
    /// calls. A fault that its call may not answer is passed over, and of several for one call the first that
    /// is not passed over counts.
    pub fn new(
        alloc: Global,
        events: Vec<Event>,
        failing: Vec<(u64, LinkFault)>,
    ) -> Result<MemLinks, NoMemory>
        requires { AllByRecursion (λ e. IsOfLine e.kind) events.items }
        ensures { IfOk result (λ m. m ≡ store_begun events.items failing.items) }
    {
        let effects = Vec::with_capacity(alloc, events.len())?;
        Ok(MemLinks {
            alloc,
            events,
            failing,
            calls: 0,
            faults: [0; 8],
            plan: None,
            effects,
        })
    }

    /// How many events were given.
    pub fn events_given(&self) -> usize
        ensures { result ≡ length self.now.effects }
    {
        self.effects.len()
    }

    /// The effect of this number, from 0, that was given after the event of that number, and whether it was
    /// lost. It is None exactly past the end.
    pub fn effect_given(&self, event: usize, i: usize) -> Option<(Effect<'_>, bool)>
        ensures { option_map (λ x. record { action = action x.0; is_lost = x.1 }) result ≡ effect_of self.now.effects event i }
    {
        match self.effects.get(event) {
            None => None,
            Some(effects) => effects.get(i),
        }
    }
}

impl MemLinks {
    // Counts a call that fails.
    fn fail(&mut self, fault: LinkFault) -> LinkFault
        ensures same { result ≡ fault }
        ensures after { self.new ≡ called self.old (Some fault) }
    {
        count_up(&mut self.faults, fault);
        self.calls = self.calls.saturating_add(1);
        fault
    }
}

impl Links for MemLinks {
    ghost Origin = { Unit {0} };

    ghost origin_of = { λ _. tt };

    ghost started = { λ m. started_of m.plan };

    ghost stands = { λ m _ l. l ≡ rounds_of m };

    ghost faults = { λ m k. count_of m.faults k };

    ghost may_fail = { λ _ _. Unit {0} };

    fn start(&mut self, plan: &Plan) -> Result<(), Or<LinkFault>>
        ensures started { OnOk result (started_of self.new.plan ≡ started_with (started_of self.old.plan) plan.now) }
        ensures refused { OnErr result (started_of self.new.plan ≡ started_of self.old.plan) }
        ensures rounds { (l : List Round) → l ≡ rounds_of self.old → l ≡ rounds_of self.new }
        ensures failed { IfErr result (λ e. IfWhy e (λ k. Rose (count_of self.old.faults k) (count_of self.new.faults k))) }
        ensures may { IfErr result (λ e. IfWhy e (λ _. Unit {0})) }
        ensures never_falls { (k : LinkFault) → count_of self.old.faults k ≤ count_of self.new.faults k }
        ensures origin { ◌≡◌ {A = Unit {0}} tt tt }

        ensures answer { FailsBy (fault_of self.old true) result }
        ensures after { self.new ≡ unless_memory result self.old (after_start self.old plan.now (fault_of self.old true)) }
    {
        match fault_of(&self.failing, self.calls, true) {
            Some(fault) => Err(Or::Why(self.fail(fault))),
            None => {
                self.plan = Some(plan.copy(self.alloc)?);
                self.calls = self.calls.saturating_add(1);
                Ok(())
            }
        }
    }

    fn next(&mut self, into: &mut Event) -> Result<(), Or<LinkFault>>
        ensures given { OnOk result ((l : List Round) → l ≡ rounds_of self.old → came l into.new ≡ rounds_of self.new) }
        ensures refused { OnErr result ((l : List Round) → l ≡ rounds_of self.old → l ≡ rounds_of self.new) }
        ensures datagram { OnOk result (IsOfLine into.new.kind) }
        ensures never_wire { result ≡ Err (Or.Why LinkFault.Wire) → ⊥ }
        ensures started { started_of self.new.plan ≡ started_of self.old.plan }
        ensures failed { IfErr result (λ e. IfWhy e (λ k. Rose (count_of self.old.faults k) (count_of self.new.faults k))) }
        ensures may { IfErr result (λ e. IfWhy e (λ _. Unit {0})) }
        ensures never_falls { (k : LinkFault) → count_of self.old.faults k ≤ count_of self.new.faults k }
        ensures origin { ◌≡◌ {A = Unit {0}} tt tt }

        ensures event { OnOk result (into.new ≡ event_at self.old.events (length self.old.effects)) }
        ensures answer { FailsBy (fault_of self.old false) result }
        ensures after { self.new ≡ unless_memory result self.old (after_next self.old (fault_of self.old false)) }
    {
        match fault_of(&self.failing, self.calls, false) {
            Some(fault) => Err(Or::Why(self.fail(fault))),
            None => {
                let event = event_at(self.alloc, &self.events, self.effects.len())?;
                let effects = Effects::new(self.alloc)?;
                self.effects.push(effects)?;
                self.calls = self.calls.saturating_add(1);
                replace(into, event);
                Ok(())
            }
        }
    }

    fn give(&mut self, e: &Effect<'_>) -> Result<(), Or<LinkFault>>
        ensures given { (l : List Round) → l ≡ rounds_of self.old → after_give result l (action e.now) ≡ rounds_of self.new }
        ensures wire { result ≡ Err (Or.Why LinkFault.Wire) → IsTrue (is_wire (action e.now)) }
        ensures started { started_of self.new.plan ≡ started_of self.old.plan }
        ensures failed { IfErr result (λ e. IfWhy e (λ k. Rose (count_of self.old.faults k) (count_of self.new.faults k))) }
        ensures may { IfErr result (λ e. IfWhy e (λ _. Unit {0})) }
        ensures never_falls { (k : LinkFault) → count_of self.old.faults k ≤ count_of self.new.faults k }
        ensures origin { ◌≡◌ {A = Unit {0}} tt tt }

        ensures answer { FailsBy (fault_of self.old (is_wire (action e.now))) result }
        ensures after { self.new ≡ unless_memory result self.old (after_effect self.old (action e.now) (fault_of self.old (is_wire (action e.now)))) }
    {
        match fault_of(&self.failing, self.calls, is_wire(e)) {
            None => {
                keep_last(self.alloc, &mut self.effects, e, false)?;
                self.calls = self.calls.saturating_add(1);
                Ok(())
            }
            Some(LinkFault::Wire) => {
                keep_last(self.alloc, &mut self.effects, e, true)?;
                Err(Or::Why(self.fail(LinkFault::Wire)))
            }
            Some(fault) => Err(Or::Why(self.fail(fault))),
        }
    }
}

// Keeps an effect behind those of the last event. Before the first event there is nothing to keep it by.
fn keep_last(
    alloc: Global,
    effects: &mut Vec<Effects>,
    e: &Effect<'_>,
    is_lost: bool,
) -> Result<(), NoMemory>
    ensures ok { OnOk result (effects.new.items ≡ given_last effects.old.items (record { action = action e.now; is_lost = is_lost })) }
    ensures err { OnErr result (effects.new.items ≡ effects.old.items) }
{
    let count = effects.len();
    if count == 0 {
        return Ok(());
    }
    let last = &mut effects[count - 1];
    last.keep(alloc, e, is_lost)?;
    Ok(())
}

fn replace(into: &mut Event, event: Event)
    ensures { into.new ≡ event }
{
    *into = event;
}
