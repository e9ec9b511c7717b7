//! The turns of a run.

ghost use Rattle.std.specs.Prelude.{◌≡◌, ℕ, ◌+◌, ◌-◌, ◌^◌, ◌<◌, ◌≤◌, [], ◌∷◌, ◌++◌, IfNone, IfSome, List, None};
ghost use Rattle.vpn_links.specs.Actions.{HasRoom, Report, action, is_stop, stops};
ghost use Rattle.vpn_links.specs.Rounds.{IsOfLine, Round};
ghost use Rattle.vpn_links.specs.declared.links.LinkFault.{LinkFault};
ghost use Rattle.vpn_links.specs.declared.notes.Note.TheVariants as notes;
ghost use Rattle.vpn_node.specs.Running.{Caused, Ends, RunOver, is_not_learned, not_learned, one_if};
ghost use Rattle.vpn_node.specs.internal.Turns.{Gave, GaveOne, IsBreak, TookStep, Turned, break_of, end_of};

use crate::outcome::{Outcome, Ran};
use std::alloc::Global;
use vpn_base::{Draw, Moment, NoMemory, Or};
use vpn_links::{Effect, Event, Kind, LinkFault, Links, Machine, Note, Outbox};

// The counts of a run, so far.
#[derive(Clone, Copy)]
pub(crate) struct Tally {
    pub(crate) events: u64,
    pub(crate) lost: u64,
    pub(crate) refused: u64,
}

// What stands in an outbox: how many hosts were not learned, and whether the program is to end.
#[derive(Clone, Copy)]
struct Seen {
    not_learned: u64,
    stops: bool,
}

fn is_stop(e: &Effect<'_>) -> bool
    ensures { result ≡ is_stop (action e.now) }
{
    match e {
        Effect::Stop => true,
        _ => false,
    }
}

fn is_not_learned(e: &Effect<'_>) -> bool
    ensures { result ≡ is_not_learned (action e.now) }
{
    match e {
        Effect::Report(Note::NotLearned { .. }) => true,
        _ => false,
    }
}

fn one_if(is_so: bool) -> u64
    ensures same { result ≡ one_if is_so }
    ensures most { result ≤ 1 }
{
    if is_so { 1 } else { 0 }
}

fn look(out: &Outbox) -> Seen
    ensures not_learned { result.not_learned ≡ not_learned out.now.effects }
    ensures stops { result.stops ≡ stops out.now.effects }
{
    let mut seen = Seen {
        not_learned: 0,
        stops: false,
    };
    for i in 0..out.count() {
        let Some(e) = out.effect(i) else {
            unreachable!();
        };
        seen.not_learned += one_if(is_not_learned(&e));
        seen.stops |= is_stop(&e);
    }
    seen
}

// Puts the report of want of memory into an empty outbox that has room.
fn report_no_memory(out: &mut Outbox)
    requires { HasRoom out.old }
    ensures { out.new.effects ≡ out.old.effects ++ Report notes.NoMemory ∷ [] }
{
    let added = out.add(&Effect::Report(Note::NoMemory));
    prove!(added.is_ok());
    let _ = added;
}

// Lets the core take an event, and puts into the outbox what that does. It answers what was refused for want
// of memory.
fn step_event<M: Machine>(machine: &mut M, event: &Event, out: &mut Outbox) -> u64
    requires { IsOfLine event.now.kind }
    ensures { (t : M.Table) → M.stands machine.old t →
        TookStep M.next M.effects M.may_lack (M.stands machine.new) t event.entry.now out.new result }
{
    out.clear();
    match machine.step(event, out) {
        Ok(()) => look(out).not_learned,
        Err(NoMemory) => {
            out.clear();
            report_no_memory(out);
            1
        }
    }
}

// Gives an effect, and answers what breaks the run off, if anything does.
fn give_one<L: Links>(links: &mut L, e: &Effect<'_>, lost: &mut u64) -> Option<Outcome>
    requires { lost.old < 2 ^ 64 }
    ensures gave { GaveOne L.may_fail result (action e.now) (L.stands links.old) (L.stands links.new) lost.old lost.new }
    ensures failed { IfSome result (λ o. IsBreak L.may_fail o (L.faults links.old) (L.faults links.new)) }
    ensures never_falls { (k : LinkFault) → L.faults links.old k ≤ L.faults links.new k }
    ensures started { L.started links.new ≡ L.started links.old }
    ensures origin { L.origin_of links.new ≡ L.origin_of links.old }
{
    match links.give(e) {
        Ok(()) => None,
        Err(Or::Why(LinkFault::Wire)) => {
            *lost = lost.saturating_add(1);
            None
        }
        Err(Or::Why(fault)) => Some(Outcome::Fault(fault)),
        Err(Or::Memory) => Some(Outcome::Memory),
    }
}

// Gives all effects of an event, in order, up to a break.
fn give_all<L: Links>(links: &mut L, out: &Outbox, lost: &mut u64) -> Option<Outcome>
    requires { lost.old < 2 ^ 64 }
    ensures gave { Gave L.may_fail result out.now.effects (L.stands links.old) (L.stands links.new) lost.old lost.new }
    ensures failed { IfSome result (λ o. IsBreak L.may_fail o (L.faults links.old) (L.faults links.new)) }
    ensures never_falls { (k : LinkFault) → L.faults links.old k ≤ L.faults links.new k }
    ensures started { L.started links.new ≡ L.started links.old }
    ensures origin { L.origin_of links.new ≡ L.origin_of links.old }
{
    for i in 0..out.count() {
        let Some(e) = out.effect(i) else {
            unreachable!();
        };
        if let Some(outcome) = give_one(links, &e, lost) {
            return Some(outcome);
        }
    }
    None
}

fn outcome_of(fault: Or<LinkFault>) -> Outcome
    ensures { result ≡ break_of fault }
{
    match fault {
        Or::Memory => Outcome::Memory,
        Or::Why(fault) => Outcome::Fault(fault),
    }
}

// What an event that was taken whole comes to.
fn end_of(stops: bool) -> Option<Outcome>
    ensures { result ≡ end_of stops }
{
    if stops { Some(Outcome::Stopped) } else { None }
}

// One turn: an event, its step, and its effects.
fn take_turn<M: Machine, L: Links>(
    machine: &mut M,
    links: &mut L,
    event: &mut Event,
    out: &mut Outbox,
    tally: &mut Tally,
) -> Option<Outcome>
    requires { tally.old.events < 2 ^ 64 - 1 }
    ensures turned { (t : M.Table) → M.stands machine.old t →
        Turned L.may_fail result M.next M.effects M.may_lack (M.stands machine.new) (L.stands links.old) (L.stands links.new) t tally.old tally.new }
    ensures further { IfNone result (tally.new.events ≡ tally.old.events + 1) }
    ensures failed { IfSome result (λ o. Caused o (L.faults links.old) (L.faults links.new)) }
    ensures never_falls { (k : LinkFault) → L.faults links.old k ≤ L.faults links.new k }
    ensures started { L.started links.new ≡ L.started links.old }
    ensures origin { L.origin_of links.new ≡ L.origin_of links.old }
{
    if let Err(fault) = links.next(event) {
        return Some(outcome_of(fault));
    }
    let refused = step_event(machine, event, out);
    tally.events += 1;
    tally.refused = tally.refused.saturating_add(refused);
    match give_all(links, out, &mut tally.lost) {
        Some(outcome) => Some(outcome),
        None => end_of(look(out).stops),
    }
}

fn ran(outcome: Outcome, tally: Tally) -> Ran
    ensures { result ≡ record { outcome = outcome; events = tally.events; lost = tally.lost; refused = tally.refused } }
{
    Ran {
        outcome,
        events: tally.events,
        lost: tally.lost,
        refused: tally.refused,
    }
}

// What a run comes to that finds no memory for an outbox.
fn end_at_once<L: Links>(turns: u64) -> Ran
    ensures ended { Ends L.may_fail result.outcome turns [] [] None }
    ensures none { (result.events ≡ 0) × (result.lost ≡ 0) × (result.refused ≡ 0) }
    ensures uncaused { (before now : LinkFault → ℕ) → Caused result.outcome before now }
{
    let outcome = if turns == 0 {
        Outcome::TurnsSpent
    } else {
        Outcome::Memory
    };
    ran(
        outcome,
        Tally {
            events: 0,
            lost: 0,
            refused: 0,
        },
    )
}

fn run_turns<M: Machine, L: Links>(
    machine: &mut M,
    links: &mut L,
    event: &mut Event,
    out: &mut Outbox,
    turns: u64,
) -> Ran
    ensures run { (t : M.Table) → M.stands machine.old t →
        RunOver L.may_fail M.next M.effects M.may_lack (M.stands machine.new) (L.stands links.old) (L.stands links.new) t turns result }
    ensures failed { Caused result.outcome (L.faults links.old) (L.faults links.new) }
    ensures never_falls { (k : LinkFault) → L.faults links.old k ≤ L.faults links.new k }
    ensures started { L.started links.new ≡ L.started links.old }
    ensures origin { L.origin_of links.new ≡ L.origin_of links.old }
{
    let mut tally = Tally {
        events: 0,
        lost: 0,
        refused: 0,
    };
    while tally.events < turns {
        if let Some(outcome) = take_turn(machine, links, event, out, &mut tally) {
            return ran(outcome, tally);
        }
    }
    ran(Outcome::TurnsSpent, tally)
}

/// Takes events until the effects of one hold Stop, or until as many were taken as there may be.
pub(crate) fn run<M: Machine, L: Links>(
    alloc: Global,
    machine: &mut M,
    links: &mut L,
    turns: u64,
) -> Ran
    ensures run { (t : M.Table) → M.stands machine.old t →
        RunOver L.may_fail M.next M.effects M.may_lack (M.stands machine.new) (L.stands links.old) (L.stands links.new) t turns result }
    ensures failed { Caused result.outcome (L.faults links.old) (L.faults links.new) }
    ensures never_falls { (k : LinkFault) → L.faults links.old k ≤ L.faults links.new k }
    ensures started { L.started links.new ≡ L.started links.old }
    ensures origin { L.origin_of links.new ≡ L.origin_of links.old }
{
    let Ok(mut out) = Outbox::make(alloc) else {
        return end_at_once::<L>(turns);
    };
    let mut event = Event {
        now: Moment(0),
        draw: Draw([0; 120]),
        kind: Kind::Tick,
    };
    run_turns(machine, links, &mut event, &mut out, turns)
}
