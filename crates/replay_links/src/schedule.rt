//! What a schedule spells, kept until it is given.

ghost use Rattle.std.specs.Prelude.{◌≡◌, ◌+◌, ◌++◌, ◌<◌, ◌≤◌, ◌^◌, length, option_to_list, IfOk, IfSome, OnOk};
ghost use Rattle.vpn_links.specs.Rounds.{IsOfLine};
ghost use Rattle.replay_links.specs.Schedule.{Spelled, judged, spelled_at, spells};
ghost use Rattle.replay_links.specs.internal.Stepping.{IfMore, Went};

use crate::events::Events;
use crate::reading::{LineFault, Place, Reading, judge, take};
use schedule_text::TextKind;
use std::alloc::Global;
use vpn_base::{Moment, NoMemory, Or, next_line};
use vpn_links::Event;

// Nothing was read yet.
const BEGUN: Reading = Reading {
    place: Place::First,
    seed: 0,
    number: 0,
    line: 0,
    bytes: 0,
    last: Moment(0),
};

// The events of a schedule, and the fault behind them.
#[derive(Drop)]
pub(crate) struct Spelling {
    pub(crate) events: Events,
    pub(crate) fault: Option<LineFault>,
}

// What a line comes to.
#[derive(Clone, Copy)]
pub(crate) enum Step {
    // More lines may follow: this is known behind it.
    More(Reading),
    // The schedule ends.
    End,
    // It is refused.
    Fault(LineFault),
    // There was not enough memory.
    Memory,
}

fn add_if(events: &mut Events, event: Option<Event>) -> Result<(), NoMemory>
    requires { IfSome event (λ e. IsOfLine e.kind) }
    ensures { OnOk result (events.new ≡ events.old ++ option_to_list event) }
{
    match event {
        None => Ok(()),
        Some(event) => events.add(event),
    }
}

// Reads a line, and adds its event.
fn read_line(alloc: Global, events: &mut Events, reading: &Reading, size: u64, text: &[u8]) -> Step
    requires small { reading.now.bytes + size < 2 ^ 63 }
    requires few { (reading.now.number ≤ reading.now.bytes) × (reading.now.line ≤ reading.now.bytes) }
    ensures went { (more : Reading → Spelled) →
        Went result events.old events.new (spelled_at reading.now size (judged reading.now size text.now) more) more }
    ensures further { IfMore result (λ r. (r.bytes ≡ reading.now.bytes + size) × (r.line ≡ reading.now.line + 1) × (r.number ≤ reading.now.number + 1)) }
{
    let line = match judge(alloc, reading, size, text) {
        Ok(line) => line,
        Err(Or::Memory) => return Step::Memory,
        Err(Or::Why(kind)) => {
            return Step::Fault(LineFault {
                line: reading.line + 1,
                kind,
            });
        }
    };
    let taken = take(reading, size, line);
    let Ok(()) = add_if(events, taken.event) else {
        return Step::Memory;
    };
    if taken.ends {
        Step::End
    } else {
        Step::More(taken.reading)
    }
}

/// What a text spells.
#[tactic(auto, unfolding(crate::specs::Schedule::spells))]
pub(crate) fn spell(alloc: Global, text: &[u8]) -> Result<Spelling, NoMemory>
    requires { length text.now ≤ 2 ^ 40 + 1 }
    ensures { IfOk result (λ s. spells text.now ≡ record { events = s.events; fault = s.fault }) }
{
    let mut events = Events::new(alloc);
    let mut reading = BEGUN;
    let mut rest = text;
    'lines: while let Some((line, behind)) = next_line(rest) {
        let size = (rest.len() - behind.len()) as u64;
        match read_line(alloc, &mut events, &reading, size, line) {
            Step::More(next) => reading = next,
            Step::End => {
                return Ok(Spelling {
                    events,
                    fault: None,
                });
            }
            Step::Fault(fault) => {
                return Ok(Spelling {
                    events,
                    fault: Some(fault),
                });
            }
            Step::Memory => return Err(NoMemory),
        }
        rest = behind;
    }
    let fault = Some(LineFault {
        line: reading.line,
        kind: TextKind::NoEnd,
    });
    Ok(Spelling { events, fault })
}
