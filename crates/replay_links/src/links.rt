//! Links of a replay.

ghost use Rattle.std.specs.Prelude.{◌≡◌, ◌+◌, ◌-◌, ◌<◌, ◌≤◌, ◌^◌, ◌++◌, ℕ, List, [], ◌∷◌, length, take, true, false, Option, None, Some, MatchBool, MatchOption, IfOk, IfErr, OnOk, OnErr, Ok, Err, IsTrue, IfSome};
ghost use Rattle.vpn_base.specs.Answers.{IfWhy, Rose};
ghost use Rattle.vpn_base.specs.Files.{Absent, IsMissing};
ghost use Rattle.vpn_base.specs.declared.errors.Or.{Or};
ghost use Rattle.vpn_links.specs.Actions.{Action, action, is_wire};
ghost use Rattle.vpn_links.specs.Rounds.{IsOfLine, Round, after_give, came, part_taken};
ghost use Rattle.vpn_links.specs.Starts.{Untold, started_with};
ghost use Rattle.vpn_links.specs.declared.events.Event.{Event};
ghost use Rattle.vpn_links.specs.declared.links.LinkFault.{LinkFault};
ghost use Rattle.replay_links.specs.Fronts.{IsFrontOf};
ghost use Rattle.replay_links.specs.Replay.{before_cut};
ghost use Rattle.replay_links.specs.Schedule.{EndWithHalt, schedule_of, spells};
ghost use Rattle.replay_links.specs.declared.end.ReplayEnd.TheVariants as ends;
ghost use Rattle.vpn_base.specs.declared.outside.FileFault.{FileFault};
ghost use Rattle.vpn_links.specs.declared.events.Kind.TheVariants.{Halt};

use crate::end::ReplayEnd;
use crate::events::Events;
use crate::file::read_file;
use crate::reading::LineFault;
use crate::schedule::spell;
use crate::writing::write_front;
use schedule_text::write_effect_line;
use std::alloc::Global;
use std::marker::Model;
use vpn_base::{Draw, FileFault, Files, Moment, NoMemory, Or, Sink, Text};
use vpn_links::{Effect, Event, Kind, LinkFault, Links, Plan};

/// Links that give the events of a schedule and write the lines of effects to a sink. The schedule is read whole
/// before its first event. Behind its end they give Halt again and again. Contracts see all that they keep.
#[derive(Drop)]
pub struct ReplayLinks<F: Files, S: Sink> {
    alloc: Global,
    files: F,
    out: S,
    name: Text,
    written: u64,
    is_open: bool,
    text: Vec<u8>,
    left: Events,
    fault: Option<LineFault>,
    given: u64,
    last: Moment,
    is_cut: bool,
    missing: u64,
    refused: u64,
    ended: Option<ReplayEnd>,
}

impl<F: Files, S: Sink> Model for ReplayLinks<F, S> {
    ghost use Rattle.replay_links.specs.Replay.{Replay};

    ghost Value = { Replay F S };

    ghost view = { λ r. record {
      files = r.files;
      out = r.out;
      name = r.name;
      written = r.written;
      is_open = r.is_open;
      text = r.text.items;
      left = r.left;
      fault = r.fault;
      given = r.given;
      is_cut = r.is_cut;
      missing = r.missing;
      refused = r.refused;
      ended = r.ended;
    } };
}

impl<F: Files, S: Sink> ReplayLinks<F, S> {
    ghost use Rattle.replay_links.specs.Replay.{Caused, ReplayStands, backing_of};

    /// Links that will read the schedule of this name.
    pub fn new(alloc: Global, files: F, name: Text, out: S) -> ReplayLinks<F, S>
        ensures parts { (result.files ≡ files) × (result.out ≡ out) × (result.name ≡ name) }
        ensures none { (result.missing ≡ 0) × (result.refused ≡ 0) × (result.ended ≡ None) }
        ensures stands { ReplayStands F.holds S.contents result None [] }
        ensures backing { backing_of F.holds S.contents result ≡ record { name = name; holds = F.holds files; begun = S.contents out } }
    {
        ReplayLinks {
            alloc,
            files,
            out,
            name,
            written: 0,
            is_open: false,
            text: Vec::new(alloc),
            left: Events::new(alloc),
            fault: None,
            given: 0,
            last: Moment(0),
            is_cut: false,
            missing: 0,
            refused: 0,
            ended: None,
        }
    }

    /// Why the last event that was asked for did not come, if it did not for the schedule.
    pub fn ended(&self) -> Option<ReplayEnd>
        ensures same { result ≡ self.now.ended }

        // No file, or all events were given and this fault stands behind them.
        ensures cause { (part : Option Action) (l : List Round) → ReplayStands F.holds S.contents self.now part l →
            Caused (F.holds self.now.files self.now.name) self.now.is_open self.now.left self.now.fault result }
    {
        self.ended
    }

    /// Whether the sink failed within the line of an effect, so that no further line is written.
    pub fn is_cut(&self) -> bool
        ensures { result ≡ self.now.is_cut }
    {
        self.is_cut
    }

    /// The files and the sink.
    pub fn parts(self) -> (F, S)
        ensures { (result.0 ≡ self.files) × (result.1 ≡ self.out) }
    {
        let ReplayLinks { files, out, .. } = self;
        (files, out)
    }
}

// The schedule of a name: its text, its events, and the fault behind them.
#[derive(Drop)]
struct Schedule {
    text: Vec<u8>,
    events: Events,
    fault: Option<LineFault>,
}

fn read_schedule<F: Files>(
    alloc: Global,
    name: &[u8],
    files: &mut F,
) -> Result<Schedule, Or<FileFault>>
    ensures front { IfOk result (λ s. IsFrontOf (F.holds files.old name.now) s.text.items) }
    ensures spelled { IfOk result (λ s. spells s.text.items ≡ record { events = s.events; fault = s.fault }) }
    ensures missing { IfErr result (λ e. IfWhy e (λ k. k ≡ FileFault.Missing → IsMissing (F.holds files.old name.now))) }
    ensures failed { IfErr result (λ e. IfWhy e (λ k. k ≡ FileFault.Failed → Rose (F.faults files.old) (F.faults files.new))) }
    ensures there { IfErr result (λ e. IfWhy e (λ k. k ≡ FileFault.Failed → ¬ (F.holds files.old name.now ≡ Absent))) }
    ensures kept { (n : List ℕ) → F.holds files.new n ≡ F.holds files.old n }
    ensures never_falls { F.faults files.old ≤ F.faults files.new }
{
    let text = match read_file(alloc, name, files) {
        Ok(text) => text,
        Err(fault) => return Err(fault),
    };
    let Ok(spelling) = spell(alloc, &text) else {
        return Err(Or::Memory);
    };
    Ok(Schedule {
        text,
        events: spelling.events,
        fault: spelling.fault,
    })
}

fn is_missing(ended: Option<ReplayEnd>) -> bool
    ensures { MatchBool result (ended ≡ Some ends.Missing) (ended ≡ Some ends.Missing → ⊥) }
{
    match ended {
        Some(ReplayEnd::Missing) => true,
        _ => false,
    }
}

// One more, if that can be counted.
fn one_more(count: u64) -> Option<u64>
    ensures { IfSome result (λ n. n ≡ count + 1) }
{
    count.checked_add(1)
}

// The event that ends the program, again.
fn halt_at(now: Moment) -> Event
    ensures { result.kind ≡ Halt }
{
    Event {
        now,
        draw: Draw([0; 120]),
        kind: Kind::Halt,
    }
}

impl<F: Files, S: Sink> ReplayLinks<F, S> {
    ghost use Rattle.replay_links.specs.Replay.{EndsBy, ReplayStands, backing_of, replay_faults};
    ghost use Rattle.replay_links.specs.declared.end.ReplayEnd.TheVariants as ends;
    ghost use Rattle.replay_links.specs.internal.Cuts.{Cut, MatchOr};
    ghost use Rattle.vpn_base.specs.Sink.{appended};

    // There is no schedule of the name.
    fn miss(&mut self) -> LinkFault
        ensures same { result ≡ LinkFault.Input }
        ensures new { self.new ≡ record self.old { missing = self.new.missing; ended = Some ends.Missing } }
        ensures counted { Rose self.old.missing self.new.missing }
        ensures never_falls { self.old.missing ≤ self.new.missing }
    {
        self.missing = self.missing.saturating_add(1);
        self.ended = Some(ReplayEnd::Missing);
        LinkFault::Input
    }

    // A line of the schedule is refused.
    fn refuse(&mut self, fault: LineFault) -> LinkFault
        ensures same { result ≡ LinkFault.Schedule }
        ensures new { self.new ≡ record self.old { refused = self.new.refused; ended = Some (ends.Refused fault.line fault.kind) } }
        ensures counted { Rose self.old.refused self.new.refused }
        ensures never_falls { self.old.refused ≤ self.new.refused }
    {
        self.refused = self.refused.saturating_add(1);
        self.ended = Some(ReplayEnd::Refused {
            line: fault.line,
            kind: fault.kind,
        });
        LinkFault::Schedule
    }

    // Keeps a schedule that was read.
    fn keep(&mut self, schedule: Schedule)
        ensures { self.new ≡ record self.old { is_open = true; text = schedule.text.items; left = schedule.events; fault = schedule.fault } }
    {
        self.text = schedule.text;
        self.left = schedule.events;
        self.fault = schedule.fault;
        self.is_open = true;
    }

    // Reads the schedule, if that was not done yet.
    fn open(&mut self) -> Result<(), Or<LinkFault>>
        ensures opened { OnOk result (self.new.is_open ≡ true) }
        ensures stands { (l : List Round) → ReplayStands F.holds S.contents self.old None l → ReplayStands F.holds S.contents self.new None l }
        ensures input { IfErr result (λ e. IfWhy e (λ k. k ≡ LinkFault.Input)) }
        ensures ended { EndsBy result self.old.ended self.new.ended }
        ensures failed { IfErr result (λ e. IfWhy e (λ k. Rose (replay_faults F.faults S.faults self.old k) (replay_faults F.faults S.faults self.new k))) }
        ensures never_falls { (k : LinkFault) → replay_faults F.faults S.faults self.old k ≤ replay_faults F.faults S.faults self.new k }
        ensures backing { backing_of F.holds S.contents self.new ≡ backing_of F.holds S.contents self.old }
    {
        if self.is_open {
            return Ok(());
        }
        if is_missing(self.ended) {
            return Err(Or::Why(self.miss()));
        }
        match read_schedule(self.alloc, self.name.as_slice(), &mut self.files) {
            Ok(schedule) => {
                self.keep(schedule);
                Ok(())
            }
            Err(Or::Memory) => Err(Or::Memory),
            Err(Or::Why(FileFault::Missing)) => Err(Or::Why(self.miss())),
            Err(Or::Why(FileFault::Failed)) => {
                self.ended = Some(ReplayEnd::Failed);
                Err(Or::Why(LinkFault::Input))
            }
        }
    }

    // Gives the next event of a schedule that was read.
    fn take_event(&mut self) -> Result<Event, Or<LinkFault>>
        requires { self.old.is_open ≡ true }
        ensures given { IfOk result (λ e. (l : List Round) → ReplayStands F.holds S.contents self.old None l → ReplayStands F.holds S.contents self.new None (came l e)) }
        ensures refused { OnErr result ((l : List Round) → ReplayStands F.holds S.contents self.old None l → ReplayStands F.holds S.contents self.new None l) }
        ensures datagram { IfOk result (λ e. IsOfLine e.kind) }
        ensures schedule { IfErr result (λ e. IfWhy e (λ k. k ≡ LinkFault.Schedule)) }
        ensures counted { IfErr result (λ e. IfWhy e (λ k. Rose self.old.refused self.new.refused)) }
        ensures never_falls { self.old.refused ≤ self.new.refused }
        ensures kept { (self.new.files ≡ self.old.files) × (self.new.out ≡ self.old.out) × (self.new.name ≡ self.old.name)
            × (self.new.written ≡ self.old.written) × (self.new.missing ≡ self.old.missing) × (self.new.is_cut ≡ self.old.is_cut) }
        ensures ended { EndsBy result self.old.ended self.new.ended }
    {
        let Some(given) = one_more(self.given) else {
            return Err(Or::Memory);
        };
        match self.left.take_first() {
            Some(event) => {
                self.given = given;
                self.last = event.now;
                Ok(event)
            }
            None => match self.fault {
                None => {
                    self.given = given;
                    Ok(halt_at(self.last))
                }
                Some(fault) => Err(Or::Why(self.refuse(fault))),
            },
        }
    }

    // Writes the line of an effect of the last event.
    fn write_line(&mut self, line: &[u8]) -> Result<(), Or<LinkFault>>
        requires { self.old.is_cut ≡ false }
        ensures ok { OnOk result ((S.contents self.new.out ≡ appended (S.contents self.old.out) line.now)
            × (self.new ≡ record self.old { out = self.new.out; written = self.old.written + length line.now })) }
        ensures err { IfErr result (λ e. MatchOr e (self.new ≡ self.old) (λ k. (k ≡ LinkFault.Output)
            × Rose (S.faults self.old.out) (S.faults self.new.out) × Cut (S.contents self.old.out) (S.contents self.new.out) self.old self.new line.now)) }
        ensures never_falls { S.faults self.old.out ≤ S.faults self.new.out }
        ensures ended { self.new.ended ≡ self.old.ended }
    {
        if self.written.checked_add(line.len() as u64).is_none() {
            return Err(Or::Memory);
        }
        let written = write_front(&mut self.out, line);
        self.written += written as u64;
        if written < line.len() {
            self.is_cut = true;
            return Err(Or::Why(LinkFault::Output));
        }
        Ok(())
    }
}

/// Where no count of the links fell since no line was cut, and a line is cut now, the sink's count has risen.
pub fn a_cut_is_a_failure()
    ensures { (before now : ℕ) → before_cut false before ≤ before_cut true now → Rose before now }
{}

fn replace(into: &mut Event, event: Event)
    ensures { into.new ≡ event }
{
    *into = event;
}

impl<F: Files, S: Sink> Links for ReplayLinks<F, S> {
    ghost use Rattle.vpn_links.specs.Faults.{Asking, Giving, Starting};
    ghost use Rattle.replay_links.specs.Replay.{Backing, EndsBy, MayFail, ReplayStands, backing_of, replay_faults};

    ghost Origin = { Backing };

    ghost origin_of = { λ r. backing_of F.holds S.contents r };

    ghost started = { λ _. Untold };

    ghost stands = { λ r part l. ReplayStands F.holds S.contents r part l };

    ghost faults = { λ r k. replay_faults F.faults S.faults r k };

    ghost may_fail = { λ call k. MayFail call k };

    fn start(&mut self, plan: &Plan) -> Result<(), Or<LinkFault>>
        ensures started { OnOk result (Untold ≡ started_with Untold plan.now) }
        ensures refused { OnErr result (Untold ≡ Untold) }
        ensures rounds { (l : List Round) → ReplayStands F.holds S.contents self.old None l → ReplayStands F.holds S.contents self.new None l }
        ensures failed { IfErr result (λ e. IfWhy e (λ k. Rose (replay_faults F.faults S.faults self.old k) (replay_faults F.faults S.faults self.new k))) }
        ensures may { IfErr result (λ e. IfWhy e (λ k. MayFail Starting k)) }
        ensures never_falls { (k : LinkFault) → replay_faults F.faults S.faults self.old k ≤ replay_faults F.faults S.faults self.new k }
        ensures origin { backing_of F.holds S.contents self.new ≡ backing_of F.holds S.contents self.old }

        ensures never_fails { result ≡ Ok tt }
        ensures same { self.new ≡ self.old }
    {
        let _ = plan;
        Ok(())
    }

    fn next(&mut self, into: &mut Event) -> Result<(), Or<LinkFault>>
        ensures given { OnOk result ((l : List Round) → ReplayStands F.holds S.contents self.old None l → ReplayStands F.holds S.contents self.new None (came l into.new)) }
        ensures refused { OnErr result ((l : List Round) → ReplayStands F.holds S.contents self.old None l → ReplayStands F.holds S.contents self.new None l) }
        ensures datagram { OnOk result (IsOfLine into.new.kind) }
        ensures never_wire { result ≡ Err (Or.Why LinkFault.Wire) → ⊥ }
        ensures started { Untold ≡ Untold }
        ensures failed { IfErr result (λ e. IfWhy e (λ k. Rose (replay_faults F.faults S.faults self.old k) (replay_faults F.faults S.faults self.new k))) }
        ensures may { IfErr result (λ e. IfWhy e (λ k. MayFail Asking k)) }
        ensures never_falls { (k : LinkFault) → replay_faults F.faults S.faults self.old k ≤ replay_faults F.faults S.faults self.new k }
        ensures origin { backing_of F.holds S.contents self.new ≡ backing_of F.holds S.contents self.old }

        ensures ended { EndsBy result self.old.ended self.new.ended }
    {
        if let Err(fault) = self.open() {
            return Err(fault);
        }
        match self.take_event() {
            Ok(event) => {
                replace(into, event);
                Ok(())
            }
            Err(fault) => Err(fault),
        }
    }

    fn give(&mut self, e: &Effect<'_>) -> Result<(), Or<LinkFault>>
        ensures given { (l : List Round) → ReplayStands F.holds S.contents self.old None l → ReplayStands F.holds S.contents self.new (part_taken result (action e.now)) (after_give result l (action e.now)) }
        ensures wire { result ≡ Err (Or.Why LinkFault.Wire) → IsTrue (is_wire (action e.now)) }
        ensures started { Untold ≡ Untold }
        ensures failed { IfErr result (λ e. IfWhy e (λ k. Rose (replay_faults F.faults S.faults self.old k) (replay_faults F.faults S.faults self.new k))) }
        ensures may { IfErr result (λ e. IfWhy e (λ k. MayFail Giving k)) }
        ensures never_falls { (k : LinkFault) → replay_faults F.faults S.faults self.old k ≤ replay_faults F.faults S.faults self.new k }
        ensures origin { backing_of F.holds S.contents self.new ≡ backing_of F.holds S.contents self.old }

        ensures output { IfErr result (λ e. IfWhy e (λ k. k ≡ LinkFault.Output)) }
        ensures ended { self.new.ended ≡ self.old.ended }
    {
        if self.given == 0 {
            return Ok(());
        }
        if self.is_cut {
            return Err(Or::Memory);
        }
        let Ok(line) = write_effect_line(self.alloc, self.given - 1, e) else {
            return Err(Or::Memory);
        };
        match self.write_line(line.as_slice()) {
            Ok(()) => Ok(()),
            Err(Or::Memory) => Err(Or::Memory),
            Err(Or::Why(_)) => Err(Or::Why(LinkFault::Output)),
        }
    }
}

/// What a file spells is what its first 2^40 + 1 bytes spell: over its limit the line that passes it is too long.
pub fn a_long_file_is_refused_where_it_passes_its_limit()
    ensures { (text : List ℕ) → schedule_of text ≡ spells text }
{}

/// Where no line of a schedule is refused, the last of its events is the end of the program.
pub fn a_whole_schedule_ends_the_program()
    ensures { (text : List ℕ) → (spells text).fault ≡ None → EndWithHalt (spells text).events }
{}
