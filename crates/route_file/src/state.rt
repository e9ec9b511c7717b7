//! What the lines of a route file have set up and printed.

ghost use Rattle.std.specs.Prelude.{◌≡◌, ◌+◌, ◌-◌, ◌<◌, ◌≤◌, ◌^◌, [], ◌∷◌, ◌++◌, List, Some, None, false, OnOk, IfErr};
ghost use Rattle.std.specs.String.{string_bytes};
ghost use Rattle.route_table.specs.Owner.{owner};
ghost use Rattle.inner_verdict.specs.Verdict.{verdict};
ghost use Rattle.schedule_text.specs.SealLines.{IsBounded};
ghost use Rattle.vpn_base.specs.Lines.{Line, content, size};
ghost use Rattle.route_file.specs.Output.{after, answer, verdict_text};
ghost use Rattle.route_file.specs.Progress.{Ends};
ghost use Rattle.route_file.specs.internal.Within.{Faults};

use crate::answers::{print_owner, print_sealed, print_unsealed, print_verdict};
use crate::keys::{Key, drop_key, find_key};
use inner_verdict::{Verdict, verdict_on};
use route_table::RouteTable;
use schedule_text::{RouteLine, TextKind, read_route_line};
use std::alloc::Global;
use std::marker::Brand;
use std::sync::ledger::{Blank, Ledger};
use vpn_base::{Cid, Ip4, NoMemory, Or, Prefix, Steps};

/// The longest route file, in bytes.
pub const LONGEST_FILE: u64 = 1 << 40;

/// The first faulty line of a route file.
#[derive(Clone, Copy, Debug, PartialEq, Eq)]
pub struct RouteFault {
    /// Its number, from 1.
    pub line: u64,
    /// Its fault.
    pub kind: TextKind,
}

/// What the lines so far have set up, what they have printed, how many they are and how many bytes
/// they take.
#[derive(Drop)]
pub(crate) struct State {
    pub(crate) table: RouteTable,
    pub(crate) subnet: Option<Prefix>,
    pub(crate) between: bool,
    pub(crate) keys: Vec<Key>,
    pub(crate) text: String,
    pub(crate) count: u64,
    pub(crate) bytes: u64,
}

fn owner_of<L: Ledger>(blank: Blank, table: &RouteTable, a: Ip4) -> Option<Cid>
    requires name { blank.name ≡ L.name }
    requires parts { blank.parts ≡ L.parts }
    requires some { 0 < L.parts }
    ensures { result ≡ owner table.now.rows a }
{
    let mut steps = Steps::<L>::from_blank(blank);
    table.owner(a, &mut steps)
}

fn verdict_of<L: Ledger>(
    blank: Blank,
    table: &RouteTable,
    subnet: Option<Prefix>,
    between: bool,
    sender: Option<Cid>,
    packet: &[u8],
) -> Verdict
    requires name { blank.name ≡ L.name }
    requires parts { blank.parts ≡ L.parts }
    requires some { 0 < L.parts }
    ensures { result ≡ verdict table.now.rows subnet between sender packet.now }
{
    let mut steps = Steps::<L>::from_blank(blank);
    verdict_on(table, subnet, between, sender, packet, &mut steps)
}

// A line without its end.
fn line_content(body: &[u8], ended: bool) -> &[u8]
    ensures { result.now ≡ content (record { body = body.now; ended = ended }) }
{
    if ended && !body.is_empty() && body[body.len() - 1] == b'\r' {
        return &body[..body.len() - 1];
    }
    body
}

// How many bytes a line takes, its line feed included.
fn line_size(body: &[u8], ended: bool) -> u64
    ensures { result ≡ size (record { body = body.now; ended = ended }) }
{
    if ended {
        body.len() as u64 + 1
    } else {
        body.len() as u64
    }
}

impl State {
    ghost use Rattle.route_file.specs.internal.State.{progress_of, outcome_behind};

    /// Nothing yet.
    pub(crate) fn new(alloc: Global) -> State
        ensures table { result.table.rows ≡ [] }
        ensures subnet { result.subnet ≡ None }
        ensures between { result.between ≡ false }
        ensures keys { result.keys.items ≡ [] }
        ensures text { string_bytes result.text ≡ [] }
        ensures count { result.count ≡ 0 }
        ensures bytes { result.bytes ≡ 0 }
    {
        let Ok(table) = RouteTable::new(alloc) else {
            prove!(false);
            unreachable!()
        };
        State {
            table,
            subnet: None,
            between: false,
            keys: Vec::new(alloc),
            text: String::new(alloc),
            count: 0,
            bytes: 0,
        }
    }

    // Where a packet goes that comes from this client, or from the device.
    fn print_verdict_on(&mut self, sender: Option<Cid>, packet: &[u8]) -> Result<(), NoMemory>
        ensures printed { OnOk result (string_bytes self.new.text ≡ string_bytes self.old.text
            ++ (verdict_text (verdict self.old.table.rows self.old.subnet self.old.between sender packet.now) ++ 10 ∷ [])) }
        ensures table { (progress_of self.new []).table ≡ (progress_of self.old []).table }
        ensures count { self.new.count ≡ self.old.count }
        ensures bytes { self.new.bytes ≡ self.old.bytes }
    {
        let verdict = verdict_of::<Brand>(
            Blank::new(1),
            &self.table,
            self.subnet,
            self.between,
            sender,
            packet,
        );
        print_verdict(&mut self.text, verdict)
    }

    fn print_answer(&mut self, alloc: Global, line: &RouteLine) -> Result<(), NoMemory>
        requires { IsBounded line.now }
        ensures printed { OnOk result (string_bytes self.new.text ≡ string_bytes self.old.text ++ answer (progress_of self.old []).table line.now) }
        ensures table { OnOk result ((progress_of self.new []).table ≡ (progress_of self.old []).table) }
        ensures count { self.new.count ≡ self.old.count }
        ensures bytes { self.new.bytes ≡ self.old.bytes }
    {
        match line {
            RouteLine::Owner(a) => {
                let found = owner_of::<Brand>(Blank::new(1), &self.table, *a);
                print_owner(&mut self.text, found)
            }
            RouteLine::From(cid, packet) => self.print_verdict_on(Some(*cid), packet.as_slice()),
            RouteLine::Device(packet) => self.print_verdict_on(None, packet.as_slice()),
            RouteLine::Seal {
                cid,
                kid,
                id,
                inner,
            } => {
                let key = find_key(self.keys.as_slice(), *cid, *kid);
                print_sealed(
                    alloc,
                    &mut self.text,
                    key,
                    *cid,
                    *kid,
                    *id,
                    inner.as_slice(),
                )
            }
            RouteLine::Unseal { cid, kid, datagram } => {
                let key = find_key(self.keys.as_slice(), *cid, *kid);
                print_unsealed(alloc, &mut self.text, key, *cid, *kid, datagram.as_slice())
            }
            RouteLine::Blank => Ok(()),
            RouteLine::Subnet(_) => Ok(()),
            RouteLine::Between => Ok(()),
            RouteLine::Add(_, _) => Ok(()),
            RouteLine::Leave(_) => Ok(()),
            RouteLine::Key { .. } => Ok(()),
        }
    }

    fn set_up(&mut self, line: RouteLine) -> Result<(), NoMemory>
        requires { IsBounded line }
        ensures table { OnOk result ((progress_of self.new []).table ≡ after (progress_of self.old []).table line) }
        ensures text { string_bytes self.new.text ≡ string_bytes self.old.text }
        ensures count { self.new.count ≡ self.old.count }
        ensures bytes { self.new.bytes ≡ self.old.bytes }
    {
        match line {
            RouteLine::Subnet(network) => self.subnet = Some(network),
            RouteLine::Between => self.between = true,
            RouteLine::Add(network, cid) => self.table.add(network, cid)?,
            RouteLine::Leave(cid) => self.table.drop_client(cid),
            RouteLine::Key {
                cid,
                kid,
                cipher,
                key,
                iv,
            } => {
                let key = Key::new(cid, kid, cipher, key.as_slice(), iv);
                drop_key(&mut self.keys, cid, kid);
                self.keys.push(key)?;
            }
            RouteLine::Blank => {}
            RouteLine::Owner(_) => {}
            RouteLine::From(_, _) => {}
            RouteLine::Device(_) => {}
            RouteLine::Seal { .. } => {}
            RouteLine::Unseal { .. } => {}
        }
        Ok(())
    }

    fn apply(&mut self, alloc: Global, line: RouteLine) -> Result<(), NoMemory>
        requires { IsBounded line }
        ensures printed { OnOk result (string_bytes self.new.text ≡ string_bytes self.old.text ++ answer (progress_of self.old []).table line) }
        ensures table { OnOk result ((progress_of self.new []).table ≡ after (progress_of self.old []).table line) }
        ensures count { self.new.count ≡ self.old.count }
        ensures bytes { self.new.bytes ≡ self.old.bytes }
    {
        self.print_answer(alloc, &line)?;
        self.set_up(line)?;
        Ok(())
    }

    pub(crate) fn fault(&self, kind: TextKind) -> Or<RouteFault>
        requires { self.now.count < 2 ^ 41 }
        ensures { result ≡ Or.Why (record { line = self.now.count + 1; kind = kind }) }
    {
        Or::Why(RouteFault {
            line: self.count + 1,
            kind,
        })
    }

    /// Takes the next line, without its line feed, and whether one ends it.
    pub(crate) fn take_line(
        &mut self,
        alloc: Global,
        body: &[u8],
        ended: bool,
    ) -> Result<(), Or<RouteFault>>
        requires some { 0 < size (record { body = body.now; ended = ended }) }
        requires small { self.old.bytes ≤ 2 ^ 40 }
        requires counted { self.old.count ≤ self.old.bytes }
        ensures ok { OnOk result ((rest : List Line) →
            outcome_behind self.old (record { body = body.now; ended = ended } ∷ rest) ≡ outcome_behind self.new rest) }
        ensures refused { IfErr result (λ e. Faults e (λ line kind. (rest : List Line) →
            Ends (outcome_behind self.old (record { body = body.now; ended = ended } ∷ rest)) (string_bytes self.new.text) (Some (line, kind)))) }
        ensures bytes { OnOk result (self.new.bytes ≡ self.old.bytes + size (record { body = body.now; ended = ended })) }
        ensures small { self.new.bytes ≤ 2 ^ 40 }
        ensures counted { self.new.count ≤ self.new.bytes }
    {
        let size = line_size(body, ended);
        if size > LONGEST_FILE - self.bytes {
            return Err(self.fault(TextKind::Long));
        }
        let line = match read_route_line(alloc, line_content(body, ended)) {
            Ok(line) => line,
            Err(Or::Memory) => return Err(Or::Memory),
            Err(Or::Why(kind)) => return Err(self.fault(kind)),
        };
        let Ok(()) = self.apply(alloc, line) else {
            return Err(Or::Memory);
        };
        self.count += 1;
        self.bytes += size;
        Ok(())
    }
}
