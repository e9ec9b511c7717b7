//! The outside of a core: where its events come from and where its effects go.

ghost use Rattle.std.specs.Prelude.{◌≡◌, ℕ, ◌≤◌, List, Option, None, IfOk, IfErr, OnOk, OnErr, Err, IsTrue};
ghost use Rattle.vpn_base.specs.Answers.{Rose, IfWhy};
ghost use Rattle.vpn_base.specs.declared.errors.Or.{Or};
ghost use Rattle.vpn_links.specs.Actions.{Action, action, is_wire};
ghost use Rattle.vpn_links.specs.Faults.{Asking, Giving, LinkCall, Starting};
ghost use Rattle.vpn_links.specs.Rounds.{Round, IsOfLine, came, after_give, part_taken};
ghost use Rattle.vpn_links.specs.Starts.{Started, started_with};

use crate::effects::Effect;
use crate::events::Event;
use std::alloc::Global;
use vpn_base::{Addr, Ip4, NoMemory, Or, Role, RouteList, Text, TextList};

/// Which part of the outside failed.
#[derive(Clone, Copy, Debug, PartialEq, Eq)]
pub enum LinkFault {
    /// The line on which datagrams go.
    Wire,
    /// The TLS engine.
    Engine,
    /// The packet device.
    Device,
    /// The management interface.
    Console,
    /// The source of random bytes.
    Random,
    /// The file that events are read from.
    Input,
    /// The sink that effects are written to.
    Output,
    /// A line of a schedule.
    Schedule,
}

/// What the outside is started with, out of a configuration.
#[derive(Debug, Drop)]
pub struct Plan {
    /// Which end of a session this is.
    pub role: Role,
    /// The address that is listened on, if one was named.
    pub local: Option<Ip4>,
    /// The port that is listened on.
    pub port: u16,
    /// The server that a client connects to.
    pub remote: Option<Addr>,
    /// The name of the packet device.
    pub dev: Text,
    /// The device's address on a server, with how many bits the addresses of its subnet share.
    pub address: Option<(Ip4, u8)>,
    /// The routes that lead into the tunnel.
    pub routes: RouteList,
    /// The lines for the TLS engine.
    pub engine: TextList,
    /// Where the management interface listens, if there is one.
    pub console: Option<Text>,
    /// The folder of the clients' files, if there is one.
    pub ccd: Option<Text>,
}

impl Plan {
    // The same plan, with texts and lists of its own.
    pub(crate) fn copy(&self, alloc: Global) -> Result<Plan, NoMemory>
        ensures { IfOk result (λ p. p ≡ self.now) }
    {
        let dev = Text::copy(alloc, self.dev.as_slice())?;
        let routes = self.routes.copy(alloc)?;
        let engine = self.engine.copy(alloc)?;
        let console = copy_if(alloc, &self.console)?;
        let ccd = copy_if(alloc, &self.ccd)?;
        Ok(Plan {
            role: self.role,
            local: self.local,
            port: self.port,
            remote: self.remote,
            dev,
            address: self.address,
            routes,
            engine,
            console,
            ccd,
        })
    }
}

fn copy_if(alloc: Global, text: &Option<Text>) -> Result<Option<Text>, NoMemory>
    ensures { IfOk result (λ t. t ≡ text.now) }
{
    match text {
        None => Ok(None),
        Some(t) => Ok(Some(Text::copy(alloc, t.as_slice())?)),
    }
}

/// The outside of a core. It gives events, one at a time, and takes the effects of each.
pub trait Links {
    ghost use Rattle.vpn_links.specs.Faults.{LinkCall};
    ghost use Rattle.vpn_links.specs.declared.links.LinkFault.{LinkFault};

    /// The type of what stands behind it.
    ghost Origin: { Type 0 };

    /// What stands behind it, as the schedule that it reads. No call changes it.
    ghost origin_of: { Self → Origin };

    /// The plan that it was started with, where that is told.
    ghost started: { Self → Started };

    /// The effect of which it took only a part at last, if there is one, and the events that it gave before, each with
    /// the effects given to it since, where that is told: where it is not, it stands for no list.
    ghost stands: { Self → Option Action → List Round → Type 0 };

    /// How often each part failed.
    ghost faults: { Self → LinkFault → ℕ };

    /// Which faults a call of each kind may answer.
    ghost may_fail: { LinkCall → LinkFault → Type 0 };

    /// Starts the outside with a plan.
    fn start(&mut self, plan: &Plan) -> Result<(), Or<LinkFault>>
        ensures started { OnOk result (started self.new ≡ started_with (started self.old) plan.now) }
        ensures refused { OnErr result (started self.new ≡ started self.old) }
        ensures rounds { (l : List Round) → stands self.old None l → stands self.new None l }
        ensures failed { IfErr result (λ e. IfWhy e (λ k. Rose (faults self.old k) (faults self.new k))) }
        ensures may { IfErr result (λ e. IfWhy e (may_fail Starting)) }
        ensures never_falls { (k : LinkFault) → faults self.old k ≤ faults self.new k }
        ensures origin { origin_of self.new ≡ origin_of self.old };

    /// Gives the next event: a Tick if nothing came, and Halt at the end. After a refusal `into` may be any
    /// event.
    fn next(&mut self, into: &mut Event) -> Result<(), Or<LinkFault>>
        ensures given { OnOk result ((l : List Round) → stands self.old None l → stands self.new None (came l into.new)) }
        ensures refused { OnErr result ((l : List Round) → stands self.old None l → stands self.new None l) }
        ensures datagram { OnOk result (IsOfLine into.new.kind) }
        ensures never_wire { result ≡ Err (Or.Why LinkFault.Wire) → ⊥ }
        ensures started { started self.new ≡ started self.old }
        ensures failed { IfErr result (λ e. IfWhy e (λ k. Rose (faults self.old k) (faults self.new k))) }
        ensures may { IfErr result (λ e. IfWhy e (may_fail Asking)) }
        ensures never_falls { (k : LinkFault) → faults self.old k ≤ faults self.new k }
        ensures origin { origin_of self.new ≡ origin_of self.old };

    /// Takes an effect of the last event. A datagram that the line does not take is lost, and the answer is
    /// Wire. After another refusal a part of the effect may have been taken; of calls behind that nothing is told.
    fn give(&mut self, e: &Effect<'_>) -> Result<(), Or<LinkFault>>
        ensures given { (l : List Round) → stands self.old None l → stands self.new (part_taken result (action e.now)) (after_give result l (action e.now)) }
        ensures wire { result ≡ Err (Or.Why LinkFault.Wire) → IsTrue (is_wire (action e.now)) }
        ensures started { started self.new ≡ started self.old }
        ensures failed { IfErr result (λ e. IfWhy e (λ k. Rose (faults self.old k) (faults self.new k))) }
        ensures may { IfErr result (λ e. IfWhy e (may_fail Giving)) }
        ensures never_falls { (k : LinkFault) → faults self.old k ≤ faults self.new k }
        ensures origin { origin_of self.new ≡ origin_of self.old };
}
