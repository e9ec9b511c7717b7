//! The parts of a push reply, taken one after another until they are whole.

ghost use Rattle.std.specs.Prelude.{◌≡◌, ℕ, ◌≤◌, ◌==◌, true, false, List, Some, None, Ok, Err, IfOk, IfErr, IfSome, OnOk, unwrap_or};
ghost use Rattle.std.specs.List.{list_all, slice_split};
ghost use Rattle.vpn_base.specs.declared.names.Policy.{Policy};
ghost use Rattle.vpn_base.specs.Answers.{Answers, IfWhy};
ghost use Rattle.push_options.specs.Received.{received};
ghost use Rattle.push_options.specs.internal.Masked.{IsMasked};
ghost use Rattle.push_options.specs.Collecting.{collected, first_of, is_plain, mark_of, nothing, pushed_by};
ghost use Rattle.push_options.specs.Parts.{reply_parts};

use crate::received::{Meaning, received, words_in};
use std::alloc::Global;
use std::marker::Model;
use vpn_base::{Cipher, Ip4, NoMemory, Or, Policy, RouteList, Text, TextList, split_once};

/// What a server pushes to this client.
#[derive(Debug, Drop)]
pub struct Pushed {
    /// The client's address (`ifconfig`).
    pub address: Ip4,
    /// The length of its mask, at most 32.
    pub len: u8,
    /// The server's own address in the tunnel (`route-gateway`), if it is told.
    pub gateway: Option<Ip4>,
    /// The networks behind the server (`route`), in order.
    pub routes: RouteList,
    /// Seconds after which a ping is sent (`ping`); 0 where it is not told.
    pub ping: u32,
    /// Seconds of silence after which the tunnel restarts (`ping-restart`); 0 where it is not told.
    pub ping_restart: u32,
    /// The peer id, at most 0xFFFFFE.
    pub peer: u32,
    /// The cipher of data packets.
    pub cipher: Cipher,
    /// The options of other names, in order.
    pub rest: TextList,
}

/// A push reply is refused.
#[derive(Debug, Drop)]
pub struct PushFault {
    /// The first word of the option that is refused, or the name of the one that is absent.
    pub option: Text,
}

/// The parts of a push reply so far. Contracts see what their options say.
#[derive(Drop)]
pub struct Collector {
    address: Option<(Ip4, u8)>,
    gateway: Option<Ip4>,
    routes: RouteList,
    ping: u32,
    ping_restart: u32,
    peer: Option<u32>,
    cipher: Option<Cipher>,
    rest: TextList,
}

impl Model for Collector {
    ghost use Rattle.std.specs.Prelude.{◌≤◌};
    ghost use Rattle.std.specs.Option.{ForSome};
    ghost use Rattle.push_options.specs.Collecting.{Collected};

    ghost Value = { Collected };

    ghost view = { λ c. record { address = c.address; gateway = c.gateway; routes = c.routes; ping = c.ping; ping_restart = c.ping_restart; peer = c.peer; cipher = c.cipher; rest = c.rest } };

    ghost invariant = { λ c. ForSome c.address (λ t. t.1 ≤ 32) };
}

fn fault(alloc: Global, option: &[u8]) -> Or<PushFault>
    ensures { IfWhy result (λ why. why ≡ record { option = option.now }) }
{
    match Text::copy(alloc, option) {
        Err(NoMemory) => Or::Memory,
        Ok(option) => Or::Why(PushFault { option }),
    }
}

fn first_of(words: &[Text]) -> &[u8]
    ensures { result.now ≡ first_of words.now }
{
    match words {
        [] => &[],
        [word, ..] => word.as_slice(),
    }
}

// What an option of these words says, or its fault.
fn known(alloc: Global, ours: Policy, words: &[Text]) -> Result<Meaning, Or<PushFault>>
    ensures ok { IfOk result (λ meaning. received ours words.now ≡ Some meaning) }
    ensures masked { IfOk result IsMasked }
    ensures err { IfErr result (λ e. (received ours words.now ≡ None) × IfWhy e (λ why. why ≡ record { option = first_of words.now })) }
{
    match received(ours, words) {
        None => Err(fault(alloc, first_of(words))),
        Some(meaning) => Ok(meaning),
    }
}

// Whether more parts follow behind an option that says this.
fn mark_or(meaning: &Meaning, more: bool) -> bool
    ensures { result ≡ unwrap_or (mark_of (Some meaning.now)) more }
{
    match meaning {
        Meaning::Continuation(mark) => *mark,
        _ => more,
    }
}

impl Collector {
    ghost use Rattle.push_options.specs.Received.{words_in};
    ghost use Rattle.push_options.specs.Collecting.{Collected, IsLeft, answer, is_continued, kept, options_in, pushed, with_all, with_meaning, with_one};

    /// No parts yet.
    pub fn new(alloc: Global) -> Collector
        ensures { result ≡ nothing }
    {
        Collector {
            address: None,
            gateway: None,
            routes: RouteList::new(alloc),
            ping: 0,
            ping_restart: 0,
            peer: None,
            cipher: None,
            rest: TextList::new(alloc),
        }
    }

    fn copy(&self, alloc: Global) -> Result<Collector, NoMemory>
        ensures { IfOk result (λ c. c ≡ self.now) }
    {
        Ok(Collector {
            address: self.address,
            gateway: self.gateway,
            routes: self.routes.copy(alloc)?,
            ping: self.ping,
            ping_restart: self.ping_restart,
            peer: self.peer,
            cipher: self.cipher,
            rest: self.rest.copy(alloc)?,
        })
    }

    // Takes what one more option says.
    fn take(&mut self, alloc: Global, option: &[u8], meaning: Meaning) -> Result<(), NoMemory>
        requires { IsMasked meaning }
        ensures { OnOk result (self.new ≡ with_meaning self.old option.now meaning) }
    {
        match meaning {
            Meaning::Address(a, len) => self.address = Some((a, len)),
            Meaning::Peer(n) => self.peer = Some(n),
            Meaning::Cipher(cipher) => self.cipher = Some(cipher),
            Meaning::Gateway(a) => self.gateway = Some(a),
            Meaning::Route(network) => return self.routes.add(network),
            Meaning::Ping(n) => self.ping = n,
            Meaning::PingRestart(n) => self.ping_restart = n,
            Meaning::Continuation(_) | Meaning::Nothing => {}
            Meaning::Unread => return self.rest.add(Text::copy(alloc, option)?),
        }
        Ok(())
    }

    // Takes one more option, and answers whether more parts follow, which the options before it
    // have said so far.
    fn take_one(
        &mut self,
        alloc: Global,
        ours: Policy,
        option: &[u8],
        more: bool,
    ) -> Result<bool, Or<PushFault>>
        ensures more { IfOk result (λ r. r ≡ unwrap_or (mark_of (received ours (words_in option.now))) more) }
        ensures ok { OnOk result (with_one ours self.old option.now ≡ Ok self.new) }
        ensures err { IfErr result (λ e. IfWhy e (λ why. with_one ours self.old option.now ≡ Err why)) }
    {
        let words = words_in(alloc, option)?;
        let meaning = known(alloc, ours, words.as_slice())?;
        let more = mark_or(&meaning, more);
        self.take(alloc, option, meaning)?;
        Ok(more)
    }

    // Takes the options between commas, and answers whether more parts follow.
    fn take_all(
        &mut self,
        alloc: Global,
        ours: Policy,
        options: &[u8],
    ) -> Result<bool, Or<PushFault>>
        ensures more { IfOk result (λ r. r ≡ is_continued ours false (slice_split (λ c. c == 44) options.now)) }
        ensures ok { OnOk result (with_all ours self.old (slice_split (λ c. c == 44) options.now) ≡ Ok self.new) }
        ensures err { IfErr result (λ e. IfWhy e (λ why. with_all ours self.old (slice_split (λ c. c == 44) options.now) ≡ Err why)) }
    {
        let mut more = false;
        let mut rest = options;
        'options: while let Some((option, behind)) = split_once(rest, b',') {
            match self.take_one(alloc, ours, option, more) {
                Ok(next) => more = next,
                Err(e) => return Err(e),
            }
            rest = behind;
        }
        self.take_one(alloc, ours, rest, more)
    }

    // Takes the options of a part, and answers whether more parts follow.
    #[tactic(auto, unfolding(crate::specs::Collecting::with_all, crate::specs::Collecting::is_continued))]
    fn take_part(&mut self, alloc: Global, ours: Policy, part: &[u8]) -> Result<bool, Or<PushFault>>
        ensures more { IfOk result (λ r. r ≡ is_continued ours false (options_in part.now)) }
        ensures ok { OnOk result (with_all ours self.old (options_in part.now) ≡ Ok self.new) }
        ensures err { IfErr result (λ e. IfWhy e (λ why. with_all ours self.old (options_in part.now) ≡ Err why)) }
    {
        match split_once(part, b',') {
            None => Ok(false),
            Some((_, options)) => self.take_all(alloc, ours, options),
        }
    }

    // What the whole reply pushes.
    fn finish(self, alloc: Global) -> Result<Pushed, Or<PushFault>>
        ensures answer { Answers result (pushed self) }
        ensures mask { IfOk result (λ p. p.len ≤ 32) }
    {
        let Collector {
            address,
            gateway,
            routes,
            ping,
            ping_restart,
            peer,
            cipher,
            rest,
        } = self;
        let Some((address, len)) = address else {
            return Err(fault(alloc, b"ifconfig"));
        };
        let Some(peer) = peer else {
            return Err(fault(alloc, b"peer-id"));
        };
        let Some(cipher) = cipher else {
            return Err(fault(alloc, b"cipher"));
        };
        Ok(Pushed {
            address,
            len,
            gateway,
            routes,
            ping,
            ping_restart,
            peer,
            cipher,
            rest,
        })
    }

    /// Takes the next part: `PUSH_REPLY` and, behind a comma each, its options. The words of an
    /// option are divided by spaces and tabs, and the first one names it; `ours` has the client's
    /// ciphers. It answers None exactly where no option of the part is refused and the last
    /// `push-continuation` of the part is `2`, and else what the parts push together.
    ///
    /// A refusal names the first option that is refused: `compress`, `comp-lzo`, a topology that is
    /// not `subnet`, a cipher that is not the client's, and a known option with other arguments
    /// than it has; then, of a whole reply, `ifconfig`, `peer-id` or `cipher` where it is absent.
    /// After a refusal and after the last part no parts are kept. After want of memory the
    /// collector is as before.
    pub fn feed(
        &mut self,
        alloc: Global,
        part: &[u8],
        ours: &Policy,
    ) -> Result<Option<Pushed>, Or<PushFault>>
        ensures answer { Answers result (answer ours.now self.old part.now) }
        ensures mask { IfOk result (λ answer. IfSome answer (λ p. p.len ≤ 32)) }
        ensures ok { OnOk result (self.new ≡ kept ours.now self.old part.now) }
        ensures err { IfErr result (λ e. IsLeft e self.old self.new) }
    {
        let mut next = self.copy(alloc)?;
        match next.take_part(alloc, *ours, part) {
            Ok(true) => {
                *self = next;
                Ok(None)
            }
            Ok(false) => {
                match next.finish(alloc) {
                    Err(Or::Memory) => Err(Or::Memory),
                    Err(Or::Why(fault)) => {
                        *self = Collector::new(alloc);
                        Err(Or::Why(fault))
                    }
                    Ok(pushed) => {
                        *self = Collector::new(alloc);
                        Ok(Some(pushed))
                    }
                }
            }
            Err(Or::Memory) => Err(Or::Memory),
            Err(Or::Why(fault)) => {
                *self = Collector::new(alloc);
                Err(Or::Why(fault))
            }
        }
    }
}

/// What `reply` writes is collected again: its parts, fed one after another, answer what their
/// options push all together, or the fault of the first that is refused. No option may have a
/// comma or be a `push-continuation` itself.
pub fn collects_a_reply()
    ensures { (ours : Policy) → (options : List (List ℕ)) → list_all (is_plain ours) options ≡ true
        → collected ours nothing (reply_parts options) ≡ pushed_by ours options }
{}
