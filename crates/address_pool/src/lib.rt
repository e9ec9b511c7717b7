//! The addresses that a server gives to its clients.
#![tactic(auto)]

ghost use Rattle.std.specs.Prelude.{◌≡◌, [], ◌∷◌, ◌++◌, List, IfOk, OnOk, OnErr, false};
ghost use Rattle.vpn_base.specs.Answers.{Answers};
ghost use Rattle.vpn_base.specs.declared.address.Ip4.{Ip4};

mod arrivals;
mod counts;

pub use arrivals::give_addresses;
use counts::{count_down, count_up, least_uncounted};
use std::alloc::Global;
use std::collections::BTreeMap;
use vpn_base::{Ip4, NoMemory, Or};

/// No address of the range is left.
#[derive(Clone, Copy, Debug, PartialEq, Eq)]
pub struct PoolEmpty;

/// A range of addresses with the takings of them. It forgets the order of the takings; its contract
/// is over every list of them that it may hold.
#[derive(Drop)]
pub struct Pool {
    first: Ip4,
    last: Ip4,
    // how often each address was taken
    counts: BTreeMap<u32, u64>,
}

impl Pool {
    ghost use Rattle.address_pool.specs.LeastFree.{Takings, least_free, given, is_taken, with_taking, with_taken};
    ghost use Rattle.address_pool.specs.Holds.{Holds};
    ghost use Rattle.address_pool.specs.internal.Beside.{CountsBeside};

    /// The addresses from the first to the last, both included, with nothing taken.
    pub fn new(alloc: Global, first: Ip4, last: Ip4) -> Pool
        ensures { Holds result (record { first = first; last = last; taken = [] }) }
    {
        Pool {
            first,
            last,
            counts: BTreeMap::new(alloc),
        }
    }

    // Takes the least address of the range that nobody has, but perhaps one that gives it up.
    fn take_least(&mut self, given_up: Option<u32>) -> Result<Ip4, Or<PoolEmpty>>
        ensures least { (t : Takings) (rest : List Ip4) → Holds self.old t → CountsBeside self.old given_up rest →
            Answers result (given (least_free t.first t.last rest)) }
        ensures taken { IfOk result (λ a. (t : Takings) (before after : List Ip4) → Holds self.old t → t.taken ≡ before ++ after
            → Holds self.new (with_taking t before a after)) }
        ensures err { OnErr result ((t : Takings) → Holds self.old t → Holds self.new t) }
    {
        match least_uncounted(&self.counts, given_up, self.first.0, self.last.0) {
            Some(a) => match count_up(&mut self.counts, a) {
                Ok(()) => Ok(Ip4(a)),
                Err(NoMemory) => Err(Or::Memory),
            },
            None => Err(Or::Why(PoolEmpty)),
        }
    }

    /// Takes the least address of the range that nobody has. `PoolEmpty` comes exactly where there
    /// is none. After want of memory and `PoolEmpty` the pool is as before.
    pub fn take(&mut self) -> Result<Ip4, Or<PoolEmpty>>
        ensures least { (t : Takings) → Holds self.old t → Answers result (given (least_free t.first t.last t.taken)) }
        ensures taken { IfOk result (λ a. (t : Takings) (before after : List Ip4) → Holds self.old t → t.taken ≡ before ++ after
            → Holds self.new (with_taking t before a after)) }
        ensures err { OnErr result ((t : Takings) → Holds self.old t → Holds self.new t) }
    {
        self.take_least(None)
    }

    /// The same, but one taking of `given_up` does not count: its address may be taken where nobody else has
    /// it. That taking stays until it is given back.
    pub fn take_beside(&mut self, given_up: Ip4) -> Result<Ip4, Or<PoolEmpty>>
        ensures least { (t : Takings) (before after : List Ip4) → Holds self.old t → t.taken ≡ before ++ given_up ∷ after
            → Answers result (given (least_free t.first t.last (before ++ after))) }
        ensures taken { IfOk result (λ a. (t : Takings) (before after : List Ip4) → Holds self.old t → t.taken ≡ before ++ after
            → Holds self.new (with_taking t before a after)) }
        ensures err { OnErr result ((t : Takings) → Holds self.old t → Holds self.new t) }
    {
        self.take_least(Some(given_up.0))
    }

    /// Takes this address once more, in the range or not, whoever has it. After want of memory the
    /// pool is as before.
    pub fn take_exact(&mut self, a: Ip4) -> Result<(), NoMemory>
        ensures ok { OnOk result ((t : Takings) (before after : List Ip4) → Holds self.old t → t.taken ≡ before ++ after
            → Holds self.new (with_taking t before a after)) }
        ensures err { OnErr result ((t : Takings) → Holds self.old t → Holds self.new t) }
    {
        count_up(&mut self.counts, a.0)
    }

    /// Gives back one taking of this address. Where nobody has it, nothing changes.
    pub fn give_back(&mut self, a: Ip4)
        ensures given { (t : Takings) (before after : List Ip4) → Holds self.old t → t.taken ≡ before ++ a ∷ after
            → Holds self.new (with_taken t (before ++ after)) }
        ensures absent { (t : Takings) → Holds self.old t → is_taken t.taken a.0 ≡ false → Holds self.new t }
    {
        count_down(&mut self.counts, a.0);
    }
}
