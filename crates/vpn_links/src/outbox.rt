//! The outbox, which a step of a core fills with its effects.

ghost use Rattle.std.specs.Prelude.{◌≡◌, ◌+◌, ◌-◌, ◌<◌, ◌≤◌, [], ◌∷◌, ◌++◌, length, take, map, min, vec_len, vec_capacity, IfOk, IsOk, OnOk, OnErr, slice_get};
ghost use Rattle.std.specs.Option.{option_map};
ghost use Rattle.std.specs.List.{AllByRecursion};
ghost use Rattle.vpn_links.specs.Actions.{Configure, HasRoom, Holds, IsPlain, action, carried, carried_by, carried_bytes, on_wire, staged_bytes};
ghost use Rattle.vpn_links.specs.internal.Store.{IsKeptWithin, IsWithin, kept_action, kept_datagram, own, part};

use crate::effects::Effect;
use crate::store::{Kept, Setup, Span, Staged};
use std::alloc::Global;
use std::marker::Model;
use vpn_base::{Addr, Ip4, NoMemory, RouteList, TextList};

// The room that an outbox has from the beginning.
const EFFECTS: usize = 4;

const BYTES: usize = 4096;

/// The effects of a step in order, and the control datagrams that are to stand behind them. Contracts see
/// both as lists, and beside them for how many more effects or datagrams and for how many more bytes there
/// is room.
#[derive(Drop)]
pub struct Outbox {
    effects: Vec<Kept>,
    staged: Vec<Staged>,
    bytes: Vec<u8>,
}

impl Model for Outbox {
    ghost use Rattle.std.specs.Prelude.{◌+◌, ◌-◌, length, map, min, vec_len, vec_capacity};
    ghost use Rattle.vpn_links.specs.Actions.{Contents};
    ghost use Rattle.vpn_links.specs.internal.Store.{IsSound, kept_action, staged_datagram};

    ghost Value = { Contents };

    ghost view = { λ o. record {
      effects = map (kept_action o.bytes.items) o.effects.items;
      staged = map (staged_datagram o.bytes.items) o.staged.items;
      spare_effects = min (vec_capacity o.effects) (vec_capacity o.staged) - (vec_len o.effects + vec_len o.staged);
      spare_bytes = vec_capacity o.bytes - vec_len o.bytes;
    } };

    ghost invariant = { λ o. IsSound o.effects.items o.staged.items (length o.bytes.items) (vec_capacity o.effects) (vec_capacity o.staged) (vec_capacity o.bytes) };
}

// Puts bytes at the end of the store.
#[tactic(auto, using(crate::proofs::Parts::part_end, crate::proofs::Parts::end_within))]
fn put(store: &mut Vec<u8>, bytes: &[u8]) -> Result<Span, NoMemory>
    ensures part { IfOk result (λ s. part store.new.items s ≡ bytes.now) }
    ensures within { IfOk result (IsWithin (length store.new.items)) }
    ensures len { IfOk result (λ s. s.len ≡ length bytes.now) }
    ensures ok { OnOk result (store.new.items ≡ store.old.items ++ bytes.now) }
    ensures err { OnErr result (store.new.items ≡ store.old.items) }
    ensures capacity { vec_capacity store.old ≤ vec_capacity store.new }
    ensures fits { vec_len store.old + length bytes.now ≤ vec_capacity store.old → IsOk result }
{
    let start = store.len();
    let len = bytes.len();
    store.extend_from_slice(bytes)?;
    Ok(Span { start, len })
}

// The bytes at a place of the store.
#[tactic(auto, unfolding(crate::specs::internal::Store::part))]
fn lend(store: &[u8], span: Span) -> &[u8]
    requires { IsWithin (length store.now) span }
    ensures { result.now ≡ part store.now span }
{
    &store[span.start..span.start + span.len]
}

// Keeps an effect, with its bytes at the end of the store.
fn keep(store: &mut Vec<u8>, e: &Effect<'_>) -> Result<Kept, NoMemory>
    requires { IsPlain e.now }
    ensures kept { IfOk result (λ k. kept_action store.new.items k ≡ action e.now) }
    ensures within { IfOk result (IsKeptWithin (length store.new.items)) }
    ensures own { IfOk result (λ k. own k ≡ carried (action e.now)) }
    ensures ok { OnOk result (store.new.items ≡ store.old.items ++ carried_bytes (action e.now)) }
    ensures err { OnErr result (store.new.items ≡ store.old.items) }
    ensures capacity { vec_capacity store.old ≤ vec_capacity store.new }
    ensures fits { vec_len store.old + carried (action e.now) ≤ vec_capacity store.old → IsOk result }
{
    match e {
        Effect::Wire { to, bytes } => Ok(Kept::Wire {
            to: *to,
            span: put(store, bytes)?,
        }),
        Effect::EngineOpen { conn, role } => Ok(Kept::EngineOpen {
            conn: *conn,
            role: *role,
        }),
        Effect::EnginePut { conn, bytes } => Ok(Kept::EnginePut {
            conn: *conn,
            span: put(store, bytes)?,
        }),
        Effect::EngineWrite { conn, bytes } => Ok(Kept::EngineWrite {
            conn: *conn,
            span: put(store, bytes)?,
        }),
        Effect::EngineClose { conn } => Ok(Kept::EngineClose { conn: *conn }),
        Effect::Device { bytes } => Ok(Kept::Device {
            span: put(store, bytes)?,
        }),
        Effect::Configure { .. } => unreachable!(),
        Effect::Ask { cid, name } => Ok(Kept::Ask {
            cid: *cid,
            span: put(store, name)?,
        }),
        Effect::Say { bytes } => Ok(Kept::Say {
            span: put(store, bytes)?,
        }),
        Effect::Report(note) => Ok(Kept::Report(*note)),
        Effect::Stop => Ok(Kept::Stop),
    }
}

// Lends a configuration of the packet device.
fn lend_setup(setup: &Setup) -> Effect<'_>
    ensures { action result ≡ Configure setup.now.address setup.now.len setup.now.gateway setup.now.routes setup.now.rest }
{
    Effect::Configure {
        address: setup.address,
        len: setup.len,
        gateway: setup.gateway,
        routes: &setup.routes,
        rest: &setup.rest,
    }
}

// Lends what is kept.
fn lend_kept<'a>(store: &'a [u8], kept: &'a Kept) -> Effect<'a>
    requires { IsKeptWithin (length store.now) kept.now }
    ensures { action result ≡ kept_action store.now kept.now }
{
    match kept {
        Kept::Wire { to, span } => Effect::Wire {
            to: *to,
            bytes: lend(store, *span),
        },
        Kept::EngineOpen { conn, role } => Effect::EngineOpen {
            conn: *conn,
            role: *role,
        },
        Kept::EnginePut { conn, span } => Effect::EnginePut {
            conn: *conn,
            bytes: lend(store, *span),
        },
        Kept::EngineWrite { conn, span } => Effect::EngineWrite {
            conn: *conn,
            bytes: lend(store, *span),
        },
        Kept::EngineClose { conn } => Effect::EngineClose { conn: *conn },
        Kept::Device { span } => Effect::Device {
            bytes: lend(store, *span),
        },
        Kept::Configure(setup) => lend_setup(setup),
        Kept::Ask { cid, span } => Effect::Ask {
            cid: *cid,
            name: lend(store, *span),
        },
        Kept::Say { span } => Effect::Say {
            bytes: lend(store, *span),
        },
        Kept::Report(note) => Effect::Report(*note),
        Kept::Stop => Effect::Stop,
    }
}

// Makes room for so many more effects or staged datagrams.
fn make_room(effects: &mut Vec<Kept>, staged: &mut Vec<Staged>, more: usize) -> Result<(), NoMemory>
    ensures effects { effects.new.items ≡ effects.old.items }
    ensures staged { staged.new.items ≡ staged.old.items }
    ensures effects_grow { vec_capacity effects.old ≤ vec_capacity effects.new }
    ensures staged_grow { vec_capacity staged.old ≤ vec_capacity staged.new }
    ensures ok { OnOk result (vec_len effects.old + vec_len staged.old + more ≤ min (vec_capacity effects.new) (vec_capacity staged.new)) }
    ensures fits { vec_len effects.old + vec_len staged.old + more ≤ min (vec_capacity effects.old) (vec_capacity staged.old) → IsOk result }
{
    let Some(for_effects) = staged.len().checked_add(more) else {
        return Err(NoMemory);
    };
    let Some(for_staged) = effects.len().checked_add(more) else {
        return Err(NoMemory);
    };
    effects.reserve(for_effects)?;
    staged.reserve(for_staged)?;
    Ok(())
}

// Appends where there is room.
fn append(effects: &mut Vec<Kept>, kept: Kept)
    requires { vec_len effects.old < vec_capacity effects.old }
    ensures items { effects.new.items ≡ effects.old.items ++ kept ∷ [] }
    ensures capacity { vec_capacity effects.old ≤ vec_capacity effects.new }
{
    let pushed = effects.push(kept);
    prove!(pushed.is_ok());
    let _ = pushed;
}

fn append_staged(staged: &mut Vec<Staged>, datagram: Staged)
    requires { vec_len staged.old < vec_capacity staged.old }
    ensures items { staged.new.items ≡ staged.old.items ++ datagram ∷ [] }
    ensures capacity { vec_capacity staged.old ≤ vec_capacity staged.new }
{
    let pushed = staged.push(datagram);
    prove!(pushed.is_ok());
    let _ = pushed;
}

impl Outbox {
    /// An empty outbox, with room for 4 effects and 4,096 bytes. One that is made or cleared has that room;
    /// one that was emptied by [`Outbox::cut`] need not have it.
    pub fn make(alloc: Global) -> Result<Outbox, NoMemory>
        ensures empty { IfOk result (λ o. Holds o [] []) }
        ensures spare { IfOk result HasRoom }
    {
        Ok(Outbox {
            effects: Vec::with_capacity(alloc, EFFECTS)?,
            staged: Vec::with_capacity(alloc, EFFECTS)?,
            bytes: Vec::with_capacity(alloc, BYTES)?,
        })
    }

    /// Takes everything out and keeps the room.
    pub fn clear(&mut self)
        ensures empty { Holds self.new [] [] }
        ensures effects { self.new.spare_effects ≡ self.old.spare_effects + length self.old.effects + length self.old.staged }
        ensures bytes { self.old.spare_bytes + carried_by self.old.effects + staged_bytes self.old.staged ≤ self.new.spare_bytes }
        ensures least { HasRoom self.new }
    {
        self.effects.clear();
        self.staged.clear();
        self.bytes.clear();
    }

    /// Makes room for at least so many more effects or staged datagrams, and for so many more bytes. It takes
    /// no memory where that room is there.
    pub fn reserve(&mut self, effects: usize, bytes: usize) -> Result<(), NoMemory>
        ensures same { Holds self.new self.old.effects self.old.staged }
        ensures ok { OnOk result ((effects ≤ self.new.spare_effects) × (bytes ≤ self.new.spare_bytes)) }
        ensures fits { effects ≤ self.old.spare_effects → bytes ≤ self.old.spare_bytes → IsOk result }
        ensures grows { (self.old.spare_effects ≤ self.new.spare_effects) × (self.old.spare_bytes ≤ self.new.spare_bytes) }
    {
        make_room(&mut self.effects, &mut self.staged, effects)?;
        self.bytes.reserve(bytes)?;
        Ok(())
    }

    /// Adds an effect at the end. It takes no memory where there is room for the effect and its bytes.
    pub fn add(&mut self, e: &Effect<'_>) -> Result<(), NoMemory>
        requires { IsPlain e.now }
        ensures ok { OnOk result (Holds self.new (self.old.effects ++ action e.now ∷ []) self.old.staged) }
        ensures err { OnErr result (Holds self.new self.old.effects self.old.staged) }
        ensures fits { 1 ≤ self.old.spare_effects → carried (action e.now) ≤ self.old.spare_bytes → IsOk result }
        ensures spare { (self.old.spare_effects ≤ self.new.spare_effects + 1) × (self.old.spare_bytes ≤ self.new.spare_bytes + carried (action e.now)) }
    {
        make_room(&mut self.effects, &mut self.staged, 1)?;
        let kept = keep(&mut self.bytes, e)?;
        append(&mut self.effects, kept);
        Ok(())
    }

    /// Adds the configuration of the packet device at the end, and moves its two lists in.
    pub fn add_configure(
        &mut self,
        address: Ip4,
        len: u8,
        gateway: Option<Ip4>,
        routes: RouteList,
        rest: TextList,
    )
        requires { 1 ≤ self.old.spare_effects }
        ensures added { Holds self.new (self.old.effects ++ Configure address len gateway routes rest ∷ []) self.old.staged }
        ensures spare { (self.old.spare_effects ≤ self.new.spare_effects + 1) × (self.old.spare_bytes ≤ self.new.spare_bytes) }
    {
        append(
            &mut self.effects,
            Kept::Configure(Setup {
                address,
                len,
                gateway,
                routes,
                rest,
            }),
        );
    }

    /// Stages a control datagram behind those that are staged. It takes no memory where there is room for
    /// the datagram and its bytes.
    pub fn stage(&mut self, to: Addr, bytes: &[u8]) -> Result<(), NoMemory>
        ensures ok { OnOk result (Holds self.new self.old.effects (self.old.staged ++ record { to = to; bytes = bytes.now } ∷ [])) }
        ensures err { OnErr result (Holds self.new self.old.effects self.old.staged) }
        ensures fits { 1 ≤ self.old.spare_effects → length bytes.now ≤ self.old.spare_bytes → IsOk result }
        ensures spare { (self.old.spare_effects ≤ self.new.spare_effects + 1) × (self.old.spare_bytes ≤ self.new.spare_bytes + length bytes.now) }
    {
        make_room(&mut self.effects, &mut self.staged, 1)?;
        let span = put(&mut self.bytes, bytes)?;
        append_staged(&mut self.staged, Staged { to, span });
        Ok(())
    }

    /// How many control datagrams are staged.
    pub fn staged(&self) -> usize
        ensures { result ≡ length self.now.staged }
    {
        self.staged.len()
    }

    /// Keeps the first so many effects and the first so many staged datagrams. The bytes of what is cut off
    /// keep their room until the outbox is cleared.
    #[tactic(auto, using(crate::proofs::Parts::take_map, crate::proofs::Parts::all_take, crate::proofs::Parts::own_take, crate::proofs::Parts::own_staged_take))]
    pub fn cut(&mut self, effects: usize, staged: usize)
        requires effects { effects ≤ length self.old.effects }
        requires staged { staged ≤ length self.old.staged }
        ensures kept { Holds self.new (take effects self.old.effects) (take staged self.old.staged) }
        ensures spare { (self.old.spare_effects ≤ self.new.spare_effects) × (self.new.spare_bytes ≡ self.old.spare_bytes) }
    {
        self.effects.truncate(effects);
        self.staged.truncate(staged);
    }

    #[tactic(auto, using(crate::proofs::Parts::map_kept_datagram, crate::proofs::Parts::all_kept_datagram, crate::proofs::Parts::all_append))]
    /// Puts the staged datagrams behind the effects, in their order. It takes no memory.
    pub fn settle(&mut self)
        ensures settled { Holds self.new (self.old.effects ++ map on_wire self.old.staged) [] }
        ensures spare { (self.old.spare_effects ≤ self.new.spare_effects) × (self.new.spare_bytes ≡ self.old.spare_bytes) }
    {
        move_staged(&mut self.effects, &self.staged);
        self.staged.clear();
    }

    /// How many effects there are.
    pub fn count(&self) -> usize
        ensures { result ≡ length self.now.effects }
    {
        self.effects.len()
    }

    /// The effect at this place, from 0. It is None exactly past the end.
    pub fn effect(&self, i: usize) -> Option<Effect<'_>>
        ensures { option_map action result ≡ slice_get self.now.effects i }
    {
        let kept = self.effects.get(i)?;
        Some(lend_kept(&self.bytes, kept))
    }
}

// Appends the staged datagrams to the effects, which have room for them.
fn move_staged(effects: &mut Vec<Kept>, staged: &[Staged])
    requires { vec_len effects.old + length staged.now ≤ vec_capacity effects.old }
    ensures items { effects.new.items ≡ effects.old.items ++ map kept_datagram staged.now }
    ensures capacity { vec_capacity effects.old ≤ vec_capacity effects.new }
{
    for datagram in staged {
        append(
            effects,
            Kept::Wire {
                to: datagram.to,
                span: datagram.span,
            },
        );
    }
}
