//! Whole runs of packets through a fresh receiving side.

ghost use Rattle.std.specs.Prelude.{◌≡◌, ◌++◌, ◌≤◌, ℕ, List, [], length, drop, Some, None, IfOk, OnOk};
ghost use Rattle.std.specs.List.{concat};
ghost use Rattle.reliable_recv.specs.Receiving.{Arrival, Receiving, begun, put_into, next_payload, after_next, after_acks, taken_after, text, text_of};
ghost use Rattle.reliable_recv.specs.Sides.{Stands};
ghost use Rattle.reliable_recv.specs.Prefix.{CarryPieces, IsPrefix};
ghost use Rattle.reliable_recv.specs.Runs.{IsRead, carried, text_read, all_read, reached};

use crate::receiving::RecvSide;
use std::alloc::Global;
use vpn_base::{Bytes, NoMemory};

fn add_text(text: &mut Vec<u8>, id: u64, payload: &[u8]) -> Result<(), NoMemory>
    ensures { OnOk result (text.new.items ≡ text.old.items ++ carried id payload.now) }
{
    if id == 0 {
        return Ok(());
    }
    text.extend_from_slice(payload)?;
    Ok(())
}

// Reads all that is in order, and adds its text.
fn read_in_order(side: &mut RecvSide, text: &mut Vec<u8>) -> Result<(), NoMemory>
    ensures stands { OnOk result ((h : Receiving) → Stands side.old h → Stands side.new (all_read h)) }
    ensures text { OnOk result ((h : Receiving) → Stands side.old h → text.old.items ≡ text_read h → text.new.items ≡ text_read (all_read h)) }
    ensures waiting { side.new.kept.waiting ≡ side.old.kept.waiting }
{
    'payloads: loop {
        let id = side.read_count();
        match side.next_in_order() {
            None => return Ok(()),
            Some(payload) => add_text(text, id, payload.as_slice())?,
        }
    }
}

fn put_next(side: &mut RecvSide, id: u32, payload: &[u8]) -> Result<(), NoMemory>
    requires { side.old.kept.waiting ≡ [] }
    ensures stands { OnOk result ((h : Receiving) → Stands side.old h → Stands side.new (after_acks (put_into h id payload.now) 8)) }
    ensures none { OnOk result (side.new.kept.waiting ≡ []) }
{
    let _ = side.put(id, payload)?;
    let _ = side.take_acks(8);
    Ok(())
}

/// The text that is read of packets that come one after the other, each with its id, where all that is
/// in order is read at once and all acknowledgements are taken.
pub fn read_all(alloc: Global, arrivals: &[(u32, Bytes)]) -> Result<Bytes, NoMemory>
    ensures { IfOk result (λ text. text ≡ text_of arrivals.now) }
{
    let mut side = RecvSide::new(alloc)?;
    let mut text = Vec::new(alloc);
    for (id, payload) in arrivals {
        put_next(&mut side, *id, payload.as_slice())?;
        read_in_order(&mut side, &mut text)?;
    }
    Ok(Bytes::of(text))
}

/// Whatever packets come, in whatever order and however often: where each carries the piece of its id
/// that a sender has, what is read is a front of the sender's text.
pub fn reads_a_prefix()
    ensures { (pieces : List (List ℕ)) (arrivals : List Arrival) → CarryPieces pieces arrivals →
        IsPrefix (text_of arrivals) (concat (drop 1 pieces)) }
{}

/// What reading in order comes to, for everything that was taken: payloads that were read had been taken,
/// all is read where the next payload is not here or as many were read as packets were taken, and each
/// payload adds what it carries to the text.
pub fn reads_in_order()
    ensures goes_on { (r : Receiving) → IsRead r → IsRead (after_next r) }
    ensures ends { (r : Receiving) → IsRead r → next_payload r ≡ None → all_read r ≡ r }
    ensures full { (r : Receiving) → IsRead r → length r.taken ≤ r.read → all_read r ≡ r }
    ensures whole { (r : Receiving) → all_read (after_next r) ≡ all_read r }
    ensures text { (r : Receiving) (payload : List ℕ) → IsRead r → next_payload r ≡ Some payload →
        text_read (after_next r) ≡ text_read r ++ carried r.read payload }
{}

/// What comes of packets where all that is in order is read after each, and each is acknowledged.
pub fn reads_packets()
    ensures first { begun ≡ reached [] }
    ensures next { (taken : List Arrival) (a : Arrival) → all_read (after_acks (put_into (reached taken) a.0 a.1) 8) ≡ reached (taken_after taken a) }
    ensures read { (taken : List Arrival) (a : Arrival) → IsRead (after_acks (put_into (reached taken) a.0 a.1) 8) }
    ensures before { (taken : List Arrival) (a : Arrival) → text_read (after_acks (put_into (reached taken) a.0 a.1) 8) ≡ text taken }
    ensures here { (taken : List Arrival) → IsRead (reached taken) }
    ensures text { (taken : List Arrival) → text_read (reached taken) ≡ text taken }
{}
