//! The packets that wait for the packet device.

ghost use Rattle.std.specs.Prelude.{◌≡◌, ◌+◌, ◌<◌, ◌≤◌, nat_le, [], ◌∷◌, ◌++◌, length, drop, slice_get, IfOk, IfSome, vec_len, vec_capacity};
ghost use Rattle.std.specs.Option.{option_copied};

use crate::packet::Packet;
use circular_buffer::HeapCircularBuffer;
use std::alloc::Global;
use std::marker::Model;
use vpn_base::NoMemory;

// As many packets may wait.
const MOST: usize = 64;

/// The packets that wait for the packet device, the oldest first; at most 64. Each place has room for any
/// packet from the beginning. Contracts see the packets.
#[derive(Drop)]
pub struct DeviceQueue {
    free: Vec<Packet>,
    waiting: HeapCircularBuffer<Packet>,
}

impl Model for DeviceQueue {
    ghost use Rattle.std.specs.Prelude.{◌≡◌, ◌+◌, ◌≤◌, ℕ, List, length, vec_capacity};

    ghost Value = { List (List ℕ) };

    ghost view = { λ q. q.waiting.items };

    ghost invariant = { λ q. (length q.free.items + length q.waiting.items ≡ 64) × (q.waiting.capacity ≡ 64) × (64 ≤ vec_capacity q.free) };
}

// Makes the places.
fn places(alloc: Global) -> Result<Vec<Packet>, NoMemory>
    ensures { IfOk result (λ free. (length free.items ≡ 64) × (64 ≤ vec_capacity free)) }
{
    let mut free = Vec::with_capacity(alloc, MOST)?;
    for _ in 0..MOST {
        free.push(Packet::make(alloc)?)?;
    }
    Ok(free)
}

impl DeviceQueue {
    /// A queue in which no packet waits.
    pub fn make(alloc: Global) -> Result<DeviceQueue, NoMemory>
        ensures { IfOk result (λ q. q ≡ []) }
    {
        Ok(DeviceQueue {
            free: places(alloc)?,
            waiting: HeapCircularBuffer::with_capacity(alloc, MOST)?,
        })
    }

    /// Whether as many packets wait as may.
    pub fn is_full(&self) -> bool
        ensures { result ≡ nat_le 64 (length self.now) }
    {
        MOST <= self.waiting.len()
    }

    /// Puts a packet of at most 1,500 bytes behind those that wait. It takes no memory.
    pub fn put(&mut self, inner: &[u8])
        requires short { length inner.now ≤ 1500 }
        requires room { length self.old < 64 }
        ensures { self.new ≡ self.old ++ inner.now ∷ [] }
    {
        match self.free.pop() {
            None => {}
            Some(mut packet) => {
                packet.fill(inner);
                let _ = self.waiting.try_push_back(packet);
            }
        }
    }

    /// The oldest packet that waits. It is None exactly where none waits.
    pub fn front(&self) -> Option<&[u8]>
        ensures front { option_copied result ≡ slice_get self.now 0 }
        ensures short { IfSome result (λ bytes. length bytes.now ≤ 1500) }
    {
        match self.waiting.front() {
            None => None,
            Some(packet) => Some(packet.as_slice()),
        }
    }

    /// Takes the oldest packet out, if one waits.
    pub fn pass(&mut self)
        ensures { self.new ≡ drop 1 self.old }
    {
        match self.waiting.pop_front() {
            None => {}
            Some(packet) => {
                let _ = self.free.push(packet);
            }
        }
    }
}
