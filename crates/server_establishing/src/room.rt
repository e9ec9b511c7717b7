//! The room that an outbox takes of establishing a client.

ghost use Rattle.std.specs.Prelude.{◌≡◌, ◌+◌, IfOk};
ghost use Rattle.server_establishing.specs.Ahead.{bytes_with, effects_with, lease_bytes, lease_effects};

use crate::ahead::{Ahead, LeaseAhead};
use ccd_files::Ccd;
use server_texts::establishing_room;
use vpn_base::NoMemory;

// Two numbers of effects and of bytes together.
fn together(first: (usize, usize), last: (usize, usize)) -> Result<(usize, usize), NoMemory>
    ensures effects { IfOk result (λ r. r.0 ≡ first.0 + last.0) }
    ensures bytes { IfOk result (λ r. r.1 ≡ first.1 + last.1) }
{
    let Some(effects) = first.0.checked_add(last.0) else {
        return Err(NoMemory);
    };
    let Some(bytes) = first.1.checked_add(last.1) else {
        return Err(NoMemory);
    };
    Ok((effects, bytes))
}

fn lease_room(file: &Ccd, lease: &LeaseAhead) -> Result<(usize, usize), NoMemory>
    ensures effects { IfOk result (λ r. r.0 ≡ lease_effects file.now lease.now) }
    ensures bytes { IfOk result (λ r. r.1 ≡ lease_bytes file.now lease.now) }
{
    together(lease.replies.room(), establishing_room(file)?)
}

fn room_with(file: &Ccd, lease: &Option<LeaseAhead>) -> Result<(usize, usize), NoMemory>
    ensures effects { IfOk result (λ r. r.0 ≡ effects_with file.now lease.now) }
    ensures bytes { IfOk result (λ r. r.1 ≡ bytes_with file.now lease.now) }
{
    match lease {
        None => Ok((5, 39)),
        Some(lease) => lease_room(file, lease),
    }
}

impl Ahead {
    /// How many effects and bytes an outbox takes at most of establishing the client, with those of the end of
    /// the one that it replaces. Want of memory is only where they pass every number.
    pub fn room(&self) -> Result<(usize, usize), NoMemory>
        ensures effects { IfOk result (λ r. r.0 ≡ 5 + effects_with self.now.file self.now.lease) }
        ensures bytes { IfOk result (λ r. r.1 ≡ 39 + bytes_with self.now.file self.now.lease) }
    {
        together((5, 39), room_with(&self.file, &self.lease)?)
    }
}
