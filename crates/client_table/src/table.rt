//! The table.

ghost use Rattle.std.specs.Prelude.{◌≡◌, length, nat_le, true};
ghost use Rattle.client_table.specs.Sound.{are_below, rise_from};

use crate::key::Key;
use std::alloc::Global;

/// The clients that are here, each with a value of its own. Contracts see them as one list of entries, in
/// order of admission, no more than may be. Every number is given once, and rises; every peer id lies below the
/// most clients.
#[derive(Drop)]
pub struct ClientTable<V> {
    pub(crate) most: u32,
    pub(crate) admitted: u64,
    pub(crate) keys: Vec<Key>,
    pub(crate) values: Vec<V>,
    ghost paired: { length values.items ≡ length keys.items },
    ghost rising: { rise_from 0 admitted keys.items ≡ true },
    ghost peers: { are_below most keys.items ≡ true },
    ghost few: { nat_le (length keys.items) most ≡ true },
}
