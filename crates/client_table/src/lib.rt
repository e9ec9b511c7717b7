//! The clients of a server that are here, each with a value of its own: what they are found by, how they
//! come, move and go, and how their values are lent.
#![tactic(auto)]

mod calls;
mod changes;
mod edits;
mod key;
mod laws;
mod search;
mod table;

pub use calls::Full;
pub use key::Key;
pub use laws::{lending_sets_the_value, no_more_are_here_than_may_be, peer_ids_are_the_least_free};
pub use table::ClientTable;
