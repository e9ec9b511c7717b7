//! Time passes for a server.
#![tactic(auto)]

mod clients;
mod keepalive;
mod laws;
mod memory;
mod pinging;
mod session;
mod turn;

pub use clients::tick;
pub use laws::{absent_numbers_change_nothing, no_counts_are_told, the_next_is_ready};
pub use memory::take_memory;
pub use pinging::ping;
pub use turn::client_ticked;
