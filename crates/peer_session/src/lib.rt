//! One client's session: its control links, keys and data channels, as one value.
#![tactic(auto)]

mod begin;
mod client;
mod laws;
mod packets;
mod session;
mod tick;

pub use laws::{names_come_first, retired_sessions_stay_retired};
pub use session::PeerSession;
