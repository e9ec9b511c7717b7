//! One client of a server as plain data, with each call of its session as one function, and the trait by
//! which a core knows a client's session. There is no code here but what these need.
#![tactic(auto)]

mod client_session;
mod laws;
mod outcomes;

pub use client_session::ClientSession;
pub use laws::{at_most_three_are_open, key_sessions_are_orderly};
pub use outcomes::{Message, Refused, SessionFault, Turn};
