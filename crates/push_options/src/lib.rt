//! The options that a server pushes to a client, and the texts in which they go.
#![tactic(auto)]

mod collector;
mod options;
mod parts;
mod received;

pub use collector::{Collector, PushFault, Pushed, collects_a_reply};
pub use options::{PushPlan, plan};
pub use parts::reply;
