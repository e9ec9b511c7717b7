//! Control packets of one client's session.
#![tactic(auto)]

mod control;
mod next;

pub use control::on_control;
