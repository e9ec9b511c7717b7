//! The commands of the program, over any files and sinks.
#![tactic(auto)]

mod check;
mod front;
mod loading;
mod refusal;
mod replay;
mod route;
mod top;
mod writing;

pub use refusal::Refusal;
pub use top::{Outside, no_memory, vpn_main};
