//! The server run over a schedule: what it gives is what the run of its definitions does, as lines.
#![tactic(auto)]

mod run;
mod serve;

pub use run::{Replayed, replay};
