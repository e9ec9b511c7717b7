//! The loop that runs a core against its outside: an event, a step, the effects of the step, and so on until the
//! core stops.
#![tactic(auto)]

mod node;
mod outcome;
mod run;

pub use node::{Closed, Ended, Node, Serving};
pub use outcome::{Outcome, Ran};
