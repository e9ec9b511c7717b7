//! Reading a route file, in pieces of any size, and what it prints.
#![tactic(auto)]

mod answers;
mod keys;
mod reader;
mod state;

pub use reader::{Refused, RouteReader};
pub use state::{LONGEST_FILE, RouteFault};
