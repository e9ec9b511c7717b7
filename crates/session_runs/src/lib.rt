//! Whole runs of a client's session, as one call that knows the definitions alone.
#![tactic(auto)]

mod runs;

pub use runs::{SessionAnswer, SessionEvent, SessionSetup, run_session};
