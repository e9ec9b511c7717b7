//! Answers of the TLS engine in one client's session, and its key exchanges.
#![tactic(auto)]

mod engine;
mod key_exchange;
mod named;
mod plain;
mod said;
mod turns;

pub use engine::on_engine;
pub use key_exchange::exchange;
