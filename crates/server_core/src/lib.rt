//! A server's core takes events.
#![tactic(auto)]

mod beginning;
mod datagrams;
mod dispatch;
mod lines;
mod senders;
mod server;
mod taking;

pub use server::{EventCore, Server};
