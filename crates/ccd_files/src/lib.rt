//! The files that a server keeps for single clients.
#![tactic(auto)]

mod client_file;
mod directives;
mod reading;

pub use client_file::Ccd;
pub use reading::read_ccd;
