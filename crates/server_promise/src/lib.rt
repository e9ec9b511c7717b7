//! What a server promises of every run, in one place: the laws of its inner packets and of its control text. There
//! is no other code here.
#![tactic(auto)]

mod promise;

pub use promise::runs_keep_the_promise;
