//! The server as plain data: its table, its step, and its runs, with the laws that tell whether they mean
//! what they should. There is no other code here.
#![tactic(auto)]

mod laws;
mod refusals;

pub use laws::{
    a_stopped_server_stays, an_end_gives_everything_up, at_most_three_sessions_are_open,
    moment_never_falls, numbers_are_in_order_of_admission, only_the_end_stops,
    refused_packets_change_nothing, tables_stay_sound, the_pool_gives_free_addresses,
};
pub use refusals::what_is_done_is_no_refusal;
