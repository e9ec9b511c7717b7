//! The outside of a replay: its events come from a schedule, and its effects go to a sink as lines.
#![tactic(auto)]

mod end;
mod events;
mod file;
mod links;
mod reading;
mod schedule;
mod writing;

pub use end::ReplayEnd;
pub use links::{
    ReplayLinks, a_cut_is_a_failure, a_long_file_is_refused_where_it_passes_its_limit,
    a_whole_schedule_ends_the_program,
};
pub use reading::{LONGEST_FILE, LineFault};
