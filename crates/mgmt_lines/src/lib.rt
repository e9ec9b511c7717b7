//! The lines of the management console: commands read, and the texts that answer them.
#![tactic(auto)]

mod commands;
mod fixed;
mod laws;
mod texts;

pub use commands::{Command, CommandFault, read_command};
pub use fixed::FixedLine;
pub use laws::{lines_have_no_control, reads_commands_again};
pub use texts::{
    StatusRow, address_killed, address_not_found, count_line, load_line, name_killed,
    name_not_found, own_count_line, queued_line, seconds_of, status_client, status_route,
    time_line,
};
