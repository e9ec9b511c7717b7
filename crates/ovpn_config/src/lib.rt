//! The settings of a server or a client: read from a configuration file, and printed again.
#![tactic(auto)]

mod laws;
mod reading;
mod settings;
mod spelling;
mod values;
mod writing;

pub use laws::{
    reads_config_again, settings_are_bounded, settings_are_of_the_front,
    settings_have_given_numbers,
};
pub use reading::read_config;
pub use settings::{KeyPlace, Settings};
pub use writing::write_config;
