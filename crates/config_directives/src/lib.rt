//! The directives of a configuration file: found on its lines, with their blocks, and each judged by
//! itself and beside those before it.
#![tactic(auto)]

mod arguments;
mod item;
mod judging;
mod keyword;
mod lines;
mod names;
mod numbers;

pub use arguments::{
    cipher_policy, default_window, keepalive_times, local_address, push_text, remote_end,
    replay_window, route_network, server_network,
};
pub use item::{Directive, Item, first_named, is_given};
pub use keyword::{Keyword, keyword_of, table};
pub use lines::{FileDirectives, read_directives};
pub use names::is_for_engine;
pub use numbers::{NumberDirective, NumberRange};
