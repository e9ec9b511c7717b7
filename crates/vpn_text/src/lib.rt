//! The words of configuration lines: read from a line, written into one, and what they spell.
#![tactic(auto)]

mod cipher;
mod config;
mod laws;
mod mask;
mod quoting;
mod words;

pub use cipher::read_cipher;
pub use config::{ConfigFault, ConfigKind, is_long, is_over, read_config_line};
pub use laws::reads_no_control;
pub use mask::{read_mask, read_network, reads_mask_again, write_mask};
pub use quoting::{is_push_text, reads_words_again, write_word};
pub use words::{LineFault, LineKind, is_blank, is_control, read_line};
