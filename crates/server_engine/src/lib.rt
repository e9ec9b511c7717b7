//! What the TLS engine and the files answer.
#![tactic(auto)]

mod answers;
mod asking;
mod beginning;
mod calling;
mod downs;
mod exchanging;
mod files;
mod finding;
mod laws;
mod messages;
mod unread;

pub use answers::{ReadAnswer, read_answer};
pub use asking::ask_file;
pub use beginning::{begin_exchange, know_file};
pub use calling::{call_engine, end_if_over, send_text};
pub use downs::engine_is_down;
pub use exchanging::{call_exchange, exchange_keys};
pub use files::take_file;
pub use finding::by_connection;
pub use laws::{names_fit, names_stay};
pub use messages::{Waiting, take_message};
pub use unread::judge_unread;
