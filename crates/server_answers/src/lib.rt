//! What follows an answer of the TLS engine or a file: key exchanges, the messages behind them, and establishing.
#![tactic(auto)]

mod ahead;
mod answering;
mod exchanged;
mod filing;
mod following;
mod laws;
mod messages;
mod reserving;

pub use answering::engine_answered;
pub use exchanged::finish_exchange;
pub use filing::file_came;
pub use laws::unread_text_is_read_in_order;
pub use messages::take_messages;
