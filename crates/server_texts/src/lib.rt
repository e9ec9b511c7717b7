//! What a server writes of a client: the push reply to it, and what a manager is told of it. All memory is
//! taken by the call that makes a reply ahead; what is written later takes none.
#![tactic(auto)]

mod laws;
mod line;
mod put;
mod replies;
mod told;

pub use laws::replies_are_planned;
pub use replies::ReplyAhead;
pub use told::{DISCONNECT_BYTES, establishing_room, say_disconnect, say_establishing};
