//! A client is established: it gets its address and its networks, and is told what the server pushes.
#![tactic(auto)]

mod ahead;
mod asking;
mod establishing;
mod laws;
mod placing;
mod preparing;
mod replacing;
mod replying;
mod room;
mod taking;

pub use ahead::{Ahead, LeaseAhead};
pub use asking::{Prepared, answer_request, establish_as_asked};
pub use establishing::establish;
pub use laws::{the_same_reply_is_written_again, what_is_made_stays};
pub use placing::establish_now;
pub use preparing::{copy_file, give_up, prepare};
pub use replacing::replace;
pub use replying::{copy_known, prepare_again, reply_again};
pub use taking::give_back_held;
