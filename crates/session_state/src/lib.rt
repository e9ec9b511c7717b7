//! The state of one client's session: what it keeps, what it tells of itself, and the memory that it takes ahead.
#![tactic(auto)]

mod causes;
mod closing;
mod looks;
mod messages;
mod name;
mod numbers;
mod ready;
mod rooms;
mod session;
mod ticks;

pub use causes::cause_of;
pub use messages::other;
pub use name::ClientName;
pub use numbers::OpenNumbers;
pub use rooms::least_bytes;
pub use session::SessionState;
