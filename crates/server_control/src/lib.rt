//! Control packets of clients: how they are taken, and how clients are admitted.
#![tactic(auto)]

mod admitting;
mod arriving;
mod taking;
mod telling;

pub use admitting::admit;
pub use arriving::control_arrived;
pub use taking::to_client;
