//! What a server's core keeps, and the few things that all its handlers do.
#![tactic(auto)]

mod calls;
mod client;
mod device;
mod effects;
mod ending;
mod laws;
mod lookups;
mod making;
mod packet;
mod queue;
mod room;
mod sealing;
mod state;
mod verdicts;

pub use calls::count_opened;
pub use client::{ClientFile, ClientState};
pub use effects::put;
pub use laws::{
    a_changed_core_is_sound, a_core_ahead_is_sound, calls_are_put_into_courses,
    clients_are_found_alike, clients_come_and_go_alike, places_tell_of_clients,
};
pub use packet::Packet;
pub use queue::DeviceQueue;
pub use room::peer_ids_are_given_alike;
pub use sealing::count_up;
pub use state::ServerCore;
