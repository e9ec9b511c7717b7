//! The laws of a server's run: what holds of every list of events, whatever they bring. There is no other
//! code here.
#![tactic(auto)]

mod datagrams;
mod inner_packets;
mod wraps;

pub use datagrams::{datagrams_go_to_key_sessions, what_is_taken_has_a_place};
pub use inner_packets::{
    ids_are_accepted_once, ids_are_sealed_once, no_packet_is_lost, other_events_hand_nothing_on,
    packets_go_where_they_should, packets_of_the_device_go_to_owners, packets_wait_in_order,
    packets_were_sealed, tables_are_well_kept, what_opens_is_its_packet,
};
pub use wraps::{no_wrap_is_accepted_twice, wraps_are_accepted_once};
