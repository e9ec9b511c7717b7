//! What is made ahead.

use ccd_files::Ccd;
use server_texts::ReplyAhead;
use vpn_base::{Ip4, Text};

/// An address in the tunnel that is held for a client, with the replies to it.
#[derive(Drop)]
pub struct LeaseAhead {
    /// The address.
    pub address: Ip4,
    /// How many bits its network shares.
    pub len: u8,
    /// The reply for each of our ciphers.
    pub replies: ReplyAhead,
}

/// What is made, before the first change of a step, for a client that may be established in it.
#[derive(Drop)]
pub struct Ahead {
    /// Its name.
    pub name: Text,
    /// What its file says.
    pub file: Ccd,
    /// Its address; None where no address is left.
    pub lease: Option<LeaseAhead>,
}
