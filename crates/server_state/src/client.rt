//! What a core keeps of a client.

use ccd_files::Ccd;
use vpn_base::{Ip4, Moment};

/// What is known of a client's file.
#[derive(Drop)]
pub enum ClientFile {
    /// It was not looked for.
    Unasked,
    /// The file of the client's name was asked for.
    AwaitsOwn,
    /// The file for all clients that have none was asked for.
    AwaitsDefault,
    /// This is what it says.
    Known(Ccd),
}

/// A client beside what it is found by, with its session.
#[derive(Drop)]
pub struct ClientState<S> {
    /// Its session.
    pub session: S,
    /// Its file.
    pub file: ClientFile,
    /// Its address in the tunnel and the moment of its establishing, once it is established.
    pub established: Option<(Ip4, Moment)>,
    /// The moment of its last fresh packet, or of its admission.
    pub heard: Moment,
    /// The moment at which the last packet was sealed to it, or of its establishing, or of its admission.
    pub sealed_at: Moment,
    /// How many bytes its data packets had that opened fresh.
    pub bytes_in: u64,
    /// How many bytes the data packets had that were sealed to it.
    pub bytes_out: u64,
}
