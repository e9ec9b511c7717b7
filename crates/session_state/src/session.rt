//! The session of one client.

use crate::name::ClientName;
use control_link::Envelope;
use key_sessions::Slots;
use peer_lines::{SessionBlank, SessionChannels};
use std::alloc::Global;
use vpn_base::{Moment, Role, Sid, Timers};

/// The session of one client with all its key sessions, whatever its control packets are wrapped by.
#[derive(Drop)]
pub struct SessionState<W: Drop> {
    /// What memory is taken from.
    pub alloc: Global,
    /// The role of this end.
    pub role: Role,
    /// The timers of the client.
    pub timers: Timers,
    /// The session id of this end.
    pub own: Sid,
    /// The wrapping of its control packets.
    pub envelope: Envelope<W>,
    /// The other end's session id, once it is fixed.
    pub remote: Option<Sid>,
    /// The common name, once it is known.
    pub name: Option<ClientName>,
    /// Whether the client asked to be established without a push request.
    pub asks_push: bool,
    /// Its key sessions, with what belongs to each.
    pub slots: Slots<SessionChannels>,
    /// The memory of the next key session, where it was taken ahead.
    pub blank: Option<SessionBlank>,
    /// A control link has ended, so the session is over.
    pub is_over: bool,
    /// The moment at which it last closed what may no longer be used.
    pub since: Moment,
}
