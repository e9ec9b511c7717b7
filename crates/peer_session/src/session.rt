//! The session of one client.

use session_state::SessionState;

/// The session of one client with all its key sessions, whatever its control packets are wrapped by.
#[derive(Drop)]
pub struct PeerSession<W: Drop> {
    pub(crate) state: SessionState<W>,
}
