//! How an outbox keeps effects.

use crate::notes::Note;
use vpn_base::{Addr, Cid, Conn, Ip4, Role, RouteList, TextList};

// Where bytes lie in the store of an outbox.
#[derive(Clone, Copy)]
pub(crate) struct Span {
    pub(crate) start: usize,
    pub(crate) len: usize,
}

// A configuration of the packet device.
#[derive(Drop)]
pub(crate) struct Setup {
    pub(crate) address: Ip4,
    pub(crate) len: u8,
    pub(crate) gateway: Option<Ip4>,
    pub(crate) routes: RouteList,
    pub(crate) rest: TextList,
}

// An effect, with the place of its bytes.
#[derive(Drop)]
pub(crate) enum Kept {
    Wire { to: Addr, span: Span },
    EngineOpen { conn: Conn, role: Role },
    EnginePut { conn: Conn, span: Span },
    EngineWrite { conn: Conn, span: Span },
    EngineClose { conn: Conn },
    Device { span: Span },
    Configure(Setup),
    Ask { cid: Cid, span: Span },
    Say { span: Span },
    Report(Note),
    Stop,
}

// A control datagram, with the place of its bytes.
#[derive(Clone, Copy)]
pub(crate) struct Staged {
    pub(crate) to: Addr,
    pub(crate) span: Span,
}
