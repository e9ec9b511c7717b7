//! What comes to a core, one event at a time.

ghost use Rattle.std.specs.Prelude.{◌≡◌, IfOk};

use std::alloc::Global;
use vpn_base::{Addr, Bytes, Cid, Conn, Draw, Moment, NoMemory, Text};

/// One event, with its moment and the random bytes that it brings.
#[derive(Drop)]
pub struct Event {
    /// When it came, in milliseconds.
    pub now: Moment,
    /// Random bytes for what the event may begin.
    pub draw: Draw,
    /// What came.
    pub kind: Kind,
}

impl Event {
    // The same event, with bytes of its own.
    pub(crate) fn copy(&self, alloc: Global) -> Result<Event, NoMemory>
        ensures { IfOk result (λ e. e ≡ self.entry.now) }
    {
        let kind = self.kind.copy(alloc)?;
        Ok(Event {
            now: self.now,
            draw: self.draw,
            kind,
        })
    }
}

/// What is answered to a question for a client's file.
#[derive(Drop)]
pub enum FileAnswer {
    /// The text of the file.
    Held(Bytes),
    /// There is no file of that name.
    Missing,
    /// The file could not be read.
    Failed,
}

impl FileAnswer {
    fn copy(&self, alloc: Global) -> Result<FileAnswer, NoMemory>
        ensures { IfOk result (λ a. a ≡ self.now) }
    {
        match self {
            FileAnswer::Held(bytes) => Ok(FileAnswer::Held(copy_of(alloc, bytes)?)),
            FileAnswer::Missing => Ok(FileAnswer::Missing),
            FileAnswer::Failed => Ok(FileAnswer::Failed),
        }
    }
}

/// What an event is.
#[derive(Drop)]
pub enum Kind {
    /// A datagram of the line.
    Datagram {
        /// Who sent it.
        from: Addr,
        /// Its bytes.
        bytes: Bytes,
    },
    /// Text of the TLS engine that goes to the other end of a connection.
    EngineText {
        /// The engine connection.
        conn: Conn,
        /// The text.
        bytes: Bytes,
    },
    /// Plain text that the TLS engine has received on a connection.
    EnginePlain {
        /// The engine connection.
        conn: Conn,
        /// The plain text.
        bytes: Bytes,
    },
    /// The TLS engine has checked the other end of a connection.
    EngineUp {
        /// The engine connection.
        conn: Conn,
        /// The common name of the other end's certificate.
        name: Text,
    },
    /// The TLS engine has ended a connection.
    EngineDown {
        /// The engine connection.
        conn: Conn,
    },
    /// An inner packet of the packet device.
    DeviceIn {
        /// Its bytes.
        bytes: Bytes,
    },
    /// The packet device takes a packet.
    DeviceReady,
    /// The answer to a question for a client's file.
    File {
        /// The client.
        cid: Cid,
        /// The answer.
        answer: FileAnswer,
    },
    /// A line of the management interface, without its end.
    Line {
        /// Its bytes.
        bytes: Bytes,
    },
    /// Time has passed.
    Tick,
    /// The program is to end.
    Halt,
}

impl Kind {
    fn copy(&self, alloc: Global) -> Result<Kind, NoMemory>
        ensures { IfOk result (λ k. k ≡ self.now) }
    {
        match self {
            Kind::Datagram { from, bytes } => Ok(Kind::Datagram {
                from: *from,
                bytes: copy_of(alloc, bytes)?,
            }),
            Kind::EngineText { conn, bytes } => Ok(Kind::EngineText {
                conn: *conn,
                bytes: copy_of(alloc, bytes)?,
            }),
            Kind::EnginePlain { conn, bytes } => Ok(Kind::EnginePlain {
                conn: *conn,
                bytes: copy_of(alloc, bytes)?,
            }),
            Kind::EngineUp { conn, name } => Ok(Kind::EngineUp {
                conn: *conn,
                name: Text::copy(alloc, name.as_slice())?,
            }),
            Kind::EngineDown { conn } => Ok(Kind::EngineDown { conn: *conn }),
            Kind::DeviceIn { bytes } => Ok(Kind::DeviceIn {
                bytes: copy_of(alloc, bytes)?,
            }),
            Kind::DeviceReady => Ok(Kind::DeviceReady),
            Kind::File { cid, answer } => Ok(Kind::File {
                cid: *cid,
                answer: answer.copy(alloc)?,
            }),
            Kind::Line { bytes } => Ok(Kind::Line {
                bytes: copy_of(alloc, bytes)?,
            }),
            Kind::Tick => Ok(Kind::Tick),
            Kind::Halt => Ok(Kind::Halt),
        }
    }
}

fn copy_of(alloc: Global, bytes: &Bytes) -> Result<Bytes, NoMemory>
    ensures { IfOk result (λ b. b ≡ bytes.now) }
{
    Bytes::copy(alloc, bytes.as_slice())
}
