//! Texts with no number and no name in them.

ghost use Rattle.std.specs.Prelude.{◌≡◌};

use crate::commands::CommandFault;

/// A line of an answer that is always the same.
#[derive(Clone, Copy, Debug, PartialEq, Eq)]
pub enum FixedLine {
    /// The commands, for `help`.
    Commands,
    /// The version, for `version`.
    Version,
    /// The first line of a status.
    Title,
    /// What the fields of a client are, in a status.
    ClientHeader,
    /// What the fields of a route are, in a status.
    RouteHeader,
    /// The end of an answer of several lines.
    End,
    /// The client of a `client-kill` was ended.
    ClientKilled,
    /// There is no such client.
    ClientNotKilled,
    /// The interval of byte counts is another one.
    IntervalChanged,
    /// The program ends.
    SignalThrown,
    /// A client has no such command.
    NotOnClient,
}

impl FixedLine {
    ghost use Rattle.mgmt_lines.specs.Texts.{fixed_text};

    /// The text of the line, without its end.
    pub fn text(self) -> &'static [u8]
        ensures { result.now ≡ fixed_text self }
    {
        match self {
            FixedLine::Commands => {
                b"Commands: bytecount client-kill help kill load-stats signal status version"
            }
            FixedLine::Version => b"OpenVPN Version: vpn profile 2.6",
            FixedLine::Title => b"TITLE,vpn",
            FixedLine::ClientHeader => {
                b"HEADER,CLIENT_LIST,Name,Real,Virtual,In,Out,Since,Cid,Peer"
            }
            FixedLine::RouteHeader => b"HEADER,ROUTING_TABLE,Prefix,Name,Real",
            FixedLine::End => b"END",
            FixedLine::ClientKilled => b"SUCCESS: client-kill command succeeded",
            FixedLine::ClientNotKilled => b"ERROR: client-kill command failed",
            FixedLine::IntervalChanged => b"SUCCESS: bytecount interval changed",
            FixedLine::SignalThrown => b"SUCCESS: signal SIGTERM thrown",
            FixedLine::NotOnClient => b"ERROR: not available on a client",
        }
    }
}

impl CommandFault {
    ghost use Rattle.mgmt_lines.specs.Texts.{fault_text};

    /// The text that answers the line, without its end.
    pub fn text(self) -> &'static [u8]
        ensures { result.now ≡ fault_text self }
    {
        match self {
            CommandFault::Unknown => b"ERROR: unknown command",
            CommandFault::Arguments => b"ERROR: bad arguments",
            CommandFault::TooLong => b"ERROR: command too long",
        }
    }
}
