//! What a configuration file sets.

ghost use Rattle.std.specs.Prelude.{◌≡◌, IfOk};

use std::alloc::Global;
use vpn_base::{
    Addr, Bytes, Ip4, NoMemory, Policy, Prefix, Role, RouteList, Text, TextList, Timers,
};

/// Where the static key for tls-crypt is.
#[derive(Drop)]
pub enum KeyPlace {
    /// In the file of this name.
    Named(Text),
    /// In the configuration itself: these are the lines of its block, each ended by a line feed.
    Inline(Bytes),
}

/// The settings of a server or of a client.
#[derive(Drop)]
pub struct Settings {
    /// Which end of the tunnel this is.
    pub role: Role,
    /// The name of the packet device (`dev`); it begins with `tun`.
    pub dev: Text,
    /// The address to listen on (`local`); every one where there is none.
    pub local: Option<Ip4>,
    /// The UDP port (`port`).
    pub port: u16,
    /// The server to connect to (`remote`), at a client.
    pub remote: Option<Addr>,
    /// The network that the server gives addresses from (`server`), at a server.
    pub net: Option<Prefix>,
    /// Seconds from one ping to the next, and seconds of silence after which a tunnel restarts
    /// (`keepalive`).
    pub keepalive: Option<(u32, u32)>,
    /// The folder of the files for single clients (`client-config-dir`).
    pub ccd: Option<Text>,
    /// Clients with no such file are turned away (`ccd-exclusive`).
    pub exclusive: bool,
    /// Clients may reach each other (`client-to-client`).
    pub between: bool,
    /// Several clients may have one common name (`duplicate-cn`).
    pub duplicate: bool,
    /// The greatest number of clients at a time (`max-clients`).
    pub max_clients: u32,
    /// The options pushed to each client (`push`), in order.
    pub pushes: TextList,
    /// The networks that the packet device routes into the tunnel (`route`), in order.
    pub routes: RouteList,
    /// The ciphers for data packets (`data-ciphers`).
    pub ciphers: Policy,
    /// The timers, and the window against replayed packets.
    pub timers: Timers,
    /// Where the key for tls-crypt is (`tls-crypt`).
    pub key: KeyPlace,
    /// Where the management console listens (`management`): its two words, as the canonical text
    /// has them.
    pub console: Option<Text>,
    /// The directives for the TLS engine in order, each as the canonical text has it.
    pub engine: TextList,
}

impl KeyPlace {
    fn copy(&self, alloc: Global) -> Result<KeyPlace, NoMemory>
        ensures { IfOk result (λ place. place ≡ self.now) }
    {
        match self {
            KeyPlace::Named(name) => Ok(KeyPlace::Named(Text::copy(alloc, name.as_slice())?)),
            KeyPlace::Inline(bytes) => Ok(KeyPlace::Inline(Bytes::copy(alloc, bytes.as_slice())?)),
        }
    }
}

// A copy of a text that may be there.
fn copy_if_there(alloc: Global, text: &Option<Text>) -> Result<Option<Text>, NoMemory>
    ensures { IfOk result (λ copy. copy ≡ text.now) }
{
    match text {
        None => Ok(None),
        Some(text) => Ok(Some(Text::copy(alloc, text.as_slice())?)),
    }
}

impl Settings {
    /// The same settings once more.
    pub fn copy(&self, alloc: Global) -> Result<Settings, NoMemory>
        ensures { IfOk result (λ settings. settings ≡ self.now) }
    {
        Ok(Settings {
            role: self.role,
            dev: Text::copy(alloc, self.dev.as_slice())?,
            local: self.local,
            port: self.port,
            remote: self.remote,
            net: self.net,
            keepalive: self.keepalive,
            ccd: copy_if_there(alloc, &self.ccd)?,
            exclusive: self.exclusive,
            between: self.between,
            duplicate: self.duplicate,
            max_clients: self.max_clients,
            pushes: self.pushes.copy(alloc)?,
            routes: self.routes.copy(alloc)?,
            ciphers: self.ciphers,
            timers: self.timers,
            key: self.key.copy(alloc)?,
            console: copy_if_there(alloc, &self.console)?,
            engine: self.engine.copy(alloc)?,
        })
    }
}
