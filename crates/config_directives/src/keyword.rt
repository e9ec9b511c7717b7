//! The table of directives: which there are, and what is said of each.

ghost use Rattle.std.specs.Prelude.{◌≡◌, find, bytes_eq};
ghost use Rattle.std.specs.Option.{option_or};
ghost use Rattle.config_directives.specs.Items.{arguments_of};
ghost use Rattle.config_directives.specs.Table.{client_keywords, keyword_of, link_keywords, row_at, session_keywords, table};

use crate::arguments::{
    cipher_policy, device_name, is_console, is_subnet, is_udp, keepalive_times, local_address,
    push_text, remote_end, replay_window, route_network, server_network,
};
use crate::item::Item;
use crate::numbers::NumberDirective;
use vpn_base::Role;

/// A directive of the table.
#[derive(Clone, Copy, Debug, PartialEq, Eq)]
pub enum Keyword {
    /// `server`
    Server,
    /// `client`
    Client,
    /// `dev`
    Dev,
    /// `topology`
    Topology,
    /// `proto`
    Proto,
    /// `port`
    Port,
    /// `local`
    Local,
    /// `remote`
    Remote,
    /// `tls-crypt`
    TlsCrypt,
    /// `keepalive`
    Keepalive,
    /// `client-config-dir`
    ClientConfigDir,
    /// `ccd-exclusive`
    CcdExclusive,
    /// `client-to-client`
    ClientToClient,
    /// `duplicate-cn`
    DuplicateCn,
    /// `max-clients`
    MaxClients,
    /// `push`
    Push,
    /// `route`
    Route,
    /// `data-ciphers`
    DataCiphers,
    /// `reneg-sec`
    RenegSec,
    /// `tran-window`
    TranWindow,
    /// `hand-window`
    HandWindow,
    /// `tls-timeout`
    TlsTimeout,
    /// `replay-window`
    ReplayWindow,
    /// `management`
    Management,
}

/// The directives of the table, in its order.
#[tactic(auto, unfolding(crate::specs::Table::table, crate::specs::Table::link_keywords, crate::specs::Table::client_keywords, crate::specs::Table::session_keywords))]
pub fn table() -> [Keyword; 24]
    ensures { result ≡ table }
{
    [
        Keyword::Server,
        Keyword::Client,
        Keyword::Dev,
        Keyword::Topology,
        Keyword::Proto,
        Keyword::Port,
        Keyword::Local,
        Keyword::Remote,
        Keyword::TlsCrypt,
        Keyword::Keepalive,
        Keyword::ClientConfigDir,
        Keyword::CcdExclusive,
        Keyword::ClientToClient,
        Keyword::DuplicateCn,
        Keyword::MaxClients,
        Keyword::Push,
        Keyword::Route,
        Keyword::DataCiphers,
        Keyword::RenegSec,
        Keyword::TranWindow,
        Keyword::HandWindow,
        Keyword::TlsTimeout,
        Keyword::ReplayWindow,
        Keyword::Management,
    ]
}

#[tactic(auto, unfolding(crate::specs::Table::link_keywords))]
fn link_keyword(name: &[u8]) -> Option<Keyword>
    ensures { result ≡ find (λ keyword. bytes_eq name.now (row_at keyword).name) link_keywords }
{
    if name == b"server".as_slice() {
        return Some(Keyword::Server);
    }
    if name == b"client".as_slice() {
        return Some(Keyword::Client);
    }
    if name == b"dev".as_slice() {
        return Some(Keyword::Dev);
    }
    if name == b"topology".as_slice() {
        return Some(Keyword::Topology);
    }
    if name == b"proto".as_slice() {
        return Some(Keyword::Proto);
    }
    if name == b"port".as_slice() {
        return Some(Keyword::Port);
    }
    if name == b"local".as_slice() {
        return Some(Keyword::Local);
    }
    if name == b"remote".as_slice() {
        return Some(Keyword::Remote);
    }
    if name == b"tls-crypt".as_slice() {
        return Some(Keyword::TlsCrypt);
    }
    None
}

#[tactic(auto, unfolding(crate::specs::Table::client_keywords))]
fn client_keyword(name: &[u8]) -> Option<Keyword>
    ensures { result ≡ find (λ keyword. bytes_eq name.now (row_at keyword).name) client_keywords }
{
    if name == b"keepalive".as_slice() {
        return Some(Keyword::Keepalive);
    }
    if name == b"client-config-dir".as_slice() {
        return Some(Keyword::ClientConfigDir);
    }
    if name == b"ccd-exclusive".as_slice() {
        return Some(Keyword::CcdExclusive);
    }
    if name == b"client-to-client".as_slice() {
        return Some(Keyword::ClientToClient);
    }
    if name == b"duplicate-cn".as_slice() {
        return Some(Keyword::DuplicateCn);
    }
    if name == b"max-clients".as_slice() {
        return Some(Keyword::MaxClients);
    }
    if name == b"push".as_slice() {
        return Some(Keyword::Push);
    }
    None
}

#[tactic(auto, unfolding(crate::specs::Table::session_keywords))]
fn session_keyword(name: &[u8]) -> Option<Keyword>
    ensures { result ≡ find (λ keyword. bytes_eq name.now (row_at keyword).name) session_keywords }
{
    if name == b"route".as_slice() {
        return Some(Keyword::Route);
    }
    if name == b"data-ciphers".as_slice() {
        return Some(Keyword::DataCiphers);
    }
    if name == b"reneg-sec".as_slice() {
        return Some(Keyword::RenegSec);
    }
    if name == b"tran-window".as_slice() {
        return Some(Keyword::TranWindow);
    }
    if name == b"hand-window".as_slice() {
        return Some(Keyword::HandWindow);
    }
    if name == b"tls-timeout".as_slice() {
        return Some(Keyword::TlsTimeout);
    }
    if name == b"replay-window".as_slice() {
        return Some(Keyword::ReplayWindow);
    }
    if name == b"management".as_slice() {
        return Some(Keyword::Management);
    }
    None
}

/// The directive of a name.
pub fn keyword_of(name: &[u8]) -> Option<Keyword>
    ensures { result ≡ keyword_of name.now }
{
    match link_keyword(name) {
        Some(keyword) => Some(keyword),
        None => match client_keyword(name) {
            Some(keyword) => Some(keyword),
            None => session_keyword(name),
        },
    }
}

impl Keyword {
    /// The side that the directive is for; None for both.
    pub fn side(self) -> Option<Role>
        ensures { result ≡ (row_at self).side }
    {
        match self {
            Keyword::Server
            | Keyword::Keepalive
            | Keyword::ClientConfigDir
            | Keyword::CcdExclusive
            | Keyword::ClientToClient
            | Keyword::DuplicateCn
            | Keyword::MaxClients
            | Keyword::Push => Some(Role::Server),
            Keyword::Client | Keyword::Remote => Some(Role::Client),
            Keyword::Dev
            | Keyword::Topology
            | Keyword::Proto
            | Keyword::Port
            | Keyword::Local
            | Keyword::TlsCrypt
            | Keyword::Route
            | Keyword::DataCiphers
            | Keyword::RenegSec
            | Keyword::TranWindow
            | Keyword::HandWindow
            | Keyword::TlsTimeout
            | Keyword::ReplayWindow
            | Keyword::Management => None,
        }
    }

    /// Whether the directive may stand more than once.
    pub fn may_repeat(self) -> bool
        ensures { result ≡ (row_at self).repeats }
    {
        match self {
            Keyword::Push | Keyword::Remote | Keyword::Route => true,
            Keyword::Server
            | Keyword::Client
            | Keyword::Dev
            | Keyword::Topology
            | Keyword::Proto
            | Keyword::Port
            | Keyword::Local
            | Keyword::TlsCrypt
            | Keyword::Keepalive
            | Keyword::ClientConfigDir
            | Keyword::CcdExclusive
            | Keyword::ClientToClient
            | Keyword::DuplicateCn
            | Keyword::MaxClients
            | Keyword::DataCiphers
            | Keyword::RenegSec
            | Keyword::TranWindow
            | Keyword::HandWindow
            | Keyword::TlsTimeout
            | Keyword::ReplayWindow
            | Keyword::Management => false,
        }
    }

    /// Whether the words behind the name are arguments of the directive.
    pub fn takes(self, item: &Item) -> bool
        ensures { result ≡ (row_at self).takes (arguments_of item.now) }
    {
        match self {
            Keyword::Server => server_network(item).is_some(),
            Keyword::Client => item.has_no_argument(),
            Keyword::Dev => device_name(item).is_some(),
            Keyword::Topology => is_subnet(item),
            Keyword::Proto => is_udp(item),
            Keyword::Port => NumberDirective::Port.read(item).is_some(),
            Keyword::Local => local_address(item).is_some(),
            Keyword::Remote => remote_end(item).is_some(),
            Keyword::TlsCrypt => item.one().is_some(),
            Keyword::Keepalive => keepalive_times(item).is_some(),
            Keyword::ClientConfigDir => item.one().is_some(),
            Keyword::CcdExclusive => item.has_no_argument(),
            Keyword::ClientToClient => item.has_no_argument(),
            Keyword::DuplicateCn => item.has_no_argument(),
            Keyword::MaxClients => NumberDirective::MaxClients.read(item).is_some(),
            Keyword::Push => push_text(item).is_some(),
            Keyword::Route => route_network(item).is_some(),
            Keyword::DataCiphers => cipher_policy(item).is_some(),
            Keyword::RenegSec => NumberDirective::RenegSec.read(item).is_some(),
            Keyword::TranWindow => NumberDirective::TranWindow.read(item).is_some(),
            Keyword::HandWindow => NumberDirective::HandWindow.read(item).is_some(),
            Keyword::TlsTimeout => NumberDirective::TlsTimeout.read(item).is_some(),
            Keyword::ReplayWindow => replay_window(item).is_some(),
            Keyword::Management => is_console(item),
        }
    }
}
