//! Names that are not in the table of directives: those for the TLS engine, those without effect,
//! those that are refused, and those of blocks.

ghost use Rattle.std.specs.Prelude.{◌≡◌};
ghost use Rattle.config_directives.specs.Names.{block_names, engine_names, is_among, is_idle, is_refused, outside_names, process_names, session_names, tunnel_names};

/// Whether a directive is passed to the TLS engine unread.
#[tactic(auto, unfolding(crate::specs::Names::engine_names))]
pub fn is_for_engine(name: &[u8]) -> bool
    ensures { result ≡ is_among engine_names name.now }
{
    name == b"ca".as_slice()
        || name == b"cert".as_slice()
        || name == b"key".as_slice()
        || name == b"dh".as_slice()
        || name == b"remote-cert-tls".as_slice()
        || name == b"verify-x509-name".as_slice()
        || name == b"tls-version-min".as_slice()
        || name == b"crl-verify".as_slice()
        || name == b"tls-cipher".as_slice()
        || name == b"tls-ciphersuites".as_slice()
}

/// Whether a block may have the name.
#[tactic(auto, unfolding(crate::specs::Names::block_names))]
pub fn is_for_block(name: &[u8]) -> bool
    ensures { result ≡ is_among block_names name.now }
{
    name == b"tls-crypt".as_slice()
        || name == b"ca".as_slice()
        || name == b"cert".as_slice()
        || name == b"key".as_slice()
        || name == b"dh".as_slice()
}

// Names of the process and its logs.
#[tactic(auto, unfolding(crate::specs::Names::process_names))]
fn is_of_process(name: &[u8]) -> bool
    ensures { result ≡ is_among process_names name.now }
{
    name == b"verb".as_slice()
        || name == b"mute".as_slice()
        || name == b"status".as_slice()
        || name == b"log".as_slice()
        || name == b"log-append".as_slice()
        || name == b"daemon".as_slice()
        || name == b"writepid".as_slice()
        || name == b"user".as_slice()
        || name == b"group".as_slice()
        || name == b"persist-key".as_slice()
        || name == b"persist-tun".as_slice()
        || name == b"ifconfig-pool-persist".as_slice()
}

// Names of the session.
#[tactic(auto, unfolding(crate::specs::Names::session_names))]
fn is_of_session(name: &[u8]) -> bool
    ensures { result ≡ is_among session_names name.now }
{
    name == b"nobind".as_slice()
        || name == b"resolv-retry".as_slice()
        || name == b"float".as_slice()
        || name == b"sndbuf".as_slice()
        || name == b"rcvbuf".as_slice()
        || name == b"cipher".as_slice()
        || name == b"data-ciphers-fallback".as_slice()
        || name == b"auth".as_slice()
        || name == b"auth-nocache".as_slice()
        || name == b"mute-replay-warnings".as_slice()
        || name == b"pull".as_slice()
        || name == b"tls-client".as_slice()
        || name == b"tls-server".as_slice()
}

/// Whether a directive is accepted without effect.
pub fn is_idle(name: &[u8]) -> bool
    ensures { result ≡ is_idle name.now }
{
    is_of_process(name) || is_of_session(name)
}

// Names of the tunnel's packets.
#[tactic(auto, unfolding(crate::specs::Names::tunnel_names))]
fn is_of_tunnel(name: &[u8]) -> bool
    ensures { result ≡ is_among tunnel_names name.now }
{
    name == b"compress".as_slice()
        || name == b"comp-lzo".as_slice()
        || name == b"fragment".as_slice()
        || name == b"mssfix".as_slice()
        || name == b"tun-mtu".as_slice()
        || name == b"tls-auth".as_slice()
        || name == b"tls-crypt-v2".as_slice()
        || name == b"secret".as_slice()
        || name == b"explicit-exit-notify".as_slice()
        || name == b"server-bridge".as_slice()
        || name == b"server-ipv6".as_slice()
        || name == b"multihome".as_slice()
}

// Names of what stands outside the tunnel.
#[tactic(auto, unfolding(crate::specs::Names::outside_names))]
fn is_of_outside(name: &[u8]) -> bool
    ensures { result ≡ is_among outside_names name.now }
{
    name == b"auth-user-pass".as_slice()
        || name == b"plugin".as_slice()
        || name == b"up".as_slice()
        || name == b"down".as_slice()
        || name == b"script-security".as_slice()
        || name == b"client-connect".as_slice()
        || name == b"client-disconnect".as_slice()
        || name == b"http-proxy".as_slice()
        || name == b"socks-proxy".as_slice()
}

/// Whether a directive or a block is refused.
pub fn is_refused(name: &[u8]) -> bool
    ensures { result ≡ is_refused name.now }
{
    is_of_tunnel(name) || is_of_outside(name)
}
