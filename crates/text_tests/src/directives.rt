//! The directives of a file with their lines and arguments, and a row of the table.

use config_directives::{
    Directive, Item, Keyword, NumberDirective, cipher_policy, default_window, first_named,
    is_for_engine, is_given, keepalive_times, keyword_of, local_address, push_text,
    read_directives, remote_end, replay_window, route_network, server_network, table,
};
use vpn_base::{Cipher, Or, Policy, Role};
use vpn_text::ConfigKind;

const FILE: &[u8; 243] =
    b"# each kind of arguments\nserver 10.8.0.0 255.255.255.0\nlocal 192.0.2.9\n\
remote 192.0.2.1 443 udp\nkeepalive 10 120\npush \"route 10.9.0.0\"\n\
route 10.10.0.0\ndata-ciphers AES-128-GCM\n\
replay-window 128\nmax-clients 7\n<ca>\none\n two \n</ca>\nccd-exclusive\n";

// Whether the arguments of the file's directives are the values that stand there.
fn are_read(directives: &[Directive]) -> Option<bool> {
    let server = server_network(first_named(directives, b"server")?)?;
    let local = local_address(first_named(directives, b"local")?)?;
    let (remote, port) = remote_end(first_named(directives, b"remote")?)?;
    let times = keepalive_times(first_named(directives, b"keepalive")?)?;
    let pushed = push_text(first_named(directives, b"push")?)?;
    let route = route_network(first_named(directives, b"route")?)?;
    let policy = cipher_policy(first_named(directives, b"data-ciphers")?)?;
    let window = replay_window(first_named(directives, b"replay-window")?)?;
    let number = NumberDirective::MaxClients;
    let clients = number.read(first_named(directives, number.name())?)?;
    Some(
        server.len() == 24
            && local.0 == 0xC000_0209
            && remote.0 == 0xC000_0201
            && port == Some(443)
            && times == (10, 120)
            && pushed == b"route 10.9.0.0".as_slice()
            && route.len() == 32
            && policy
                == Policy::Choose {
                    first: Cipher::Aes128Gcm,
                    second: None,
                }
            && window == (128, default_window().1)
            && clients == 7,
    )
}

// Whether the words behind the names are found by their number.
fn are_counted(directives: &[Directive]) -> Option<bool> {
    let one = first_named(directives, b"max-clients")?.one()?;
    let (ping, restart) = first_named(directives, b"keepalive")?.two()?;
    let (_, _, proto) = first_named(directives, b"remote")?.three()?;
    Some(
        first_named(directives, b"ccd-exclusive")?.has_no_argument()
            && one == b"7".as_slice()
            && ping == b"10".as_slice()
            && restart == b"120".as_slice()
            && proto == b"udp".as_slice(),
    )
}

#[test]
fn directives_of_a_file(rt: HostRuntime) {
    let Ok(file) = read_directives(rt.alloc(), FILE) else {
        assert!(rt; false);
        return;
    };
    assert_eq!(rt; file.last, 15);
    assert_eq!(rt; file.directives.len(), 11);
    assert!(rt; is_given(&file.directives, b"route"));
    assert_eq!(rt; are_read(&file.directives), Some(true));
    assert_eq!(rt; are_counted(&file.directives), Some(true));
    match first_named(&file.directives, b"ca") {
        Some(
            Item::Block {
                bytes: Some(bytes),
                ..
            },
        ) => assert_eq!(rt; bytes.as_slice(), b"one\n two \n".as_slice()),
        _ => assert!(rt; false),
    }
    match (
        keyword_of(b"max-clients"),
        first_named(&file.directives, b"max-clients"),
    ) {
        (Some(keyword), Some(item)) => {
            assert_eq!(rt; item.name(), b"max-clients".as_slice());
            assert!(rt; keyword.takes(item));
        }
        _ => assert!(rt; false),
    }
}

#[test]
fn rows_and_faults(rt: HostRuntime) {
    assert!(rt; is_for_engine(b"tls-cipher"));
    assert_eq!(rt; table().len(), 24);
    assert_eq!(rt; Keyword::Push.side(), Some(Role::Server));
    assert!(rt; Keyword::Push.may_repeat());
    assert_eq!(rt; NumberDirective::Port.range().otherwise, 1_194);
    match read_directives(rt.alloc(), b"\ndev tun\ndev tun\nPort 1\n") {
        Err(Or::Why(fault)) => {
            assert_eq!(rt; fault.line, 3);
            assert_eq!(rt; fault.kind, ConfigKind::Repeated);
            assert_eq!(rt; fault.word.as_slice(), b"dev".as_slice());
        }
        _ => assert!(rt; false),
    }
}
