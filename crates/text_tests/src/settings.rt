//! Files that are accepted with their canonical text, and a fault with its line and word.

use ovpn_config::{
    read_config, reads_config_again, settings_are_bounded, settings_are_of_the_front,
    settings_have_given_numbers, write_config,
};
use std::alloc::Global;
use vpn_base::Or;
use vpn_text::{ConfigFault, ConfigKind};

const SERVER_FILE: &[u8; 158] =
    b"dev tun\nproto udp\nport 1194\nserver 10.8.0.0 255.255.255.0\ntopology subnet\n\
keepalive 10 120\ntls-crypt ta.key\nca ca.crt\ncert s.crt\nkey s.key\npersist-key\n\
verb 3\n";

const SERVER_TEXT: &[u8; 274] =
    b"server 10.8.0.0 255.255.255.0\ndev tun\ntopology subnet\nproto udp\nport 1194\n\
tls-crypt ta.key\nkeepalive 10 120\nmax-clients 1024\n\
data-ciphers AES-256-GCM:AES-128-GCM\nreneg-sec 3600\ntran-window 3600\nhand-window 60\n\
tls-timeout 2\nreplay-window 64 15\nca ca.crt\ncert s.crt\nkey s.key\n";

const CLIENT_FILE: &[u8; 115] =
    b"client\ndev tun\nproto udp\nremote 192.0.2.1 1194\nnobind\nremote-cert-tls server\n\
<tls-crypt>\n# a key\n0123\n</tls-crypt>\n";

const CLIENT_TEXT: &[u8; 252] =
    b"client\ndev tun\ntopology subnet\nproto udp\nport 1194\nremote 192.0.2.1 1194\n\
<tls-crypt>\n# a key\n0123\n</tls-crypt>\ndata-ciphers AES-256-GCM:AES-128-GCM\n\
reneg-sec 3600\ntran-window 3600\nhand-window 60\ntls-timeout 2\nreplay-window 64 15\n\
remote-cert-tls server\n";

// The canonical text of a file.
fn canonical_of(alloc: Global, file: &[u8]) -> Result<Vec<u8>, Or<ConfigFault>> {
    match read_config(alloc, file) {
        Ok(settings) => Ok(write_config(alloc, &settings)?.into_vec()),
        Err(e) => Err(e),
    }
}

#[test]
fn canonical_texts(rt: HostRuntime) {
    reads_config_again();
    settings_are_bounded();
    settings_are_of_the_front();
    settings_have_given_numbers();
    match canonical_of(rt.alloc(), SERVER_FILE) {
        Ok(written) => assert_eq!(rt; written.as_slice(), SERVER_TEXT.as_slice()),
        Err(_) => assert!(rt; false),
    }
}

#[test]
fn settings_and_their_copy(rt: HostRuntime) {
    let Ok(settings) = read_config(rt.alloc(), CLIENT_FILE) else {
        assert!(rt; false);
        return;
    };
    let Ok(copy) = settings.copy(rt.alloc()) else {
        assert!(rt; false);
        return;
    };
    match write_config(rt.alloc(), &copy) {
        Ok(text) => assert_eq!(rt; text.as_slice(), CLIENT_TEXT.as_slice()),
        Err(_) => assert!(rt; false),
    }
}

#[test]
fn a_fault(rt: HostRuntime) {
    let text = b"client\ndev tun\nverb 3\nserver 10.8.0.0 255.255.255.0\n";
    match read_config(rt.alloc(), text) {
        Err(Or::Why(fault)) => {
            assert_eq!(rt; fault.line, 4);
            assert_eq!(rt; fault.kind, ConfigKind::Side);
            assert_eq!(rt; fault.word.as_slice(), b"server".as_slice());
        }
        _ => assert!(rt; false),
    }
}
