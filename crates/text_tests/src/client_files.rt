//! What the file of a client says, and its first fault.

use ccd_files::read_ccd;
use vpn_base::{Ip4, Or, Prefix};
use vpn_text::ConfigKind;

#[test]
fn what_a_file_says(rt: HostRuntime) {
    let text =
        b"# alice\r\niroute 10.10.0.1 ; one host\nifconfig-push 10.8.0.9 255.255.255.0\n\npush ping\\ 5\npush-reset";
    let Ok(ccd) = read_ccd(rt.alloc(), text) else {
        assert!(rt; false);
        return;
    };
    assert_eq!(rt; ccd.address, Some((Ip4(0x0A08_0009), 24)));
    assert_eq!(rt; ccd.iroutes.count(), 1);
    assert_eq!(rt; ccd.iroutes.item(0), Prefix::new(Ip4(0x0A0A_0001), 32));
    assert_eq!(rt; ccd.pushes.count(), 1);
    match ccd.pushes.item(0) {
        Some(text) => assert_eq!(rt; text.as_slice(), b"ping 5".as_slice()),
        None => assert!(rt; false),
    }
    assert!(rt; ccd.reset && !ccd.disable);
}

#[test]
fn a_fault(rt: HostRuntime) {
    match read_ccd(rt.alloc(), b"disable\niroute 10.9.0.1 255.255.0.0") {
        Err(Or::Why(fault)) => {
            assert_eq!(rt; fault.line, 2);
            assert_eq!(rt; fault.kind, ConfigKind::Arguments);
            assert_eq!(rt; fault.word.as_slice(), b"iroute".as_slice());
        }
        _ => assert!(rt; false),
    }
}
