//! Addresses with a port.

use address_text::{read_addr, write_addr};
use std::test::Fail;
use vpn_base::{Addr, Ip4};

#[test]
fn addresses_are_read_and_written(rt: HostRuntime) -> Result<(), Fail> {
    let rows: [(&[u8], Option<(u32, u16)>); 7] = [
        (b"192.0.2.7:40000", Some((0xC000_0207, 40_000))),
        (b"255.255.255.255:65535", Some((0xFFFF_FFFF, 65_535))),
        (b"0.0.0.0:0", Some((0, 0))),
        (b"1.2.3.4:65536", None),
        (b"1.2.3.4:040", None),
        (b"1.2.3.4", None),
        (b"1.2.3.4:5:6", None),
    ];
    for (word, wanted) in rows {
        let read = read_addr(word);
        assert_eq!(rt; read.map(|a| (a.ip.0, a.port)), wanted);
        if let Some(a) = read {
            let mut text = Vec::new(rt.alloc());
            write_addr(
                &mut text,
                Addr {
                    ip: Ip4(a.ip.0),
                    port: a.port,
                },
            )?;
            assert_eq!(rt; text.as_slice(), word);
        }
    }
    Ok(())
}
