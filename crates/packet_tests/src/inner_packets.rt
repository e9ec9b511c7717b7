//! The addresses of an inner packet.

use ip_packets::Inner;
use std::test::Fail;
use vpn_base::Ip4;

#[test]
fn addresses_of_packets(rt: HostRuntime) -> Result<(), Fail> {
    let packet: [u8; 20] = [
        0x45, 0, 0, 20, 0, 0, 0, 0, 0x40, 0, 0, 0, 10, 8, 0, 2, 10, 8, 0, 1,
    ];
    let inner = Inner::read(&packet).ok().ok_or("a packet")?;
    assert_eq!(rt; inner.source(), Ip4(0x0A08_0002));
    assert_eq!(rt; inner.destination(), Ip4(0x0A08_0001));
    assert!(rt; Inner::read(&packet[..19]).is_err());
    Ok(())
}
