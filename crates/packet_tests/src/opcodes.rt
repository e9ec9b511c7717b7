//! Packets spelled by hand.

ghost use Rattle.std.specs.Prelude.{◌≡◌};

use opcode_codec::{
    ControlView, DataView, Opcode, Packet, first_byte, read_control, read_packet, write_control,
    write_data_head,
};
use vpn_base::{Acks, Malformed, Sid};

const SID: Sid = Sid([0xA1, 0xA2, 0xA3, 0xA4, 0xA5, 0xA6, 0xA7, 0xA8]);

#[test]
fn wrapped_packets(rt: HostRuntime) {
    let mut packet = [0; 49];
    packet[0] = 0x19;
    packet[1..9].copy_from_slice(&SID.0);
    let op = Opcode::SoftReset;
    let wrapped = Packet::Wrapped {
        op,
        kid: 1,
        sid: SID,
    };
    assert_eq!(rt; read_packet(&packet), Ok(wrapped));
    assert_eq!(rt; first_byte(op, 1), 0x19);
    assert_eq!(rt;
        read_packet(&[0xB8]),
        Err(Malformed::Opcode { first: 0xB8 })
    );
}

#[test]
fn data_packets(rt: HostRuntime) {
    let head = write_data_head(5, 0x010203, 0x04050607);
    assert_eq!(rt; head, [0x4D, 1, 2, 3, 4, 5, 6, 7]);
    let packet = [
        0x4D, 0x01, 0x02, 0x03, 0x04, 0x05, 0x06, 0x07, 0x10, 0x11, 0x12, 0x13, 0x14, 0x15, 0x16,
        0x17, 0x18, 0x19, 0x1A, 0x1B, 0x1C, 0x1D, 0x1E, 0x1F, 0x99, 0x98,
    ];
    let view = DataView {
        kid: 5,
        peer: 0x010203,
        id: 0x04050607,
        tag: [
            0x10, 0x11, 0x12, 0x13, 0x14, 0x15, 0x16, 0x17, 0x18, 0x19, 0x1A, 0x1B, 0x1C, 0x1D,
            0x1E, 0x1F,
        ],
        sealed: &[0x99, 0x98],
    };
    assert_eq!(rt; read_packet(&packet), Ok(Packet::Inner(view)));
}

fn acks_of(count: u8, ids: [u32; 8]) -> Acks
    ensures { result ≡ record { count = count; ids = ids } }
{
    Acks { count, ids }
}

#[test]
fn control_texts(rt: HostRuntime) {
    let acks = acks_of(2, [7, 256, 0, 0, 0, 0, 0, 0]);
    let text = [
        2, 0, 0, 0, 7, 0, 0, 1, 0, 0xA1, 0xA2, 0xA3, 0xA4, 0xA5, 0xA6, 0xA7, 0xA8, 0, 0, 0, 9,
        b'h', b'i',
    ];
    let mut out = [0; 23];
    assert_eq!(rt;
        write_control(Opcode::Control, &acks, SID, 9, b"hi", &mut out),
        23
    );
    assert_eq!(rt; out, text);
    let view = ControlView {
        acks,
        remote: Some(SID),
        id: Some(9),
        payload: b"hi",
    };
    assert_eq!(rt; read_control(&text, Opcode::Control), Ok(view));
}
