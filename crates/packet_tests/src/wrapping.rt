//! Values from outside: datagrams and their SHA-256 digests by Python (hmac, hashlib, and AES-CTR of
//! OpenSSL), and key texts written by hand.

use sha2::{Digest, Sha256};
use std::process::Abort;
use tls_crypt::{
    Datagram, KeyFault, KeyKind, StaticKey, Unwrap, Wrap, Wrapper, read_static_key,
    unwrapping_is_what_unwraps, unwraps_what_the_other_end_wrapped,
};
use vpn_base::{Role, Sid};

const SID: Sid = Sid([0x3b, 0x1f, 0x9a, 0x00, 0x7c, 0xff, 0x52, 0xe1]);

// A client's reset without acknowledgements and payload, wrapped under the counting key.
const RESET: [u8; 54] = [
    0x38, 0x3b, 0x1f, 0x9a, 0x00, 0x7c, 0xff, 0x52, 0xe1, 0x00, 0x00, 0x00, 0x01, 0x65, 0x00, 0x00,
    0x00, 0x67, 0xe0, 0xa6, 0x1f, 0x5c, 0x1f, 0x2f, 0xb4, 0x9d, 0x31, 0xf2, 0x82, 0x74, 0x91, 0x63,
    0xb5, 0x96, 0x53, 0xee, 0x5d, 0xdf, 0x66, 0x64, 0xf1, 0x3e, 0xa4, 0xd1, 0xf7, 0x14, 0x6e, 0xbd,
    0x9a, 0xf7, 0x5e, 0x47, 0x6f, 0xd5,
];

// The digests of the datagrams to which each end wraps 1,100 bytes under that key.
const SERVER_DIGEST: [u8; 32] = [
    0xa1, 0x6f, 0x3a, 0xca, 0x10, 0x17, 0x38, 0x1b, 0xca, 0x95, 0x0e, 0x89, 0x53, 0x37, 0xbd, 0x00,
    0x0d, 0xbe, 0x56, 0x70, 0xa6, 0xe0, 0x91, 0x31, 0xac, 0xa4, 0x03, 0x38, 0xd9, 0x03, 0x11, 0x99,
];

const CLIENT_DIGEST: [u8; 32] = [
    0x86, 0x90, 0xeb, 0x8b, 0x78, 0xda, 0x7a, 0xb2, 0xfa, 0x53, 0x8b, 0x57, 0x2c, 0xeb, 0x67, 0xf9,
    0x64, 0x26, 0x3d, 0x6a, 0x49, 0x4d, 0xe9, 0xbb, 0x58, 0x42, 0x0f, 0x15, 0xe6, 0x12, 0xaa, 0x31,
];

const BEGIN: &[u8] = b"-----BEGIN OpenVPN Static key V1-----\n";

const END: &[u8] = b"-----END OpenVPN Static key V1-----";

// The counting key in 15 lines and one, in digits of either case.
const FIFTEEN: &[u8] = b"000102030405060708090a0b0c0d0e0f\n\
101112131415161718191A1B1C1D1E1F\n\
202122232425262728292A2b2c2D2e2f\n\
303132333435363738393a3b3c3d3e3f\n\
404142434445464748494A4B4C4D4E4F\n\
505152535455565758595A5b5c5D5e5f\n\
606162636465666768696a6b6c6d6e6f\n\
707172737475767778797A7B7C7D7E7F\n\
808182838485868788898A8b8c8D8e8f\n\
909192939495969798999a9b9c9d9e9f\n\
A0A1A2A3A4A5A6A7A8A9AAABACADAEAF\n\
B0b1b2B3b4b5B6b7b8B9bAbbBcbDbeBf\n\
c0c1c2c3c4c5c6c7c8c9cacbcccdcecf\n\
D0D1D2D3D4D5D6D7D8D9DADBDCDDDEDF\n\
E0e1e2E3e4e5E6e7e8E9eAebEceDeeEf\n";

const SIXTEENTH: &[u8] = b"f0f1f2f3f4f5f6f7f8f9fafbfcfdfeff\n";

// The static key whose bytes count from 0 to 255.
fn counting_key() -> StaticKey {
    let mut key = [0u8; 256];
    for k in 0..256usize {
        key[k] = k as u8;
    }
    StaticKey(key)
}

// A reset is wrapped by the client to the bytes from outside, and unwrapped by the server.
#[test]
fn a_reset(rt: HostRuntime) {
    let key = counting_key();
    let client = Wrapper::new(&key, Role::Client);
    let server = Wrapper::new(&key, Role::Server);
    let mut bytes = [0u8; 54];
    assert_eq!(rt;
        client.wrap(0x38, SID, 1, 0x6500_0000, &[0; 5], &mut bytes),
        54
    );
    assert_eq!(rt; bytes, RESET);
    assert_eq!(rt; client.unwrap_in_place(&mut bytes), Err(Unwrap::NotWrapped));
    let mut datagram = Datagram { bytes: &mut bytes };
    match datagram.unwrap(&server) {
        Ok(opened) => {
            assert_eq!(rt; (opened.first, opened.sid), (0x38, SID));
            assert_eq!(rt; (opened.id, opened.time), (1, 0x6500_0000));
            assert!(rt; opened.plain == [0u8; 5].as_slice());
        }
        Err(_) => assert!(rt; false, "not unwrapped"),
    }
}

// Wraps 1,100 bytes that count, and answers the digest of the datagram.
fn digest_of<W: Wrap>(end: &W) -> [u8; 32] {
    let mut plain = [0u8; 1100];
    for k in 0..1100usize {
        plain[k] = (k % 251) as u8;
    }
    let mut datagram = [0u8; 1149];
    let _len = end.wrap(0x21, SID, 0x0102_0304, 0xfedc_ba98, &plain, &mut datagram);
    Sha256::digest(&datagram)
}

#[test]
fn long_packets_of_both_ends(rt: HostRuntime) {
    let key = counting_key();
    let server = digest_of(&Wrapper::new(&key, Role::Server));
    assert_eq!(rt; server, SERVER_DIGEST);
    let client = digest_of(&Wrapper::new(&key, Role::Client));
    assert_eq!(rt; client, CLIENT_DIGEST);
}

// The laws are called once; what they say is in their contracts.
#[test]
fn laws(_rt: HostRuntime) {
    let key = counting_key();
    unwrapping_is_what_unwraps(&Wrapper::new(&key, Role::Server));
    unwraps_what_the_other_end_wrapped(&key);
}

// Reads the text that the pieces make.
fn read(rt: &impl Abort, pieces: [&[u8]; 4]) -> Result<StaticKey, KeyFault> {
    let mut text = [0u8; 2048];
    let mut len = 0usize;
    for piece in &pieces {
        assert!(rt; piece.len() <= 1024 && len <= 1024);
        text[len..len + piece.len()].copy_from_slice(piece);
        len += piece.len();
    }
    assert!(rt; len <= 2048);
    read_static_key(&text[..len])
}

#[test]
fn key_texts(rt: HostRuntime) {
    match read(&rt, [BEGIN, FIFTEEN, SIXTEENTH, END]) {
        Ok(key) => assert_eq!(rt; key.0, counting_key().0),
        Err(_) => assert!(rt; false, "no key"),
    }
    match read(&rt, [BEGIN, FIFTEEN, END, &[]]) {
        Ok(_) => assert!(rt; false, "a key"),
        Err(fault) => assert_eq!(rt; (fault.line, fault.kind), (17, KeyKind::Digits)),
    }
}
