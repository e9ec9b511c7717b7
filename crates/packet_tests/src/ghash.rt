//! Values from outside: McGrew and Viega's test cases 2 and 4 of GCM, and a carry-less product of
//! whole numbers in Python.

use ghash_core::{Ghash, HashKey, ghash_of, mul};

const KEY: u128 = 0xb83b_5337_08bf_535d_0aa6_e529_80d5_3b78;

const ADDITIONAL_DATA: [u8; 20] = [
    0xfe, 0xed, 0xfa, 0xce, 0xde, 0xad, 0xbe, 0xef, 0xfe, 0xed, 0xfa, 0xce, 0xde, 0xad, 0xbe, 0xef,
    0xab, 0xad, 0xda, 0xd2,
];

const CIPHER_TEXT: [u8; 60] = [
    0x42, 0x83, 0x1e, 0xc2, 0x21, 0x77, 0x74, 0x24, 0x4b, 0x72, 0x21, 0xb7, 0x84, 0xd0, 0xd4, 0x9c,
    0xe3, 0xaa, 0x21, 0x2f, 0x2c, 0x02, 0xa4, 0xe0, 0x35, 0xc1, 0x7e, 0x23, 0x29, 0xac, 0xa1, 0x2e,
    0x21, 0xd5, 0x14, 0xb2, 0x54, 0x66, 0x93, 0x1c, 0x7d, 0x8f, 0x6a, 0x5a, 0xac, 0x84, 0xaa, 0x05,
    0x1b, 0xa3, 0x0b, 0x39, 0x6a, 0x0a, 0xac, 0x97, 0x3d, 0x58, 0xe0, 0x91,
];

#[test]
fn products(rt: HostRuntime) {
    let x = 0x5bc8_fbbc_bde5_c099_4164_d839_9f76_7c45;
    let y = 0xd76d_4330_f144_6bea_b0c1_1fde_cb91_ce37;
    let product = 0xc3a0_c4ce_e409_0723_30e1_22a6_acdb_c76d;
    assert_eq!(rt; mul(x, y), product);
    assert_eq!(rt; HashKey::new(y).mul(x), product);
    assert_eq!(rt; mul(1, 2), 0x0e10_0000_0000_0000_0000_0000_0000_0007);
}

#[test]
fn hashes(rt: HostRuntime) {
    assert_eq!(rt;
        ghash_of(KEY, &CIPHER_TEXT),
        0xad64_0d4c_1e66_7ed1_4c16_7715_6174_a6cc
    );
    let key = HashKey::new(KEY);
    let sum = key.absorb(0, &ADDITIONAL_DATA);
    assert_eq!(rt; sum, 0xcd47_221c_cef0_554e_e4bb_044c_8815_0352);
    let sum = key.absorb(sum, &CIPHER_TEXT);
    assert_eq!(rt; sum, 0x1590_df9b_2eb6_7682_89e5_7d56_274c_8570);
}

#[test]
fn feeds_block_by_block(rt: HostRuntime) {
    let mut hasher = Ghash::new(0x66e9_4bd4_ef8a_2c3b_884c_fa59_ca34_2b2e);
    hasher.update(0x0388_dace_60b6_a392_f328_c2b9_71b2_fe78u128.to_be_bytes());
    hasher.update(0x80u128.to_be_bytes());
    assert_eq!(rt; hasher.finish(), 0xf38c_bb1a_d692_23dc_c345_7ae5_b6b0_f885);
}
