//! Words of lines, as they are read and written, and masks.

use std::test::Fail;
use vpn_base::{Cipher, Ip4, Or, Prefix, TextList};
use vpn_text::{
    ConfigKind, LineKind, is_blank, is_control, is_long, is_over, is_push_text, read_cipher,
    read_config_line, read_line, read_mask, read_network, reads_mask_again, reads_no_control,
    reads_words_again, write_mask, write_word,
};

fn is_word(words: &TextList, i: usize, want: &[u8]) -> bool {
    match words.item(i) {
        Some(word) => word.as_slice() == want,
        None => false,
    }
}

#[test]
fn words_of_lines(rt: HostRuntime) {
    match read_line(rt.alloc(), b"\tpush \"route 10.0.0.0\" a'b'\\ c # d") {
        Ok(words) => {
            assert_eq!(rt; words.count(), 3);
            assert!(rt; is_word(&words, 1, b"route 10.0.0.0"));
            assert!(rt; is_word(&words, 2, b"ab c"));
        }
        Err(_) => panic!(rt; "words"),
    }
    match read_line(rt.alloc(), b"a\"b\" \"c") {
        Err(Or::Why(fault)) => {
            assert_eq!(rt; fault.place, 5);
            assert_eq!(rt; fault.kind, LineKind::Quote);
        }
        _ => panic!(rt; "an open quote"),
    }
}

#[test]
fn lines_of_files(rt: HostRuntime) {
    assert!(rt; !is_long(b"dev tun"));
    assert!(rt; is_over(65_537));
    assert!(rt; is_control(0x7F));
    assert!(rt; is_blank(b'\t'));
    assert_eq!(rt; read_cipher(b"AES-128-GCM"), Some(Cipher::Aes128Gcm));
    match read_config_line(rt.alloc(), 7, b"dev tun", false) {
        Ok(words) => assert_eq!(rt; words.count(), 2),
        Err(_) => panic!(rt; "words"),
    }
    match read_config_line(rt.alloc(), 7, b"dev tun\\", false) {
        Err(Or::Why(fault)) => {
            assert_eq!(rt; fault.line, 7);
            assert_eq!(rt; fault.kind, ConfigKind::Escape);
        }
        _ => panic!(rt; "an escape at the end"),
    }
}

#[test]
fn words_written(rt: HostRuntime) -> Result<(), Fail> {
    let mut out = Vec::from_slice(rt.alloc(), b"push ")?;
    write_word(&mut out, b"a \"b\\")?;
    assert_eq!(rt; out.as_slice(), b"push \"a \\\"b\\\\\"".as_slice());
    assert!(rt; is_push_text(b"route 10.0.0.0 255.0.0.0"));
    assert!(rt; !is_push_text(b"a,b"));
    reads_words_again();
    reads_no_control();
    Ok(())
}

#[test]
fn masks(rt: HostRuntime) {
    assert_eq!(rt; read_mask(b"255.255.254.0"), Some(23));
    assert_eq!(rt; read_mask(b"255.0.255.0"), None);
    let mut out = [b'x'; 15];
    assert_eq!(rt; write_mask(17, &mut out), 13);
    assert_eq!(rt; &out, b"255.255.128.0xx");
    assert_eq!(rt;
        read_network(b"10.8.0.0", b"255.255.255.0"),
        Prefix::new(Ip4(0x0A08_0000), 24)
    );
    reads_mask_again();
}
