//! The messages of both ends, byte by byte, and the cuts of the client's.

ghost use Rattle.std.specs.Prelude.{◌≡◌, [], ◌∷◌, length, IfOk};
ghost use Rattle.vpn_base.specs.declared.names.Cipher.TheVariants.{Aes128Gcm, Aes256Gcm};
ghost use Rattle.key_method2.specs.Messages.{client_info};

use key_method2::{
    Km2, Km2Bad, Km2Read, Km2ViewRead, Source, asks_push, choose_cipher, client_message_is_read,
    info_value, read_km2, read_km2_view, server_message, write_km2,
};
use std::alloc::{AllocError, Global};
use std::test::Fail;
use vpn_base::{Cipher, NoMemory, Role, Text};

const OPTIONS: &[u8; 15] = b"V4,dev-type tun";

const INFO: &[u8; 73] =
    b"IV_VER=2.6.0\nIV_PLAT=linux\nIV_PROTO=2\nIV_CIPHERS=AES-256-GCM:AES-128-GCM\n";

const CLIENT: Source = Source {
    pre: Some([0xab; 48]),
    random1: [0xc1; 32],
    random2: [0xc2; 32],
};

// The peer info that the definitions have for both ciphers.
fn info() -> &'static [u8; 73]
    ensures { result.now ≡ client_info (Aes256Gcm ∷ Aes128Gcm ∷ []) }
{
    INFO
}

fn client_message(alloc: Global) -> Result<Km2, NoMemory>
    ensures { IfOk result (λ m. (length m.options ≡ 15) × (m.user ≡ []) × (m.pass ≡ []) × (length m.info ≡ 73)) }
{
    Ok(Km2 {
        source: CLIENT,
        options: Text::copy(alloc, OPTIONS)?,
        user: Text::copy(alloc, &[])?,
        pass: Text::copy(alloc, &[])?,
        info: Text::copy(alloc, INFO)?,
    })
}

// The client's message on the wire.
fn client_wire(alloc: Global) -> Result<Vec<u8>, AllocError> {
    let mut wire = vec![in alloc; 0, 0, 0, 0, 2]?;
    wire.extend_from_slice(&[0xab; 48])?;
    wire.extend_from_slice(&[0xc1; 32])?;
    wire.extend_from_slice(&[0xc2; 32])?;
    wire.extend_from_slice(b"\x00\x10V4,dev-type tun\x00")?;
    wire.extend_from_slice(b"\x00\x00\x00\x00")?;
    wire.extend_from_slice(b"\x00\x4a")?;
    wire.extend_from_slice(info())?;
    wire.push(0)?;
    Ok(wire)
}

#[test]
fn written(rt: HostRuntime) -> Result<(), Fail> {
    let bytes = write_km2(rt.alloc(), &client_message(rt.alloc())?)?;
    assert_eq!(rt; bytes.as_slice().len(), 215);
    assert_eq!(rt; bytes.as_slice(), client_wire(rt.alloc())?.as_slice());
    client_message_is_read();

    let server = server_message(&Source {
        pre: None,
        random1: [0x51; 32],
        random2: [0x52; 32],
    });
    let mut wire = vec![in rt.alloc(); 0, 0, 0, 0, 2]?;
    wire.extend_from_slice(&[0x51; 32])?;
    wire.extend_from_slice(&[0x52; 32])?;
    wire.extend_from_slice(b"\x00\x10V4,dev-type tun\x00\x00\x00\x00\x00\x00\x00")?;
    assert_eq!(rt; server.as_slice(), wire.as_slice());
    Ok(())
}

// The length of what is found, and none where more has to come.
fn found(bytes: &[u8]) -> Option<usize> {
    match read_km2_view(bytes, Role::Client) {
        Km2ViewRead::Whole { used, .. } => Some(used),
        _ => None,
    }
}

#[test]
fn every_cut(rt: HostRuntime) -> Result<(), Fail> {
    let wire = client_wire(rt.alloc())?;
    for (cut, _) in wire.iter().enumerate() {
        let whole = matches!(cut, 135 | 137 | 139);
        assert_eq!(rt; found(&wire[..cut]).is_some(), whole, "at {cut}");
    }
    assert_eq!(rt; found(&wire), Some(215));
    match read_km2(rt.alloc(), &wire, Role::Client)? {
        Km2Read::Whole { message, used } => {
            assert_eq!(rt; used, 215);
            assert!(rt; message.source == CLIENT);
            assert_eq!(rt; message.info.as_slice(), INFO.as_slice());
        }
        _ => assert!(rt; false),
    }
    Ok(())
}

#[test]
fn another_method(rt: HostRuntime) {
    match read_km2_view(&[0, 0, 0, 0, 1], Role::Client) {
        Km2ViewRead::Bad { place, kind } => {
            assert_eq!(rt; place, 4);
            assert_eq!(rt; kind, Km2Bad::Method);
        }
        _ => assert!(rt; false),
    }
}

#[test]
fn peer_info(rt: HostRuntime) {
    assert_eq!(rt; info_value(INFO, b"IV_VER"), Some(b"2.6.0".as_slice()));
    let ours = [Cipher::Aes128Gcm, Cipher::Aes256Gcm];
    assert_eq!(rt; choose_cipher(&ours, INFO), Some(Cipher::Aes128Gcm));
    assert!(rt; !asks_push(INFO));
    assert!(rt; asks_push(b"IV_PROTO=6\n"));
}
