//! Numbers, addresses, names, lists, and files and sinks in memory.

ghost use Rattle.std.specs.Prelude.{◌≡◌, ◌<◌};

use std::marker::Brand;
use std::sync::ledger::{Blank, Ledger};
use std::test::Fail;
use vpn_base::{
    BadName, Bytes, Cipher, Failed, FileFault, Files, Ip4, MemFiles, MemSink, Prefix, RouteList,
    Sink, Steps, Text, TextList, file_name, next_line, read_ip4, read_number, reads_decimal_again,
    reads_ip4_again, split_once, write_at, write_ip4,
};

#[test]
fn numbers_and_addresses(rt: HostRuntime) -> Result<(), Fail> {
    assert_eq!(rt;
        read_number(b"18446744073709551615", u64::MAX),
        Some(u64::MAX)
    );
    assert_eq!(rt; read_ip4(b"10.8.0.1"), Some(Ip4(0x0A08_0001)));
    assert_eq!(rt; read_ip4(b"1.2.3.04"), None);
    let mut out = [b'x'; 15];
    assert_eq!(rt; write_ip4(Ip4(0x0A08_0001), &mut out), 8);
    assert_eq!(rt; &out, b"10.8.0.1xxxxxxx");
    write_at(&mut out, 13, b"yz");
    assert_eq!(rt; &out[12..], b"xyz".as_slice());
    assert_eq!(rt;
        split_once(b"a/b/c", b'/'),
        Some((b"a".as_slice(), b"b/c".as_slice()))
    );
    let office = Prefix::new(Ip4(0x0A08_0000), 24).ok_or("a prefix")?;
    assert_eq!(rt; office.net(), Ip4(0x0A08_0000));
    assert_eq!(rt; office.len(), 24);
    assert!(rt; office.contains(Ip4(0x0A08_00FF)));
    assert!(rt; !office.contains(Ip4(0x0A08_0100)));
    reads_ip4_again();
    reads_decimal_again();
    Ok(())
}

#[test]
fn names_and_lines(rt: HostRuntime) {
    assert_eq!(rt; Cipher::Aes128Gcm.name(), b"AES-128-GCM".as_slice());
    assert_eq!(rt; Cipher::Aes256Gcm.name(), b"AES-256-GCM".as_slice());
    assert_eq!(rt; file_name(b"al_1.-@"), Ok(b"al_1.-@".as_slice()));
    assert_eq!(rt; file_name(b".."), Err(BadName));
    assert_eq!(rt;
        next_line(b"one\r\ntwo"),
        Some((b"one".as_slice(), b"two".as_slice()))
    );
}

#[test]
fn owned_values(rt: HostRuntime) -> Result<(), Fail> {
    let alloc = rt.alloc();
    let bytes = Bytes::copy(alloc, b"\x00\xff")?;
    assert_eq!(rt;
        Bytes::of(bytes.into_vec()).as_slice(),
        b"\x00\xff".as_slice()
    );
    let text = Text::copy(alloc, b"alice")?;
    let mut texts = TextList::new(alloc);
    texts.add(Text::of(text.into_vec()))?;
    let same = texts.copy(alloc)?;
    assert_eq!(rt; same.count(), 1);
    assert_eq!(rt; same.as_slice().len(), 1);
    assert_eq!(rt;
        same.item(0).map(|t| t.as_slice()),
        Some(b"alice".as_slice())
    );
    let mut routes = RouteList::new(alloc);
    routes.add(Prefix::new(Ip4(0x0A00_0000), 8).ok_or("a prefix")?)?;
    let same = routes.copy(alloc)?;
    assert_eq!(rt; same.count(), 1);
    assert_eq!(rt; same.item(0), Prefix::new(Ip4(0x0A00_0000), 8));
    Ok(())
}

fn take_of<F: Files>(files: &mut F, name: &[u8]) -> Result<usize, FileFault> {
    let mut buffer = [0u8; 4];
    files.take(name, 0, &mut buffer)
}

#[test]
fn files_in_memory(rt: HostRuntime) -> Result<(), Fail> {
    let alloc = rt.alloc();
    let mut held = Vec::new(alloc);
    held.push((Text::copy(alloc, b"a")?, Bytes::copy(alloc, b"hello")?))?;
    let mut failing = Vec::new(alloc);
    failing.push(1u64)?;
    let mut files = MemFiles::new(held, failing);
    let mut buffer = [9u8; 4];
    assert_eq!(rt; files.take(b"a", 2, &mut buffer), Ok(3));
    assert_eq!(rt; &buffer, b"llo\x09");
    assert_eq!(rt; take_of(&mut files, b"a"), Err(FileFault::Failed));
    assert_eq!(rt; take_of(&mut files, b"b"), Err(FileFault::Missing));
    assert_eq!(rt; take_of(&mut files, b"a"), Ok(4));
    Ok(())
}

fn write_to<S: Sink>(sink: &mut S, piece: &[u8]) -> Result<usize, Failed> {
    sink.write(piece)
}

#[test]
fn sinks_in_memory(rt: HostRuntime) -> Result<(), Fail> {
    let alloc = rt.alloc();
    let mut failing = Vec::new(alloc);
    failing.push(1u64)?;
    let mut sink = MemSink::new(alloc, 5, failing)?;
    assert_eq!(rt; write_to(&mut sink, b"abc"), Ok(3));
    assert_eq!(rt; write_to(&mut sink, b"de"), Err(Failed));
    assert_eq!(rt; write_to(&mut sink, b"defg"), Ok(2));
    assert_eq!(rt; sink.held(), b"abcde".as_slice());
    Ok(())
}

fn tick_twice<L: Ledger>(blank: Blank)
    requires name { blank.name ≡ L.name }
    requires parts { blank.parts ≡ L.parts }
    requires some { 0 < L.parts }
{
    let mut steps = Steps::<L>::from_blank(blank);
    steps.tick();
    steps.tick();
}

#[test]
fn steps() {
    tick_twice::<Brand>(Blank::new(1));
}
