//! Runs over files and sinks in memory: one for each kind of answer. The sealed bytes are those of
//! Python's `cryptography`.

use crate::stories::{FIRST_CLIENT, KEY, SERVER};
use std::alloc::Global;
use std::test::Fail;
use vpn_base::{Bytes, MemFiles, MemSink, Text};
use vpn_top::{Outside, vpn_main};

// A run and its answer: the words, what the file f holds, the reads that fail, the room of either
// sink, the exit status, the output and the error output.
#[derive(Clone, Copy)]
struct Case<'a> {
    words: &'a [&'a str],
    file: &'a [u8],
    failing: &'a [u64],
    room: usize,
    status: u8,
    out: &'a [u8],
    err: &'a [u8],
}

const ROUTE: Case<'_> = Case {
    words: &["route", "f"],
    file: TWO_CLIENTS,
    failing: &[],
    room: 4096,
    status: 0,
    out: b"",
    err: b"",
};

const CHECK: Case<'_> = Case {
    words: &["check", "f"],
    file: SERVER,
    failing: &[],
    room: 4096,
    status: 0,
    out: b"",
    err: b"",
};

const REPLAY: Case<'_> = Case {
    words: &["replay", "c", "f"],
    file: b"vpn-schedule 1\nend\n",
    failing: &[],
    room: 4096,
    status: 0,
    out: b"",
    err: b"",
};

const TWO_CLIENTS: &[u8] = b"add 10.8.0.0/24 1\nadd 10.8.0.2/32 2\n\
from 1 4500001400000000400000000a0800020a080001\n\
from 2 4500001400000000400000000A0800020A080001\n";

const TWO_OWNERS: &[u8] = b"add 10.9.0.0/16 1\nadd 10.9.0.0/16 2\nowner 10.9.0.5\nleave 2\n\
owner 10.9.0.5\nleave 1\nowner 10.9.0.5";

const SEALS: &[u8] = b"key 1 0 AES-128-GCM 000102030405060708090a0b0c0d0e0f a0a1a2a3a4a5a6a7\n\
seal 1 0 7 4500001400000000400000000a0800020a080001\n\
unseal 1 0 48000001000000073468731b109c7715413ddd8dbd4495d531733c89d39e400b1c0e5bc9ae82a5416ef2020a\n\
unseal 1 0 48000001000000073468731b109c7715413ddd8dbd4495d531733c89d39e400b1c0e5bc9ae82a5416ef2020b\n\
unseal 1 0 48\nseal 1 1 7 -\n";

const SEALED: &[u8] =
    b"sealed 48000001000000073468731b109c7715413ddd8dbd4495d531733c89d39e400b1c0e5bc9ae82a5416ef2020a\n\
opened 7 4500001400000000400000000a0800020a080001\nnot-sealed\nmalformed\nno-key\n";

const SERVER_PRINTED: &[u8] =
    b"server 10.8.0.0 255.255.255.0\ndev tun\ntopology subnet\nproto udp\nport 1194\n\
tls-crypt ta.key\nkeepalive 10 120\nmax-clients 1024\ndata-ciphers AES-256-GCM:AES-128-GCM\n\
reneg-sec 3600\ntran-window 3600\nhand-window 60\ntls-timeout 2\nreplay-window 64 15\n\
ca ca.crt\ncert s.crt\nkey s.key\n";

fn hold(
    alloc: Global,
    held: &mut Vec<(Text, Bytes)>,
    name: &[u8],
    bytes: &[u8],
) -> Result<(), Fail> {
    let name = Text::copy(alloc, name)?;
    let bytes = Bytes::copy(alloc, bytes)?;
    held.push((name, bytes))?;
    Ok(())
}

fn outside(alloc: Global, case: &Case<'_>) -> Result<Outside<MemFiles, MemSink, MemSink>, Fail> {
    let mut held = Vec::new(alloc);
    hold(alloc, &mut held, b"f", case.file)?;
    hold(alloc, &mut held, b"c", SERVER)?;
    hold(alloc, &mut held, b"ta.key", KEY)?;
    let files = MemFiles::new(held, case.failing.to_vec(alloc)?);
    let out = MemSink::new(alloc, case.room, Vec::new(alloc))?;
    let err = MemSink::new(alloc, case.room, Vec::new(alloc))?;
    Ok(Outside { files, out, err })
}

fn words(alloc: Global, case: &Case<'_>) -> Result<Vec<String>, Fail> {
    let mut words = Vec::new(alloc);
    for word in case.words {
        words.push(String::from_str(alloc, word)?)?;
    }
    Ok(words)
}

#[test]
fn answers(rt: HostRuntime) -> Result<(), Fail> {
    let cases = [
        Case {
            out: b"drop bad-source 2\ndevice\n",
            ..ROUTE
        },
        Case {
            file: TWO_OWNERS,
            out: b"owner 2\nowner 1\nowner none\n",
            ..ROUTE
        },
        Case {
            file: SEALS,
            out: SEALED,
            ..ROUTE
        },
        Case {
            file: b"owner 1.2.3.4\n#\nowner 1.2.3\n",
            status: 2,
            out: b"owner none\n",
            err: b"line 3: address\n",
            ..ROUTE
        },
        Case {
            words: &[],
            status: 1,
            err: b"usage: vpn route|check|replay|server|client|lab\n",
            ..ROUTE
        },
        Case {
            words: &["route", "g"],
            status: 3,
            err: b"missing g\n",
            ..ROUTE
        },
        Case {
            failing: &[1],
            status: 3,
            out: b"drop bad-source 2\ndevice\n",
            err: b"unreadable f\n",
            ..ROUTE
        },
        Case {
            room: 20,
            status: 6,
            out: b"drop bad-source 2\nde",
            err: b"output\n",
            ..ROUTE
        },
        Case {
            out: SERVER_PRINTED,
            ..CHECK
        },
        Case {
            file: b"dev tun\n\n\n\n\n\ncomp-lzo\n",
            status: 2,
            err: b"line 7: refused comp-lzo\n",
            ..CHECK
        },
        Case {
            file: b"client\ndev tun\nremote 192.0.2.1\ntls-crypt f\n",
            status: 2,
            err: b"key line 4: no-begin\n",
            ..CHECK
        },
        Case {
            failing: &[2],
            status: 3,
            err: b"unreadable ta.key\n",
            ..CHECK
        },
        Case {
            out: b"0 stop\ndone 1 lost 0\n",
            ..REPLAY
        },
        Case {
            file: FIRST_CLIENT.schedule,
            out: FIRST_CLIENT.transcript,
            ..REPLAY
        },
        Case {
            file: b"vpn-schedule 1\nat 0 tick\n\nat 0 line status\n",
            status: 5,
            out: b"1 say ERROR: unknown command\n",
            err: b"line 4: no-end\n",
            ..REPLAY
        },
        Case {
            file: b"vpn-schedule 1\r\nat 0 line status\r\nat 0 devicein 4g\r\nend\r\n",
            status: 5,
            out: b"0 say ERROR: unknown command\n",
            err: b"line 3: digits\n",
            ..REPLAY
        },
        Case {
            words: &["replay", "f", "c"],
            file: b"client\ndev tun\nremote 192.0.2.1\ntls-crypt none\nremote-cert-tls server\n",
            status: 2,
            err: b"not a server file\n",
            ..REPLAY
        },
        Case {
            words: &["replay", "c", "none"],
            status: 3,
            err: b"missing none\n",
            ..REPLAY
        },
        Case {
            room: 10,
            status: 6,
            out: b"0 stop\ndon",
            err: b"output\n",
            ..REPLAY
        },
    ];
    for (i, case) in cases.iter().enumerate() {
        let alloc = rt.alloc();
        let words = words(alloc, case)?;
        let (status, after) = vpn_main(alloc, &words, outside(alloc, case)?);
        assert_eq!(rt; status, case.status, "case {i}");
        assert_eq!(rt; after.out.held(), case.out, "case {i}");
        assert_eq!(rt; after.err.held(), case.err, "case {i}");
    }
    Ok(())
}
