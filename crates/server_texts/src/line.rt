//! A line that is put together in an array, which takes no memory.

ghost use Rattle.std.specs.Prelude.{◌≡◌, ◌≤◌, ◌+◌, [], ◌++◌, length};
ghost use Rattle.std.specs.Fmt.{decimal};
ghost use Rattle.vpn_base.specs.Address.{ip4_text};

use itoa::Buffer;
use std::marker::Model;
use vpn_base::{Ip4, write_at, write_ip4};

// The greatest length of a line, in bytes.
const ROOM: usize = 64;

// Bytes in order, at most 64. Contracts see the list of them.
#[derive(Drop)]
pub(crate) struct Line {
    bytes: [u8; ROOM],
    len: usize,
}

impl Model for Line {
    ghost use Rattle.std.specs.Prelude.{ℕ, List, ◌≤◌, take};

    ghost Value = { List ℕ };

    ghost view = { λ l. take l.len l.bytes };

    ghost invariant = { λ l. l.len ≤ 64 };
}

impl Line {
    // An empty line.
    pub(crate) fn new() -> Line
        ensures { result ≡ [] }
    {
        Line {
            bytes: [0; ROOM],
            len: 0,
        }
    }

    // Adds bytes at the end.
    pub(crate) fn add(&mut self, bytes: &[u8])
        requires { length self.old + length bytes.now ≤ 64 }
        ensures added { self.new ≡ self.old ++ bytes.now }
        ensures len { length self.new ≡ length self.old + length bytes.now }
    {
        write_at(&mut self.bytes, self.len, bytes);
        self.len += bytes.len();
    }

    // Adds a number in decimal, at most 20 bytes.
    pub(crate) fn add_number(&mut self, n: u64)
        requires { length self.old + 20 ≤ 64 }
        ensures added { self.new ≡ self.old ++ decimal n }
        ensures len { length self.new ≤ length self.old + 20 }
    {
        let mut buffer = Buffer::new();
        self.add(buffer.format(n).as_bytes());
    }

    // Adds a length of a network in decimal, at most 3 bytes.
    pub(crate) fn add_len(&mut self, n: u8)
        requires { length self.old + 3 ≤ 64 }
        ensures added { self.new ≡ self.old ++ decimal n }
        ensures len { length self.new ≤ length self.old + 3 }
    {
        let mut buffer = Buffer::new();
        self.add(buffer.format(n).as_bytes());
    }

    // Adds an address in dotted decimal, at most 15 bytes.
    pub(crate) fn add_ip4(&mut self, a: Ip4)
        requires { length self.old + 15 ≤ 64 }
        ensures added { self.new ≡ self.old ++ ip4_text a }
        ensures len { length self.new ≤ length self.old + 15 }
    {
        let mut buffer = [0; 15];
        let len = write_ip4(a, &mut buffer);
        self.add(&buffer[..len]);
    }

    // The bytes so far.
    pub(crate) fn as_slice(&self) -> &[u8]
        ensures { result.now ≡ self.now }
    {
        &self.bytes[..self.len]
    }
}
