//! The common name of a client.

ghost use Rattle.std.specs.Prelude.{◌≡◌, ◌≤◌, length};

use std::marker::Model;

/// The most bytes of a name that can be that of a file.
const LONGEST: usize = 64;

/// The common name of a client, which contracts see as the list of its bytes. It takes no memory.
#[derive(Drop)]
pub struct ClientName {
    bytes: [u8; LONGEST],
    count: u8,
}

impl Model for ClientName {
    ghost use Rattle.std.specs.Prelude.{ℕ, ◌≤◌, List, take};

    ghost Value = { List ℕ };

    ghost view = { λ name. take name.count name.bytes };

    ghost invariant = { λ name. name.count ≤ 64 };
}

impl ClientName {
    /// A copy of these bytes.
    pub fn of(name: &[u8]) -> ClientName
        requires { length name.now ≤ 64 }
        ensures { result ≡ name.now }
    {
        let mut bytes = [0; LONGEST];
        bytes[..name.len()].copy_from_slice(name);
        ClientName {
            bytes,
            count: name.len() as u8,
        }
    }

    /// The bytes of the name.
    pub fn as_slice(&self) -> &[u8]
        ensures { result.now ≡ self.now }
    {
        &self.bytes[..usize::from(self.count)]
    }
}
