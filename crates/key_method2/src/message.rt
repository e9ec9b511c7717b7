//! A key exchange message, and what reading one can give. They hold secrets, so none can be printed.

ghost use Rattle.std.specs.Prelude.{◌≡◌, IfOk};
ghost use Rattle.key_method2.specs.Views.{message_seen};

use std::alloc::Global;
use vpn_base::{NoMemory, Text};

/// What one end sends of its own for the keys.
#[derive(Clone, Copy, PartialEq, Eq)]
pub struct Source {
    /// The pre-master secret, which a client sends and a server does not.
    pub pre: Option<[u8; 48]>,
    /// The random that the master secret is made of.
    pub random1: [u8; 32],
    /// The random that the key block is made of.
    pub random2: [u8; 32],
}

/// A key exchange message of key method 2.
#[derive(Drop)]
pub struct Km2 {
    /// The key source.
    pub source: Source,
    /// The options text.
    pub options: Text,
    /// The user name.
    pub user: Text,
    /// The password.
    pub pass: Text,
    /// The peer info: lines NAME=value, each ended by a line feed.
    pub info: Text,
}

/// A key exchange message whose texts lie in the bytes that it was read from.
#[derive(Clone, Copy)]
pub struct Km2View<'a> {
    /// The key source.
    pub source: Source,
    /// The options text.
    pub options: &'a [u8],
    /// The user name.
    pub user: &'a [u8],
    /// The password.
    pub pass: &'a [u8],
    /// The peer info: lines NAME=value, each ended by a line feed.
    pub info: &'a [u8],
}

impl Km2View<'_> {
    /// The message with texts of its own.
    pub fn copy(&self, alloc: Global) -> Result<Km2, NoMemory>
        ensures { IfOk result (λ message. message ≡ message_seen self.now) }
    {
        Ok(Km2 {
            source: self.source,
            options: Text::copy(alloc, self.options)?,
            user: Text::copy(alloc, self.user)?,
            pass: Text::copy(alloc, self.pass)?,
            info: Text::copy(alloc, self.info)?,
        })
    }
}

/// What is wrong at the first byte that no message has in its place.
#[derive(Clone, Copy, Debug, PartialEq, Eq)]
pub enum Km2Bad {
    /// It is one of the first four bytes, and not zero.
    Zeros,
    /// It is the fifth byte, and names another key method than 2.
    Method,
    /// It is the last byte of a text, and not zero.
    TextEnd,
}

/// What stands at the front of a plain text.
#[derive(Drop)]
pub enum Km2Read {
    /// A message.
    Whole {
        /// The message.
        message: Km2,
        /// How many bytes it takes.
        used: usize,
    },
    /// Less than a message: more bytes have to come.
    More,
    /// No message.
    Bad {
        /// The place of the first byte that no message has there, from 0.
        place: u32,
        /// What is wrong there.
        kind: Km2Bad,
    },
}

/// What stands at the front of a plain text, where the texts of a message lie in it.
#[derive(Clone, Copy)]
pub enum Km2ViewRead<'a> {
    /// A message.
    Whole {
        /// The message.
        view: Km2View<'a>,
        /// How many bytes it takes.
        used: usize,
    },
    /// Less than a message: more bytes have to come.
    More,
    /// No message.
    Bad {
        /// The place of the first byte that no message has there, from 0.
        place: u32,
        /// What is wrong there.
        kind: Km2Bad,
    },
}
