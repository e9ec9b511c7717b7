//! Authenticated encryption with additional data: AES in Galois/Counter Mode (NIST SP 800-38D).
#![tactic(auto)]

mod aead;
mod gcm;

pub use aead::{Aead, NotSealed};
pub use gcm::{AnyGcm, Gcm128, Gcm256};
