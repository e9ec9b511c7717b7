//! HMAC over MD5, SHA-1 and SHA-256, and the key derivation of OpenVPN that stands on it.
#![tactic(auto)]

mod derivation;
mod hash_function;
mod hmac;
mod pseudorandom;

pub use derivation::{KeyBlock, expand, master};
pub use hmac::{HmacSha256, hmac_md5, hmac_sha1, hmac_sha256};
pub use pseudorandom::prf;
