//! GHASH, the universal hash of GCM, over the field GF(2^128) (NIST SP 800-38D, sections 6.3 and
//! 6.4).
#![tactic(auto)]

mod field;
mod hash_key;
mod hasher;

pub use field::mul;
pub use hash_key::HashKey;
pub use hasher::{Ghash, ghash_of};
