//! The common name of the other end.

ghost use Rattle.std.specs.Prelude.{◌≡◌, ◌≤◌, length, Some, None, MatchResult, if◌then◌else◌};
ghost use Rattle.std.specs.Option.{option_copied};
ghost use Rattle.std.specs.Str.{bytes_eq};
ghost use Rattle.vpn_base.specs.FileName.{is_file_name, is_name_byte};
ghost use Rattle.peer_table.specs.EngineAnswers.{kept_name};
ghost use Rattle.key_sessions.specs.Names.{fault_beside, name_fault};

use std::marker::Model;
use vpn_base::file_name;

/// Why a common name is refused.
#[derive(Clone, Copy, Debug, PartialEq, Eq)]
pub enum NameFault {
    /// It can't be the name of a file.
    BadName,
    /// It is not the name that is known.
    NameChanged,
}

/// The most bytes of a name that can be that of a file.
const LONGEST: usize = 64;

/// A name that can be that of a file, which contracts see as the list of its bytes.
#[derive(Drop)]
pub struct Name {
    bytes: [u8; LONGEST],
    count: u8,
}

impl Model for Name {
    ghost use Rattle.std.specs.Prelude.{ℕ, ◌≤◌, List, take};

    ghost Value = { List ℕ };

    ghost view = { λ name. take name.count name.bytes };

    ghost invariant = { λ name. name.count ≤ 64 };
}

impl Name {
    // The bytes of the name.
    pub(crate) fn as_slice(&self) -> &[u8]
        ensures { result.now ≡ self.now }
    {
        &self.bytes[..usize::from(self.count)]
    }
}

// A byte as it is kept: `_` where no file name has it.
fn kept_byte(byte: u8) -> u8
    ensures { result ≡ (if is_name_byte byte then byte else 95) }
{
    if byte.is_ascii_alphanumeric()
        || byte == b'_'
        || byte == b'-'
        || byte == b'.'
        || byte == b'@'
    {
        byte
    } else {
        b'_'
    }
}

// A name as it is kept.
#[tactic(auto, using(crate::proofs::Names::kept_next))]
fn keep(name: &[u8]) -> Name
    requires { length name.now ≤ 64 }
    ensures { result ≡ kept_name name.now }
{
    let mut bytes = [0; LONGEST];
    for i in 0..name.len() {
        bytes[i] = kept_byte(name[i]);
    }
    Name {
        bytes,
        count: name.len() as u8,
    }
}

// Judges a name as it is kept, beside the one that is known, if one is.
#[tactic(auto, using(crate::proofs::Names::long_name), unfolding(crate::specs::Names::name_fault))]
pub(crate) fn judge_name(name: &[u8], known: Option<&[u8]>) -> Result<Name, NameFault>
    ensures judged { MatchResult result
        (λ kept. (name_fault (kept_name name.now) (option_copied known.entry) ≡ None) × (kept ≡ kept_name name.now))
        (λ fault. name_fault (kept_name name.now) (option_copied known.entry) ≡ Some fault) }
{
    if name.len() > LONGEST {
        return Err(NameFault::BadName);
    }
    let kept = keep(name);
    if file_name(kept.as_slice()).is_err() {
        return Err(NameFault::BadName);
    }
    match known {
        None => Ok(kept),
        Some(known) => {
            if kept.as_slice() == known {
                Ok(kept)
            } else {
                Err(NameFault::NameChanged)
            }
        }
    }
}
