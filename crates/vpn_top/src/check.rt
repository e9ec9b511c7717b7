//! The command `check`: a configuration in its canonical text, or its first fault.

ghost use Rattle.std.specs.Prelude.{◌≡◌, ◌≤◌, ℕ, List};
ghost use Rattle.ovpn_config.specs.Canonical.{canonical};
ghost use Rattle.vpn_top.specs.Check.{RanCheck};
ghost use Rattle.vpn_top.specs.internal.Refused.{Printing, refusal_in, subject_in};

use crate::loading::{Refused, load_config, load_key, unnamed};
use crate::refusal::Refusal;
use crate::writing::write_all;
use ovpn_config::{Settings, write_config};
use std::alloc::Global;
use vpn_base::{Files, Sink};

// Prints settings in their canonical text.
fn print<S: Sink>(alloc: Global, s: &Settings, out: &mut S) -> Option<Refused>
    ensures printed { Printing (canonical s.now) (S.contents out.old) (S.contents out.new) (S.faults out.old, S.faults out.new) (refusal_in result) }
    ensures never_falls { S.faults out.old ≤ S.faults out.new }
{
    let Ok(text) = write_config(alloc, s) else {
        return Some(unnamed(alloc, Refusal::NoMemory));
    };
    match write_all(out, text.as_slice()) {
        Ok(()) => None,
        Err(_) => Some(unnamed(alloc, Refusal::Output)),
    }
}

/// Reads the configuration file of this name with its static key, and prints its canonical text. The
/// refusal says why it was not accepted, or not written.
pub(crate) fn check<F: Files, S: Sink>(
    alloc: Global,
    name: &[u8],
    files: &mut F,
    out: &mut S,
) -> Option<Refused>
    ensures ran { (err : ℕ × ℕ) → RanCheck (F.holds files.old) name.now (refusal_in result) (subject_in result) (record {
      before = S.contents out.old;
      after = S.contents out.new;
      files = (F.faults files.old, F.faults files.new);
      out = (S.faults out.old, S.faults out.new);
      err = err;
    }) }
    ensures kept { (n : List ℕ) → F.holds files.new n ≡ F.holds files.old n }
    ensures files_never_fall { F.faults files.old ≤ F.faults files.new }
    ensures out_never_falls { S.faults out.old ≤ S.faults out.new }
{
    let settings = match load_config(alloc, name, files) {
        Ok(settings) => settings,
        Err(refused) => return Some(refused),
    };
    match load_key(alloc, &settings.key, files) {
        Ok(_) => print(alloc, &settings, out),
        Err(refused) => Some(refused),
    }
}
