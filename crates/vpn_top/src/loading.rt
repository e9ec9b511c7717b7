//! A configuration with its static key, read from files.

ghost use Rattle.std.specs.Prelude.{◌≡◌, ◌≤◌, ◌⊎◌, ℕ, List, length, take, IfOk, IfErr, Ok};
ghost use Rattle.tls_crypt.specs.StaticKey.{static_key};
ghost use Rattle.ovpn_config.specs.Bounds.{IsBounded};
ghost use Rattle.vpn_top.specs.declared.refusal.Refusal.TheVariants.{NoMemory};
ghost use Rattle.vpn_top.specs.Configuration.{Configured, HasKey};
ghost use Rattle.vpn_top.specs.internal.Refused.{ConfigEnded, HoldsKey, KeyEnded, KeyFileEnded, LacksKey, gone_refusal};

use crate::front::read_front;
use crate::refusal::Refusal;
use ovpn_config::{KeyPlace, Settings, read_config, settings_are_of_the_front};
use std::alloc::Global;
use tls_crypt::{StaticKey, read_static_key};
use vpn_base::{FileFault, Files, Or, Text};

/// How many bytes of a configuration file are read: 65,536, and one more to see whether it is too long.
const CONFIG: usize = 65_537;

/// How many bytes of the text of a static key count.
const KEY: usize = 65_536;

/// Why a command was refused, and what the refusal's line names: a file, or the word of a faulty line.
#[derive(Drop)]
pub(crate) struct Refused {
    pub(crate) refusal: Refusal,
    pub(crate) subject: Text,
}

/// A refusal whose line names nothing.
pub(crate) fn unnamed(alloc: Global, refusal: Refusal) -> Refused
    ensures { result.refusal ≡ refusal }
{
    Refused {
        refusal,
        subject: Text::of(Vec::new(alloc)),
    }
}

// The refusal of a file that is not there or could not be read.
fn gone(alloc: Global, name: &[u8], fault: FileFault) -> Refused
    ensures { ((result.refusal ≡ gone_refusal fault) × (result.subject ≡ name.now)) ⊎ (result.refusal ≡ NoMemory) }
{
    let refusal = match fault {
        FileFault::Missing => Refusal::Missing,
        FileFault::Failed => Refusal::Unreadable,
    };
    match Text::copy(alloc, name) {
        Ok(subject) => Refused { refusal, subject },
        Err(_) => unnamed(alloc, Refusal::NoMemory),
    }
}

// Reads the configuration file of this name, whose front is read into the buffer.
fn load_config_in<F: Files>(
    alloc: Global,
    name: &[u8],
    files: &mut F,
    buffer: &mut [u8],
) -> Result<Settings, Refused>
    requires { length buffer.old ≡ 65537 }
    ensures ok { IfOk result (λ s. Configured (F.holds files.old name.now) s) }
    ensures bounded { IfOk result IsBounded }
    ensures err { IfErr result (λ r. ConfigEnded (F.holds files.old) name.now (F.faults files.old, F.faults files.new) r.refusal r.subject) }
    ensures kept { (n : List ℕ) → F.holds files.new n ≡ F.holds files.old n }
    ensures never_falls { F.faults files.old ≤ F.faults files.new }
{
    let count = match read_front(name, files, buffer) {
        Ok(count) => count,
        Err(fault) => return Err(gone(alloc, name, fault)),
    };
    settings_are_of_the_front();
    match read_config(alloc, &buffer[..count]) {
        Ok(settings) => Ok(settings),
        Err(Or::Why(fault)) => Err(Refused {
            refusal: Refusal::Config {
                line: fault.line,
                kind: fault.kind,
            },
            subject: fault.word,
        }),
        Err(Or::Memory) => Err(unnamed(alloc, Refusal::NoMemory)),
    }
}

/// Reads the configuration file of this name.
pub(crate) fn load_config<F: Files>(
    alloc: Global,
    name: &[u8],
    files: &mut F,
) -> Result<Settings, Refused>
    ensures ok { IfOk result (λ s. Configured (F.holds files.old name.now) s) }
    ensures bounded { IfOk result IsBounded }
    ensures err { IfErr result (λ r. ConfigEnded (F.holds files.old) name.now (F.faults files.old, F.faults files.new) r.refusal r.subject) }
    ensures kept { (n : List ℕ) → F.holds files.new n ≡ F.holds files.old n }
    ensures never_falls { F.faults files.old ≤ F.faults files.new }
{
    let Ok(mut buffer) = vec![in alloc; 0u8; CONFIG] else {
        return Err(unnamed(alloc, Refusal::NoMemory));
    };
    load_config_in(alloc, name, files, &mut buffer)
}

// Reads the text of a static key.
fn read_key(alloc: Global, text: &[u8]) -> Result<StaticKey, Refused>
    requires { length text.now ≤ 65536 }
    ensures ok { IfOk result (λ key. static_key text.now ≡ Ok key.0) }
    ensures err { IfErr result (λ r. LacksKey text.now r.refusal) }
{
    match read_static_key(text) {
        Ok(key) => Ok(key),
        Err(fault) => Err(unnamed(alloc, Refusal::Key(fault))),
    }
}

// Reads the static key in the file of this name, whose text is read into the buffer.
fn load_key_in<F: Files>(
    alloc: Global,
    name: &[u8],
    files: &mut F,
    buffer: &mut [u8],
) -> Result<StaticKey, Refused>
    requires { length buffer.old ≡ 65536 }
    ensures ok { IfOk result (λ key. HoldsKey (F.holds files.old name.now) key.0) }
    ensures err { IfErr result (λ r. KeyFileEnded (F.holds files.old) name.now (F.faults files.old, F.faults files.new) r.refusal r.subject) }
    ensures kept { (n : List ℕ) → F.holds files.new n ≡ F.holds files.old n }
    ensures never_falls { F.faults files.old ≤ F.faults files.new }
{
    let count = match read_front(name, files, buffer) {
        Ok(count) => count,
        Err(fault) => return Err(gone(alloc, name, fault)),
    };
    match read_key(alloc, &buffer[..count]) {
        Ok(key) => Ok(key),
        Err(refused) => Err(refused),
    }
}

// Reads the static key in the file of this name.
fn load_key_file<F: Files>(alloc: Global, name: &[u8], files: &mut F) -> Result<StaticKey, Refused>
    ensures ok { IfOk result (λ key. HoldsKey (F.holds files.old name.now) key.0) }
    ensures err { IfErr result (λ r. KeyFileEnded (F.holds files.old) name.now (F.faults files.old, F.faults files.new) r.refusal r.subject) }
    ensures kept { (n : List ℕ) → F.holds files.new n ≡ F.holds files.old n }
    ensures never_falls { F.faults files.old ≤ F.faults files.new }
{
    let Ok(mut buffer) = vec![in alloc; 0u8; KEY] else {
        return Err(unnamed(alloc, Refusal::NoMemory));
    };
    load_key_in(alloc, name, files, &mut buffer)
}

// The part of a block that counts.
fn key_part(block: &[u8]) -> &[u8]
    ensures part { result.now ≡ take 65536 block.now }
    ensures short { length result.now ≤ 65536 }
{
    &block[..block.len().min(KEY)]
}

/// Reads the static key of a configuration.
pub(crate) fn load_key<F: Files>(
    alloc: Global,
    place: &KeyPlace,
    files: &mut F,
) -> Result<StaticKey, Refused>
    ensures ok { IfOk result (λ key. HasKey (F.holds files.old) place.now key.0) }
    ensures err { IfErr result (λ r. KeyEnded (F.holds files.old) place.now (F.faults files.old, F.faults files.new) r.refusal r.subject) }
    ensures kept { (n : List ℕ) → F.holds files.new n ≡ F.holds files.old n }
    ensures never_falls { F.faults files.old ≤ F.faults files.new }
{
    match place {
        KeyPlace::Named(name) => match load_key_file(alloc, name.as_slice(), files) {
            Ok(key) => Ok(key),
            Err(refused) => Err(refused),
        },
        KeyPlace::Inline(block) => match read_key(alloc, key_part(block.as_slice())) {
            Ok(key) => Ok(key),
            Err(refused) => Err(refused),
        },
    }
}
