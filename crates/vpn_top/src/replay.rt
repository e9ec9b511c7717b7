//! The command `replay`: a server run over a schedule, and the lines of what it does.

ghost use Rattle.std.specs.Prelude.{◌≡◌, ◌≤◌, ℕ, List, IfOk, IfErr};
ghost use Rattle.vpn_base.specs.Files.{Holding};
ghost use Rattle.vpn_base.specs.declared.names.Role.TheVariants as roles;
ghost use Rattle.ovpn_config.specs.Bounds.{IsBounded};
ghost use Rattle.vpn_top.specs.Replay.{RanReplay, done_line};
ghost use Rattle.vpn_top.specs.internal.Refused.{Printing};
ghost use Rattle.vpn_top.specs.internal.Replaying.{IsLoaded, ServerEnded, refusal_by, refused_by, stopped_by, unread_by};

use crate::loading::{Refused, load_config, load_key, unnamed};
use crate::refusal::Refusal;
use crate::writing::write_all;
use itoa::Buffer;
use ovpn_config::Settings;
use replay_links::{ReplayEnd, a_long_file_is_refused_where_it_passes_its_limit};
use server_promise::runs_keep_the_promise;
use server_replay::Replayed;
use server_table::only_the_end_stops;
use std::alloc::Global;
use tls_crypt::StaticKey;
use vpn_base::{Files, NoMemory, Role, Sink, Text};
use vpn_links::LinkFault;
use vpn_node::{Outcome, Ran};

/// What a server is made of.
#[derive(Drop)]
pub(crate) struct Loaded {
    pub(crate) settings: Settings,
    pub(crate) key: StaticKey,
}

/// Reads the configuration of a server of this name, with its static key.
pub(crate) fn load_server<F: Files>(
    alloc: Global,
    config: &[u8],
    files: &mut F,
) -> Result<Loaded, Refused>
    ensures ok { IfOk result (λ l. IsLoaded (F.holds files.old) config.now l) }
    ensures bounded { IfOk result (λ l. IsBounded l.settings) }
    ensures err { IfErr result (λ r. ServerEnded (F.holds files.old) config.now (F.faults files.old, F.faults files.new) r.refusal r.subject) }
    ensures kept { (n : List ℕ) → F.holds files.new n ≡ F.holds files.old n }
    ensures never_falls { F.faults files.old ≤ F.faults files.new }
{
    let settings = match load_config(alloc, config, files) {
        Ok(settings) => settings,
        Err(refused) => return Err(refused),
    };
    match settings.role {
        Role::Server => {}
        Role::Client => return Err(unnamed(alloc, Refusal::NotServer)),
    }
    match load_key(alloc, &settings.key, files) {
        Ok(key) => Ok(Loaded { settings, key }),
        Err(refused) => Err(refused),
    }
}

// What a schedule is refused for that gave no further event.
fn unread_by(ended: Option<ReplayEnd>) -> Refusal
    ensures { result ≡ unread_by ended }
{
    match ended {
        Some(ReplayEnd::Missing) => Refusal::Missing,
        _ => Refusal::Unreadable,
    }
}

// The line of a schedule that is refused. It is there.
fn refused_by(ended: Option<ReplayEnd>) -> Refusal
    ensures { result ≡ refused_by ended }
{
    match ended {
        Some(ReplayEnd::Refused { line, kind }) => Refusal::Schedule { line, kind },
        _ => Refusal::NoMemory,
    }
}

// A good end, unless something was left out for want of memory.
fn stopped_by(left_out: u64) -> Option<Refusal>
    ensures { result ≡ stopped_by left_out }
{
    if left_out == 0 {
        None
    } else {
        Some(Refusal::NoMemory)
    }
}

// What a run is refused for. Its links answer no other faults than these.
fn refusal_by(is_cut: bool, ended: Option<ReplayEnd>, ran: Ran) -> Option<Refusal>
    ensures { result ≡ refusal_by is_cut ran.outcome ended ran.refused }
{
    if is_cut {
        return Some(Refusal::Output);
    }
    match ran.outcome {
        Outcome::Stopped => stopped_by(ran.refused),
        Outcome::TurnsSpent => Some(Refusal::TurnsSpent),
        Outcome::Memory => Some(Refusal::NoMemory),
        Outcome::Fault(LinkFault::Input) => Some(unread_by(ended)),
        Outcome::Fault(LinkFault::Schedule) => Some(refused_by(ended)),
        Outcome::Fault(_) => Some(Refusal::Output),
    }
}

// The last line of a replay.
fn done_line(alloc: Global, events: u64) -> Result<Vec<u8>, NoMemory>
    ensures { IfOk result (λ line. line.items ≡ done_line events) }
{
    let mut buffer = Buffer::new();
    let mut line = Vec::new(alloc);
    line.extend_from_slice(b"done ")?;
    line.extend_from_slice(buffer.format(events).as_bytes())?;
    line.extend_from_slice(b" lost 0\n")?;
    Ok(line)
}

// Writes the last line of a replay.
fn write_done<S: Sink>(alloc: Global, events: u64, out: &mut S) -> Option<Refusal>
    ensures done { Printing (done_line events) (S.contents out.old) (S.contents out.new) (S.faults out.old, S.faults out.new) result }
    ensures never_falls { S.faults out.old ≤ S.faults out.new }
{
    let Ok(line) = done_line(alloc, events) else {
        return Some(Refusal::NoMemory);
    };
    match write_all(out, &line) {
        Ok(()) => None,
        Err(_) => Some(Refusal::Output),
    }
}

/// Runs this server over the schedule of this name, and writes the lines of what it does and the last line. The
/// answer is the refusal, if it was not done, with what it was lent.
pub(crate) fn replay<F: Files, S: Sink>(
    alloc: Global,
    loaded: Loaded,
    schedule: &[u8],
    files: F,
    out: S,
) -> (Option<Refusal>, F, S)
    requires bounded { IsBounded loaded.settings }
    requires server { loaded.settings.role ≡ roles.Server }
    ensures ran { (holds : List ℕ → Holding) (config : List ℕ) (files_before : ℕ) (err : ℕ × ℕ) → holds ≡ F.holds files → files_before ≤ F.faults files →
        IsLoaded holds config loaded → RanReplay holds config schedule.now result.0 schedule.now (record {
          before = S.contents out;
          after = S.contents result.2;
          files = (files_before, F.faults result.1);
          out = (S.faults out, S.faults result.2);
          err = err;
        }) }
    ensures kept { (n : List ℕ) → F.holds result.1 n ≡ F.holds files n }
    ensures out_never_falls { S.faults out ≤ S.faults result.2 }
{
    runs_keep_the_promise();
    a_long_file_is_refused_where_it_passes_its_limit();
    only_the_end_stops();
    let Ok(name) = Text::copy(alloc, schedule) else {
        return (Some(Refusal::NoMemory), files, out);
    };
    let Loaded { settings, key } = loaded;
    let Replayed {
        files,
        mut out,
        ended,
        is_cut,
        ran,
    } = server_replay::replay(alloc, settings, key, files, name, out);
    match refusal_by(is_cut, ended, ran) {
        Some(refusal) => (Some(refusal), files, out),
        None => {
            let refusal = write_done(alloc, ran.events, &mut out);
            (refusal, files, out)
        }
    }
}
