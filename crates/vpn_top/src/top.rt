//! The call that the program makes.

ghost use Rattle.std.specs.Prelude.{◌≡◌, ◌<◌, ◌≤◌, ◌^◌, ◌⊎◌, ℕ, List, length, Option, Some, None, IsSome, map, option_map};
ghost use Rattle.std.specs.String.{string_bytes};
ghost use Rattle.vpn_base.specs.Answers.{Rose};
ghost use Rattle.vpn_base.specs.Files.{Holding, Absent, Held};
ghost use Rattle.vpn_base.specs.declared.names.Role.TheVariants as roles;
ghost use Rattle.route_file.specs.Output.{routes};
ghost use Rattle.replay_links.specs.Schedule.{spells};
ghost use Rattle.vpn_text.specs.declared.config.ConfigFault.{ConfigFault};
ghost use Rattle.tls_crypt.specs.declared.static_key.KeyFault.{KeyFault};
ghost use Rattle.ovpn_config.specs.declared.settings.Settings.{Settings};
ghost use Rattle.ovpn_config.specs.declared.settings.KeyPlace.TheVariants.{Named};
ghost use Rattle.vpn_top.specs.Words.{Check, Command, Replay, Route, TakesRole, command_of, configuration_of};
ghost use Rattle.vpn_top.specs.internal.Requests.{asked};
ghost use Rattle.vpn_top.specs.Configuration.{IsConfigured, IsKeyed, IsMisconfigured, IsMiskeyed};
ghost use Rattle.vpn_top.specs.Answer.{Answered, Finished, IsCutOff, exit_status as status_for};
ghost use Rattle.vpn_top.specs.Replay.{HoldHalt};
ghost use Rattle.vpn_top.specs.internal.Told.{Tells};

use crate::check::check;
use crate::refusal::Refusal;
use crate::replay::{load_server, replay};
use crate::route::route;
use crate::writing::write_all;
use std::alloc::Global;
use vpn_base::{Files, Sink};

/// What lies outside the program: files, the output and the error output.
#[derive(Drop)]
pub struct Outside<F, S, E> {
    /// The files.
    pub files: F,
    /// The output.
    pub out: S,
    /// The error output.
    pub err: E,
}

// What the words ask for, with the names of its files.
#[derive(Clone, Copy)]
pub(crate) enum Request<'a> {
    Route(&'a str),
    Check(&'a str),
    Replay(&'a str, &'a str),
}

// The command that the words give.
fn command_in(words: &[String]) -> Option<Request<'_>>
    ensures { option_map asked result ≡ command_of (map string_bytes words.now) }
{
    match words {
        [command, name] => {
            if command.as_str() == "route" {
                Some(Request::Route(name.as_str()))
            } else if command.as_str() == "check" {
                Some(Request::Check(name.as_str()))
            } else {
                None
            }
        }
        [command, config, schedule] => {
            if command.as_str() == "replay" {
                Some(Request::Replay(config.as_str(), schedule.as_str()))
            } else {
                None
            }
        }
        _ => None,
    }
}

// Writes the refusal's line, and answers which refusal that is: want of memory where there was not
// enough to make the line, and the output where the line could not be written.
fn tell<E: Sink>(alloc: Global, refusal: Refusal, subject: &[u8], err: &mut E) -> Refusal
    ensures told { Tells subject.now refusal result (E.contents err.old) (E.contents err.new) (E.faults err.old) (E.faults err.new) }
    ensures never_falls { E.faults err.old ≤ E.faults err.new }
{
    match refusal.line(alloc, subject) {
        Ok(line) => match write_all(err, &line) {
            Ok(()) => refusal,
            Err(_) => Refusal::Output,
        },
        Err(_) => match write_all(err, b"no memory\n") {
            Ok(()) => Refusal::NoMemory,
            Err(_) => Refusal::Output,
        },
    }
}

// The exit status: 0 where everything was done.
fn exit_status(refusal: Option<Refusal>) -> u8
    ensures { result ≡ status_for refusal }
{
    match refusal {
        None => 0,
        Some(refusal) => refusal.status(),
    }
}

/// Tells that memory is short where there was none for the words themselves, and answers the exit status.
pub fn no_memory<E: Sink>(alloc: Global, err: &mut E) -> u8
    ensures { (result ≡ 8) ⊎ ((result ≡ 6) × Rose (E.faults err.old) (E.faults err.new)) }
{
    let told = tell(alloc, Refusal::NoMemory, b"", err);
    exit_status(Some(told))
}

// Carries out `route`, and answers the refusal that was told.
fn run_route<F: Files, S: Sink, E: Sink>(
    alloc: Global,
    name: &str,
    files: &mut F,
    out: &mut S,
    err: &mut E,
) -> Option<Refusal>
    ensures finished { Finished (Some (Route name.now)) (F.holds files.old) result (record {
      before = S.contents out.old;
      after = S.contents out.new;
      files = (F.faults files.old, F.faults files.new);
      out = (S.faults out.old, S.faults out.new);
      err = (E.faults err.old, E.faults err.new);
    }) (E.contents err.old) (E.contents err.new) }
    ensures kept { (name : List ℕ) → F.holds files.new name ≡ F.holds files.old name }
{
    match route(alloc, name.as_bytes(), files, out) {
        None => None,
        Some(refusal) => Some(tell(alloc, refusal, name.as_bytes(), err)),
    }
}

// Carries out `check`, and answers the refusal that was told.
fn run_check<F: Files, S: Sink, E: Sink>(
    alloc: Global,
    name: &str,
    files: &mut F,
    out: &mut S,
    err: &mut E,
) -> Option<Refusal>
    ensures finished { Finished (Some (Check name.now)) (F.holds files.old) result (record {
      before = S.contents out.old;
      after = S.contents out.new;
      files = (F.faults files.old, F.faults files.new);
      out = (S.faults out.old, S.faults out.new);
      err = (E.faults err.old, E.faults err.new);
    }) (E.contents err.old) (E.contents err.new) }
    ensures kept { (name : List ℕ) → F.holds files.new name ≡ F.holds files.old name }
{
    match check(alloc, name.as_bytes(), files, out) {
        None => None,
        Some(refused) => Some(tell(alloc, refused.refusal, refused.subject.as_slice(), err)),
    }
}

// Carries out `replay`, and answers the refusal that was told, with what it was lent.
fn run_replay<F: Files, S: Sink, E: Sink>(
    alloc: Global,
    config: &str,
    schedule: &str,
    mut files: F,
    out: S,
    err: &mut E,
) -> (Option<Refusal>, F, S)
    ensures finished { Finished (Some (Replay config.now schedule.now)) (F.holds files) result.0 (record {
      before = S.contents out;
      after = S.contents result.2;
      files = (F.faults files, F.faults result.1);
      out = (S.faults out, S.faults result.2);
      err = (E.faults err.old, E.faults err.new);
    }) (E.contents err.old) (E.contents err.new) }
    ensures kept { (name : List ℕ) → F.holds result.1 name ≡ F.holds files name }
{
    let loaded = match load_server(alloc, config.as_bytes(), &mut files) {
        Ok(loaded) => loaded,
        Err(refused) => {
            let told = tell(alloc, refused.refusal, refused.subject.as_slice(), err);
            return (Some(told), files, out);
        }
    };
    let (refusal, files, out) = replay(alloc, loaded, schedule.as_bytes(), files, out);
    match refusal {
        None => (None, files, out),
        Some(refusal) => {
            let told = tell(alloc, refusal, schedule.as_bytes(), err);
            (Some(told), files, out)
        }
    }
}

// Carries out the command that the words give, and answers the refusal that was told, with what it was lent.
fn run<F: Files, S: Sink, E: Sink>(
    alloc: Global,
    words: &[String],
    mut files: F,
    mut out: S,
    err: &mut E,
) -> (Option<Refusal>, F, S)
    ensures finished { Finished (command_of (map string_bytes words.now)) (F.holds files) result.0 (record {
      before = S.contents out;
      after = S.contents result.2;
      files = (F.faults files, F.faults result.1);
      out = (S.faults out, S.faults result.2);
      err = (E.faults err.old, E.faults err.new);
    }) (E.contents err.old) (E.contents err.new) }
    ensures kept { (name : List ℕ) → F.holds result.1 name ≡ F.holds files name }
{
    match command_in(words) {
        None => {
            let told = tell(alloc, Refusal::Usage, b"", err);
            (Some(told), files, out)
        }
        Some(Request::Route(name)) => {
            let refusal = run_route(alloc, name, &mut files, &mut out, err);
            (refusal, files, out)
        }
        Some(Request::Check(name)) => {
            let refusal = run_check(alloc, name, &mut files, &mut out, err);
            (refusal, files, out)
        }
        Some(Request::Replay(config, schedule)) => {
            run_replay(alloc, config, schedule, files, out, err)
        }
    }
}

/// Carries out the command that the words after the program's name give, and answers the exit
/// status with what lies outside, handed back.
///
/// `route FILE` prints where each packet of a route file goes. `check FILE` prints the configuration of
/// a server or a client in its canonical text, where it and its static key are accepted. `replay CONFIG
/// SCHEDULE` runs the server of a configuration over recorded input, and prints all that it does, up to
/// where it is stopped. The status is 0 where everything was done; 1 where the words are no command; 2
/// where a route file, a configuration or a static key is refused, of a route file with the output of the
/// lines before its faulty one; 3 where there is no such file or it can't be read; 5 where a line of a
/// schedule is refused, with what was done at the events before it; 6 where the output or the error output
/// can't be written; 7 where a server took 2^48 events and was not stopped; 8 where memory is short, or
/// was at an event of a replay. A status other than 0 comes with its line on the error output.
pub fn vpn_main<F: Files, S: Sink, E: Sink>(
    alloc: Global,
    words: &[String],
    outside: Outside<F, S, E>,
) -> (u8, Outside<F, S, E>)
    // How the call ended, with its status, the output and the error output.
    ensures answered { Answered (command_of (map string_bytes words.now)) (F.holds outside.files) result.0 (record {
      before = S.contents outside.out;
      after = S.contents result.1.out;
      files = (F.faults outside.files, F.faults result.1.files);
      out = (S.faults outside.out, S.faults result.1.out);
      err = (E.faults outside.err, E.faults result.1.err);
    }) (E.contents outside.err) (E.contents result.1.err) }

    // Wrong words are refused as such, and no others.
    ensures usage { result.0 ≡ 1 → command_of (map string_bytes words.now) ≡ None }
    ensures not_usage { command_of (map string_bytes words.now) ≡ None →
        (result.0 ≡ 1)
        ⊎ IsCutOff result.0 (S.faults outside.out, S.faults result.1.out) (E.faults outside.err, E.faults result.1.err) }

    // A file without a faulty line is printed whole, and one with a faulty line is refused.
    ensures whole { (name bytes : List ℕ) → command_of (map string_bytes words.now) ≡ Some (Route name) →
        F.holds outside.files name ≡ Held bytes → (routes bytes).fault ≡ None →
        (result.0 ≡ 0)
        ⊎ ((result.0 ≡ 3) × Rose (F.faults outside.files) (F.faults result.1.files))
        ⊎ IsCutOff result.0 (S.faults outside.out, S.faults result.1.out) (E.faults outside.err, E.faults result.1.err) }
    ensures faulty { (name bytes : List ℕ) → command_of (map string_bytes words.now) ≡ Some (Route name) →
        F.holds outside.files name ≡ Held bytes → IsSome (routes bytes).fault →
        (result.0 ≡ 2)
        ⊎ ((result.0 ≡ 3) × Rose (F.faults outside.files) (F.faults result.1.files))
        ⊎ IsCutOff result.0 (S.faults outside.out, S.faults result.1.out) (E.faults outside.err, E.faults result.1.err) }
    ensures missing { (name : List ℕ) → command_of (map string_bytes words.now) ≡ Some (Route name) →
        F.holds outside.files name ≡ Absent →
        (result.0 ≡ 3)
        ⊎ IsCutOff result.0 (S.faults outside.out, S.faults result.1.out) (E.faults outside.err, E.faults result.1.err) }

    // A configuration that is accepted with its static key is printed by `check`, and one that is not is refused, by
    // whatever command reads it. One that runs a server takes no client's, and looks for its static key after that.
    ensures checked { (name : List ℕ) (s : Settings) → command_of (map string_bytes words.now) ≡ Some (Check name) →
        IsConfigured (F.holds outside.files name) s → IsKeyed (F.holds outside.files) s.key →
        (result.0 ≡ 0)
        ⊎ ((result.0 ≡ 3) × Rose (F.faults outside.files) (F.faults result.1.files))
        ⊎ IsCutOff result.0 (S.faults outside.out, S.faults result.1.out) (E.faults outside.err, E.faults result.1.err) }
    ensures misconfigured { (command : Command) (name : List ℕ) (fault : ConfigFault) → command_of (map string_bytes words.now) ≡ Some command → configuration_of command ≡ Some name →
        IsMisconfigured (F.holds outside.files name) fault →
        (result.0 ≡ 2)
        ⊎ ((result.0 ≡ 3) × Rose (F.faults outside.files) (F.faults result.1.files))
        ⊎ IsCutOff result.0 (S.faults outside.out, S.faults result.1.out) (E.faults outside.err, E.faults result.1.err) }
    ensures miskeyed { (command : Command) (name : List ℕ) (s : Settings) (fault : KeyFault) → command_of (map string_bytes words.now) ≡ Some command → configuration_of command ≡ Some name →
        IsConfigured (F.holds outside.files name) s → TakesRole command s.role → IsMiskeyed (F.holds outside.files) s.key fault →
        (result.0 ≡ 2)
        ⊎ ((result.0 ≡ 3) × Rose (F.faults outside.files) (F.faults result.1.files))
        ⊎ IsCutOff result.0 (S.faults outside.out, S.faults result.1.out) (E.faults outside.err, E.faults result.1.err) }
    ensures lacking { (command : Command) (name : List ℕ) → command_of (map string_bytes words.now) ≡ Some command → configuration_of command ≡ Some name →
        F.holds outside.files name ≡ Absent →
        (result.0 ≡ 3)
        ⊎ IsCutOff result.0 (S.faults outside.out, S.faults result.1.out) (E.faults outside.err, E.faults result.1.err) }
    ensures keyless { (command : Command) (name file : List ℕ) (s : Settings) → command_of (map string_bytes words.now) ≡ Some command → configuration_of command ≡ Some name →
        IsConfigured (F.holds outside.files name) s → TakesRole command s.role → s.key ≡ Named file → F.holds outside.files file ≡ Absent →
        (result.0 ≡ 3)
        ⊎ IsCutOff result.0 (S.faults outside.out, S.faults result.1.out) (E.faults outside.err, E.faults result.1.err) }
    ensures not_server { (config schedule : List ℕ) (s : Settings) → command_of (map string_bytes words.now) ≡ Some (Replay config schedule) →
        IsConfigured (F.holds outside.files config) s → s.role ≡ roles.Client →
        (result.0 ≡ 2)
        ⊎ ((result.0 ≡ 3) × Rose (F.faults outside.files) (F.faults result.1.files))
        ⊎ IsCutOff result.0 (S.faults outside.out, S.faults result.1.out) (E.faults outside.err, E.faults result.1.err) }

    // A schedule is replayed to its end where none of its lines is refused; one of whose lines is refused, up to that
    // line or up to a halt before it; and one that is absent is missing.
    ensures replayed { (config schedule text : List ℕ) (s : Settings) → command_of (map string_bytes words.now) ≡ Some (Replay config schedule) →
        IsConfigured (F.holds outside.files config) s → s.role ≡ roles.Server → IsKeyed (F.holds outside.files) s.key →
        F.holds outside.files schedule ≡ Held text → (spells text).fault ≡ None → length (spells text).events < 2 ^ 48 →
        (result.0 ≡ 0)
        ⊎ ((result.0 ≡ 3) × Rose (F.faults outside.files) (F.faults result.1.files))
        ⊎ IsCutOff result.0 (S.faults outside.out, S.faults result.1.out) (E.faults outside.err, E.faults result.1.err) }
    ensures refused { (config schedule text : List ℕ) (s : Settings) → command_of (map string_bytes words.now) ≡ Some (Replay config schedule) →
        IsConfigured (F.holds outside.files config) s → s.role ≡ roles.Server → IsKeyed (F.holds outside.files) s.key →
        F.holds outside.files schedule ≡ Held text → IsSome (spells text).fault → length (spells text).events < 2 ^ 48 →
        (result.0 ≡ 5)
        ⊎ ((result.0 ≡ 0) × HoldHalt (spells text).events)
        ⊎ ((result.0 ≡ 3) × Rose (F.faults outside.files) (F.faults result.1.files))
        ⊎ IsCutOff result.0 (S.faults outside.out, S.faults result.1.out) (E.faults outside.err, E.faults result.1.err) }
    ensures unscheduled { (config schedule : List ℕ) (s : Settings) → command_of (map string_bytes words.now) ≡ Some (Replay config schedule) →
        IsConfigured (F.holds outside.files config) s → s.role ≡ roles.Server → IsKeyed (F.holds outside.files) s.key →
        F.holds outside.files schedule ≡ Absent →
        (result.0 ≡ 3)
        ⊎ IsCutOff result.0 (S.faults outside.out, S.faults result.1.out) (E.faults outside.err, E.faults result.1.err) }

    // No call changes what files hold.
    ensures kept { (name : List ℕ) → F.holds result.1.files name ≡ F.holds outside.files name }
{
    let Outside {
        files,
        out,
        mut err,
    } = outside;
    let (refusal, files, out) = run(alloc, words, files, out, &mut err);
    (exit_status(refusal), Outside { files, out, err })
}
