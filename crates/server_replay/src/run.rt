//! A replay of the server.

ghost use Rattle.std.specs.Prelude.{◌≡◌, ◌≤◌, true, ℕ, List};
ghost use Rattle.ovpn_config.specs.Bounds.{IsBounded};
ghost use Rattle.vpn_base.specs.Answers.{Rose};
ghost use Rattle.vpn_base.specs.declared.names.Role.TheVariants as roles;
ghost use Rattle.server_table.specs.Table.{table_begun};
ghost use Rattle.server_replay.specs.Replays.{BrokeBy, IsReplay};

use crate::serve::serve;
use ovpn_config::Settings;
use peer_session::PeerSession;
use replay_links::{ReplayEnd, ReplayLinks, a_cut_is_a_failure, a_whole_schedule_ends_the_program};
use server_table::only_the_end_stops;
use std::alloc::Global;
use tls_crypt::{StaticKey, Wrapper};
use vpn_base::{Files, Sink, Text};
use vpn_node::Ran;

/// What a replay came to, with the files and the output that it was given.
#[derive(Drop)]
pub struct Replayed<F, S> {
    /// The files.
    pub files: F,
    /// The output.
    pub out: S,
    /// Why the last event that was asked for did not come, if it did not for the schedule.
    pub ended: Option<ReplayEnd>,
    /// Whether the output failed within the line of an effect, so that no further line was written.
    pub is_cut: bool,
    /// How the run ended, with its counts.
    pub ran: Ran,
}

// What links of a replay came to, at the end of a run.
fn taken_apart<F: Files, S: Sink>(links: ReplayLinks<F, S>, ran: Ran) -> Replayed<F, S>
    ensures parts { (result.files ≡ links.files) × (result.out ≡ links.out) }
    ensures end { (result.ended ≡ links.ended) × (result.is_cut ≡ links.is_cut) }
    ensures ran { result.ran ≡ ran }
{
    let ended = links.ended();
    let is_cut = links.is_cut();
    let (files, out) = links.parts();
    Replayed {
        files,
        out,
        ended,
        is_cut,
        ran,
    }
}

/// Runs a server of this configuration and static key, to which nothing has come, over the schedule of a name,
/// and writes what it does to the output as lines: up to Stop, to a fault of the schedule, to one of files or
/// output, or to 2^48 events. An event for which there is no memory is left out, reported and counted.
pub fn replay<F: Files, S: Sink>(
    alloc: Global,
    settings: Settings,
    key: StaticKey,
    files: F,
    schedule: Text,
    out: S,
) -> Replayed<F, S>
    requires bounded { IsBounded settings }
    requires server { settings.role ≡ roles.Server }
    ensures run { IsReplay (table_begun settings key.0) (F.holds files schedule) (S.contents out) (S.contents result.out) result.ended result.is_cut result.ran }
    ensures broke { BrokeBy result.ran.outcome result.ended (F.faults files, F.faults result.files) (S.faults out, S.faults result.out) }
    ensures cut { result.is_cut ≡ true → Rose (S.faults out) (S.faults result.out) }
    ensures kept { (name : List ℕ) → F.holds result.files name ≡ F.holds files name }
    ensures out { S.faults out ≤ S.faults result.out }
{
    a_cut_is_a_failure();
    a_whole_schedule_ends_the_program();
    only_the_end_stops();
    let links = ReplayLinks::new(alloc, files, schedule, out);
    let (links, ran) = serve::<PeerSession<Wrapper>, ReplayLinks<F, S>>(
        alloc, settings, key, links,
    );
    taken_apart(links, ran)
}
