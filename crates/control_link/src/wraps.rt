//! Whole runs of wraps through a fresh envelope.

ghost use Rattle.std.specs.Prelude.{◌≡◌, ◌≤◌, IfOk};
ghost use Rattle.packet_ids.specs.LongFreshness.{long_begun, long_freshness};
ghost use Rattle.packet_ids.specs.Runs.{long_after, long_answers_to};
ghost use Rattle.control_link.specs.Envelope.{EnvelopeHistory, EnvelopeStands};

use crate::envelope::Envelope;
use std::alloc::Global;
use tls_crypt::{Opened, Wrap};
use vpn_base::{Freshness, Moment, NoMemory, Sid};

// Judges a wrap, and accepts it where it is fresh.
fn judge_next<W: Wrap + Drop>(env: &mut Envelope<W>, o: &Opened<'_>, now: Moment) -> Freshness
    ensures answer { (h : EnvelopeHistory) → EnvelopeStands W.wrapped env.old h → result ≡ long_freshness h.accepted o.now.time o.now.id now }
    ensures stands { (h : EnvelopeHistory) → EnvelopeStands W.wrapped env.old h →
        EnvelopeStands W.wrapped env.new (record h { accepted = long_after h.accepted (o.now.time, o.now.id, now) }) }
{
    let answer = env.check(o, now);
    match answer {
        Freshness::Fresh => env.accept(o, now),
        Freshness::Zero | Freshness::Old | Freshness::Seen | Freshness::Late => {}
    }
    answer
}

/// What a fresh envelope with a window of this many ids and seconds answers to wraps of the other end that
/// come one after the other, each with its time, its id and its moment, where each fresh one is accepted.
pub fn judge_wraps<W: Wrap + Drop>(
    alloc: Global,
    wrap: W,
    own: Sid,
    win: u32,
    win_secs: u32,
    arrivals: &[(u32, u32, Moment)],
) -> Result<Vec<Freshness>, NoMemory>
    requires { 1 ≤ win }
    ensures { IfOk result (λ answers. answers.items ≡ long_answers_to arrivals.now (long_begun win win_secs)) }
{
    let mut env = Envelope::new(alloc, wrap, own, 0, win, win_secs)?;
    let mut answers = Vec::new(alloc);
    for (time, id, now) in arrivals {
        let opened = Opened {
            first: 0,
            sid: own,
            id: *id,
            time: *time,
            plain: &[],
        };
        answers.push(judge_next(&mut env, &opened, *now))?;
    }
    Ok(answers)
}
