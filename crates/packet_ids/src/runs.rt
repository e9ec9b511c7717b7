//! Whole runs of ids through a fresh window.

ghost use Rattle.std.specs.Prelude.{◌≡◌, ◌≤◌, ◌∷◌, [], ℕ, List, IfOk};
ghost use Rattle.packet_ids.specs.Freshness.{Accepted, History, begun, freshness};
ghost use Rattle.packet_ids.specs.Window.{Stands};
ghost use Rattle.packet_ids.specs.LongFreshness.{LongHistory, long_begun, long_freshness, of_time};
ghost use Rattle.packet_ids.specs.LongWindows.{LongStands};
ghost use Rattle.packet_ids.specs.Runs.{AreDistinct, WrapId, after, after_all, answers_to, long_after, long_after_all, long_answers_to};

use crate::long_windows::LongWindow;
use crate::windows::Window;
use std::alloc::Global;
use vpn_base::{Freshness, Moment, NoMemory};

fn judge_next(window: &mut Window, id: u32, now: Moment) -> Freshness
    ensures answer { (h : History) → Stands window.old h → result ≡ freshness h id now }
    ensures stands { (h : History) → Stands window.old h → Stands window.new (after h (id, now)) }
{
    let answer = window.test(id, now);
    match answer {
        Freshness::Fresh => window.accept(id, now),
        Freshness::Zero | Freshness::Old | Freshness::Seen | Freshness::Late => {}
    }
    answer
}

fn judge_next_wrap(window: &mut LongWindow, time: u32, id: u32, now: Moment) -> Freshness
    ensures answer { (h : LongHistory) → LongStands window.old h → result ≡ long_freshness h time id now }
    ensures stands { (h : LongHistory) → LongStands window.old h → LongStands window.new (long_after h (time, id, now)) }
{
    let answer = window.test(time, id, now);
    match answer {
        Freshness::Fresh => window.accept(time, id, now),
        Freshness::Zero | Freshness::Old | Freshness::Seen | Freshness::Late => {}
    }
    answer
}

/// What a window of this many ids and seconds, fresh at first, answers to ids that come one after the
/// other, each with its moment, where each fresh one is accepted.
pub fn judge_ids(
    alloc: Global,
    n: u32,
    t: u32,
    arrivals: &[(u32, Moment)],
) -> Result<Vec<Freshness>, NoMemory>
    requires { 1 ≤ n }
    ensures { IfOk result (λ answers. answers.items ≡ answers_to arrivals.now (begun n t)) }
{
    let mut window = Window::new(alloc, n, t)?;
    let mut answers = Vec::new(alloc);
    for (id, now) in arrivals {
        answers.push(judge_next(&mut window, *id, *now))?;
    }
    Ok(answers)
}

/// What a window of pairs of this many ids and seconds, fresh at first, answers to pairs of time and id
/// that come one after the other, each with its moment, where each fresh one is accepted.
pub fn judge_wrap_ids(
    alloc: Global,
    n: u32,
    t: u32,
    arrivals: &[(u32, u32, Moment)],
) -> Result<Vec<Freshness>, NoMemory>
    requires { 1 ≤ n }
    ensures { IfOk result (λ answers. answers.items ≡ long_answers_to arrivals.now (long_begun n t)) }
{
    let mut window = LongWindow::new(alloc, n, t)?;
    let mut answers = Vec::new(alloc);
    for (time, id, now) in arrivals {
        answers.push(judge_next_wrap(&mut window, *time, *id, *now))?;
    }
    Ok(answers)
}

/// No id is accepted twice, whatever ids come in whatever order.
pub fn accepts_ids_once()
    ensures { (n t : ℕ) (arrivals : List Accepted) → AreDistinct (after_all arrivals (begun n t)).accepted }
{}

/// No pair of time and id is accepted twice: of each time, every id is accepted once at most.
pub fn accepts_wrap_ids_once()
    ensures { (n t : ℕ) (arrivals : List WrapId) (time : ℕ) → AreDistinct (of_time time (long_after_all arrivals (long_begun n t)).accepted) }
{}
