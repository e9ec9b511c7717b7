//! The window of the pairs of time and id of wrapped control packets.

ghost use Rattle.std.specs.Prelude.{◌≡◌, ◌≤◌, IfOk};
ghost use Rattle.vpn_base.specs.declared.names.Freshness.TheVariants.{Fresh};
ghost use Rattle.packet_ids.specs.LongFreshness.{LongHistory, long_begun, long_recorded, long_freshness};
ghost use Rattle.packet_ids.specs.LongWindows.{LongStands, long_answer};

use crate::windows::Window;
use std::alloc::Global;
use vpn_base::{Freshness, Moment, NoMemory};

/// The anti-replay window of one sender's pairs of time and id (OpenVPN network protocol, replay
/// protection of the control channel). Its contract is over every pair that was ever accepted.
#[derive(Drop)]
pub struct LongWindow {
    // its stamp is the greatest time
    window: Window,
}

#[tactic(auto, unfolding(crate::specs::LongWindows::long_answer))]
fn judge_pair(window: &LongWindow, time: u32, id: u32, now: Moment) -> Freshness
    ensures { result ≡ long_answer window.now time id now }
{
    if id == 0 {
        return Freshness::Zero;
    }
    if time < window.window.stamp() {
        return Freshness::Old;
    }
    if time > window.window.stamp() {
        return Freshness::Fresh;
    }
    window.window.test(id, now)
}

impl LongWindow {
    /// A window of this many ids, with nothing accepted, in which late ids stay fresh for this many
    /// seconds. All of its room is taken here.
    pub fn new(alloc: Global, n: u32, t: u32) -> Result<LongWindow, NoMemory>
        requires { 1 ≤ n }
        ensures { IfOk result (λ w. LongStands w (long_begun n t)) }
    {
        let window = Window::begun(alloc, n, t)?;
        Ok(LongWindow { window })
    }

    /// Whether the pair may be accepted now, over everything that was accepted: Zero for the id 0, Old
    /// for a time below the greatest, Fresh for a time above it or where nothing was accepted, and for
    /// the greatest time by the ids that were accepted with it, as `Window::test`.
    pub fn test(&self, time: u32, id: u32, now: Moment) -> Freshness
        ensures same { result ≡ long_answer self.now time id now }
        ensures exact { (h : LongHistory) → LongStands self.now h → result ≡ long_freshness h time id now }
    {
        judge_pair(self, time, id, now)
    }

    /// Accepts a pair that `test` finds fresh. It takes no memory.
    #[tactic(auto, unfolding(crate::specs::LongWindows::long_answer))]
    pub fn accept(&mut self, time: u32, id: u32, now: Moment)
        requires { long_answer self.old time id now ≡ Fresh }
        ensures { (h : LongHistory) → LongStands self.old h → LongStands self.new (long_recorded h time id now) }
    {
        if time > self.window.stamp() {
            self.window.begin(time);
            self.window.record(id, now);
        } else {
            self.window.record(id, now);
        }
    }
}
