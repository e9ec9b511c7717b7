//! Packet ids: given out in order, and judged fresh by everything that was accepted before.
#![tactic(auto)]

mod long_windows;
mod places;
mod runs;
mod sending;
mod windows;

pub use long_windows::LongWindow;
pub use runs::{accepts_ids_once, accepts_wrap_ids_once, judge_ids, judge_wrap_ids};
pub use sending::{SendIds, Spent};
pub use windows::Window;
