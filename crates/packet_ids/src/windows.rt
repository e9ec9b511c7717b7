//! The window of the packet ids of one sender.

ghost use Rattle.std.specs.Prelude.{◌≡◌, ◌≢◌, ℕ, ◌<◌, ◌≤◌, IfOk};
ghost use Rattle.vpn_base.specs.declared.names.Freshness.TheVariants.{Fresh};
ghost use Rattle.packet_ids.specs.Freshness.{History, begun, recorded, freshness, greatest_id};
ghost use Rattle.packet_ids.specs.Window.{Stands, answer, has_id, has_old, has_overtaking, place_of};

use crate::places::{Place, put, unused_places};
use std::alloc::Global;
use std::marker::Model;
use vpn_base::{Freshness, Moment, NoMemory};

/// The anti-replay window of one sender's packet ids (RFC 4303, section 3.4.3, with a limit on the
/// age of late packets). It forgets ids that lie its width or more below the greatest; its contract is
/// over every id that was ever accepted.
#[derive(Drop)]
pub struct Window {
    width: u32,
    seconds: u32,
    // a place with another stamp does not count
    stamp: u32,
    greatest: u32,
    places: Vec<Place>,
}

impl Model for Window {
    ghost use Rattle.packet_ids.specs.Window.{Kept};
    ghost use Rattle.packet_ids.specs.internal.Sound.{IsSound};

    ghost Value = { Kept };

    ghost view = { λ w. record { width = w.width; seconds = w.seconds; stamp = w.stamp; greatest = w.greatest; places = w.places.items } };

    ghost invariant = { λ w. IsSound w.width w.stamp w.places.items };
}

impl Window {
    /// A window of this many ids, with nothing accepted, in which late ids stay fresh for this many
    /// seconds. All of its room is taken here.
    pub fn new(alloc: Global, n: u32, t: u32) -> Result<Window, NoMemory>
        requires { 1 ≤ n }
        ensures { IfOk result (λ w. Stands w (begun n t)) }
    {
        Window::begun(alloc, n, t)
    }

    /// The same with its stamp.
    pub(crate) fn begun(alloc: Global, n: u32, t: u32) -> Result<Window, NoMemory>
        requires { 1 ≤ n }
        ensures stands { IfOk result (λ w. Stands w (begun n t)) }
        ensures stamp { IfOk result (λ w. w.stamp ≡ 0) }
    {
        let places = unused_places(alloc, n)?;
        Ok(Window {
            width: n,
            seconds: t,
            stamp: 0,
            greatest: 0,
            places,
        })
    }

    fn place_of(&self, id: u32) -> Place
        ensures { result ≡ place_of self.now id }
    {
        self.places[(id % self.width) as usize]
    }

    fn has_id(&self, id: u32) -> bool
        ensures { result ≡ has_id self.now id }
    {
        let place = self.place_of(id);
        place.stamp == self.stamp && place.id == id
    }

    fn has_old(&self, id: u32, now: Moment) -> bool
        ensures { result ≡ has_old self.now now id }
    {
        let place = self.place_of(id);
        self.has_id(id) && 1000 * u64::from(self.seconds) < now.0.saturating_sub(place.moment.0)
    }

    // Only the ids above this one are looked up, so none for an id above the greatest.
    fn has_overtaking(&self, id: u32, now: Moment) -> bool
        ensures { result ≡ has_overtaking self.now id now }
    {
        for i in id..self.greatest {
            if self.has_old(i + 1, now) {
                return true;
            }
        }
        false
    }

    #[tactic(auto, unfolding(crate::specs::Window::answer))]
    fn judge(&self, id: u32, now: Moment) -> Freshness
        ensures { result ≡ answer self.now id now }
    {
        if id == 0 {
            return Freshness::Zero;
        }
        if self.width <= self.greatest.saturating_sub(id) {
            return Freshness::Old;
        }
        if self.has_id(id) {
            return Freshness::Seen;
        }
        if self.has_overtaking(id, now) {
            return Freshness::Late;
        }
        Freshness::Fresh
    }

    /// Whether the id may be accepted now, over everything that was accepted: Zero for the id 0, Old
    /// where it lies its width or more below the greatest, Seen where it was accepted, Late where a
    /// higher one was accepted more than the window's seconds ago, else Fresh: the first that holds.
    pub fn test(&self, id: u32, now: Moment) -> Freshness
        ensures same { result ≡ answer self.now id now }
        ensures exact { (h : History) → Stands self.now h → result ≡ freshness h id now }
    {
        self.judge(id, now)
    }

    /// Accepts an id that `test` finds fresh. It takes no memory.
    pub fn accept(&mut self, id: u32, now: Moment)
        requires { answer self.old id now ≡ Fresh }
        ensures { (h : History) → Stands self.old h → Stands self.new (recorded h id now) }
    {
        self.record(id, now);
    }

    /// The greatest id that was accepted, and 0 before the first.
    pub fn greatest(&self) -> u32
        ensures { (h : History) → Stands self.now h → result ≡ greatest_id h.accepted }
    {
        self.greatest
    }

    /// The stamp under which ids are accepted, at first 0.
    pub(crate) fn stamp(&self) -> u32
        ensures { result ≡ self.now.stamp }
    {
        self.stamp
    }

    /// Accepts an id, as `accept`.
    pub(crate) fn record(&mut self, id: u32, now: Moment)
        requires { answer self.old id now ≡ Fresh }
        ensures stands { (h : History) → Stands self.old h → Stands self.new (recorded h id now) }
        ensures stamp { self.new.stamp ≡ self.old.stamp }
    {
        let place = Place {
            stamp: self.stamp,
            id,
            moment: now,
        };
        put(&mut self.places, (id % self.width) as usize, place);
        self.greatest = self.greatest.max(id);
    }

    /// Forgets all that was accepted, without a look at the places: none of them has the new stamp.
    pub(crate) fn begin(&mut self, stamp: u32)
        requires { self.old.stamp < stamp }
        ensures begins { (h : History) → Stands self.old h → Stands self.new (begun h.width h.seconds) }
        ensures fresh { (id : ℕ) (now : _) → id ≢ 0 → answer self.new id now ≡ Fresh }
        ensures stamp { self.new.stamp ≡ stamp }
    {
        self.stamp = stamp;
        self.greatest = 0;
    }
}
