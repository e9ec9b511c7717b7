//! The places of a window's ring.

ghost use Rattle.std.specs.Prelude.{◌≡◌, ◌<◌, vec_len, replicate, slice_set, IfOk};
ghost use Rattle.packet_ids.specs.Window.{unused};

use std::alloc::Global;
use vpn_base::{Moment, NoMemory};

/// An id with the moment at which it was accepted, and the stamp of the window at that time. The id 0
/// stands in a place that is not used yet.
#[derive(Clone, Copy)]
pub(crate) struct Place {
    pub(crate) stamp: u32,
    pub(crate) id: u32,
    pub(crate) moment: Moment,
}

const UNUSED: Place = Place {
    stamp: 0,
    id: 0,
    moment: Moment(0),
};

/// So many places that are not used.
pub(crate) fn unused_places(alloc: Global, n: u32) -> Result<Vec<Place>, NoMemory>
    ensures { IfOk result (λ places. places.items ≡ replicate n unused) }
{
    let mut places = Vec::new(alloc);
    places.resize(n as usize, UNUSED)?;
    Ok(places)
}

/// Puts an id into a place.
pub(crate) fn put(places: &mut Vec<Place>, i: usize, place: Place)
    requires { i < vec_len places.old }
    ensures { places.new.items ≡ slice_set places.old.items i place }
{
    places[i] = place;
}
