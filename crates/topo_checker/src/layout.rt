// What the order check reads, laid into the scratch: the links by output port, marks for the places, and each node's place.
ghost use Rattle.tables.specs.Usable.{Usable};
ghost use Rattle.topo_checker.specs.Room.{LaidOut, Ordered, PlacesKept};

use neighbours::{Listing, lay_outgoing};
use tables::Layout;
use words::section::{fill, word_at};

// Where it stands: the links by output port, a mark for each place that says whether it is listed, one that says whether it is in the
// list's future, and each node's place.
#[derive(Clone, Copy)]
pub struct OrderRoom {
    pub links: Listing,
    pub listed: usize,
    pub future: usize,
    pub places: usize,
}

// Stores the place of each node in the order at `places` (the Rust's `topsort_ind`).
fn keep_places(at: Layout, area: &mut [u16], places: usize)
    requires { Ordered area.old at places }
    ensures { PlacesKept area.old at places area.new }
{
    for i in 0..at.sizes.nodes {
        let v = word_at(area, at.order, i);
        area[places + v] = i as u16;
    }
}

// Lays out all that the order check reads, from the start of the scratch on; no place is marked yet.
pub fn lay_out(b: &[u8], at: Layout, area: &mut [u16]) -> OrderRoom
    requires { Usable b.now area.old at }
    ensures { LaidOut b.now area.old at result area.new }
{
    let links = lay_outgoing(b, at.sizes, area, at.scratch);
    let listed = links.end;
    let future = listed + at.sizes.nodes;
    let places = future + at.sizes.nodes;
    keep_places(at, area, places);
    fill(area, listed, 2 * at.sizes.nodes, 0);
    OrderRoom {
        links,
        listed,
        future,
        places,
    }
}
