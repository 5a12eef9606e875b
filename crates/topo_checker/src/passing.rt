// Translated from src/algorithms/convex/topo_convex_checker.rs of portgraph (88172a3c8e, Apache-2.0, see NOTICE), and changed: the two
// sets are marks, and the places from the first listed one to the last are passed one after the other.
ghost use Rattle.std.specs.Prelude.{◌<◌};
ghost use Rattle.topo_checker.specs.Passing.{Fresh, MarkedChecked, PlacePassed, PlacesPassed, Unpassed};
ghost use Rattle.topo_checker.specs.Room.{Laid};

use super::layout::OrderRoom;
use super::listing::marked_extent;
use super::near::{mark_others, meets_listed};
use neighbours::targets_start;
use tables::Layout;
use words::section::word_at;

// Passes place i: puts its neighbours outside the list into the list's future, if it is listed or in that future itself; whether it is
// not listed, in the future, and feeds the list.
fn pass_place(
    b: &[u8],
    at: Layout,
    area: &mut [u16],
    room: OrderRoom,
    first: usize,
    last: usize,
    i: usize,
) -> bool
    requires laid { Laid b.now area.old at room }
    requires i_lt_nodes { i < at.sizes.nodes }
    ensures { PlacePassed b.now area.old at room first last i result area.new }
{
    let v = word_at(area, at.order, i);
    let start = targets_start(b, at.sizes, area, room.links, v);
    let count = targets_start(b, at.sizes, area, room.links, v + 1) - start;
    if word_at(area, room.listed, i) != 0 {
        mark_others(b, at, area, room, start, count, first, last);
        return false;
    }
    if word_at(area, room.future, i) == 0 {
        return false;
    }
    if meets_listed(b, at, area, room, start, count, first, last) {
        return true;
    }
    mark_others(b, at, area, room, start, count, first, last);
    false
}

// Whether a place that is not listed, and in the list's future, feeds the list.
fn fed_back(
    b: &[u8],
    at: Layout,
    area: &mut [u16],
    room: OrderRoom,
    first: usize,
    last: usize,
) -> bool
    requires laid { Laid b.now area.old at room }
    requires unpassed { Unpassed area.old at room first last }
    ensures { PlacesPassed b.now area.old at room first last result area.new }
{
    for i in first..=last {
        if pass_place(b, at, area, room, first, last, i) {
            return true;
        }
    }
    false
}

// Whether the places marked as listed are convex: yes for none, and where no other place feeds them from their future.
pub fn marked_convex(b: &[u8], at: Layout, area: &mut [u16], room: OrderRoom) -> bool
    requires laid { Laid b.now area.old at room }
    requires fresh { Fresh area.old at room }
    ensures { MarkedChecked b.now area.old at room result area.new }
{
    let Some((first, last)) = marked_extent(at.sizes.nodes, area, room.listed) else {
        return true;
    };
    !fed_back(b, at, area, room, first, last)
}
