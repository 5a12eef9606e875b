// The list as a set of places: a mark for each, and the first and the last of them (the Rust's `nodes` and `node_range`).
ghost use Rattle.std.specs.Prelude.{◌≡◌, cond, ◌+◌, ◌≤◌, ◌<◌, eqb, length, get_or};
ghost use Rattle.topo_checker.specs.Listing.{ExtentOf, ListTaken, NodeTaken, Unlisted, wider};
ghost use Rattle.topo_checker.specs.Room.{PlacesStand};

use super::layout::OrderRoom;
use refusals::Refusal;
use tables::Layout;
use words::entries::Entries;
use words::section::word_at;

// Marks the place of node v, if there is such a node; whether there is.
pub fn take_node(at: Layout, area: &mut [u16], room: OrderRoom, v: usize) -> bool
    requires { PlacesStand area.old at room }
    ensures { NodeTaken area.old at room v result area.new }
{
    if v >= at.sizes.nodes {
        return false;
    }
    let i = word_at(area, room.places, v);
    area[room.listed + i] = 1;
    true
}

// Takes in the list, an entry at a time, and marks the places of its nodes: 9 is the first unknown one.
pub fn take_list<E: Entries + Copy>(
    at: Layout,
    area: &mut [u16],
    room: OrderRoom,
    list: E,
) -> Result<(), Refusal>
    requires places_stand { PlacesStand area.old at room }
    requires unlisted { Unlisted area.old at room }
    ensures { ListTaken area.old at room (E.entries list) result area.new }
{
    for i in 0..list.count() {
        if !take_node(at, area, room, usize::from(list.entry(i))) {
            return Err(Refusal::Unknown(i));
        }
    }
    Ok(())
}

// The first and the last of a set of places with place i, which is higher than all before it, if it is marked.
fn widened(
    area: &[u16],
    marks: usize,
    ends: Option<(usize, usize)>,
    i: usize,
) -> Option<(usize, usize)>
    requires { marks + i < length area.now }
    ensures { result ≡ cond (eqb (get_or area.now (marks + i) 0) 0) ends (wider ends i) }
{
    if word_at(area, marks, i) == 0 {
        return ends;
    }
    match ends {
        None => Some((i, i)),
        Some((first, _)) => Some((first, i)),
    }
}

// The first and the last of the places marked, if there are any.
pub fn marked_extent(n: usize, area: &[u16], marks: usize) -> Option<(usize, usize)>
    requires { marks + n ≤ length area.now }
    ensures { ExtentOf area.now marks n result }
{
    let mut ends = None;
    for i in 0..n {
        ends = widened(area, marks, ends, i);
    }
    ends
}
