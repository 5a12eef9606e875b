// The places that a place's links lead to, and which of them are in the range and listed or not.
ghost use Rattle.std.specs.Prelude.{◌≡◌, cond, ◌+◌, ◌≤◌, ◌<◌, length, set};
ghost use Rattle.lists.specs.Lists.{any, upto};
ghost use Rattle.topo_checker.specs.Near.{OthersMarked, is_listed, is_other, place_reached};
ghost use Rattle.topo_checker.specs.Room.{Laid};

use super::layout::OrderRoom;
use neighbours::target_at;
use tables::Layout;
use words::section::word_at;

// The place of the node that the x-th of the links by output port leads to.
fn place_reached(b: &[u8], at: Layout, area: &[u16], room: OrderRoom, x: usize) -> usize
    requires laid { Laid b.now area.now at room }
    requires x_lt_links { x < at.sizes.links }
    ensures { result ≡ place_reached b.now area.now room x }
{
    let v = target_at(b, at.sizes, area, room.links, x);
    word_at(area, room.places, v)
}

// Whether place j is in the range and listed.
fn is_listed(area: &[u16], marks: usize, first: usize, last: usize, j: usize) -> bool
    requires { marks + j < length area.now }
    ensures { result ≡ is_listed area.now marks first last j }
{
    first <= j && j <= last && word_at(area, marks, j) != 0
}

// Puts place j into the list's future, if it is in the range and not listed.
fn mark_other(area: &mut [u16], room: OrderRoom, first: usize, last: usize, j: usize)
    requires { (room.listed + j < length area.old) × (room.future + j < length area.old) }
    ensures { area.new
        ≡ cond (is_other area.old room.listed first last j) (set area.old (room.future + j) 1) area.old }
{
    if first <= j && j <= last && word_at(area, room.listed, j) == 0 {
        area[room.future + j] = 1;
    }
}

// Whether one of the links from `start` on leads to a listed place in the range.
pub fn meets_listed(
    b: &[u8],
    at: Layout,
    area: &[u16],
    room: OrderRoom,
    start: usize,
    count: usize,
    first: usize,
    last: usize,
) -> bool
    requires laid { Laid b.now area.now at room }
    requires count_bound { start + count ≤ at.sizes.links }
    ensures { result
        ≡ any (λ x. is_listed area.now room.listed first last (place_reached b.now area.now room (start + x))) (upto count) }
{
    (0..count).any(|x| {
        let j = place_reached(b, at, area, room, start + x);
        is_listed(area, room.listed, first, last, j)
    })
}

// Puts the places in the range that the links from `start` on lead to, and that are not listed, into the list's future.
pub fn mark_others(
    b: &[u8],
    at: Layout,
    area: &mut [u16],
    room: OrderRoom,
    start: usize,
    count: usize,
    first: usize,
    last: usize,
)
    requires laid { Laid b.now area.old at room }
    requires count_bound { start + count ≤ at.sizes.links }
    ensures { OthersMarked b.now area.old at room start count first last area.new }
{
    for x in 0..count {
        let j = place_reached(b, at, area, room, start + x);
        mark_other(area, room, first, last, j);
    }
}
