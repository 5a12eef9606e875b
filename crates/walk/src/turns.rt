// Translated from src/algorithms/convex/line_convex_checker.rs of portgraph (88172a3c8e, Apache-2.0, see NOTICE), and changed: the loop of
// `is_convex_by_intervals` is a turn on the lent area, and the answer carries its count.
ghost use Rattle.walk.specs.Turns.{Turning, Turned};
ghost use Rattle.walk.specs.Walks.{Started, Ended};

use super::links::join_neighbours;
use super::lows::{largest_lowest, stands_below};
use super::starts::Room;
use answers::Verdict;
use tables::Layout;
use words::section::word_at;

// Turn t: takes the node that joined t-th; above `top` it cannot come before any record. Answers how many have joined and how many were counted,
// or that this node, the next to be counted, comes before a record.
fn turn(
    b: &[u8],
    at: Layout,
    area: &mut [u16],
    room: Room,
    top: usize,
    t: usize,
    joined: usize,
    counted: usize,
) -> Option<(usize, usize)>
    requires { Turning b.now area.old at room t joined counted }
    ensures { Turned b.now area.old at room top t joined counted result area.new }
{
    let v = word_at(area, room.queue, t);
    if top < word_at(area, at.positions, v) {
        return Some((joined, counted));
    }
    if stands_below(area, at, room.lows, v) {
        return None;
    }
    let grown = join_neighbours(b, at.sizes, area, room.queue, room.links, v, joined);
    Some((grown, counted + 1))
}

// Takes turns until one says no or all who joined were taken.
pub fn turns(
    b: &[u8],
    at: Layout,
    area: &mut [u16],
    room: Room,
    records: &[u16],
    count: usize,
    joined: usize,
) -> Verdict
    requires { Started b.now area.old records.now count at room joined }
    ensures { Ended b.now area.old records.now count at room result area.new }
{
    let top = largest_lowest(records, count);
    let mut grown = joined;
    let mut counted = 0;
    let mut t = 0;
    // The bound moves: nodes join while they are taken, so no range counts the turns.
    while t < grown {
        let Some(after) = turn(b, at, area, room, top, t, grown, counted) else {
            return Verdict::No(counted + 1);
        };
        (grown, counted) = after;
        t += 1;
    }
    Verdict::Yes(counted)
}
