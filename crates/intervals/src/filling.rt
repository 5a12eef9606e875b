// Translated from src/algorithms/convex/line_convex_checker.rs of portgraph (88172a3c8e, Apache-2.0, see NOTICE), and changed: the test
// in the last loop of `get_intervals_from_nodes` is a function of its own, which is given the line's nodes as a part of the area.
ghost use Rattle.std.specs.Prelude.{◌≡◌, true, ◌≤◌, ◌<◌};
ghost use Rattle.lists.specs.Lists.{all, member, upto};
ghost use Rattle.lookup.specs.Line.{Line, positions_on};
ghost use Rattle.intervals.specs.Filling.{TestedAll, TestedRecord, fills_along, fills_record};

use crate::layout::MapRoom;
use lookup::{find_index, position_at};
use tables::{Layout, entries};
use words::section::word_at;

// Whether `count` of a line's nodes fill the interval from `low` to `high`: the node count - 1 places after the lowest is the highest.
fn fills_line(nodes: &[u16], positions: &[u16], low: usize, high: usize, count: usize) -> bool
    requires line { Line nodes.now positions.now }
    requires positions_value { member low (positions_on nodes.now positions.now) ≡ true }
    requires le_count { (1 ≤ count) × (count < 65536) }
    ensures { result ≡ fills_along (positions_on nodes.now positions.now) low high count }
{
    let Some(first) = find_index(nodes, positions, low) else {
        return false;
    };
    let last = first + count - 1;
    last < nodes.len() && position_at(nodes, positions, last) == high
}

// Whether record i is filled: its line's nodes, the part of the area between two line starts, are given to the test.
fn fills_record(area: &[u16], at: Layout, room: MapRoom, records: &[u16], i: usize) -> bool
    requires { TestedRecord area.now at room records.now i }
    ensures { result ≡ fills_record area.now at room records.now i }
{
    let x = usize::from(records[3 * i]);
    let low = word_at(records, 3 * i, 1);
    let high = word_at(records, 3 * i, 2);
    let count = word_at(area, room.counts, x);
    let nodes = entries(area, at.starts, at.along, x);
    let first = at.positions;
    let end = first + at.sizes.nodes;
    fills_line(nodes, &area[first..end], low, high, count)
}

// Whether each of the `made` records is filled.
pub fn all_filled(area: &[u16], at: Layout, room: MapRoom, records: &[u16], made: usize) -> bool
    requires { TestedAll area.now at room records.now made }
    ensures { result ≡ all (fills_record area.now at room records.now) (upto made) }
{
    (0..made).all(|i| fills_record(area, at, room, records, i))
}
