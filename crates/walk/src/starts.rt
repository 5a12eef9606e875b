// Translated from src/algorithms/convex/line_convex_checker.rs of portgraph (88172a3c8e, Apache-2.0, see NOTICE), and changed: the queue's
// first nodes join one by one, into the lent area.
ghost use Rattle.lists.specs.Found.{listed};
ghost use Rattle.on_line.specs.Along.{next_along};
ghost use Rattle.tables.specs.Usable.{Usable};
ghost use Rattle.tables.specs.Recorded.{Recorded};
ghost use Rattle.walk.specs.Queue.{Grown, Queued};
ghost use Rattle.walk.specs.Walks.{Laid};
ghost use Rattle.walk.specs.Starts.{Starting, LaidOut, Begun};

use super::lows::lay_lows;
use super::queue::join;
use neighbours::{Listing, lay_outgoing};
use on_line::next_on;
use tables::Layout;
use words::section::fill;

// Where the walk's words stand in the scratch: the queue and a mark for each node, a lowest position for each line, and the links.
#[derive(Clone, Copy)]
pub struct Room {
    pub queue: usize,
    pub lows: usize,
    pub links: Listing,
}

// Lays the walk's room out: an empty queue with its marks, the records' lowest positions by line, and the links by output port.
pub fn lay(b: &[u8], at: Layout, area: &mut [u16], records: &[u16], count: usize) -> Room
    requires usable { Usable b.now area.old at }
    requires recorded { Recorded b.now area.old records.now count }
    ensures { LaidOut b.now area.old records.now count at result area.new }
{
    let queue = at.scratch;
    let lows = queue + 2 * at.sizes.nodes;
    let firsts = lows + (at.sizes.links + at.sizes.nodes);
    let links = lay_outgoing(b, at.sizes, area, firsts);
    fill(area, queue, firsts - queue, 0);
    lay_lows(area, lows, records, count);
    Room { queue, lows, links }
}

// Lets the node after a position on a line join, if there is one; answers how many have joined.
fn start_on(
    area: &mut [u16],
    at: Layout,
    queue: usize,
    line: usize,
    highest: usize,
    joined: usize,
) -> usize
    requires { Starting area.old at queue line highest joined }
    ensures { Grown area.old queue at.sizes.nodes joined (listed (next_along area.old at line highest)) result area.new }
{
    match next_on(area, at, line, highest) {
        None => joined,
        Some(v) => join(area, queue, at.sizes.nodes, joined, v),
    }
}

// Starts the queue with the node after the highest position of each record; answers how many have joined.
pub fn start(
    b: &[u8],
    at: Layout,
    area: &mut [u16],
    room: Room,
    records: &[u16],
    count: usize,
) -> usize
    requires laid { Laid b.now area.old records.now count at room }
    requires queued { Queued area.old room.queue at.sizes.nodes 0 }
    ensures { Begun b.now area.old records.now count at room result area.new }
{
    let mut joined = 0;
    for i in 0..count {
        let line = usize::from(records[3 * i]);
        let highest = usize::from(records[3 * i + 2]);
        joined = start_on(area, at, room.queue, line, highest, joined);
    }
    joined
}
