// Translated from src/algorithms/convex/line_convex_checker.rs of portgraph (88172a3c8e, Apache-2.0, see NOTICE), and changed: the output
// neighbours of a node are read from its links by output port, which stand in the lent area.
ghost use Rattle.std.specs.Prelude.{◌<◌};
ghost use Rattle.paper.specs.Map.{out_neighbours};
ghost use Rattle.walk.specs.Queue.{Queued, Grown};
ghost use Rattle.walk.specs.Fitting.{Leading};

use super::queue::join;
use neighbours::{Listing, target_at, targets_start};
use stepmap::read::Sizes;

// Lets the output neighbours of node v join, by port, then link; answers how many have joined.
pub fn join_neighbours(
    b: &[u8],
    sizes: Sizes,
    area: &mut [u16],
    queue: usize,
    links: Listing,
    v: usize,
    joined: usize,
) -> usize
    requires leading { Leading b.now area.old sizes queue links }
    requires queued { Queued area.old queue sizes.nodes joined }
    requires v_lt_nodes { v < sizes.nodes }
    ensures { Grown area.old queue sizes.nodes joined (out_neighbours b.now v) result area.new }
{
    let start = targets_start(b, sizes, area, links, v);
    let end = targets_start(b, sizes, area, links, v + 1);
    let mut grown = joined;
    for i in start..end {
        let w = target_at(b, sizes, area, links, i);
        grown = join(area, queue, sizes.nodes, grown, w);
    }
    grown
}
