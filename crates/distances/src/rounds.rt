// A round: what the nodes at one distance are linked to joins at the next.
ghost use Rattle.std.specs.Prelude.{◌<◌, ◌≤◌};
ghost use Rattle.paper.specs.Map.{out_neighbours};
ghost use Rattle.distances.specs.Met.{Joins, Met};
ghost use Rattle.distances.specs.Reached.{Standing, queue_of, targets_in};

use super::Search;
use super::queue::{Queue, join};
use neighbours::{target_at, targets_start};
use words::section::word_at;

// Lets the steps that node v is linked to join at distance d; answers how many have joined.
fn join_targets(b: &[u8], at: Search, area: &mut [u16], joined: usize, v: usize, d: usize) -> usize
    requires standing { Standing b.now area.old at }
    requires met { Met area.old (queue_of at) joined }
    requires v_lt_nodes { (v < at.sizes.nodes) × (d ≤ at.sizes.nodes) }
    ensures { Joins area.old (queue_of at) joined (out_neighbours b.now v) d result area.new }
{
    let start = targets_start(b, at.sizes, area, at.links, v);
    let end = targets_start(b, at.sizes, area, at.links, v + 1);
    let queue = Queue {
        start: at.start,
        nodes: at.sizes.nodes,
    };
    let mut grown = joined;
    for i in start..end {
        let w = target_at(b, at.sizes, area, at.links, i);
        grown = join(area, queue, grown, w, d);
    }
    grown
}

// Lets all steps that the nodes from place `from` up to place `to` are linked to join at distance d; answers how many have joined.
pub fn round(b: &[u8], at: Search, area: &mut [u16], from: usize, to: usize, d: usize) -> usize
    requires standing { Standing b.now area.old at }
    requires met { Met area.old (queue_of at) to }
    requires from_le_to { (from ≤ to) × (d ≤ at.sizes.nodes) }
    ensures { Joins area.old (queue_of at) to (targets_in b.now area.old at.start from to) d result area.new }
{
    let mut grown = to;
    for t in from..to {
        let v = word_at(area, at.start, t);
        grown = join_targets(b, at, area, grown, v, d);
    }
    grown
}
