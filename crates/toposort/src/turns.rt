// Translated from src/algorithms/toposort.rs of portgraph (88172a3c8e, Apache-2.0, see NOTICE), and changed: the iterator's `next`
// is a turn on the lent area, and the links by output port stand in the area.
ghost use Rattle.std.specs.Prelude.{◌≡◌, ◌+◌, ◌<◌, length};
ghost use Rattle.paper.specs.Order.{order as order_of_map, queue_after};
ghost use Rattle.toposort.specs.Standing.{Standing, laid};

use super::queue::follow;
use neighbours::{Listing, target_at, targets_start};
use tables::Layout;
use words::section::word_at;

// Turn t: takes the front of the queue and follows its links by port and listing order; answers how many have joined.
pub fn turn(
    b: &[u8],
    at: Layout,
    area: &mut [u16],
    links: Listing,
    t: usize,
    joined: usize,
) -> usize
    requires standing { Standing b.now area.old at links t joined }
    requires t_lt_joined { t < joined }
    ensures { (result ≡ length (queue_after b.now (t + 1)).joined)
        × (area.new ≡ laid b.now area.old at links (queue_after b.now (t + 1))) }
{
    let v = word_at(area, at.order, t);
    let start = targets_start(b, at.sizes, area, links, v);
    let end = targets_start(b, at.sizes, area, links, v + 1);
    let mut grown = joined;
    for i in start..end {
        let w = target_at(b, at.sizes, area, links, i);
        grown = follow(area, at.order, links.end, grown, w);
    }
    grown
}

// Takes turns until the queue is empty; answers how many nodes are ordered.
pub fn all_turns(b: &[u8], at: Layout, area: &mut [u16], links: Listing, joined: usize) -> usize
    requires { Standing b.now area.old at links 0 joined }
    ensures { (result ≡ length (order_of_map b.now))
        × (area.new ≡ laid b.now area.old at links (queue_after b.now at.sizes.nodes)) }
{
    let mut ordered = joined;
    let mut t = 0;
    // The bound moves: nodes join while they are taken, so no range counts the turns.
    while t < ordered {
        ordered = turn(b, at, area, links, t, ordered);
        t += 1;
    }
    ordered
}
