// The nodes that were met, with their marks and distances.
ghost use Rattle.std.specs.Prelude.{◌≡◌, [], ◌∷◌, ◌+◌, ◌<◌, ◌≤◌, length};
ghost use Rattle.distances.specs.Met.{Joins, ListMarked, Listed, Met, met_size, tells};

use words::section::{fill, word_at};

// Where the nodes that were met start in the area, and how many nodes there are: room for each stands there, then a mark for each, then a distance.
#[derive(Clone, Copy)]
pub struct Queue {
    pub start: usize,
    pub nodes: usize,
}

// Whether node v was met, at distance d.
pub fn at_distance(area: &[u16], queue: Queue, v: usize, d: usize) -> bool
    requires queue_in_bounds { queue.start + met_size queue.nodes ≤ length area.now }
    requires v_lt_nodes { v < queue.nodes }
    ensures { result ≡ tells area.now queue v d }
{
    let Queue { start, nodes } = queue;
    area[start + nodes + v] != 0 && word_at(area, start + nodes + nodes, v) == d
}

// Lets node v join at distance d, unless it was met before; answers how many have joined.
pub fn join(area: &mut [u16], queue: Queue, joined: usize, v: usize, d: usize) -> usize
    requires met { Met area.old queue joined }
    requires v_lt_nodes { (v < queue.nodes) × (d ≤ queue.nodes) }
    ensures { Joins area.old queue joined (v ∷ []) d result area.new }
{
    let Queue { start, nodes } = queue;
    if area[start + nodes + v] != 0 {
        return joined;
    }
    area[start + nodes + v] = 1;
    area[start + nodes + nodes + v] = d as u16;
    area[start + joined] = v as u16;
    joined + 1
}

// Marks the first `count` nodes of the queue, which are the list, and gives every node distance 0: of those that are not marked it says nothing.
pub fn mark_list(area: &mut [u16], queue: Queue, count: usize)
    requires { Listed area.old queue count }
    ensures { ListMarked area.old queue count area.new }
{
    let Queue { start, nodes } = queue;
    fill(area, start + nodes, nodes + nodes, 0);
    for i in 0..count {
        let v = usize::from(area[start + i]);
        area[start + nodes + v] = 1;
    }
}
