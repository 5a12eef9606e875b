// The path written out from its end.
ghost use Rattle.std.specs.Prelude.{◌≡◌, true, ◌≤◌, ◌<◌, length};
ghost use Rattle.std.proofs.lemmas.List.Edits.{sets};
ghost use Rattle.lists.specs.Lists.{any};
ghost use Rattle.paper.specs.Map.{L};
ghost use Rattle.distances.specs.Met.{tells};
ghost use Rattle.neighbours.specs.Linked.{in_source, in_start};
ghost use Rattle.back_path.specs.Ways.{HasWay, Sourced, in_neighbours, step_told, way_told};

use distances::queue::{Queue, at_distance};
use stepmap::access::link_from;
use words::section::word_at;

// What the way back reads, and no more, since each step of the path has it on the stack: the nodes that were met, and of the links by input port
// the nodes' first ports, where each port's links start, and the links.
#[derive(Clone, Copy)]
pub struct Back {
    pub queue: Queue,
    pub firsts: usize,
    pub starts: usize,
    pub sorted: usize,
}

// Where the links into node v start among those by input port; those into the node before it end there.
fn sources_start(b: &[u8], area: &[u16], back: Back, v: usize) -> usize
    requires sourced { Sourced b.now area.now back }
    requires v_le_nodes { v ≤ back.queue.nodes }
    ensures { result ≡ in_start b.now v }
{
    let first = word_at(area, back.firsts, v);
    word_at(area, back.starts, first)
}

// The node that the i-th of those links comes from.
fn source_at(b: &[u8], area: &[u16], back: Back, i: usize) -> usize
    requires sourced { Sourced b.now area.now back }
    requires i_bound { i < L b.now }
    ensures { result ≡ in_source b.now i }
{
    let k = word_at(area, back.sorted, i);
    link_from(b, back.queue.nodes, k)
}

// The smallest step at distance d that is linked to node v: there is one, so the search may start above every node.
fn step_before(b: &[u8], area: &[u16], back: Back, v: usize, d: usize) -> usize
    requires sourced { Sourced b.now area.now back }
    requires v_lt_nodes { v < back.queue.nodes }
    requires v_value { any (λ u. tells area.now back.queue u d) (in_neighbours b.now v) ≡ true }
    ensures { result ≡ step_told b.now area.now back.queue d v }
{
    let start = sources_start(b, area, back, v);
    let end = sources_start(b, area, back, v + 1);
    let mut least = back.queue.nodes;
    for i in start..end {
        let u = source_at(b, area, back, i);
        if at_distance(area, back.queue, u, d) {
            least = least.min(u);
        }
    }
    least
}

// Writes the path over d links from the list to node v: the step before v writes its own, with the distance one less, down to a listed step.
pub fn write_path(b: &[u8], area: &[u16], back: Back, v: usize, d: usize, buffer: &mut [u16])
    requires sourced { Sourced b.now area.now back }
    requires v_lt_nodes { v < back.queue.nodes }
    requires has_way { HasWay b.now area.now back.queue d v }
    requires d_in_bounds { d < length buffer.old }
    ensures { buffer.new ≡ sets buffer.old 0 (way_told b.now area.now back.queue d v) }
{
    if d == 0 {
        buffer[0] = v as u16;
        return;
    }
    let before = step_before(b, area, back, v, d - 1);
    write_path(b, area, back, before, d - 1, buffer);
    buffer[d] = v as u16;
}
