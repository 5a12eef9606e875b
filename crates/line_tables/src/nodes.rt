// Translated from `extend_line_ends_frontier` of src/algorithms/convex/line_convex_checker.rs of portgraph (88172a3c8e, Apache-2.0, see
// NOTICE), and changed: a node's list of lines is laid where it will stand, since its length is known from its links.
ghost use Rattle.std.specs.Prelude.{◌≡◌, ◌+◌, ◌<◌, length, get_or};
ghost use Rattle.paper.specs.Map.{in_links};
ghost use Rattle.line_tables.specs.Spread.{Over};
ghost use Rattle.line_tables.specs.Frontier.{node_at, frontier_at, ListStart, Seated, Turned};

use super::frontier::{create_new_lines, new_lines, push_lines, take_lines};
use super::room::Room;
use neighbours::Listing;
use neighbours::by_port::links_start;
use tables::Layout;
use words::section::word_at;

// Where the list of node t of the order starts.
fn list_start(area: &[u16], at: Layout, t: usize) -> usize
    requires { ListStart area.now at t }
    ensures { result ≡ at.lines + get_or area.now (at.begins + get_or area.now (at.order + t) 0) 0 }
{
    let v = word_at(area, at.order, t);
    at.lines + word_at(area, at.begins, v)
}

// Takes the lines of node t of the order, and lays its position; answers how many lines it took.
fn take_node(b: &[u8], at: Layout, area: &mut [u16], room: Room, t: usize) -> usize
    requires { Turned b.now area.old at room t × (t < at.sizes.nodes) }
    ensures { (result ≡ length (in_links b.now (node_at b.now t)))
        × Over b.now at room area.old area.new
        × Seated b.now area.new at room t }
{
    let inputs = Listing {
        firsts: room.firsts,
        keys: room.ports,
        starts: room.in_starts,
        sorted: room.in_sorted,
        end: room.stack,
    };
    let v = word_at(area, at.order, t);
    let first = links_start(area, inputs, v);
    let incoming = links_start(area, inputs, v + 1) - first;
    let list = list_start(area, at, t);
    let position = take_lines(b, at, area, room, first, list, incoming);
    area[at.positions + v] = position;
    incoming
}

// Places node t of the order on its lines, where there are `n_lines` so far; answers how many there are then.
pub fn extend_line_ends_frontier(
    b: &[u8],
    at: Layout,
    area: &mut [u16],
    room: Room,
    t: usize,
    n_lines: usize,
) -> usize
    requires { Turned b.now area.old at room t × (t < at.sizes.nodes) × (n_lines ≡ (frontier_at b.now t).count) }
    ensures { (result ≡ (frontier_at b.now (t + 1)).count)
        × Over b.now at room area.old area.new
        × Turned b.now area.new at room (t + 1) }
{
    let incoming = take_node(b, at, area, room, t);
    let v = word_at(area, at.order, t);
    let first = word_at(area, room.outs, v);
    let outgoing = word_at(area, room.outs, v + 1) - first;
    let created = new_lines(incoming, outgoing);
    let list = list_start(area, at, t);
    create_new_lines(area, list + incoming, created, n_lines);
    push_lines(area, room, first, list, outgoing);
    n_lines + created
}

// Places all nodes, in order; answers how many lines there are.
pub fn place_nodes(b: &[u8], at: Layout, area: &mut [u16], room: Room) -> usize
    requires { Turned b.now area.old at room 0 }
    ensures { (result ≡ (frontier_at b.now at.sizes.nodes).count)
        × Over b.now at room area.old area.new
        × Turned b.now area.new at room at.sizes.nodes }
{
    let mut n_lines = 0;
    for t in 0..at.sizes.nodes {
        n_lines = extend_line_ends_frontier(b, at, area, room, t, n_lines);
    }
    n_lines
}
